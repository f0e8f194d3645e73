// The calls from C, by their exported names: each hands on to the function of that name in egorstream and promises the same. This crate is built as
// the archive, since a library is none.
#![tactic(auto)]

ghost use Rattle.std.specs.Prelude.{map, length};
ghost use Rattle.meaning.specs.Block.{whole_file};
ghost use Rattle.meaning.specs.Call.{CallOutcome};
ghost use Rattle.meaning.specs.Choice.{FileChoice};
ghost use Rattle.meaning.specs.FileNear.{own, state as number};
ghost use Rattle.meaning.specs.FileSteps.{FileSteps};
ghost use Rattle.meaning.specs.Limit.{limit};
ghost use Rattle.meaning.specs.Translate.{TextedOutcome, MakeOutcome};
ghost use Rattle.meaning.specs.Within.{FileWithin};
ghost use Rattle.meaning.specs.Write.{WriteOutcome};
ghost use Rattle.steplist.specs.Told.{told as told_record};
ghost use Rattle.egorstream.specs.Check.{Checks};
ghost use Rattle.egorstream.specs.Limits.{Limits};
ghost use Rattle.egorstream.specs.Near.{Nears};
ghost use Rattle.egorstream.specs.Order.{told_order};
ghost use Rattle.egorstream.specs.Reach.{told as told_parts};
ghost use Rattle.egorstream.specs.Steps.{answer_of};
ghost use Rattle.egorstream.specs.Told.{told, lent};

use egorstream::{Checked, Limited, Nearness, Ordered, Reached, Stepped, Written};
use steplist::StepRecord;

// Returns the number of refusal, 0 where the answer is written.
#[unsafe(no_mangle)]
pub extern "C" fn egorstream_chance(file: &[u8], mode: u32, answer: &mut [u8]) -> u32
    ensures { CallOutcome file.now mode answer.old result answer.new }
{
    egorstream::egorstream_chance(file, mode, answer)
}

#[unsafe(no_mangle)]
pub extern "C" fn egorstream_check(file: &[u8], shares: &[u8]) -> Checked
    ensures { Checks (whole_file file.now) shares.now result }
{
    egorstream::egorstream_check(file, shares)
}

// The limit is digits over 10 ^ tens.
#[unsafe(no_mangle)]
pub extern "C" fn egorstream_limit(file: &[u8], digits: u64, tens: u64) -> Limited
    ensures { Limits (whole_file file.now) (limit digits tens) result }
{
    egorstream::egorstream_limit(file, digits, tens)
}

// From the file's own start.
#[unsafe(no_mangle)]
pub extern "C" fn egorstream_near(file: &[u8]) -> Nearness
    ensures { Nears (whole_file file.now) own result }
{
    egorstream::egorstream_near(file)
}

// From a state that takes the place of the file's start.
#[unsafe(no_mangle)]
pub extern "C" fn egorstream_near_from(file: &[u8], state: u64) -> Nearness
    ensures { Nears (whole_file file.now) (number state) result }
{
    egorstream::egorstream_near_from(file, state)
}

#[unsafe(no_mangle)]
pub extern "C" fn egorstream_order(file: &[u8], list: &mut [u64]) -> Ordered
    ensures { FileChoice (whole_file file.now) list.old (told_order result) list.new }
{
    egorstream::egorstream_order(file, list)
}

// A record for each removed state, from the front of the list.
#[unsafe(no_mangle)]
pub extern "C" fn egorstream_steps(file: &[u8], list: &mut [StepRecord]) -> Stepped
    ensures { let f = whole_file file.now in
        let before = list.old in
        FileSteps f (length before) (map told_record before) (answer_of result) result.count (map told_record list.new) }
{
    egorstream::egorstream_steps(file, list)
}

#[unsafe(no_mangle)]
pub extern "C" fn egorstream_show(file: &[u8], buffer: &mut [u8]) -> Written
    ensures { TextedOutcome (whole_file file.now) buffer.old (told result) buffer.new }
{
    egorstream::egorstream_show(file, buffer)
}

#[unsafe(no_mangle)]
pub extern "C" fn egorstream_make(text: &[u8], buffer: &mut [u8]) -> Written
    ensures { MakeOutcome (whole_file text.now) buffer.old (told result) buffer.new }
{
    egorstream::egorstream_make(text, buffer)
}

#[unsafe(no_mangle)]
pub extern "C" fn egorstream_within(file: &[u8], steps: u64) -> Reached
    ensures { FileWithin (whole_file file.now) steps (told_parts result) }
{
    egorstream::egorstream_within(file, steps)
}

#[unsafe(no_mangle)]
pub extern "C" fn egorstream_write(
    states: u64,
    start: u64,
    goals: u64,
    denominators: &[u64],
    edges: &[u64],
    order: &[u64],
    rewards: &[u64],
    buffer: &mut [u8],
) -> Written
    ensures { let l = lent states start goals denominators.now edges.now order.now rewards.now in
        WriteOutcome (l buffer.old) (told result) buffer.new }
{
    egorstream::egorstream_write(
        states,
        start,
        goals,
        denominators,
        edges,
        order,
        rewards,
        buffer,
    )
}
