// The call from C: the chance of the chain in a file, written as four numbers of 4 bytes.
ghost use Rattle.std.specs.Prelude.{◌≤◌, length};
ghost use Rattle.meaning.specs.Call.{exact_mode, bounds_mode, answer_length, CallOutcome};
ghost use Rattle.egorstream.specs.Answered.{Answered};

use crate::reply;
use chain::refusal::Refusal;
use engines::answer::Bounds;

// The modes: the default means bounds.
pub const MODE_DEFAULT: u32 = 0;

pub const MODE_EXACT: u32 = 1;

pub const MODE_BOUNDS: u32 = 2;

// Writes two fractions, and answers 0; or the number by which there are none, and then the bytes stay.
fn answered(found: Result<Bounds, Refusal>, answer: &mut [u8]) -> u32
    requires { answer_length ≤ length answer.old }
    ensures { Answered found answer.old result answer.new }
{
    match found {
        Ok(b) => {
            reply::reply(answer, b.lower, b.upper);
            0
        }
        Err(r) => r.fault.number(),
    }
}

// The exact fraction stands twice.
fn exact(file: &[u8], answer: &mut [u8]) -> u32
    requires { answer_length ≤ length answer.old }
    ensures { CallOutcome file.now exact_mode answer.old result answer.new }
{
    let chance = figures::chance(file, 0);
    answered(chance.map(|p| Bounds { lower: p, upper: p }), answer)
}

fn between(file: &[u8], answer: &mut [u8]) -> u32
    requires { answer_length ≤ length answer.old }
    ensures { CallOutcome file.now bounds_mode answer.old result answer.new }
{
    answered(figures::bounds(file, 0), answer)
}

// Returns the number of refusal, 0 where the answer is written.
pub fn egorstream_chance(file: &[u8], mode: u32, answer: &mut [u8]) -> u32
    ensures { CallOutcome file.now mode answer.old result answer.new }
{
    if MODE_BOUNDS < mode {
        return 1;
    }
    if answer.len() < reply::ANSWER_LENGTH {
        return 2;
    }
    match mode {
        MODE_EXACT => exact(file, answer),
        _ => between(file, answer),
    }
}
