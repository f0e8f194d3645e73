// The step list for callers in C: a file's bytes in, a record for each removed state out into a lent list.
ghost use Rattle.std.specs.Prelude.{map, length};
ghost use Rattle.meaning.specs.Block.{whole_file};
ghost use Rattle.meaning.specs.FileSteps.{FileSteps};
ghost use Rattle.figures.specs.Traced.{FileTraced};
ghost use Rattle.steplist.specs.Told.{told};
ghost use Rattle.egorstream.specs.Steps.{SmallPlace, Replies, answer_of};

use engines::answer::Trace;
use steplist::StepRecord;
use steplist::list::fill;

// A refusal's number and place, or 0 and the chance; and how many records were written.
#[repr(C)]
#[derive(Clone, Copy)]
pub struct Stepped {
    pub number: u32,
    pub place: u32,
    pub count: u64,
    pub numerator: u64,
    pub denominator: u64,
}

fn traced(file: &[u8], list: usize) -> Trace
    ensures { FileTraced (whole_file file.now) list result }
{
    figures::steps(file, 0, list)
}

fn reply(t: Trace) -> Stepped
    requires { SmallPlace t }
    ensures { Replies t result }
{
    let numbers = t.numbers;
    let count = numbers[0];
    match t.chance {
        Ok(f) => Stepped {
            number: 0,
            place: 0,
            count,
            numerator: f.numerator,
            denominator: f.denominator,
        },
        Err(r) => Stepped {
            number: r.fault.number(),
            place: r.place as u32,
            count,
            numerator: 0,
            denominator: 0,
        },
    }
}

// A record for each removed state, from the front of the list.
pub fn egorstream_steps(file: &[u8], list: &mut [StepRecord]) -> Stepped
    ensures { let f = whole_file file.now in
        let before = list.old in
        FileSteps f (length before) (map told before) (answer_of result) result.count (map told list.new) }
{
    let t = traced(file, list.len());
    fill(list, t);
    reply(t)
}
