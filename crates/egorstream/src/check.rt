// The check of a table for callers in C: a file's bytes and a table's in, yes or the state that is broken out.
ghost use Rattle.meaning.specs.Block.{whole_file};
ghost use Rattle.egorstream.specs.Check.{Checks};

use equations::Verdict;

// A refusal's number and place; or 0, 0, and 1 for yes; or 0, 0, 0 and the state.
#[repr(C)]
#[derive(Clone, Copy)]
pub struct Checked {
    pub number: u32,
    pub place: u32,
    pub right: u32,
    pub state: u32,
}

pub fn egorstream_check(file: &[u8], shares: &[u8]) -> Checked
    ensures { Checks (whole_file file.now) shares.now result }
{
    match figures::check(file, 0, shares) {
        Err(r) => Checked {
            number: r.fault.number(),
            place: r.place as u32,
            right: 0,
            state: 0,
        },
        Ok(Verdict::Yes) => Checked {
            number: 0,
            place: 0,
            right: 1,
            state: 0,
        },
        Ok(Verdict::No(state)) => Checked {
            number: 0,
            place: 0,
            right: 0,
            state: state as u32,
        },
    }
}
