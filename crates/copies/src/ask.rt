// The chain file of a plan is handed to the C entry, and the fraction is read from the bytes of its answer.
ghost use Rattle.std.specs.Prelude.{◌+◌, ◌≤◌, ◌<◌, ◌≡◌, length};
ghost use Rattle.meaning.specs.Block.{whole_file, number_at};
ghost use Rattle.meaning.specs.Outcome.{refusal};
ghost use Rattle.meaning.specs.Copies.{CopiesOutcome};
ghost use Rattle.copies.specs.Told.{told_plan, told};

use crate::plan::Plan;
use crate::write;
use egorstream::{ANSWER_LENGTH, MODE_EXACT, egorstream_chance};

// A refusal's number and place, with 0 over 0; or 0, 0 and the chance.
#[repr(C)]
#[derive(Clone, Copy)]
pub struct Planned {
    pub number: u32,
    pub place: u32,
    pub numerator: u64,
    pub denominator: u64,
}

fn refused(number: u32, place: u32) -> Planned
    ensures { told result ≡ refusal number place }
{
    Planned {
        number,
        place,
        numerator: 0,
        denominator: 0,
    }
}

// The number in the four bytes of an answer from `at` on.
fn number(answer: &[u8], at: usize) -> u64
    requires { at + 4 ≤ length answer.now }
    ensures { result ≡ number_at (whole_file answer.now) at 4 }
{
    u64::from(u32::from_le_bytes([answer[at], answer[at + 1], answer[at + 2], answer[at + 3]]))
}

// The chance that no copy is left before the finish. Of a plan's file nothing but 12 is refused, and of that the entry gives no place.
pub fn chance(plan: Plan) -> Planned
    ensures { CopiesOutcome (told_plan plan) (told result) }
{
    let mut buffer = [0u8; write::LONGEST];
    let filed = write::file(plan, &mut buffer);
    if filed.number != 0 {
        return refused(filed.number, filed.place);
    }
    let length = filed.length as usize;
    let mut answer = [0u8; ANSWER_LENGTH];
    let returned = egorstream_chance(&buffer[..length], MODE_EXACT, &mut answer);
    if returned != 0 {
        return refused(returned, 0);
    }
    Planned {
        number: 0,
        place: 0,
        numerator: number(&answer, 0),
        denominator: number(&answer, 4),
    }
}
