// The chain file of a plan, made by the writer.
ghost use Rattle.std.specs.Prelude.{◌≡◌};
ghost use Rattle.meaning.specs.Buffer.{no_writing};
ghost use Rattle.meaning.specs.Write.{WriteOutcome};
ghost use Rattle.meaning.specs.Copies.{Sensible, copies_for, PlanFiled};
ghost use Rattle.egorstream.specs.Told.{told};
ghost use Rattle.copies.specs.Told.{told_plan};

use crate::plan::Plan;
use crate::{edges, plan, states};
use egorstream::{BLOCK_LENGTH, Written, egorstream_write};

// The longest file: the head, a block of states and two of edges.
pub const LONGEST: usize = 4 * BLOCK_LENGTH;

// No copy left is the only goal.
const GOALS: u64 = 1;

fn tables(plan: Plan, buffer: &mut [u8]) -> Written
    requires { Sensible (told_plan plan) }
    ensures { WriteOutcome (copies_for (told_plan plan) buffer.old) (told result) buffer.new }
{
    let mut denominators = [0u64; states::MOST];
    let mut list = [0u64; edges::MOST];
    let mut order = [0u64; states::MOST];
    let rewards = [0u64; states::MOST];
    let states = plan.copies as usize + 2;
    states::denominators(&mut denominators, plan);
    let end = edges::edges(&mut list, plan);
    states::rising(&mut order, states);
    egorstream_write(
        plan.copies + 2,
        plan.copies,
        GOALS,
        &denominators[..states],
        &list[..end],
        &order[..states],
        &rewards[..states],
        buffer,
    )
}

fn refused(number: u32, place: u32) -> Written
    ensures { told result ≡ no_writing number place }
{
    Written {
        number,
        place,
        length: 0,
    }
}

// The plan's file at the front of the buffer, and how long it is. Both tests are made before one is looked at; 30 comes first, and 2 for the
// buffer is the writer's.
pub fn file(plan: Plan, buffer: &mut [u8]) -> Written
    ensures { PlanFiled (told_plan plan) buffer.old (told result) buffer.new }
{
    let many = plan::beyond(plan::COPIES, plan.copies);
    let wrong = plan::wrong(plan);
    if many {
        return refused(30, 0);
    }
    if let Some(place) = wrong {
        return refused(31, place as u32);
    }
    tables(plan, buffer)
}
