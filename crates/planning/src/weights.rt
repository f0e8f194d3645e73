// The weights of a loss, a rebuild and the finish, with which plans of all numbers of copies are made.
ghost use Rattle.std.specs.Prelude.{◌≡◌};
ghost use Rattle.meaning.specs.PlanTable.{with_copies};
ghost use Rattle.copies.specs.Told.{told_plan};
ghost use Rattle.meaning.specs.Outcome.{refusal};
ghost use Rattle.figures.specs.Told.{told_answer};
ghost use Rattle.planning.specs.Told.{told_weights, Weighed};

use copies::{LONGEST, Plan, file};
use egorstream::Written;
use figures::Answer;

#[derive(Clone, Copy)]
pub struct Weights {
    pub loss: u64,
    pub rebuild: u64,
    pub finish: u64,
}

pub(crate) fn with_copies(w: Weights, copies: u64) -> Plan
    ensures { told_plan result ≡ with_copies (told_weights w) copies }
{
    Plan {
        copies,
        loss: w.loss,
        rebuild: w.rebuild,
        finish: w.finish,
    }
}

// Why they are refused, with any number of copies; or the number 0.
pub(crate) fn weighed(w: Weights) -> Written
    ensures { Weighed (told_weights w) result.number result.place }
{
    let mut buffer = [0u8; LONGEST];
    file(with_copies(w, 1), &mut buffer)
}

// The answer that is printed of a refusal.
pub(crate) fn refused(number: u32, place: u32) -> Answer
    ensures { told_answer result ≡ refusal number place }
{
    Answer::refusal(number, place as usize)
}
