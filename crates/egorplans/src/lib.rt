// The calls from C for plans of copies.
#![tactic(auto)]

ghost use Rattle.meaning.specs.Copies.{plan_of, CopiesOutcome};
ghost use Rattle.copies.specs.Told.{told};
ghost use Rattle.planning.specs.Told.{PlanNears};

use copies::{Plan, Planned, chance};
use egorstream::Nearness;
use planning::near;

// The chance that no copy is left before the finish.
#[unsafe(no_mangle)]
pub extern "C" fn egorstream_copies(copies: u64, loss: u64, rebuild: u64, finish: u64) -> Planned
    ensures { CopiesOutcome (plan_of copies loss rebuild finish) (told result) }
{
    chance(Plan {
        copies,
        loss,
        rebuild,
        finish,
    })
}

// It between two figures, and what is wanting of it to 1, however small.
#[unsafe(no_mangle)]
pub extern "C" fn egorstream_plan_near(
    copies: u64,
    loss: u64,
    rebuild: u64,
    finish: u64,
) -> Nearness
    ensures { PlanNears (plan_of copies loss rebuild finish) result }
{
    near(Plan {
        copies,
        loss,
        rebuild,
        finish,
    })
}
