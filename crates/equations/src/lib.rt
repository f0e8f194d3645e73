// The equations of a chain, taken as they stand: what its edges carry, the chance within so many steps, and whether a table is the chance at
// every state.
#![tactic(auto)]

ghost use Rattle.std.specs.Prelude.{[]};
ghost use Rattle.meaning.specs.Judge.{JudgeOutcome};
ghost use Rattle.chain.specs.Given.{with};
ghost use Rattle.equations.specs.Judge.{told};
ghost use Rattle.equations.specs.Told.{Withins};

use chain::given::Given;
use chain::refusal::{Fault, Refusal};

mod flow;
mod judge;
mod round;
mod verdict;

pub use round::PARTS;
pub use verdict::Verdict;

// The most steps.
pub const STEPS: u64 = 1000;

// The chance of having reached a goal within so many steps, as how many of all parts the start holds: at most the true chance, and short of it by
// at most a part for each step.
pub fn within(g: &Given, steps: u64) -> Result<u64, Refusal>
    ensures { Withins (with g.now [] [] []) steps result }
{
    if STEPS < steps {
        return Err(Refusal::from(Fault::Steps));
    }
    look::bare(g)?;
    Ok(round::rounds(g, steps))
}

// Whether a table is the chance at every state: one denominator, and a numerator for each state.
pub fn check(g: &Given, denominator: u64, numerators: &[u64]) -> Result<Verdict, Refusal>
    ensures { JudgeOutcome (with g.now [] [] []) denominator numerators.now (told result) }
{
    if numerators.len() != g.chain.states {
        return Err(Refusal::from(Fault::Length));
    }
    let found = survey::of(g)?;
    judge::table(g, found.sets.good, denominator, numerators)
}
