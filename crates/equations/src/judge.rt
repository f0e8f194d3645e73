// Whether a table of shares, one for each state, is the chance at every state.
ghost use Rattle.std.specs.Prelude.{[], ◌*◌, ◌^◌, ◌<◌, length};
ghost use Rattle.meaning.specs.Number.{decides};
ghost use Rattle.meaning.specs.Judge.{NumeratorFault, JudgeOutcome};
ghost use Rattle.chain.specs.Given.{with};
ghost use Rattle.look.specs.Least.{least};
ghost use Rattle.equations.specs.Judge.{Differs, DiffersAt, Fits, Known, told};

use crate::flow::flows;
use crate::verdict::Verdict;
use chain::Chain;
use chain::given::Given;
use chain::refusal::{Fault, Refusal, refuse};
use chain::set::holds;
use chain::table::at;
use look::scan::out_of_range;

// The first share above the whole.
fn too_large(whole: u64, shares: &[u64]) -> Option<usize>
    ensures { let l = shares.now in least (NumeratorFault (length l) whole l) result }
{
    shares.iter().position(|share| whole < *share)
}

// Whether a share is not what is asked of its state: its goal value, its zero or its equation.
fn differs(goal: bool, leads: bool, whole: u64, share: u64, denominator: u64, carried: u64) -> bool
    requires { denominator * share < 2 ^ 64 }
    ensures { decides (Differs goal leads whole share denominator carried) result }
{
    if goal {
        share != whole
    } else if leads {
        denominator * share != carried
    } else {
        share != 0
    }
}

// The first state that is broken: every state is looked at, also those that the start cannot reach.
fn broken(
    c: Chain,
    good: u64,
    whole: u64,
    shares: &[u64],
    denominators: &[u64],
    carried: &[u64; Chain::STATES],
) -> Option<usize>
    requires { Fits c.states shares.now denominators.now }
    ensures { let d = denominators.now in
        least (DiffersAt c.states c.goals good whole shares.now d carried.now) result }
{
    for state in 0..c.states {
        let goal = holds(c.goals, state);
        let leads = holds(good, state);
        let share = at(shares, state);
        let denominator = at(denominators, state);
        if differs(goal, leads, whole, share, denominator, carried[state]) {
            return Some(state);
        }
    }
    None
}

// The verdict on a table for a well-formed chain, of which it is known which states have a path to a goal.
pub(crate) fn table(g: &Given, good: u64, whole: u64, shares: &[u64]) -> Result<Verdict, Refusal>
    requires { Known (with g.now [] [] []) shares.now good }
    ensures { JudgeOutcome (with g.now [] [] []) whole shares.now (told result) }
{
    if out_of_range(whole) {
        return Err(Refusal::from(Fault::TableDenominator));
    }
    refuse(Fault::TableNumerator, too_large(whole, shares))?;
    let carried = flows(g.edges, shares);
    Ok(
        match broken(g.chain, good, whole, shares, g.denominators, &carried) {
            Some(state) => Verdict::No(state),
            None => Verdict::Yes,
        },
    )
}
