// The walk through the order: each state that goes is removed at its turn.
ghost use Rattle.std.specs.Prelude.{◌≡◌, [], ℕ, ◌<◌, length, get_or, is_some};
ghost use Rattle.meaning.specs.Number.{choose};
ghost use Rattle.meaning.specs.Chain.{most_states};
ghost use Rattle.meaning.specs.Step.{removed};
ghost use Rattle.meaning.specs.Steps.{record_of};
ghost use Rattle.elimination.specs.Engine.{rounds};
ghost use Rattle.elimination.specs.Table.{table_of, Fitting};
ghost use Rattle.elimination.specs.Turn.{Made};
ghost use Rattle.elimination.specs.Log.{Logged, Roomy, LoggedMore};
ghost use Rattle.elimination.specs.Order.{going, walked, walked_to, records_walked};

use crate::engine::Elimination;
use crate::log::remove_noted;
use chain::refusal::{Fault, Refusal};
use chain::set::holds;

// Whether the state s is removed at its turn.
fn goes(e: &Elimination, s: usize) -> bool
    requires { s < most_states }
    ensures { result ≡ going e.now s }
{
    s != e.given.chain.start && holds(e.sets.live, s)
}

// The turn of the state s, which is noted where a log is asked for; nothing where a row does not fit.
fn turn(work: &mut [u64], e: &Elimination, s: usize, log: &mut [u64]) -> Option<()>
    requires { let n = e.now.given.chain.states in Fitting (rounds e.now.engine) n work.old × (s < n) × Roomy log.old }
    ensures { let b = rounds e.now.engine in
        let n = e.now.given.chain.states in
        let w = work.old in
        let t = table_of n w in
        Made b n (choose (going e.now s) (removed b n s t) t) w work.new result
        × LoggedMore (going e.now s) (record_of n s t) log.old log.new (is_some result) }
{
    if !goes(e, s) {
        return Some(());
    }
    remove_noted(work, e.given.chain.states, s, e.engine.rounding(), log)
}

// Takes the states in their order, up to the first after whose step a row does not fit: the place is its position. The log, where one is asked for,
// has the finished steps.
pub(crate) fn eliminate(
    work: &mut [u64],
    e: &Elimination,
    order: &[u64],
    log: &mut [u64],
) -> Result<(), Refusal>
    requires fitting { let n = e.now.given.chain.states in Fitting (rounds e.now.engine) n work.old × (length order.now ≡ n) × Logged log.old [] }
    requires order_fits { let n = e.now.given.chain.states in ((p : ℕ) → p < n → get_or order.now p 0 < n) }
    ensures { let b = rounds e.now.engine in
        let n = e.now.given.chain.states in
        let o = order.now in
        let w = work.old in
        walked b n (going e.now) o w work.new result × Logged log.new (records_walked b n (going e.now) o w (walked_to n result)) }
{
    for (p, s) in order.iter().enumerate() {
        turn(work, e, *s as usize, log).ok_or(Refusal::at(Fault::NoFit, p))?;
    }
    Ok(())
}
