// The elimination, from the first rows to the start's row.
ghost use Rattle.std.specs.Prelude.{◌≡◌, [], ◌≤◌, ◌<◌};
ghost use Rattle.meaning.specs.Chain.{most_states};
ghost use Rattle.chain.specs.Given.{with};
ghost use Rattle.elimination.specs.Engine.{rounds, is_paid, is_short, read_by};
ghost use Rattle.elimination.specs.Packed.{states_of, unpacked, Packed};
ghost use Rattle.elimination.specs.Row.{Fit};
ghost use Rattle.elimination.specs.Table.{row_at, Blank, Kept, Fitting};
ghost use Rattle.survey.specs.Sets.{sets_of};
ghost use Rattle.elimination.specs.Pay.{pays};
ghost use Rattle.elimination.specs.Log.{Logged};
ghost use Rattle.elimination.specs.Run.{ends, end_of, Begun, runs, finished_in, records_run};

use crate::course::Ends;
use crate::engine::Elimination;
use crate::first::first_rows;
use crate::part::{GOAL, REWARD, UNKNOWN};
use crate::step::outside;
use crate::walk::eliminate;
use crate::work::row_start;
use chain::Chain;
use chain::refusal::{Fault, Refusal};
use chain::set::holds;

// The start's row at the end.
fn last(part: &[u64], start: usize, rounding: bool) -> Ends
    requires { let n = states_of part.now in
        (n ≤ most_states) × (start < n) × Packed n part.now × Fit rounding n (unpacked n part.now) }
    ensures { let p = part.now in
        let n = states_of p in
        result ≡ end_of n start (unpacked n p) }
{
    Ends {
        goal: part[GOAL],
        unknown: part[UNKNOWN],
        reward: part[REWARD],
        outside: outside(part, start, rounding),
    }
}

// The same, in the work table.
fn last_of(work: &[u64], n: usize, start: usize, rounding: bool) -> Ends
    requires { Fitting rounding n work.now × (start < n) }
    ensures { result ≡ end_of n start (row_at n work.now start) }
{
    let a = row_start(n, start);
    let e = a + n + Chain::BESIDE;
    last(&work[a..e], start, rounding)
}

// What the figures are read off where no row is made: the chance is 1 or 0.
fn no_row(goal: u64) -> Ends
    ensures { result ≡ ends goal 0 0 1 }
{
    Ends {
        goal,
        unknown: 0,
        reward: 0,
        outside: 1,
    }
}

// The elimination in a table of zeros, whose rows it leaves as they come. It is begun only where the start is live. The log, where one is asked for,
// has the finished steps.
pub(crate) fn run(
    e: &Elimination,
    order: &[u64],
    rewards: &[u64],
    work: &mut [u64],
    log: &mut [u64],
) -> Result<Ends, Refusal>
    requires { let g = e.now.engine in
        let l = with e.now.given order.now (read_by (is_paid g) rewards.now) work.old in
        Begun (rounds g) (is_paid g) (is_short g) l (sets_of e.now.sets) × Logged log.old [] × Blank l.chain.states work.old }
    ensures { let g = e.now.engine in
        let l = with e.now.given order.now (read_by (is_paid g) rewards.now) work.old in
        let pay = pays (is_paid g) l.chain l.rewards in
        let n = l.chain.states in
        Kept n work.old work.new × runs pay (is_short g) (rounds g) l result
        × Logged log.new (records_run pay (is_short g) (rounds g) l (sets_of e.now.sets) (finished_in n result)) }
{
    let c = e.given.chain;
    if holds(c.goals, c.start) {
        return Ok(no_row(1));
    }
    if !holds(e.sets.good, c.start) {
        return Ok(no_row(0));
    }
    first_rows(work, e, rewards).ok_or(Refusal::at(Fault::NoFit, Chain::STATES))?;
    eliminate(work, e, order, log)?;
    Ok(last_of(work, c.states, c.start, e.engine.rounding()))
}
