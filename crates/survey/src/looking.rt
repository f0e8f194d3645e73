// The looking of the entries: 1 and 2, then what the survey refuses, 3 to 9, then 10 and, where rewards are lent, 11.
ghost use Rattle.std.specs.Prelude.{◌⊎◌, ◌≡◌, false, List, [], ℕ, ◌≤◌, ◌<◌, length};
ghost use Rattle.meaning.specs.Chain.{most_states};
ghost use Rattle.meaning.specs.Refusal.{paid, eliminating, work_size, with_list};
ghost use Rattle.meaning.specs.Number.{decides};
ghost use Rattle.chain.specs.Given.{with};
ghost use Rattle.survey.specs.Looking.{asked, size_of, so_far, looked};

use crate::{Sets, along};
use chain::Chain;
use chain::given::Given;
use chain::refusal::{Fault, Refusal, refuse};
use look::shape::misshaped;
use look::{rewards, scan};

// The work table is too short, or the step list.
fn lacking(n: usize, work: usize, list: usize) -> bool
    requires { n ≤ most_states }
    ensures { decides ((work < work_size n) ⊎ (list < n)) result }
{
    list < n || work < n * (n + Chain::BESIDE)
}

// The numbers 1 to 10. Of the rewards and of the step list, which may not be lent, only the length counts here.
fn tables(
    g: &Given,
    order: &[u64],
    rewards: Option<usize>,
    work: &[u64],
    list: Option<usize>,
    short: bool,
) -> Result<Sets, Refusal>
    ensures { let o = order.now in
        let v = work.now in
        ((w : List ℕ) → length w ≡ size_of rewards
        → so_far (eliminating (asked rewards) (asked list) short) (with_list (size_of list) (with g.now o w v)) 11 result) }
{
    let n = g.chain.states;
    if misshaped(
        n,
        g.denominators.len(),
        g.edges,
        order.len(),
        rewards.unwrap_or(n),
    ) {
        return Err(Refusal::from(Fault::Length));
    }
    if lacking(n, work.len(), list.unwrap_or(n)) {
        return Err(Refusal::from(Fault::Room));
    }
    let found = along(g, short)?;
    refuse(Fault::Order, scan::order(n, order))?;
    Ok(found.sets)
}

// The looking of an entry for the chance or the bounds, which may be lent a step list, and whose rows may fall short or not: 1 to 10.
pub fn look(
    g: &Given,
    order: &[u64],
    work: &[u64],
    list: Option<usize>,
    short: bool,
) -> Result<Sets, Refusal>
    ensures { let l = with g.now order.now [] work.now in
        looked (eliminating false (asked list) short) (with_list (size_of list) l) result }
{
    tables(g, order, None, work, list, short)
}

// The looking of an entry for the expected reward: 1 to 11.
pub fn look_paid(g: &Given, order: &[u64], rewards: &[u64], work: &[u64]) -> Result<Sets, Refusal>
    ensures { looked paid (with g.now order.now rewards.now work.now) result }
{
    let sets = tables(g, order, Some(rewards.len()), work, None, false)?;
    refuse(
        Fault::Reward,
        rewards::too_large(g.chain.states, rewards, g.edges),
    )?;
    Ok(sets)
}
