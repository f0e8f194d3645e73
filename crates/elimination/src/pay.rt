// What a turn in each state earns, times its denominator: the state's own reward, and those of the edges that leave it.
ghost use Rattle.std.specs.Prelude.{◌≡◌, true, ℕ, ◌≤◌, ◌<◌, get_or};
ghost use Rattle.meaning.specs.Chain.{most_states};
ghost use Rattle.elimination.specs.Pay.{pays, earning, PayingEdges, EdgesPaid, Earnable};

use chain::table::at;
use chain::{Chain, edge};

// The sum of weight times reward of the edges that leave each state, in one pass.
fn of_edges(edges: &[u64]) -> [u64; Chain::STATES]
    requires { PayingEdges edges.now }
    ensures { EdgesPaid edges.now result }
{
    let mut sums = [0u64; Chain::STATES];
    for e in 0..edge::count(edges) {
        let i = edge::from(edges, e) as usize;
        sums[i] += edge::weight(edges, e) * edge::reward(edges, e);
    }
    sums
}

// The same with the state's own reward times its denominator.
fn of_states(n: usize, denominators: &[u64], edges: &[u64], rewards: &[u64]) -> [u64; Chain::STATES]
    requires { Earnable n denominators.now edges.now rewards.now }
    ensures { let c = earning denominators.now edges.now in
        ((i : ℕ) → i < n → get_or result i 0 ≡ pays true c rewards.now i) }
{
    let mut pay = of_edges(edges);
    for (i, sum) in pay[..n].iter_mut().enumerate() {
        *sum += at(rewards, i) * at(denominators, i);
    }
    pay
}

// Nothing where the entry is lent no rewards.
pub(crate) fn earnings(
    paid: bool,
    n: usize,
    denominators: &[u64],
    edges: &[u64],
    rewards: &[u64],
) -> [u64; Chain::STATES]
    requires earnable { paid ≡ true → Earnable n denominators.now edges.now rewards.now }
    requires few_states { n ≤ most_states }
    ensures { let c = earning denominators.now edges.now in
        ((i : ℕ) → i < n → get_or result i 0 ≡ pays paid c rewards.now i) }
{
    if paid {
        return of_states(n, denominators, edges, rewards);
    }
    [0u64; Chain::STATES]
}
