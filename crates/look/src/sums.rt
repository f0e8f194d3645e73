// Row sums: the first that is wrong, and what is missing from each row.
ghost use Rattle.std.specs.Prelude.{◌≡◌, ℕ, ◌-◌, ◌≤◌, ◌<◌, [], get_or};
ghost use Rattle.look.specs.Least.{least};
ghost use Rattle.look.specs.Says.{Shaped};
ghost use Rattle.look.specs.Sums.{Lacks, TakenOut};
ghost use Rattle.meaning.specs.Number.{decides};
ghost use Rattle.meaning.specs.Chain.{most_states, most_edges, edge_count, row_sum};
ghost use Rattle.meaning.specs.Refusal.{EndFault, WeightFault, WrongSum, SumFault};

use chain::given::Given;
use chain::table::at;
use chain::{Chain, edge};

// The row sum of every state, in one pass over the edges.
fn row_sums(edges: &[u64]) -> [u64; Chain::STATES]
    requires few_edges { edge_count edges.now ≤ most_edges }
    requires ends_right { (e : ℕ) → EndFault most_states edges.now e → ⊥ }
    requires weights_right { (e : ℕ) → WeightFault edges.now e → ⊥ }
    ensures { (i : ℕ) → i < most_states → get_or result i 0 ≡ row_sum edges.now i }
{
    let mut sums = [0u64; Chain::STATES];
    for e in 0..edge::count(edges) {
        let i = edge::from(edges, e) as usize;
        sums[i] += edge::weight(edges, e);
    }
    sums
}

// Whether a row sum is wrong for its denominator: it differs or, where rows may fall short, exceeds it.
fn wrong(sum: u64, denominator: u64, short: bool) -> bool
    ensures { decides (WrongSum short sum denominator) result }
{
    if short {
        denominator < sum
    } else {
        sum != denominator
    }
}

// The first state whose row sum is wrong.
pub(crate) fn first_wrong(g: &Given, short: bool) -> Option<usize>
    requires shaped { Shaped g.now.chain.states g.now.denominators.now g.now.edges.now }
    requires ends_right { (e : ℕ) → EndFault g.now.chain.states g.now.edges.now e → ⊥ }
    requires weights_right { (e : ℕ) → WeightFault g.now.edges.now e → ⊥ }
    ensures { least (SumFault short g.now.chain.states g.now.denominators.now g.now.edges.now) result }
{
    let sums = row_sums(g.edges);
    sums.iter()
        .zip(g.denominators)
        .position(|(sum, denominator)| wrong(*sum, *denominator, short))
}

// The denominators of all states there can be, 0 past the last.
fn whole(denominators: &[u64]) -> [u64; Chain::STATES]
    ensures { Lacks denominators.now [] result }
{
    let mut left = [0u64; Chain::STATES];
    for (i, x) in left.iter_mut().enumerate() {
        *x = at(denominators, i);
    }
    left
}

// The weight of an edge that leaves i is not missing there.
fn take_out(left: &mut [u64], i: usize, weight: u64)
    ensures { TakenOut left.old i weight left.new }
{
    if i < left.len() {
        left[i] = left[i].saturating_sub(weight);
    }
}

// The weight that is missing from the row of each state: none where the row exceeds its denominator, and none past the last.
pub fn missing(denominators: &[u64], edges: &[u64]) -> [u64; Chain::STATES]
    ensures { Lacks denominators.now edges.now result }
{
    let mut left = whole(denominators);
    for e in 0..edge::count(edges) {
        let i = edge::from(edges, e) as usize;
        take_out(&mut left, i, edge::weight(edges, e));
    }
    left
}
