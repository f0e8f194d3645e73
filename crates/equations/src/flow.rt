ghost use Rattle.equations.specs.Carry.{Carries, Flows};

use chain::table::at;
use chain::{Chain, edge};

// The sum of weight times value over the edges that leave each state, in one pass over the edges.
pub(crate) fn flows(edges: &[u64], values: &[u64]) -> [u64; Chain::STATES]
    requires { Carries edges.now values.now }
    ensures { Flows edges.now values.now result }
{
    let mut sums = [0u64; Chain::STATES];
    for e in 0..edge::count(edges) {
        let i = edge::from(edges, e) as usize;
        let j = edge::to(edges, e) as usize;
        sums[i] += edge::weight(edges, e) * at(values, j);
    }
    sums
}
