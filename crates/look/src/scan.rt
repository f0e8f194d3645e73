// Faults of one table each, looked for from its first number on.
ghost use Rattle.std.specs.Prelude.{◌≡◌, ℕ, ◌≤◌, length};
ghost use Rattle.look.specs.Least.{least};
ghost use Rattle.meaning.specs.Number.{decides};
ghost use Rattle.meaning.specs.Chain.{most_states};
ghost use Rattle.meaning.specs.Refusal.{OutOfRange, DenominatorFault, EndFault, WeightFault, Earlier, OrderFault};

use chain::table::at;
use chain::{Chain, edge};

// Neither a denominator nor a weight.
pub fn out_of_range(x: u64) -> bool
    ensures { decides (OutOfRange x) result }
{
    x == 0 || Chain::LIMIT < x
}

pub(crate) fn denominators(denominators: &[u64]) -> Option<usize>
    ensures { let d = denominators.now in least (DenominatorFault (length d) d) result }
{
    denominators.iter().position(|x| out_of_range(*x))
}

pub(crate) fn ends(n: usize, edges: &[u64]) -> Option<usize>
    ensures { least (EndFault n edges.now) result }
{
    let states = n as u64;
    (0..edge::count(edges)).find(|e| states <= edge::from(edges, *e)
        || states <= edge::to(edges, *e))
}

pub(crate) fn weights(edges: &[u64]) -> Option<usize>
    ensures { least (WeightFault edges.now) result }
{
    (0..edge::count(edges)).find(|e| out_of_range(edge::weight(edges, *e)))
}

fn earlier(order: &[u64], p: usize) -> bool
    ensures { decides (Earlier order.now p) result }
{
    (0..p).any(|o| at(order, o) == at(order, p))
}

// The first fault of an order of n states, each entry compared with all before it.
fn first_fault(n: usize, order: &[u64]) -> Option<usize>
    ensures { least (OrderFault n order.now) result }
{
    let states = n as u64;
    (0..n).find(|p| states <= at(order, *p) || earlier(order, *p))
}

// Whether each entry of an order is a state that was not yet seen. Then the order has no fault.
fn faultless(n: usize, order: &[u64]) -> bool
    requires { n ≤ most_states }
    ensures { decides ((p : ℕ) → OrderFault n order.now p → ⊥) result }
{
    let states = n as u64;
    let mut seen: u64 = 0;
    for k in 0..n {
        let s = at(order, k);
        if states <= s || (seen >> s) % 2 == 1 {
            return false;
        }
        seen |= 1 << s;
    }
    true
}

// The first fault of an order of n states. One pass tells that there is none; only else is each entry compared with all before it.
pub fn order(n: usize, order: &[u64]) -> Option<usize>
    ensures { least (OrderFault n order.now) result }
{
    if n <= Chain::STATES && faultless(n, order) {
        return None;
    }
    first_fault(n, order)
}
