// The states passed over come after the turns, rising.
ghost use Rattle.std.specs.Prelude.{◌≡◌, false, ◌++◌, ◌+◌, ◌≤◌, ◌<◌, length, take};
ghost use Rattle.meaning.specs.Chain.{most_states};
ghost use Rattle.meaning.specs.Choice.{passed_over};
ghost use Rattle.choice.specs.Rest.{has, Put};

use chain::set::holds;

// Puts state i at place p of the order where it has no turn, and answers the next place.
fn put(order: &mut [u64], p: usize, i: usize, going: u64) -> usize
    requires { (has going i ≡ false → p < length order.old) × (p ≤ length order.old) }
    ensures { Put going i p order.old result order.new }
{
    if holds(going, i) {
        return p;
    }
    order[p] = i as u64;
    p + 1
}

// Puts all states that have no turn behind the first m places.
pub(crate) fn put_rest(order: &mut [u64], m: usize, n: usize, going: u64)
    requires { (m + length (passed_over (has going) n) ≡ length order.old) × (n ≤ most_states) }
    ensures { order.new ≡ take m order.old ++ passed_over (has going) n }
{
    let mut p = m;
    for i in 0..n {
        p = put(order, p, i, going);
    }
}
