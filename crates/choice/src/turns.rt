// The turns: at each of them the state that is left with the least product is chosen, and removed.
ghost use Rattle.std.specs.Prelude.{◌≡◌, ℕ, ◌+◌, ◌≤◌, ◌<◌, length};
ghost use Rattle.meaning.specs.Number.{bit};
ghost use Rattle.meaning.specs.Chain.{most_states, Chain};
ghost use Rattle.meaning.specs.Step.{Sets};
ghost use Rattle.choice.specs.Columns.{column_count};
ghost use Rattle.choice.specs.Turns.{Held, product_in, Best, Pickable, Picked, Ready, Turned};

use crate::columns;
use chain::set::holds;

// A state and its product.
#[derive(Clone, Copy)]
pub(crate) struct Pick {
    pub(crate) state: usize,
    pub(crate) product: u64,
}

// The pick so far, or state i where it is left and has a lower product: on a tie the lower number stays.
fn better(columns: &[u64], n: usize, left: u64, i: usize, best: Option<Pick>) -> Option<Pick>
    requires pickable { Pickable n columns.now × (i < n) }
    requires best { Best (Held left) (product_in n columns.now) i best }
    ensures { Best (Held left) (product_in n columns.now) (i + 1) result }
{
    if !holds(left, i) {
        return best;
    }
    let product = columns::product(columns, n, i);
    match best {
        Some(pick) if pick.product <= product => best,
        _ => Some(Pick { state: i, product }),
    }
}

// The state whose turn it is.
fn next(columns: &[u64], n: usize, left: u64) -> Pick
    requires { Pickable n columns.now × (0 < left) × ((i : ℕ) → Held left i → i < n) }
    ensures { Picked (Held left) (product_in n columns.now) n result }
{
    let mut best = None;
    for i in 0..n {
        best = better(columns, n, left, i, best);
    }
    best.unwrap()
}

// How many turns there were, and the sum of their products.
#[derive(Clone, Copy)]
pub(crate) struct Tally {
    pub(crate) count: usize,
    pub(crate) sum: u64,
}

// Turns until none of the states that go is left: each is written into the order.
pub(crate) fn take(columns: &mut [u64], n: usize, going: u64, order: &mut [u64]) -> Tally
    requires { (c : Chain) × (k : Sets) × Ready c k n going columns.old order.old }
    ensures { let l = columns.old in
        let o = order.old in
        ((c : Chain) (k : Sets) → Ready c k n going l o → Turned c k result order.new) }
{
    let mut left = going;
    let mut count = 0;
    let mut sum = 0;
    while left != 0 {
        let pick = next(columns, n, left);
        let s = pick.state;
        order[count] = s as u64;
        columns::remove(columns, n, s);
        left = columns::without(left, s);
        sum += pick.product;
        count += 1;
    }
    Tally { count, sum }
}
