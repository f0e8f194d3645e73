// An order for a chain's elimination, chosen by the products of rows and columns: it needs no work table.
#![tactic(auto)]

ghost use Rattle.std.specs.Prelude.{[], List, ℕ};
ghost use Rattle.chain.specs.Given.{with};
ghost use Rattle.choice.specs.Told.{Chooses};
ghost use Rattle.choice.specs.Ordered.{Surveyed, Ordered};

use chain::Chain;
use chain::given::Given;
use chain::refusal::{Fault, Refusal};
use survey::Sets;

mod columns;
mod rest;
mod turns;

// Writes the order of a chain whose sets are known, and answers the sum of the products.
fn order_all(c: Chain, sets: Sets, edges: &[u64], order: &mut [u64]) -> u64
    requires { (d : List ℕ) × Surveyed c d edges.now sets order.old }
    ensures { let es = edges.now in
        let before = order.old in
        ((d : List ℕ) → Surveyed c d es sets before → Ordered c d es sets order.new result) }
{
    let n = c.states;
    let mut columns = columns::first(c, sets, edges);
    let going = columns::without(sets.live, c.start);
    let taken = turns::take(&mut columns, n, going, order);
    rest::put_rest(order, taken.count, n, going);
    taken.sum
}

// Writes the chosen order into the list, and answers the sum of its products. A refusal leaves the list.
pub fn choose(g: &Given, order: &mut [u64]) -> Result<u64, Refusal>
    ensures { Chooses (with g.now [] [] []) order.old result order.new }
{
    if order.len() != g.chain.states {
        return Err(Refusal::from(Fault::Length));
    }
    let found = survey::of(g)?;
    Ok(order_all(g.chain, found.sets, g.edges, order))
}
