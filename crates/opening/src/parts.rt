// The parts of a flat table.
ghost use Rattle.std.specs.Prelude.{◌≡◌, take, drop};
ghost use Rattle.opening.specs.Book.{denominators_of, order_of, rewards_of, edges_of};

use crate::book::{EDGES, ORDER, REWARDS};
use chain::edge;
use chainfile::Book;

// The n numbers from a place on, or as many of them as the table has.
pub fn part(table: &[u64], from: usize, n: usize) -> &[u64]
    ensures { result.now ≡ take n (drop from table.now) }
{
    let rest = &table[from.min(table.len())..];
    &rest[..n.min(rest.len())]
}

pub fn denominators(table: &[u64], book: Book) -> &[u64]
    ensures { result.now ≡ denominators_of book table.now }
{
    part(table, 0, book.chain.states)
}

pub fn order(table: &[u64], book: Book) -> &[u64]
    ensures { result.now ≡ order_of book table.now }
{
    part(table, ORDER, book.chain.states)
}

pub fn rewards(table: &[u64], book: Book) -> &[u64]
    ensures { result.now ≡ rewards_of book table.now }
{
    part(table, REWARDS, book.chain.states)
}

// None where the table has not so many. The compiler sees in this form that the length is a multiple of four, and leaves tests out of the loops.
pub fn edges(table: &[u64], book: Book) -> &[u64]
    ensures { result.now ≡ edges_of book table.now }
{
    let rest = part(table, EDGES, table.len());
    let count = book.edges;
    if edge::count(rest) < count {
        &[]
    } else {
        &rest[..edge::SIZE * count]
    }
}
