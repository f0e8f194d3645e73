// A chain file is opened in one way: into one flat table, the denominators, the order and the rewards first and the edges after them.
#![tactic(auto)]

ghost use Rattle.std.specs.Prelude.{length};
ghost use Rattle.std.specs.Fn.{TakesAt};
ghost use Rattle.meaning.specs.Number.{decides};
ghost use Rattle.chainfile.specs.Input.{input};
ghost use Rattle.opening.specs.Sizes.{Long, Fits};
ghost use Rattle.opening.specs.Opened.{OpeningOutcome};
ghost use Rattle.opening.specs.Asked.{Shown, Asked};
ghost use Rattle.opening.specs.declared.book.Opened.{Opened};

use crate::book::EDGES;
use chain::Chain;
use chain::given::Given;
use chain::refusal::{Fault, Refusal};
use octets::layout;

mod book;
mod parts;
mod store;

pub use book::{LARGEST, Opened, SMALL};
pub use chainfile::Book;
pub use parts::{denominators, edges, order, part, rewards};

// The bytes of the longest file that is sure to fit the small table.
const SHORT: usize = 8 * layout::BLOCK;

// Whether a file asks for the largest table.
pub fn long(kept: &[u8], more: u64) -> bool
    ensures { decides (Long (input kept.now more)) result }
{
    SHORT < kept.len() || ((SHORT - kept.len()) as u64) < more
}

// Opens the chain file of which `kept` holds the first bytes and `more` counts the others. A table that has no room for the numbers of 64 states is
// refused with 2 before the file is looked at, and one that has no room for the file's edges after it; a refusal leaves the table.
pub fn of(kept: &[u8], more: u64, table: &mut [u64]) -> Result<Book, Refusal>
    ensures { OpeningOutcome (input kept.now more) table.old result table.new }
{
    if table.len() < EDGES {
        return Err(Refusal::from(Fault::Room));
    }
    let mut denominators = [0u64; Chain::STATES];
    let mut order = [0u64; Chain::STATES];
    let mut rewards = [0u64; Chain::STATES];
    let book = chainfile::open_file(
        kept,
        more,
        &mut denominators,
        &mut table[EDGES..],
        &mut order,
        &mut rewards,
    )?;
    let n = book.chain.states;
    store::states(table, &denominators[..n], &order[..n], &rewards[..n]);
    Ok(book)
}

// Opens it in a table that has room for it, and asks of its parts.
fn within<T, F: FnMut(&Opened) -> Result<T, Refusal>>(
    kept: &[u8],
    more: u64,
    table: &mut [u64],
    ask: &mut F,
) -> Result<T, Refusal>
    requires room { Fits (input kept.now more) (length table.old) }
    requires callable { (p : Opened) → Shown (input kept.now more) p → TakesAt F.FnMut ask.old p }
    ensures { Asked F.FnMut (input kept.now more) ask.old result ask.new }
{
    let book = of(kept, more, table)?;
    let given = Given {
        chain: book.chain,
        denominators: denominators(table, book),
        edges: edges(table, book),
    };
    ask(&Opened {
        given,
        order: order(table, book),
        rewards: rewards(table, book),
    })
}

// Opens a chain file, and answers what is asked of its chain and tables; a file that is refused is refused here. The largest table is made only where
// the file may be long: to make it zero costs more than the rest of a short file's call. `ask` comes by `&mut`, so that the caller knows what has
// become of a buffer that it writes.
#[inline(never)]
pub fn with<T, F: FnMut(&Opened) -> Result<T, Refusal>>(
    kept: &[u8],
    more: u64,
    ask: &mut F,
) -> Result<T, Refusal>
    requires { (p : Opened) → Shown (input kept.now more) p → TakesAt F.FnMut ask.old p }
    ensures { Asked F.FnMut (input kept.now more) ask.old result ask.new }
{
    if long(kept, more) {
        within(kept, more, &mut [0u64; LARGEST], ask)
    } else {
        within(kept, more, &mut [0u64; SMALL], ask)
    }
}
