// The readers of chain files: a file is refused with its number and place, or its chain and tables are handed over; the salvaging reader hands over
// what is left of it. What is public beside them is for other crates.
#![tactic(auto)]

ghost use Rattle.std.specs.Prelude.{◌≡◌, ℕ};
ghost use Rattle.meaning.specs.Block.{head_states, head_start};
ghost use Rattle.meaning.specs.File.{Short, ReadOutcome, goals_in};
ghost use Rattle.meaning.specs.Salvage.{SalvageOutcome};
ghost use Rattle.chainfile.specs.Input.{input};
ghost use Rattle.chainfile.specs.Tells.{Within, OpenOutcome, LeftOver, told, left, told_left, tables};

use blocks::head;
use chain::Chain;
use chain::refusal::{Fault, Refusal};
use octets::layout;

mod fill;
pub mod index;
mod lost;

// The bytes of the longest file.
pub const LONGEST: usize = layout::LONGEST;

// The chain of a file but for its tables, and how many edges it has.
#[derive(Clone, Copy)]
pub struct Book {
    pub chain: Chain,
    pub edges: usize,
}

// What is left of a file: its chain with the number of edges that are kept, and for each block the number by which it is lost, 0 where it is kept.
#[derive(Clone, Copy)]
pub struct Left {
    pub book: Book,
    pub lost: [u64; layout::BLOCKS],
}

// The chain but for its tables.
fn chain(kept: &[u8]) -> Chain
    requires { Within (input kept.now 0) }
    ensures { let f = input kept.now 0 in
        (result.states ≡ head_states f) × (result.start ≡ head_start f) × (result.goals ≡ goals_in f) }
{
    Chain::new(head::states(kept), head::start(kept), fill::goals(kept))
}

// Reads a chain file of which `kept` holds the first bytes and `more` counts the others, into tables that need hold no more than the file's own chain:
// 2 comes last, since only an accepted head tells what that is. Only an accepted file fills the tables.
pub fn open_file(
    kept: &[u8],
    more: u64,
    denominators: &mut [u64],
    edges: &mut [u64],
    order: &mut [u64],
    rewards: &mut [u64],
) -> Result<Book, Refusal>
    ensures { let before = tables denominators.old edges.old order.old rewards.old in
        let after = tables denominators.new edges.new order.new rewards.new in
        OpenOutcome (input kept.now more) before (told result) after }
{
    judge::judge(kept, more)?;
    if fill::short_for(
        head::states(kept),
        head::edges(kept),
        denominators.len(),
        edges.len(),
        order.len(),
        rewards.len(),
    ) {
        return Err(Refusal::from(Fault::Room));
    }
    // No block is lost: past the end of a table stands 0.
    fill::tables(kept, &[], denominators, edges, order, rewards);
    Ok(Book {
        chain: chain(kept),
        edges: head::edges(kept),
    })
}

// Reads it in the same way. Its 2 comes first and asks for the largest chain's tables, so that no caller's tables are too short for some files only.
pub fn read(
    kept: &[u8],
    more: u64,
    denominators: &mut [u64],
    edges: &mut [u64],
    order: &mut [u64],
    rewards: &mut [u64],
) -> Result<Book, Refusal>
    ensures { let before = tables denominators.old edges.old order.old rewards.old in
        let after = tables denominators.new edges.new order.new rewards.new in
        ReadOutcome (input kept.now more) before (told result) after }
{
    if fill::short(denominators.len(), edges.len(), order.len(), rewards.len()) {
        return Err(Refusal::from(Fault::Room));
    }
    open_file(kept, more, denominators, edges, order, rewards)
}

// Fills the tables with what is left of a file whose front is right.
fn leave(
    kept: &[u8],
    denominators: &mut [u64],
    edges: &mut [u64],
    order: &mut [u64],
    rewards: &mut [u64],
) -> Left
    requires within { Within (input kept.now 0) }
    requires room { Short (tables denominators.old edges.old order.old rewards.old) → ⊥ }
    ensures { let before = tables denominators.old edges.old order.old rewards.old in
        let after = tables denominators.new edges.new order.new rewards.new in
        ((more : ℕ) → LeftOver (input kept.now more) before (left result) after) }
{
    let lost = lost::verdicts(kept);
    let edges = fill::tables(kept, &lost, denominators, edges, order, rewards);
    let book = Book {
        chain: chain(kept),
        edges,
    };
    Left { book, lost }
}

// Reads what is left of a chain file in the same way: only its front has to be right.
pub fn salvage(
    kept: &[u8],
    more: u64,
    denominators: &mut [u64],
    edges: &mut [u64],
    order: &mut [u64],
    rewards: &mut [u64],
) -> Result<Left, Refusal>
    ensures { let before = tables denominators.old edges.old order.old rewards.old in
        let after = tables denominators.new edges.new order.new rewards.new in
        SalvageOutcome (input kept.now more) before (told_left result) after }
{
    if fill::short(denominators.len(), edges.len(), order.len(), rewards.len()) {
        return Err(Refusal::from(Fault::Room));
    }
    judge::front(kept, more)?;
    Ok(leave(kept, denominators, edges, order, rewards))
}
