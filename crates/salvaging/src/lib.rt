// What the salvage program prints of a chain file, at the front of a lent buffer: the bounds of what is left of it, and what is lost.
#![tactic(auto)]

ghost use Rattle.std.specs.Prelude.{◌≡◌, [], ℕ, ◌≤◌, length};
ghost use Rattle.meaning.specs.Number.{decides};
ghost use Rattle.meaning.specs.Left.{LeftOutcome};
ghost use Rattle.meaning.specs.Block.{Input};
ghost use Rattle.meaning.specs.File.{Accepted, plain_in};
ghost use Rattle.meaning.specs.Salvage.{Lost, verdict, salvage_room, Salvaged, SalvagedOutcome};
ghost use Rattle.chainfile.specs.Input.{input};
ghost use Rattle.engines.specs.Answer.{told_bounds};
ghost use Rattle.elimination.specs.Own.{ours, Found};
ghost use Rattle.report.specs.Stands.{Writes, told};
ghost use Rattle.salvaging.specs.Holds.{Holds, InWhole};

use chain::given::Given;
use chain::refusal::{Fault, Refusal};
use chain::{Chain, edge};
use chainfile::index;
use engines::answer::Bounds;
use engines::entry;
use look::sums;
use report::Answer;
use text::Page;

mod print;

pub use print::ROOM;

// The bounds of what is left of a chain, with a work table of its own.
fn bounds_left(g: &Given, order: &[u64]) -> Result<Bounds, Refusal>
    ensures { let l = ours g.now.chain g.now.denominators.now g.now.edges.now order.now [] in
        Found (LeftOutcome l) (told_bounds result) }
{
    let mut work = [0u64; Chain::WORK];
    entry::bounds_left(g, order, &mut work)
}

// Whether a block is lost.
fn damaged(lost: &[u64]) -> bool
    ensures { decides (Lost (verdict lost.now)) result }
{
    lost.iter().any(|number| *number != 0)
}

// A refusal of what is left: the place of an edge is its index in the whole file.
fn in_whole(kept: &[u8], lost: &[u64], r: Refusal) -> Refusal
    ensures { InWhole (input kept.now 0) (verdict lost.now) r result }
{
    match r.fault {
        Fault::EdgeState | Fault::Weight | Fault::EdgeGivenBefore => {
            Refusal::at(r.fault, index::whole(kept, lost, r.place))
        }
        _ => r,
    }
}

// Of a file of which nothing is lost.
fn whole(g: &Given, order: &[u64], buffer: &mut [u8]) -> Result<usize, Refusal>
    requires { salvage_room ≤ length buffer.old }
    ensures { let l = ours g.now.chain g.now.denominators.now g.now.edges.now order.now [] in
        ((f : Input) → Accepted f → l ≡ plain_in f → Writes (Salvaged f) buffer.old result buffer.new) }
{
    let bounds = entry::bounds_unlent(g, order)?;
    let mut page = Page { buffer, at: 0 };
    print::bounds_line(&mut page, bounds);
    Ok(page.at)
}

// Of a file that has lost blocks.
fn left(
    kept: &[u8],
    lost: &[u64],
    g: &Given,
    order: &[u64],
    buffer: &mut [u8],
) -> Result<usize, Refusal>
    requires room { salvage_room ≤ length buffer.old }
    requires holds { (more : ℕ) × Holds (input kept.now more) lost.now g.now order.now }
    ensures { let l = lost.now in
        ((more : ℕ) → let f = input kept.now more in
        Holds f l g.now order.now → Lost (verdict l) → Writes (Salvaged f) buffer.old result buffer.new) }
{
    let bounds = bounds_left(g, order).map_err(|r| in_whole(kept, lost, r))?;
    let short = sums::missing(g.denominators, g.edges);
    let mut page = Page { buffer, at: 0 };
    print::left_lines(&mut page, bounds, lost, &short);
    Ok(page.at)
}

// Of a file whose front is right.
fn text(
    kept: &[u8],
    lost: &[u64],
    g: &Given,
    order: &[u64],
    buffer: &mut [u8],
) -> Result<usize, Refusal>
    requires room { salvage_room ≤ length buffer.old }
    requires holds { (more : ℕ) × Holds (input kept.now more) lost.now g.now order.now }
    ensures { (more : ℕ) → let f = input kept.now more in
        Holds f lost.now g.now order.now → Writes (Salvaged f) buffer.old result buffer.new }
{
    if damaged(lost) {
        left(kept, lost, g, order, buffer)
    } else {
        whole(g, order, buffer)
    }
}

// The lines of a chain file.
fn lines(kept: &[u8], more: u64, buffer: &mut [u8]) -> Result<usize, Refusal>
    requires { salvage_room ≤ length buffer.old }
    ensures { Writes (Salvaged (input kept.now more)) buffer.old result buffer.new }
{
    let mut denominators = [0u64; Chain::STATES];
    let mut edges = [0u64; edge::MOST];
    let mut order = [0u64; Chain::STATES];
    let mut rewards = [0u64; Chain::STATES];
    let left = chainfile::salvage(
        kept,
        more,
        &mut denominators,
        &mut edges,
        &mut order,
        &mut rewards,
    )?;
    let lost = left.lost;
    let chain = left.book.chain;
    let n = chain.states;
    let given = Given {
        chain,
        denominators: &denominators[..n],
        edges: &edges[..edge::SIZE * left.book.edges],
    };
    text(kept, &lost, &given, &order[..n], buffer)
}

// The text of a chain file of which `kept` holds the first bytes and `more` counts the others.
pub fn salvage(kept: &[u8], more: u64, buffer: &mut [u8]) -> Result<usize, Refusal>
    ensures { SalvagedOutcome (input kept.now more) buffer.old (told result) buffer.new }
{
    if buffer.len() < ROOM {
        return Err(Refusal::from(Fault::Room));
    }
    match lines(kept, more, buffer) {
        Ok(n) => Ok(n),
        Err(r) => report::answer(Answer::from(r), buffer),
    }
}
