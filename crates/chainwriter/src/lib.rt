// The writer of chain files: it looks, and then writes.
#![tactic(auto)]

ghost use Rattle.std.specs.Prelude.{◌≡◌, List, ℕ, ◌+◌, ◌≤◌, length};
ghost use Rattle.meaning.specs.Chain.{most_states, most_edges};
ghost use Rattle.meaning.specs.Block.{blocks_of};
ghost use Rattle.meaning.specs.Refusal.{Misshaped};
ghost use Rattle.meaning.specs.Write.{filing, WriteOutcome};
ghost use Rattle.meaning.specs.Number.{decides};
ghost use Rattle.chain.specs.Given.{with};
ghost use Rattle.look.specs.Says.{Looks};
ghost use Rattle.meaning.specs.File.{most_blocks};
ghost use Rattle.chainwriter.specs.Tells.{told};

use crate::lent::Source;
use blocks::head;
use chain::edge;
use chain::given::Given;
use chain::refusal::{Fault, Refusal, refuse};
use look::{rewards, scan, shape};
use octets::layout;

mod lent;
mod make;
mod pack;

// 1: a file has an edge, and the tables fit one another.
fn misshaped(n: usize, denominators: usize, edges: &[u64], order: usize, rewards: usize) -> bool
    ensures { decides (Misshaped filing n denominators (length edges.now) order rewards) result }
{
    edge::count(edges) == 0 || shape::misshaped(n, denominators, edges, order, rewards)
}

// How many blocks a file of so many states and edges has.
fn total(states: usize, edges: usize) -> usize
    requires { (states ≤ most_states) × (edges ≤ most_edges) }
    ensures { (result ≡ 1 + blocks_of states + blocks_of edges) × (result ≤ most_blocks) }
{
    1 + head::blocks(states) + head::blocks(edges)
}

// The looking of the writer, whose buffer has room for so many bytes: 1 to 11.
fn look(g: &Given, order: &[u64], rewards: &[u64], room: usize) -> Result<(), Refusal>
    ensures { (w : List ℕ) → length w ≡ room → Looks filing (with g.now order.now rewards.now w) result }
{
    let n = g.chain.states;
    if misshaped(n, g.denominators.len(), g.edges, order.len(), rewards.len()) {
        return Err(Refusal::from(Fault::Length));
    }
    if room < layout::BLOCK * total(n, edge::count(g.edges)) {
        return Err(Refusal::from(Fault::Room));
    }
    look::bare(g)?;
    refuse(Fault::Order, scan::order(n, order))?;
    refuse(Fault::Reward, rewards::too_large(n, rewards, g.edges))
}

// Writes the chain file of what is lent at the front of the buffer, and answers its length. A refusal leaves the whole buffer.
pub fn write(g: &Given, order: &[u64], rewards: &[u64], buffer: &mut [u8]) -> Result<usize, Refusal>
    ensures { WriteOutcome (with g.now order.now rewards.now buffer.old) (told result) buffer.new }
{
    look(g, order, rewards, buffer.len())?;
    let total = total(g.chain.states, edge::count(g.edges));
    let source = Source {
        given: *g,
        order,
        rewards,
    };
    make::blocks(&source, buffer, total);
    Ok(layout::BLOCK * total)
}
