// Where the numbers of an edge lie in the list of edges: nothing else knows.
ghost use Rattle.std.specs.Prelude.{◌≡◌, ◌+◌, ◌*◌, ◌%◌, length, get_or};
ghost use Rattle.chain.specs.Edge.{placed};
ghost use Rattle.meaning.specs.Number.{decides};
ghost use Rattle.meaning.specs.Chain.{edge_size, edge, edge_count, from, to, weight, edge_reward};

use crate::Chain;
use crate::table::at;

pub const SIZE: usize = 4;

// The numbers of the longest list of edges.
pub const MOST: usize = SIZE * Chain::EDGES;

pub fn count(edges: &[u64]) -> usize
    ensures { result ≡ edge_count edges.now }
{
    edges.len() / SIZE
}

// The number at place k of edge e, 0 past the end of the list. The first test keeps the product from wrapping, and in a loop over the edges the
// compiler leaves both tests out.
fn part(edges: &[u64], e: usize, k: usize) -> u64
    ensures { result ≡ get_or edges.now (edge_size * e + k) 0 }
{
    if count(edges) < e {
        return 0;
    }
    at(&edges[SIZE * e..], k)
}

pub fn from(edges: &[u64], e: usize) -> u64
    ensures { result ≡ from edges.now e }
{
    part(edges, e, 0)
}

pub fn to(edges: &[u64], e: usize) -> u64
    ensures { result ≡ to edges.now e }
{
    part(edges, e, 1)
}

pub fn weight(edges: &[u64], e: usize) -> u64
    ensures { result ≡ weight edges.now e }
{
    part(edges, e, 2)
}

pub fn reward(edges: &[u64], e: usize) -> u64
    ensures { result ≡ edge_reward edges.now e }
{
    part(edges, e, 3)
}

// Sets edge e, in a list that has it.
pub fn put(edges: &mut [u64], e: usize, from: u64, to: u64, weight: u64, reward: u64)
    ensures { edges.new ≡ placed edges.old e (edge from to weight reward) }
{
    if count(edges) <= e {
        return;
    }
    let begin = SIZE * e;
    edges[begin..begin + SIZE].copy_from_slice(&[from, to, weight, reward]);
}

// Numbers are left over past the last whole edge.
pub fn ragged(edges: &[u64]) -> bool
    ensures { decides (length edges.now % edge_size ≡ 0 → ⊥) result }
{
    !edges.len().is_multiple_of(SIZE)
}
