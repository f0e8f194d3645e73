// A packed row that is read: where its numbers stand in its own part of the work table, and the weight to a state.
ghost use Rattle.std.specs.Prelude.{◌≡◌, ℕ, ◌≤◌, ◌<◌, length, take, get_or};
ghost use Rattle.meaning.specs.Chain.{most_states};
ghost use Rattle.meaning.specs.Row.{width};
ghost use Rattle.elimination.specs.Packed.{end_of_part, weight_of, Spread};

use crate::members::Members;
use chain::Chain;
use chain::bits::{count, place};
use chain::set::holds;

// Where Reward, Goal, Trap and Unknown stand, and where the weights begin. The number of the targets stands at 0.
pub(crate) const REWARD: usize = 1;

pub(crate) const GOAL: usize = 2;

pub(crate) const TRAP: usize = 3;

pub(crate) const UNKNOWN: usize = 4;

pub(crate) const WEIGHTS: usize = 5;

// Where the numbers of a packed row end.
pub(crate) fn end(part: &[u64]) -> usize
    requires { end_of_part part.now ≤ length part.now }
    ensures { result ≡ end_of_part part.now }
{
    WEIGHTS + count(part[0])
}

// The weight to state j, 0 where j is no target.
pub(crate) fn weight(part: &[u64], j: usize) -> u64
    requires { (j < most_states) × (end_of_part part.now ≤ length part.now) }
    ensures { result ≡ weight_of part.now j }
{
    let targets = part[0];
    if holds(targets, j) {
        let q = WEIGHTS + place(targets, j);
        return part[q];
    }
    0
}

// The weights of a packed row, each at the number of its state.
pub(crate) fn spread(part: &[u64]) -> [u64; Chain::WIDTH]
    requires { end_of_part part.now ≤ length part.now }
    ensures { Spread part.now result }
{
    let mut wide = [0u64; Chain::WIDTH];
    for (k, j) in Members(part[0]).enumerate() {
        wide[j] = part[WEIGHTS + k];
    }
    wide
}

// A copy of some numbers of the work table, as many as the largest row has.
pub fn load(part: &[u64]) -> [u64; Chain::WIDTH]
    ensures { (j : ℕ) → get_or result j 0 ≡ get_or (take (width most_states) part.now) j 0 }
{
    let m = part.len().min(Chain::WIDTH);
    let mut p = [0u64; Chain::WIDTH];
    p[..m].copy_from_slice(&part[..m]);
    p
}
