// The bits of a set of states that is written as one number, and how its states are gone through from the lowest on.
ghost use Rattle.std.specs.Prelude.{◌≡◌, ◌%◌, ◌^◌, ◌<◌};
ghost use Rattle.std.specs.Int.Count.{ones};
ghost use Rattle.meaning.specs.Chain.{most_states};
ghost use Rattle.chain.specs.Rising.{place_of, Lowest, Others};

use crate::Chain;

// The set of one state. A number past the states counts modulo 64, which costs the shift nothing.
pub fn alone(j: usize) -> u64
    ensures { result ≡ 2 ^ (j % most_states) }
{
    1 << (j % Chain::STATES)
}

// How many states are in a set.
pub fn count(set: u64) -> usize
    ensures { result ≡ ones set }
{
    set.count_ones() as usize
}

// The place of state j among those of a set: the count of ones below its bit.
pub fn place(set: u64, j: usize) -> usize
    ensures { result ≡ place_of set j }
{
    if Chain::STATES <= j {
        return count(set);
    }
    count(set & (alone(j) - 1))
}

// The lowest state of a set, and 64 for the empty one.
pub fn lowest(set: u64) -> usize
    ensures { (0 < set → Lowest set result) × (set ≡ 0 → result ≡ most_states) }
{
    set.trailing_zeros() as usize
}

// A set without its lowest state; the empty one stays.
pub fn others(set: u64) -> u64
    ensures { (0 < set → Others set result) × (set ≡ 0 → result ≡ 0) }
{
    set & set.wrapping_sub(1)
}
