// A set of states, written as one number: bit i says whether state i is in it.
ghost use Rattle.std.specs.Prelude.{◌≡◌, eqb};
ghost use Rattle.meaning.specs.Number.{bit};

use crate::Chain;

// Whether state i is in the set. A number past the states is in none.
pub fn holds(set: u64, i: usize) -> bool
    ensures { result ≡ eqb (bit set i) 1 }
{
    i < Chain::STATES && (set >> i) % 2 == 1
}
