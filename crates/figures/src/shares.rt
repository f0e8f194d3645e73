// A table in bytes, as another tool sends it: the denominator, and then a numerator for each state.
ghost use Rattle.std.specs.Prelude.{◌≡◌, ◌≤◌, length, take};
ghost use Rattle.meaning.specs.Chain.{most_states};
ghost use Rattle.meaning.specs.Judge.{numerators_of};
ghost use Rattle.figures.specs.Judged.{Judges};

use chain::Chain;
use chain::refusal::{Fault, Refusal};
use equations::Verdict;
use octets::{four_byte_number, layout};
use opening::Opened;

// The numerators of n states, at the front of a table.
fn numerators(shares: &[u8], n: usize) -> [u64; Chain::STATES]
    requires { n ≤ most_states }
    ensures { (length result ≡ most_states) × (take n result ≡ numerators_of n shares.now) }
{
    let mut table = [0u64; Chain::STATES];
    let part = &mut table[..n];
    for (i, numerator) in part.iter_mut().enumerate() {
        *numerator = four_byte_number(shares, i + 1);
    }
    table
}

// What is said of a table for the chain and tables of an accepted file: its length is looked at before the chain is.
pub(crate) fn judged(opened: &Opened, shares: &[u8]) -> Result<Verdict, Refusal>
    requires { opened.now.given.chain.states ≤ most_states }
    ensures { Judges opened.now shares.now result }
{
    let n = opened.given.chain.states;
    if shares.len() != layout::QUAD * (n + 1) {
        return Err(Refusal::from(Fault::Room));
    }
    let table = numerators(shares, n);
    equations::check(&opened.given, four_byte_number(shares, 0), &table[..n])
}
