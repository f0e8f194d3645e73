// Pieces of texts, written into a lent buffer one after another.
#![tactic(auto)]

ghost use Rattle.std.specs.Prelude.{◌≡◌, ◌≤◌, length};
ghost use Rattle.meaning.specs.Text.{decimal};

mod fractions;
mod page;

pub use page::Page;

// The most digits of a number of 64 bits.
pub const DIGITS: usize = 20;

// How many digits a number has.
pub(crate) fn digits(x: u64) -> usize
    ensures { (result ≡ length (decimal x)) × (result ≤ 20) }
{
    x.max(1).ilog10() as usize + 1
}
