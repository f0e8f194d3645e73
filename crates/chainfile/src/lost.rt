// Which edge blocks of a file are lost.
ghost use Rattle.std.specs.Prelude.{ℕ, ◌≤◌};
ghost use Rattle.meaning.specs.Block.{demanded};
ghost use Rattle.meaning.specs.File.{most_blocks};
ghost use Rattle.chainfile.specs.Input.{input};
ghost use Rattle.chainfile.specs.Tells.{LostBy, Verdicts};

use blocks::{block, head};
use octets::layout;

// The number by which the block is lost, 0 where it is kept.
fn by(kept: &[u8], b: usize) -> u64
    ensures { (more : ℕ) → LostBy (input kept.now more) b result }
{
    match block::test(kept, b) {
        Ok(()) => 0,
        Err(fault) => u64::from(fault.number()),
    }
}

// That of each block; the head and the state blocks are not looked at.
pub(crate) fn verdicts(kept: &[u8]) -> [u64; layout::BLOCKS]
    requires { demanded (input kept.now 0) ≤ most_blocks }
    ensures { (more : ℕ) → Verdicts (input kept.now more) result }
{
    let mut lost = [0u64; layout::BLOCKS];
    for b in 1 + head::state_blocks(kept)..head::demanded(kept) {
        lost[b] = by(kept, b);
    }
    lost
}
