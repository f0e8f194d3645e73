// Whether a whole file, or its front, is accepted: 20, the head block, the block total, and then each further block in turn.
#![tactic(auto)]

ghost use Rattle.std.specs.Prelude.{ℕ};
ghost use Rattle.meaning.specs.File.{LengthFault, TotalFault};
ghost use Rattle.meaning.specs.Number.{decides};
ghost use Rattle.octets.specs.Input.{input};
ghost use Rattle.judge.specs.Tells.{begun, further, judged, fronted};

use blocks::{block, head};
use chain::refusal::{Fault, Refusal};
use octets::layout;

// 20: the file is empty, or no multiple of a block. The parts' remainders never wrap.
fn length_wrong(kept: &[u8], more: u64) -> bool
    ensures { decides (LengthFault (input kept.now more)) result }
{
    let length = kept.len() as u64;
    let size = layout::BLOCK as u64;
    (length % size + more % size) % size != 0 || length == 0 && more == 0
}

// 24 at 0: the block total is not what the head demands.
fn total_wrong(kept: &[u8], more: u64) -> bool
    ensures { decides (TotalFault (input kept.now more)) result }
{
    let whole = layout::BLOCK * head::demanded(kept);
    whole < kept.len() || more != (whole - kept.len()) as u64
}

// 20, the head block and the block total.
fn begins(kept: &[u8], more: u64) -> Result<(), Refusal>
    ensures { begun (input kept.now more) result }
{
    if length_wrong(kept, more) {
        return Err(Refusal::from(Fault::FileLength));
    }
    block::test(kept, 0)?;
    if total_wrong(kept, more) {
        return Err(Refusal::at(Fault::BlockContent, 0));
    }
    Ok(())
}

// Each block after the head and before block `end`.
fn further(kept: &[u8], end: usize) -> Result<(), Refusal>
    ensures { (more : ℕ) → further (input kept.now more) end result }
{
    for b in 1..end {
        block::test(kept, b).map_err(|fault| Refusal::at(fault, b))?;
    }
    Ok(())
}

// Whether the file is accepted, or by what it is refused.
pub fn judge(kept: &[u8], more: u64) -> Result<(), Refusal>
    ensures { judged (input kept.now more) result }
{
    begins(kept, more)?;
    further(kept, head::demanded(kept))
}

// The same but for the edge blocks.
pub fn front(kept: &[u8], more: u64) -> Result<(), Refusal>
    ensures { fronted (input kept.now more) result }
{
    begins(kept, more)?;
    further(kept, 1 + head::state_blocks(kept))
}
