// Where a kept edge stands in the whole file.
ghost use Rattle.std.specs.Prelude.{◌≡◌};
ghost use Rattle.meaning.specs.Salvage.{edge_kept, verdict};
ghost use Rattle.chainfile.specs.Input.{input};
ghost use Rattle.chainfile.specs.Index.{Whole};

use blocks::head;
use chain::table;
use octets::layout;

// Edge e of the file is kept.
fn is_kept(kept: &[u8], lost: &[u64], e: usize) -> bool
    ensures { result ≡ edge_kept (input kept.now 0) (verdict lost.now) e }
{
    table::at(lost, 1 + head::state_blocks(kept) + e / layout::FULL) == 0
}

// The index in the whole file of the kept edge j, by the verdicts on the blocks; where there is none, the file's number of edges.
pub fn whole(kept: &[u8], lost: &[u64], j: usize) -> usize
    ensures { Whole (input kept.now 0) (verdict lost.now) j result }
{
    let count = head::edges(kept);
    (0..count)
        .filter(|e| is_kept(kept, lost, *e))
        .nth(j)
        .unwrap_or(count)
}
