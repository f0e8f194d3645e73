// What is wrong in the records of a block.
ghost use Rattle.std.specs.Prelude.{◌+◌, ◌*◌, ◌≤◌, length};
ghost use Rattle.meaning.specs.Block.{block_size, record_size};
ghost use Rattle.meaning.specs.File.{HeadFault, FlagFault, ReservedFault};
ghost use Rattle.meaning.specs.Number.{decides};
ghost use Rattle.octets.specs.Input.{input};

use crate::head;
use chain::Chain;
use octets::layout;

// The head's n or edges are out of bounds, or a reserved byte is not 0.
pub(crate) fn head_wrong(kept: &[u8]) -> bool
    ensures { decides (HeadFault (input kept.now 0)) result }
{
    !(1..=Chain::STATES).contains(&head::states(kept))
        || !(1..=Chain::EDGES).contains(&head::edges(kept))
        || octets::written(
            kept,
            layout::RECORDS + layout::HEAD_REST,
            layout::RECORDS + layout::RECORD,
        )
}

// Of `count` states' records from byte `at` on, one has a flag above 1.
pub(crate) fn flag_wrong(kept: &[u8], at: usize, count: usize) -> bool
    requires { at + record_size * count ≤ length kept.now + block_size }
    ensures { decides (FlagFault (input kept.now 0) at count) result }
{
    (0..count).any(|i| 1 < octets::byte(kept, at + layout::RECORD * i + layout::FLAG))
}

// Of `count` edges' records of version 1 from byte `at` on, one has a reserved byte that is not 0.
pub(crate) fn reserved_wrong(kept: &[u8], at: usize, count: usize) -> bool
    requires { at + record_size * count ≤ length kept.now + block_size }
    ensures { decides (ReservedFault (input kept.now 0) at count) result }
{
    (0..count).any(|i| {
        let begin = at + layout::RECORD * i;
        octets::written(kept, begin + layout::EDGE_REWARD, begin + layout::WEIGHT)
    })
}
