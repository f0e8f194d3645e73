// What the head's record says, and how many blocks it demands.
ghost use Rattle.std.specs.Prelude.{◌≡◌, ◌<◌};
ghost use Rattle.meaning.specs.Block.{head_states, head_start, head_edges, blocks_of, state_blocks, demanded};
ghost use Rattle.octets.specs.Input.{input};

use octets::layout;

pub fn states(kept: &[u8]) -> usize
    ensures { (result ≡ head_states (input kept.now 0)) × (result < 256) }
{
    octets::byte(kept, layout::RECORDS + layout::HEAD_STATES) as usize
}

pub fn start(kept: &[u8]) -> usize
    ensures { result ≡ head_start (input kept.now 0) }
{
    octets::byte(kept, layout::RECORDS + layout::HEAD_START) as usize
}

pub fn edges(kept: &[u8]) -> usize
    ensures { (result ≡ head_edges (input kept.now 0)) × (result < 65536) }
{
    octets::number(kept, layout::RECORDS + layout::HEAD_EDGES, layout::PAIR) as usize
}

// Every block but the last of its kind is full.
pub fn blocks(records: usize) -> usize
    ensures { result ≡ blocks_of records }
{
    records.div_ceil(layout::FULL)
}

pub fn state_blocks(kept: &[u8]) -> usize
    ensures { (result ≡ state_blocks (input kept.now 0)) × (result < 256) }
{
    blocks(states(kept))
}

pub fn demanded(kept: &[u8]) -> usize
    ensures { (result ≡ demanded (input kept.now 0)) × (result < 65536) }
{
    1 + state_blocks(kept) + blocks(edges(kept))
}
