// The test of one block: 21 to 24 in turn.
ghost use Rattle.std.specs.Prelude.{◌≡◌, ℕ, ◌*◌, ◌-◌, ◌≤◌, min, length};
ghost use Rattle.meaning.specs.Block.{block_at, records_at, full_block, first_version, version_in};
ghost use Rattle.meaning.specs.File.{CheckFault, BlockNumberFault, VersionFault, KindFault, ReservedFault, ContentFault, kind_of, count_of};
ghost use Rattle.meaning.specs.Number.{decides};
ghost use Rattle.octets.specs.Input.{input};
ghost use Rattle.blocks.specs.Kinds.{byte_of};
ghost use Rattle.blocks.specs.Tested.{tested};

use crate::{Kind, head, records};
use chain::refusal::Fault;
use octets::layout;

// 21: the check is wrong.
fn check_wrong(kept: &[u8], b: usize) -> bool
    requires { block_at b ≤ length kept.now }
    ensures { decides (CheckFault (input kept.now 0) b) result }
{
    let at = layout::BLOCK * b;
    let sums = fletcher::check(kept, b, octets::byte(kept, at + layout::VERSION));
    octets::byte(kept, at + layout::CHECKED) != sums.first
        || octets::byte(kept, at + layout::CHECKED + 1) != sums.second
}

// 22: the block number is not the block's place.
fn block_number_wrong(kept: &[u8], b: usize) -> bool
    requires { block_at b ≤ length kept.now }
    ensures { decides (BlockNumberFault (input kept.now 0) b) result }
{
    octets::number(kept, layout::BLOCK * b + layout::BLOCK_NUMBER, layout::PAIR) != b as u64
}

// The kind whose turn it is.
pub fn kind(kept: &[u8], b: usize) -> Kind
    ensures { byte_of result ≡ kind_of (input kept.now 0) b }
{
    if b == 0 {
        Kind::Head
    } else if b <= head::state_blocks(kept) {
        Kind::State
    } else {
        Kind::Edge
    }
}

// The version is neither 1 nor 2, or differs from block 0's.
fn version_wrong(kept: &[u8], b: usize) -> bool
    requires { block_at b ≤ length kept.now }
    ensures { decides (VersionFault (input kept.now 0) b) result }
{
    let at = layout::BLOCK * b + layout::VERSION;
    let version = octets::byte(kept, at);
    version != octets::byte(kept, layout::VERSION)
        || !matches!(version, layout::FIRST | layout::SECOND)
}

// 23: kind or version wrong, or kind out of turn.
fn kind_wrong(kept: &[u8], b: usize) -> bool
    requires { block_at b ≤ length kept.now }
    ensures { decides (KindFault (input kept.now 0) b) result }
{
    let at = layout::BLOCK * b;
    octets::byte(kept, at + layout::KIND) != kind(kept, b) as u64 || version_wrong(kept, b)
}

// How many of so many records block k of their kind holds.
fn held(records: usize, k: usize) -> usize
    ensures { result ≡ min full_block (records - full_block * k) }
{
    layout::FULL.min(records.saturating_sub(layout::FULL.saturating_mul(k)))
}

// How many records the block holds.
pub fn count(kept: &[u8], b: usize) -> usize
    ensures { (result ≡ count_of (input kept.now 0) b) × (result ≤ full_block) }
{
    match kind(kept, b) {
        Kind::Head => 1,
        Kind::State => held(head::states(kept), b - 1),
        Kind::Edge => held(head::edges(kept), b - 1 - head::state_blocks(kept)),
    }
}

// In version 1 an edge has a reserved byte that is not 0; in version 2 its reward stands there.
fn edges_wrong(kept: &[u8], b: usize, count: usize) -> bool
    requires { (block_at b ≤ length kept.now) × (count ≤ full_block) }
    ensures { let f = input kept.now 0 in
        decides ((version_in f b ≡ first_version) × ReservedFault f (records_at b) count) result }
{
    let at = layout::BLOCK * b;
    octets::byte(kept, at + layout::VERSION) == layout::FIRST
        && records::reserved_wrong(kept, at + layout::RECORDS, count)
}

// 24: count, flag or reserved byte wrong.
fn content_wrong(kept: &[u8], b: usize) -> bool
    requires { block_at b ≤ length kept.now }
    ensures { (more : ℕ) → decides (ContentFault (input kept.now more) b) result }
{
    let at = layout::BLOCK * b;
    let begin = at + layout::RECORDS;
    let count = count(kept, b);
    octets::number(kept, at + layout::COUNT, layout::PAIR) != count as u64
        || octets::written(kept, begin + layout::RECORD * count, at + layout::CHECKED)
        || match kind(kept, b) {
            Kind::Head => records::head_wrong(kept),
            Kind::State => records::flag_wrong(kept, begin, count),
            Kind::Edge => edges_wrong(kept, b, count),
        }
}

// The first of 21 to 24 that applies to a block that begins within the bytes.
fn in_turn(kept: &[u8], b: usize) -> Result<(), Fault>
    requires { block_at b ≤ length kept.now }
    ensures { (more : ℕ) → tested (input kept.now more) b result }
{
    if check_wrong(kept, b) {
        return Err(Fault::BlockCheck);
    }
    if block_number_wrong(kept, b) {
        return Err(Fault::BlockNumber);
    }
    if kind_wrong(kept, b) {
        return Err(Fault::BlockKind);
    }
    if content_wrong(kept, b) {
        return Err(Fault::BlockContent);
    }
    Ok(())
}

// The same of any block. Past the bytes all are 0: the check is right, the block number is not.
pub fn test(kept: &[u8], b: usize) -> Result<(), Fault>
    ensures { (more : ℕ) → tested (input kept.now more) b result }
{
    if b <= kept.len() / layout::BLOCK {
        in_turn(kept, b)
    } else {
        Err(Fault::BlockNumber)
    }
}
