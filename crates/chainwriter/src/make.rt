// The blocks of a chain file, written one after the other. The head goes first: each further block asks it for its kind and its count.
ghost use Rattle.std.specs.Prelude.{◌≡◌, ◌+◌, ◌*◌, ◌≤◌, ◌<◌, length};
ghost use Rattle.meaning.specs.Block.{block_size, block_at, full_block};
ghost use Rattle.meaning.specs.File.{kind_of, count_of, most_blocks};
ghost use Rattle.octets.specs.Input.{input};
ghost use Rattle.blocks.specs.Kinds.{byte_of};
ghost use Rattle.chainwriter.specs.Source.{source};
ghost use Rattle.chainwriter.specs.Packed.{begin_of};
ghost use Rattle.chainwriter.specs.Made.{Fronted, Slots, Checked, Made, Filed};

use crate::lent::{Content, Source};
use crate::pack;
use blocks::{Kind, block, head};
use octets::{layout, put_number};

// Which record of its kind is the first of block b.
fn begin(kept: &[u8], b: usize) -> usize
    requires { b < most_blocks }
    ensures { (result ≡ begin_of (input kept.now 0) b) × (result ≤ full_block * most_blocks) }
{
    let first = 1 + head::state_blocks(kept);
    if b < first {
        layout::FULL * b.saturating_sub(1)
    } else {
        layout::FULL * (b - first)
    }
}

// What stands before the records.
fn front(buffer: &mut [u8], b: usize, kind: Kind, count: usize)
    requires { (b < most_blocks) × (count ≤ full_block) × (block_at b + block_size ≤ length buffer.old) }
    ensures { Fronted buffer.old b (byte_of kind) count buffer.new }
{
    put_number(
        buffer,
        layout::BLOCK * b,
        layout::RECORDS,
        pack::front(kind, b, count),
    );
}

// The records, and zeros past the last.
fn records(s: &Source, buffer: &mut [u8], b: usize, content: Content)
    requires { (b < most_blocks) × (content.begin ≤ full_block * most_blocks) × (block_at b + block_size ≤ length buffer.old) }
    ensures { Slots (source s.now) (byte_of content.kind) content.count content.begin buffer.old b full_block buffer.new }
{
    let at = layout::BLOCK * b + layout::RECORDS;
    for i in 0..layout::FULL {
        let x = pack::slot(s, content, i);
        put_number(buffer, at + layout::RECORD * i, layout::RECORD, x);
    }
}

// The check, once all before it is written.
fn check(buffer: &mut [u8], b: usize)
    requires { (b < most_blocks) × (block_at b + block_size ≤ length buffer.old) }
    ensures { Checked buffer.old b buffer.new }
{
    let at = layout::BLOCK * b;
    let sums = fletcher::check(buffer, b, octets::byte(buffer, at + layout::VERSION));
    put_number(
        buffer,
        at + layout::CHECKED,
        layout::PAIR,
        pack::check(sums.first, sums.second),
    );
}

fn block(s: &Source, buffer: &mut [u8], b: usize)
    requires { (b < most_blocks) × (block_at b + block_size ≤ length buffer.old) }
    ensures { Made (source s.now) buffer.old b buffer.new }
{
    let kind = block::kind(buffer, b);
    let count = block::count(buffer, b);
    let begin = begin(buffer, b);
    front(buffer, b, kind, count);
    records(s, buffer, b, Content { kind, count, begin });
    check(buffer, b);
}

// The first `total` blocks.
pub(crate) fn blocks(s: &Source, buffer: &mut [u8], total: usize)
    requires { (total ≤ most_blocks) × (block_at total ≤ length buffer.old) }
    ensures { Filed (source s.now) buffer.old total buffer.new }
{
    for b in 0..total {
        block(s, buffer, b);
    }
}
