// The tables of a file, with the edges of its lost blocks left out.
ghost use Rattle.std.specs.Prelude.{◌≡◌, ◌+◌, ◌*◌, ◌/◌, ◌≤◌, ◌<◌, length};
ghost use Rattle.meaning.specs.Number.{tab_from, filled, decides};
ghost use Rattle.meaning.specs.Chain.{most_edges, edge_size};
ghost use Rattle.meaning.specs.Block.{number_at, record_size, full_block, head_states, head_edges, state_blocks, record_at, state_at};
ghost use Rattle.meaning.specs.File.{ShortOf, most_blocks, edge_in, goals_in};
ghost use Rattle.meaning.specs.Salvage.{kept_edges, kept_before, left_tables, verdict};
ghost use Rattle.chain.specs.Edge.{placed};
ghost use Rattle.chainfile.specs.Input.{input, end};
ghost use Rattle.chainfile.specs.Tells.{Within, ShortFor, Narrow, edge_from, EdgeSet, tables};

use blocks::head;
use chain::{Chain, edge, table};
use octets::layout;

// 2: a table is shorter than a chain of so many states and so many edges needs.
pub(crate) fn short_for(
    states: usize,
    count: usize,
    denominators: usize,
    edges: usize,
    order: usize,
    rewards: usize,
) -> bool
    requires { count < 65536 }
    ensures { decides (ShortFor states count denominators edges order rewards) result }
{
    denominators < states || edges < edge::SIZE * count || order < states || rewards < states
}

// 2: a table is shorter than the largest chain needs.
pub(crate) fn short(denominators: usize, edges: usize, order: usize, rewards: usize) -> bool
    ensures { decides (ShortOf denominators edges order rewards) result }
{
    short_for(
        Chain::STATES,
        Chain::EDGES,
        denominators,
        edges,
        order,
        rewards,
    )
}

// Where record i of a kind begins whose first block is b.
fn record_at(b: usize, i: usize) -> usize
    requires { b + i / full_block < most_blocks }
    ensures { (result ≡ record_at b i) × (result + record_size ≤ end) }
{
    layout::BLOCK * (b + i / layout::FULL) + layout::RECORDS + layout::RECORD * (i % layout::FULL)
}

// A table of one number a state, which stands in its record from byte `offset` on.
fn state_numbers(kept: &[u8], offset: usize, width: usize, table: &mut [u64])
    requires within { Within (input kept.now 0) }
    requires room { (head_states (input kept.now 0) ≤ length table.old) × (offset < record_size) × (width ≤ 4) }
    ensures { let f = input kept.now 0 in
        table.new ≡ filled (tab_from 0 (head_states f) (λ i. number_at f (state_at i + offset) width)) table.old }
{
    for i in 0..head::states(kept) {
        table[i] = octets::number(kept, record_at(1, i) + offset, width);
    }
}

// The goal set: bit i is the flag of state i.
pub(crate) fn goals(kept: &[u8]) -> u64
    requires { Within (input kept.now 0) }
    ensures { result ≡ goals_in (input kept.now 0) }
{
    let mut goals = 0;
    for i in 0..head::states(kept) {
        goals += octets::byte(kept, record_at(1, i) + layout::FLAG) << i;
    }
    goals
}

// An edge from the bytes of its record, set at place k of the table.
fn put_record(bytes: &[u8], table: &mut [u64], k: usize)
    ensures { table.new ≡ placed table.old k (edge_from (input bytes.now 0) 0) }
{
    let from = octets::byte(bytes, layout::FROM);
    let to = octets::byte(bytes, layout::TO);
    let weight = octets::number(bytes, layout::WEIGHT, layout::QUAD);
    let reward = octets::number(bytes, layout::EDGE_REWARD, layout::PAIR);
    edge::put(table, k, from, to, weight, reward);
}

// Edge e of the file, set at place k of the table. Where its record is kept whole, the compiler sees that all of its bytes are there.
fn edge_record(kept: &[u8], first: usize, e: usize, table: &mut [u64], k: usize)
    requires { (first ≡ 1 + state_blocks (input kept.now 0)) × (first + e / full_block < most_blocks) }
    ensures { table.new ≡ placed table.old k (edge_in (input kept.now 0) e) }
{
    let at = record_at(first, e);
    let after = at + layout::RECORD;
    if after <= kept.len() {
        put_record(&kept[at..after], table, k);
    } else {
        put_record(&kept[octets::end(kept, at)..], table, k);
    }
}

// An edge of a lost block is skipped. Answers the place of the next edge.
fn keep(kept: &[u8], lost: &[u64], first: usize, e: usize, table: &mut [u64], k: usize) -> usize
    requires { (first ≡ 1 + state_blocks (input kept.now 0)) × (first + e / full_block < most_blocks) × (k ≤ most_edges) }
    ensures { EdgeSet (input kept.now 0) lost.now e k table.old table.new result }
{
    if table::at(lost, first + e / layout::FULL) != 0 {
        return k;
    }
    edge_record(kept, first, e, table, k);
    k + 1
}

// The kept edges, a record each. Answers how many.
fn edge_numbers(kept: &[u8], lost: &[u64], table: &mut [u64]) -> usize
    requires within { Within (input kept.now 0) }
    requires room { edge_size * head_edges (input kept.now 0) ≤ length table.old }
    ensures { let f = input kept.now 0 in
        let v = verdict lost.now in
        (table.new ≡ filled (kept_edges f v (head_edges f)) table.old) × (result ≡ kept_before f v (head_edges f)) }
{
    let first = 1 + head::state_blocks(kept);
    let mut k = 0;
    for e in 0..head::edges(kept) {
        k = keep(kept, lost, first, e, table, k);
    }
    k
}

// Fills the four tables from the front, and leaves the entries past the chain's own. Answers how many edges are kept.
pub(crate) fn tables(
    kept: &[u8],
    lost: &[u64],
    denominators: &mut [u64],
    edges: &mut [u64],
    order: &mut [u64],
    rewards: &mut [u64],
) -> usize
    requires within { Within (input kept.now 0) }
    requires room { Narrow (input kept.now 0) (tables denominators.old edges.old order.old rewards.old) → ⊥ }
    ensures { let f = input kept.now 0 in
        let v = verdict lost.now in
        let before = tables denominators.old edges.old order.old rewards.old in
        let after = tables denominators.new edges.new order.new rewards.new in
        (after ≡ left_tables f v before) × (result ≡ kept_before f v (head_edges f)) }
{
    state_numbers(kept, layout::DENOMINATOR, layout::QUAD, denominators);
    let count = edge_numbers(kept, lost, edges);
    state_numbers(kept, layout::ORDER, layout::SINGLE, order);
    state_numbers(kept, layout::REWARD, layout::PAIR, rewards);
    count
}
