// A record of a chain file, and what stands before the records of a block, each as one number whose bytes they are.
ghost use Rattle.std.specs.Prelude.{◌≡◌, ◌+◌, ◌*◌, ◌^◌, ◌≤◌, ◌<◌};
ghost use Rattle.meaning.specs.Number.{bit};
ghost use Rattle.meaning.specs.Block.{record_size, full_block};
ghost use Rattle.chainwriter.specs.Packed.{head_record, state_record, edge_record, record_of, slot_of, front_of, check_of};
ghost use Rattle.meaning.specs.File.{most_blocks};
ghost use Rattle.blocks.specs.Kinds.{byte_of};
ghost use Rattle.chainwriter.specs.Source.{source};

use crate::lent::{Content, Source};
use blocks::Kind;
use chain::table::at;
use chain::{edge, set};
use octets::layout;

// x where it lies from byte `offset` on.
fn lifted(x: u64, offset: usize) -> u64
    requires { (offset < record_size) × (x * 256 ^ offset < 18446744073709551616) }
    ensures { result ≡ x * 256 ^ offset }
{
    x << (8 * offset)
}

fn head(states: usize, start: usize, edges: usize) -> u64
    requires { (states < 256) × (start < 256) × (edges < 65536) }
    ensures { result ≡ head_record states start edges }
{
    lifted(states as u64, layout::HEAD_STATES)
        + lifted(start as u64, layout::HEAD_START)
        + lifted(edges as u64, layout::HEAD_EDGES)
}

fn flag(goals: u64, i: usize) -> u64
    ensures { result ≡ bit goals i }
{
    u64::from(set::holds(goals, i))
}

fn state(denominator: u64, reward: u64, flag: u64, order: u64) -> u64
    requires { (denominator < 4294967296) × (reward < 65536) × (flag < 256) × (order < 256) }
    ensures { result ≡ state_record denominator reward flag order }
{
    lifted(denominator, layout::DENOMINATOR)
        + lifted(reward, layout::REWARD)
        + lifted(flag, layout::FLAG)
        + lifted(order, layout::ORDER)
}

fn edge(from: u64, to: u64, weight: u64, reward: u64) -> u64
    requires { (from < 256) × (to < 256) × (weight < 4294967296) × (reward < 65536) }
    ensures { result ≡ edge_record from to weight reward }
{
    lifted(from, layout::FROM)
        + lifted(to, layout::TO)
        + lifted(reward, layout::EDGE_REWARD)
        + lifted(weight, layout::WEIGHT)
}

// Record k of a kind.
#[tactic(auto, unfolding(crate::specs::Packed::record_of))]
fn record(s: &Source, kind: Kind, k: usize) -> u64
    ensures { result ≡ record_of (source s.now) (byte_of kind) k }
{
    let chain = s.given.chain;
    let edges = s.given.edges;
    match kind {
        Kind::Head => head(chain.states, chain.start, edge::count(edges)),
        Kind::State => state(
            at(s.given.denominators, k),
            at(s.rewards, k),
            flag(chain.goals, k),
            at(s.order, k),
        ),
        Kind::Edge => edge(
            edge::from(edges, k),
            edge::to(edges, k),
            edge::weight(edges, k),
            edge::reward(edges, k),
        ),
    }
}

// Record i of a block; past its content nothing.
#[tactic(auto, unfolding(crate::specs::Packed::slot_of))]
pub(crate) fn slot(s: &Source, content: Content, i: usize) -> u64
    requires { (content.begin ≤ full_block * most_blocks) × (i < full_block) }
    ensures { result ≡ slot_of (source s.now) (byte_of content.kind) content.count content.begin i }
{
    if i < content.count {
        record(s, content.kind, content.begin + i)
    } else {
        0
    }
}

// What stands before the records of block b.
pub(crate) fn front(kind: Kind, b: usize, count: usize) -> u64
    requires { (b < most_blocks) × (count ≤ full_block) }
    ensures { result ≡ front_of (byte_of kind) b count }
{
    lifted(kind as u64, layout::KIND)
        + lifted(layout::SECOND, layout::VERSION)
        + lifted(b as u64, layout::BLOCK_NUMBER)
        + lifted(count as u64, layout::COUNT)
}

// The check: the first sum, then the second.
pub(crate) fn check(first: u64, second: u64) -> u64
    requires { (first < 256) × (second < 256) }
    ensures { result ≡ check_of first second }
{
    first + lifted(second, 1)
}
