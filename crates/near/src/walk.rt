// The walk through the order: each state that goes is removed at its turn.
ghost use Rattle.std.specs.Prelude.{◌≡◌, ℕ, ◌<◌, ◌≤◌, true, false, length, slice_index};
ghost use Rattle.meaning.specs.Chain.{most_states};
ghost use Rattle.meaning.specs.Refusal.{work_size};
ghost use Rattle.meaning.specs.Step.{goes};
ghost use Rattle.near.specs.Gap.{Going, Widened};
ghost use Rattle.near.specs.Walk.{Turned, Walked};

use crate::step::remove;
use crate::wide::Gap;
use chain::Chain;
use chain::set::holds;

// Whether the state s is removed at its turn.
fn goes(s: usize, start: usize, live: u64) -> bool
    ensures { result ≡ goes start live s }
{
    s != start && holds(live, s)
}

// The gap with the column of s, where it can be one with it.
fn widened(gap: Gap, s: usize) -> Gap
    requires { s < most_states }
    ensures { Widened gap s result }
{
    if gap.from == gap.to {
        Gap { from: s, to: s + 1 }
    } else if s == gap.to {
        Gap { to: s + 1, ..gap }
    } else {
        gap
    }
}

// The gap at the turn of s, which goes or does not.
fn gap_at(gap: Gap, s: usize, go: bool) -> Gap
    requires { s < most_states }
    ensures { (go ≡ true → Widened gap s result) × (go ≡ false → result ≡ gap) }
{
    if go { widened(gap, s) } else { gap }
}

// The turn of the state s. Answers how many rows were made anew.
fn turn(work: &mut [u64], c: Chain, live: u64, s: usize, gap: Gap) -> u64
    requires { (c.states ≤ most_states) × (work_size c.states ≤ length work.old) × (s < c.states) × Going c.states s gap work.old }
    ensures { Turned c.states (goes c.start live s) s work.old work.new result }
{
    if goes(s, c.start, live) {
        remove(work, c.states, s, gap)
    } else {
        0
    }
}

// Takes the states in their order, and answers how many rows were made anew.
pub(crate) fn eliminate(work: &mut [u64], c: Chain, live: u64, order: &[u64]) -> u64
    requires few_states { (c.states ≤ most_states) × (work_size c.states ≤ length work.old) × (length order.now ≡ c.states) }
    requires order_fits { (p : ℕ) → p < c.states → slice_index order.now p < c.states }
    ensures { Walked c live order.now c.states work.old work.new result }
{
    let mut rows = 0;
    let mut gap = Gap::NONE;
    for s in order {
        let s = *s as usize;
        gap = gap_at(gap, s, goes(s, c.start, live));
        rows += turn(work, c, live, s, gap);
    }
    rows
}
