// Sets of states, each written as one number, that grow along the edges.
ghost use Rattle.std.specs.Prelude.{◌≡◌, List, true, ℕ, ◌^◌, ◌≤◌, ◌<◌, length};
ghost use Rattle.meaning.specs.Chain.{most_states, edge_count, End, FromStart};
ghost use Rattle.meaning.specs.Refusal.{EndFault};
ghost use Rattle.meaning.specs.Number.{decides};
ghost use Rattle.survey.specs.Grow.{tail, Open, way, Grown, Joined, AfterPass, in_turn};
ghost use Rattle.survey.specs.Sets.{chain_of, chain_in, Exactly, Marked, MarkedTo, Alive, Astray, Known};

use crate::Sets;
use chain::bits::alone;
use chain::given::Given;
use chain::{Chain, edge};
use look::sums::missing;

// Edges that leave state i lead on: it is in the set, and not in the barrier.
fn is_open(barrier: u64, set: u64, i: usize) -> bool
    requires { i < most_states }
    ensures { decides (Open barrier set i) result }
{
    let open = set ^ (set & barrier);
    open & alone(i) != 0
}

// The state from which edge e leads on. The head of an edge is its tail the other way.
fn tail(back: bool, edges: &[u64], e: usize) -> usize
    ensures { result ≡ tail back edges.now e }
{
    if back {
        return edge::to(edges, e) as usize;
    }
    edge::from(edges, e) as usize
}

// The set with the head of edge e, where its tail is open.
fn join(back: bool, barrier: u64, set: u64, edges: &[u64], e: usize) -> u64
    requires edge_there { e < edge_count edges.now }
    requires ends_right { (e : ℕ) → EndFault most_states edges.now e → ⊥ }
    ensures { Joined (way back barrier edges.now) e set result }
{
    let i = tail(back, edges, e);
    if is_open(barrier, set, i) {
        let j = tail(!back, edges, e);
        return set | alone(j);
    }
    set
}

// The edge at place e of a pass. Backwards the last edge comes first: where the states are numbered along the way, one pass then does most of it.
fn turn(back: bool, count: usize, e: usize) -> usize
    requires { e < count }
    ensures { result ≡ in_turn back count e }
{
    if back {
        return count - (e + 1);
    }
    e
}

// One pass over the edges, which adds to the set itself what each of them adds.
fn pass(back: bool, barrier: u64, set: u64, edges: &[u64]) -> u64
    requires { (e : ℕ) → EndFault most_states edges.now e → ⊥ }
    ensures { AfterPass (way back barrier edges.now) set result }
{
    let count = edge::count(edges);
    let mut larger = set;
    for e in 0..count {
        larger = join(back, barrier, larger, edges, turn(back, count, e));
    }
    larger
}

// Passes until one adds nothing. A set that grows is a larger number, so that there is a last one.
fn grow(back: bool, barrier: u64, seed: u64, edges: &[u64]) -> u64
    requires { (e : ℕ) → EndFault most_states edges.now e → ⊥ }
    ensures { Exactly (Grown (way back barrier edges.now) seed) result }
{
    let mut set = seed;
    let mut larger = pass(back, barrier, seed, edges);
    while set < larger {
        set = larger;
        larger = pass(back, barrier, set, edges);
    }
    set
}

// The set with state i, where a weight is missing from its row.
fn marked(set: u64, i: usize, lack: u64) -> u64
    requires { i < most_states }
    ensures { Marked set i lack result }
{
    if lack == 0 {
        return set;
    }
    set | alone(i)
}

// The states from whose rows a weight is missing, and those of another set.
fn with_short(set: u64, lacks: &[u64; Chain::STATES]) -> u64
    ensures { Exactly (MarkedTo set lacks.now most_states) result }
{
    let mut marks = set;
    for (i, lack) in lacks.iter().enumerate() {
        marks = marked(marks, i, *lack);
    }
    marks
}

// Where paths end: in the goals and, where rows may fall short, in the states whose rows do.
fn ends(g: &Given, short: bool) -> u64
    requires { (g.now.chain.states ≤ most_states) × (length g.now.denominators.now ≡ g.now.chain.states) }
    ensures { Exactly (End short (chain_in g.now)) result }
{
    if !short {
        return g.chain.goals;
    }
    let lacks = missing(g.denominators, g.edges);
    with_short(g.chain.goals, &lacks)
}

// The states with a path to an end: they grow from the ends, backwards.
fn good(ends: u64, edges: &[u64]) -> u64
    requires { (e : ℕ) → EndFault most_states edges.now e → ⊥ }
    ensures { Exactly (Grown (way true 0 edges.now) ends) result }
{
    grow(true, 0, ends, edges)
}

// The states that can be reached from the start without passing a goal.
fn reached(c: Chain, edges: &[u64]) -> u64
    requires start_fits { c.start < most_states }
    requires ends_right { (e : ℕ) → EndFault most_states edges.now e → ⊥ }
    ensures { (d : List ℕ) → Exactly (FromStart (chain_of c d edges.now)) result }
{
    let start = alone(c.start);
    grow(false, c.goals, start, edges)
}

// The live states: good and reached, and no goals.
fn alive(good: u64, reached: u64, goals: u64) -> u64
    ensures { Exactly (Alive good reached goals) result }
{
    let both = good & reached;
    both ^ (both & goals)
}

// Some state is reached and not good.
fn astray(good: u64, reached: u64) -> bool
    ensures { decides (Astray good reached) result }
{
    good & reached != reached
}

// The sets of a chain, whose rows may fall short or not.
pub(crate) fn sets(g: &Given, short: bool) -> Sets
    requires start_fits { (g.now.chain.start < most_states) × (g.now.chain.states ≤ most_states) × (length g.now.denominators.now ≡ g.now.chain.states) }
    requires ends_right { (e : ℕ) → EndFault most_states g.now.edges.now e → ⊥ }
    ensures { Known short (chain_in g.now) result }
{
    let good = good(ends(g, short), g.edges);
    let reached = reached(g.chain, g.edges);
    Sets {
        good,
        live: alive(good, reached, g.chain.goals),
        missed: astray(good, reached),
    }
}
