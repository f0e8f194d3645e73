// The lines of a chain text in their turns: what each adds to the tables.
ghost use Rattle.std.specs.Prelude.{List, ℕ, ◌^◌, ◌≤◌, ◌<◌, length};
ghost use Rattle.meaning.specs.File.{Tables};
ghost use Rattle.chaintext.specs.Turns.{tables, Ready, TakenAs};

use crate::lines;
use chain::edge::put;

// Whose turn it is: the state's, or after the last of them the order's; the edge's, or after the last of them no line's.
#[derive(Clone, Copy)]
pub(crate) enum Turn {
    States,
    Edges,
    Start,
    State(usize),
    Edge(usize),
}

// What is held beside the tables. The tables hold numbers in range where nothing was read yet, so that they are a chain's at any time.
#[derive(Clone, Copy)]
pub(crate) struct Held {
    pub states: usize,
    pub edges: usize,
    pub start: usize,
    pub goals: u64,
}

fn states(line: &[u8], h: Held) -> Option<(Turn, Held)>
    ensures { (t : Tables) → Ready Turn.States h t → TakenAs Turn.States h t line.now t result }
{
    let n = lines::count(line, b"states ", 1, 64)? as usize;
    Some((Turn::Edges, Held { states: n, ..h }))
}

fn edges(line: &[u8], h: Held) -> Option<(Turn, Held)>
    ensures { (t : Tables) → Ready Turn.Edges h t → TakenAs Turn.Edges h t line.now t result }
{
    let n = lines::count(line, b"edges ", 1, 4096)? as usize;
    Some((Turn::Start, Held { edges: n, ..h }))
}

fn start(line: &[u8], h: Held) -> Option<(Turn, Held)>
    ensures { (t : Tables) → Ready Turn.Start h t → TakenAs Turn.Start h t line.now t result }
{
    let n = lines::count(line, b"start ", 0, 255)? as usize;
    Some((Turn::State(0), Held { start: n, ..h }))
}

fn state(
    line: &[u8],
    i: usize,
    h: Held,
    denominators: &mut [u64],
    rewards: &mut [u64],
) -> Option<(Turn, Held)>
    requires { (i < 64) × (h.goals < 2 ^ i) × (i < length denominators.old) × (i < length rewards.old) × (i < h.states) }
    ensures { let before = tables denominators.old in
        let after = tables denominators.new in
        ((es o : List ℕ) → Ready (Turn.State i) h (before es o rewards.old)
        → TakenAs (Turn.State i) h (before es o rewards.old) line.now (after es o rewards.new) result) }
{
    let read = lines::state(line, i as u64)?;
    denominators[i] = read.denominator;
    rewards[i] = read.reward;
    let goals = if read.goal {
        h.goals + (1 << i)
    } else {
        h.goals
    };
    Some((Turn::State(i + 1), Held { goals, ..h }))
}

fn order(line: &[u8], h: Held, order: &mut [u64]) -> Option<(Turn, Held)>
    requires { h.states ≤ length order.old }
    ensures { (d es rs : List ℕ) → Ready (Turn.State h.states) h (tables d es order.old rs)
        → TakenAs (Turn.State h.states) h (tables d es order.old rs) line.now (tables d es order.new rs) result }
{
    lines::order(line, h.states, order)?;
    Some((Turn::Edge(0), h))
}

fn edge(line: &[u8], e: usize, h: Held, edges: &mut [u64]) -> Option<(Turn, Held)>
    requires { e < h.edges }
    ensures { (d o rs : List ℕ) → Ready (Turn.Edge e) h (tables d edges.old o rs)
        → TakenAs (Turn.Edge e) h (tables d edges.old o rs) line.now (tables d edges.new o rs) result }
{
    let read = lines::edge(line)?;
    put(edges, e, read.from, read.to, read.weight, read.reward);
    Some((Turn::Edge(e + 1), h))
}

// One line.
pub(crate) fn take(
    line: &[u8],
    turn: Turn,
    held: Held,
    denominators: &mut [u64],
    edges: &mut [u64],
    order: &mut [u64],
    rewards: &mut [u64],
) -> Option<(Turn, Held)>
    requires { Ready turn held (tables denominators.old edges.old order.old rewards.old) }
    ensures { let before = tables denominators.old edges.old order.old rewards.old in
        let after = tables denominators.new edges.new order.new rewards.new in
        TakenAs turn held before line.now after result }
{
    match turn {
        Turn::States => states(line, held),
        Turn::Edges => self::edges(line, held),
        Turn::Start => start(line, held),
        Turn::State(i) if i < held.states => state(line, i, held, denominators, rewards),
        Turn::State(_) => self::order(line, held, order),
        Turn::Edge(e) if e < held.edges => edge(line, e, held, edges),
        Turn::Edge(_) => None,
    }
}
