// The weights of the edges, gathered by columns in one pass, and what is missing from a row. While they are gathered a row's own part has a number
// for each column: the n states, then Goal in column n and Trap, Unknown and Reward behind it.
ghost use Rattle.std.specs.Prelude.{◌≡◌, ◌+◌, ◌<◌, ◌≤◌, eqb, length, get_or, set};
ghost use Rattle.meaning.specs.Number.{sum_to, only};
ghost use Rattle.meaning.specs.Chain.{most_states, M, edge_count};
ghost use Rattle.meaning.specs.Row.{cell, width, unknown_column};
ghost use Rattle.meaning.specs.Refusal.{work_size};
ghost use Rattle.meaning.specs.Step.{unknown};
ghost use Rattle.elimination.specs.Engine.{is_short};
ghost use Rattle.elimination.specs.Table.{part_at, Blank};
ghost use Rattle.survey.specs.Sets.{chain_in, sets_of};
ghost use Rattle.elimination.specs.Gather.{column_of, share, lack, Changed, Added, Held, Addable, Gatherable, Completable};

use crate::engine::Elimination;
use crate::work::row_start;
use chain::edge;
use chain::set::holds;
use chain::table::at;
use look::sums::missing;
use survey::Sets;

// How far Trap and Unknown stand behind Goal.
pub(crate) const TRAP_BEHIND: usize = 1;

pub(crate) const UNKNOWN_BEHIND: usize = 2;

// The column of a target in the row of a live state. A target that is not live and has a path to an end is a goal.
fn column(t: usize, n: usize, sets: Sets) -> usize
    requires { (t < n) × (n ≤ most_states) }
    ensures { (result ≡ column_of n (sets_of sets) t) × (result < width n) }
{
    if holds(sets.live, t) {
        return t;
    }
    if holds(sets.good, t) {
        return n;
    }
    n + TRAP_BEHIND
}

// Adds x to the number in column j of row i.
fn add(work: &mut [u64], n: usize, i: usize, j: usize, x: u64)
    requires { (n ≤ most_states) × (work_size n ≤ length work.old) × (i < n) × (j < width n) × (cell (part_at n work.old i) j + x ≤ M) }
    ensures { let r = part_at n work.old i in
        Changed n work.old i (set r j (cell r j + x)) work.new }
{
    let p = row_start(n, i) + j;
    work[p] += x;
}

// Adds the weight of edge e to the row of its source, where that is live.
fn carry(work: &mut [u64], n: usize, sets: Sets, edges: &[u64], e: usize)
    requires { Addable n edges.now e work.old }
    ensures { Added n (λ i j. share n (sets_of sets) edges.now i j e) work.old work.new }
{
    let i = edge::from(edges, e) as usize;
    if !holds(sets.live, i) {
        return;
    }
    let j = column(edge::to(edges, e) as usize, n, sets);
    add(work, n, i, j, edge::weight(edges, e));
}

// Gathers the weights of all edges, in one pass, in a table of zeros.
pub(crate) fn gather(work: &mut [u64], n: usize, sets: Sets, edges: &[u64])
    requires { Gatherable n edges.now work.old × Blank n work.old }
    ensures { let es = edges.now in
        Held n (λ i j. sum_to (share n (sets_of sets) es i j) (edge_count es)) work.old work.new }
{
    for e in 0..edge::count(edges) {
        carry(work, n, sets, edges, e);
    }
}

// Adds x, which is missing from row i, to its Unknown, where i is live.
fn complete(work: &mut [u64], n: usize, live: u64, i: usize, x: u64)
    requires { let w = work.old in
        (n ≤ most_states) × (work_size n ≤ length w) × (i < n) × (cell (part_at n w i) (unknown_column n) + x ≤ M) }
    ensures { Added n (λ r j. only (eqb r i) (lack n live i x j)) work.old work.new }
{
    if !holds(live, i) {
        return;
    }
    add(work, n, i, n + UNKNOWN_BEHIND, x);
}

// Adds to each live row what is missing from it.
fn complete_all(work: &mut [u64], n: usize, live: u64, left: &[u64])
    requires { Completable n (λ i. get_or left.now i 0) work.old }
    ensures { let l = left.now in
        Added n (λ i j. lack n live i (get_or l i 0) j) work.old work.new }
{
    for i in 0..n {
        complete(work, n, live, i, at(left, i));
    }
}

// The same where rows may fall short. Else nothing is missing, and the edges are not gone through again.
pub(crate) fn add_missing(work: &mut [u64], e: &Elimination)
    requires { let c = chain_in e.now.given in Completable c.states (unknown (is_short e.now.engine) c) work.old }
    ensures { let c = chain_in e.now.given in
        Added c.states (λ i j. lack c.states e.now.sets.live i (unknown (is_short e.now.engine) c i) j) work.old work.new }
{
    if !e.engine.short() {
        return;
    }
    let g = e.given;
    let left = missing(g.denominators, g.edges);
    complete_all(work, g.chain.states, e.sets.live, &left);
}
