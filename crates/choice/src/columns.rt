// The columns of the rows as sets: for each column, Goal and Trap too, the states whose rows have a weight in it. Weights themselves are not
// asked for: which rows have one is known without them.
ghost use Rattle.std.specs.Prelude.{◌≡◌, ℕ, ◌+◌, ◌*◌, ◌≤◌, ◌<◌, eqb, length};
ghost use Rattle.meaning.specs.Chain.{most_states, edge_count};
ghost use Rattle.meaning.specs.Refusal.{EndFault};
ghost use Rattle.theory.specs.Stages.Weighs.{Brings, Brought};
ghost use Rattle.survey.specs.Sets.{sets_of, Exactly};
ghost use Rattle.choice.specs.Columns.{column_count, Among, Without, Joined, Carried, Gathered, counts, rows_in, columns_in, PassedOn, Emptied};

use chain::set::holds;
use chain::{Chain, edge};
use survey::Sets;

// The columns past the states: Goal, and then Trap.
const ENDS: usize = 2;

// The columns of the largest chain.
pub(crate) const COLUMNS: usize = Chain::STATES + ENDS;

// The members, where i is in the set, and else none.
fn among(set: u64, i: usize, members: u64) -> u64
    ensures { Exactly (Among set i members) result }
{
    if holds(set, i) { members } else { 0 }
}

// The set without the state i.
pub(crate) fn without(set: u64, i: usize) -> u64
    requires { i < most_states }
    ensures { Exactly (Without set i) result }
{
    set & !(1 << i)
}

// Adds the members to column j.
fn join(columns: &mut [u64], j: usize, members: u64)
    requires { j < length columns.old }
    ensures { Joined columns.old j members columns.new }
{
    columns[j] |= members;
}

// Adds the source of edge e, where that is live, to the column of its target.
fn carry(columns: &mut [u64], c: Chain, sets: Sets, edges: &[u64], e: usize)
    requires columns_len { (length columns.old ≡ column_count) × (c.states ≤ most_states) × (e < edge_count edges.now) }
    requires ends_right { (e : ℕ) → EndFault c.states edges.now e → ⊥ }
    ensures { let es = edges.now in
        Carried c.states (λ i j. Brings c.states c.goals es (sets_of sets) i j e) columns.old columns.new }
{
    let n = c.states;
    let i = edge::from(edges, e) as usize;
    let t = edge::to(edges, e) as usize;
    let from = among(sets.live, i, 1 << i);
    let good = among(sets.good, t, from);
    join(columns, t, among(sets.live, t, from));
    join(columns, n, among(c.goals, t, from));
    join(columns, n + 1, from & !good);
}

// The columns of the first rows, in one pass over the edges.
pub(crate) fn first(c: Chain, sets: Sets, edges: &[u64]) -> [u64; COLUMNS]
    requires few_states { c.states ≤ most_states }
    requires ends_right { (e : ℕ) → EndFault c.states edges.now e → ⊥ }
    ensures { let es = edges.now in
        Gathered c.states (Brought c.states c.goals es (sets_of sets) (edge_count es)) result }
{
    let mut columns = [0u64; COLUMNS];
    for e in 0..edge::count(edges) {
        carry(&mut columns, c, sets, edges, e);
    }
    columns
}

// How many rows but that of s have a weight in column s.
fn rows_to(columns: &[u64], s: usize) -> u64
    requires { (length columns.now ≡ column_count) × (s < most_states) }
    ensures { (result ≡ rows_in columns.now s) × (result ≤ most_states) }
{
    u64::from(without(columns[s], s).count_ones())
}

// Whether the row of s has a weight in column j, which is not its own.
fn leads(columns: &[u64], j: usize, s: usize) -> bool
    requires { j < length columns.now }
    ensures { result ≡ eqb (counts columns.now s j) 1 }
{
    j != s && holds(columns[j], s)
}

// In how many columns but its own the row of s has a weight, Goal and Trap counted.
fn columns_of(columns: &[u64], n: usize, s: usize) -> u64
    requires { (length columns.now ≡ column_count) × (n ≤ most_states) }
    ensures { (result ≡ columns_in n columns.now s) × (result ≤ column_count) }
{
    (0..n + ENDS).filter(|j| leads(columns, *j, s)).count() as u64
}

pub(crate) fn product(columns: &[u64], n: usize, s: usize) -> u64
    requires { (length columns.now ≡ column_count) × (n ≤ most_states) × (s < most_states) }
    ensures { let l = columns.now in
        (result ≡ rows_in l s * columns_in n l s) × (result ≤ most_states * column_count) }
{
    let rows = rows_to(columns, s);
    rows * columns_of(columns, n, s)
}

// A column once s is removed, where the rows `from` had a weight to s: they have one in each column that the row of s had one in.
fn passed_on(column: u64, from: u64, s: usize) -> u64
    requires { s < most_states }
    ensures { Exactly (PassedOn column from s) result }
{
    if holds(column, s) {
        without(column | from, s)
    } else {
        column
    }
}

// Removes the state s from every row.
pub(crate) fn remove(columns: &mut [u64], n: usize, s: usize)
    requires { (length columns.old ≡ column_count) × (n ≤ most_states) × (s < n) }
    ensures { Emptied n s columns.old columns.new }
{
    let from = without(columns[s], s);
    for column in &mut columns[..n + ENDS] {
        *column = passed_on(*column, from, s);
    }
    columns[s] = 0;
}
