// Packed rows that are written: the row that comes about when a state is removed, and a row without its weights of 0.
ghost use Rattle.std.specs.Prelude.{◌≡◌, true, ℕ, ◌+◌, ◌*◌, ◌^◌, ◌≤◌, ◌<◌, ltb, length, get_or};
ghost use Rattle.std.specs.Int.Count.{ones};
ghost use Rattle.meaning.specs.Chain.{most_states, M};
ghost use Rattle.meaning.specs.Number.{only, choose};
ghost use Rattle.meaning.specs.Row.{width};
ghost use Rattle.elimination.specs.Packed.{weights_at, Modest, Spread, Room};
ghost use Rattle.elimination.specs.Filled.{Columns, blend, targets_to, Filled, Beside, Closed, Merged, Replaceable, Alike, Replaced, Squeezable, Squeezed};

use crate::members::Members;
use crate::part::{REWARD, WEIGHTS, end, spread, weight};
use crate::work::clear;
use chain::Chain;
use chain::bits::{alone, place};

// 1 where a weight is above 0, else 0.
pub(crate) fn some(v: u64) -> usize
    ensures { result ≡ only (ltb 0 v) 1 }
{
    usize::from(0 < v)
}

// The set of state j alone where its weight is above 0, else the empty one.
fn mark(v: u64, j: usize) -> u64
    requires { j < most_states }
    ensures { result ≡ only (ltb 0 v) (2 ^ j) }
{
    if 0 < v { alone(j) } else { 0 }
}

// The product of two numbers of kept rows: each has at most 32 bits, so that the compiler can multiply several at once.
fn product(a: u64, b: u64) -> u64
    requires { (a ≤ M) × (b ≤ M) }
    ensures { (result ≡ a * b) × (result ≤ M * M) }
{
    u64::from(a as u32) * u64::from(b as u32)
}

// A number of a row that the row of a state is put into: x of the row, p of the state's row, w the weight to the state.
fn mix(x: u64, d: u64, w: u64, p: u64) -> u64
    requires { (x ≤ M) × (d ≤ M) × (w ≤ M) × (p ≤ M) }
    ensures { result ≡ x * d + w * p }
{
    product(x, d) + product(w, p)
}

// The same, and 0 for the state itself.
fn cell(x: u64, d: u64, w: u64, p: u64, gone: bool) -> u64
    requires { (x ≤ M) × (d ≤ M) × (w ≤ M) × (p ≤ M) }
    ensures { result ≡ choose gone 0 (x * d + w * p) }
{
    if gone { 0 } else { mix(x, d, w, p) }
}

// The numbers of the new row before place e, where those of both rows stand side by side.
fn beside(part: &mut [u64], pivot: &[u64; Chain::WIDTH], e: usize, d: u64, w: u64)
    requires { (0 < e) × (e ≤ length part.old) × (e ≤ width most_states) × (d ≤ M) × (w ≤ M) × Modest part.old × Modest pivot.now }
    ensures { Beside d w e pivot.now part.old part.new }
{
    for q in REWARD..e {
        part[q] = mix(part[q], d, w, pivot[q]);
    }
}

// The weights of the new row, side by side; those that are 0 are left out. Answers its targets. x and y are the weights of the two rows, each
// at the number of its state, and 0 outside the set all.
pub(crate) fn weights(
    part: &mut [u64],
    all: u64,
    x: &[u64; Chain::WIDTH],
    y: &[u64; Chain::WIDTH],
    s: usize,
    d: u64,
    w: u64,
) -> u64
    requires { (weights_at + ones all ≤ length part.old) × (d ≤ M) × (w ≤ M) × Columns all x.now × Columns all y.now
        × ((q : ℕ) → weights_at ≤ q → get_or part.old q 0 ≡ 0) }
    ensures { let c = blend s d w x.now y.now in
        (result ≡ targets_to c most_states) × Filled c part.old most_states part.new }
{
    let mut targets = 0;
    let mut k = WEIGHTS;
    for j in Members(all) {
        let v = cell(x[j], d, w, y[j], j == s);
        part[k] = v;
        k += some(v);
        targets += mark(v, j);
    }
    targets
}

// The packed row of a state once s is removed: d is the D of s, w the weight to s; pivot is a copy of the row of s, and x and y are the weights
// of the two rows, each at the number of its state.
fn merge(
    part: &mut [u64],
    x: &[u64; Chain::WIDTH],
    pivot: &[u64; Chain::WIDTH],
    y: &[u64; Chain::WIDTH],
    s: usize,
    d: u64,
    w: u64,
)
    requires { Room (length part.old) part.old pivot.now × (d ≤ M) × (w ≤ M) × Modest part.old × Modest pivot.now × Spread part.old x.now × Spread pivot.now y.now }
    ensures { Merged s d w pivot.now part.old part.new }
{
    let all = part[0] | pivot[0];
    beside(part, pivot, WEIGHTS, d, w);
    clear(&mut part[WEIGHTS..]);
    let t = weights(part, all, x, y, s, d, w);
    part[0] = t;
}

// The numbers of the new row behind place a and before place e, each written one place before the two that it is made from: that of place a goes, and the
// last is 0.
fn close(part: &mut [u64], pivot: &[u64; Chain::WIDTH], a: usize, e: usize, d: u64, w: u64)
    requires { (a < e) × (e ≤ length part.old) × (e ≤ width most_states) × (d ≤ M) × (w ≤ M)
        × ((q : ℕ) → a < q → get_or part.old q 0 ≤ M) × Modest pivot.now }
    ensures { Closed d w a e pivot.now part.old part.new }
{
    for q in a..e - 1 {
        part[q] = mix(part[q + 1], d, w, pivot[q + 1]);
    }
    part[e - 1] = 0;
}

// A packed row once s, one of its targets, is removed, where the row of s has the same targets and its D, d, is not 0: then their weights stand side
// by side, and none becomes 0 but that to s.
fn join(part: &mut [u64], pivot: &[u64; Chain::WIDTH], s: usize, d: u64)
    requires { Replaceable s d pivot.now part.old × Alike d pivot.now part.old }
    ensures { Replaced s d pivot.now part.old part.new }
{
    let w = weight(part, s);
    let e = end(part);
    let targets = part[0];
    let a = WEIGHTS + place(targets, s);
    beside(part, pivot, a, d, w);
    close(part, pivot, a, e, d, w);
    part[0] = targets - alone(s);
}

// Whether two packed rows have the same targets, and d is not 0.
fn alike(old: u64, new: u64, d: u64) -> bool
    ensures { result ≡ true → (old ≡ new) × (0 < d) }
{
    old == new && 0 < d
}

// A packed row once s, one of its targets, is removed: pivot is a copy of the row of s, y its weights by state, and d its D.
pub(crate) fn replace(
    part: &mut [u64],
    pivot: &[u64; Chain::WIDTH],
    y: &[u64; Chain::WIDTH],
    s: usize,
    d: u64,
)
    requires { Replaceable s d pivot.now part.old × Spread pivot.now y.now }
    ensures { Replaced s d pivot.now part.old part.new }
{
    if alike(part[0], pivot[0], d) {
        join(part, pivot, s, d);
        return;
    }
    let x = spread(part);
    let w = weight(part, s);
    merge(part, &x, pivot, y, s, d, w);
}

// Leaves out the targets whose weight has become 0. The row stays.
pub(crate) fn squeeze(part: &mut [u64])
    requires { Squeezable part.old }
    ensures { Squeezed part.old part.new }
{
    let x = spread(part);
    let none = [0u64; Chain::WIDTH];
    merge(part, &x, &none, &none, Chain::WIDTH, 1, 0);
}
