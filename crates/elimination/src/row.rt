// One packed row: its total, how it is rounded, and what is kept of it.
ghost use Rattle.std.specs.Prelude.{◌≡◌, true, false, ℕ, ◌+◌, ◌^◌, ◌<◌, ◌≤◌, ltb, length};
ghost use Rattle.meaning.specs.Chain.{most_states, M};
ghost use Rattle.meaning.specs.Number.{sum_to, only, decides};
ghost use Rattle.meaning.specs.Row.{cell, total, reward, divisor, over, up_to, shift_of, rounded, bounded, settled};
ghost use Rattle.elimination.specs.Packed.{end_of_part, states_of, unpacked, Packed};
ghost use Rattle.elimination.specs.Row.{Summable, Shifted, Became};

use crate::merge::squeeze;
use crate::part::{GOAL, REWARD, TRAP, UNKNOWN, WEIGHTS, end};
use chain::Chain;
use chain::divisor::reduce;

// What the weights of a row come to once they are divided: their sum, and how many are above 0.
#[derive(Clone, Copy)]
struct Lowered {
    sum: u64,
    some: u64,
}

// The total of a packed row, whose numbers end at e.
pub(crate) fn total(part: &[u64], e: usize) -> u64
    requires { Summable (states_of part.now) part.now × (e ≡ end_of_part part.now) }
    ensures { let p = part.now in
        result ≡ total (states_of p) (unpacked (states_of p) p) }
{
    part[GOAL..e].iter().sum()
}

// A total divided by 2 ^ k and rounded up.
fn up(t: u64, k: u64) -> u64
    requires { (t < 2 ^ 63) × (k ≤ 33) }
    ensures { result ≡ up_to t k }
{
    (t + (1 << k) - 1) >> k
}

// A shift, no larger than the least that brings a total down to the largest, since one place less leaves 32 binary digits or more; and one place more
// does, since it leaves 30 or less.
fn nearly(t: u64) -> u64
    requires { t < 2 ^ 63 }
    ensures { (result ≤ 33) × ((j : ℕ) → j < result → M < up_to t j) × (up_to t (result + 1) ≤ M) }
{
    33u64.saturating_sub(u64::from(t.leading_zeros()))
}

// The least shift that brings a total down to the largest.
fn shift(t: u64) -> u64
    requires { t < 2 ^ 63 }
    ensures { (result ≡ shift_of t) × (result ≤ 33) }
{
    let k = nearly(t);
    if up(t, k) <= Chain::LIMIT { k } else { k + 1 }
}

// What `some` of merge says, of a weight that fits: with no test, so that the compiler takes several at once.
fn above(x: u64) -> u64
    requires { x ≤ M }
    ensures { result ≡ only (ltb 0 x) 1 }
{
    (x + Chain::LIMIT) >> 31
}

// Divides each weight of a row by 2 ^ k, and answers what they come to.
fn lower_weights(weights: &mut [u64], k: u64) -> Lowered
    requires { (k < 64) × (sum_to (cell (over (2 ^ k) weights.old)) (length weights.old) ≤ M) }
    ensures { Shifted k weights.old weights.new result }
{
    let mut sum = 0;
    let mut some = 0;
    for x in weights.iter_mut() {
        *x >>= k;
        sum += *x;
        some += above(*x);
    }
    Lowered { sum, some }
}

// Rounds a packed row, whose numbers end at e, whose total is t and whose Reward is 0: the total up, each number but Unknown down, and Unknown takes
// what the total lacks. A weight that has become 0 is left out.
fn round(part: &mut [u64], e: usize, t: u64)
    requires { let n = states_of part.old in
        let r = unpacked n part.old in
        (n ≤ most_states) × Packed n part.old × (e ≡ end_of_part part.old) × Summable n part.old × (t ≡ total n r) × (reward n r ≡ 0) }
    ensures { let p = part.old in
        let n = states_of p in
        let v = part.new in
        Packed n v × (unpacked n v ≡ rounded n (unpacked n p)) × (total n (unpacked n v) ≤ M) }
{
    let k = shift(t);
    let goal = part[GOAL] >> k;
    let trap = part[TRAP] >> k;
    let l = lower_weights(&mut part[WEIGHTS..e], k);
    let q = l.sum + goal + trap;
    part[GOAL] = goal;
    part[TRAP] = trap;
    part[UNKNOWN] = up(t, k) - q;
    if l.some as usize == e - WEIGHTS {
        return;
    }
    squeeze(part);
}

// Rounds a packed row whose total does not fit.
fn bound(part: &mut [u64], e: usize)
    requires { let n = states_of part.old in
        (n ≤ most_states) × Packed n part.old × (e ≡ end_of_part part.old) × Summable n part.old × (reward n (unpacked n part.old) ≡ 0) }
    ensures { let p = part.old in
        let n = states_of p in
        let v = part.new in
        Packed n v × (unpacked n v ≡ bounded true n (unpacked n p)) × (total n (unpacked n v) ≤ M) }
{
    let t = total(part, e);
    if t <= Chain::LIMIT {
        return;
    }
    round(part, e, t);
}

// Whether the total and the Reward of a packed row fit, where rows are exact.
fn fits(part: &[u64], e: usize) -> bool
    requires { Summable (states_of part.now) part.now × (e ≡ end_of_part part.now) }
    ensures { let p = part.now in
        let n = states_of p in
        let r = unpacked n p in
        decides ((total n r ≤ M) × (reward n r ≤ M)) result }
{
    total(part, e) <= Chain::LIMIT && part[REWARD] <= Chain::LIMIT
}

// Brings a new packed row to what is kept of it, and answers the divisor that was taken out of it; nothing where it does not fit. A rounded row
// always fits.
pub(crate) fn settle(part: &mut [u64], rounding: bool) -> Option<u64>
    requires { let n = states_of part.old in
        (n ≤ most_states) × Packed n part.old × Summable n part.old × (rounding ≡ true → reward n (unpacked n part.old) ≡ 0) }
    ensures { let p = part.old in
        let n = states_of p in
        Became rounding n (settled rounding n (unpacked n p)) (divisor (unpacked n p)) part.new result }
{
    let e = end(part);
    let divisor = reduce(&mut part[REWARD..e]);
    if rounding {
        bound(part, e);
        return Some(divisor);
    }
    fits(part, e).then_some(divisor)
}
