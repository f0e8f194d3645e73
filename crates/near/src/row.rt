// A row of words: the sum of its weights, and its division by a power of two.
ghost use Rattle.std.specs.Prelude.{◌≡◌, ℕ, ◌+◌, ◌-◌, ◌*◌, ◌/◌, ◌^◌, ◌<◌, ◌≤◌, length, slice_index};
ghost use Rattle.meaning.specs.Number.{sum_to};
ghost use Rattle.meaning.specs.Near.{digits, longest, cut_sum};
ghost use Rattle.near.specs.Word.{word, value};
ghost use Rattle.near.specs.Row.{value_at, exponent, least_exponent, less_by, settled_words, Parts, joined};
ghost use Rattle.near.specs.Gap.{Spanned, Empty, Within};

use crate::wide::Gap;
use crate::word::{FIRST, packed, part, reach};
use chain::Chain;

// The exponent of 0, which may be divided by any power of two: above that of each other word, so that `min` needs no case for it.
const NONE: u64 = 1 << 33;

// How many digits a weight has.
pub(crate) fn weight_digits(w: u64) -> u64
    ensures { (result ≡ digits (value w)) × (result < 2 ^ 34) }
{
    reach(w % FIRST, w >> 31)
}

// A weight without its last k digits.
fn cut(w: u64, k: u64) -> u64
    requires { digits (value w) ≤ k + 56 }
    ensures { (result ≡ value w / 2 ^ k) × (result < 2 ^ 56) }
{
    part(w % FIRST, w >> 31, k)
}

// The most digits that a weight of a row has in the columns before `to`, where m are the most in those before `from`.
fn most_on(row: &[u64], m: u64, from: usize, to: usize) -> u64
    requires { (from ≤ to) × (to ≤ length row.now) × (m ≡ longest (value_at row.now) from) × (m < 2 ^ 34) }
    ensures { (result ≡ longest (value_at row.now) to) × (result < 2 ^ 34) }
{
    let mut most = m;
    for j in from..to {
        most = most.max(weight_digits(row[j]));
    }
    most
}

// The most digits that a weight of a row has. Nothing stands in the gap.
fn most(row: &[u64], gap: Gap) -> u64
    requires { Within gap (length row.now) × Empty gap row.now }
    ensures { (result ≡ longest (value_at row.now) (length row.now)) × (result < 2 ^ 34) }
{
    let m = most_on(row, 0, 0, gap.from);
    most_on(row, m, gap.to, row.len())
}

// The sum of the weights in the columns before `to`, each without its last k digits, where t is that in the columns before `from`.
fn added_on(row: &[u64], k: u64, t: u64, from: usize, to: usize) -> u64
    requires from_le_to { (from ≤ to) × (to ≤ length row.now) × (length row.now ≤ 128) × (longest (value_at row.now) (length row.now) ≤ k + 56) }
    requires sum_so_far { (t ≡ sum_to (λ (j : ℕ). value_at row.now j / 2 ^ k) from) × (t ≤ from * 2 ^ 56) }
    ensures { (result ≡ sum_to (λ (j : ℕ). value_at row.now j / 2 ^ k) to) × (result ≤ to * 2 ^ 56) }
{
    let mut sum = t;
    for j in from..to {
        sum += cut(row[j], k);
    }
    sum
}

// The sum of the weights of a row, each without its last k digits.
fn added(row: &[u64], k: u64, gap: Gap) -> u64
    requires shape { (length row.now ≤ 128) × (longest (value_at row.now) (length row.now) ≤ k + 56) }
    requires within { Within gap (length row.now) × Empty gap row.now }
    ensures { result ≡ sum_to (λ (j : ℕ). value_at row.now j / 2 ^ k) (length row.now) }
{
    let t = added_on(row, k, 0, 0, gap.from);
    added_on(row, k, t, gap.to, row.len())
}

// The word of the sum of the weights of a row, each cut where the largest keeps 56 digits.
pub(crate) fn total(row: &[u64], gap: Gap) -> u64
    requires { (length row.now ≤ 128) × Within gap (length row.now) × Empty gap row.now }
    ensures { result ≡ word (cut_sum (value_at row.now) (length row.now)) }
{
    let k = most(row, gap).saturating_sub(56);
    packed(added(row, k, gap), k)
}

// A word's exponent: how many digits it leaves out.
fn exponent_of(w: u64) -> u64
    ensures { result ≡ exponent w }
{
    if w == 0 { NONE } else { w >> 31 }
}

// The least exponent of the words in the columns before `to`, where k is that of the words before `from`.
fn least_on(row: &[u64], k: u64, from: usize, to: usize) -> u64
    requires { (from ≤ to) × (to ≤ length row.now) × (k ≡ least_exponent (λ (j : ℕ). slice_index row.now j) from) }
    ensures { result ≡ least_exponent (λ (j : ℕ). slice_index row.now j) to }
{
    let mut least = k;
    for j in from..to {
        least = least.min(exponent_of(row[j]));
    }
    least
}

// The least exponent of the words of a row.
fn least(row: &[u64], gap: Gap) -> u64
    requires { Within gap (length row.now) × Empty gap row.now }
    ensures { let l = row.now in
        result ≡ least_exponent (λ (j : ℕ). slice_index l j) (length l) }
{
    let k = least_on(row, NONE, 0, gap.from);
    least_on(row, k, gap.to, row.len())
}

// The word of the weight divided by 2 ^ k.
fn less(w: u64, k: u64) -> u64
    requires { k ≤ exponent w }
    ensures { result ≡ less_by k w }
{
    if w == 0 { 0 } else { w - (k << 31) }
}

// Divides each weight from the column `from` to before `to` by 2 ^ k.
fn lower_on(row: &mut [u64], k: u64, from: usize, to: usize)
    requires { (from ≤ to) × (to ≤ length row.old) × ((j : ℕ) → from ≤ j → j < to → k ≤ exponent (slice_index row.old j)) }
    ensures { let l = row.old in
        Spanned (λ (j : ℕ). less_by k (slice_index l j)) from to l row.new }
{
    for j in from..to {
        row[j] = less(row[j], k);
    }
}

// Divides a row by the power of two with which one of its words leaves out nothing.
pub(crate) fn settle(row: &mut [u64], gap: Gap)
    requires { Within gap (length row.old) × Empty gap row.old }
    ensures { row.new ≡ settled_words row.old }
{
    let k = least(row, gap);
    if k == 0 {
        return;
    }
    let m = row.len();
    lower_on(row, k, 0, gap.from);
    lower_on(row, k, gap.to, m);
}

// How many digits a word leaves out.
fn left_out(w: u64) -> u64
    ensures { (result ≡ w / 2 ^ 31) × (result < 2 ^ 33) }
{
    w >> 31
}

// The words of a row in their parts: first digits, and 68 places on how many are left out behind them.
pub(crate) fn parts(row: &[u64]) -> [u64; 2 * Chain::WIDTH]
    requires { length row.now ≤ 68 }
    ensures { Parts result × ((j : ℕ) → slice_index (joined result) j ≡ slice_index row.now j) }
{
    let mut p = [0u64; 2 * Chain::WIDTH];
    for (j, w) in row.iter().enumerate() {
        p[j] = *w % FIRST;
        p[j + Chain::WIDTH] = left_out(*w);
    }
    p
}
