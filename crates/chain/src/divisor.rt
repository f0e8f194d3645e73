// The divisor of a row: the greatest common divisor of its numbers, and the row in lowest terms.
ghost use Rattle.std.specs.Prelude.{◌≡◌, ◌≢◌, ℕ, ◌+◌, ◌%◌, ◌^◌, ◌<◌, [], ◌∷◌, ◌++◌, length, MatchOption};
ghost use Rattle.std.specs.Int.Count.{count_trailing_zeros};
ghost use Rattle.meaning.specs.Row.{cell, gcd_of, divisor, over, lowest};

use crate::bits::{alone, lowest};
use crate::fraction::gcd;

// The place of the last number above 0.
fn last_whole(row: &[u64]) -> Option<usize>
    ensures { let l = row.now in
        MatchOption result ((k : ℕ) → k < length l → cell l k ≡ 0)
        (λ j. (j < length l) × (cell l j ≢ 0) × ((k : ℕ) → j < k → k < length l → cell l k ≡ 0)) }
{
    row.iter().rposition(|x| *x != 0)
}

// The place of the last number that g does not divide.
fn last_undivided(row: &[u64], g: u64) -> Option<usize>
    requires { 0 < g }
    ensures { let l = row.now in
        MatchOption result ((k : ℕ) → k < length l → cell l k % g ≡ 0)
        (λ j. (j < length l) × ((k : ℕ) → j < k → k < length l → cell l k % g ≡ 0)) }
{
    row.iter().rposition(|x| *x % g != 0)
}

// The divisor of a row with g behind it, a power of two: the lowest bit of g and of the row's numbers, all joined. Where g is 1 they are not read.
fn lowest_bit(row: &[u64], g: u64) -> u64
    requires { g ≡ 2 ^ count_trailing_zeros 64 g }
    ensures { result ≡ gcd_of (row.now ++ g ∷ []) }
{
    if g == 1 {
        return 1;
    }
    let all = row.iter().fold(g, |all, x| all | *x);
    alone(lowest(all))
}

// The greatest common divisor of the numbers of a row, 0 where all are 0. Numbers that it divides already are passed over, and once it is a power
// of two it needs no further division.
fn common(row: &[u64]) -> u64
    ensures { result ≡ gcd_of row.now }
{
    let Some(mut j) = last_whole(row) else {
        return 0;
    };
    let mut g = row[j];
    while !g.is_power_of_two() {
        let Some(next) = last_undivided(&row[..j], g) else {
            return g;
        };
        j = next;
        g = gcd(row[j], g);
    }
    lowest_bit(&row[..j], g)
}

// Divides each number of a row by 2 ^ k.
fn lower(row: &mut [u64], k: u32)
    requires { k < 64 }
    ensures { row.new ≡ over (2 ^ k) row.old }
{
    for x in row.iter_mut() {
        *x >>= k;
    }
}

// Divides each number of a row, by a division each.
fn quotients(row: &mut [u64], d: u64)
    requires { 0 < d }
    ensures { row.new ≡ over d row.old }
{
    for x in row.iter_mut() {
        *x /= d;
    }
}

// Divides each number of a row, by a shift for the twos of the divisor and by a division only for an odd rest.
fn divide(row: &mut [u64], d: u64)
    requires { 0 < d }
    ensures { row.new ≡ over d row.old }
{
    let k = d.trailing_zeros();
    lower(row, k);
    let q = d >> k;
    if q != 1 {
        quotients(row, q);
    }
}

// Brings a row to lowest terms, and answers the divisor that it took out. A row of zeros stays, and so does a row whose divisor is 1.
pub fn reduce(row: &mut [u64]) -> u64
    ensures { (row.new ≡ lowest row.old) × (result ≡ divisor row.old) }
{
    let g = common(row);
    if g <= 1 {
        return 1;
    }
    divide(row, g);
    g
}
