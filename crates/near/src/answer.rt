// The two fractions that the chance lies between, over one power of two.
ghost use Rattle.std.specs.Prelude.{◌≡◌, ◌+◌, ◌-◌, ◌*◌, ◌/◌, ◌^◌, ◌<◌, ◌≤◌, min};
ghost use Rattle.meaning.specs.Near.{digits};
ghost use Rattle.near.specs.Word.{value};
ghost use Rattle.theory.specs.Numbers.Sure.{quotient, sure, upper_of};
ghost use Rattle.near.specs.Answer.{Answers, Misses, known};

use crate::row::weight_digits;
use crate::word::{FIRST, digits_of};

// Two fractions with a chance between them: the numerators, and the power of two that is the denominator of both.
#[derive(Clone, Copy)]
pub struct Between {
    pub lower: u64,
    pub upper: u64,
    pub twos: u64,
}

impl Between {
    // The fractions of a chance that is known.
    pub(crate) fn exactly(chance: u64) -> Between
        ensures { result ≡ known chance }
    {
        Between {
            lower: chance,
            upper: chance,
            twos: 0,
        }
    }
}

// What the entry answers: the fractions of the chance of reaching a goal, and those of the chance of missing every goal.
#[derive(Clone, Copy)]
pub struct Figures {
    pub chance: Between,
    pub miss: Between,
}

// All parts: 2 ^ 30.
const ALL: u64 = 1 << 30;

// A number of at most 31 digits, with zeros behind such that it has 31.
fn full(m: u64) -> u64
    requires { (0 < m) × (m < 2 ^ 31) }
    ensures { (result ≡ m * 2 ^ (31 - digits m)) × (2 ^ 30 ≤ result) × (result < 2 ^ 31) }
{
    m << (31 - digits_of(m))
}

// The quotient of two weights.
fn over(g: u64, d: u64) -> u64
    requires { (0 < value g) × (value g ≤ value d) }
    ensures { (result ≡ quotient (value g) (value d)) × (result < 2 ^ 32) }
{
    (full(g % FIRST) << 31) / full(d % FIRST)
}

// The parts that are sure.
fn parts(rows: u64) -> u64
    requires { rows ≤ 4096 }
    ensures { (result ≡ sure rows) × (2 ^ 29 < result) × (result < 2 ^ 30) }
{
    ALL - 2 - 2 * rows
}

// The upper numerator.
fn above(q: u64, s: u64) -> u64
    requires { (q < 2 ^ 32) × (2 ^ 29 < s) × (s < 2 ^ 30) }
    ensures { (result ≡ upper_of q s) × (result ≤ 2 ^ 33) }
{
    ((q + 1) * ALL).div_ceil(s)
}

// The upper numerator, or that of 1 where it is above 1.
fn capped(u: u64, k: u64) -> u64
    requires { u ≤ 2 ^ 33 }
    ensures { result ≡ min u (2 ^ k) }
{
    if 33 <= k { u } else { u.min(1 << k) }
}

// The two fractions, from the Goal g and the D d of the start's last row, and how many rows were made.
pub(crate) fn bounds(g: u64, d: u64, rows: u64) -> Between
    requires { (0 < value g) × (value g ≤ value d) × (rows ≤ 4096) }
    ensures { Answers (value g) (value d) rows result }
{
    let q = over(g, d);
    let s = parts(rows);
    let twos = 31 + weight_digits(d) - weight_digits(g);
    let lower = q * s / ALL;
    let upper = capped(above(q, s), twos);
    Between { lower, upper, twos }
}

// The same for missing, from the weight t to Trap: nought where nothing leads there.
pub(crate) fn missing(t: u64, d: u64, rows: u64) -> Between
    requires { (0 < t → 0 < value t) × (value t ≤ value d) × (rows ≤ 4096) }
    ensures { Misses (value t) (value d) rows result }
{
    if t == 0 {
        Between::exactly(0)
    } else {
        bounds(t, d, rows)
    }
}
