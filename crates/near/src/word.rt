// A weight is a word: its first 31 binary digits, and above them how many digits are left out behind them.
ghost use Rattle.std.specs.Prelude.{◌≡◌, ◌+◌, ◌-◌, ◌*◌, ◌/◌, ◌%◌, ◌^◌, ◌<◌, ◌≤◌, max, ◌⊎◌};
ghost use Rattle.meaning.specs.Near.{digits};
ghost use Rattle.near.specs.Word.{word, value};
ghost use Rattle.near.specs.Split.{Small, Summand, value_of};

// Above all that a word's first digits can be: 2 ^ 31.
pub(crate) const FIRST: u64 = 1 << 31;

// The least number that has 31 digits.
const LONG: u64 = 1 << 30;

// A number in two parts: its first digits, and how many follow them, 33 too high. So are the two parts of a word, and the product of two of them.
#[derive(Clone, Copy)]
pub(crate) struct Split {
    first: u64,
    behind: u64,
}

impl Split {
    const ZERO: Split = Split {
        first: 0,
        behind: 33,
    };

    // A word in its two parts.
    pub(crate) fn of(w: u64) -> Split
        ensures { (value_of result ≡ value w) × Small result }
    {
        Split {
            first: w % FIRST,
            behind: (w >> 31) + 33,
        }
    }
}

// How many binary digits a number has.
pub(crate) fn digits_of(p: u64) -> u64
    ensures { (result ≡ digits p) × (result ≤ 64) }
{
    64 - u64::from(p.leading_zeros())
}

// How many binary digits p * 2 ^ x has.
pub(crate) fn reach(p: u64, x: u64) -> u64
    requires { x < 2 ^ 35 }
    ensures { (result ≡ digits (p * 2 ^ x)) × (result ≤ x + 64) }
{
    if p == 0 { 0 } else { x + digits_of(p) }
}

// How many digits two numbers are cut by such that the larger keeps 62. It is given 33 too high, as theirs are.
fn cut_at(a: Split, b: Split) -> u64
    requires { Summand a × Summand b }
    ensures { (result ≡ max (digits (value_of a)) (digits (value_of b)) - 62 + 33) × (result < 2 ^ 36)
        × (digits (a.first * 2 ^ a.behind) ≤ result + 62) × (digits (b.first * 2 ^ b.behind) ≤ result + 62) }
{
    let most = reach(a.first, a.behind).max(reach(b.first, b.behind));
    most.max(95) - 62
}

// p * 2 ^ x without its last k digits.
pub(crate) fn part(p: u64, x: u64, k: u64) -> u64
    requires { digits (p * 2 ^ x) ≤ k + 62 }
    ensures { (result ≡ p * 2 ^ x / 2 ^ k) × (result < 2 ^ 62) }
{
    if p == 0 {
        return 0;
    }
    if k <= x {
        return p << (x - k);
    }
    let c = k - x;
    if c < 64 { p >> c } else { 0 }
}

// The word of s * 2 ^ k.
pub(crate) fn packed(s: u64, k: u64) -> u64
    requires { (k < 2 ^ 36) × ((k ≡ 0) ⊎ (31 ≤ digits s)) }
    ensures { result ≡ word (s * 2 ^ k) }
{
    let n = digits_of(s);
    if n <= 31 {
        return (k << 31) + s;
    }
    let c = n - 31;
    ((k + c) << 31) + (s >> c)
}

// The word of a sum, whatever the two numbers are: each is cut such that the larger keeps 62 digits.
fn sum_cut(a: Split, b: Split) -> u64
    requires { Summand a × Summand b }
    ensures { result ≡ word (value_of a + value_of b) }
{
    let k = cut_at(a, b);
    packed(
        part(a.first, a.behind, k) + part(b.first, b.behind, k),
        k - 33,
    )
}

// The same, where the sum may have few digits: mostly it is that of first weights, which leave out none.
fn sum_short(a: Split, b: Split) -> u64
    requires { Summand a × Summand b }
    ensures { result ≡ word (value_of a + value_of b) }
{
    if a.behind + b.behind == 66 {
        return packed(a.first + b.first, 0);
    }
    sum_cut(a, b)
}

// The word of a number whose first part has 31 digits or more. They are moved up to be 64 and then down by 33, so that 31 stay; `behind` has the 33.
fn packed_long(s: Split) -> u64
    requires { (33 ≤ s.behind) × (s.behind < 2 ^ 36) × (31 ≤ digits s.first) }
    ensures { result ≡ word (value_of s) }
{
    let z = 64 - digits_of(s.first);
    ((s.behind - z) << 31) + ((s.first << z) >> 33)
}

// The word of a sum. Mostly the first number leaves out no less than the second: without so many last digits the sum is its first part and what is
// left of the second then, and mostly has its 31 digits.
fn sum(a: Split, b: Split) -> u64
    requires { Summand a × Summand b }
    ensures { result ≡ word (value_of a + value_of b) }
{
    let c = a.behind.wrapping_sub(b.behind);
    if 64 <= c {
        return sum_short(a, b);
    }
    let first = a.first + (b.first >> c);
    if first < LONG {
        return sum_short(a, b);
    }
    packed_long(Split {
        first,
        behind: a.behind,
    })
}

// The product of p * 2 ^ y and a word.
fn times(p: u64, y: u64, w: Split) -> Split
    requires { (p < 2 ^ 31) × (y < 2 ^ 33) × Small w }
    ensures { (value_of result ≡ value_of w * (p * 2 ^ y)) × Summand result }
{
    Split {
        first: p * w.first,
        behind: y + w.behind,
    }
}

// The word of one product, of p * 2 ^ y and w.
pub(crate) fn lone(p: u64, y: u64, w: Split) -> u64
    requires { (p < 2 ^ 31) × (y < 2 ^ 33) × Small w }
    ensures { result ≡ word (value_of w * (p * 2 ^ y)) }
{
    let s = times(p, y, w);
    if s.first < LONG {
        return sum_cut(s, Split::ZERO);
    }
    packed_long(s)
}

// The word of the sum of two products: of the word x and d, and of p * 2 ^ y and w.
pub(crate) fn mix(x: u64, d: Split, p: u64, y: u64, w: Split) -> u64
    requires { Small d × (p < 2 ^ 31) × (y < 2 ^ 33) × Small w }
    ensures { result ≡ word (value x * value_of d + value_of w * (p * 2 ^ y)) }
{
    sum(times(x % FIRST, x >> 31, d), times(p, y, w))
}
