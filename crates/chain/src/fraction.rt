ghost use Rattle.std.specs.Prelude.{◌≡◌, ◌+◌, ◌-◌, ◌%◌, ◌<◌, ◌≤◌, min};
ghost use Rattle.meaning.specs.Number.{gcd};
ghost use Rattle.chain.specs.Reduce.{Common, reduced};

// How far two odd numbers are apart, less its twos: these are where the two first differ.
fn odd_apart(x: u64, y: u64) -> u64
    requires { (x % 2 ≡ 1) × (y % 2 ≡ 1) × (x ≡ y → ⊥) }
    ensures { (result % 2 ≡ 1) × (result ≤ x - y + (y - x)) × (gcd (min x y) result ≡ gcd x y) }
{
    x.abs_diff(y) >> (x ^ y).trailing_zeros()
}

// The greatest common divisor of two odd numbers: it divides how far they are apart, and of that the odd part.
fn odd_gcd(a: u64, b: u64) -> u64
    requires { (a % 2 ≡ 1) × (b % 2 ≡ 1) }
    ensures { result ≡ gcd a b }
{
    let mut x = a;
    let mut y = b;
    while x != y {
        let z = odd_apart(x, y);
        x = x.min(y);
        y = z;
    }
    x
}

// The greatest common divisor of two numbers above 0: the twos that both have stand apart.
fn whole_gcd(a: u64, b: u64) -> u64
    requires { (0 < a) × (0 < b) }
    ensures { result ≡ gcd a b }
{
    let s = a.trailing_zeros();
    let t = b.trailing_zeros();
    odd_gcd(a >> s, b >> t) << s.min(t)
}

// The greatest common divisor; of 0 and 0 it is 0. One step of Euclid's rule brings a large number down to the other's size.
pub fn gcd(a: u64, b: u64) -> u64
    ensures { Common a b result }
{
    if a == 0 {
        return b;
    }
    if b == 0 {
        return a;
    }
    let r = a % b;
    if r == 0 {
        return b;
    }
    whole_gcd(b, r)
}

#[derive(Clone, Copy)]
pub struct Fraction {
    pub numerator: u64,
    pub denominator: u64,
}

impl Fraction {
    pub fn new(numerator: u64, denominator: u64) -> Self
        ensures { (result.numerator ≡ numerator) × (result.denominator ≡ denominator) }
    {
        Self {
            numerator,
            denominator,
        }
    }

    // In lowest terms: both divided by what they have in common, and 0/0 as it is.
    pub fn reduce(self) -> Self
        ensures { result ≡ reduced self }
    {
        let a = self.numerator;
        let b = self.denominator;
        let g = gcd(a, b);
        if g == 0 {
            return self;
        }
        Self {
            numerator: a / g,
            denominator: b / g,
        }
    }
}
