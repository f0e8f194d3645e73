// Fractions over a power of two, at most 1, as they are printed: six decimal digits, rounded down or up.
#![tactic(auto)]

ghost use Rattle.std.specs.Prelude.{◌≡◌, ◌-◌, ◌/◌, ◌^◌, ◌<◌, ◌≤◌};
ghost use Rattle.meaning.specs.Near.{digits};
ghost use Rattle.meaning.specs.NearText.{lower_figure, upper_figure, six_digits, raised, most_number, most_twos};
ghost use Rattle.meaning.specs.Number.{decides};
ghost use Rattle.theory.specs.Numbers.Printed.{Far};
ghost use Rattle.decimals.specs.Told.{told, Six};

// The value is digits over 10 ^ tens: six digits, or 0 or 1 with no tens.
#[derive(Clone, Copy)]
pub struct Figure {
    pub digits: u32,
    pub tens: u32,
}

// The largest number and the most twos that get six digits.
const NUMBER: u64 = 1099511627776;

const TWOS: u64 = 2500;

const NOUGHT: Figure = Figure { digits: 0, tens: 0 };

const ONE: Figure = Figure { digits: 1, tens: 0 };

fn far(x: u64, twos: u64) -> bool
    ensures { decides (Far x twos) result }
{
    NUMBER < x || TWOS < twos
}

// How many binary digits a number has beyond 60.
fn extra(t: u64) -> u64
    ensures { (result ≡ digits t - 60) × (result ≤ 4) }
{
    4u64.saturating_sub(u64::from(t.leading_zeros()))
}

// p / 2 ^ k, rounded down.
fn over(p: u64, k: u64) -> u64
    ensures { result ≡ p / 2 ^ k }
{
    if k < 64 { p >> k } else { 0 }
}

// The first six digits of p / 2 ^ twos. After each ten, v / 2 ^ left is what the definition has over 2 ^ twos.
fn six_digits(p: u64, twos: u64) -> Figure
    requires { Six p twos }
    ensures { told result ≡ six_digits p twos }
{
    let mut v = p;
    let mut left = twos;
    let mut tens = 0;
    let mut whole = over(v, left);
    while whole < 100000 {
        let t = 10 * v;
        let c = extra(t);
        v = t >> c;
        left -= c;
        tens += 1;
        whole = over(v, left);
    }
    Figure {
        digits: whole as u32,
        tens,
    }
}

// One more in the last place.
fn more(f: Figure) -> Figure
    ensures { told result ≡ raised (told f) }
{
    if f.digits < 999999 {
        Figure {
            digits: f.digits + 1,
            ..f
        }
    } else if f.tens <= 6 {
        ONE
    } else {
        Figure {
            digits: 100000,
            tens: f.tens - 1,
        }
    }
}

// The figure of p / 2 ^ twos, rounded down: 1 where it is 1 or more. Of a number that gets no six digits 0 is told.
pub fn lower(p: u64, twos: u64) -> Figure
    ensures { told result ≡ lower_figure p twos }
{
    if p == 0 || far(p, twos) {
        return NOUGHT;
    }
    if over(p, twos) != 0 {
        return ONE;
    }
    six_digits(p, twos)
}

// The figure of q / 2 ^ twos, rounded up: 1 where (q + 1) / 2 ^ twos is 1 or more. Of a number that gets no six digits 1 is told.
pub fn upper(q: u64, twos: u64) -> Figure
    ensures { told result ≡ upper_figure q twos }
{
    if q == 0 {
        return NOUGHT;
    }
    if far(q, twos) {
        return ONE;
    }
    let next = q + 1;
    if over(next, twos) != 0 {
        return ONE;
    }
    more(six_digits(next, twos))
}
