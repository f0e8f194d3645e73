// A limit for a chance, so many digits over a power of ten, and what is at most a limit.
#![tactic(auto)]

ghost use Rattle.std.specs.Prelude.{◌≡◌, ◌*◌, ◌^◌, leb};
ghost use Rattle.meaning.specs.Number.{decides};
ghost use Rattle.meaning.specs.Limit.{IsLimit, keeps};
ghost use Rattle.limit.specs.Told.{told};

#[derive(Clone, Copy)]
pub struct Limit {
    pub digits: u64,
    pub tens: u64,
}

// What stands for no limit.
pub const NONE: Limit = Limit { digits: 0, tens: 0 };

// The largest number that its digits say, and the most tens.
pub const SAID: u64 = 9999999;

const TENS: u64 = 700;

// Whether x × 10 ^ tens is at most y. A number above 0 outgrows 64 bits in 20 tens, so that the loop is short.
pub fn at_most(x: u64, tens: u64, y: u64) -> bool
    ensures { result ≡ leb (x * 10 ^ tens) y }
{
    if x == 0 {
        return true;
    }
    let mut v = x;
    for _ in 0..tens {
        if y / 10 < v {
            return false;
        }
        v *= 10;
    }
    v <= y
}

// Whether y is at most x × 10 ^ tens.
fn reaches(x: u64, tens: u64, y: u64) -> bool
    ensures { result ≡ leb y (x * 10 ^ tens) }
{
    y == 0 || !at_most(x, tens, y - 1)
}

// Whether it is a limit: above 0, at most 1, and of few digits.
pub fn sound(m: Limit) -> bool
    ensures { decides (IsLimit (told m)) result }
{
    m.digits != 0 && m.digits <= SAID && m.tens <= TENS && reaches(1, m.tens, m.digits)
}

// Whether digits over 10 ^ tens is at most the limit.
pub fn figure_keeps(m: Limit, digits: u64, tens: u64) -> bool
    ensures { result ≡ keeps (told m) digits (10 ^ tens) }
{
    if tens <= m.tens {
        at_most(digits, m.tens - tens, m.digits)
    } else {
        reaches(m.digits, tens - m.tens, digits)
    }
}
