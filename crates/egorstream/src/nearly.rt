// Near chances for callers in C: a file's bytes in, the chance of reaching a goal and that of missing every goal out, each between two figures.
ghost use Rattle.meaning.specs.Block.{whole_file};
ghost use Rattle.meaning.specs.FileNear.{own, state as number};
ghost use Rattle.near.specs.Answer.{told_between};
ghost use Rattle.egorstream.specs.Near.{Small, SmallTwos, Surrounds, Replies, Nears};

use chain::refusal::Refusal;
use near::answer::{Between, Figures};

// Two numbers over one power of two, and each of them in six decimal digits: digits over 10 ^ tens, rounded down and up.
#[repr(C)]
#[derive(Clone, Copy)]
pub struct Around {
    pub lower: u64,
    pub upper: u64,
    pub twos: u32,
    pub lower_digits: u32,
    pub lower_tens: u32,
    pub upper_digits: u32,
    pub upper_tens: u32,
}

// A refusal's number and place, and noughts; or 0, 0 and the two chances.
#[repr(C)]
#[derive(Clone, Copy)]
pub struct Nearness {
    pub number: u32,
    pub place: u32,
    pub near: Around,
    pub miss: Around,
}

fn shown(b: Between) -> Around
    requires { SmallTwos b }
    ensures { Surrounds (told_between b) result }
{
    let low = decimals::lower(b.lower, b.twos);
    let high = decimals::upper(b.upper, b.twos);
    Around {
        lower: b.lower,
        upper: b.upper,
        twos: b.twos as u32,
        lower_digits: low.digits,
        lower_tens: low.tens,
        upper_digits: high.digits,
        upper_tens: high.tens,
    }
}

fn reply(n: Result<Figures, Refusal>) -> Nearness
    requires { Small n }
    ensures { Replies n result }
{
    match n {
        Ok(found) => Nearness {
            number: 0,
            place: 0,
            near: shown(found.chance),
            miss: shown(found.miss),
        },
        Err(r) => {
            let none = Between {
                lower: 0,
                upper: 0,
                twos: 0,
            };
            Nearness {
                number: r.fault.number(),
                place: r.place as u32,
                near: shown(none),
                miss: shown(none),
            }
        }
    }
}

// From the file's own start.
pub fn egorstream_near(file: &[u8]) -> Nearness
    ensures { Nears (whole_file file.now) own result }
{
    reply(nearfile::near(file, 0, None))
}

// From a state that takes the place of the file's start.
pub fn egorstream_near_from(file: &[u8], state: u64) -> Nearness
    ensures { Nears (whole_file file.now) (number state) result }
{
    reply(nearfile::near(file, 0, Some(state)))
}
