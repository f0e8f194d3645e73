// What is answered of a file, and an answer as the plain numbers that are printed.
ghost use Rattle.meaning.specs.Outcome.{refusal, fraction};
ghost use Rattle.chain.specs.Refusal.{number_of};
ghost use Rattle.engines.specs.Answer.{told_chance, told_reward};
ghost use Rattle.figures.specs.Told.{Tells};

use chain::fraction::Fraction;
use chain::refusal::Refusal;
use engines::answer::{Bounds, Reward};

#[derive(Clone, Copy)]
pub struct Counts {
    pub states: u64,
    pub edges: u64,
    pub goals: u64,
    pub live: u64,
}

// All that a report tells of an accepted file, each figure with its own refusal.
#[derive(Clone, Copy)]
pub struct Report {
    pub counts: Counts,
    pub chance: Result<Fraction, Refusal>,
    pub reward: Result<Reward, Refusal>,
    pub bounds: Result<Bounds, Refusal>,
}

// The numbers of a chance or a reward: a refusal's number and place, or 0 and a fraction, whose denominator 0 says infinite.
#[derive(Clone, Copy)]
pub struct Answer {
    pub number: u32,
    pub place: usize,
    pub numerator: u64,
    pub denominator: u64,
}

impl Answer {
    // A refusal by any number, at any place, whether it is a fault of this library or not.
    pub fn refusal(number: u32, place: usize) -> Answer
        ensures { Tells result (refusal number place) }
    {
        Answer {
            number,
            place,
            numerator: 0,
            denominator: 0,
        }
    }
}

impl From<Fraction> for Answer {
    ghost from_gives = { λ f a. Tells a (fraction f.numerator f.denominator) };

    fn from(f: Fraction) -> Answer {
        Answer {
            number: 0,
            place: 0,
            numerator: f.numerator,
            denominator: f.denominator,
        }
    }
}

impl From<Refusal> for Answer {
    ghost from_gives = { λ r a. Tells a (refusal (number_of r.fault) r.place) };

    fn from(r: Refusal) -> Answer {
        Answer::refusal(r.fault.number(), r.place)
    }
}

impl From<Result<Fraction, Refusal>> for Answer {
    ghost from_gives = { λ chance a. Tells a (told_chance chance) };

    fn from(chance: Result<Fraction, Refusal>) -> Answer {
        match chance {
            Ok(f) => Answer::from(f),
            Err(r) => Answer::from(r),
        }
    }
}

impl From<Result<Reward, Refusal>> for Answer {
    ghost from_gives = { λ reward a. Tells a (told_reward reward) };

    fn from(reward: Result<Reward, Refusal>) -> Answer {
        match reward {
            Ok(Reward::Is(f)) => Answer::from(f),
            Ok(Reward::Infinite) => Answer::from(Fraction::new(1, 0)),
            Err(r) => Answer::from(r),
        }
    }
}
