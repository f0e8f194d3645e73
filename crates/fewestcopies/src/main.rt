// Takes the words LOSS REBUILD FINISH LIMIT and prints the fewest copies with which the chance that none is left before the job is finished is
// within the limit.
#![tactic(auto)]

use limit::Limit;
use planning::{FEWEST_ROOM, Weights, fewest};
use std::env::Env;
use std::io::Write;

const WORDS: usize = 4;

fn usage(people: &mut impl Write) {
    output::tell(
        people,
        b"usage: fewestcopies LOSS REBUILD FINISH LIMIT: takes three weights from 1 to 1000000 and a limit, reads nothing, writes the fewest copies with which the chance that none is left before the finish is within the limit, and from how many on it cannot be said, to standard output. Example: fewestcopies 1 20 100 1e-10\n",
    );
}

// Where words are missing or too many, people are told; the answer is a refusal all the same.
fn remind(rt: &impl Env, people: &mut impl Write) {
    if input::words(rt) != WORDS {
        usage(people);
    }
}

// The weights that the words say. None may be 0, which a word counts as that is missing or says no number.
fn weights(rt: &impl Env) -> Weights {
    Weights {
        loss: input::word_number(rt, 1, 0),
        rebuild: input::word_number(rt, 2, 0),
        finish: input::word_number(rt, 3, 0),
    }
}

// The limit that the last word says. With a word after it there is none.
fn last(rt: &impl Env) -> Limit {
    if WORDS < input::words(rt) {
        return limit::NONE;
    }
    input::word_limit(rt, 4)
}

fn main(rt: HostRuntime) {
    let mut people = rt.stderr();
    if input::asks_help(&rt) {
        usage(&mut people);
        return;
    }
    remind(&rt, &mut people);
    let mut buffer = [0u8; FEWEST_ROOM];
    if let Ok(n) = fewest(weights(&rt), last(&rt), &mut buffer) {
        output::print(
            &mut rt.stdout(),
            &mut people,
            &buffer[..n],
            b"fewestcopies: standard output",
        );
    }
}
