// Takes the words LOSS REBUILD FINISH and prints, for each number of copies, the chance that none is left before the job is finished.
#![tactic(auto)]

use planning::{TABLE_ROOM, Weights, table};
use std::env::Env;
use std::io::Write;

const WORDS: usize = 3;

fn usage(people: &mut impl Write) {
    output::tell(
        people,
        b"usage: plantable LOSS REBUILD FINISH: takes three weights from 1 to 1000000, reads nothing, writes for each number of copies from 1 to 32 the chance that no copy is left before the finish, between two figures, to standard output. Example: plantable 1 20 100\n",
    );
}

// Where words are missing or too many, people are told; the weights are refused all the same.
fn remind(rt: &impl Env, people: &mut impl Write) {
    if input::words(rt) != WORDS {
        usage(people);
    }
}

// The last word as a number: a word too many counts as a wrong one.
fn finish(rt: &impl Env) -> u64 {
    if WORDS < input::words(rt) {
        return 0;
    }
    input::word_number(rt, 3, 0)
}

// The weights that the words say. None may be 0, which a word counts as that is missing or says no number.
fn weights(rt: &impl Env) -> Weights {
    Weights {
        loss: input::word_number(rt, 1, 0),
        rebuild: input::word_number(rt, 2, 0),
        finish: finish(rt),
    }
}

fn main(rt: HostRuntime) {
    let mut people = rt.stderr();
    if input::asks_help(&rt) {
        usage(&mut people);
        return;
    }
    remind(&rt, &mut people);
    let mut buffer = [0u8; TABLE_ROOM];
    if let Ok(n) = table(weights(&rt), &mut buffer) {
        output::print(
            &mut rt.stdout(),
            &mut people,
            &buffer[..n],
            b"plantable: standard output",
        );
    }
}
