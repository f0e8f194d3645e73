// Takes the words COPIES LOSS REBUILD FINISH and prints the chance that no copy is left before the job is finished.
#![tactic(auto)]

use copies::{Plan, chance};
use figures::Answer;
use report::answer;
use std::env::Env;
use std::io::Write;

const WORDS: usize = 4;

fn usage(people: &mut impl Write) {
    output::tell(
        people,
        b"usage: plancopies COPIES LOSS REBUILD FINISH: takes 1 to 32 copies and three weights from 1 to 1000000, reads nothing, writes the chance that no copy is left before the finish to standard output. Example: plancopies 3 1 20 100\n",
    );
}

// Where words are missing or too many, people are told; the plan is refused all the same.
fn remind(rt: &impl Env, people: &mut impl Write) {
    if input::words(rt) != WORDS {
        usage(people);
    }
}

// The last word as a number: a word too many counts as a wrong one.
fn finish(rt: &impl Env) -> u64 {
    if WORDS < input::words(rt) {
        return 0;
    }
    input::word_number(rt, 4, 0)
}

// The plan that the words say. No plan may have a 0, which a word counts as that is missing or says no number.
fn plan(rt: &impl Env) -> Plan {
    Plan {
        copies: input::word_number(rt, 1, 0),
        loss: input::word_number(rt, 2, 0),
        rebuild: input::word_number(rt, 3, 0),
        finish: finish(rt),
    }
}

fn main(rt: HostRuntime) {
    let mut people = rt.stderr();
    if input::asks_help(&rt) {
        usage(&mut people);
        return;
    }
    remind(&rt, &mut people);
    let planned = chance(plan(&rt));
    let told = Answer {
        number: planned.number,
        place: planned.place as usize,
        numerator: planned.numerator,
        denominator: planned.denominator,
    };
    let mut buffer = [0u8; report::ANSWER_ROOM];
    if let Ok(n) = answer(told, &mut buffer) {
        output::print(
            &mut rt.stdout(),
            &mut people,
            &buffer[..n],
            b"plancopies: standard output",
        );
    }
}
