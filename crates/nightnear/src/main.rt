// Takes perhaps the word STATE, reads a chain file on standard input, and prints its near chances from that state, or from its own start.
#![tactic(auto)]

use chain::Chain;
use lines::near;
use std::env::Env;
use std::io::Write;

// What a word counts as that says no number: no state of any chain.
const OUT: u64 = Chain::STATES as u64;

fn usage(people: &mut impl Write) {
    output::tell(
        people,
        b"usage: nightnear [STATE] <FILE: takes perhaps a state to begin in, reads a chain file on standard input, writes the chance of reaching a goal and that of missing every goal, each between two figures, to standard output. Example: nightnear <examples/copies.chain\n",
    );
}

// The state that the words ask the chance from, none where it is the file's own start. A word too many counts as a wrong state.
fn asked(rt: &impl Env, people: &mut impl Write) -> Option<u64> {
    let words = input::words(rt);
    if words == 0 {
        return None;
    }
    if 1 < words {
        usage(people);
        return Some(OUT);
    }
    Some(input::word_number(rt, 1, OUT))
}

fn print(out: &mut impl Write, people: &mut impl Write, file: &[u8], more: u64, from: Option<u64>) {
    let mut buffer = [0u8; lines::NEAR_ROOM];
    if let Ok(n) = near(file, more, from, &mut buffer) {
        output::print(out, people, &buffer[..n], b"nightnear: standard output");
    }
}

fn main(rt: HostRuntime) {
    let mut people = rt.stderr();
    if input::asks_help(&rt) {
        usage(&mut people);
        return;
    }
    let from = asked(&rt, &mut people);
    let mut kept = [0u8; chainfile::LONGEST];
    let came = match input::read(&mut rt.stdin(), &mut kept) {
        Ok(came) => came,
        Err(why) => {
            output::fail(&mut people, b"nightnear: standard input", why);
            return;
        }
    };
    let length = came.length;
    print(
        &mut rt.stdout(),
        &mut people,
        &kept[..length],
        came.more,
        from,
    );
}
