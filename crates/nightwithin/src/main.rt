// Takes the word K, reads a chain file on standard input, and prints the chance of having reached a goal within K steps.
#![tactic(auto)]

use lines::within;
use std::io::{Read, Write};

// What a word counts as that says no number: more than the most steps.
const OUT: u64 = equations::STEPS + 1;

fn usage(people: &mut impl Write) {
    output::tell(
        people,
        b"usage: nightwithin K <FILE: takes a number of steps from 0 to 1000, reads a chain file on standard input, writes the chance of having reached a goal within K steps to standard output. Example: nightwithin 3 <examples/address.chain\n",
    );
}

fn print(out: &mut impl Write, people: &mut impl Write, file: &[u8], more: u64, steps: u64) {
    let mut buffer = [0u8; lines::WITHIN_ROOM];
    if let Ok(n) = within(file, more, steps, &mut buffer) {
        output::print(out, people, &buffer[..n], b"nightwithin: standard output");
    }
}

fn read(file: &mut impl Read, out: &mut impl Write, people: &mut impl Write, steps: u64) {
    let mut kept = [0u8; chainfile::LONGEST];
    let came = match input::read(file, &mut kept) {
        Ok(came) => came,
        Err(why) => {
            output::fail(people, b"nightwithin: standard input", why);
            return;
        }
    };
    let length = came.length;
    print(out, people, &kept[..length], came.more, steps);
}

// A wrong number of words is a wrong number of steps, whatever the file holds: it is not read.
fn main(rt: HostRuntime) {
    let mut out = rt.stdout();
    let mut people = rt.stderr();
    if input::asks_help(&rt) {
        usage(&mut people);
        return;
    }
    if input::words(&rt) != 1 {
        usage(&mut people);
        print(&mut out, &mut people, b"", 0, OUT);
        return;
    }
    let steps = input::word_number(&rt, 1, OUT);
    read(&mut rt.stdin(), &mut out, &mut people, steps);
}
