// Takes the word LIMIT, reads a chain file on standard input, and prints whether its chance is within the limit.
#![tactic(auto)]

use limit::Limit;
use std::io::{Read, Write};

fn usage(people: &mut impl Write) {
    output::tell(
        people,
        b"usage: nightlimit LIMIT <FILE: takes a limit above 0 and at most 1, reads a chain file on standard input, writes whether the chance of reaching a goal is within the limit, kept, broken or open, with two figures that it lies between, to standard output. Example: nightlimit 1e-9 <examples/copies.chain\n",
    );
}

fn print(out: &mut impl Write, people: &mut impl Write, file: &[u8], more: u64, m: Limit) {
    let mut buffer = [0u8; lines::LIMIT_ROOM];
    if let Ok(n) = lines::limit(file, more, m, &mut buffer) {
        output::print(out, people, &buffer[..n], b"nightlimit: standard output");
    }
}

fn read(file: &mut impl Read, out: &mut impl Write, people: &mut impl Write, m: Limit) {
    let mut kept = [0u8; chainfile::LONGEST];
    let came = match input::read(file, &mut kept) {
        Ok(came) => came,
        Err(why) => {
            output::fail(people, b"nightlimit: standard input", why);
            return;
        }
    };
    let length = came.length;
    print(out, people, &kept[..length], came.more, m);
}

// What is no limit is refused, whatever the file holds: it is not read.
fn judge(file: &mut impl Read, out: &mut impl Write, people: &mut impl Write, m: Limit) {
    if limit::sound(m) {
        read(file, out, people, m);
        return;
    }
    print(out, people, b"", 0, m);
}

fn main(rt: HostRuntime) {
    let mut file = rt.stdin();
    let mut out = rt.stdout();
    let mut people = rt.stderr();
    if input::asks_help(&rt) {
        usage(&mut people);
        return;
    }
    if input::words(&rt) != 1 {
        usage(&mut people);
        judge(&mut file, &mut out, &mut people, limit::NONE);
        return;
    }
    let m = input::word_limit(&rt, 1);
    judge(&mut file, &mut out, &mut people, m);
}
