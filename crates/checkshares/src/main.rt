// Reads a chain file on standard input and a table from the file `shares` in the working folder, and prints whether the table is the chance at
// every state.
#![tactic(auto)]

use chain::Chain;
use lines::check;
use octets::layout;
use std::fs::Files;
use std::io::Write;

// The longest table and one byte more, so that a longer file shows.
const MOST: usize = layout::QUAD * (Chain::STATES + 1) + 1;

// Reads the table for a chain file, and prints what is said of it.
fn judge(rt: &impl Files, out: &mut impl Write, people: &mut impl Write, file: &[u8], more: u64) {
    let mut table = [0u8; MOST];
    let sent = match input::read_file(rt, b"shares", &mut table) {
        Ok(sent) => sent,
        Err(why) => {
            output::fail(people, b"checkshares: shares", why);
            return;
        }
    };
    let length = sent.length;
    let mut buffer = [0u8; lines::CHECK_ROOM];
    if let Ok(n) = check(file, more, &table[..length], &mut buffer) {
        output::print(out, people, &buffer[..n], b"checkshares: standard output");
    }
}

// Standard input is read first: were it closed, the table would get its descriptor and be read as the chain.
fn main(rt: HostRuntime) {
    if input::words(&rt) != 0 {
        output::tell(
            &mut rt.stderr(),
            b"usage: checkshares <FILE: reads a chain file on standard input and a table from the file shares in the working folder, writes whether the table is the chance at every state to standard output. Example: checkshares <examples/address.chain\n",
        );
        return;
    }
    let mut kept = [0u8; chainfile::LONGEST];
    let came = match input::read(&mut rt.stdin(), &mut kept) {
        Ok(came) => came,
        Err(why) => {
            output::fail(&mut rt.stderr(), b"checkshares: standard input", why);
            return;
        }
    };
    let length = came.length;
    judge(
        &rt,
        &mut rt.stdout(),
        &mut rt.stderr(),
        &kept[..length],
        came.more,
    );
}
