// The reader's form for callers with tables of their own, on the chain file at standard input: examples/retries.chain.
ghost use Rattle.std.specs.Prelude.{◌≡◌, ◌≤◌, length};

use crate::run::{Lent, case};
use crate::tell;
use chain::given::Given;
use chain::{Chain, edge};
use chainfile::Book;
use std::io::{Read, Write};

// The most bytes of the file.
const ROOM: usize = 4096;

fn front(table: &[u64], n: usize) -> &[u64] {
    &table[..table.len().min(n)]
}

// The chain and its tables as they are read, and what the entries say of them.
fn chain(out: &mut impl Write, book: Book, read: &Lent) {
    let c = book.chain;
    let n = c.states;
    if Chain::EDGES < book.edges {
        return;
    }
    let kept = Lent {
        given: Given {
            chain: c,
            denominators: front(read.given.denominators, n),
            edges: front(read.given.edges, edge::SIZE * book.edges),
        },
        order: front(read.order, n),
        rewards: front(read.rewards, n),
    };
    tell::numbers(out, b"read: states ", n as u64, b" start ", c.start as u64);
    tell::numbers(out, b" goals ", c.goals, b" edges ", book.edges as u64);
    tell::text(out, b"\n");
    tell::row(out, b"read: denominators", kept.given.denominators);
    tell::row(out, b"read: edges", kept.given.edges);
    tell::row(out, b"read: order", kept.order);
    tell::row(out, b"read: rewards", kept.rewards);
    case(out, b"read", &kept);
}

// The file is read into tables of sevens.
fn read(out: &mut impl Write, name: &[u8], kept: &[u8], e: &mut [u64]) {
    let mut d = [7u64; Chain::STATES];
    let mut o = [7u64; Chain::STATES];
    let mut r = [7u64; Chain::STATES];
    match chainfile::read(kept, 0, &mut d, e, &mut o, &mut r) {
        Ok(book) => {
            let given = Given {
                chain: book.chain,
                denominators: &d,
                edges: e,
            };
            let read = Lent {
                given,
                order: &o,
                rewards: &r,
            };
            chain(out, book, &read);
        }
        Err(r) => {
            tell::text(out, name);
            tell::refused(out, r);
            tell::text(out, b"\n");
        }
    }
}

fn whole(out: &mut impl Write, name: &[u8], kept: &[u8]) {
    let mut e = [7u64; edge::MOST];
    read(out, name, kept, &mut e);
}

fn short(out: &mut impl Write, name: &[u8], kept: &[u8]) {
    let mut e = [7u64; edge::MOST - 1];
    read(out, name, kept, &mut e);
}

// Reads until the buffer is full, the input ends or a read fails, and answers how many bytes came.
fn read_full(file: &mut impl Read, buffer: &mut [u8]) -> usize
    ensures within { result ≤ length buffer.new }
    ensures same { length buffer.new ≡ length buffer.old }
{
    let mut done = 0;
    while done < buffer.len() {
        match file.read(&mut buffer[done..]) {
            Ok(0) => {
                return done;
            }
            Ok(n) => {
                done += n;
            }
            Err(_) => {
                return done;
            }
        }
    }
    done
}

pub(crate) fn given(file: &mut impl Read, out: &mut impl Write) {
    let mut buffer = [0u8; ROOM];
    let n = read_full(file, &mut buffer);
    whole(out, b"read: ", &buffer[..n]);
    short(out, b"read, an edge number short: ", &buffer[..n]);
    if 0 < n {
        let m = n - 1;
        whole(out, b"read, a byte short: ", &buffer[..m]);
    }
}
