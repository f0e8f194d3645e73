// A test, no product: what only lent tables can show, the numbers 1, 2 and 11 and the work table, is run through the entries;
// and the reader that a caller lends tables to.
// What it must write, the file stdout, was worked out from the scope and not copied from a run.
#![tactic(auto)]

ghost use Rattle.std.specs.Prelude.{◌≤◌};

mod file;
mod run;
mod tell;

use chain::Chain;
use chain::given::Given;
use run::{Lent, case};
use std::io::Write;

// The scope's third chain: state 0 goes to itself, to the goal 1 and to the trap 2.
const D: [u64; 3] = [3, 1, 1];

const E: [u64; 20] = [0, 0, 1, 0, 0, 1, 1, 0, 0, 2, 1, 0, 1, 1, 1, 0, 2, 2, 1, 0];

const O: [u64; 3] = [0, 1, 2];

const R: [u64; 3] = [1, 1, 1];

// With another start.
fn from(out: &mut impl Write, name: &[u8], start: usize) {
    case(
        out,
        name,
        &Lent {
            given: Given {
                chain: Chain::new(3, start, 2),
                denominators: &D,
                edges: &E,
            },
            order: &O,
            rewards: &R,
        },
    );
}

// With another table than its own.
fn with_edges(out: &mut impl Write, name: &[u8], edges: &[u64]) {
    case(
        out,
        name,
        &Lent {
            given: Given {
                chain: Chain::new(3, 0, 2),
                denominators: &D,
                edges: edges,
            },
            order: &O,
            rewards: &R,
        },
    );
}

fn with_order(out: &mut impl Write, name: &[u8], order: &[u64]) {
    case(
        out,
        name,
        &Lent {
            given: Given {
                chain: Chain::new(3, 0, 2),
                denominators: &D,
                edges: &E,
            },
            order: order,
            rewards: &R,
        },
    );
}

fn with_rewards(out: &mut impl Write, name: &[u8], rewards: &[u64]) {
    case(
        out,
        name,
        &Lent {
            given: Given {
                chain: Chain::new(3, 0, 2),
                denominators: &D,
                edges: &E,
            },
            order: &O,
            rewards: rewards,
        },
    );
}

fn lent(out: &mut impl Write, name: &[u8], work: usize)
    requires { work ≤ 4354 }
{
    run::lines(
        out,
        name,
        work,
        &Lent {
            given: Given {
                chain: Chain::new(3, 0, 2),
                denominators: &D,
                edges: &E,
            },
            order: &O,
            rewards: &R,
        },
    );
}

// The scope's chain for the first visit, with a finite reward.
fn visits(out: &mut impl Write, name: &[u8]) {
    let edges = [0, 1, 1, 0, 1, 1, 1, 0, 1, 2, 1, 0, 2, 2, 1, 0];
    case(
        out,
        name,
        &Lent {
            given: Given {
                chain: Chain::new(3, 0, 4),
                denominators: &[1, 2, 1],
                edges: &edges,
            },
            order: &O,
            rewards: &[1, 1, 0],
        },
    );
}

// The scope's chain with a weight of M - 1, which does not fit.
const DENOMINATORS: [u64; 4] = [Chain::LIMIT, 3, 1, 1];

const EDGES: [u64; 24] = [
    0, 1, 1, 0, 0, 3, 2147483646, 0, 1, 2, 1, 0, 1, 3, 2, 0, 2, 2, 1, 0, 3, 3, 1, 0,
];

fn no_fit(out: &mut impl Write, name: &[u8]) {
    case(
        out,
        name,
        &Lent {
            given: Given {
                chain: Chain::new(4, 0, 4),
                denominators: &DENOMINATORS,
                edges: &EDGES,
            },
            order: &[0, 1, 2, 3],
            rewards: &[0, 0, 0, 0],
        },
    );
}

// Rewards on edges: 0 to itself with 3 and to the goal with 5, whose loop has 7, and the state's own reward.
fn retries(out: &mut impl Write, name: &[u8]) {
    let edges = [0, 0, 1, 3, 0, 1, 1, 5, 1, 1, 1, 7];
    case(
        out,
        name,
        &Lent {
            given: Given {
                chain: Chain::new(2, 0, 2),
                denominators: &[2, 1],
                edges: &edges,
            },
            order: &[0, 1],
            rewards: &[1, 0],
        },
    );
}

// A reward too large, on the edge to the goal and on the trap's loop: only the reward entry looks at it.
fn overpaid(out: &mut impl Write, name: &[u8]) {
    let edges = [
        0, 0, 1, 0, 0, 1, 1, 65536, 0, 2, 1, 65535, 1, 1, 1, 0, 2, 2, 1, 65536,
    ];
    with_edges(out, name, &edges);
}

// Each way in which an entry ends that makes the work table zero: infinite, an answer without rows, one with rows, and no fit.
fn cleared(out: &mut impl Write) {
    from(out, b"itself, goal and trap", 0);
    from(out, b"started on the goal", 1);
    visits(out, b"first visit and loop");
    no_fit(out, b"M - 1 chain");
    retries(out, b"rewards on edges");
}

fn many_edges(out: &mut impl Write, name: &[u8]) {
    let many = [0u64; 16388];
    with_edges(out, name, &many);
}

fn many_states(out: &mut impl Write, name: &[u8]) {
    let longer = [1u64; 65];
    case(
        out,
        name,
        &Lent {
            given: Given {
                chain: Chain::new(65, 0, 2),
                denominators: &longer,
                edges: &E,
            },
            order: &longer,
            rewards: &longer,
        },
    );
}

fn misshaped(out: &mut impl Write) {
    with_edges(out, b"refusal 1, edges not in fours", &E[..18]);
    many_edges(out, b"refusal 1, 4097 edges");
    with_order(out, b"refusal 1, an order too short", &O[..2]);
    with_rewards(out, b"refusal 1, a reward too many", &[1, 1, 1, 1]);
    many_states(out, b"refusal 1, 65 states");
}

fn main(rt: HostRuntime) {
    let mut out = rt.stdout();
    cleared(&mut out);
    lent(&mut out, b"work of 21 numbers", 21);
    misshaped(&mut out);
    lent(&mut out, b"refusal 2", 20);
    with_rewards(&mut out, b"refusal 11", &[1, 65536, 1]);
    overpaid(&mut out, b"refusal 11, of an edge");
    file::given(&mut rt.stdin(), &mut out);
}
