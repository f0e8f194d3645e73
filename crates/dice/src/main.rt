// The dice chain of Knuth and Yao: prints the chance of each face.
#![tactic(auto)]

use chain::given::Given;
use chain::{Chain, edge};
use engines::entry::chance;
use figures::Answer;
use report::face;
use std::io::Write;

// States 0 to 6 toss a coin, and states 7 to 12 are the faces.
const STATES: usize = 13;

const FACES: u64 = 6;

const FIRST: u64 = 7;

// The twenty edges, as the scope has them: from, to, weight.
const EDGES: [u64; 60] = [
    0, 1, 1, 0, 2, 1, 1, 3, 1, 1, 4, 1, 2, 5, 1, 2, 6, 1, 3, 1, 1, 3, 7, 1, 4, 8, 1, 4, 9, 1, 5,
    10, 1, 5, 11, 1, 6, 2, 1, 6, 12, 1, 7, 7, 1, 8, 8, 1, 9, 9, 1, 10, 10, 1, 11, 11, 1, 12, 12, 1,
];

const DENOMINATORS: [u64; STATES] = [2, 2, 2, 2, 2, 2, 2, 1, 1, 1, 1, 1, 1];

const ORDER: [u64; STATES] = [0, 1, 2, 3, 4, 5, 6, 7, 8, 9, 10, 11, 12];

const COUNT: usize = EDGES.len() / 3;

// The edges as an entry takes them: each with the reward 0.
fn widened() -> [u64; edge::SIZE * COUNT] {
    let mut edges = [0u64; edge::SIZE * COUNT];
    for (e, ends) in EDGES.chunks_exact(3).enumerate() {
        edge::put(&mut edges, e, ends[0], ends[1], ends[2], 0);
    }
    edges
}

// Prints the line of the face whose state is the only goal, and answers whether it was written.
fn print(out: &mut impl Write, people: &mut impl Write, number: u64, goals: u64) -> bool {
    let edges = widened();
    let mut work = [0u64; Chain::WORK];
    let given = Given {
        chain: Chain::new(STATES, 0, goals),
        denominators: &DENOMINATORS,
        edges: &edges,
    };
    let found = chance(&given, &ORDER, &mut work);
    let mut buffer = [0u8; report::FACE_ROOM];
    if let Ok(n) = face(number, Answer::from(found), &mut buffer) {
        return output::print(out, people, &buffer[..n], b"dice: standard output");
    }
    false
}

// The lines, up to one that could not be written.
fn print_faces(out: &mut impl Write, people: &mut impl Write) {
    for number in 1..=FACES {
        if !print(out, people, number, 1 << (FIRST + number - 1)) {
            return;
        }
    }
}

fn main(rt: HostRuntime) {
    let mut people = rt.stderr();
    if input::words(&rt) != 0 {
        output::tell(
            &mut people,
            b"usage: dice: takes no words, reads nothing, writes the chance of each face of a die to standard output. Example: dice\n",
        );
        return;
    }
    print_faces(&mut rt.stdout(), &mut people);
}
