// The blocks of a chain file: what the head says, which kind and how many records a block holds, and the test of one block.
#![tactic(auto)]

pub mod block;
pub mod head;
mod records;

// What a block holds records of, by the byte that says so.
#[derive(Clone, Copy, PartialEq, Eq)]
pub enum Kind {
    Head = 1,
    State = 2,
    Edge = 3,
}
