// What an elimination comes to.
use chain::Chain;
use chain::refusal::Refusal;

// What the start's row holds at the end, with its D. An expected reward that is infinite is 1 over 0.
#[derive(Clone, Copy)]
pub struct Ends {
    pub goal: u64,
    pub unknown: u64,
    pub reward: u64,
    pub outside: u64,
}

// The same, or what stops it, with the steps: how many records there are, then four numbers for each record (state, rows, columns, divisor), and 0
// past the last.
#[derive(Clone, Copy)]
pub struct Noted {
    pub course: Result<Ends, Refusal>,
    pub numbers: [u64; Noted::NUMBERS],
}

impl Noted {
    // How many numbers a record has, and all of them.
    pub const RECORD: usize = 4;

    pub const NUMBERS: usize = 1 + Noted::RECORD * Chain::STATES;
}
