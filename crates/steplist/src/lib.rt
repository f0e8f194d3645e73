// The step list for the desk: records that the caller lends.
#![tactic(auto)]

use chain::fraction::Fraction;
use chain::refusal::Refusal;

pub mod entry;
pub mod list;

// What is told of one removed state.
#[repr(C)]
#[derive(Clone, Copy)]
pub struct StepRecord {
    pub state: u64,
    pub rows: u64,
    pub columns: u64,
    pub divisor: u64,
}

// The chance entry's answer, and how many records were written.
#[derive(Clone, Copy)]
pub struct Steps {
    pub chance: Result<Fraction, Refusal>,
    pub count: usize,
}
