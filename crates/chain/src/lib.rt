#![tactic(auto)]

ghost use Rattle.std.specs.Prelude.{◌≡◌};

pub mod bits;
pub mod divisor;
pub mod edge;
pub mod fraction;
pub mod given;
pub mod refusal;
pub mod set;
pub mod table;

// A chain but for its tables, which are lent: its states are numbered from 0, and bit i of the goals says whether state i is one.
#[derive(Clone, Copy)]
pub struct Chain {
    pub states: usize,
    pub start: usize,
    pub goals: u64,
}

impl Chain {
    // The greatest number of states.
    pub const STATES: usize = 64;

    // The greatest number of edges.
    pub const EDGES: usize = 4096;

    // The greatest denominator, weight, row total and Reward.
    pub const LIMIT: u64 = 2147483647;

    // The greatest reward of a state, and of an edge.
    pub const REWARD: u64 = 65535;

    // The columns of a row beside its states: Goal, Trap, Unknown and Reward.
    pub const BESIDE: usize = 4;

    // The columns of a row of the largest chain.
    pub const WIDTH: usize = Chain::STATES + Chain::BESIDE;

    // The numbers of the work table of the largest chain.
    pub const WORK: usize = Chain::STATES * Chain::WIDTH;

    pub fn new(states: usize, start: usize, goals: u64) -> Self
        ensures { (result.states ≡ states) × (result.start ≡ start) × (result.goals ≡ goals) }
    {
        Self {
            states,
            start,
            goals,
        }
    }
}
