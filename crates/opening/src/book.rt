// What is opened, and how the flat table is laid out.
use chain::given::Given;
use chain::{Chain, edge};
use octets::layout;

// Where the order, the rewards and the edges begin: there is room for the numbers of 64 states before each.
pub(crate) const ORDER: usize = Chain::STATES;

pub(crate) const REWARDS: usize = 2 * Chain::STATES;

pub(crate) const EDGES: usize = 3 * Chain::STATES;

// The numbers of a table for any file, and of one for a file of at most eight blocks: beside a head and states it has six blocks of edges at most.
pub const LARGEST: usize = EDGES + edge::MOST;

pub const SMALL: usize = EDGES + edge::SIZE * (6 * layout::FULL);

// The chain of an opened file, with all its tables.
#[derive(Clone, Copy)]
pub struct Opened<'a> {
    pub given: Given<'a>,
    pub order: &'a [u64],
    pub rewards: &'a [u64],
}
