// Planning copies: the chance that no copy is left before the job is finished, and the chain file of a plan. It relies on nothing but what the
// first crate promises.
#![tactic(auto)]

mod ask;
mod edges;
mod list;
mod plan;
mod states;
mod write;

pub use ask::{Planned, chance};
pub use plan::Plan;
pub use write::{LONGEST, file};
