// Planning copies over near chances: those of one plan, the table of all numbers of copies, and the fewest copies that keep a limit. It asks
// chains only through the C entries of the first crate and the plan's chain file; its lines are made by `lines`, `text` and `report`.
#![tactic(auto)]

mod asked;
mod line;
mod scanned;
mod tabled;
mod weights;

pub use asked::near;
pub use scanned::{FEWEST_ROOM, fewest};
pub use tabled::{TABLE_ROOM, table};
pub use weights::Weights;
