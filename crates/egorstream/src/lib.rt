// The calls from C.
#![tactic(auto)]

mod call;
mod check;
mod limits;
mod nearly;
mod order;
mod reply;
mod steps;
mod texts;
mod within;
mod write;

pub use call::{MODE_BOUNDS, MODE_DEFAULT, MODE_EXACT, egorstream_chance};
pub use check::{Checked, egorstream_check};
pub use limits::{Limited, egorstream_limit};
pub use nearly::{Around, Nearness, egorstream_near, egorstream_near_from};
pub use order::{Ordered, egorstream_order};
pub use reply::ANSWER_LENGTH;
pub use steps::{Stepped, egorstream_steps};
pub use texts::{egorstream_make, egorstream_show};
pub use within::{Reached, egorstream_within};
pub use write::{BLOCK_LENGTH, EDGE_SIZE, Written, egorstream_write};
