// Near chances: an elimination whose weights keep their highest 31 binary digits. Each weight is a 64-bit word.
#![tactic(auto)]

pub mod answer;
pub mod entry;
mod row;
mod step;
mod walk;
mod wide;
mod word;
