// The elimination on the rows of a table of 64-bit numbers, by the name of an engine: exact, or with rows rounded where they do not fit.
#![tactic(auto)]

pub mod course;
pub mod engine;
pub mod entry;
mod first;
mod gather;
pub mod laying;
mod log;
mod members;
mod merge;
pub mod part;
mod pay;
mod row;
mod run;
mod step;
mod walk;
pub mod work;
