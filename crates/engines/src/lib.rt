// The entries, each an engine by its name, and what they answer.
#![tactic(auto)]

pub mod answer;
pub mod entry;
