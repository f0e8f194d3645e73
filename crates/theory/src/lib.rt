// Theorems about the definitions of the crate meaning: no code.
#![tactic(auto)]
