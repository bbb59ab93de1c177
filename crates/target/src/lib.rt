// Targets: what receives the gates.
#![tactic(auto)]

pub mod checks;
pub mod interface;
pub mod usage;
