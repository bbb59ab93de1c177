// The token machine of a derivation: its calls, and the tables that they look into.
#![tactic(auto)]

pub mod machine;
mod tables;
