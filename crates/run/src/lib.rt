// Runs: tokens that move through a held derivation, and the gates that fire handed to a target.
#![tactic(auto)]

mod books;
pub mod call;
pub mod questions;
pub mod run;
