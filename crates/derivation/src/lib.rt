// Derivations of the linear quantum lambda calculus: read from bytes, checked, held and written back.
#![tactic(auto)]

mod bytes;
mod check;
mod count;
pub mod examples;
pub mod holder;
pub mod rows;
mod starts;
pub mod types;
mod writer;
