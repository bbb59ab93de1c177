// The theory of the token machine: where tokens go, and why they never wait for each other.
#![tactic(auto)]

pub mod laws;
