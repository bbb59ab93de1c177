// What is said of bytes before anything moves, as text.
#![tactic(auto)]

pub mod booking;
pub mod forecast;
