// What all layers share: the gates, the refusals, the numbers that name rows, types, wires and ends, and sets of such
// numbers.
#![tactic(auto)]

pub mod gate;
pub mod numbers;
pub mod refusal;
pub mod sets;
