// The calls of a run once it is open.
use basics::numbers::Wire;

// A call: the move of a wire, or a sweep with a budget.
#[derive(Clone, Copy, Debug, PartialEq, Eq)]
pub enum Call {
    Move(Wire),
    Sweep(u32),
}
