// The interface of a target.
ghost use Rattle.std.specs.Prelude.{◌≡◌, ℕ, Bool, List};
ghost use Rattle.basics.specs.declared.gate.Gate.{Gate};
ghost use Rattle.target.specs.Interface.{Coded, Commutes, Kept, Obeys, View, applied_view, apply_fault, begin_fault, begun_view, numbers_of};

use basics::gate::Gate;
use basics::numbers::Wire;
use basics::refusal::Refusal;
use basics::sets::Mask;

// What a maker of targets defines and proves. A target has a state, a set of wires in use, a count of gates since
// begin, a width and a capacity; users know it only by these.
pub trait Target {
    // The gate codes that the kind takes, as a set: bit c stands for code c.
    const CODES: u16;

    ghost CODES: { ℕ };

    ghost State: { Type 0 };

    ghost view: { Self → View State };

    ghost taken: { Gate → Bool };

    ghost begun: { ℕ → ℕ → ℕ → State → State };

    ghost applied: { Gate → List ℕ → State → State };

    // Whether the kind takes a gate.
    fn takes(gate: Gate) -> bool
        ensures { result ≡ taken gate }
    {
        u32::from(Self::CODES).has(gate.code())
    }

    // How many wires the target has room for.
    fn width(&mut self) -> u8
        ensures value { result ≡ (view self.old).width }
        ensures same { self.new ≡ self.old };

    // How many gates it takes after a begin.
    fn capacity(&mut self) -> u32
        ensures value { result ≡ (view self.old).capacity }
        ensures same { self.new ≡ self.old };

    // Starts anew with these wires in use, of which some are given and some are one. Three masks side by side are the form
    // of the interface, for devices too.
    fn begin(&mut self, used: u32, given: u32, ones: u32) -> Result<(), Refusal>
        ensures obeys { Obeys (begin_fault (view self.old) used given ones) (begun_view begun (view self.old) used given ones) result (view self.new) }
        ensures kept { Kept result self.old self.new };

    // Applies a gate to wires in the order of its seats. Both side by side are the form of the interface.
    fn apply(&mut self, gate: Gate, wires: &[Wire]) -> Result<(), Refusal>
        ensures obeys { Obeys (apply_fault taken (view self.old) gate (numbers_of wires.now)) (applied_view applied (view self.old) gate (numbers_of wires.now)) result (view self.new) }
        ensures kept { Kept result self.old self.new };

    ghost commutes: { Commutes taken applied };

    ghost coded: { Coded CODES taken };
}
