// The bit register: a bit for each wire, and a phase in eighths of a turn.
#![tactic(auto)]

pub mod laws;

ghost use Rattle.std.specs.Prelude.{◌≡◌, ◌<◌, ◌≤◌, true, if◌then◌else◌, Some, None, nat_lt};
ghost use Rattle.derivation.specs.Rows.{all_below};
ghost use Rattle.basics.specs.Sets.{has as member};
ghost use Rattle.target.specs.Interface.{numbers_of};
ghost use Rattle.register.specs.Register.{Contents, acted, all_one, flipped, holding, prepared, takes_all_but_h, turned};
ghost use Rattle.register.specs.RegisterLaws.{acted_commutes, all_but_h_coded};

use basics::gate::Gate;
use basics::numbers::Wire;
use basics::refusal::Refusal;
use target::checks::has;
use target::interface::Target;
use target::usage::Usage;

const WIDTH: u8 = 16;

const CAPACITY: u32 = 65_535;

// The bits and the phase since begin, and the bits that given wires begin with.
#[derive(Drop)]
pub struct Register {
    bits: u32,
    phase: u8,
    preset: u32,
    usage: Usage,
    ghost eighths: { phase < 8 },
    ghost few: { usage.count ≤ 65535 },
}

impl Register {
    ghost use Rattle.register.specs.Held.{held};

    // A register with no wire in use. Wire w begins with bit w of the preset when it is given; the bits from 16 on are
    // kept and have no effect, since no such wire can be given.
    pub fn new(preset: u32) -> Register
        ensures { (result.bits ≡ 0) × (result.phase ≡ 0) × (result.preset ≡ preset) × (result.usage.used ≡ 0) × (result.usage.count ≡ 0) }
    {
        Register {
            bits: 0,
            phase: 0,
            preset,
            usage: Usage { used: 0, count: 0 },
        }
    }

    // The bit of a wire, if the register has such a wire.
    pub fn bit(&mut self, w: Wire) -> Option<bool>
        ensures value { result ≡ (if nat_lt w.0 16 then Some (member self.old.bits w.0) else None) }
        ensures same { self.new ≡ self.old }
    {
        (w.0 < WIDTH).then_some(has(self.bits, w))
    }

    // The phase, in eighths of a turn.
    pub fn phase(&mut self) -> u8
        ensures value { result ≡ self.old.phase }
        ensures same { self.new ≡ self.old }
    {
        self.phase
    }

    // Whether the bit of each wire is 1.
    fn all_one(&self, wires: &[Wire]) -> bool
        ensures { result ≡ all_one self.now.bits (numbers_of wires.now) }
    {
        wires.iter().all(|w| has(self.bits, *w))
    }

    // Flips the last wire, where the bit of each wire before it is 1. That the wires are below 32 is asked, as of act: a slice
    // carries no fact, and a struct round it would be taken apart at once.
    fn flip(&mut self, wires: &[Wire])
        requires { all_below 32 (numbers_of wires.now) ≡ true }
        ensures { held self.new ≡ flipped (numbers_of wires.now) (held self.old) }
    {
        if let Some((last, controls)) = wires.split_last() {
            if self.all_one(controls) {
                self.bits ^= 1u32 << last.0;
            }
        }
    }

    // Turns the phase some eighths further, where the bit of each wire is 1.
    fn turn(&mut self, eighths: u8, wires: &[Wire])
        requires { eighths < 8 }
        ensures { held self.new ≡ turned eighths (numbers_of wires.now) (held self.old) }
    {
        if self.all_one(wires) {
            self.phase = (self.phase + eighths) % 8;
        }
    }

    // What a gate does to the bits and the phase.
    fn act(&mut self, gate: Gate, wires: &[Wire])
        requires { all_below 32 (numbers_of wires.now) ≡ true }
        ensures { held self.new ≡ acted gate (numbers_of wires.now) (held self.old) }
    {
        match gate {
            Gate::H => {}
            Gate::T => self.turn(1, wires),
            Gate::S => self.turn(2, wires),
            Gate::Z | Gate::Cz => self.turn(4, wires),
            Gate::X | Gate::Cx | Gate::Ccx => self.flip(wires),
        }
    }
}

impl Target for Register {
    // All codes but that of h.
    const CODES: u16 = 0b1_1111_1100;

    ghost CODES = { 508 };

    ghost State = { Contents };

    ghost view = { λ t. record { state = holding t.bits t.phase t.preset; used = t.usage.used; count = t.usage.count; width = 16; capacity = 65535 } };

    ghost taken = { takes_all_but_h };

    ghost begun = { prepared };

    ghost applied = { acted };

    ghost commutes = { acted_commutes };

    ghost coded = { all_but_h_coded };

    fn width(&mut self) -> u8 {
        WIDTH
    }

    fn capacity(&mut self) -> u32 {
        CAPACITY
    }

    fn begin(&mut self, used: u32, given: u32, ones: u32) -> Result<(), Refusal> {
        let usage = Usage::begun(WIDTH, used, given, ones)?;
        *self = Register {
            bits: (given & self.preset) | ones,
            phase: 0,
            preset: self.preset,
            usage,
        };
        Ok(())
    }

    fn apply(&mut self, gate: Gate, wires: &[Wire]) -> Result<(), Refusal> {
        let usage = self
            .usage
            .applied(Self::takes(gate), CAPACITY, gate, wires)?;
        self.act(gate, wires);
        self.usage = usage;
        Ok(())
    }
}
