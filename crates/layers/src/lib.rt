// Layers: the depth of the circuit on each wire.
#![tactic(auto)]

pub mod laws;

ghost use Rattle.std.specs.Prelude.{◌≡◌, ℕ, ◌≤◌, true, List, replicate, slice_index};
ghost use Rattle.derivation.specs.Rows.{all_below};
ghost use Rattle.target.specs.Interface.{all_codes, numbers_of};
ghost use Rattle.layers.specs.Layers.{fresh, greatest as greatest_in, layered, number_of, set_all as set_in};
ghost use Rattle.target.proofs.CodeLaws.{all_coded};
ghost use Rattle.layers.specs.LayersLaws.{layered_commutes};

use basics::gate::Gate;
use basics::numbers::Wire;
use basics::refusal::Refusal;
use target::interface::Target;
use target::usage::Usage;

const WIDTH: u8 = 32;

const CAPACITY: u32 = 65_535;

// A number for each wire, 0 at begin. A gate sets its wires to one more than their greatest.
#[derive(Drop)]
pub struct Layers {
    depth: [u32; 32],
    usage: Usage,
    ghost few: { usage.count ≤ 65535 },
    ghost shallow: { (i : ℕ) → slice_index depth i ≤ usage.count },
}

impl Layers {
    // No wire is in use, and no gate was applied.
    pub fn new() -> Layers
        ensures depth { result.depth ≡ replicate 32 0 }
        ensures used { result.usage.used ≡ 0 }
        ensures count { result.usage.count ≡ 0 }
    {
        Layers {
            depth: [0; 32],
            usage: Usage { used: 0, count: 0 },
        }
    }

    // The number of a wire; a wire past the width has none.
    pub fn depth(&mut self, w: Wire) -> Option<u32>
        ensures value { result ≡ number_of self.old.depth w.0 }
        ensures same { self.new ≡ self.old }
    {
        self.depth.get(w.0 as usize).copied()
    }
}

// The greatest number of some wires. A loop: of map and max, and of a fold, the closure's index stayed open in the proof, and
// of filter_map, get and max that the result is the definition's.
fn greatest(depth: &[u32; 32], wires: &[Wire]) -> u32
    requires { all_below 32 (numbers_of wires.now) ≡ true }
    ensures { result ≡ greatest_in depth.now (numbers_of wires.now) }
{
    let mut most = 0u32;
    for w in wires {
        most = most.max(depth[w.0 as usize]);
    }
    most
}

// Sets some wires to a layer. That they are below 32 is asked, as of greatest: a slice carries no fact, and a struct round it
// would be taken apart at once.
fn set_all(depth: &mut [u32; 32], wires: &[Wire], layer: u32)
    requires { all_below 32 (numbers_of wires.now) ≡ true }
    ensures { depth.new ≡ set_in depth.old (numbers_of wires.now) layer }
{
    for w in wires {
        depth[w.0 as usize] = layer;
    }
}

impl Target for Layers {
    const CODES: u16 = 0b1_1111_1110;

    ghost CODES = { 510 };

    ghost State = { List ℕ };

    ghost view = { λ t. record { state = t.depth; used = t.usage.used; count = t.usage.count; width = 32; capacity = 65535 } };

    ghost taken = { all_codes };

    ghost begun = { fresh };

    ghost applied = { layered };

    ghost commutes = { λ s used f g vs ws takes-f takes-g seated-f seated-g apart. layered_commutes f g s vs ws apart };

    ghost coded = { all_coded };

    fn width(&mut self) -> u8 {
        WIDTH
    }

    fn capacity(&mut self) -> u32 {
        CAPACITY
    }

    fn begin(&mut self, used: u32, given: u32, ones: u32) -> Result<(), Refusal> {
        self.usage = Usage::begun(WIDTH, used, given, ones)?;
        self.depth = [0; 32];
        Ok(())
    }

    fn apply(&mut self, gate: Gate, wires: &[Wire]) -> Result<(), Refusal> {
        let usage = self
            .usage
            .applied(Self::takes(gate), CAPACITY, gate, wires)?;
        let layer = greatest(&self.depth, wires) + 1;
        set_all(&mut self.depth, wires, layer);
        self.usage = usage;
        Ok(())
    }
}
