// A gate list: it writes each gate down as it is applied.
#![tactic(auto)]

pub mod laws;

ghost use Rattle.std.specs.Prelude.{◌≡◌, ◌≤◌, take, Some};
ghost use Rattle.std.specs.Option.{option_map};
ghost use Rattle.std.specs.List.{slice_get};
ghost use Rattle.target.specs.Interface.{all_codes, numbers_of};
ghost use Rattle.target.proofs.CodeLaws.{all_coded};
ghost use Rattle.gate_list.specs.GateList.{State as ListState, emptied, lengthened, list_view, met_of, met_words, recorded, room as room_of, seats_of};
ghost use Rattle.gate_list.specs.GateListLaws.{swaps};

use basics::gate::Gate;
use basics::numbers::Wire;
use basics::refusal::Refusal;
use std::fmt;
use target::interface::Target;
use target::usage::Usage;

// A gate with its wires in the order of its seats; behind them stands wire 0. The gate says how many there are,
// which a list of wires would say again.
#[derive(Clone, Copy, PartialEq, Eq)]
pub struct Applied {
    pub gate: Gate,
    pub wires: [Wire; 3],
}

impl Applied {
    // The wires at the gate's seats.
    pub fn seats(&self) -> &[Wire]
        ensures { numbers_of result.now ≡ (met_of self.now).wires }
    {
        match self.gate.arity() {
            1 => &self.wires[..1],
            2 => &self.wires[..2],
            _ => &self.wires,
        }
    }
}

// The gate's word and its wires.
impl fmt::Display for Applied {
    ghost output = { λ a. Some (met_words (met_of a)) };

    fn fmt<W: fmt::Write>(&self, f: &mut fmt::Formatter<W>) -> fmt::Result {
        let gate = self.gate;
        let [Wire(a), Wire(b), Wire(c)] = self.wires;
        match gate.arity() {
            1 => write!(f, "{gate} {a}"),
            2 => write!(f, "{gate} {a} {b}"),
            _ => write!(f, "{gate} {a} {b} {c}"),
        }
    }
}

// The records that the maker handed over. The first of them, as many as the usage counts, hold the gates since begin.
// A count beside them, and no pushes: the list is promised to have the records that were handed over, however many of them
// hold gates.
#[derive(Drop)]
pub struct GateList {
    records: Vec<Applied>,
    usage: Usage,
    given: u32,
    ones: u32,
    ghost few: { usage.count ≤ room_of records.items },
}

// The wires of a record: these, and then wire 0. No gate has more than three.
fn seats(wires: &[Wire]) -> [Wire; 3]
    ensures { result ≡ seats_of wires.now }
{
    match wires {
        [] => [Wire(0); 3],
        [a] => [*a, Wire(0), Wire(0)],
        [a, b] => [*a, *b, Wire(0)],
        [a, b, c, ..] => [*a, *b, *c],
    }
}

impl GateList {
    // A list that writes into these records; no wire is in use.
    pub fn new(records: Vec<Applied>) -> GateList
        ensures items { result.records.items ≡ records.items }
        ensures count { result.usage.count ≡ 0 }
        ensures used { result.usage.used ≡ 0 }
        ensures given { result.given ≡ 0 }
        ensures ones { result.ones ≡ 0 }
    {
        GateList {
            records,
            usage: Usage { used: 0, count: 0 },
            given: 0,
            ones: 0,
        }
    }

    // Record i of those since begin; from their number on there is none.
    pub fn record(&mut self, i: usize) -> Option<Applied>
        ensures value { result ≡ slice_get (take self.old.usage.count self.old.records.items) i }
        ensures met { option_map met_of result ≡ slice_get (recorded self.old.records.items self.old.usage.count) i }
        ensures same { self.new ≡ self.old }
    {
        self.records[..self.usage.count as usize].get(i).copied()
    }

    // The number of gates since begin.
    pub fn count(&mut self) -> u32
        ensures value { result ≡ self.old.usage.count }
        ensures same { self.new ≡ self.old }
    {
        self.usage.count
    }

    // How many gates the records take.
    fn room(&self) -> u32
        ensures { result ≡ room_of self.now.records.items }
    {
        self.records.len().min(65_535) as u32
    }
}

impl Target for GateList {
    const CODES: u16 = 0b1_1111_1110;

    ghost CODES = { 510 };

    ghost State = { ListState };

    ghost view = { λ t. list_view t.records.items t.usage.count t.usage.used t.given t.ones };

    ghost taken = { all_codes };

    ghost begun = { emptied };

    ghost applied = { lengthened };

    ghost commutes = { λ s used f g vs ws tf tg sf sg apart. swaps s f g vs ws apart };

    ghost coded = { all_coded };

    fn width(&mut self) -> u8 {
        32
    }

    fn capacity(&mut self) -> u32 {
        self.room()
    }

    fn begin(&mut self, used: u32, given: u32, ones: u32) -> Result<(), Refusal> {
        self.usage = Usage::begun(32, used, given, ones)?;
        self.given = given;
        self.ones = ones;
        Ok(())
    }

    fn apply(&mut self, gate: Gate, wires: &[Wire]) -> Result<(), Refusal> {
        let usage = self
            .usage
            .applied(Self::takes(gate), self.room(), gate, wires)?;
        self.records[self.usage.count as usize] = Applied {
            gate,
            wires: seats(wires),
        };
        self.usage = usage;
        Ok(())
    }
}
