// The holder: it contains one accepted derivation, and nothing else can be put into it.
ghost use Rattle.std.specs.Prelude.{◌≡◌, ◌<◌, ◌≤◌, true, [], ◌∷◌, map, length, Some, None, MatchResult, OnErr};
ghost use Rattle.derivation.specs.Starts.{starts as starts_of};
ghost use Rattle.derivation.specs.Accepted.{Sound, fault, valid, whole_fault};
ghost use Rattle.derivation.specs.Faults.{Checked as Passes, Gives};
ghost use Rattle.derivation.specs.Format.{derivation_of};
ghost use Rattle.derivation.specs.Places.{gate_rows, moves as moves_of, wires as wires_of};
ghost use Rattle.derivation.specs.Reading.{ReadAnswers, ReadExact};
ghost use Rattle.derivation.specs.Rows.{environments, row_of, zero_row};
ghost use Rattle.derivation.specs.Written.{write_after, write_answer};
ghost use Rattle.basics.specs.declared.refusal.Layer.TheVariants.{Bytes};
ghost use Rattle.basics.specs.declared.refusal.Refusal.TheVariants.{OutOfMemory};

use crate::bytes::{Parsed, parse};
use crate::check::{Checked, check_rows};
use crate::count::Measured;
use crate::rows::{Row, Rule, Start};
use crate::starts::wire_starts;
use crate::types::{Size, TypeEntry, type_sizes};
use crate::writer::Encoding;
use basics::numbers::{RowId, TypeId};
use basics::refusal::Refusal;
use std::alloc::Global;

// The numbers of a derivation that are known before anything moves.
#[derive(Clone, Copy)]
pub(crate) struct Counts {
    pub(crate) wires: u8,
    pub(crate) gates: u8,
    pub(crate) moves: u32,
}

// A derivation that passed all checks, with each row's environment and the numbers of wires, gate rows and moves.
// Rows and environments are two vectors, since the public calls lend each as a slice.
#[derive(Drop)]
pub struct Holder {
    types: Vec<TypeEntry>,
    rows: Vec<Row>,
    envs: Vec<u128>,
    counts: Counts,
    ghost accepted: { valid types.items rows.items ≡ true },
    ghost surrounded: { envs.items ≡ environments rows.items },
    ghost wired: { counts.wires ≡ wires_of types.items rows.items },
    ghost gated: { counts.gates ≡ gate_rows rows.items },
    ghost moved: { counts.moves ≡ moves_of types.items rows.items },
}

// The counts of rows that passed their own checks, or what is wrong with all of them together.
fn counted(types: &[TypeEntry], sizes: &[Size], checked: &Checked) -> Result<Counts, Refusal>
    requires { Sound types.now sizes.now checked.now.rows.items }
    ensures { MatchResult result (λ n. (whole_fault types.now checked.now.rows.items ≡ None) × (n.wires ≡ wires_of types.now checked.now.rows.items) × (n.gates ≡ gate_rows checked.now.rows.items) × (n.moves ≡ moves_of types.now checked.now.rows.items)) (λ e. whole_fault types.now checked.now.rows.items ≡ Some e) }
{
    checked.all_used()?;
    let rows = checked.rows.as_slice();
    let last = RowId(rows.len() as u8 - 1);
    let measured = Measured { types, sizes, rows };
    let wires = measured.wires(checked.env_at(last));
    if wires > 32 {
        return Err(Refusal::TooManyWires(last));
    }
    let places = measured.places();
    Ok(Counts {
        wires: wires as u8,
        gates: measured.gates(),
        moves: places
            .saturating_sub(wires)
            .saturating_sub(measured.mates()),
    })
}

// The holder of what was parsed, or its first fault.
fn accept(heap: Global, parsed: Parsed) -> Result<Holder, Refusal>
    ensures { Passes (fault parsed.types.items parsed.records.items) result (λ h. (h.types.items ≡ parsed.types.items) × (h.rows.items ≡ map row_of parsed.records.items)) }
{
    let Parsed { types, records } = parsed;
    let table = types.as_slice();
    let sizes = type_sizes(heap, table)?;
    let checked = check_rows(heap, table, records.as_slice())?;
    let counts = counted(table, sizes.as_slice(), &checked)?;
    let Checked { rows, envs, .. } = checked;
    Ok(Holder {
        types,
        rows,
        envs,
        counts,
    })
}

// The holder of the derivation that bytes stand for, or the refusal.
fn decoded(heap: Global, bytes: &[u8]) -> Result<Holder, Refusal>
    ensures { Gives (derivation_of bytes.now) result (λ h. record { types = h.types.items; rows = h.rows.items }) }
{
    accept(heap, parse(heap, bytes)?)
}

// A qubit in state zero.
const ZERO_ROW: Row = Row {
    ty: TypeId(0),
    rule: Rule::Zero,
};

impl Holder {
    // A holder of one zero row.
    pub fn new(heap: Global) -> Result<Holder, Refusal>
        ensures { MatchResult result (λ h. (h.types.items ≡ []) × (h.rows.items ≡ zero_row ∷ [])) (λ e. e ≡ OutOfMemory Bytes) }
    {
        let rows = Vec::from_slice(heap, &[ZERO_ROW])?;
        let envs = Vec::from_slice(heap, &[0])?;
        Ok(Holder {
            types: Vec::new(heap),
            rows,
            envs,
            counts: Counts {
                wires: 1,
                gates: 0,
                moves: 0,
            },
        })
    }

    // Reads a derivation from bytes into the holder; refused, the holder stays as it is.
    pub fn read(&mut self, heap: Global, bytes: &[u8]) -> Result<(), Refusal>
        ensures answer { ReadAnswers bytes.now result self.new.types.items self.new.rows.items }
        ensures exact { ReadExact bytes.now result self.new.types.items self.new.rows.items }
        ensures kept { OnErr result (self.new ≡ self.old) }
    {
        *self = decoded(heap, bytes)?;
        Ok(())
    }

    // Fills the front of the buffer with the bytes that were read, and answers their number.
    pub fn write(&self, buffer: &mut [u8]) -> Result<usize, Refusal>
        ensures answer { result ≡ write_answer self.now.types.items self.now.rows.items (length buffer.old) }
        ensures after { buffer.new ≡ write_after self.now.types.items self.now.rows.items buffer.old }
    {
        let encoding = Encoding {
            types: self.types.as_slice(),
            rows: self.rows.as_slice(),
        };
        encoding.write(buffer)
    }

    // The further types, entry 1 first.
    pub fn types(&self) -> &[TypeEntry]
        ensures { result.now ≡ self.now.types.items }
    {
        self.types.as_slice()
    }

    // The rows, row 0 first.
    pub fn rows(&self) -> &[Row]
        ensures { result.now ≡ self.now.rows.items }
    {
        self.rows.as_slice()
    }

    // The environment of each row, as the set of its variables.
    pub fn environments(&self) -> &[u128]
        ensures { result.now ≡ environments self.now.rows.items }
    {
        self.envs.as_slice()
    }

    // The number of wires: negative places of the last row, and zero and one rows.
    pub fn wires(&self) -> u8
        ensures { result ≡ wires_of self.now.types.items self.now.rows.items }
    {
        self.counts.wires
    }

    // The number of gate rows.
    pub fn gate_rows(&self) -> u8
        ensures { result ≡ gate_rows self.now.rows.items }
    {
        self.counts.gates
    }

    // The number of moves of a complete run.
    pub fn moves(&self) -> u32
        ensures { result ≡ moves_of self.now.types.items self.now.rows.items }
    {
        self.counts.moves
    }

    // How each wire starts, in the order of the wires.
    pub fn starts(&self, heap: Global) -> Result<Vec<Start>, Refusal>
        ensures { MatchResult result (λ v. v.items ≡ starts_of self.now.types.items self.now.rows.items) (λ e. e ≡ OutOfMemory Bytes) }
    {
        let starts = wire_starts(heap, self.rows.as_slice(), self.counts.wires)?;
        Ok(starts)
    }
}
