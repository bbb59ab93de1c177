// The rows of a derivation. A row is named by its number, and a variable by the row that introduces it.
ghost use Rattle.std.specs.Prelude.{◌≡◌, Some};
ghost use Rattle.derivation.specs.Places.{is_bit, is_gate, mates as mates_of};
ghost use Rattle.derivation.specs.Starts.{start_of, start_word};

use basics::gate::Gate;
use basics::numbers::{Atom, RowId, TypeId};
use std::fmt;

// How a wire's token starts: at a negative place of the last row, or at a zero or one row.
#[derive(Clone, Copy, Debug, PartialEq, Eq)]
pub enum Start {
    Given,
    Zero,
    One,
}

impl Start {
    pub fn word(self) -> &'static str
        ensures { result.now ≡ start_word self }
    {
        match self {
            Start::Given => "given",
            Start::Zero => "zero",
            Start::One => "one",
        }
    }
}

impl fmt::Display for Start {
    ghost output = { λ start. Some (start_word start) };

    fn fmt<W: fmt::Write>(&self, f: &mut fmt::Formatter<W>) -> fmt::Result {
        f.write_str(self.word())
    }
}

// The rule by which a row follows from its premises.
#[derive(Clone, Copy, Debug, PartialEq, Eq)]
pub enum Rule {
    Variable,
    Zero,
    One,
    Gate(Gate),
    Lambda { premise: RowId, x: RowId },
    PairLambda { premise: RowId, x: RowId, y: RowId },
    Apply { function: RowId, argument: RowId },
    Pair { left: RowId, right: RowId },
}

impl Rule {
    // Whether the rule starts a wire: zero and one do.
    pub fn is_bit(self) -> bool
        ensures { result ≡ is_bit self }
    {
        matches!(self, Rule::Zero | Rule::One)
    }

    pub(crate) fn is_gate(self) -> bool
        ensures { result ≡ is_gate self }
    {
        matches!(self, Rule::Gate(_))
    }

    // The tokens that the rule moves together, less one.
    pub(crate) fn mates(self) -> u8
        ensures { result ≡ mates_of self }
    {
        match self {
            Rule::Gate(gate) => gate.arity() - 1,
            _ => 0,
        }
    }

    // How the wire of a zero or one row starts; other rows start none.
    pub(crate) fn start(self) -> Option<Start>
        ensures { result ≡ start_of self }
    {
        match self {
            Rule::Zero => Some(Start::Zero),
            Rule::One => Some(Start::One),
            _ => None,
        }
    }
}

// A row: its type, and the rule by which it follows.
#[derive(Clone, Copy, Debug, PartialEq, Eq)]
pub struct Row {
    pub ty: TypeId,
    pub rule: Rule,
}

// A row as its bytes have it, not yet checked. A gate row with an unknown gate code has no rule.
// No function serves both rows and records, so one generic struct for them would be no plainer.
#[derive(Clone, Copy, Debug, PartialEq, Eq)]
pub struct Record {
    pub ty: TypeId,
    pub rule: Option<Rule>,
}

// A part of a row: its type, or a variable of its environment. Neither is a thing that is missing, so this is no Option.
#[derive(Clone, Copy, Debug, PartialEq, Eq)]
pub enum Part {
    Ty,
    Variable(RowId),
}

// A place, where a token can stand: a row, a part of it and an atom of that part.
#[derive(Clone, Copy, Debug, PartialEq, Eq)]
pub struct Place {
    pub row: RowId,
    pub part: Part,
    pub atom: Atom,
}
