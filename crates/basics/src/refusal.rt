// Refusals: what a call answers instead of its result. Each has a number, a layer and a place.
ghost use Rattle.std.specs.Prelude.{◌≡◌, Some};
ghost use Rattle.basics.specs.Refusals.{layer_number, number_of, layer_of, place_of, refusal_words};
ghost use Rattle.basics.specs.declared.refusal.Layer.TheVariants.{Bytes};
ghost use Rattle.basics.specs.declared.refusal.Refusal.TheVariants.{OutOfMemory};

use crate::gate::Gate;
use crate::numbers::{RowId, TypeId, Wire};
use std::alloc::{AllocError, AllocFailed};
use std::error::Error;
use std::fmt;

// The layers, by which a refusal says where a fault was found.
#[derive(Clone, Copy, Debug, PartialEq, Eq)]
pub enum Layer {
    Bytes,
    Types,
    Rows,
    Target,
    Run,
    Text,
}

// One enum serves all layers, so that a fault keeps its number, layer and place on its way up.
#[derive(Clone, Copy, Debug, PartialEq, Eq)]
pub enum Refusal {
    // fewer than five bytes: how many there are
    TooShort(usize),
    // the version byte is not known
    Version,
    // the length field is not the number of bytes
    LengthField,
    // more than 64 further types
    TypeCount,
    // no row, or more than 128
    RowCount,
    // a record that is empty or runs past the end: its offset
    RecordBounds(usize),
    // an unknown kind: the offset of the kind
    UnknownKind(usize),
    // a record whose length is not that of its kind: its offset
    RecordLength(usize),
    // bytes left over: the offset of the first
    Trailing(usize),
    // a type with a part that is not lower
    PartNotLower(TypeId),
    // a type that is equal to an earlier one
    RepeatedType(TypeId),
    // a type of more than 16 atoms
    TooManyAtoms(TypeId),
    // a row with a type that the table lacks
    NoSuchType(RowId),
    // a row with a premise that is not lower
    PremiseNotLower(RowId),
    // a row with a premise that another row has, or that it has twice
    PremiseTaken(RowId),
    // a row that binds what is not in its premise's environment, or one variable twice
    NotFree(RowId),
    // a row whose type is not what its rule gives
    TypeMismatch(RowId),
    // a gate row with an unknown gate code
    NoSuchGate(RowId),
    // a row other than the last that is no premise
    UnusedRow(RowId),
    // more than 32 wires: the last row
    TooManyWires(RowId),
    // a target with a width under the number of wires: that number
    TooNarrow(u8),
    // a target with a capacity under the number of gate rows: that number
    TooSmall(u8),
    // a gate row with a code that the target does not take
    GateNotTaken(RowId),
    // a wire that the run has not
    NoSuchWire(Wire),
    // a wire whose token is home
    AtHome(Wire),
    // a wire whose token waits at a gate with an empty seat
    SeatEmpty(Wire),
    // wires of a gate that are not as many as its seats, or of which one is not in use or comes twice
    WireMisuse(Gate),
    // a gate where as many as the target takes were applied since begin
    AtCapacity(Gate),
    // a gate whose code the target does not take
    NotTaken(Gate),
    // sets of wires at begin: one at or above the width, or given and ones overlapping or not within used
    WireSets,
    // an entry of a channel table that is over 31 or repeated: its position
    ChannelEntry(usize),
    // a buffer that is too short: the bytes needed
    BufferTooShort(usize),
    // no memory for the work of a layer's call
    OutOfMemory(Layer),
}

impl Layer {
    pub fn number(self) -> u8
        ensures { result ≡ layer_number self }
    {
        match self {
            Layer::Bytes => 1,
            Layer::Types => 2,
            Layer::Rows => 3,
            Layer::Target => 4,
            Layer::Run => 5,
            Layer::Text => 6,
        }
    }
}

impl Refusal {
    pub fn number(self) -> u8
        ensures { result ≡ number_of self }
    {
        match self {
            Refusal::TooShort(_) | Refusal::LengthField => 1,
            Refusal::Version => 2,
            Refusal::TypeCount | Refusal::RowCount => 3,
            Refusal::UnknownKind(_) => 4,
            Refusal::RecordBounds(_) | Refusal::RecordLength(_) => 5,
            Refusal::Trailing(_) => 6,
            Refusal::PartNotLower(_) => 7,
            Refusal::RepeatedType(_) => 8,
            Refusal::TooManyAtoms(_) => 9,
            Refusal::NoSuchType(_) => 10,
            Refusal::PremiseNotLower(_) => 11,
            Refusal::PremiseTaken(_) => 12,
            Refusal::NotFree(_) => 13,
            Refusal::TypeMismatch(_) => 14,
            Refusal::NoSuchGate(_) => 15,
            Refusal::UnusedRow(_) => 16,
            Refusal::TooManyWires(_) => 17,
            Refusal::TooNarrow(_) => 20,
            Refusal::TooSmall(_) => 21,
            Refusal::GateNotTaken(_) => 22,
            Refusal::NoSuchWire(_) => 30,
            Refusal::AtHome(_) => 31,
            Refusal::SeatEmpty(_) => 32,
            Refusal::WireMisuse(_) => 40,
            Refusal::AtCapacity(_) => 41,
            Refusal::NotTaken(_) => 42,
            Refusal::WireSets => 43,
            Refusal::ChannelEntry(_) => 44,
            Refusal::BufferTooShort(_) => 35,
            Refusal::OutOfMemory(_) => 70,
        }
    }

    pub fn layer(self) -> Layer
        ensures { layer_number result ≡ layer_of self }
    {
        match self {
            Refusal::TooShort(_)
            | Refusal::Version
            | Refusal::LengthField
            | Refusal::TypeCount
            | Refusal::RowCount
            | Refusal::RecordBounds(_)
            | Refusal::UnknownKind(_)
            | Refusal::RecordLength(_)
            | Refusal::Trailing(_) => Layer::Bytes,
            Refusal::PartNotLower(_) | Refusal::RepeatedType(_) | Refusal::TooManyAtoms(_) =>
                Layer::Types,
            Refusal::NoSuchType(_)
            | Refusal::PremiseNotLower(_)
            | Refusal::PremiseTaken(_)
            | Refusal::NotFree(_)
            | Refusal::TypeMismatch(_)
            | Refusal::NoSuchGate(_)
            | Refusal::UnusedRow(_)
            | Refusal::TooManyWires(_) => Layer::Rows,
            Refusal::WireMisuse(_)
            | Refusal::AtCapacity(_)
            | Refusal::NotTaken(_)
            | Refusal::WireSets
            | Refusal::ChannelEntry(_) => Layer::Target,
            Refusal::TooNarrow(_)
            | Refusal::TooSmall(_)
            | Refusal::GateNotTaken(_)
            | Refusal::NoSuchWire(_)
            | Refusal::AtHome(_)
            | Refusal::SeatEmpty(_) => Layer::Run,
            Refusal::BufferTooShort(_) => Layer::Text,
            Refusal::OutOfMemory(layer) => layer,
        }
    }

    pub fn place(self) -> usize
        ensures { result ≡ place_of self }
    {
        match self {
            Refusal::Version | Refusal::WireSets | Refusal::OutOfMemory(_) => 0,
            Refusal::LengthField => 1,
            Refusal::TypeCount => 3,
            Refusal::RowCount => 4,
            Refusal::TooShort(n)
            | Refusal::RecordBounds(n)
            | Refusal::UnknownKind(n)
            | Refusal::RecordLength(n)
            | Refusal::Trailing(n)
            | Refusal::ChannelEntry(n)
            | Refusal::BufferTooShort(n) => n,
            Refusal::TooNarrow(n) | Refusal::TooSmall(n) => n as usize,
            Refusal::NoSuchWire(w) | Refusal::AtHome(w) | Refusal::SeatEmpty(w) => w.0 as usize,
            Refusal::WireMisuse(g) | Refusal::AtCapacity(g) | Refusal::NotTaken(g) =>
                g.code() as usize,
            Refusal::PartNotLower(t) | Refusal::RepeatedType(t) | Refusal::TooManyAtoms(t) =>
                t.0 as usize,
            Refusal::NoSuchType(r)
            | Refusal::PremiseNotLower(r)
            | Refusal::PremiseTaken(r)
            | Refusal::NotFree(r)
            | Refusal::TypeMismatch(r)
            | Refusal::NoSuchGate(r)
            | Refusal::UnusedRow(r)
            | Refusal::TooManyWires(r)
            | Refusal::GateNotTaken(r) => r.0 as usize,
        }
    }
}

// Reading and a new holder want memory at the lowest layer.
impl From<AllocError> for Refusal {
    ghost from_gives = { λ _ r. r ≡ OutOfMemory Bytes };

    fn from(_e: AllocError) -> Refusal {
        Refusal::OutOfMemory(Layer::Bytes)
    }
}

impl<T: Drop> From<AllocFailed<T>> for Refusal {
    ghost from_gives = { λ _ r. r ≡ OutOfMemory Bytes };

    fn from(_e: AllocFailed<T>) -> Refusal {
        Refusal::OutOfMemory(Layer::Bytes)
    }
}

impl fmt::Display for Refusal {
    ghost output = { λ refusal. Some (refusal_words refusal) };

    fn fmt<W: fmt::Write>(&self, f: &mut fmt::Formatter<W>) -> fmt::Result {
        let number = self.number();
        let layer = self.layer().number();
        let place = self.place();
        write!(f, "refused {number} layer {layer} place {place}")
    }
}

impl Error for Refusal {}
