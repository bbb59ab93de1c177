// The reader of the byte format.
ghost use Rattle.std.specs.Prelude.{◌≡◌, ◌<◌, ◌≤◌, ◌-◌, ◌==◌, ◌||◌, ℕ, List, length, nat_lt};
ghost use Rattle.derivation.specs.Faults.{Gives};
ghost use Rattle.derivation.specs.Format.{cut, front_row, front_type, gate_rule, parse as parsed, row_length, type_length};
ghost use Rattle.basics.specs.Gates.{gate_of};
ghost use Rattle.derivation.specs.Reads.{ReadsFront, ReadsHeader, ReadsNext, misfit};
ghost use Rattle.std.proofs.Common.{arith};
ghost use Rattle.std.proofs.lemmas.Bool.Decides.{nat_tests};

use crate::rows::{Record, Rule};
use crate::types::{TypeEntry, TypeKind};
use basics::gate::Gate;
use basics::numbers::{RowId, TypeId};
use basics::refusal::Refusal;
use std::alloc::Global;

// Types and rows as their bytes have them, not yet checked; they are as many as the header may say.
#[derive(Drop)]
pub(crate) struct Parsed {
    pub(crate) types: Vec<TypeEntry>,
    pub(crate) records: Vec<Record>,
    ghost few_types: { length types.items ≤ 64 },
    ghost some_rows: { 0 < length records.items },
    ghost few_rows: { length records.items ≤ 128 },
}

// The numbers of further types and rows, and what follows the header.
fn header(bytes: &[u8]) -> Result<(u8, u8, &[u8]), Refusal>
    ensures { ReadsHeader bytes.now result }
{
    let [version, high, low, types, rows, rest @ ..] = bytes else {
        return Err(Refusal::TooShort(bytes.len()));
    };
    if *version != 1 {
        return Err(Refusal::Version);
    }
    if u16::from_be_bytes([*high, *low]) as usize != bytes.len() {
        return Err(Refusal::LengthField);
    }
    if *types > 64 {
        return Err(Refusal::TypeCount);
    }
    if *rows == 0 || *rows > 128 {
        return Err(Refusal::RowCount);
    }
    Ok((*types, *rows, rest))
}

// An item that has a record in the byte format.
// A record is the length of its rest, its kind, from 1 to KINDS, and its operands.
trait FromBytes: Drop {
    ghost KINDS: { ℕ };

    ghost length_of: { ℕ → ℕ };

    ghost front_of: { List ℕ → Self };

    const KINDS: u8;

    // The item whose record stands at the front, and what follows it, if there is such a record.
    fn front(left: &[u8]) -> Option<(Self, &[u8])>
        ensures { ReadsFront length_of front_of left.now result };

    // The kinds from 1 to KINDS are those whose records have a length.
    ghost known: { (kind : ℕ) → (length_of kind == 0) ≡ (kind == 0 || nat_lt KINDS kind) };
}

impl FromBytes for TypeEntry {
    ghost KINDS = { 2 };

    ghost length_of = { type_length };

    ghost front_of = { front_type };

    ghost known = { λ kind. Prim.grind (arith, nat_tests) };

    const KINDS: u8 = 2;

    fn front(left: &[u8]) -> Option<(TypeEntry, &[u8])> {
        match left {
            [3, 1, left, right, rest @ ..] => {
                let (kind, left, right) = (TypeKind::Arrow, TypeId(*left), TypeId(*right));
                Some((TypeEntry { kind, left, right }, rest))
            }
            [3, 2, left, right, rest @ ..] => {
                let (kind, left, right) = (TypeKind::Pair, TypeId(*left), TypeId(*right));
                Some((TypeEntry { kind, left, right }, rest))
            }
            _ => None,
        }
    }
}

// The rule of a gate row, if there is a gate of that code.
fn gate_rule(code: u8) -> Option<Rule>
    ensures { result ≡ gate_rule (gate_of code) }
{
    Gate::try_from(code).ok().map(Rule::Gate)
}

// A row as it was read.
fn row(ty: u8, rule: Option<Rule>) -> Record
    ensures { result ≡ record { ty = record { 0 = ty }; rule = rule } }
{
    Record {
        ty: TypeId(ty),
        rule,
    }
}

impl FromBytes for Record {
    ghost KINDS = { 8 };

    ghost length_of = { row_length };

    ghost front_of = { front_row };

    ghost known = { λ kind. Prim.grind (arith, nat_tests) };

    const KINDS: u8 = 8;

    fn front(left: &[u8]) -> Option<(Record, &[u8])> {
        match left {
            [2, 1, ty, rest @ ..] => Some((row(*ty, Some(Rule::Variable)), rest)),
            [2, 2, ty, rest @ ..] => Some((row(*ty, Some(Rule::Zero)), rest)),
            [2, 3, ty, rest @ ..] => Some((row(*ty, Some(Rule::One)), rest)),
            [3, 4, ty, code, rest @ ..] => Some((row(*ty, gate_rule(*code)), rest)),
            [4, 5, ty, premise, x, rest @ ..] => {
                let (premise, x) = (RowId(*premise), RowId(*x));
                Some((row(*ty, Some(Rule::Lambda { premise, x })), rest))
            }
            [5, 6, ty, premise, x, y, rest @ ..] => {
                let (premise, x, y) = (RowId(*premise), RowId(*x), RowId(*y));
                Some((row(*ty, Some(Rule::PairLambda { premise, x, y })), rest))
            }
            [4, 7, ty, function, argument, rest @ ..] => {
                let (function, argument) = (RowId(*function), RowId(*argument));
                Some((row(*ty, Some(Rule::Apply { function, argument })), rest))
            }
            [4, 8, ty, left, right, rest @ ..] => {
                let (left, right) = (RowId(*left), RowId(*right));
                Some((row(*ty, Some(Rule::Pair { left, right })), rest))
            }
            _ => None,
        }
    }
}

// The bytes that are left to read, the last of total.
#[derive(Drop)]
struct Reader<'a> {
    total: usize,
    left: &'a [u8],
    ghost within: { length left.now ≤ total },
}

impl Reader<'_> {
    // How many bytes were read.
    fn at(&self) -> usize
        ensures { result ≡ self.now.total - length self.now.left.now }
    {
        self.total - self.left.len()
    }

    // What is wrong at the front, where no record stands. Its kind is known if it is one from 1 to kinds.
    fn misfit(&self, kinds: u8) -> Refusal
        ensures { result ≡ misfit kinds self.now.total self.now.left.now }
    {
        match self.left {
            [length, kind, ..] if *length > 0 && (*length as usize) < self.left.len() => {
                if *kind == 0 || *kind > kinds {
                    Refusal::UnknownKind(self.at() + 1)
                } else {
                    Refusal::RecordLength(self.at())
                }
            }
            _ => Refusal::RecordBounds(self.at()),
        }
    }

    // The item of the next record.
    fn next<T: FromBytes>(&mut self) -> Result<T, Refusal>
        ensures same { self.new.total ≡ self.old.total }
        ensures read { ReadsNext T.length_of T.front_of self.old.total self.old.left.now self.new.left.now result }
    {
        let Some((item, rest)) = T::front(self.left) else {
            return Err(self.misfit(T::KINDS));
        };
        self.left = rest;
        Ok(item)
    }

    // The items of the next records, count of them.
    fn items<T: FromBytes>(&mut self, heap: Global, count: u8) -> Result<Vec<T>, Refusal>
        ensures same { self.new.total ≡ self.old.total }
        ensures read { Gives (cut T.length_of T.front_of self.old.total count self.old.left.now) result (λ v. record { items = v.items; rest = self.new.left.now }) }
    {
        let mut items = Vec::new(heap);
        for _ in 0..count {
            items.push(self.next()?)?;
        }
        Ok(items)
    }
}

// Checks the bytes and takes them apart.
pub(crate) fn parse(heap: Global, bytes: &[u8]) -> Result<Parsed, Refusal>
    ensures { Gives (parsed bytes.now) result (λ v. record { types = v.types.items; records = v.records.items }) }
{
    let (type_count, row_count, left) = header(bytes)?;
    let mut reader = Reader {
        total: bytes.len(),
        left,
    };
    let types = reader.items(heap, type_count)?;
    let records = reader.items(heap, row_count)?;
    if !reader.left.is_empty() {
        return Err(Refusal::Trailing(reader.at()));
    }
    Ok(Parsed { types, records })
}
