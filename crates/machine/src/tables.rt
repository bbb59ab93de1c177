// What a machine knows of a derivation's types and rows before anything moves.
ghost use Rattle.std.specs.Prelude.{◌≡◌, ℕ, ◌+◌, ◌-◌, ◌^◌, ◌<◌, ◌≤◌, true, not, [], ◌++◌, map, length, IfOk, OnOk, slice_index_or};
ghost use Rattle.derivation.specs.Accepted.{Accepted, Table};
ghost use Rattle.derivation.specs.Judgements.{rule_at};
ghost use Rattle.derivation.specs.Places.{numbers};
ghost use Rattle.derivation.specs.Rows.{all_below, environments, premises};
ghost use Rattle.derivation.specs.Trees.{trees};
ghost use Rattle.machine.specs.Facts.{atom_polarity, facts_at, facts_of, is_positive, joined_facts, marked, polarity_of, row_of, signed, signed_at, starts_by};
ghost use Rattle.theory.specs.Ports.{at as type_place, below_from, bit_places, held as held_place};

use basics::numbers::{Atom, RowId};
use basics::sets::Mask;
use derivation::rows::{Part, Place, Row, Rule};
use derivation::types::{TypeEntry, TypeKind};
use std::alloc::{AllocError, Global};

// Whether a token at a place climbs, as at a negative one, or descends.
#[derive(Clone, Copy, Debug, PartialEq, Eq)]
pub(crate) enum Polarity {
    Negative,
    Positive,
}

impl Polarity {
    pub(crate) fn reversed(self) -> Polarity
        ensures { result ≡ polarity_of (is_positive self) }
    {
        match self {
            Polarity::Negative => Polarity::Positive,
            Polarity::Positive => Polarity::Negative,
        }
    }
}

// The number of atoms of a type, and which of them are positive: bit i of the signs is set if atom i is. A derivation's Size
// is another thing: it counts the positive atoms, which is not enough for a move.
#[derive(Clone, Copy)]
pub(crate) struct TypeFacts {
    pub(crate) width: u8,
    pub(crate) signs: u16,
}

impl TypeFacts {
    // A qubit's: one atom, which is positive.
    pub(crate) const QUBIT: TypeFacts = TypeFacts { width: 1, signs: 1 };

    // The polarity of atom i, if there are so many.
    pub(crate) fn polarity(self, i: u8) -> Option<Polarity>
        ensures { result ≡ atom_polarity self i }
    {
        let positive = u32::from(self.signs).has(i);
        (i < self.width).then_some(if positive {
            Polarity::Positive
        } else {
            Polarity::Negative
        })
    }
}

// What moves ask of a row: its type, its environment, and the row below it, which has it as a premise.
#[derive(Clone, Copy)]
pub(crate) struct RowFacts {
    pub(crate) ty: TypeFacts,
    pub(crate) env: u128,
    pub(crate) below: Option<RowId>,
}

// The facts of an arrow or a pair, by those of its parts. It is not derivation's joined, which counts and can fail. An arrow reverses the polarity of its left part.
fn joined(kind: TypeKind, left: TypeFacts, right: TypeFacts) -> TypeFacts
    requires some { 0 < right.width }
    requires few { left.width + right.width ≤ 16 }
    requires within { right.signs < 2 ^ right.width }
    ensures { result ≡ joined_facts kind left right }
{
    let turned = match kind {
        TypeKind::Arrow => left.signs ^ ((1 << left.width) - 1),
        TypeKind::Pair => left.signs,
    };
    TypeFacts {
        width: left.width + right.width,
        signs: turned | (right.signs << left.width),
    }
}

// The facts of a table's types, from entry 0 on.
// Not one function with derivation's type_sizes, which checks each entry against those before it and can refuse;
// this reads a checked table. A shared loop would take its step as a closure, whose clause both would state.
fn type_facts(heap: Global, types: &[TypeEntry]) -> Result<Vec<TypeFacts>, AllocError>
    requires { Table types.now }
    ensures { IfOk result (λ v. v.items ≡ map facts_of (trees types.now)) }
{
    let mut facts = Vec::new(heap);
    facts.push(TypeFacts::QUBIT)?;
    for entry in types {
        let left = facts[entry.left.0 as usize];
        let right = facts[entry.right.0 as usize];
        facts.push(joined(entry.kind, left, right))?;
    }
    Ok(facts)
}

// Puts row r below each premise of its rule. A match: a slice of the premises would be made in each arm, as the marks
// are.
fn mark(below: &mut [Option<RowId>], r: RowId, rule: Rule)
    requires { all_below (length below.old) (premises rule) ≡ true }
    ensures { below.new ≡ marked below.old (premises rule) (Some r) }
{
    match rule {
        Rule::Variable | Rule::Zero | Rule::One | Rule::Gate(_) => {}
        Rule::Lambda { premise, .. } | Rule::PairLambda { premise, .. } => {
            below[premise.0 as usize] = Some(r);
        }
        Rule::Apply {
            function: p,
            argument: q,
        }
        | Rule::Pair { left: p, right: q } => {
            below[p.0 as usize] = Some(r);
            below[q.0 as usize] = Some(r);
        }
    }
}

// The row below each row, from the last row to the first.
fn below_rows(rows: &[Row]) -> [Option<RowId>; 128]
    requires few { length rows.now ≤ 128 }
    requires lower { (r : ℕ) → r < length rows.now → all_below 128 (premises (rule_at rows.now r)) ≡ true }
    ensures size { length result ≡ 128 }
    ensures under { (q : ℕ) → q < 128 → slice_index_or result q None ≡ row_of (length rows.now) (below_from 0 rows.now q) }
{
    // A Vec would have to be filled with None first, which is this array.
    let mut below = [None; 128];
    for (r, row) in rows.iter().enumerate().rev() {
        mark(&mut below, RowId(r as u8), row.rule);
    }
    below
}

// The facts of each row.
pub(crate) fn row_facts(
    heap: Global,
    types: &[TypeEntry],
    rows: &[Row],
    envs: &[u128],
) -> Result<Vec<RowFacts>, AllocError>
    requires accepted { Accepted types.now rows.now }
    requires surrounded { envs.now ≡ environments rows.now }
    ensures { IfOk result (λ v. v.items ≡ map (facts_at types.now rows.now) (numbers 0 (length rows.now))) }
{
    let table = type_facts(heap, types)?;
    let below = below_rows(rows);
    // Tried with map and collect: with no clauses at the closure it stays open that the index is in the table, and with
    // a requires alone what list is collected. With an ensures too the closure is longer than this loop.
    let mut facts = Vec::new(heap);
    for (row, (env, below)) in rows.iter().zip(envs.iter().zip(&below)) {
        facts.push(RowFacts {
            ty: table[row.ty.0 as usize],
            env: *env,
            below: *below,
        })?;
    }
    Ok(facts)
}

// A part of a row, with the facts of its type.
#[derive(Clone, Copy)]
struct PartFacts {
    row: RowId,
    part: Part,
    ty: TypeFacts,
}

impl PartFacts {
    // Adds the places in the part whose atoms have the polarity.
    fn push_places(self, places: &mut Vec<Place>, polarity: Polarity) -> Result<(), AllocError>
        ensures { OnOk result (places.new.items ≡ places.old.items ++ signed (is_positive polarity) self.ty.signs self.row.0 self.part self.ty.width) }
    {
        for i in 0..self.ty.width {
            if self.ty.polarity(i) == Some(polarity) {
                places.push(Place {
                    row: self.row,
                    part: self.part,
                    atom: Atom(i),
                })?;
            }
        }
        Ok(())
    }
}

// Atom i of the type of row r.
pub(crate) fn at(r: RowId, i: u8) -> Place
    ensures { result ≡ type_place r.0 i }
{
    Place {
        row: r,
        part: Part::Ty,
        atom: Atom(i),
    }
}

// Atom i of variable x in the environment of row r.
pub(crate) fn held(r: RowId, x: RowId, i: u8) -> Place
    ensures { result ≡ held_place r.0 x.0 i }
{
    Place {
        row: r,
        part: Part::Variable(x),
        atom: Atom(i),
    }
}

// The rows of a derivation, with the facts of each beside it.
#[derive(Clone, Copy)]
pub(crate) struct KnownRows<'a> {
    pub(crate) rows: &'a [Row],
    pub(crate) facts: &'a [RowFacts],
    ghost alike: { length facts.now ≡ length rows.now },
    ghost some: { 0 < length rows.now },
    ghost few: { length rows.now ≤ 128 },
}

impl KnownRows<'_> {
    // The places of the last row that have the polarity.
    // A place in a variable has the reverse of its atom's polarity.
    pub(crate) fn last_places(
        &self,
        heap: Global,
        polarity: Polarity,
    ) -> Result<Vec<Place>, AllocError>
        ensures { IfOk result (λ v. v.items ≡ signed_at self.now.facts.now (not (is_positive polarity)) (length self.now.facts.now - 1)) }
    {
        let last = self.facts.len() - 1;
        let row = RowId(last as u8);
        let own = self.facts[last];
        let mut places = Vec::new(heap);
        for (x, bound) in self.facts.iter().enumerate() {
            if own.env.has(x as u8) {
                let variable = PartFacts {
                    row,
                    part: Part::Variable(RowId(x as u8)),
                    ty: bound.ty,
                };
                variable.push_places(&mut places, polarity.reversed())?;
            }
        }
        let ty = PartFacts {
            row,
            part: Part::Ty,
            ty: own.ty,
        };
        ty.push_places(&mut places, polarity)?;
        Ok(places)
    }

    // Adds the places of zero and one rows.
    fn push_bits(&self, places: &mut Vec<Place>) -> Result<(), AllocError>
        ensures { OnOk result (places.new.items ≡ places.old.items ++ bit_places [] self.now.rows.now 0 self.now.rows.now) }
    {
        for (r, row) in self.rows.iter().enumerate() {
            if row.rule.is_bit() {
                places.push(at(RowId(r as u8), 0))?;
            }
        }
        Ok(())
    }

    // The places where tokens start: the negative places of the last row, and those of zero and one rows.
    pub(crate) fn start_places(&self, heap: Global) -> Result<Vec<Place>, AllocError>
        ensures { IfOk result (λ v. v.items ≡ starts_by self.now.facts.now self.now.rows.now) }
    {
        let mut places = self.last_places(heap, Polarity::Negative)?;
        self.push_bits(&mut places)?;
        Ok(places)
    }
}
