// The token machine of a derivation: its places, where tokens start, move and come to rest.
ghost use Rattle.std.specs.Prelude.{◌≡◌, ◌+◌, ◌-◌, ◌<◌, ◌≤◌, true, ◌&&◌, map, length, IfOk, IfSome, is_some, if◌then◌else◌, Some, None, MatchResult, nat_eq, nat_lt};
ghost use Rattle.basics.specs.Gates.{arity as arity_of};
ghost use Rattle.basics.specs.declared.refusal.Layer.TheVariants.{Bytes};
ghost use Rattle.basics.specs.declared.refusal.Refusal.TheVariants.{OutOfMemory};
ghost use Rattle.derivation.specs.Accepted.{valid};
ghost use Rattle.derivation.specs.Judgements.{env_at, rule_at, tree_at};
ghost use Rattle.derivation.specs.Places.{negative, numbers};
ghost use Rattle.basics.specs.Sets.{has as member};
ghost use Rattle.derivation.specs.declared.rows.Part.TheVariants.{Ty, Variable as Var};
ghost use Rattle.derivation.specs.declared.rows.Rule.TheVariants.{Apply, Lambda, Pair, PairLambda};
ghost use Rattle.machine.specs.Calls.{end_at, gate_at, place_at, rule_found, seat_at};
ghost use Rattle.machine.specs.Facts.{facts_at, facts_found, facts_of, place_polarity, polarity_of};
ghost use Rattle.theory.specs.Ports.{across_own, across_premise, at as type_place, downward as downward_of, ends as ends_of, held as held_place, is_end, is_place, next as next_of, owner as owner_of, starts as starts_of, width as width_of};
ghost use Rattle.theory.specs.Theory.{Theory};
ghost use Rattle.theory.specs.Tokens.{wire_at};

use crate::tables::{KnownRows, Polarity, RowFacts, TypeFacts, at, held, row_facts};
use basics::gate::Gate;
use basics::numbers::{EndId, RowId, Wire};
use basics::refusal::Refusal;
use basics::sets::Mask;
use derivation::holder::Holder;
use derivation::rows::{Part, Place, Row, Rule};
use derivation::types::TypeEntry;
use std::alloc::Global;

// A seat of a gate, where a token waits for those of the gate's other seats.
#[derive(Clone, Copy, Debug, PartialEq, Eq)]
pub struct Seat {
    pub row: RowId,
    pub number: u8,
    pub arity: u8,
}

// A place that the derivation has, with the rule of its row and its polarity.
#[derive(Clone, Copy)]
struct Spot {
    place: Place,
    rule: Rule,
    polarity: Polarity,
    ghost few: { place.atom.0 ≤ 16 },
}

// A derivation that passed all checks, with what moves ask of each row, and the places where tokens start and end.
// Contracts cite the types, and a ghost field holds no list. The rows are read for their rules, and cited.
#[derive(Drop)]
pub struct Machine {
    types: Vec<TypeEntry>,
    rows: Vec<Row>,
    facts: Vec<RowFacts>,
    starts: Vec<Place>,
    ends: Vec<Place>,
    ghost accepted: { valid types.items rows.items ≡ true },
    ghost known: { facts.items ≡ map (facts_at types.items rows.items) (numbers 0 (length rows.items)) },
    ghost begun: { starts.items ≡ starts_of types.items rows.items },
    ghost ended: { ends.items ≡ ends_of types.items rows.items },
}

impl Machine {
    ghost use Rattle.machine.specs.Machines.{within};

    // The machine of the derivation in the holder.
    pub fn new(heap: Global, holder: &Holder) -> Result<Machine, Refusal>
        ensures copied { MatchResult result (λ m. (m.types.items ≡ holder.now.types.items) × (m.rows.items ≡ holder.now.rows.items)) (λ e. e ≡ OutOfMemory Bytes) }
        ensures theory { IfOk result (λ m. Theory m.types.items m.rows.items) }
    {
        let types = Vec::from_slice(heap, holder.types())?;
        let rows = Vec::from_slice(heap, holder.rows())?;
        let facts = row_facts(
            heap,
            types.as_slice(),
            rows.as_slice(),
            holder.environments(),
        )?;
        let known = KnownRows {
            rows: rows.as_slice(),
            facts: facts.as_slice(),
        };
        let starts = known.start_places(heap)?;
        let ends = known.last_places(heap, Polarity::Positive)?;
        Ok(Machine {
            types,
            rows,
            facts,
            starts,
            ends,
        })
    }

    // What moves ask of row r, if there is such a row.
    fn fact(&self, r: RowId) -> Option<RowFacts>
        ensures { result ≡ within self.now facts_found r.0 }
    {
        self.facts.get(r.0 as usize).copied()
    }

    // The rule of row r, if there is such a row.
    fn rule(&self, r: RowId) -> Option<Rule>
        ensures { result ≡ rule_found self.now.rows.items r.0 }
    {
        self.rows.get(r.0 as usize).map(|row| row.rule)
    }

    // The type of row r. The definitions give a row that there is not a qubit's: with an Option here each caller
    // would have a `?` that never fires.
    fn ty(&self, r: RowId) -> TypeFacts
        ensures value { result ≡ facts_of (within self.now tree_at r.0) }
        ensures few { result.width ≤ 16 }
    {
        self.fact(r).map_or(TypeFacts::QUBIT, |facts| facts.ty)
    }

    // Whether variable z is in the environment of row r.
    fn holds(&self, r: RowId, z: RowId) -> bool
        ensures { result ≡ member (env_at self.now.rows.items r.0) z.0 }
    {
        self.fact(r).is_some_and(|facts| facts.env.has(z.0))
    }

    // The polarity of p, if its part has so many atoms; a variable that the environment lacks has none.
    // A place in a variable has the reverse of its atom's polarity.
    fn polarity(&self, p: Place) -> Option<Polarity>
        ensures { result ≡ within self.now place_polarity p }
    {
        match p.part {
            Part::Ty => self.ty(p.row).polarity(p.atom.0),
            Part::Variable(x) => {
                if !self.holds(p.row, x) {
                    return None;
                }
                Some(self.ty(x).polarity(p.atom.0)?.reversed())
            }
        }
    }

    // Place p, if the derivation has it.
    fn spot(&self, p: Place) -> Option<Spot>
        ensures there { is_some result ≡ within self.now is_place p }
        ensures same { IfSome result (λ s. s.place ≡ p) }
        ensures ruled { IfSome result (λ s. s.rule ≡ rule_at self.now.rows.items p.row.0) }
        ensures signed { IfSome result (λ s. s.polarity ≡ polarity_of (within self.now negative p)) }
    {
        let rule = self.rule(p.row)?;
        let polarity = self.polarity(p)?;
        Some(Spot {
            place: p,
            rule,
            polarity,
        })
    }

    // Whether p is a place of the derivation: a row, a part of it and an atom of that part.
    pub fn is_place(&self, p: Place) -> bool
        ensures { result ≡ is_place self.now.types.items self.now.rows.items p }
    {
        self.spot(p).is_some()
    }

    // The premise of two that has variable z.
    fn owner(&self, p: RowId, q: RowId, z: RowId) -> RowId
        ensures { result.0 ≡ within self.now owner_of p.0 q.0 z.0 }
    {
        if self.holds(p, z) { p } else { q }
    }

    // From atom i of a lambda's type: its first atoms are those of variable x.
    fn lambda_up(&self, premise: RowId, x: RowId, i: u8) -> Place
        ensures { Some result ≡ within self.now across_own 0 (Lambda premise x) Ty i }
    {
        match i.checked_sub(self.ty(x).width) {
            Some(rest) => at(premise, rest),
            None => held(premise, x, i),
        }
    }

    // The same of a pair lambda: first the atoms of x, then those of y.
    fn pair_lambda_up(&self, premise: RowId, x: RowId, y: RowId, i: u8) -> Place
        ensures { Some result ≡ within self.now across_own 0 (PairLambda premise x y) Ty i }
    {
        let first = self.ty(x).width;
        let both = first + self.ty(y).width;
        if i < first {
            held(premise, x, i)
        } else if i < both {
            held(premise, y, i - first)
        } else {
            at(premise, i - both)
        }
    }

    // From atom i of a pair's type: first the atoms of its left part.
    fn pair_up(&self, left: RowId, right: RowId, i: u8) -> Place
        ensures { Some result ≡ within self.now across_own 0 (Pair left right) Ty i }
    {
        match i.checked_sub(self.ty(left).width) {
            Some(rest) => at(right, rest),
            None => at(left, i),
        }
    }

    // From an atom of its row's type through the row's own rule.
    fn type_up(&self, s: Spot) -> Option<Place>
        ensures { result ≡ within self.now across_own s.place.row.0 s.rule Ty s.place.atom.0 }
    {
        let (r, i) = (s.place.row, s.place.atom.0);
        match s.rule {
            Rule::Variable => Some(held(r, r, i)),
            Rule::Zero | Rule::One => None,
            Rule::Gate(gate) => Some(gate_across(s, gate)),
            Rule::Lambda { premise, x } => Some(self.lambda_up(premise, x, i)),
            Rule::PairLambda { premise, x, y } => Some(self.pair_lambda_up(premise, x, y, i)),
            Rule::Apply { function, argument } => Some(at(function, self.ty(argument).width + i)),
            Rule::Pair { left, right } => Some(self.pair_up(left, right, i)),
        }
    }

    // From an atom of variable z through its row's own rule.
    fn variable_up(&self, s: Spot, z: RowId) -> Option<Place>
        ensures { result ≡ within self.now across_own s.place.row.0 s.rule (Var z) s.place.atom.0 }
    {
        let (r, i) = (s.place.row, s.place.atom.0);
        match s.rule {
            Rule::Variable => Some(at(r, i)),
            Rule::Zero | Rule::One | Rule::Gate(_) => None,
            Rule::Lambda { premise, .. } | Rule::PairLambda { premise, .. } => Some(held(
                premise, z, i,
            )),
            Rule::Apply {
                function: p,
                argument: q,
            }
            | Rule::Pair { left: p, right: q } => Some(held(self.owner(p, q, z), z, i)),
        }
    }

    // Through the rule of its own row.
    fn upward(&self, s: Spot) -> Option<Place>
        ensures { result ≡ within self.now across_own s.place.row.0 s.rule s.place.part s.place.atom.0 }
    {
        match s.place.part {
            Part::Ty => self.type_up(s),
            Part::Variable(z) => self.variable_up(s, z),
        }
    }

    // From an atom of variable z of a pair lambda's body: x and y are bound.
    // A struct of s and r, the row below, would be made in downward and taken apart in each method on the way down,
    // whose contracts speak of s alone and of r alone.
    fn pair_lambda_down(&self, s: Spot, r: RowId, x: RowId, y: RowId, z: RowId) -> Place
        ensures { result ≡ (if nat_eq z.0 x.0 then type_place r.0 s.place.atom.0 else (if nat_eq z.0 y.0 then type_place r.0 (within self.now width_of x.0 + s.place.atom.0) else held_place r.0 z.0 s.place.atom.0)) }
    {
        let i = s.place.atom.0;
        if z == x {
            at(r, i)
        } else if z == y {
            at(r, self.ty(x).width + i)
        } else {
            held(r, z, i)
        }
    }

    // From an atom of the type of an application's premise: a function's first atoms are its argument's.
    fn apply_down(&self, s: Spot, r: RowId, function: RowId, argument: RowId) -> Place
        ensures { Some result ≡ within self.now across_premise r.0 (Apply function argument) s.place.row.0 Ty s.place.atom.0 }
    {
        let i = s.place.atom.0;
        if s.place.row != function {
            return at(function, i);
        }
        match i.checked_sub(self.ty(argument).width) {
            Some(rest) => at(r, rest),
            None => at(argument, i),
        }
    }

    // From an atom of the type of a pair's part: the atoms of the left part come first.
    fn pair_down(&self, s: Spot, r: RowId, left: RowId) -> Place
        ensures { result ≡ (if nat_eq s.place.row.0 left.0 then type_place r.0 s.place.atom.0 else type_place r.0 (within self.now width_of left.0 + s.place.atom.0)) }
    {
        let i = s.place.atom.0;
        if s.place.row == left {
            at(r, i)
        } else {
            at(r, self.ty(left).width + i)
        }
    }

    // From an atom of a premise's type through the rule of the row r below it.
    fn type_down(&self, s: Spot, r: RowId, rule: Rule) -> Option<Place>
        ensures { result ≡ within self.now across_premise r.0 rule s.place.row.0 Ty s.place.atom.0 }
    {
        let i = s.place.atom.0;
        match rule {
            Rule::Variable | Rule::Zero | Rule::One | Rule::Gate(_) => None,
            Rule::Lambda { x, .. } => Some(at(r, self.ty(x).width + i)),
            Rule::PairLambda { x, y, .. } => Some(at(r, self.ty(x).width + self.ty(y).width + i)),
            Rule::Apply { function, argument } => Some(self.apply_down(s, r, function, argument)),
            Rule::Pair { left, .. } => Some(self.pair_down(s, r, left)),
        }
    }

    // From an atom of variable z of a premise through the rule of the row r below it.
    fn variable_down(&self, s: Spot, r: RowId, rule: Rule, z: RowId) -> Option<Place>
        ensures { result ≡ within self.now across_premise r.0 rule s.place.row.0 (Var z) s.place.atom.0 }
    {
        let i = s.place.atom.0;
        match rule {
            Rule::Variable | Rule::Zero | Rule::One | Rule::Gate(_) => None,
            Rule::Lambda { x, .. } => Some(lambda_down(r, x, z, i)),
            Rule::PairLambda { x, y, .. } => Some(self.pair_lambda_down(s, r, x, y, z)),
            Rule::Apply { .. } | Rule::Pair { .. } => Some(held(r, z, i)),
        }
    }

    // Through the rule of the row below its own.
    fn downward(&self, s: Spot) -> Option<Place>
        requires { s.place.row.0 < length self.now.rows.items }
        ensures { result ≡ within self.now downward_of s.place }
    {
        let r = self.fact(s.place.row)?.below?;
        let rule = self.rule(r)?;
        match s.place.part {
            Part::Ty => self.type_down(s, r, rule),
            Part::Variable(z) => self.variable_down(s, r, rule, z),
        }
    }

    // Where a token at p goes: at a negative place it climbs, at a positive place it descends.
    pub fn next(&self, p: Place) -> Option<Place>
        ensures { result ≡ (if is_place self.now.types.items self.now.rows.items p then next_of self.now.types.items self.now.rows.items p else None) }
    {
        let spot = self.spot(p)?;
        match spot.polarity {
            Polarity::Negative => self.upward(spot),
            Polarity::Positive => self.downward(spot),
        }
    }

    // Whether p is an end: a positive place of the last row.
    pub fn is_end(&self, p: Place) -> bool
        ensures { result ≡ (is_place self.now.types.items self.now.rows.items p && is_end self.now.types.items self.now.rows.items p) }
    {
        self.spot(p).is_some_and(|spot| {
            p.row.0 as usize == self.rows.len() - 1 && spot.polarity == Polarity::Positive
        })
    }

    // The seat that is at p, if a gate waits for a token there.
    pub fn seat(&self, p: Place) -> Option<Seat>
        ensures { result ≡ seat_at self.now.types.items self.now.rows.items p }
    {
        match (self.spot(p)?.rule, p.part) {
            (Rule::Gate(gate), Part::Ty) if p.atom.0 < gate.arity() => Some(Seat {
                row: p.row,
                number: p.atom.0,
                arity: gate.arity(),
            }),
            _ => None,
        }
    }

    // The gate of row r. It is read when the gate fires.
    pub fn gate(&self, r: RowId) -> Option<Gate>
        ensures { result ≡ gate_at self.now.rows.items r.0 }
    {
        match self.rule(r)? {
            Rule::Gate(gate) => Some(gate),
            _ => None,
        }
    }

    // The number of wires.
    pub fn wires(&self) -> u8
        ensures { result ≡ length (starts_of self.now.types.items self.now.rows.items) }
    {
        self.starts.len() as u8
    }

    // The places where tokens start, wire 0 first.
    pub fn starts(&self) -> &[Place]
        ensures { result.now ≡ starts_of self.now.types.items self.now.rows.items }
    {
        self.starts.as_slice()
    }

    // The ends, end 0 first.
    pub fn ends(&self) -> &[Place]
        ensures { result.now ≡ ends_of self.now.types.items self.now.rows.items }
    {
        self.ends.as_slice()
    }

    // Where the token of wire w starts.
    pub fn start(&self, w: Wire) -> Option<Place>
        ensures { result ≡ place_at (starts_of self.now.types.items self.now.rows.items) w.0 }
    {
        self.starts.get(w.0 as usize).copied()
    }

    // The number of the end at p. A match and no `?`: what none means has its own arm, which the must-fail edit changes.
    pub fn end_number(&self, p: Place) -> Option<EndId>
        ensures { result ≡ end_at (ends_of self.now.types.items self.now.rows.items) p }
    {
        match self.ends.iter().position(|q| *q == p) {
            Some(n) => u8::try_from(n).ok().map(EndId),
            None => None,
        }
    }
}

// Between the wires of a gate and its results: first the atoms of the one, then those of the other.
fn gate_across(s: Spot, gate: Gate) -> Place
    ensures { result ≡ (if nat_lt s.place.atom.0 (arity_of gate) then type_place s.place.row.0 (arity_of gate + s.place.atom.0) else type_place s.place.row.0 (s.place.atom.0 - arity_of gate)) }
{
    let (r, i) = (s.place.row, s.place.atom.0);
    let arity = gate.arity();
    match i.checked_sub(arity) {
        Some(rest) => at(r, rest),
        None => at(r, arity + i),
    }
}

// From atom i of variable z of a lambda's body: x is bound, other variables stay in the environment.
fn lambda_down(r: RowId, x: RowId, z: RowId, i: u8) -> Place
    ensures { result ≡ (if nat_eq z.0 x.0 then type_place r.0 i else held_place r.0 z.0 i) }
{
    if z == x { at(r, i) } else { held(r, z, i) }
}

// The number of the first place that is p, or how many places there are if none is: callers are promised a number.
pub fn position(places: &[Place], p: Place) -> usize
    ensures { result ≡ wire_at places.now p }
{
    places.iter().position(|q| *q == p).unwrap_or(places.len())
}
