// The checks of rows, each by the rows before it.
ghost use Rattle.std.specs.Prelude.{◌≡◌, ◌-◌, ◌<◌, ◌≤◌, true, not, ◌&&◌, [], ◌∷◌, ◌++◌, map, length, nat_lt, slice_index};
ghost use Rattle.std.specs.List.{find, list_all, range_with_len};
ghost use Rattle.std.specs.Result.{result_err};
ghost use Rattle.basics.specs.Sets.{has as member};
ghost use Rattle.derivation.specs.declared.types.TypeKind.TheVariants.{Arrow, Pair};
ghost use Rattle.derivation.specs.Accepted.{rows_fault};
ghost use Rattle.derivation.specs.Faults.{Checked as Passes};
ghost use Rattle.derivation.specs.Rows.{all_below, environments, fits as fits_rule, found, gathered, is_node, is_power, left_part, numbers, releasing as releasing_of, row_fault, row_of, rule_step, step as step_of, taken as taken_by, taking as taking_of, type_at, unused_fault};

use crate::rows::{Record, Row, Rule};
use crate::types::{TypeEntry, TypeKind};
use basics::numbers::{RowId, TypeId};
use basics::refusal::Refusal;
use basics::sets::Mask;
use std::alloc::Global;

// Entry t, if the table has it; the qubit is no entry.
// Here and below a number comes with the table whose entry it is. Each call has another number, so a struct of both would
// be made anew for each.
fn entry_at(types: &[TypeEntry], t: TypeId) -> Option<TypeEntry>
    ensures { result ≡ found types.now t.0 }
{
    let i = (t.0 as usize).checked_sub(1)?;
    types.get(i).copied()
}

// Whether entry t of the table is of this kind, with these parts.
fn is_node(types: &[TypeEntry], kind: TypeKind, t: TypeId, left: TypeId, right: TypeId) -> bool
    ensures { result ≡ is_node types.now kind t.0 left.0 right.0 }
{
    entry_at(types, t) == Some(TypeEntry { kind, left, right })
}

// Whether entry t is n qubits.
fn is_power(types: &[TypeEntry], n: u8, t: TypeId) -> bool
    ensures { result ≡ is_power types.now n t.0 }
{
    if n <= 1 {
        return n == 1 && t.0 == 0;
    }
    let Some(entry) = entry_at(types, t) else {
        return false;
    };
    entry.kind == TypeKind::Pair && entry.left.0 == 0 && is_power(types, n - 1, entry.right)
}

// Whether entry t is an arrow from n qubits to n qubits.
fn is_gate(types: &[TypeEntry], n: u8, t: TypeId) -> bool
    ensures { result ≡ (is_node types.now Arrow t.0 (left_part types.now t.0) (left_part types.now t.0) && is_power types.now n (left_part types.now t.0)) }
{
    let Some(entry) = entry_at(types, t) else {
        return false;
    };
    entry.kind == TypeKind::Arrow && entry.right == entry.left && is_power(types, n, entry.left)
}

// Whether entry t is an arrow from the pair of left and right to the type `to`.
fn is_pair_arrow(types: &[TypeEntry], t: TypeId, left: TypeId, right: TypeId, to: TypeId) -> bool
    ensures { result ≡ (is_node types.now Arrow t.0 (left_part types.now t.0) to.0 && is_node types.now Pair (left_part types.now t.0) left.0 right.0) }
{
    let Some(entry) = entry_at(types, t) else {
        return false;
    };
    entry.kind == TypeKind::Arrow
        && entry.right == to
        && is_node(types, TypeKind::Pair, entry.left, left, right)
}

// Whether each premise is below k.
fn all_lower(premises: &[RowId], k: RowId) -> bool
    ensures { result ≡ list_all (λ p. nat_lt p.0 k.0) premises.now }
{
    premises.iter().all(|p| p.0 < k.0)
}

// The taken rows with the premises, if none of these is taken and no two are the same.
// A loop here and in releasing: as try_fold, the chain's result and what its closure needs stayed open in the proof.
fn taking(taken: u128, premises: &[RowId]) -> Option<u128>
    requires { all_below 128 (numbers premises.now) ≡ true }
    ensures { result ≡ taking_of taken (numbers premises.now) }
{
    let mut taken = taken;
    for p in premises {
        if taken.has(p.0) {
            return None;
        }
        taken = taken.with(p.0);
    }
    Some(taken)
}

// The environment less what is bound, if that is in it and no two are the same.
fn releasing(env: u128, bound: &[RowId]) -> Option<u128>
    ensures { result ≡ releasing_of env (numbers bound.now) }
{
    let mut env = env;
    for x in bound {
        if !env.has(x.0) {
            return None;
        }
        env = env.without(x.0);
    }
    Some(env)
}

// What a row adds: the rows that are premises with it, and its environment.
struct Step {
    taken: u128,
    env: u128,
}

// Rows that passed their checks, with their environments and the rows that are premises.
// Rows and environments are two vectors, since the holder lends each as a slice.
#[derive(Drop)]
pub(crate) struct Checked {
    pub(crate) rows: Vec<Row>,
    pub(crate) envs: Vec<u128>,
    taken: u128,
    ghost few: { length rows.items ≤ 128 },
    ghost surrounded: { envs.items ≡ environments rows.items },
    ghost used: { taken ≡ taken_by rows.items },
}

impl Checked {
    fn new(heap: Global) -> Checked
        ensures { result.rows.items ≡ [] }
    {
        Checked {
            rows: Vec::new(heap),
            envs: Vec::new(heap),
            taken: 0,
        }
    }

    // The number of the row behind these.
    fn next(&self) -> RowId
        ensures { result.0 ≡ length self.now.rows.items }
    {
        RowId(self.rows.len() as u8)
    }

    // The type of row r, or the qubit where there is no such row. Only rows below are asked for: an Option would have a `?`
    // that never fires.
    fn type_at(&self, r: RowId) -> TypeId
        ensures { result.0 ≡ type_at self.now.rows.items r.0 }
    {
        let row = self.rows.get(r.0 as usize);
        row.map_or(TypeId(0), |row| row.ty)
    }

    // The environment of row r, or none where there is no such row: as for type_at.
    pub(crate) fn env_at(&self, r: RowId) -> u128
        ensures { result ≡ slice_index (environments self.now.rows.items) r.0 }
    {
        self.envs.get(r.0 as usize).copied().unwrap_or(0)
    }

    // The variables of own and of the premises' environments.
    fn gathered(&self, own: u128, premises: &[RowId]) -> u128
        ensures { result ≡ gathered own (environments self.now.rows.items) (numbers premises.now) }
    {
        premises
            .iter()
            .fold(own, |env, p| env.union(self.env_at(*p)))
    }

    // What a row of these premises adds, if it introduces the variables of own and binds those that are bound.
    fn step(&self, own: u128, premises: &[RowId], bound: &[RowId]) -> Result<Step, Refusal>
        ensures { result ≡ step_of self.now.rows.items own (numbers premises.now) (numbers bound.now) }
    {
        let k = self.next();
        if !all_lower(premises, k) {
            return Err(Refusal::PremiseNotLower(k));
        }
        let taken = taking(self.taken, premises).ok_or(Refusal::PremiseTaken(k))?;
        let env = releasing(self.gathered(own, premises), bound).ok_or(Refusal::NotFree(k))?;
        Ok(Step { taken, env })
    }

    // What a row of this rule adds.
    fn rule_step(&self, rule: Rule) -> Result<Step, Refusal>
        requires { length self.now.rows.items < 128 }
        ensures { result ≡ rule_step self.now.rows.items rule }
    {
        match rule {
            Rule::Variable => self.step(0u128.with(self.next().0), &[], &[]),
            Rule::Zero | Rule::One | Rule::Gate(_) => self.step(0, &[], &[]),
            Rule::Lambda { premise, x } => self.step(0, &[premise], &[x]),
            Rule::PairLambda { premise, x, y } => self.step(0, &[premise], &[x, y]),
            Rule::Apply {
                function: p,
                argument: q,
            }
            | Rule::Pair { left: p, right: q } => self.step(0, &[p, q], &[]),
        }
    }

    // Whether entry t of the table is of this kind, with the types of two rows as its parts.
    fn joins(
        &self,
        types: &[TypeEntry],
        kind: TypeKind,
        t: TypeId,
        left: RowId,
        right: RowId,
    ) -> bool
        ensures { result ≡ is_node types.now kind t.0 (type_at self.now.rows.items left.0) (type_at self.now.rows.items right.0) }
    {
        is_node(types, kind, t, self.type_at(left), self.type_at(right))
    }

    // Whether type t is what the rule gives.
    fn fits(&self, types: &[TypeEntry], t: TypeId, rule: Rule) -> bool
        ensures { result ≡ fits_rule types.now self.now.rows.items t.0 rule }
    {
        match rule {
            Rule::Variable => true,
            Rule::Zero | Rule::One => t.0 == 0,
            Rule::Gate(gate) => is_gate(types, gate.arity(), t),
            Rule::Lambda { premise, x } => self.joins(types, TypeKind::Arrow, t, x, premise),
            Rule::PairLambda { premise, x, y } => {
                let to = self.type_at(premise);
                is_pair_arrow(types, t, self.type_at(x), self.type_at(y), to)
            }
            Rule::Apply { function, argument } => {
                let (f, from) = (self.type_at(function), self.type_at(argument));
                is_node(types, TypeKind::Arrow, f, from, t)
            }
            Rule::Pair { left, right } => self.joins(types, TypeKind::Pair, t, left, right),
        }
    }

    // These rows with that of a record, or what is wrong with it.
    fn with(self, types: &[TypeEntry], read: Record) -> Result<Checked, Refusal>
        requires { length self.rows.items < 128 }
        ensures { Passes (row_fault types.now self.rows.items read) result (λ v. v.rows.items ≡ self.rows.items ++ row_of read ∷ []) }
    {
        let k = self.next();
        if read.ty.0 as usize > types.len() {
            return Err(Refusal::NoSuchType(k));
        }
        let rule = read.rule.ok_or(Refusal::NoSuchGate(k))?;
        let Step { taken, env } = self.rule_step(rule)?;
        if !self.fits(types, read.ty, rule) {
            return Err(Refusal::TypeMismatch(k));
        }
        let Checked {
            mut rows,
            mut envs,
            taken: _,
        } = self;
        rows.push(Row { ty: read.ty, rule })?;
        envs.push(env)?;
        Ok(Checked { rows, envs, taken })
    }

    // The lowest row but the last that is no premise.
    fn unused(&self) -> Option<u8>
        ensures { result ≡ find (λ q. not (member (taken_by self.now.rows.items) q)) (range_with_len 0 (length self.now.rows.items - 1)) }
    {
        let last = self.rows.len().saturating_sub(1) as u8;
        (0..last).find(|q| !self.taken.has(*q))
    }

    // Whether each row but the last is a premise. A match: ok_or takes none for the bad answer, and as map_or, tried, the clause
    // stayed open in the proof.
    pub(crate) fn all_used(&self) -> Result<(), Refusal>
        ensures { result_err result ≡ unused_fault self.now.rows.items }
    {
        match self.unused() {
            Some(q) => Err(Refusal::UnusedRow(RowId(q))),
            None => Ok(()),
        }
    }
}

// The rows of the records, or their first fault.
pub(crate) fn check_rows(
    heap: Global,
    types: &[TypeEntry],
    records: &[Record],
) -> Result<Checked, Refusal>
    requires { length records.now ≤ 128 }
    ensures { Passes (rows_fault types.now records.now) result (λ v. v.rows.items ≡ map row_of records.now) }
{
    let mut checked = Checked::new(heap);
    for read in records {
        checked = checked.with(types, *read)?;
    }
    Ok(checked)
}
