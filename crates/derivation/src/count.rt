// How many wires, gates, mates and places a derivation has, each counted in one pass.
ghost use Rattle.std.specs.Prelude.{◌≡◌, ℕ, ◌+◌, ◌-◌, ◌*◌, ◌<◌, ◌≤◌, map, length, slice_index};
ghost use Rattle.derivation.specs.Accepted.{Accepted};
ghost use Rattle.derivation.specs.Held.{held_at};
ghost use Rattle.derivation.specs.Judgements.{env_at, tree_at};
ghost use Rattle.derivation.specs.Places.{all_mates, bits, gate_rows, given as given_of, places as places_of, wires as wires_of};
ghost use Rattle.derivation.specs.Rows.{type_at};
ghost use Rattle.derivation.specs.Trees.{atoms as atoms_of, tree, trees};
ghost use Rattle.derivation.specs.Weights.{size_of};

use crate::rows::{Row, Rule};
use crate::types::{Size, TypeEntry};
use basics::numbers::{RowId, TypeId};
use basics::sets::Mask;

// Rows whose types are known, with the sizes of the types, by which wires and places are counted.
// No count reads the types. They say what the sizes are of, which a ghost field, a fact and no list, could not.
#[derive(Clone, Copy)]
pub(crate) struct Measured<'a> {
    pub(crate) types: &'a [TypeEntry],
    pub(crate) sizes: &'a [Size],
    pub(crate) rows: &'a [Row],
    ghost sized: { sizes.now ≡ map size_of (trees types.now) },
    ghost small: { (t : ℕ) → t ≤ length types.now → atoms_of (tree types.now t) ≤ 16 },
    ghost known: { (r : ℕ) → r < length rows.now → type_at rows.now r ≤ length types.now },
    ghost some: { 0 < length rows.now },
    ghost few: { length rows.now ≤ 128 },
}

impl Measured<'_> {
    fn size(&self, t: TypeId) -> Size
        requires { t.0 ≤ length self.now.types.now }
        ensures { result ≡ size_of (tree self.now.types.now t.0) }
    {
        self.sizes[t.0 as usize]
    }

    // The atoms of the type of row x.
    fn atoms(&self, x: RowId) -> u32
        requires { x.0 < length self.now.rows.now }
        ensures { result ≡ atoms_of (tree_at self.now.types.now self.now.rows.now x.0) }
    {
        self.size(self.rows[x.0 as usize].ty).atoms as u32
    }

    // The number of negative places of the last row, whose environment is env:
    // the negative atoms of its type, and the positive atoms of its variables' types.
    fn given(&self, env: u128) -> u32
        requires { env ≡ env_at self.now.rows.now (length self.now.rows.now - 1) }
        ensures counted { result ≡ length (given_of self.now.types.now self.now.rows.now) }
        ensures few { result ≤ 16 + 128 * 16 }
    {
        let last = self.size(self.rows[self.rows.len() - 1].ty);
        let mut count = (last.atoms - last.positive) as u32;
        // A loop: under a chain's `sum`, what `size` requires of each row is not proved.
        for (x, row) in self.rows.iter().enumerate() {
            if env.has(x as u8) {
                count += self.size(row.ty).positive as u32;
            }
        }
        count
    }

    // The number of zero and one rows.
    fn bits(&self) -> u8
        ensures { result ≡ length (bits self.now.rows.now) }
    {
        // A chain here and in `gates`: a function that both share, with the test as a closure, would be no shorter.
        self.rows.iter().filter(|row| row.rule.is_bit()).count() as u8
    }

    // The number of wires: negative places of the last row, whose environment is env, and the zero and one rows.
    pub(crate) fn wires(&self, env: u128) -> u32
        requires { env ≡ env_at self.now.rows.now (length self.now.rows.now - 1) }
        ensures { result ≡ wires_of self.now.types.now self.now.rows.now }
    {
        self.given(env) + self.bits() as u32
    }

    // The number of gate rows.
    pub(crate) fn gates(&self) -> u8
        ensures { result ≡ gate_rows self.now.rows.now }
    {
        self.rows.iter().filter(|row| row.rule.is_gate()).count() as u8
    }

    // The tokens that gates move together, less one for each gate.
    pub(crate) fn mates(&self) -> u32
        ensures { result ≡ all_mates self.now.rows.now }
    {
        self.rows.iter().map(|row| row.rule.mates() as u32).sum()
    }

    // The atoms in the environment of row r, by those of the rows before it.
    fn held(&self, r: usize, before: &[u32]) -> u32
        requires accepted { Accepted self.now.types.now self.now.rows.now }
        requires within { r < length self.now.rows.now }
        requires long { r ≤ length before.now }
        requires known { (p : ℕ) → p < r → slice_index before.now p ≡ held_at self.now.types.now self.now.rows.now p }
        ensures { result ≡ held_at self.now.types.now self.now.rows.now r }
    {
        match self.rows[r].rule {
            Rule::Variable => self.atoms(RowId(r as u8)),
            Rule::Zero | Rule::One | Rule::Gate(_) => 0,
            Rule::Lambda { premise, x } => before[premise.0 as usize] - self.atoms(x),
            Rule::PairLambda { premise, x, y } => {
                before[premise.0 as usize] - self.atoms(x) - self.atoms(y)
            }
            Rule::Apply {
                function: p,
                argument: q,
            }
            | Rule::Pair { left: p, right: q } => before[p.0 as usize] + before[q.0 as usize],
        }
    }

    // The number of places: of each row, those in its variables and those in its type.
    pub(crate) fn places(&self) -> u32
        requires { Accepted self.now.types.now self.now.rows.now }
        ensures { result ≡ length (places_of self.now.types.now self.now.rows.now) }
    {
        // An array as long as the most rows: with a Vec the count would take the heap, and answer a Result.
        let mut held = [0; 128];
        let mut count = 0;
        for (r, row) in self.rows.iter().enumerate() {
            let in_env = self.held(r, &held);
            held[r] = in_env;
            count += in_env + self.size(row.ty).atoms as u32;
        }
        count
    }
}
