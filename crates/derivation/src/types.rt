// The type table. Entry 0 is the qubit; each further entry is an arrow or a pair of lower entries.

ghost use Rattle.std.specs.Prelude.{◌≡◌, ◌+◌, ◌<◌, ◌≤◌, map, length, if◌then◌else◌, Some, None, MatchResult, nat_lt};
ghost use Rattle.derivation.specs.Faults.{Checked};
ghost use Rattle.derivation.specs.Trees.{trees, type_fault, types_fault, unfolded};
ghost use Rattle.derivation.specs.Weights.{joined_size, size_of};

use basics::numbers::TypeId;
use basics::refusal::Refusal;
use std::alloc::Global;

#[derive(Clone, Copy, Debug, PartialEq, Eq)]
pub enum TypeKind {
    Arrow,
    Pair,
}

// A further type: an arrow from left to right, or a pair of both.
#[derive(Clone, Copy, Debug, PartialEq, Eq)]
pub struct TypeEntry {
    pub kind: TypeKind,
    pub left: TypeId,
    pub right: TypeId,
}

// How many atoms a type has, and how many of them are positive.
#[derive(Clone, Copy, Debug, PartialEq, Eq)]
pub struct Size {
    pub atoms: u8,
    pub positive: u8,
}

// The size of an arrow or a pair, by those of its parts, if it has at most 16 atoms. It is not the machine's joined, which
// says what atoms are positive and cannot fail.
// An arrow reverses the polarity of its left part.
fn joined(kind: TypeKind, left: Size, right: Size) -> Option<Size>
    requires { (left.positive ≤ left.atoms) × (right.positive ≤ right.atoms) }
    ensures { result ≡ (if nat_lt 16 (left.atoms + right.atoms) then None else Some (joined_size kind left right)) }
{
    let atoms = left.atoms as u16 + right.atoms as u16;
    if atoms > 16 {
        return None;
    }
    let turned = match kind {
        TypeKind::Arrow => left.atoms - left.positive,
        TypeKind::Pair => left.positive,
    };
    Some(Size {
        atoms: atoms as u8,
        positive: turned + right.positive,
    })
}

// The size of an entry behind those of a table, or what is wrong with it.
fn entry_size(before: &[TypeEntry], sizes: &[Size], entry: TypeEntry) -> Result<Size, Refusal>
    requires few { length before.now < 64 }
    requires sized { sizes.now ≡ map size_of (trees before.now) }
    ensures { MatchResult result (λ s. (type_fault before.now entry ≡ None) × (s ≡ size_of (unfolded (trees before.now) entry))) (λ e. type_fault before.now entry ≡ Some e) }
{
    let number = before.len() as u8 + 1;
    if entry.left.0 >= number || entry.right.0 >= number {
        return Err(Refusal::PartNotLower(TypeId(number)));
    }
    if before.contains(&entry) {
        return Err(Refusal::RepeatedType(TypeId(number)));
    }
    let left = sizes[entry.left.0 as usize];
    let right = sizes[entry.right.0 as usize];
    joined(entry.kind, left, right).ok_or(Refusal::TooManyAtoms(TypeId(number)))
}

// The sizes of a table's types, from entry 0 on, or the table's first fault.
pub(crate) fn type_sizes(heap: Global, types: &[TypeEntry]) -> Result<Vec<Size>, Refusal>
    requires { length types.now ≤ 64 }
    ensures { Checked (types_fault types.now) result (λ v. v.items ≡ map size_of (trees types.now)) }
{
    let mut sizes = Vec::new(heap);
    sizes.push(Size {
        atoms: 1,
        positive: 1,
    })?;
    // A loop, and no chain: each size is made from those before it, and the first fault ends it.
    for (i, entry) in types.iter().enumerate() {
        let size = entry_size(&types[..i], sizes.as_slice(), *entry)?;
        sizes.push(size)?;
    }
    Ok(sizes)
}
