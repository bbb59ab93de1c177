// How the wires of a derivation start.
ghost use Rattle.std.specs.Prelude.{◌≡◌, ◌-◌, ◌≤◌, ◌++◌, length, replicate, IfOk};
ghost use Rattle.derivation.specs.Starts.{bit_starts};
ghost use Rattle.derivation.specs.declared.rows.Start.TheVariants.{Given};

use crate::rows::{Row, Start};
use std::alloc::{AllocError, Global};

// How the wires of the zero and one rows start, by rising row.
fn bit_starts(heap: Global, rows: &[Row]) -> Result<Vec<Start>, AllocError>
    ensures { IfOk result (λ v. v.items ≡ bit_starts rows.now) }
{
    rows.iter().filter_map(|row| row.rule.start()).collect(heap)
}

// How each of the wires starts: those that no zero or one row starts are given, and come first.
pub(crate) fn wire_starts(heap: Global, rows: &[Row], wires: u8) -> Result<Vec<Start>, AllocError>
    requires { length (bit_starts rows.now) ≤ wires }
    ensures { IfOk result (λ v. v.items ≡ replicate (wires - length (bit_starts rows.now)) Given ++ bit_starts rows.now) }
{
    let bits = bit_starts(heap, rows)?;
    let given = wires as usize - bits.len();
    let mut starts = vec![in heap; Start::Given; given]?;
    starts.extend_from_slice(bits.as_slice())?;
    Ok(starts)
}
