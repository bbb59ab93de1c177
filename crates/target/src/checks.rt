// The checks that all kinds of targets share; a maker of a new kind may call them too.
ghost use Rattle.std.specs.Prelude.{◌≡◌, ◌^◌, true, if◌then◌else◌, nat_lt};
ghost use Rattle.derivation.specs.Rows.{all_below, all_in};
ghost use Rattle.basics.specs.Sets.{has as member};
ghost use Rattle.target.specs.Interface.{numbers_of, seated as seated_in, sets_fit};

use basics::gate::Gate;
use basics::numbers::Wire;
use basics::refusal::Refusal;
use basics::sets::Mask;

// Whether w is in the set.
pub fn has(set: u32, w: Wire) -> bool
    ensures { result ≡ member set w.0 }
{
    set.has(w.0)
}

// Whether all wires are in the set, and no two are equal. A loop, since the set shrinks on the way: try_fold with then
// says the same in more words. One function with derivation's releasing would go over bare numbers, which wires and rows
// are not.
fn all_in(set: u32, wires: &[Wire]) -> bool
    ensures { result ≡ all_in set (numbers_of wires.now) }
{
    let mut left = set;
    for w in wires {
        if !has(left, *w) {
            return false;
        }
        left = left.without(w.0);
    }
    true
}

// Whether the wires are as many as the gate's seats, all in use, and no two equal.
pub(crate) fn seated(used: u32, gate: Gate, wires: &[Wire]) -> bool
    ensures answer { result ≡ seated_in used gate (numbers_of wires.now) }
    ensures low { result ≡ true → all_below 32 (numbers_of wires.now) ≡ true }
{
    wires.len() == gate.arity() as usize && all_in(used, wires)
}

// Whether all of the set is below the width.
fn below(set: u32, width: u8) -> bool
    ensures { result ≡ nat_lt set (2 ^ width) }
{
    width >= 32 || set >> width == 0
}

// Whether the sets of a begin fit the width.
pub fn check_begin(width: u8, used: u32, given: u32, ones: u32) -> Result<(), Refusal>
    ensures { result ≡ (if sets_fit width used given ones then Ok tt else Err Refusal.WireSets) }
{
    if below(used, width) && given & ones == 0 && given & used == given && ones & used == ones {
        Ok(())
    } else {
        Err(Refusal::WireSets)
    }
}
