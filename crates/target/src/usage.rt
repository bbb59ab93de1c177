// The wires in use and the gates since begin, which every kind that keeps them itself checks and counts alike.
ghost use Rattle.std.specs.Prelude.{◌≡◌, true, OnOk};
ghost use Rattle.derivation.specs.Rows.{all_below};
ghost use Rattle.target.specs.Interface.{numbers_of};
ghost use Rattle.target.specs.Usage.{usage_applied, usage_begun};

use crate::checks::{check_begin, seated};
use basics::gate::Gate;
use basics::numbers::Wire;
use basics::refusal::Refusal;

// The set of wires in use, and how many gates were applied since begin.
#[derive(Clone, Copy, PartialEq, Eq)]
pub struct Usage {
    pub used: u32,
    pub count: u32,
}

impl Usage {
    // After a begin with these sets, if they fit the width.
    pub fn begun(width: u8, used: u32, given: u32, ones: u32) -> Result<Usage, Refusal>
        ensures { result ≡ usage_begun width used given ones }
    {
        check_begin(width, used, given, ones)?;
        Ok(Usage { used, count: 0 })
    }

    // After one gate more, or what is wrong with it: its code, its wires, or the number of gates so far. It is told whether
    // the code is taken: a type parameter for that alone would be written at each call.
    pub fn applied(
        self,
        taken: bool,
        capacity: u32,
        gate: Gate,
        wires: &[Wire],
    ) -> Result<Usage, Refusal>
        ensures answer { result ≡ usage_applied taken capacity self gate (numbers_of wires.now) }
        ensures low { OnOk result (all_below 32 (numbers_of wires.now) ≡ true) }
    {
        if !taken {
            return Err(Refusal::NotTaken(gate));
        }
        if !seated(self.used, gate, wires) {
            return Err(Refusal::WireMisuse(gate));
        }
        if self.count >= capacity {
            return Err(Refusal::AtCapacity(gate));
        }
        Ok(Usage {
            count: self.count + 1,
            ..self
        })
    }
}
