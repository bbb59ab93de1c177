// A channel map: a target whose wires are the channels of the target beneath, by another order.
#![tactic(auto)]

pub mod channels;
pub mod laws;

ghost use Rattle.std.specs.Prelude.{◌≡◌};
ghost use Rattle.channel_map.specs.Channels.{Table, mapped_applied, mapped_begun, mapped_view};
ghost use Rattle.channel_map.specs.ChannelMapLaws.{map_commutes};

use crate::channels::Channels;
use basics::gate::Gate;
use basics::numbers::Wire;
use basics::refusal::Refusal;
use target::checks::check_begin;
use target::interface::Target;

// Each wire of the map is one channel of the target beneath.
#[derive(Drop)]
pub struct ChannelMap<T> {
    channels: Channels,
    beneath: T,
}

impl<T> ChannelMap<T> {
    pub fn new(channels: Channels, beneath: T) -> ChannelMap<T>
        ensures { result ≡ record { channels = channels; beneath = beneath } }
    {
        ChannelMap { channels, beneath }
    }

    // The target beneath, to be asked its own questions.
    pub fn into_beneath(self) -> T
        ensures { result ≡ self.beneath }
    {
        self.beneath
    }
}

impl<T: Target> Target for ChannelMap<T> {
    const CODES: u16 = T::CODES;

    ghost CODES = { T.CODES };

    ghost State = { Table × T.State };

    ghost view = { λ m. mapped_view (record { entries = m.channels.table; whole = m.channels.whole; faultless = m.channels.faultless }) (T.view m.beneath) };

    ghost taken = { T.taken };

    ghost begun = { mapped_begun T.begun };

    ghost applied = { mapped_applied T.applied };

    ghost commutes = { map_commutes T.taken T.applied T.commutes };

    ghost coded = { T.coded };

    // The wires from 0 on whose channels the target beneath has room for.
    fn width(&mut self) -> u8 {
        let beneath = self.beneath.width();
        self.channels.fitting(beneath)
    }

    fn capacity(&mut self) -> u32 {
        self.beneath.capacity()
    }

    // A wire at or above the width can have a channel below the width beneath, so the map checks the sets itself.
    fn begin(&mut self, used: u32, given: u32, ones: u32) -> Result<(), Refusal> {
        check_begin(self.width(), used, given, ones)?;
        let used = self.channels.channel_set(used);
        let given = self.channels.channel_set(given);
        let ones = self.channels.channel_set(ones);
        self.beneath.begin(used, given, ones)
    }

    fn apply(&mut self, gate: Gate, wires: &[Wire]) -> Result<(), Refusal> {
        // A match: which refusal it is depends on the gate, and is asked only where there are no seats.
        match self.channels.seats(wires) {
            Some(seats) => self.beneath.apply(gate, &seats[..wires.len()]),
            None => Err(if T::takes(gate) {
                Refusal::WireMisuse(gate)
            } else {
                Refusal::NotTaken(gate)
            }),
        }
    }
}
