// Channels: which channel each wire has.
ghost use Rattle.std.specs.Prelude.{◌≡◌, ◌≤◌, true, false, map, length, take, is_some, Some, None, MatchOption, MatchResult};
ghost use Rattle.target.specs.Interface.{numbers_of};
ghost use Rattle.channel_map.specs.Channels.{channel_at, channel_of, channels_of, down_from, fitting as fitting_below, seatable, table_fault, up_from};

use basics::numbers::Wire;
use basics::refusal::Refusal;
use basics::sets::Mask;
use std::array;
use target::checks::has;

// The last wire, and the last channel.
const LAST: u8 = 31;

// The channel of each wire. Each of 0 to 31 stands in the table once.
#[derive(Clone, Copy, PartialEq, Eq)]
pub struct Channels {
    table: [u8; 32],
    ghost whole: { length table ≡ 32 },
    ghost faultless: { is_some (table_fault table) ≡ false },
}

// Refuses the first entry that is over 31 or repeats an earlier one.
fn check_table(table: &[u8]) -> Result<(), Refusal>
    ensures { MatchResult result (λ ok. table_fault table.now ≡ None) (λ e. table_fault table.now ≡ Some e) }
{
    for (i, entry) in table.iter().enumerate() {
        if *entry > LAST || table[..i].contains(entry) {
            return Err(Refusal::ChannelEntry(i));
        }
    }
    Ok(())
}

impl Channels {
    pub fn new(table: [u8; 32]) -> Result<Channels, Refusal>
        ensures { MatchResult result (λ c. (table_fault table ≡ None) × (c.table ≡ table)) (λ e. table_fault table ≡ Some e) }
    {
        check_table(&table)?;
        Ok(Channels { table })
    }

    // Wire i on channel i.
    pub fn straight() -> Channels
        ensures { result.table ≡ up_from 0 32 }
    {
        Channels {
            table: array::from_fn(|i| i as u8),
        }
    }

    // Wire i on channel 31 - i.
    pub fn reversed() -> Channels
        ensures { result.table ≡ down_from 32 }
    {
        Channels {
            table: array::from_fn(|i| LAST - i as u8),
        }
    }

    // The channel of a wire; there are 32 wires.
    pub fn channel(&self, w: Wire) -> Option<Wire>
        ensures { result ≡ channel_at self.now.table w.0 }
    {
        self.table.get(w.0 as usize).map(|c| Wire(*c))
    }

    // The wire of a channel.
    pub fn wire(&self, c: Wire) -> Option<Wire>
        ensures { MatchOption result (32 ≤ c.0) (λ w. channel_at self.now.table w.0 ≡ Some c) }
    {
        let w = self.table.iter().position(|channel| *channel == c.0)?;
        Some(Wire(w as u8))
    }

    // The channels of a set of wires. A loop of one branch: in a chain the test and the fold would be two closures over pairs
    // of a number and a channel.
    pub(crate) fn channel_set(&self, wires: u32) -> u32
        ensures { result ≡ channels_of self.now.table wires }
    {
        let mut channels = 0u32;
        for (w, channel) in self.table.iter().enumerate() {
            if has(wires, Wire(w as u8)) {
                channels = channels.with(*channel);
            }
        }
        channels
    }

    // How many wires, from wire 0 on, have a channel below a width.
    pub(crate) fn fitting(&self, width: u8) -> u8
        ensures { result ≡ fitting_below width self.now.table }
    {
        self.table
            .iter()
            .position(|channel| *channel >= width)
            .unwrap_or(32) as u8
    }

    // The channels of a gate's wires, if these are at most three and each below 32; behind them stands wire 0. An array: with
    // an ArrayVec it would be said twice how many there are, for the wires say it. A gate list's seats are these without the
    // table and without a refusal: shared, both would hand in a closure.
    pub(crate) fn seats(&self, wires: &[Wire]) -> Option<[Wire; 3]>
        ensures { MatchOption result (seatable (numbers_of wires.now) ≡ false) (λ b. (seatable (numbers_of wires.now) ≡ true) × (length b ≡ 3) × (numbers_of (take (length wires.now) b) ≡ map (channel_of self.now.table) (numbers_of wires.now))) }
    {
        match wires {
            [] => Some([Wire(0); 3]),
            [a] => Some([self.channel(*a)?, Wire(0), Wire(0)]),
            [a, b] => Some([self.channel(*a)?, self.channel(*b)?, Wire(0)]),
            [a, b, c] => Some([self.channel(*a)?, self.channel(*b)?, self.channel(*c)?]),
            _ => None,
        }
    }
}
