// Runs each derivation of its standard input, a line of hexadecimal each, twice: the lowest wire that can move goes first, and
// then the highest. Prints the gates as they were applied in each order and where the tokens came to rest, and whether every
// wire met the same gates and came to the same end.
#![tactic(auto)]

use basics::gate::Gate;
use basics::numbers::Wire;
use basics::refusal::Refusal;
use derivation::holder::Holder;
use gate_list::{Applied, GateList};
use machine::machine::Machine;
use run::run::Run;
use std::alloc::{AllocError, Global};
use std::io;

// As many records as a derivation can have gate rows.
const RECORDS: usize = 128;

fn new_list(heap: Global) -> Result<GateList, AllocError> {
    let record = Applied {
        gate: Gate::H,
        wires: [Wire(0); 3],
    };
    Ok(GateList::new(vec![in heap; record; RECORDS]?))
}

// Moves the highest wire that can move. Answers whether there was one.
fn move_highest(run: &mut Run, list: &mut GateList, wires: u8) -> bool {
    for w in (0..wires).rev() {
        if run.move_wire(list, Wire(w)).is_ok() {
            return true;
        }
    }
    false
}

// A run of the derivation in an order of moves, and its list of gates.
fn walked(heap: Global, holder: &Holder, highest: bool) -> Result<(Run, GateList), Refusal> {
    let mut list = new_list(heap)?;
    let mut run = Run::new(heap)?;
    run.open(heap, holder, &mut list)?;
    if highest {
        for _ in 0..holder.moves() {
            if !move_highest(&mut run, &mut list, holder.wires()) {
                break;
            }
        }
    } else {
        run.sweep(&mut list, holder.moves())?;
    }
    Ok((run, list))
}

// The gates that are a wire's, in order; of no wire, all gates.
fn show_gates(
    text: &mut String,
    list: &mut GateList,
    wire: Option<Wire>,
) -> Result<(), AllocError> {
    // A list is asked record by record.
    for i in 0..list.count() as usize {
        if let Some(record) = list.record(i) {
            if wire.is_none_or(|w| record.seats().contains(&w)) {
                write!(text, "{record}\n")?;
            }
        }
    }
    Ok(())
}

// The end at which each wire's token stands, and the moves that were made.
fn show_ends(text: &mut String, machine: &Machine, run: &Run) -> Result<(), AllocError> {
    for w in 0..machine.wires() {
        let place = run.place(Wire(w));
        let end = place.ok().and_then(|p| machine.end_number(p));
        match end {
            Some(end) => {
                let end = end.0;
                write!(text, "wire {w} end {end}\n")?;
            }
            None => write!(text, "wire {w} on its way\n")?,
        }
    }
    let moves = run.moves();
    write!(text, "moves {moves}\n")
}

// What can be told of a list without the order of gates that share no wire, and of the ends.
fn outcome(
    heap: Global,
    machine: &Machine,
    run: &Run,
    list: &mut GateList,
) -> Result<String, AllocError> {
    let mut text = String::new(heap);
    for w in 0..machine.wires() {
        write!(text, "wire {w}\n")?;
        show_gates(&mut text, list, Some(Wire(w)))?;
    }
    show_ends(&mut text, machine, run)?;
    Ok(text)
}

// The gates of a run in the order in which they were applied, under a heading.
fn show_order(text: &mut String, heading: &str, list: &mut GateList) -> Result<(), AllocError> {
    write!(text, "{heading}\n")?;
    show_gates(text, list, None)
}

// What both orders make of a derivation.
fn compared(heap: Global, holder: &Holder) -> Result<String, Refusal> {
    let machine = Machine::new(heap, holder)?;
    let (low, mut low_list) = walked(heap, holder, false)?;
    let (high, mut high_list) = walked(heap, holder, true)?;
    let mut text = String::new(heap);
    show_order(&mut text, "lowest first", &mut low_list)?;
    show_order(&mut text, "highest first", &mut high_list)?;
    show_ends(&mut text, &machine, &low)?;
    let one = outcome(heap, &machine, &low, &mut low_list)?;
    let other = outcome(heap, &machine, &high, &mut high_list)?;
    let same = one.as_str() == other.as_str();
    text.push_str(if same {
        "the same on every wire\n"
    } else {
        "not the same on every wire\n"
    })?;
    Ok(text)
}

// The same of bytes that a holder can read.
fn answer(heap: Global, bytes: &[u8]) -> Result<String, Refusal> {
    let mut holder = Holder::new(heap)?;
    holder.read(heap, bytes)?;
    compared(heap, &holder)
}

fn main(rt: HostRuntime) -> io::Result<()> {
    let heap = rt.alloc();
    for line in rt.lines(heap) {
        let line = line?;
        println!(rt; "{line}")?;
        match hex::decode(heap, line.as_bytes()) {
            Ok(bytes) => match answer(heap, bytes.as_slice()) {
                Ok(text) => rt.print(text)?,
                Err(refusal) => println!(rt; "{refusal}")?,
            },
            Err(_) => println!(rt; "no digits")?,
        }
    }
    Ok(())
}
