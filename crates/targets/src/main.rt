// Plays steps on new targets and prints what was refused and what each target holds then. A line of standard input has a
// kind and steps, and perhaps the same gates in another order, which must then leave the same:
//     layers; begin 3 0 0; h 0; cx 0 1
//     layers; begin 3 0 0; h 0; x 1 | begin 3 0 0; x 1; h 0
// A step is begin with the sets of used wires, given and ones as numbers, or a gate with its wires.
#![tactic(auto)]

use arrayvec::ArrayVec;
use basics::gate::Gate;
use basics::numbers::Wire;
use basics::refusal::Refusal;
use channel_map::ChannelMap;
use channel_map::channels::Channels;
use gate_list::{Applied, GateList};
use layers::Layers;
use register::Register;
use std::alloc::{AllocError, Global};
use std::{array, io};
use target::interface::Target;

const GATES: [Gate; 8] = [
    Gate::H,
    Gate::S,
    Gate::T,
    Gate::X,
    Gate::Z,
    Gate::Cx,
    Gate::Cz,
    Gate::Ccx,
];

// Begins a target, if the sets can be read.
fn begin<T: Target>(target: &mut T, sets: &str) -> Option<Result<(), Refusal>> {
    let (used, rest) = sets.split_once(' ')?;
    let (given, ones) = rest.split_once(' ')?;
    let used = used.parse::<u32>().ok()?;
    let given = given.parse::<u32>().ok()?;
    let ones = ones.parse::<u32>().ok()?;
    Some(target.begin(used, given, ones))
}

// Applies a gate, if it can be read and has at most four wires.
fn apply<T: Target>(target: &mut T, step: &str) -> Option<Result<(), Refusal>> {
    let mut words = step.split_whitespace();
    let word = words.next()?;
    let gate = GATES.into_iter().find(|gate| gate.word() == word)?;
    let mut wires = ArrayVec::<Wire, 4>::new();
    for word in words {
        wires.try_push(Wire(word.parse::<u8>().ok()?)).ok()?;
    }
    Some(target.apply(gate, wires.as_slice()))
}

// Plays the steps, with a line for each that is refused.
fn play<T: Target>(heap: Global, target: &mut T, steps: &str) -> Result<String, AllocError> {
    let mut text = String::new(heap);
    for step in steps.split("; ") {
        let answer = match step.strip_prefix("begin ") {
            Some(sets) => begin(target, sets),
            None => apply(target, step),
        };
        match answer {
            Some(Ok(())) => {}
            Some(Err(refusal)) => write!(text, "{step}: {refusal}\n")?,
            None => text.push_str("a step that cannot be read\n")?,
        }
    }
    Ok(text)
}

// The number of each wire.
fn show_layers(text: &mut String, mut layers: Layers) -> Result<(), AllocError> {
    text.push_str("layers")?;
    for w in 0..32 {
        if let Some(depth) = layers.depth(Wire(w)) {
            write!(text, " {depth}")?;
        }
    }
    text.push_str("\n")
}

// The bit of each wire, and the phase.
fn show_register(text: &mut String, mut register: Register) -> Result<(), AllocError> {
    text.push_str("bits ")?;
    for w in 0..16 {
        let one = register.bit(Wire(w)) == Some(true);
        text.push_str(if one { "1" } else { "0" })?;
    }
    let phase = register.phase();
    write!(text, " phase {phase}\n")
}

// The gates that a wire met, each with its wires in seat order; none for a wire that met none.
fn show_wire(
    heap: Global,
    text: &mut String,
    list: &mut GateList,
    w: Wire,
) -> Result<(), AllocError> {
    let mut gates = String::new(heap);
    // A list is asked record by record.
    for i in 0..list.count() as usize {
        if let Some(record) = list.record(i) {
            if record.seats().contains(&w) {
                write!(gates, ", {record}")?;
            }
        }
    }
    if let Some(gates) = gates.as_str().strip_prefix(", ") {
        let w = w.0;
        write!(text, "wire {w}: {gates}\n")?;
    }
    Ok(())
}

fn show_list(heap: Global, text: &mut String, mut list: GateList) -> Result<(), AllocError> {
    for w in 0..32 {
        show_wire(heap, text, &mut list, Wire(w))?;
    }
    Ok(())
}

// A list with room for six gates.
fn new_list(heap: Global) -> Result<GateList, AllocError> {
    let record = Applied {
        gate: Gate::H,
        wires: [Wire(0); 3],
    };
    Ok(GateList::new(vec![in heap; record; 6]?))
}

// A register that sets wire 1 to 1 if it is given.
fn new_register() -> Register {
    Register::new(0b10)
}

// What is refused when steps are played on a target, and what it shows then.
fn played<T: Target + Drop, F: FnOnce(&mut String, T) -> Result<(), AllocError>>(
    heap: Global,
    mut target: T,
    steps: &str,
    show: F,
) -> Result<String, AllocError>
    requires { F.IsAlwaysCallable show }
{
    let mut text = play(heap, &mut target, steps)?;
    show(&mut text, target)?;
    Ok(text)
}

// The same on a new target of a kind. Those under a map are a list or, under two maps, layers, all reversed, or a register by
// a table of its own.
fn outcome(heap: Global, kind: &str, steps: &str) -> Result<String, AllocError> {
    match kind {
        "layers" => played(heap, Layers::new(), steps, show_layers),
        "register" => played(heap, new_register(), steps, show_register),
        "list" => played(
            heap,
            new_list(heap)?,
            steps,
            |text, list| show_list(heap, text, list),
        ),
        "list reversed" => {
            let map = ChannelMap::new(Channels::reversed(), new_list(heap)?);
            played(
                heap,
                map,
                steps,
                |text, map| show_list(heap, text, map.into_beneath()),
            )
        }
        "layers reversed twice" => {
            let inner = ChannelMap::new(Channels::reversed(), Layers::new());
            let outer = ChannelMap::new(Channels::reversed(), inner);
            played(
                heap,
                outer,
                steps,
                |text, map| show_layers(text, map.into_beneath().into_beneath()),
            )
        }
        _ => match kind.strip_prefix("register by ") {
            Some(numbers) => mapped_outcome(heap, numbers, steps),
            None => format!(in heap; "no such kind\n"),
        },
    }
}

// The same on a register under a map with a table.
fn mapped_outcome(heap: Global, numbers: &str, steps: &str) -> Result<String, AllocError> {
    match Channels::new(table_of(numbers)) {
        Ok(channels) => {
            let map = ChannelMap::new(channels, new_register());
            played(
                heap,
                map,
                steps,
                |text, map| show_register(text, map.into_beneath()),
            )
        }
        Err(refusal) => format!(in heap; "the table: {refusal}\n"),
    }
}

// A table that begins with these numbers and goes on with i at i.
fn table_of(numbers: &str) -> [u8; 32] {
    let mut table = array::from_fn(|i| i as u8);
    for (entry, word) in table.iter_mut().zip(numbers.split_whitespace()) {
        *entry = word.parse::<u8>().unwrap_or(255);
    }
    table
}

// Plays a line's steps, and its other order if it has one.
fn answer(heap: Global, line: &str) -> Result<String, AllocError> {
    let Some((kind, scripts)) = line.split_once("; ") else {
        return format!(in heap; "no kind\n");
    };
    let Some((one, other)) = scripts.split_once(" | ") else {
        return outcome(heap, kind, scripts);
    };
    let mut text = outcome(heap, kind, one)?;
    let second = outcome(heap, kind, other)?;
    let same = text.as_str() == second.as_str();
    text.push_str(if same {
        "the same in both orders\n"
    } else {
        "not the same in both orders\n"
    })?;
    Ok(text)
}

fn main(rt: HostRuntime) -> io::Result<()> {
    let heap = rt.alloc();
    for line in rt.lines(heap) {
        let line = line?;
        println!(rt; "{line}")?;
        rt.print(answer(heap, line.as_str())?)?;
    }
    Ok(())
}
