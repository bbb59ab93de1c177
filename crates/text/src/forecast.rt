// What is known of a derivation before anything moves, as text.
ghost use Rattle.std.specs.Prelude.{◌≡◌, true, ◌++◌, map, IfOk, string_bytes, OnOk};
ghost use Rattle.theory.specs.Finals.{end_wires, followed};
ghost use Rattle.theory.specs.Ports.{is_place, starts as starts_of};
ghost use Rattle.theory.specs.Theory.{Promised};
ghost use Rattle.theory.specs.Tokens.{wire_at};
ghost use Rattle.text.specs.Booking.{derivation_text};
ghost use Rattle.text.specs.Forecast.{end_lines, forecast_text};

use crate::booking::{derivation_text, held, refusal_line};
use derivation::holder::Holder;
use derivation::rows::Place;
use machine::machine::{Machine, position};
use std::alloc::{AllocError, Global};

// Where next leads from a place, followed at most so many times.
fn follow(machine: &Machine, place: Place, times: u32) -> Place
    requires { is_place machine.now.types.items machine.now.rows.items place ≡ true }
    ensures { result ≡ followed machine.now.types.items machine.now.rows.items times place }
{
    let mut p = place;
    for _ in 0..times {
        let Some(q) = machine.next(p) else {
            return p;
        };
        p = q;
    }
    p
}

// The last place of each wire, where none goes further than so many steps. A loop: of a chain that is collected, what follow
// asks of each start stayed open in the proof.
fn last_places(heap: Global, machine: &Machine, times: u32) -> Result<Vec<Place>, AllocError>
    ensures { IfOk result (λ v. v.items ≡ map (followed machine.now.types.items machine.now.rows.items times) (starts_of machine.now.types.items machine.now.rows.items)) }
{
    let mut places = Vec::new(heap);
    for start in machine.starts() {
        places.push(follow(machine, *start, times))?;
    }
    Ok(places)
}

// Appends a line for each end: its number and the wire that will stand there. Shared with the lines of wires, it would take
// the line as a closure, whose clause would be longer than the loop.
fn push_end_lines(text: &mut String, ends: &[Place], places: &[Place]) -> Result<(), AllocError>
    ensures { OnOk result (string_bytes text.new ≡ string_bytes text.old ++ end_lines 0 (map (wire_at places.now) ends.now)) }
{
    for (end, place) in ends.iter().enumerate() {
        let wire = position(places, *place);
        write!(text, "end {end} {wire}\n")?;
    }
    Ok(())
}

// What is said of a held derivation.
fn held_text(heap: Global, holder: &Holder) -> Result<String, AllocError>
    ensures { IfOk result (λ s. string_bytes s ≡ derivation_text holder.now.types.items holder.now.rows.items ++ end_lines 0 (end_wires holder.now.types.items holder.now.rows.items)) }
{
    let mut text = derivation_text(heap, holder)?;
    let machine = Machine::new(heap, holder).map_err(|_| AllocError)?;
    let places = last_places(heap, &machine, holder.moves())?;
    push_end_lines(&mut text, machine.ends(), places.as_slice())?;
    Ok(text)
}

// What is said of some bytes before anything moves: the numbers of their derivation, how each wire starts and which wire
// will stand at each end; or the refusal. If they are a derivation, all that is promised of its machine holds.
pub fn forecast(heap: Global, bytes: &[u8]) -> Result<String, AllocError>
    ensures text { IfOk result (λ s. string_bytes s ≡ forecast_text bytes.now) }
    ensures theory { Promised bytes.now }
{
    // As in booking: shared, these lines would take what is said of a holder as a closure, whose clause would be longer.
    match held(heap, bytes)? {
        Ok(holder) => held_text(heap, &holder),
        Err(refusal) => refusal_line(heap, refusal),
    }
}
