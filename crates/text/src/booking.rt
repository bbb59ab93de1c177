// What is said of some bytes before anything moves: the numbers of their derivation, or the refusal.
ghost use Rattle.std.specs.Prelude.{◌≡◌, ◌++◌, IfOk, OnOk, Ok, Err, MatchResult, string_bytes};
ghost use Rattle.derivation.specs.Format.{derivation_of};
ghost use Rattle.text.specs.Booking.{booking_text, counts_line, derivation_text, refusal_line, start_lines};

use basics::refusal::Refusal;
use derivation::holder::Holder;
use derivation::rows::Start;
use std::alloc::{AllocError, Global};

// The line of a refusal.
pub fn refusal_line(heap: Global, refusal: Refusal) -> Result<String, AllocError>
    ensures { IfOk result (λ s. string_bytes s ≡ refusal_line refusal) }
{
    format!(in heap; "{refusal}\n")
}

// The line of a derivation's numbers.
fn counts_line(heap: Global, wires: u8, gates: u8, moves: u32) -> Result<String, AllocError>
    ensures { IfOk result (λ s. string_bytes s ≡ counts_line wires gates moves) }
{
    format!(in heap; "wires {wires} gates {gates} moves {moves}\n")
}

// Appends a line for each wire: its number and how it starts. Why it shares no loop with push_end_lines stands there.
fn push_start_lines(text: &mut String, starts: &[Start]) -> Result<(), AllocError>
    ensures { OnOk result (string_bytes text.new ≡ string_bytes text.old ++ start_lines 0 starts.now) }
{
    for (wire, start) in starts.iter().enumerate() {
        write!(text, "{wire} {start}\n")?;
    }
    Ok(())
}

// The numbers of a held derivation, and how each of its wires starts.
pub fn derivation_text(heap: Global, holder: &Holder) -> Result<String, AllocError>
    ensures { IfOk result (λ s. string_bytes s ≡ derivation_text holder.now.types.items holder.now.rows.items) }
{
    let mut text = counts_line(heap, holder.wires(), holder.gate_rows(), holder.moves())?;
    let starts = holder.starts(heap).map_err(|_| AllocError)?;
    push_start_lines(&mut text, starts.as_slice())?;
    Ok(text)
}

// A holder that has read the bytes, or why it refused them. The other error is a lack of memory.
pub(crate) fn held(heap: Global, bytes: &[u8]) -> Result<Result<Holder, Refusal>, AllocError>
    ensures { IfOk result (λ read. MatchResult read (λ h. derivation_of bytes.now ≡ Ok (record { types = h.types.items; rows = h.rows.items })) (λ e. derivation_of bytes.now ≡ Err e)) }
{
    let mut holder = Holder::new(heap).map_err(|_| AllocError)?;
    match holder.read(heap, bytes) {
        Ok(()) => Ok(Ok(holder)),
        Err(Refusal::OutOfMemory(_)) => Err(AllocError),
        Err(refusal) => Ok(Err(refusal)),
    }
}

// What is said of some bytes before anything moves: the numbers of their derivation, or the refusal.
pub fn booking(heap: Global, bytes: &[u8]) -> Result<String, AllocError>
    ensures { IfOk result (λ s. string_bytes s ≡ booking_text bytes.now) }
{
    // Why these lines are not shared with forecast stands there.
    match held(heap, bytes)? {
        Ok(holder) => derivation_text(heap, &holder),
        Err(refusal) => refusal_line(heap, refusal),
    }
}
