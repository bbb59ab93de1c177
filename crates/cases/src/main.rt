// Runs each case of its standard input and compares: bytes in hexadecimal (a dash for none), a tab, and what is said of
// them, with a semicolon for each line end but the last.
#![tactic(auto)]

ghost use Rattle.std.specs.Prelude.{◌≤◌};

use std::alloc::{AllocError, Global};
use std::io;
use text::forecast::forecast;

// The longest input that the programs look at.
const LIMIT: usize = 2048;

// What a digit counts; any other character counts nothing, as a small letter does.
fn digit(b: u8) -> u8
    ensures { result ≤ 15 }
{
    match b {
        b'0'..=b'9' => b - b'0',
        b'A'..=b'F' => b - b'A' + 10,
        _ => 0,
    }
}

// The bytes that pairs of digits stand for; a last digit alone is left out, and so is the dash.
fn decoded(heap: Global, digits: &str) -> Result<Vec<u8>, AllocError> {
    let (pairs, _) = digits.as_bytes().as_chunks::<2>();
    pairs
        .iter()
        .map(|[high, low]| digit(*high) * 16 + digit(*low))
        .collect(heap)
}

// Whether a text is as expected, where a semicolon stands for a line end.
fn agrees(text: &str, expected: &str) -> bool {
    let Some(lines) = text.strip_suffix("\n") else {
        return false;
    };
    lines.split('\n').eq(expected.split(';'))
}

// Whether the bytes before the tab of a line are answered as the text behind it says.
fn holds(heap: Global, line: &str) -> Result<bool, AllocError> {
    let Some((digits, expected)) = line.split_once('\t') else {
        return Ok(false);
    };
    let bytes = decoded(heap, digits)?;
    let seen = bytes.len().min(LIMIT);
    let text = forecast(heap, &bytes.as_slice()[..seen])?;
    Ok(agrees(text.as_str(), expected))
}

fn main(rt: HostRuntime) -> io::Result<()> {
    let heap = rt.alloc();
    let mut agree = 0u32;
    let mut differ = 0u32;
    for line in rt.lines(heap) {
        let line = line?;
        if holds(heap, line.as_str())? {
            agree = agree.saturating_add(1);
        } else {
            differ = differ.saturating_add(1);
            println!(rt; "differs: {line}")?;
        }
    }
    println!(rt; "{agree} agree, {differ} differ")
}
