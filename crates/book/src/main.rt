// Prints what is known of the derivation on standard input before anything moves.
#![tactic(auto)]

use std::io;
use std::io::Read;
use text::forecast::forecast;

// More bytes than any derivation has.
const LIMIT: u64 = 2048;

fn main(rt: HostRuntime) -> io::Result<()> {
    let heap = rt.alloc();
    let mut bytes = Vec::new(heap);
    rt.stdin().take(LIMIT).read_to_end(&mut bytes)?;
    rt.print(forecast(heap, bytes.as_slice())?)
}
