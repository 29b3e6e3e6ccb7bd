//! Says in plain words what a checker's input is: reads it from standard input, and prints the
//! device, the property and how much was read, or which sheet is refused and why.
#![tactic(auto)]

use description::describe;
use std::io;
use std::io::Read;

/// The most bytes that are read; what lies beyond is no part of the input.
const MOST: u64 = 65_536;

fn main(rt: HostRuntime) -> io::Result<()> {
    let mut input = Vec::new(rt.alloc());
    rt.stdin().take(MOST).read_to_end(&mut input)?;
    let text = describe(rt.alloc(), input.as_slice())?;
    print!(rt; "{text}")
}
