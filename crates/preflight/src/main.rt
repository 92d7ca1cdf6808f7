// Reads standard input, and prints the report on it.

#![tactic(auto)]

use console::input::{MAX_INPUT, report_on};
use std::io;
use std::io::Read;

// One byte more than the longest input, so that a longer one shows.
const ROOM: u64 = MAX_INPUT as u64 + 1;

fn main(rt: HostRuntime) -> io::Result<()> {
    let mut input = Vec::new(rt.alloc());
    let _ = rt.stdin().take(ROOM).read_to_end(&mut input)?;
    let report = report_on(input.as_slice());
    println!(rt; "{report}")
}
