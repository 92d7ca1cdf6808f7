// Reads a script of session commands from standard input, and answers it line by line.

#![tactic(auto)]

use desk::stretch::write_answers;
use std::io::{LineWriter, Read};

fn main(rt: HostRuntime) -> anyhow::Result<()> {
    let mut answers = LineWriter::new(rt.alloc(), rt.stdout())?;
    let mut script = Vec::new(rt.alloc());
    rt.stdin().read_to_end(&mut script)?;
    write_answers(&mut answers, script.as_slice())?;
    Ok(())
}
