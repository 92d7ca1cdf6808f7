// Reads many inputs from standard input, each up to a line `----`, and prints the report on each.

#![tactic(auto)]

ghost use Rattle.std.specs.Prelude.{◌<◌, length, IfSome, MatchOption};
ghost use Rattle.batch.specs.Inputs.{Unmarked, FirstInput};
ghost use Rattle.console.specs.Lines.{lines_of};

use console::input::report_on;
use console::lines::first_line;
use std::io::Read;

// The first input, and what follows the line behind it.
fn first_input(text: &[u8]) -> Option<(&[u8], &[u8])>
    ensures cut { MatchOption result (Unmarked (lines_of text.now)) (λ p. FirstInput text.now p.0.now p.1.now) }
    ensures shorter { IfSome result (λ p. length p.1.now < length text.now) }
{
    // Not a `for`: the answer is cut where the line that is looked at begins.
    let mut rest = text;
    while let Some((line, more)) = first_line(rest) {
        if line == b"----".as_slice() {
            return Some((&text[..text.len() - rest.len()], more));
        }
        rest = more;
    }
    None
}

fn main(rt: HostRuntime) -> anyhow::Result<()> {
    let mut bytes = Vec::new(rt.alloc());
    rt.stdin().read_to_end(&mut bytes)?;
    // Each input is cut off by the marker behind it, so what is left is handed on; an iterator for this one loop would be longer.
    let mut rest = bytes.as_slice();
    while let Some((input, more)) = first_input(rest) {
        let report = report_on(input);
        println!(rt; "{report}")?;
        rest = more;
    }
    Ok(())
}
