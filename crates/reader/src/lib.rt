// The reader: from the text of a line to the stored line, or to why and where it is refused.

#![tactic(auto)]

ghost use Rattle.std.specs.Prelude.{◌≡◌, ◌<◌, length, MatchOption};
ghost use Rattle.std.specs.List.{list_all};
ghost use Rattle.grammar.specs.Answer.{answer, permitted, clear};
ghost use Rattle.grammar.specs.Law.{TheAnswer};

use crate::reader::Reader;
use grammar::refusal::{Cause, Refusal};
use model::line::Line;

mod axes;
mod classify;
mod expect;
mod reader;
mod term;

/// The length of the longest text that is read, in bytes.
pub const MAX_TEXT: usize = 120;

fn allowed(b: u8) -> bool
    ensures { result ≡ permitted b }
{
    b.is_ascii_graphic() || b == b' '
}

// Without a branch for each byte, so that many are tested at once.
fn all_allowed(text: &[u8]) -> bool
    ensures { result ≡ list_all permitted text.now }
{
    text.iter().fold(true, |so_far, &b| so_far & allowed(b))
}

// Where the first byte stands that no line has.
fn first_forbidden(text: &[u8]) -> Option<usize>
    ensures { MatchOption result (clear text.now ≡ length text.now) (λ i. (clear text.now ≡ i) × (i < length text.now)) }
{
    if all_allowed(text) {
        return None;
    }
    text.iter().position(|&b| !allowed(b))
}

/// The line that the text is: the one answer that the grammar gives.
///
/// Refused are a text longer than `MAX_TEXT`, at `MAX_TEXT`; one with a byte that no text may hold, at the first such byte; and one that
/// is no line, at the first token with which no line goes on, or at its end.
pub fn read(text: &[u8]) -> Result<Line, Refusal>
    ensures law { TheAnswer text.now result }
    ensures is { result ≡ answer text.now }
{
    if text.len() > MAX_TEXT {
        return Err(Refusal {
            cause: Cause::Length,
            place: MAX_TEXT,
        });
    }
    if let Some(place) = first_forbidden(text) {
        return Err(Refusal {
            cause: Cause::Byte,
            place,
        });
    }
    let mut reader = Reader::new(text);
    reader.line()
}
