// Range lines: `?` and a digit, and two numbers, each after one blank.
ghost use Rattle.std.specs.Prelude.{◌≡◌, IfSome, Some};
ghost use Rattle.console.specs.RangeLines.{pair_of, range_of, RangeIs};

use model::range::Range;
use words::number;

// The range of values that a parameter may have; the parameter by its number, since numbers of none are refused later.
#[derive(Clone, Copy)]
pub struct RangeLine {
    pub parameter: u8,
    pub range: Range,
}

fn two_numbers(parameter: u8, text: &[u8]) -> Option<RangeLine>
    ensures { result ≡ pair_of parameter text.now }
{
    let blank = text.iter().position(|&b| b == b' ')?;
    let lo = number(&text[..blank])?;
    let hi = number(&text[blank + 1..])?;
    Some(RangeLine {
        parameter,
        range: Range { lo, hi },
    })
}

fn parsed(line: &[u8]) -> Option<RangeLine>
    ensures { result ≡ range_of line.now }
{
    match line {
        [b'?', d, b' ', rest @ ..] if d.is_ascii_digit() => two_numbers(*d - b'0', rest),
        _ => None,
    }
}

// The range line that the text is, exactly if the grammar has it.
pub fn read_range(line: &[u8]) -> Option<RangeLine>
    ensures is { result ≡ range_of line.now }
    ensures reads { (a : RangeLine) → RangeIs line.now a → result ≡ Some a }
    ensures only { IfSome result (λ a. RangeIs line.now a) }
{
    parsed(line)
}
