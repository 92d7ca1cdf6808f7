// Texts cut at a byte, and numbers as they are written: an optional `-` and 1 to 8 digits.

#![tactic(auto)]

ghost use Rattle.std.specs.Prelude.{◌≡◌, ◌≤◌, length, ℤ, pos, neg_ℤ, ◌≤ℤ◌, Some, IfSome};
ghost use Rattle.words.specs.Cuts.{until};
ghost use Rattle.words.specs.Numbers.{all_digits, natural_of, number_of, NumberIs};

use lexer::digits;

const MAX_DIGITS: usize = 8;

// How many bytes stand before the first `stop`, or all. One line: a function of the test would be as long.
pub fn len_until(text: &[u8], stop: u8) -> usize
    ensures is { result ≡ until stop text.now }
    ensures within { result ≤ length text.now }
{
    text.iter().take_while(|&&b| b != stop).count()
}

fn is_digits(text: &[u8]) -> bool
    ensures { result ≡ all_digits text.now }
{
    text.iter().all(u8::is_ascii_digit)
}

// 1 to 8 digits.
fn natural(text: &[u8]) -> Option<i32>
    ensures is { result ≡ natural_of text.now }
    ensures low { IfSome result (λ n. pos 0 ≤ℤ n) }
{
    if text.is_empty() || text.len() > MAX_DIGITS || !is_digits(text) {
        return None;
    }
    Some(digits::number(text) as i32)
}

fn signed(text: &[u8]) -> Option<i32>
    ensures { result ≡ number_of text.now }
{
    match text {
        [b'-', rest @ ..] => natural(rest).map(|n| -n),
        _ => natural(text),
    }
}

// The number that the text is, exactly if the grammar has it.
pub fn number(text: &[u8]) -> Option<i32>
    ensures is { result ≡ number_of text.now }
    ensures reads { (n : ℤ) → NumberIs text.now n → result ≡ Some n }
    ensures only { IfSome result (NumberIs text.now) }
{
    signed(text)
}
