// Classes of bytes, and runs of one class.
ghost use Rattle.std.specs.Prelude.{◌≡◌, ◌≤◌, length};
ghost use Rattle.lexer.specs.declared.class.Class.TheVariants.{Letter, Digit, Blank};
ghost use Rattle.lexer.specs.Classes.{run};

/// What the definitions sort bytes into. The code has a test for each class, so that no byte of a run is sorted into all of them.
#[derive(Clone, Copy, PartialEq, Eq)]
pub enum Class {
    Letter,
    Digit,
    Blank,
    // any other byte, a token by itself
    Mark,
}

pub(crate) fn letters(s: &[u8]) -> usize
    ensures is { result ≡ run Letter s.now }
    ensures within { result ≤ length s.now }
{
    s.iter().take_while(|b| b.is_ascii_alphabetic()).count()
}

pub(crate) fn digits(s: &[u8]) -> usize
    ensures is { result ≡ run Digit s.now }
    ensures within { result ≤ length s.now }
{
    s.iter().take_while(|b| b.is_ascii_digit()).count()
}

pub(crate) fn blanks(s: &[u8]) -> usize
    ensures is { result ≡ run Blank s.now }
    ensures within { result ≤ length s.now }
{
    s.iter().take_while(|&&b| b == b' ').count()
}
