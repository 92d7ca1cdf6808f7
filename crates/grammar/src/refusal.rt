// Why and where a text is no line.
ghost use Rattle.std.specs.Prelude.{◌≡◌};
ghost use Rattle.grammar.specs.Causes.{number_of};

/// Why a text is no line.
#[derive(Clone, Copy)]
pub enum Cause {
    /// The text is longer than any that is read.
    Length,
    /// It holds a byte that no text may hold.
    Byte,
    /// A token does not belong there, or the text ends too early.
    Unexpected,
    /// A number is out of bounds, where one may stand.
    Limit,
    /// The move has named this axis before.
    Twice,
}

impl Cause {
    /// The number by which the refusal is printed; `u32::from` would not say which number it gives.
    pub fn number(self) -> u32
        ensures { result ≡ number_of self }
    {
        match self {
            Cause::Length => 11,
            Cause::Byte => 12,
            Cause::Unexpected => 13,
            Cause::Limit => 14,
            Cause::Twice => 15,
        }
    }
}

/// Why a text is no line, and at which byte, counted from 0; a text that ends too early is refused at its length.
#[derive(Clone, Copy)]
pub struct Refusal {
    pub cause: Cause,
    pub place: usize,
}
