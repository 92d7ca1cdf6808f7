// The kinds of tokens.

/// What a token is by its first byte: a run of letters, a run of digits, one of `#`, `[`, `]`, `+`, `-`, `*`, `=`, or any other byte.
#[derive(Clone, Copy)]
pub enum Kind {
    Letters,
    Digits,
    Hash,
    Open,
    Close,
    Plus,
    Minus,
    Star,
    Equals,
    Other,
}
