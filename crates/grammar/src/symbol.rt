// What a token is to the grammar, apart from where it stands, and what it is taken for where it stands.
use model::expression::{Rel, Term};
use model::line::Axis;

/// The tokens that the grammar spells out.
#[derive(Clone, Copy, PartialEq, Eq)]
pub enum Keyword {
    Hash,
    Open,
    Close,
    Plus,
    Minus,
    Star,
    Equals,
    G,
    O,
    While,
    If,
    EndIf,
    EndWhile,
}

/// What a token is, wherever it stands.
#[derive(Clone, Copy)]
pub enum Symbol {
    Fixed(Keyword),
    /// At most eight digits, by their number.
    Digits(u32),
    /// More than eight digits.
    Long,
    Letter(Axis),
    Relation(Rel),
    Unknown,
}

/// A symbol with the place of its token; at the end of the text none, with the text's length.
#[derive(Clone, Copy)]
pub struct Item {
    pub place: usize,
    pub symbol: Option<Symbol>,
}

/// What the first symbol of a term begins.
#[derive(Clone, Copy)]
pub enum TermStart {
    Whole(Term),
    Plus,
    Minus,
    Hash,
}

/// What the first symbol of a value begins.
#[derive(Clone, Copy)]
pub enum ValueStart {
    Opens,
    Begins(TermStart),
}

/// The word behind the label of a block line.
#[derive(Clone, Copy)]
pub enum BlockWord {
    While,
    If,
    EndIf,
    EndWhile,
}

/// What the first symbol of a line begins.
#[derive(Clone, Copy)]
pub enum LineStart {
    Setting,
    Move,
    Block,
}
