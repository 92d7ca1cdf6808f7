// The lexer: tokens that borrow their part of the line's text.
ghost use Rattle.std.specs.Prelude.{◌≡◌, ◌≤◌, length};
ghost use Rattle.lexer.specs.Lexemes.{Heads};
ghost use Rattle.lexer.specs.Parts.{Cut, Next};

use crate::class::{blanks, digits, letters};
use crate::kind::Kind;
use crate::token::Token;

#[derive(Clone, Copy)]
pub struct Lexer<'a> {
    text: &'a [u8],
    at: usize,
    ghost inside: { at ≤ length text.now },
}

impl<'a> Lexer<'a> {
    pub fn new(text: &'a [u8]) -> Lexer<'a>
        ensures text { result.text ≡ text.entry }
        ensures at { result.at ≡ 0 }
    {
        Lexer { text, at: 0 }
    }

    // How long the text is.
    pub fn len(&self) -> usize
        ensures { result ≡ length self.now.text.now }
    {
        self.text.len()
    }

    // The next token, past blanks.
    #[inline(always)]
    pub fn next(&mut self) -> Option<Token<'a>>
        ensures text { self.new.text ≡ self.old.text }
        ensures heads { Heads self.old.text.now self.old.at result self.new.at }
        ensures token { Next self.old.text self.old.at result self.new.at }
    {
        let blanks = blanks(&self.text[self.at..]);
        let place = self.at + blanks;
        self.at = place;
        let (kind, rest) = cut(&self.text[place..])?;
        self.at = self.text.len() - rest.len();
        let part = &self.text[place..self.at];
        Some(Token { kind, place, part })
    }
}

// The kind of the first token of s, and what is left of s; runs stand first, since most tokens are runs. Inlined as next is, so that
// no kind is stored before it is read.
#[inline(always)]
fn cut<'a>(s: &'a [u8]) -> Option<(Kind, &'a [u8])>
    ensures { Cut s.entry result }
{
    match s {
        [] => None,
        [b, rest @ ..] if b.is_ascii_digit() => Some((Kind::Digits, &rest[digits(rest)..])),
        [b, rest @ ..] if b.is_ascii_alphabetic() => Some((Kind::Letters, &rest[letters(rest)..])),
        [b'#', rest @ ..] => Some((Kind::Hash, rest)),
        [b'[', rest @ ..] => Some((Kind::Open, rest)),
        [b']', rest @ ..] => Some((Kind::Close, rest)),
        [b'+', rest @ ..] => Some((Kind::Plus, rest)),
        [b'-', rest @ ..] => Some((Kind::Minus, rest)),
        [b'*', rest @ ..] => Some((Kind::Star, rest)),
        [b'=', rest @ ..] => Some((Kind::Equals, rest)),
        [_, rest @ ..] => Some((Kind::Other, rest)),
    }
}
