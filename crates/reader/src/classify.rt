// What a token is to the grammar, from its kind and its bytes.
ghost use Rattle.std.specs.Prelude.{◌≡◌};
ghost use Rattle.reader.specs.Tables.{first_spelled};
ghost use Rattle.grammar.specs.Symbols.{axis_of, relation_of, keyword_of, letters, symbol_of};

use grammar::symbol::{Keyword, Symbol};
use lexer::digits::number;
use lexer::keyword::is_keyword;
use lexer::kind::Kind;
use lexer::token::Token;
use model::expression::Rel;
use model::line::Axis;

// The tables have capitals; the text may have either case.
const AXES: [(&[u8], Axis); 4] = [
    (b"X", Axis::X),
    (b"Y", Axis::Y),
    (b"Z", Axis::Z),
    (b"U", Axis::U),
];

const RELATIONS: [(&[u8], Rel); 6] = [
    (b"EQ", Rel::Eq),
    (b"NE", Rel::Ne),
    (b"LT", Rel::Lt),
    (b"LE", Rel::Le),
    (b"GT", Rel::Gt),
    (b"GE", Rel::Ge),
];

const KEYWORDS: [(&[u8], Keyword); 6] = [
    (b"G", Keyword::G),
    (b"O", Keyword::O),
    (b"WHILE", Keyword::While),
    (b"IF", Keyword::If),
    (b"ENDIF", Keyword::EndIf),
    (b"ENDWHILE", Keyword::EndWhile),
];

// What stands beside the first word that s spells.
fn named<A: Copy>(words: &[(&[u8], A)], s: &[u8]) -> Option<A>
    ensures { result ≡ first_spelled s.now words.now }
{
    words
        .iter()
        .find(|(word, _)| is_keyword(s, word))
        .map(|(_, a)| *a)
}

// A function for each table: its contract ties the table to the grammar's words.
fn axis_of(s: &[u8]) -> Option<Axis>
    ensures { result ≡ axis_of s.now }
{
    named(&AXES, s)
}

fn relation_of(s: &[u8]) -> Option<Rel>
    ensures { result ≡ relation_of s.now }
{
    named(&RELATIONS, s)
}

fn keyword_of(s: &[u8]) -> Option<Keyword>
    ensures { result ≡ keyword_of s.now }
{
    named(&KEYWORDS, s)
}

// Apart from the other tokens, which are more frequent and shorter to sort.
#[inline(never)]
fn letters_of(s: &[u8]) -> Symbol
    ensures { result ≡ letters s.now }
{
    axis_of(s)
        .map(Symbol::Letter)
        .or_else(|| relation_of(s).map(Symbol::Relation))
        .or_else(|| keyword_of(s).map(Symbol::Fixed))
        .unwrap_or(Symbol::Unknown)
}

// What the token is.
#[inline(always)]
pub fn symbol_of(token: Token) -> Symbol
    ensures { result ≡ symbol_of token.entry.part.now }
{
    match token.kind {
        Kind::Letters => letters_of(token.part),
        Kind::Digits if token.part.len() <= 8 => Symbol::Digits(number(token.part)),
        Kind::Digits => Symbol::Long,
        Kind::Hash => Symbol::Fixed(Keyword::Hash),
        Kind::Open => Symbol::Fixed(Keyword::Open),
        Kind::Close => Symbol::Fixed(Keyword::Close),
        Kind::Plus => Symbol::Fixed(Keyword::Plus),
        Kind::Minus => Symbol::Fixed(Keyword::Minus),
        Kind::Star => Symbol::Fixed(Keyword::Star),
        Kind::Equals => Symbol::Fixed(Keyword::Equals),
        Kind::Other => Symbol::Unknown,
    }
}
