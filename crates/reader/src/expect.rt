// What a symbol is taken for where it stands.
ghost use Rattle.std.specs.Prelude.{◌≡◌};
ghost use Rattle.reader.specs.Parses.{Taken};
ghost use Rattle.grammar.specs.Tests.{tried, digits, only, axis, relation};
ghost use Rattle.grammar.specs.Parser.{term_first, value_first, operator, block_word, line_first};

use crate::term::positive;
use grammar::refusal::{Cause, Refusal};
use grammar::symbol::{BlockWord, Item, Keyword, LineStart, Symbol, TermStart, ValueStart};
use model::expression::{LIMIT, Op, Rel};
use model::line::Axis;

// The item as the test takes it, or refused at its place.
pub fn taken<A, F: FnOnce(Option<Symbol>) -> Result<A, Cause>>(
    item: Item,
    test: F,
) -> Result<A, Refusal>
    requires { F.IsAlwaysCallable test }
    ensures { Taken (F.post test) item result }
{
    test(item.symbol).map_err(|cause| Refusal {
        cause,
        place: item.place,
    })
}

pub fn digits(t: Option<Symbol>, lo: u32, hi: u32) -> Result<u32, Cause>
    ensures { result ≡ tried (digits lo hi) t }
{
    match t {
        Some(Symbol::Digits(n)) if (lo..=hi).contains(&n) => Ok(n),
        Some(Symbol::Digits(_) | Symbol::Long) => Err(Cause::Limit),
        _ => Err(Cause::Unexpected),
    }
}

pub fn term_first(t: Option<Symbol>) -> Result<TermStart, Cause>
    ensures { result ≡ tried term_first t }
{
    match t {
        Some(Symbol::Fixed(Keyword::Hash)) => Ok(TermStart::Hash),
        Some(Symbol::Fixed(Keyword::Plus)) => Ok(TermStart::Plus),
        Some(Symbol::Fixed(Keyword::Minus)) => Ok(TermStart::Minus),
        _ => digits(t, 0, LIMIT as u32)
            .map(positive)
            .map(TermStart::Whole),
    }
}

pub fn value_first(t: Option<Symbol>) -> Result<ValueStart, Cause>
    ensures { result ≡ tried value_first t }
{
    match t {
        Some(Symbol::Fixed(Keyword::Open)) => Ok(ValueStart::Opens),
        _ => term_first(t).map(ValueStart::Begins),
    }
}

pub fn operator(t: Option<Symbol>) -> Result<Op, Cause>
    ensures { result ≡ tried operator t }
{
    match t {
        Some(Symbol::Fixed(Keyword::Plus)) => Ok(Op::Add),
        Some(Symbol::Fixed(Keyword::Minus)) => Ok(Op::Sub),
        Some(Symbol::Fixed(Keyword::Star)) => Ok(Op::Mul),
        _ => Err(Cause::Unexpected),
    }
}

pub fn block_word(t: Option<Symbol>) -> Result<BlockWord, Cause>
    ensures { result ≡ tried block_word t }
{
    match t {
        Some(Symbol::Fixed(Keyword::While)) => Ok(BlockWord::While),
        Some(Symbol::Fixed(Keyword::If)) => Ok(BlockWord::If),
        Some(Symbol::Fixed(Keyword::EndIf)) => Ok(BlockWord::EndIf),
        Some(Symbol::Fixed(Keyword::EndWhile)) => Ok(BlockWord::EndWhile),
        _ => Err(Cause::Unexpected),
    }
}

pub fn only(t: Option<Symbol>, k: Keyword) -> Result<Keyword, Cause>
    ensures { result ≡ tried (only k) t }
{
    match t {
        Some(Symbol::Fixed(u)) if u == k => Ok(k),
        _ => Err(Cause::Unexpected),
    }
}

// A test for each variant: one for both would take the pattern.
pub fn axis(t: Option<Symbol>) -> Result<Axis, Cause>
    ensures { result ≡ tried axis t }
{
    match t {
        Some(Symbol::Letter(a)) => Ok(a),
        _ => Err(Cause::Unexpected),
    }
}

pub fn relation(t: Option<Symbol>) -> Result<Rel, Cause>
    ensures { result ≡ tried relation t }
{
    match t {
        Some(Symbol::Relation(r)) => Ok(r),
        _ => Err(Cause::Unexpected),
    }
}

pub fn line_first(t: Option<Symbol>) -> Result<LineStart, Cause>
    ensures { result ≡ tried line_first t }
{
    match t {
        Some(Symbol::Fixed(Keyword::Hash)) => Ok(LineStart::Setting),
        Some(Symbol::Fixed(Keyword::G)) => Ok(LineStart::Move),
        Some(Symbol::Fixed(Keyword::O)) => Ok(LineStart::Block),
        _ => Err(Cause::Unexpected),
    }
}
