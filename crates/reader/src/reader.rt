// The reader of a line over its lexer: one method takes the test of the symbol that is expected.
ghost use Rattle.std.specs.Prelude.{◌≡◌, ◌≤◌, IfOk};
ghost use Rattle.reader.specs.Parses.{Parses, Takes, Expects};
ghost use Rattle.grammar.specs.Combinators.{expect};
ghost use Rattle.grammar.specs.Tests.{digits, only};

use crate::classify::symbol_of;
use crate::expect;
use grammar::refusal::{Cause, Refusal};
use grammar::symbol::{Item, Keyword, Symbol};
use lexer::lexer::Lexer;

mod lines;
mod values;

#[derive(Clone, Copy)]
pub struct Reader<'a> {
    lexer: Lexer<'a>,
}

impl<'a> Reader<'a> {
    pub fn new(text: &'a [u8]) -> Reader<'a>
        ensures text { result.lexer.text ≡ text.entry }
        ensures at { result.lexer.at ≡ 0 }
    {
        Reader {
            lexer: Lexer::new(text),
        }
    }

    // Inlined where a symbol is expected, so that the test of it becomes one with the sorting of the token.
    #[inline(always)]
    fn next(&mut self) -> Item
        ensures { Takes self.old.lexer result self.new.lexer }
    {
        // A lexer of its own, so that nothing is written before the token is read.
        let mut lexer = self.lexer;
        let item = match lexer.next() {
            None => Item {
                place: lexer.len(),
                symbol: None,
            },
            Some(t) => Item {
                place: t.place,
                symbol: Some(symbol_of(t)),
            },
        };
        self.lexer = lexer;
        item
    }

    // The next symbol, as the test takes it.
    #[inline(always)]
    fn expect<A, F: FnOnce(Option<Symbol>) -> Result<A, Cause>>(
        &mut self,
        test: F,
    ) -> Result<A, Refusal>
        requires { F.IsAlwaysCallable test }
        ensures { Expects (F.post test) self.old.lexer result self.new.lexer }
    {
        let item = self.next();
        expect::taken(item, test)
    }

    #[inline(always)]
    fn digits(&mut self, lo: u32, hi: u32) -> Result<u32, Refusal>
        ensures bound { IfOk result (λ n. n ≤ hi) }
        ensures parses { Parses (expect (digits lo hi)) self.old.lexer result self.new.lexer }
    {
        self.expect(|s| expect::digits(s, lo, hi))
    }

    #[inline(always)]
    fn keyword(&mut self, k: Keyword) -> Result<Keyword, Refusal>
        ensures { Parses (expect (only k)) self.old.lexer result self.new.lexer }
    {
        self.expect(|s| expect::only(s, k))
    }
}
