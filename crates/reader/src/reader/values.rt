// The reader's methods for terms, values and conditions.
ghost use Rattle.reader.specs.Parses.{Parses};
ghost use Rattle.grammar.specs.Parser.{term_rest, term, value_rest, value, bracket, comparison, condition};

use crate::reader::Reader;
use crate::{expect, term};
use grammar::refusal::Refusal;
use grammar::symbol::{Keyword, TermStart, ValueStart};
use model::expression::{Condition, LIMIT, Term, Value};

impl<'a> Reader<'a> {
    // The law of the grammar splits by what begins, so no closure stands for what follows.
    #[inline(always)]
    fn term_rest(&mut self, start: TermStart) -> Result<Term, Refusal>
        ensures { Parses (term_rest start) self.old.lexer result self.new.lexer }
    {
        match start {
            TermStart::Whole(t) => Ok(t),
            TermStart::Plus => self.digits(0, LIMIT as u32).map(term::positive),
            TermStart::Minus => self.digits(0, LIMIT as u32).map(term::negative),
            TermStart::Hash => self
                .digits(1, 6)
                .map(|n| Term::Parameter(term::parameter_of(n))),
        }
    }

    #[inline(always)]
    fn term(&mut self) -> Result<Term, Refusal>
        ensures { Parses term self.old.lexer result self.new.lexer }
    {
        let start = self.expect(expect::term_first)?;
        self.term_rest(start)
    }

    // A value in brackets, after the opening one.
    fn bracket(&mut self) -> Result<Value, Refusal>
        ensures { Parses bracket self.old.lexer result self.new.lexer }
    {
        let a = self.term()?;
        let o = self.expect(expect::operator)?;
        let b = self.term()?;
        self.keyword(Keyword::Close)?;
        Ok(Value::Joined(o, a, b))
    }

    fn value_rest(&mut self, start: ValueStart) -> Result<Value, Refusal>
        ensures { Parses (value_rest start) self.old.lexer result self.new.lexer }
    {
        match start {
            ValueStart::Opens => self.bracket(),
            ValueStart::Begins(first) => self.term_rest(first).map(Value::Term),
        }
    }

    pub(super) fn value(&mut self) -> Result<Value, Refusal>
        ensures { Parses value self.old.lexer result self.new.lexer }
    {
        let start = self.expect(expect::value_first)?;
        self.value_rest(start)
    }

    // A condition, after the opening bracket.
    fn comparison(&mut self) -> Result<Condition, Refusal>
        ensures { Parses comparison self.old.lexer result self.new.lexer }
    {
        let left = self.term()?;
        let rel = self.expect(expect::relation)?;
        let right = self.term()?;
        self.keyword(Keyword::Close)?;
        Ok(Condition { rel, left, right })
    }

    pub(super) fn condition(&mut self) -> Result<Condition, Refusal>
        ensures { Parses condition self.old.lexer result self.new.lexer }
    {
        self.keyword(Keyword::Open)?;
        self.comparison()
    }
}
