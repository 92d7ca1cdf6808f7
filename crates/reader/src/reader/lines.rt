// The reader's methods for whole lines.
ghost use Rattle.model.specs.declared.line.Motion.{Motion};
ghost use Rattle.reader.specs.Parses.{Parses, made};
ghost use Rattle.grammar.specs.Axes.{put, no_values};
ghost use Rattle.grammar.specs.Combinators.{ends};
ghost use Rattle.grammar.specs.Parser.{setting, more_words, move, block_rest, block, line_rest, line};

use crate::reader::Reader;
use crate::term::parameter_of;
use crate::{axes, expect};
use grammar::axes::AxisValues;
use grammar::refusal::{Cause, Refusal};
use grammar::symbol::{BlockWord, Keyword, LineStart};
use model::expression::Value;
use model::line::{Axis, Line, Motion};

impl<'a> Reader<'a> {
    // The line, if nothing follows.
    fn ends(&mut self, line: Line) -> Result<Line, Refusal>
        ensures { Parses (ends line) self.old.lexer result self.new.lexer }
    {
        let item = self.next();
        match item.symbol {
            None => Ok(line),
            Some(_) => Err(Refusal {
                cause: Cause::Unexpected,
                place: item.place,
            }),
        }
    }

    // A setting, after the #.
    fn setting(&mut self) -> Result<Line, Refusal>
        ensures { Parses setting self.old.lexer result self.new.lexer }
    {
        let n = self.digits(1, 6)?;
        self.keyword(Keyword::Equals)?;
        let v = self.value()?;
        self.ends(Line::Setting {
            parameter: parameter_of(n),
            value: v,
        })
    }

    // More axis words of a move, to the end of the line. The values are kept in one place, and made a line at the end.
    fn more(&mut self, values: &mut AxisValues) -> Result<(), Refusal>
        ensures { (g : Motion) → Parses (more_words g values.old) self.old.lexer (made g values.new result) self.new.lexer }
    {
        let item = self.next();
        if item.symbol.is_none() {
            return Ok(());
        }
        let a = expect::taken(item, expect::axis)?;
        if values.get(a).is_some() {
            return Err(Refusal {
                cause: Cause::Twice,
                place: item.place,
            });
        }
        let v = self.value()?;
        values.set(a, Some(v));
        self.more(values)
    }

    // The move whose first word is this axis with this value.
    fn words(&mut self, motion: Motion, a: Axis, v: Value) -> Result<Line, Refusal>
        ensures { Parses (more_words motion (put no_values a v)) self.old.lexer result self.new.lexer }
    {
        let mut values = AxisValues::default();
        values.set(a, Some(v));
        self.more(&mut values)?;
        Ok(axes::moved(motion, values))
    }

    // A move, after the G.
    fn travel(&mut self) -> Result<Line, Refusal>
        ensures { Parses move self.old.lexer result self.new.lexer }
    {
        let g = self.digits(0, 1)?;
        let a = self.expect(expect::axis)?;
        let v = self.value()?;
        self.words(axes::motion_of(g), a, v)
    }

    // A block line, after its label.
    fn block_rest(&mut self, label: u16, word: BlockWord) -> Result<Line, Refusal>
        ensures { Parses (block_rest label word) self.old.lexer result self.new.lexer }
    {
        // A method that took the line as a closure would be no shorter than the two arms.
        match word {
            BlockWord::While => {
                let condition = self.condition()?;
                self.ends(Line::While { label, condition })
            }
            BlockWord::If => {
                let condition = self.condition()?;
                self.ends(Line::If { label, condition })
            }
            BlockWord::EndIf => self.ends(Line::EndIf { label }),
            BlockWord::EndWhile => self.ends(Line::EndWhile { label }),
        }
    }

    // A block line, after the O.
    fn block(&mut self) -> Result<Line, Refusal>
        ensures { Parses block self.old.lexer result self.new.lexer }
    {
        let n = self.digits(1, 9999)?;
        let word = self.expect(expect::block_word)?;
        self.block_rest(n as u16, word)
    }

    // The law of the grammar splits here as well, so no closure stands for what follows.
    fn line_rest(&mut self, start: LineStart) -> Result<Line, Refusal>
        ensures { Parses (line_rest start) self.old.lexer result self.new.lexer }
    {
        match start {
            LineStart::Setting => self.setting(),
            LineStart::Move => self.travel(),
            LineStart::Block => self.block(),
        }
    }

    // Like more axis words, it may end at once: what each makes of an end and of a symbol is its own.
    pub fn line(&mut self) -> Result<Line, Refusal>
        ensures { Parses line self.old.lexer result self.new.lexer }
    {
        let item = self.next();
        if item.symbol.is_none() {
            return Ok(Line::Plain);
        }
        let start = expect::taken(item, expect::line_first)?;
        self.line_rest(start)
    }
}
