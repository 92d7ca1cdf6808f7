// The calls that an input asks for, cut from its text as they are made: they stop at the first that is refused.
ghost use Rattle.std.specs.Prelude.{◌≡◌, ◌≤◌, length};
ghost use Rattle.console.specs.Asked.{asked_ranges, program_lines, allow_events, line_events};
ghost use Rattle.console.specs.Lines.{lines_of};
ghost use Rattle.console.specs.Played.{answers, refusals, allow_in, Ends, Behind, Within, asked_events, allow_at, Comes, StoreStays};

use crate::asked::begins_range;
use crate::lines::first_line;
use crate::range_line::read_range;
use calls::calls::Calls;
use calls::single::{Allow, Certify, Line};
use certify::refusal::{Certificate, CertifyRefusal};
use domain::product::Product;
use pointwise::kinds::{Congruences, Intervals};
use program::refusal::LineRefusal;
use session::refusal::AllowRefusal;
use session::session::Session;
use travel::travel::Travel;

/// Why a range line is refused.
#[derive(Clone, Copy)]
pub enum RangeRefusal {
    // a line that begins as a range line, and is none
    Text,
    // a range that may not be allowed
    Allow(AllowRefusal),
}

/// How many ranges were accepted, and the text behind the range lines, or why one of them was refused.
#[derive(Clone, Copy)]
pub struct RangesAnswer<'a> {
    pub accepted: usize,
    pub rest: Result<&'a [u8], RangeRefusal>,
}

/// How many lines were accepted, and what was refused then.
#[derive(Clone, Copy)]
pub struct LinesAnswer {
    pub accepted: usize,
    pub refused: Option<LineRefusal>,
}

/// The range lines at the front of a text.
#[derive(Clone, Copy)]
pub struct RangesOf<'a> {
    pub text: &'a [u8],
}

impl<'a> Calls for RangesOf<'a> {
    type Answers = RangesAnswer<'a>;

    ghost events = { λ c _ r.
        allow_events (asked_ranges (lines_of c.text.now)) (answers r.accepted (refusals (allow_in r.rest))) };

    // no call before a refused one is left out
    ghost stays = { λ c d r.
        Ends (answers r.accepted (refusals (allow_in r.rest))) (length (asked_ranges (lines_of c.text.now)))
        × Behind (program_lines (lines_of c.text.now)) r.rest × Within r.rest (length c.text.now) × (d ≡ c) };

    fn play<T: Travel>(&mut self, session: &mut Session<T>) -> RangesAnswer<'a> {
        let mut accepted = 0;
        let mut rest = self.text;
        while let Some((line, more)) = first_line(rest) {
            if !begins_range(line) {
                return RangesAnswer {
                    accepted,
                    rest: Ok(rest),
                };
            }
            let Some(range) = read_range(line) else {
                return RangesAnswer {
                    accepted,
                    rest: Err(RangeRefusal::Text),
                };
            };
            let mut allow: Allow = range.into();
            if let Err(refusal) = allow.play(session) {
                return RangesAnswer {
                    accepted,
                    rest: Err(RangeRefusal::Allow(refusal)),
                };
            }
            accepted += 1;
            rest = more;
        }
        RangesAnswer {
            accepted,
            rest: Ok(rest),
        }
    }
}

/// The lines of a program.
#[derive(Clone, Copy)]
pub struct LinesOf<'a> {
    pub text: &'a [u8],
}

impl<'a> Calls for LinesOf<'a> {
    type Answers = LinesAnswer;

    ghost events = { λ c _ r. line_events (lines_of c.text.now) (answers r.accepted (refusals r.refused)) };

    ghost stays = { λ c d r.
        Ends (answers r.accepted (refusals r.refused)) (length (lines_of c.text.now))
        × (r.accepted ≤ length c.text.now) × (d ≡ c) };

    fn play<T: Travel>(&mut self, session: &mut Session<T>) -> LinesAnswer {
        let mut accepted = 0;
        let mut rest = self.text;
        while let Some((text, more)) = first_line(rest) {
            let mut line = Line { text };
            if let Err(refusal) = line.play(session) {
                return LinesAnswer {
                    accepted,
                    refused: Some(refusal),
                };
            }
            accepted += 1;
            rest = more;
        }
        LinesAnswer {
            accepted,
            refused: None,
        }
    }
}

/// What programs are certified by.
pub type State = Product<Intervals, Congruences>;

/// Where the calls stop: at a refusal, or at certify.
#[derive(Clone, Copy)]
pub enum Stop {
    // a line that begins as a range line, and is none
    RangeText,
    Allow(AllowRefusal),
    Line(LineRefusal),
    // all were accepted, and certify judged or refused
    Verdict(Result<Certificate, CertifyRefusal>),
}

/// Where the calls stop, and how many ranges and lines are accepted before.
#[derive(Clone, Copy)]
pub struct InputAnswer {
    pub ranges: usize,
    pub lines: usize,
    pub stop: Stop,
}

/// What an input asks of a session: allow for each range line at its front, line for each line behind them, and certify.
#[derive(Drop)]
pub struct InputCalls<'t, 'm> {
    pub ranges: RangesOf<'t>,
    pub certify: Certify<'m, State>,
}

impl<'t, 'm> Calls for InputCalls<'t, 'm> {
    type Answers = InputAnswer;

    ghost events = { λ c _ r.
        asked_events (lines_of c.ranges.text.now) (length c.certify.store.now) r.ranges r.lines r.stop };

    ghost stays = { λ c d r.
        Ends (answers r.ranges (refusals (allow_at r.stop))) (length (asked_ranges (lines_of c.ranges.text.now)))
        × Comes (program_lines (lines_of c.ranges.text.now)) r.lines r.stop
        × (r.lines ≤ length c.ranges.text.now) × (d.ranges ≡ c.ranges)
        × StoreStays c.certify.store d.certify.store r.stop };

    fn play<T: Travel>(&mut self, session: &mut Session<T>) -> InputAnswer {
        let ranges = self.ranges.play(session);
        let text = match ranges.rest {
            Ok(text) => text,
            Err(RangeRefusal::Text) => {
                return InputAnswer {
                    ranges: ranges.accepted,
                    lines: 0,
                    stop: Stop::RangeText,
                };
            }
            Err(RangeRefusal::Allow(refusal)) => {
                return InputAnswer {
                    ranges: ranges.accepted,
                    lines: 0,
                    stop: Stop::Allow(refusal),
                };
            }
        };
        let mut program = LinesOf { text };
        let lines = program.play(session);
        if let Some(refusal) = lines.refused {
            return InputAnswer {
                ranges: ranges.accepted,
                lines: lines.accepted,
                stop: Stop::Line(refusal),
            };
        }
        let verdict = self.certify.play(session);
        InputAnswer {
            ranges: ranges.accepted,
            lines: lines.accepted,
            stop: Stop::Verdict(verdict),
        }
    }
}
