// The table of allowed ranges.
ghost use Rattle.std.specs.Prelude.{◌≡◌, false, is_ok};
ghost use Rattle.session.specs.Answers.{no_ranges, allow_answer, ranges_after, outside_from};

use crate::ranges::{Ranges, check_range};
use crate::refusal::AllowRefusal;
use model::range::Range;
use model::register::PARAMETERS;

impl Ranges {
    /// Each parameter may be 0 alone: `no_ranges` in `specs/Answers`.
    pub fn new() -> Ranges
        ensures { result.each ≡ no_ranges }
    {
        Ranges {
            each: [Range::single(0); PARAMETERS],
        }
    }

    // The ranges, parameter by parameter.
    pub(crate) fn each(&self) -> &[Range; PARAMETERS]
        ensures { result.now ≡ self.now.each }
    {
        &self.each
    }

    /// Allows the parameter, from 1, the range in place of its former one. Refuses with 26 a number of no parameter, and with 27 ends
    /// that are out of order or beyond 10,000,000 either way, by `allow_answer` in `specs/Answers`; then nothing changes.
    pub fn allow(&mut self, parameter: u32, range: Range) -> Result<(), AllowRefusal>
        ensures says { result ≡ allow_answer parameter range }
        ensures does { self.new.each ≡ ranges_after self.old.each parameter range }
        ensures same { is_ok result ≡ false → self.new ≡ self.old }
    {
        check_range(parameter, range)?;
        self.each[parameter as usize - 1] = range;
        Ok(())
    }

    // The lowest parameter, from 1, whose value lies outside its range.
    pub(crate) fn lowest_outside(&self, values: &[i32; PARAMETERS]) -> Option<usize>
        ensures { result ≡ outside_from 1 self.now.each values.now }
    {
        self.each
            .iter()
            .zip(values)
            .position(|(range, value)| !range.contains(*value as i64))
            .map(|before| before + 1)
    }
}
