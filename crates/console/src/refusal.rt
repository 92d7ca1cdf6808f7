// Why an input is refused.
ghost use Rattle.std.specs.Prelude.{◌≡◌};
ghost use Rattle.console.specs.Report.{input_refusal, printed_place};
ghost use Rattle.console.specs.declared.refusal.Refusal.TheVariants.{Allow, Line};

use certify::refusal::CertifyRefusal;
use program::refusal::LineRefusal;
use session::refusal::AllowRefusal;

#[derive(Clone, Copy)]
pub enum Refusal {
    // more than 32,768 bytes
    Input,
    // a line that begins as a range line, and is none
    RangeText,
    // a range that may not be allowed
    Allow(AllowRefusal),
    // a line of the program
    Line(LineRefusal),
    // a block that is open where the program ends
    Open,
}

impl From<AllowRefusal> for Refusal {
    ghost from_gives = { λ refusal result. result ≡ Allow refusal };

    fn from(refusal: AllowRefusal) -> Refusal {
        Refusal::Allow(refusal)
    }
}

impl From<LineRefusal> for Refusal {
    ghost from_gives = { λ refusal result. result ≡ Line refusal };

    fn from(refusal: LineRefusal) -> Refusal {
        Refusal::Line(refusal)
    }
}

impl Refusal {
    // Not a From: `u32::from` would not say which number.
    pub(crate) fn number(self) -> u32
        ensures { result ≡ (input_refusal self).number }
    {
        match self {
            Refusal::Input => 46,
            Refusal::RangeText => 13,
            Refusal::Allow(e) => e.number(),
            Refusal::Line(e) => e.number(),
            Refusal::Open => CertifyRefusal::Open.number(),
        }
    }

    // The place in the line, or 0 where there is none: that is how it is printed.
    pub(crate) fn place(self) -> usize
        ensures { result ≡ printed_place (input_refusal self) }
    {
        match self {
            Refusal::Line(e) => e.place().unwrap_or(0),
            _ => 0,
        }
    }
}
