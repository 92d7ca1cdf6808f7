// The report on an input, and its text.
ghost use Rattle.std.specs.Prelude.{◌≡◌, Some};
ghost use Rattle.console.specs.Report.{hull_text, report_text};

use crate::failure::FailureText;
use crate::refusal::Refusal;
use certify::refusal::Certificate;
use model::ending::Failure;
use model::range::Range;
use std::fmt;

// The number of the line that is refused, or 0 where none of the program is, as it is printed, and why.
#[derive(Clone, Copy)]
pub struct Rejection {
    pub line: usize,
    pub refusal: Refusal,
}

impl From<Refusal> for Rejection {
    ghost from_gives = { λ refusal result. result ≡ record { line = 0; refusal = refusal } };

    fn from(refusal: Refusal) -> Rejection {
        Rejection { line: 0, refusal }
    }
}

#[derive(Clone, Copy)]
pub enum Report {
    Certified(Certificate),
    // the lowest line that fails, and why
    Uncertified(Failure),
    Refused(Rejection),
}

// Where moves can take an axis, if anywhere. A type of its own, since an Option is not printed.
#[derive(Clone, Copy)]
struct Hull(Option<Range>);

impl fmt::Display for Hull {
    ghost output = { λ hull. Some (hull_text hull.0) };

    fn fmt<W: fmt::Write>(&self, f: &mut fmt::Formatter<W>) -> fmt::Result {
        match self.0 {
            None => write!(f, "none"),
            Some(Range { lo, hi }) => write!(f, "{lo} {hi}"),
        }
    }
}

impl fmt::Display for Report {
    ghost output = { λ report. Some (report_text report) };

    fn fmt<W: fmt::Write>(&self, f: &mut fmt::Formatter<W>) -> fmt::Result {
        match *self {
            Report::Certified(certificate) => {
                let [x, y, z, u] = certificate.hulls.map(Hull);
                write!(f, "certified\nX {x}\nY {y}\nZ {z}\nU {u}")
            }
            Report::Uncertified(failure) => write!(f, "uncertified {}", FailureText(failure)),
            Report::Refused(Rejection { line, refusal }) => {
                let number = refusal.number();
                let place = refusal.place();
                write!(f, "refused {line} {number} {place}")
            }
        }
    }
}
