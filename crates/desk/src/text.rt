// The texts of what answers carry.
ghost use Rattle.std.specs.Prelude.{Some};
ghost use Rattle.desk.specs.Answers.{detail};
ghost use Rattle.desk.specs.Texts.{hull_text, detail_text};

use console::failure::FailureText;
use model::ending::Failure;
use model::range::Range;
use std::fmt;

// The hull of an axis.
#[derive(Clone, Copy)]
pub(crate) struct HullText(pub(crate) Option<Range>);

impl fmt::Display for HullText {
    ghost output = { λ t. Some (hull_text t.0) };

    fn fmt<W: fmt::Write>(&self, f: &mut fmt::Formatter<W>) -> fmt::Result {
        match self.0 {
            None => write!(f, "none"),
            Some(Range { lo, hi }) => write!(f, "{lo}..{hi}"),
        }
    }
}

// What a refusal carries beside its number.
#[derive(Clone, Copy)]
pub(crate) enum Detail {
    Nothing,
    Place(usize),
    Parameter(usize),
    Failure(Failure),
}

impl fmt::Display for Detail {
    ghost output = { λ d. Some (detail_text (detail d)) };

    fn fmt<W: fmt::Write>(&self, f: &mut fmt::Formatter<W>) -> fmt::Result {
        match *self {
            Detail::Nothing => write!(f, ""),
            Detail::Place(n) | Detail::Parameter(n) => write!(f, " {n}"),
            Detail::Failure(failure) => write!(f, " {}", FailureText(failure)),
        }
    }
}
