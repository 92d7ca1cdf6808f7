// The text of a failure, as reports and answers to scripts have it.
ghost use Rattle.std.specs.Prelude.{Some};
ghost use Rattle.console.specs.Failures.{failure_text};

use model::ending::{Cause, Failure};
use std::fmt;

// A line and why it fails. A type of its own, since `model` has no texts.
#[derive(Clone, Copy)]
pub struct FailureText(pub Failure);

impl fmt::Display for FailureText {
    ghost output = { λ text. Some (failure_text text.0) };

    fn fmt<W: fmt::Write>(&self, f: &mut fmt::Formatter<W>) -> fmt::Result {
        let Failure { line, cause } = self.0;
        match cause {
            Cause::Arithmetic => write!(f, "{line} arithmetic"),
            Cause::Travel(side) => write!(f, "{line} travel {side}"),
        }
    }
}
