// A session on one travel.
ghost use Rattle.program.specs.Held.{held};
ghost use Rattle.session.specs.Standing.{Secure};

use crate::ranges::Ranges;
use certify::refusal::Certificate;
use program::table::Program;
use runner::run::Run;
use travel::travel::Travel;

mod calls;
mod runs;

/// The most steps of a dry run.
pub const MAX_STEPS: u32 = 100_000;

/// A session on one travel: a program, the allowed range of each parameter, and, if there are, the certificate that stands and the run
/// under it. Lengths are micrometres. What it remembers, and what each call makes of that, is `specs/Memory`. A refused call leaves the
/// session as it was, all but a certify that finds a failing line: that one ends certificate and run.
#[derive(Drop)]
pub struct Session<T: Travel> {
    travel: T,
    program: Program,
    ranges: Ranges,
    // the one that stands
    certificate: Option<Certificate>,
    run: Run,
    ghost secure: { ∥ Secure (held program) (T.envelope travel) ranges.each certificate run ∥₁ },
}
