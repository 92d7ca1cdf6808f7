// From the bytes of an input to the report on it.
ghost use Rattle.std.specs.Prelude.{◌≡◌, ◌≤◌, Err};
ghost use Rattle.certify.specs.declared.refusal.CertifyRefusal.TheVariants.{Store};
ghost use Rattle.console.specs.Played.{ReportsStop};
ghost use Rattle.console.specs.Readings.{max_input, reading_of};
ghost use Rattle.console.specs.Verdicts.{OnBench, Reported, Promises};
ghost use Rattle.console.specs.Law.{TheReport};
ghost use Rattle.console.specs.declared.played.Stop.TheVariants.{Verdict};

use crate::played::{InputAnswer, InputCalls, RangesOf, State, Stop};
use crate::refusal::Refusal;
use crate::report::{Rejection, Report};
use calls::play::play_calls;
use calls::single::Certify;
use certify::refusal::CertifyRefusal;
use domain::domain::Domain;
use program::table::MAX_BLOCKS;
use travel::bench::bench_gantry;

/// The longest input, in bytes.
pub const MAX_INPUT: usize = 32_768;

// The report on where the calls stopped.
fn report_of(answer: InputAnswer) -> Report
    requires short { answer.lines ≤ max_input }
    requires enough { answer.stop ≡ Verdict (Err Store) → ⊥ }
    ensures { ReportsStop answer.lines answer.stop result }
{
    match answer.stop {
        Stop::RangeText => Report::Refused(Refusal::RangeText.into()),
        Stop::Allow(refusal) => Report::Refused(Refusal::Allow(refusal).into()),
        Stop::Line(refusal) => {
            let line = answer.lines + 1;
            let refusal = refusal.into();
            Report::Refused(Rejection { line, refusal })
        }
        Stop::Verdict(Ok(certificate)) => Report::Certified(certificate),
        Stop::Verdict(Err(CertifyRefusal::Uncertified(failure))) => Report::Uncertified(failure),
        Stop::Verdict(Err(CertifyRefusal::Open)) => Report::Refused(Refusal::Open.into()),
        // a program has no more blocks than states are lent
        Stop::Verdict(Err(CertifyRefusal::Store)) => unreachable(),
    }
}

/// The report on a whole input: the one that the rules give.
pub fn report_on(input: &[u8]) -> Report
    ensures law { TheReport input.now result }
    ensures is { OnBench (λ gantry. Reported gantry (reading_of input.now) result) }
    ensures promised { OnBench (λ gantry. Promises gantry (reading_of input.now) result) }
{
    if input.len() > MAX_INPUT {
        return Report::Refused(Refusal::Input.into());
    }
    let mut store = [State::none(); MAX_BLOCKS];
    let mut calls = InputCalls {
        ranges: RangesOf { text: input },
        certify: Certify { store: &mut store },
    };
    let answer = play_calls(bench_gantry(), &mut calls);
    report_of(answer)
}
