// Dry runs: what a run from home would come to.
ghost use Rattle.std.specs.Prelude.{◌≡◌};
ghost use Rattle.model.specs.Programs.{Closed};
ghost use Rattle.model.specs.Whole.{TheEnding};
ghost use Rattle.program.specs.Held.{held};
ghost use Rattle.runner.specs.Drying.{start, number_under, outlook, stopped_for, ending_at, dried, Tried};
ghost use Rattle.runner.specs.Plain.{run_at};
ghost use Rattle.runner.specs.Steps.{step_of};

use crate::run::{NoRun, Run, Stepped};
use model::ending::{Cause, Ending, Failure};
use model::register::PARAMETERS;
use program::table::Program;
use travel::side::lowest_broken;
use travel::travel::Travel;

// The ending of a run that stops at a line, if there is one under it.
fn stopped(line: Option<usize>, cause: Cause) -> Option<Ending>
    ensures { result ≡ stopped_for line cause }
{
    let line = line?;
    Some(Ending::Stopped(Failure { line, cause }))
}

// One step, and what it comes to if the run does not go on.
fn try_step<T: Travel>(run: &mut Run, program: &Program, travel: &T) -> Option<Ending>
    ensures is { result ≡ ending_at (held program.now) (T.envelope travel.now) run.old }
    ensures leads { run.new ≡ (step_of (held program.now) run.old).run }
    ensures plain { Closed (held program.now) → Tried (held program.now) (T.envelope travel.now) run.old result run.new }
{
    let line = run.number_under(program);
    match run.step(program) {
        Ok(Stepped::WentOn) => None,
        Ok(Stepped::Commanded(p)) => stopped(line, Cause::Travel(lowest_broken(travel, p)?)),
        Ok(Stepped::Fault) => stopped(line, Cause::Arithmetic),
        Ok(Stepped::Ended) => Some(Ending::Ended),
        // where no run goes, nothing is left to do
        Err(NoRun) => Some(Ending::Ended),
    }
}

fn outlook(run: &Run, program: &Program) -> Ending
    ensures { result ≡ outlook (number_under (held program.now) run.now.at) }
{
    match run.number_under(program) {
        None => Ending::Ended,
        Some(_) => Ending::Running,
    }
}

// What at most so many steps from home come to; in a closed program it is what the plain run comes to. A type for closed programs would
// ask more of callers. The loop counts steps, of which its invariant speaks.
pub fn dry<T: Travel>(
    program: &Program,
    travel: &T,
    values: [i32; PARAMETERS],
    steps: u32,
) -> Ending
    ensures is { result ≡ dried (held program.now) (T.envelope travel.now) steps (run_at 0 (start (T.envelope travel.now).home values)) }
    ensures plain { Closed (held program.now) → TheEnding (held program.now) (T.envelope travel.now) steps 0 (start (T.envelope travel.now).home values) result }
{
    let mut run = Run::begin(travel.home(), values);
    for k in 0..steps {
        if let Some(ending) = try_step(&mut run, program, travel) {
            return ending;
        }
    }
    outlook(&run, program)
}
