// The calls of a session on its run.
ghost use Rattle.std.specs.Prelude.{◌≡◌, false, is_ok, IfOk};
ghost use Rattle.runner.specs.Steps.{step_of};
ghost use Rattle.session.specs.Answers.{start_answer};
ghost use Rattle.session.specs.Memory.{memory, after_start, after_step};
ghost use Rattle.session.specs.Promises.{Inside, StepsPlainly};
ghost use Rattle.session.specs.Stepping.{stepped};

use crate::progress::Progress;
use crate::refusal::{StartRefusal, StepRefusal};
use crate::session::Session;
use model::register::PARAMETERS;
use runner::run::{Run, Stepped};
use travel::travel::Travel;

impl<T: Travel> Session<T> {
    /// Begins a run at home with these values of #1 to #6, in place of one that goes. Refuses with 41 where no certificate stands, and with
    /// 42 and the lowest parameter whose value lies outside its range, by `start_answer` in `specs/Answers`.
    pub fn start(&mut self, values: [i32; PARAMETERS]) -> Result<(), StartRefusal>
        ensures says { result ≡ start_answer (memory self.old).certificate (memory self.old).allowed values }
        ensures does { memory self.new ≡ after_start (T.envelope self.old.travel).home (memory self.old) values }
        ensures travel { self.new.travel ≡ self.old.travel }
        ensures untouched { is_ok result ≡ false → self.new ≡ self.old }
    {
        if self.certificate.is_none() {
            return Err(StartRefusal::Uncertified);
        }
        if let Some(parameter) = self.ranges.lowest_outside(&values) {
            return Err(StartRefusal::Outside(parameter));
        }
        self.run = Run::begin(self.travel.home(), values);
        Ok(())
    }

    /// Makes one step of the run, which is one of the plain run; what it commands lies inside travel and certificate. Refuses with 43 where
    /// no run goes, by `step_of` in `runner/specs/Steps`.
    pub fn step(&mut self) -> Result<Progress, StepRefusal>
        ensures says { stepped result ≡ (step_of (memory self.old).program (memory self.old).run).answer }
        ensures plain { IfOk result (λ s. StepsPlainly (memory self.old).program (memory self.old).run s (memory self.new).run) }
        ensures inside { IfOk result (Inside (T.envelope self.old.travel) (memory self.old).certificate) }
        ensures does { memory self.new ≡ after_step (memory self.old) }
        ensures travel { self.new.travel ≡ self.old.travel }
        ensures untouched { is_ok result ≡ false → self.new ≡ self.old }
    {
        match self.run.step(&self.program)? {
            Stepped::WentOn => Ok(Progress::WentOn),
            Stepped::Commanded(position) => Ok(Progress::Commanded(position)),
            Stepped::Ended => Ok(Progress::Ended),
            // a run under a certificate meets no fault
            Stepped::Fault => unreachable(),
        }
    }
}
