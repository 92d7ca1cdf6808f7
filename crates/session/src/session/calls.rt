// The calls of a session on its program. Each says of itself all that it leaves: the calls are read one by one.
ghost use Rattle.std.specs.Prelude.{◌≡◌, false, length, Ok, is_ok, IfOk};
ghost use Rattle.std.specs.List.{list_all};
ghost use Rattle.std.specs.Result.{result_and};
ghost use Rattle.model.specs.Environments.{fit, registers};
ghost use Rattle.model.specs.Whole.{TheEnding};
ghost use Rattle.domain.specs.Tracking.{LosesNothing};
ghost use Rattle.program.specs.Entry.{line_answer};
ghost use Rattle.runner.specs.Drying.{start};
ghost use Rattle.session.specs.Answers.{allow_answer, dry_answer};
ghost use Rattle.certify.specs.Certifies.{TheVerdict, Promised, Untouched};
ghost use Rattle.session.specs.Memory.{memory, blank, after_line, after_allow, after_certify, judged};
ghost use Rattle.session.specs.Promises.{LikeDry};

use crate::ranges::Ranges;
use crate::refusal::{AllowRefusal, DryRefusal};
use crate::session::{MAX_STEPS, Session};
use certify::judge::certify;
use certify::refusal::{Certificate, CertifyRefusal};
use domain::domain::Domain;
use model::ending::Ending;
use model::range::{Range, fits};
use model::register::PARAMETERS;
use program::refusal::LineRefusal;
use program::table::Program;
use runner::dry::dry;
use runner::run::Run;
use travel::travel::Travel;

fn all_fit(values: &[i32]) -> bool
    ensures { result ≡ list_all fit values.now }
{
    values.iter().all(|v| fits(*v as i64))
}

impl<T: Travel> Session<T> {
    /// A session with no line, no certificate and no run, and each parameter allowed 0 alone.
    pub fn new(travel: T) -> Session<T>
        ensures blank { memory result ≡ blank }
        ensures travel { result.travel ≡ travel }
    {
        Session {
            travel,
            program: Program::new(),
            ranges: Ranges::new(),
            certificate: None,
            run: Run::none(),
        }
    }

    /// Adds the text as the next line of the program, and ends certificate and run. Refuses as `Program::line` does, by `line_answer` in
    /// `program/specs/Entry`.
    pub fn line(&mut self, text: &[u8]) -> Result<(), LineRefusal>
        ensures says { result ≡ line_answer (memory self.old).program text.now }
        ensures does { memory self.new ≡ after_line (memory self.old) text.now }
        ensures travel { self.new.travel ≡ self.old.travel }
        ensures untouched { is_ok result ≡ false → self.new ≡ self.old }
    {
        self.program.line(text)?;
        self.run = Run::none();
        self.certificate = None;
        Ok(())
    }

    /// Allows the parameter, from 1, the range, and ends certificate and run. Refuses with 26 or 27 as `Ranges::allow` does, by
    /// `allow_answer` in `specs/Answers`.
    pub fn allow(&mut self, parameter: u32, range: Range) -> Result<(), AllowRefusal>
        ensures says { result ≡ allow_answer parameter range }
        ensures does { memory self.new ≡ after_allow (memory self.old) parameter range }
        ensures travel { self.new.travel ≡ self.old.travel }
        ensures untouched { is_ok result ≡ false → self.new ≡ self.old }
    {
        self.ranges.allow(parameter, range)?;
        self.run = Run::none();
        self.certificate = None;
        Ok(())
    }

    /// Makes the session as a new one on its travel.
    pub fn wipe(&mut self)
        ensures does { memory self.new ≡ blank }
        ensures travel { self.new.travel ≡ self.old.travel }
    {
        self.program = Program::new();
        self.ranges = Ranges::new();
        self.run = Run::none();
        self.certificate = None;
    }

    /// Judges the program in the domain of the lent states, one for each block, and ends the run. A certificate stands from then on: under
    /// it no run from home and allowed values faults, or leaves the travel or the certificate. Refuses with 31 an open block and with 32
    /// too few states, and then changes nothing; with 33 and the lowest line that fails, and then no certificate stands. By `TheVerdict`
    /// in `certify/specs/Certifies`.
    pub fn certify<D: Domain>(&mut self, store: &mut [D]) -> Result<Certificate, CertifyRefusal>
        ensures verdict { TheVerdict D.lattice (memory self.old).program (T.envelope self.old.travel)
            (memory self.old).allowed (length store.old) result }
        ensures promised { Promised (memory self.old).program (T.envelope self.old.travel) (memory self.old).allowed result }
        ensures exact { LosesNothing registers D.lattice →
            LikeDry (memory self.old).program (T.envelope self.old.travel) (memory self.old).allowed result }
        ensures does { memory self.new ≡ after_certify (memory self.old) result }
        ensures travel { self.new.travel ≡ self.old.travel }
        ensures store { Untouched result store.old store.new }
        ensures untouched { judged result ≡ false → self.new ≡ self.old }
    {
        let result = certify(&self.program, &self.travel, self.ranges.each(), store);
        match result {
            Ok(certificate) => {
                self.run = Run::none();
                self.certificate = Some(certificate);
            }
            Err(CertifyRefusal::Uncertified(_)) => {
                self.run = Run::none();
                self.certificate = None;
            }
            Err(CertifyRefusal::Open | CertifyRefusal::Store) => {}
        }
        result
    }

    /// What at most so many steps from home, with these values of #1 to #6, would come to: the one ending of the plain run, `TheEnding` in
    /// `model/specs/Whole`. Refuses with 31 an open block, with 44 more steps than `MAX_STEPS`, and with 45 a value beyond 10,000,000
    /// either way, by `dry_answer` in `specs/Answers`.
    pub fn dry(&self, values: [i32; PARAMETERS], steps: u32) -> Result<Ending, DryRefusal>
        ensures says { result_and result (Ok tt) ≡ dry_answer (memory self.now).program values steps }
        ensures ending { IfOk result (TheEnding (memory self.now).program (T.envelope self.now.travel) steps 0
            (start (T.envelope self.now.travel).home values)) }
    {
        if !self.program.is_closed() {
            return Err(DryRefusal::Open);
        }
        if steps > MAX_STEPS {
            return Err(DryRefusal::Steps);
        }
        if !all_fit(&values) {
            return Err(DryRefusal::Value);
        }
        Ok(dry(&self.program, &self.travel, values, steps))
    }
}
