// A list of one call, for each call.
ghost use Rattle.std.specs.Prelude.{◌≡◌, [], ◌∷◌, length};
ghost use Rattle.program.specs.Numbers.{line_refusal};
ghost use Rattle.session.specs.Refusals.{allow_refusal, start_refusal};
ghost use Rattle.calls.specs.Events.{domain, by_dry, by_step};
ghost use Rattle.calls.specs.Loans.{StatesStay};
ghost use Rattle.calls.specs.Law.{by_verdict, done, done_or, event, line, allow, wipe, certify, start, step, dry};

use crate::calls::Calls;
use certify::refusal::{Certificate, CertifyRefusal};
use domain::domain::Domain;
use model::ending::Ending;
use model::range::Range;
use model::register::PARAMETERS;
use program::refusal::LineRefusal;
use session::progress::Progress;
use session::refusal::{AllowRefusal, DryRefusal, StartRefusal, StepRefusal};
use session::session::Session;
use travel::travel::Travel;

/// The call `line`: the text is to be the next line of the program.
#[derive(Clone, Copy)]
pub struct Line<'a> {
    pub text: &'a [u8],
}

impl<'a> Calls for Line<'a> {
    type Answers = Result<(), LineRefusal>;

    ghost events = { λ c _ r. event (line c.text.now) (done_or line_refusal r) ∷ [] };

    ghost stays = { λ c d _. d ≡ c };

    fn play<T: Travel>(&mut self, session: &mut Session<T>) -> Result<(), LineRefusal> {
        session.line(self.text)
    }
}

/// The call `allow`: a parameter, from 1 to 6, may have the values of a range.
#[derive(Clone, Copy)]
pub struct Allow {
    pub parameter: u32,
    pub range: Range,
}

impl Calls for Allow {
    type Answers = Result<(), AllowRefusal>;

    ghost events = { λ c _ r. event (allow c.parameter c.range) (done_or allow_refusal r) ∷ [] };

    ghost stays = { λ c d _. d ≡ c };

    fn play<T: Travel>(&mut self, session: &mut Session<T>) -> Result<(), AllowRefusal> {
        session.allow(self.parameter, self.range)
    }
}

/// The call `wipe`: lines, ranges, certificate and run are forgotten.
#[derive(Clone, Copy)]
pub struct Wipe;

impl Calls for Wipe {
    type Answers = ();

    ghost events = { λ _ _ _. event wipe done ∷ [] };

    ghost stays = { λ c d _. d ≡ c };

    fn play<T: Travel>(&mut self, session: &mut Session<T>) -> () {
        session.wipe()
    }
}

/// The call `certify`, in the domain of the lent states, one for each block.
#[derive(Drop)]
pub struct Certify<'a, D> {
    pub store: &'a mut [D],
}

impl<'a, D: Domain> Calls for Certify<'a, D> {
    type Answers = Result<Certificate, CertifyRefusal>;

    ghost events = { λ c _ r. event (certify (domain D.Domain.lattice) (length c.store.now)) (by_verdict r) ∷ [] };

    ghost stays = { λ c d r. StatesStay c.store d.store r };

    fn play<T: Travel>(&mut self, session: &mut Session<T>) -> Result<Certificate, CertifyRefusal> {
        session.certify(self.store)
    }
}

/// The call `start`: a run from home with these values of #1 to #6.
#[derive(Clone, Copy)]
pub struct Start {
    pub values: [i32; PARAMETERS],
}

impl Calls for Start {
    type Answers = Result<(), StartRefusal>;

    ghost events = { λ c _ r. event (start c.values) (done_or start_refusal r) ∷ [] };

    ghost stays = { λ c d _. d ≡ c };

    fn play<T: Travel>(&mut self, session: &mut Session<T>) -> Result<(), StartRefusal> {
        session.start(self.values)
    }
}

/// The call `step`: one step of the run.
#[derive(Clone, Copy)]
pub struct Step;

impl Calls for Step {
    type Answers = Result<Progress, StepRefusal>;

    ghost events = { λ _ _ r. event step (by_step r) ∷ [] };

    ghost stays = { λ c d _. d ≡ c };

    fn play<T: Travel>(&mut self, session: &mut Session<T>) -> Result<Progress, StepRefusal> {
        session.step()
    }
}

/// The call `dry`: what at most so many steps from home, with these values of #1 to #6, would come to.
#[derive(Clone, Copy)]
pub struct Dry {
    pub values: [i32; PARAMETERS],
    pub steps: u32,
}

impl Calls for Dry {
    type Answers = Result<Ending, DryRefusal>;

    ghost events = { λ c _ r. event (dry c.values c.steps) (by_dry r) ∷ [] };

    ghost stays = { λ c d _. d ≡ c };

    fn play<T: Travel>(&mut self, session: &mut Session<T>) -> Result<Ending, DryRefusal> {
        session.dry(self.values, self.steps)
    }
}
