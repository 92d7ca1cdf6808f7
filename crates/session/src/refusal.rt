// Why a call is refused.
ghost use Rattle.std.specs.Prelude.{◌≡◌};
ghost use Rattle.model.specs.Refusals.{parameter_in};
ghost use Rattle.session.specs.Refusals.{allow_refusal, start_refusal, step_refusal, dry_refusal};
ghost use Rattle.session.specs.declared.refusal.StepRefusal.TheVariants.{NoRun as Refused};

use certify::refusal::CertifyRefusal;
use runner::run::NoRun;

/// Why a range is not allowed.
#[derive(Clone, Copy)]
pub enum AllowRefusal {
    /// no such parameter
    Parameter,
    /// the ends are out of order or out of bounds
    Range,
}

impl AllowRefusal {
    /// The number of the refusal, by `allow_refusal` in `specs/Refusals`. Not a `From`: `u32::from` would not say which number.
    pub fn number(self) -> u32
        ensures { result ≡ (allow_refusal self).number }
    {
        match self {
            AllowRefusal::Parameter => 26,
            AllowRefusal::Range => 27,
        }
    }
}

/// Why there is no dry run.
#[derive(Clone, Copy)]
pub enum DryRefusal {
    /// a block is open
    Open,
    /// too many steps are asked for
    Steps,
    /// a value is out of bounds
    Value,
}

impl DryRefusal {
    /// The number of the refusal, by `dry_refusal` in `specs/Refusals`. Not a `From`: `u32::from` would not say which number.
    pub fn number(self) -> u32
        ensures { result ≡ (dry_refusal self).number }
    {
        match self {
            DryRefusal::Open => CertifyRefusal::Open.number(),
            DryRefusal::Steps => 44,
            DryRefusal::Value => 45,
        }
    }
}

/// Why no run begins.
#[derive(Clone, Copy)]
pub enum StartRefusal {
    /// no certificate stands
    Uncertified,
    /// the lowest parameter, from 1, whose value lies outside its range
    Outside(usize),
}

impl StartRefusal {
    /// The number of the refusal, by `start_refusal` in `specs/Refusals`. Not a `From`: `u32::from` would not say which number.
    pub fn number(self) -> u32
        ensures { result ≡ (start_refusal self).number }
    {
        match self {
            StartRefusal::Uncertified => 41,
            StartRefusal::Outside(_) => 42,
        }
    }

    /// The parameter that the refusal names, from 1, if it names one.
    pub fn parameter(self) -> Option<usize>
        ensures { result ≡ parameter_in (start_refusal self).detail }
    {
        match self {
            StartRefusal::Uncertified => None,
            StartRefusal::Outside(parameter) => Some(parameter),
        }
    }
}

/// Why a run makes no step.
#[derive(Clone, Copy)]
pub enum StepRefusal {
    /// no run goes
    NoRun,
}

impl From<NoRun> for StepRefusal {
    ghost from_gives = { λ _ result. result ≡ Refused };

    fn from(_refusal: NoRun) -> StepRefusal {
        StepRefusal::NoRun
    }
}

impl StepRefusal {
    /// The number of the refusal, by `step_refusal` in `specs/Refusals`. Not a `From`: `u32::from` would not say which number.
    pub fn number(self) -> u32
        ensures { result ≡ (step_refusal self).number }
    {
        match self {
            StepRefusal::NoRun => 43,
        }
    }
}
