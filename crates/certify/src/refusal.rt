// What a certificate says, and why there is none.
ghost use Rattle.std.specs.Prelude.{◌≡◌};
ghost use Rattle.model.specs.Refusals.{failure_in};
ghost use Rattle.certify.specs.Refusals.{certify_refusal};

use model::ending::Failure;
use model::range::Range;
use model::register::AXES;

/// For each axis, in the order X, Y, Z, U, the least and the greatest position in micrometres that moves can command, or none where no
/// move can be reached.
#[derive(Clone, Copy)]
pub struct Certificate {
    pub hulls: [Option<Range>; AXES],
}

/// Why there is no certificate. Numbers and what they carry: `specs/Refusals`.
#[derive(Clone, Copy)]
pub enum CertifyRefusal {
    /// a block is open
    Open,
    /// fewer states are lent than there are blocks
    Store,
    /// the lowest line that fails, and why
    Uncertified(Failure),
}

impl CertifyRefusal {
    /// The number of the refusal. Not a `From`: `u32::from` would not say which number.
    pub fn number(self) -> u32
        ensures { result ≡ (certify_refusal self).number }
    {
        match self {
            CertifyRefusal::Open => 31,
            CertifyRefusal::Store => 32,
            CertifyRefusal::Uncertified(_) => 33,
        }
    }

    /// The line that fails, and why, where the refusal is of one.
    pub fn failure(self) -> Option<Failure>
        ensures { result ≡ failure_in (certify_refusal self).detail }
    {
        match self {
            CertifyRefusal::Uncertified(failure) => Some(failure),
            CertifyRefusal::Open | CertifyRefusal::Store => None,
        }
    }
}
