// The least congruence that holds two, and whether one lies in another.
ghost use Rattle.std.specs.Prelude.{◌≡◌, ◌*◌, ◌≤◌, if◌then◌else◌, nat_eq};
ghost use Rattle.model.specs.Limits.{limit};
ghost use Rattle.divisibility.specs.Multiples.{remainder};
ghost use Rattle.congruences.specs.Hulls.{hull_modulus, hull, inside};

use crate::congruence::Congruence;
use divisibility::euclid::gcd;
use divisibility::remainders::{divides, remainder};

// A residue by any modulus.
fn rest(m: u64, r: i64) -> i64
    requires { m ≤ 2 * limit }
    ensures { result ≡ (if nat_eq m 0 then r else remainder r m) }
{
    if m == 0 { r } else { remainder(r, m) }
}

impl Congruence {
    fn hull_modulus(self, other: Congruence) -> u64
        ensures { result ≡ hull_modulus self other }
    {
        gcd(
            gcd(self.modulus, other.modulus),
            self.residue.abs_diff(other.residue),
        )
    }

    // The least congruence that holds both.
    pub fn hull_with(self, other: Congruence) -> Congruence
        ensures { result ≡ hull self other }
    {
        let m = self.hull_modulus(other);
        Congruence {
            modulus: m,
            residue: rest(m, self.residue),
        }
    }

    // Whether every member of this congruence is one of the other.
    pub fn lies_in(self, other: Congruence) -> bool
        ensures { result ≡ inside self other }
    {
        divides(other.modulus, self.modulus)
            && divides(other.modulus, self.residue.abs_diff(other.residue))
    }
}
