// Whether a sum of members is known to stay under a bound.
ghost use Rattle.std.specs.Prelude.{◌≡◌};
ghost use Rattle.congruences.specs.Bounds.{settles, bounded_by};

use crate::congruence::Congruence;
use model::side::{Factor, Sign, sum_at_most};

impl Congruence {
    // Whether a factor times a member is one known number.
    fn settles(self, factor: Factor) -> bool
        ensures { result ≡ settles factor self }
    {
        match factor {
            Factor::Plus | Factor::Minus => self.modulus == 0,
            Factor::Zero => true,
        }
    }

    // Whether a·v + b·w ≤ c is known of all members v of this congruence and w of the other.
    pub fn bounded(self, a: Sign, b: Factor, other: Congruence, c: i32) -> bool
        ensures { result ≡ bounded_by a self b other c }
    {
        self.modulus == 0
            && other.settles(b)
            && sum_at_most(a, self.narrow_residue(), b, other.narrow_residue(), c)
    }
}
