// Sums, differences and products.
ghost use Rattle.std.specs.Prelude.{◌≡◌};
ghost use Rattle.congruences.specs.Results.{modulus_of, results, fits};

use crate::congruence::Congruence;
use crate::settle::settled;
use divisibility::euclid::gcd;
use model::expression::Op;
use model::range::fits;

impl Congruence {
    fn modulus_of(self, op: Op, other: Congruence) -> u64
        ensures { result ≡ modulus_of op self other }
    {
        match op {
            Op::Add | Op::Sub => gcd(self.modulus, other.modulus),
            Op::Mul => gcd(
                self.modulus * other.modulus,
                gcd(
                    self.residue.unsigned_abs() * other.modulus,
                    other.residue.unsigned_abs() * self.modulus,
                ),
            ),
        }
    }

    // The congruence of all results of an operation, within the limit.
    pub fn results(self, op: Op, other: Congruence) -> Option<Congruence>
        ensures { result ≡ results op self other }
    {
        settled(
            self.modulus_of(op, other),
            op.apply(self.narrow_residue(), other.narrow_residue()),
        )
    }

    // Whether both are single and their result lies within the limit.
    pub fn result_fits(self, op: Op, other: Congruence) -> bool
        ensures { result ≡ fits op self other }
    {
        self.modulus == 0
            && other.modulus == 0
            && fits(op.apply(self.narrow_residue(), other.narrow_residue()))
    }
}
