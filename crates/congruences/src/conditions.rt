// What a condition leaves of its two sides.
ghost use Rattle.std.specs.Prelude.{◌≡◌};
ghost use Rattle.congruences.specs.Conditions.{fails, unless, kept};

use crate::congruence::Congruence;
use model::expression::Rel;
use number_sets::sets::Pair;

impl Congruence {
    fn fails(self, rel: Rel, other: Congruence) -> bool
        ensures { result ≡ fails rel self other }
    {
        self.modulus == 0 && other.modulus == 0 && !rel.holds(self.residue, other.residue)
    }

    fn unless(self, rel: Rel, other: Congruence) -> Option<Pair<Congruence>>
        ensures { result ≡ unless rel self other }
    {
        let pair = Pair {
            left: self,
            right: other,
        };
        (!self.fails(rel, other)).then_some(pair)
    }

    // What a condition leaves of its two sides, or None where no pair meets it.
    pub fn sides_kept(self, rel: Rel, other: Congruence) -> Option<Pair<Congruence>>
        ensures { result ≡ kept rel self other }
    {
        match rel {
            Rel::Eq => {
                let common = self.common(other);
                Pair::both(common, common)
            }
            Rel::Ne | Rel::Lt | Rel::Le | Rel::Gt | Rel::Ge => self.unless(rel, other),
        }
    }
}
