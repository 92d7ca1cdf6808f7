// Congruences as sets of numbers for one register.
ghost use Rattle.std.specs.Prelude.{refl};
ghost use Rattle.congruences.specs.Numbers.{congruences};
ghost use Rattle.congruences.specs.Lawful;
ghost use Rattle.congruences.specs.Exact;

use crate::congruence::Congruence;
use model::expression::{LIMIT, Op, Rel};
use model::range::Range;
use model::side::{Factor, Sign};
use number_sets::sets::{NumberSet, Pair};

impl NumberSet for Congruence {
    // the modulus can fall 25 times, from 0 down to 1
    const MOST_WIDENINGS: u32 = 25;

    ghost MOST_WIDENINGS = { 25 };

    ghost sets = { congruences };

    ghost widenings = { refl };

    ghost lawful = { Lawful.lawful };

    ghost exact = { Exact.exact };

    fn whole() -> Self {
        Congruence {
            modulus: 1,
            residue: 0,
        }
    }

    fn single(n: i32) -> Self {
        Congruence {
            modulus: 0,
            residue: n.clamp(-LIMIT, LIMIT) as i64,
        }
    }

    fn apply(self, op: Op, other: Self) -> Option<Self> {
        self.results(op, other)
    }

    fn fits(self, op: Op, other: Self) -> bool {
        self.result_fits(op, other)
    }

    fn kept(self, rel: Rel, other: Self) -> Option<Pair<Self>> {
        self.sides_kept(rel, other)
    }

    fn meet(self, other: Self) -> Option<Self> {
        self.common(other)
    }

    fn narrow(self, range: Range) -> Option<Self> {
        self.narrowed(range)
    }

    fn hull(self, other: Self) -> Self {
        self.hull_with(other)
    }

    // Moduli can only fall to divisors, so the hull itself ends.
    fn widen(self, other: Self) -> Self {
        self.hull(other)
    }

    fn inside(self, other: Self) -> bool {
        self.lies_in(other)
    }

    fn bounds(self, a: Sign, b: Factor, other: Self, c: i32) -> bool {
        self.bounded(a, b, other, c)
    }

    fn range(self, range: Range) -> Range {
        self.range_in(range)
    }
}
