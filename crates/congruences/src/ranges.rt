// The members in a range.
ghost use Rattle.std.specs.Prelude.{◌≡◌, pos, neg_ℤ, ◌≤ℤ◌};
ghost use Rattle.model.specs.Limits.{limit};
ghost use Rattle.congruences.specs.Ranges.{first, last, ends, lower, upper, ranged, narrowed, Found};

use crate::congruence::Congruence;
use crate::settle::checked_single;
use divisibility::remainders::remainder;
use model::expression::LIMIT;
use model::range::{EMPTY, Range};

impl Congruence {
    // First and last mirror each other: one function would take the order and the sign of the step.
    fn first(self, lo: i32) -> i64
        ensures { result ≡ first self lo }
    {
        if self.modulus == 0 {
            self.residue
        } else {
            lo as i64 + remainder(self.residue - lo as i64, self.modulus)
        }
    }

    fn last(self, hi: i32) -> i64
        ensures { result ≡ last self hi }
    {
        if self.modulus == 0 {
            self.residue
        } else {
            hi as i64 - remainder(hi as i64 - self.residue, self.modulus)
        }
    }

    // The least and the greatest member in a range, or None where there is none.
    fn ends(self, range: Range) -> Option<Range>
        ensures { result ≡ ends self range.lo range.hi }
    {
        let first = self.first(range.lo);
        if range.contains(first) {
            Some(Range {
                lo: first as i32,
                hi: self.last(range.hi) as i32,
            })
        } else {
            None
        }
    }

    // The same in what of the range lies within the limit.
    fn ends_in(self, range: Range) -> Option<Range>
        ensures { result ≡ ends self (lower range) (upper range) }
    {
        self.ends(Range {
            lo: range.lo.max(-LIMIT),
            hi: range.hi.min(LIMIT),
        })
    }

    // From the least to the greatest member in a range within the limit, or 1..0 where there is none.
    pub fn range_in(self, range: Range) -> Range
        ensures value { result ≡ ranged self range }
        ensures found { Found self range result }
    {
        self.ends_in(range).unwrap_or(EMPTY)
    }

    // None where no member lies in the range, the single one where there is one.
    pub fn narrowed(self, range: Range) -> Option<Congruence>
        ensures { result ≡ narrowed self range }
    {
        let ends = self.ends_in(range)?;
        if ends.lo == ends.hi {
            checked_single(ends.lo as i64)
        } else {
            Some(self)
        }
    }
}
