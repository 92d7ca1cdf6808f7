// An interval is a set of numbers.
ghost use Rattle.std.specs.Prelude.{◌≡◌, refl};
ghost use Rattle.intervals.specs.Intervals.{intervals};
ghost use Rattle.intervals.specs.Ranges.{as_range};
ghost use Rattle.intervals.specs.Laws.{intervals_lawful, intervals_exact};

use crate::interval::Interval;
use crate::interval::spans::{ordered, widened_down, widened_up};
use model::expression::{LIMIT, Op, Rel};
use model::range::{EMPTY, Range};
use model::side::{Factor, Sign};
use number_sets::sets::{NumberSet, Pair};

impl From<Interval> for Range {
    ghost from_gives = { λ x range. range ≡ as_range x };

    fn from(x: Interval) -> Range {
        Range {
            lo: x.lo as i32,
            hi: x.hi as i32,
        }
    }
}

impl NumberSet for Interval {
    // each end can move once
    const MOST_WIDENINGS: u32 = 2;

    ghost MOST_WIDENINGS = { 2 };

    ghost sets = { intervals };

    ghost widenings = { refl };

    ghost lawful = { intervals_lawful };

    ghost exact = { intervals_exact };

    fn whole() -> Self {
        Interval {
            lo: -(LIMIT as i64),
            hi: LIMIT as i64,
        }
    }

    fn single(n: i32) -> Self {
        let v = (n as i64).clamp(-(LIMIT as i64), LIMIT as i64);
        Interval { lo: v, hi: v }
    }

    fn apply(self, op: Op, other: Self) -> Option<Self> {
        self.ends(op, other).cut()
    }

    fn fits(self, op: Op, other: Self) -> bool {
        self.ends(op, other).fits()
    }

    fn kept(self, rel: Rel, other: Self) -> Option<Pair<Self>> {
        match rel {
            Rel::Eq => Pair::both(self.meet(other), self.meet(other)),
            Rel::Ne => Pair::both(self.except(other), other.except(self)),
            Rel::Lt => self.below(other, 1),
            Rel::Le => self.below(other, 0),
            Rel::Gt => other.below(self, 1).map(Pair::turned),
            Rel::Ge => other.below(self, 0).map(Pair::turned),
        }
    }

    fn meet(self, other: Self) -> Option<Self> {
        ordered(self.lo.max(other.lo), self.hi.min(other.hi))
    }

    fn narrow(self, range: Range) -> Option<Self> {
        ordered(self.lo.max(range.lo as i64), self.hi.min(range.hi as i64))
    }

    fn hull(self, other: Self) -> Self {
        Interval {
            lo: self.lo.min(other.lo),
            hi: self.hi.max(other.hi),
        }
    }

    fn widen(self, other: Self) -> Self {
        Interval {
            lo: widened_down(self.lo, other.lo),
            hi: widened_up(self.hi, other.hi),
        }
    }

    fn inside(self, other: Self) -> bool {
        other.lo <= self.lo && self.hi <= other.hi
    }

    fn bounds(self, a: Sign, b: Factor, other: Self, c: i32) -> bool {
        self.most_signed(a) + other.most_scaled(b) <= c as i64
    }

    fn range(self, range: Range) -> Range {
        self.narrow(range).map_or(EMPTY, Range::from)
    }
}
