// Sums, differences and products of two intervals.
ghost use Rattle.std.specs.Prelude.{◌≡◌};
ghost use Rattle.intervals.specs.Results.{ends, cut, fits, least, greatest};

use crate::interval::Interval;
use crate::interval::spans::made;
use model::expression::{LIMIT, Op};

// The ends of a result before it is cut to the limit.
#[derive(Clone, Copy)]
pub(crate) struct Ends {
    pub lo: i64,
    pub hi: i64,
}

// The least and the greatest of four: a function of the way to choose would be longer than the two.
fn least(a: i64, b: i64, c: i64, d: i64) -> i64
    ensures { result ≡ least a b c d }
{
    a.min(b).min(c.min(d))
}

fn greatest(a: i64, b: i64, c: i64, d: i64) -> i64
    ensures { result ≡ greatest a b c d }
{
    a.max(b).max(c.max(d))
}

impl Interval {
    fn sum(self, other: Interval) -> Ends
        ensures { result ≡ ends Op.Add self other }
    {
        Ends {
            lo: self.lo + other.lo,
            hi: self.hi + other.hi,
        }
    }

    fn difference(self, other: Interval) -> Ends
        ensures { result ≡ ends Op.Sub self other }
    {
        Ends {
            lo: self.lo - other.hi,
            hi: self.hi - other.lo,
        }
    }

    // The extremes of a product are products of ends.
    fn products(self, other: Interval) -> Ends
        ensures { result ≡ ends Op.Mul self other }
    {
        let a = Op::Mul.apply(self.lo as i32, other.lo as i32);
        let b = Op::Mul.apply(self.lo as i32, other.hi as i32);
        let c = Op::Mul.apply(self.hi as i32, other.lo as i32);
        let d = Op::Mul.apply(self.hi as i32, other.hi as i32);
        Ends {
            lo: least(a, b, c, d),
            hi: greatest(a, b, c, d),
        }
    }

    // The ends of what an operation gives.
    pub(crate) fn ends(self, op: Op, other: Interval) -> Ends
        ensures { result ≡ ends op self other }
    {
        match op {
            Op::Add => self.sum(other),
            Op::Sub => self.difference(other),
            Op::Mul => self.products(other),
        }
    }
}

impl Ends {
    // What is left within the limit.
    pub(crate) fn cut(self) -> Option<Interval>
        ensures { result ≡ cut self }
    {
        made(self.lo.max(-(LIMIT as i64)), self.hi.min(LIMIT as i64))
    }

    // Whether there is nothing to cut.
    pub(crate) fn fits(self) -> bool
        ensures { result ≡ fits self }
    {
        -(LIMIT as i64) <= self.lo && self.hi <= LIMIT as i64
    }
}
