// A range of numbers.
ghost use Rattle.std.specs.Prelude.{◌≡◌, int_lt};
ghost use Rattle.model.specs.Environments.{fit, lies};

use crate::expression::LIMIT;

// From lo to hi, both included; empty where lo is above hi.
#[derive(Clone, Copy, PartialEq, Eq)]
pub struct Range {
    pub lo: i32,
    pub hi: i32,
}

// Every number that a register may have.
pub const FULL: Range = Range {
    lo: -LIMIT,
    hi: LIMIT,
};

// What an empty range is answered as.
pub const EMPTY: Range = Range { lo: 1, hi: 0 };

impl Range {
    // n..n
    pub fn single(n: i32) -> Range
        ensures { (result.lo ≡ n) × (result.hi ≡ n) }
    {
        Range { lo: n, hi: n }
    }

    // Whether no number lies in the range.
    pub fn is_empty(self) -> bool
        ensures { result ≡ int_lt self.hi self.lo }
    {
        self.hi < self.lo
    }

    // Whether the number lies in the range.
    pub fn contains(self, n: i64) -> bool
        ensures { result ≡ lies n self }
    {
        self.lo as i64 <= n && n <= self.hi as i64
    }
}

// Whether a result is no fault.
pub fn fits(n: i64) -> bool
    ensures { result ≡ fit n }
{
    FULL.contains(n)
}
