// How large a signed number of an interval can be. A sign is no factor of zero: two short matches are plainer than a conversion
// and its lemma.
ghost use Rattle.std.specs.Prelude.{◌≡◌};
ghost use Rattle.intervals.specs.Bounds.{most_signed, most_scaled};

use crate::interval::Interval;
use model::side::{Factor, Sign};

impl Interval {
    pub(crate) fn most_signed(self, a: Sign) -> i64
        ensures { result ≡ most_signed a self }
    {
        match a {
            Sign::Plus => self.hi,
            Sign::Minus => -self.lo,
        }
    }

    pub(crate) fn most_scaled(self, b: Factor) -> i64
        ensures { result ≡ most_scaled b self }
    {
        match b {
            Factor::Plus => self.hi,
            Factor::Zero => 0,
            Factor::Minus => -self.lo,
        }
    }
}
