// What conditions leave of their two sides.
ghost use Rattle.std.specs.Prelude.{◌≡◌, pos, ◌≤ℤ◌};
ghost use Rattle.model.specs.Environments.{Lies, full};
ghost use Rattle.intervals.specs.Conditions.{below, up_from, down_from, except};

use crate::interval::Interval;
use crate::interval::spans::made;
use number_sets::sets::Pair;

// The two ends mirror each other: one function would take a step of 1 or -1, and no longer say which end it is of.
fn up_from(lo: i64, v: i64) -> i64
    requires { Lies lo full }
    ensures { result ≡ up_from lo v }
{
    if lo == v { lo + 1 } else { lo }
}

fn down_from(hi: i64, v: i64) -> i64
    requires { Lies hi full }
    ensures { result ≡ down_from hi v }
{
    if hi == v { hi - 1 } else { hi }
}

impl Interval {
    // What is left where the left number lies below the right one by the gap at least.
    pub(crate) fn below(self, other: Interval, gap: i64) -> Option<Pair<Interval>>
        requires { (pos 0 ≤ℤ gap) × (gap ≤ℤ pos 1) }
        ensures { result ≡ below gap self other }
    {
        Pair::both(
            made(self.lo, self.hi.min(other.hi - gap)),
            made(other.lo.max(self.lo + gap), other.hi),
        )
    }

    // What differs from the other side: only a single value can be left out, and only at an end.
    pub(crate) fn except(self, other: Interval) -> Option<Interval>
        ensures { result ≡ except self other }
    {
        if other.lo == other.hi {
            made(up_from(self.lo, other.lo), down_from(self.hi, other.lo))
        } else {
            Some(self)
        }
    }
}
