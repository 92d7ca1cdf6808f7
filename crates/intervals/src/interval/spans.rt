// Intervals from their ends.
ghost use Rattle.std.specs.Prelude.{◌≡◌, int_lt, pos, neg_ℤ, ◌≤ℤ◌};
ghost use Rattle.model.specs.Limits.{limit};
ghost use Rattle.intervals.specs.Made.{made};
ghost use Rattle.intervals.specs.Widening.{down_to, up_to};

use crate::interval::Interval;
use model::expression::LIMIT;

// lo..hi of ends that keep to the limit, or none where that is empty: what narrows an interval needs no other test.
pub(crate) fn ordered(lo: i64, hi: i64) -> Option<Interval>
    requires { (neg_ℤ (pos limit) ≤ℤ lo) × (hi ≤ℤ pos limit) }
    ensures { result ≡ made lo hi }
{
    if lo <= hi {
        Some(Interval { lo, hi })
    } else {
        None
    }
}

// lo..hi, or none where that is empty or reaches beyond the limit.
pub(crate) fn made(lo: i64, hi: i64) -> Option<Interval>
    ensures { result ≡ made lo hi }
{
    if -(LIMIT as i64) <= lo && lo <= hi && hi <= LIMIT as i64 {
        Some(Interval { lo, hi })
    } else {
        None
    }
}

// A lower end that fell goes as low as it can. The upper end mirrors it: one function would take the order and the limit.
pub(crate) fn widened_down(old: i64, new: i64) -> i64
    ensures { result ≡ down_to (int_lt new old) old }
{
    if new < old { -(LIMIT as i64) } else { old }
}

// An upper end that rose goes as high as it can.
pub(crate) fn widened_up(old: i64, new: i64) -> i64
    ensures { result ≡ up_to (int_lt old new) old }
{
    if old < new { LIMIT as i64 } else { old }
}
