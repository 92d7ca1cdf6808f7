// Whether a side holds at a position, and which side of a travel is the first that does not.
ghost use Rattle.std.specs.Prelude.{◌≡◌};
ghost use Rattle.model.specs.Sides.{kept, lowest};

use crate::travel::Travel;
use model::axes::Position;
use model::side::{Side, sum_at_most};

pub fn holds(side: Side, p: Position) -> bool
    ensures { result ≡ kept p side }
{
    sum_at_most(side.a, p.get(side.v), side.b, p.get(side.w), side.c)
}

// By number, for a travel need not hold its sides in a slice.
pub fn lowest_broken<T: Travel>(travel: &T, p: Position) -> Option<usize>
    ensures { result ≡ lowest (kept p) 0 (T.envelope travel.now).sides }
{
    for n in 0..travel.side_count() {
        if !holds(travel.side(n)?, p) {
            return Some(n);
        }
    }
    None
}
