// How the sides are copied, and how they are seen.
ghost use Rattle.std.specs.Prelude.{◌≡◌, ◌≤◌, length, take};
ghost use Rattle.travel.specs.Travels.{most_sides};

use crate::copied::CopiedSides;
use model::expression::LIMIT;
use model::line::Axis;
use model::side::{Factor, Side, Sign};
use travel::travel::{MAX_SIDES, Travel};

// What stands past the last side: every position keeps to it.
const OPEN: Side = Side {
    a: Sign::Plus,
    v: Axis::X,
    b: Factor::Zero,
    w: Axis::Y,
    c: 2 * LIMIT,
};

// Puts the sides of the travel, by their numbers, into the first places.
fn copy<T: Travel>(travel: &T, places: &mut [Side; MAX_SIDES]) -> usize
    ensures few { result ≤ most_sides }
    ensures sides { take result places.new ≡ (T.envelope travel.now).sides }
{
    let count = travel.side_count();
    for n in 0..count {
        match travel.side(n) {
            Some(side) => places[n] = side,
            // each number below the count has a side
            None => unreachable(),
        }
    }
    count
}

impl<'a, T: Travel> CopiedSides<'a, T> {
    // Asks the travel for each of its sides once.
    pub(crate) fn new(travel: &'a T) -> CopiedSides<'a, T>
        ensures { result.travel ≡ travel.entry }
    {
        let mut places = [OPEN; MAX_SIDES];
        let count = copy(travel, &mut places);
        CopiedSides {
            travel,
            places,
            count,
        }
    }

    // The travel's sides, in their order.
    pub(crate) fn as_slice(&self) -> &[Side]
        ensures { result.now ≡ (T.envelope self.now.travel.now).sides }
    {
        &self.places[..self.count]
    }
}
