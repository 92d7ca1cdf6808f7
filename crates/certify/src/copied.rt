// A travel with its sides in a run, so that sweeps need not ask for them again.
ghost use Rattle.std.specs.Prelude.{◌≡◌, ◌≤◌, take};
ghost use Rattle.travel.specs.Travels.{most_sides};

use model::side::Side;
use travel::travel::{MAX_SIDES, Travel};

mod copying;

// The first `count` of the places are the travel's sides, in their order.
#[derive(Drop)]
pub(crate) struct CopiedSides<'a, T: Travel> {
    travel: &'a T,
    places: [Side; MAX_SIDES],
    count: usize,
    ghost few: { count ≤ most_sides },
    ghost sides: { take count places ≡ (T.envelope travel.now).sides },
}
