// The gantry: each axis moves between two ends.
ghost use Rattle.travel.specs.Travels.{Ordered};

use model::axes::Ends;

mod ends;
pub mod sides;

#[derive(Clone, Copy)]
pub struct Gantry {
    ends: Ends,
    ghost x: { Ordered ends.lower.x ends.home.x ends.upper.x },
    ghost y: { Ordered ends.lower.y ends.home.y ends.upper.y },
    ghost z: { Ordered ends.lower.z ends.home.z ends.upper.z },
    ghost u: { Ordered ends.lower.u ends.home.u ends.upper.u },
}
