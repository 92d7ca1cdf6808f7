// How a gantry is made.
ghost use Rattle.std.specs.Prelude.{◌≡◌};
ghost use Rattle.model.specs.Axes.{along};
ghost use Rattle.travel.specs.Gantries.{in_order, ends_fit, GantryMade};

use crate::gantry::Gantry;
use crate::refusal::TravelRefusal;
use model::axes::Ends;
use model::expression::LIMIT;
use model::line::Axis;

fn in_order(lower: i32, home: i32, upper: i32) -> bool
    ensures { result ≡ in_order lower home upper }
{
    -LIMIT <= lower && lower <= home && home <= upper && upper <= LIMIT
}

fn axis_fits(v: Axis, ends: Ends) -> bool
    ensures { result ≡ in_order (along v ends.lower) (along v ends.home) (along v ends.upper) }
{
    in_order(ends.lower.get(v), ends.home.get(v), ends.upper.get(v))
}

// Tried: `all` over the axes leaves the goal open.
fn ends_fit(ends: Ends) -> bool
    ensures { result ≡ ends_fit ends }
{
    let x = axis_fits(Axis::X, ends);
    let y = axis_fits(Axis::Y, ends);
    let z = axis_fits(Axis::Z, ends);
    let u = axis_fits(Axis::U, ends);
    x && y && z && u
}

impl Gantry {
    pub fn new(ends: Ends) -> Result<Gantry, TravelRefusal>
        ensures { GantryMade ends result }
    {
        if ends_fit(ends) {
            Ok(Gantry { ends })
        } else {
            Err(TravelRefusal::Ends)
        }
    }
}
