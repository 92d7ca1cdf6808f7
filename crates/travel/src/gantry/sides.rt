// The travel of a gantry: two sides for each axis.
ghost use Rattle.std.specs.Prelude.{◌≡◌};
ghost use Rattle.model.specs.Axes.{along};
ghost use Rattle.travel.specs.Gantries.{other_axis, bound, at_most, at_least};
ghost use Rattle.travel.specs.Gantries.{gantry_envelope, lies_in, inside_ends};
ghost use Rattle.travel.specs.GantryLaw.{gantry_lawful};

use crate::gantry::Gantry;
use crate::travel::Travel;
use model::axes::{Ends, Position};
use model::line::Axis;
use model::side::{Factor, Side, Sign};

// The second axis of a side that only bounds v.
fn other(v: Axis) -> Axis
    ensures { result ≡ other_axis v }
{
    match v {
        Axis::X => Axis::Y,
        Axis::Y | Axis::Z | Axis::U => Axis::X,
    }
}

// A side that bounds v alone.
fn bound(a: Sign, v: Axis, c: i32) -> Side
    ensures { result ≡ bound a v c }
{
    Side {
        a,
        v,
        b: Factor::Zero,
        w: other(v),
        c,
    }
}

fn lies(v: Axis, ends: Ends, p: Position) -> bool
    ensures { result ≡ lies_in (along v ends.lower) (along v p) (along v ends.upper) }
{
    let n = p.get(v);
    ends.lower.get(v) <= n && n <= ends.upper.get(v)
}

// Tried: `all` over the axes leaves the goal open.
fn inside_ends(ends: Ends, p: Position) -> bool
    ensures { result ≡ inside_ends ends.lower p ends.upper }
{
    let x = lies(Axis::X, ends, p);
    let y = lies(Axis::Y, ends, p);
    let z = lies(Axis::Z, ends, p);
    let u = lies(Axis::U, ends, p);
    x && y && z && u
}

impl Gantry {
    fn at_most(&self, v: Axis) -> Side
        ensures { result ≡ at_most v (along v self.now.ends.upper) }
    {
        bound(Sign::Plus, v, self.ends.upper.get(v))
    }

    fn at_least(&self, v: Axis) -> Side
        ensures { result ≡ at_least v (along v self.now.ends.lower) }
    {
        bound(Sign::Minus, v, -self.ends.lower.get(v))
    }
}

impl Travel for Gantry {
    ghost envelope = { gantry_envelope };

    ghost lawful = { λ g. gantry_lawful g };

    fn side_count(&self) -> usize {
        8
    }

    #[inline(always)]
    fn side(&self, n: usize) -> Option<Side> {
        match n {
            0 => Some(self.at_most(Axis::X)),
            1 => Some(self.at_least(Axis::X)),
            2 => Some(self.at_most(Axis::Y)),
            3 => Some(self.at_least(Axis::Y)),
            4 => Some(self.at_most(Axis::Z)),
            5 => Some(self.at_least(Axis::Z)),
            6 => Some(self.at_most(Axis::U)),
            7 => Some(self.at_least(Axis::U)),
            _ => None,
        }
    }

    fn home(&self) -> Position {
        self.ends.home
    }

    fn inside(&self, p: Position) -> bool {
        inside_ends(self.ends, p)
    }
}
