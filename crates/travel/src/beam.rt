// The beam: a gantry whose U stays ahead of X by a gap.
ghost use Rattle.std.specs.Prelude.{pos, ◌+ℤ◌, ◌≤ℤ◌};
ghost use Rattle.model.specs.Limits.{limit};

use crate::gantry::Gantry;

mod gap;
pub mod sides;

#[derive(Clone, Copy)]
pub struct Beam {
    base: Gantry,
    gap: i32,
    ghost wide: { (pos 1 ≤ℤ gap) × (gap ≤ℤ pos limit) × ((base.ends.home.x +ℤ gap) ≤ℤ base.ends.home.u) },
}
