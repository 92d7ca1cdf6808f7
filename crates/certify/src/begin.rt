// The state that each sweep starts from.
ghost use Rattle.std.specs.Prelude.{◌≡◌};
ghost use Rattle.model.specs.Sides.{axis_register};
ghost use Rattle.domain.specs.Lattice.{single};
ghost use Rattle.sweep.specs.Starts.{start};

use domain::domain::Domain;
use model::line::Axis;
use model::range::Range;
use model::register::{AXES, PARAMETERS, Register};
use travel::travel::Travel;

// The axis has this number alone.
fn pin<D: Domain>(state: &mut D, axis: Axis, n: i32)
    ensures { state.new ≡ D.lattice.narrow state.old (axis_register axis) (single n) }
{
    state.narrow(axis.into(), Range::single(n));
}

// The axes at home, and each parameter in its allowed range.
pub(crate) fn begin<D: Domain, T: Travel>(travel: &T, allowed: &[Range; PARAMETERS]) -> D
    ensures { result ≡ start D.lattice (T.envelope travel.now) allowed.now }
{
    let home = travel.home();
    let mut state = D::any();
    pin(&mut state, Axis::X, home.x);
    pin(&mut state, Axis::Y, home.y);
    pin(&mut state, Axis::Z, home.z);
    pin(&mut state, Axis::U, home.u);
    for (k, range) in allowed.iter().enumerate() {
        state.narrow(Register { index: AXES + k }, *range);
    }
    state
}
