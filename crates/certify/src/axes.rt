// The axes of a move, in register order, and the sides of the travel, in their order.
ghost use Rattle.std.specs.Prelude.{◌≡◌};
ghost use Rattle.model.specs.Sides.{lowest};
ghost use Rattle.sweep.specs.Sweeps.{set_one, set_all, sure_one, all_sure, hull_with, hulls_with};

use domain::domain::Domain;
use model::expression::Value;
use model::range::{FULL, Range};
use model::register::{AXES, Register};
use model::side::Side;

// A value that is there does not fault.
fn is_sure<D: Domain>(state: &D, value: Option<Value>) -> bool
    ensures { result ≡ sure_one D.lattice state.now value }
{
    match value {
        None => true,
        Some(v) => state.sure(&v.into()),
    }
}

// Whether no value faults, each judged at the same state.
pub(crate) fn all_sure<D: Domain>(state: &D, values: &[Option<Value>; AXES]) -> bool
    ensures { result ≡ all_sure D.lattice state.now values.now }
{
    for value in values.iter().copied() {
        if !is_sure(state, value) {
            return false;
        }
    }
    true
}

fn set_axis<D: Domain>(state: &mut D, register: Register, value: Option<Value>)
    ensures { state.new ≡ set_one D.lattice register.index value state.old }
{
    if let Some(v) = value {
        state.set(register, &v.into());
    }
}

// The axes take those of the values that are there, in register order.
pub(crate) fn set_axes<D: Domain>(state: &mut D, values: &[Option<Value>; AXES])
    ensures { state.new ≡ set_all D.lattice 0 values.now state.old }
{
    for (index, value) in values.iter().copied().enumerate() {
        set_axis(state, Register { index }, value);
    }
}

// The number of the lowest side that the state does not show.
pub(crate) fn lowest_unshown<D: Domain>(state: &D, sides: &[Side]) -> Option<usize>
    ensures { result ≡ lowest (D.lattice.shows state.now) 0 sides.now }
{
    for (number, side) in sides.iter().copied().enumerate() {
        if !state.shows(side) {
            return Some(number);
        }
    }
    None
}

// The hull of what there was and a range, unless the range is empty.
fn hull_with(hull: Option<Range>, range: Range) -> Option<Range>
    ensures { result ≡ hull_with hull range }
{
    if range.is_empty() {
        return hull;
    }
    match hull {
        None => Some(range),
        Some(before) => Some(Range {
            lo: before.lo.min(range.lo),
            hi: before.hi.max(range.hi),
        }),
    }
}

// Each axis' hull takes in the range that the state has for it.
pub(crate) fn add_to_hulls<D: Domain>(state: &D, hulls: &mut [Option<Range>; AXES])
    ensures { hulls.new ≡ hulls_with D.lattice 0 state.now hulls.old }
{
    let before = *hulls;
    for (index, hull) in before.iter().copied().enumerate() {
        hulls[index] = hull_with(hull, state.range(Register { index }, FULL));
    }
}
