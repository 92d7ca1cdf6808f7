// The working store: one state for each block, by the block's number. It is the slice that was lent, and goes beside a place as
// it is: a type round both would be made anew for each line.
ghost use Rattle.std.specs.Prelude.{◌≡◌, length, replicate, slice_index_or, slice_set};
ghost use Rattle.program.specs.Held.{held};
ghost use Rattle.sweep.specs.Blocks.{blocks};
ghost use Rattle.sweep.specs.Sweeps.{came};
ghost use Rattle.certify.specs.Passes.{flowing};

use crate::pass::Pass;
use domain::domain::Domain;
use model::expression::{Condition, Rel, Term};
use program::table::Program;

const ALWAYS: Condition = Condition {
    rel: Rel::Eq,
    left: Term::Number(0),
    right: Term::Number(0),
};

// In a closed program each label that a line bears has a block, so neither 0 here nor ALWAYS below is ever used: a type for closed
// programs would ask more of callers.
pub(crate) fn place(program: &Program, label: u16) -> usize
    ensures { result ≡ (blocks (held program.now)).place label }
{
    program.block_number(label).unwrap_or(0)
}

pub(crate) fn condition_of(program: &Program, label: u16) -> Condition
    ensures { result ≡ (blocks (held program.now)).condition label }
{
    program.block(label).map_or(ALWAYS, |block| block.condition)
}

pub(crate) fn stored<D: Domain>(store: &[D], place: usize) -> D
    ensures { result ≡ slice_index_or store.now place D.lattice.none }
{
    // Not `unwrap_or`, which would make a state of none each time.
    match store.get(place) {
        Some(state) => *state,
        None => D::none(),
    }
}

pub(crate) fn put<D: Domain>(store: &mut [D], place: usize, state: D)
    ensures { store.new ≡ slice_set store.old place state }
{
    // Tried with get_mut(place) and iter_mut().nth(place): std does not say what the slice ends as after a write through them.
    if place < store.len() {
        store[place] = state;
    }
}

// The current state comes to a loop's state, and goes on as that.
pub(crate) fn come<D: Domain>(store: &mut [D], place: usize, pass: &mut Pass<D>)
    ensures flow { flowing store.new pass.new ≡ came D.lattice place (flowing store.old pass.old) }
    ensures failing { pass.new.failing ≡ pass.old.failing }
    ensures line { pass.new.line ≡ pass.old.line }
    ensures hulls { pass.new.hulls ≡ pass.old.hulls }
{
    let mut state = stored(store, place);
    if !pass.current.within(&state) {
        state.widen(&pass.current);
        put(store, place, state);
        pass.changed = true;
    }
    pass.current = state;
}

// No environment at any block.
pub(crate) fn clear<D: Domain>(store: &mut [D])
    ensures { store.new ≡ replicate (length store.old) D.lattice.none }
{
    // Tried: `fill_with(D::none)`, which the borrow checker does not cover; `fill` asks for clones that cannot fail.
    for state in store.iter_mut() {
        *state = D::none();
    }
}
