// States that hold one set of numbers for each register.
ghost use Rattle.std.specs.Prelude.{◌≡◌, ◌+◌, ◌*◌, ◌%◌, ◌^◌, true, Some};
ghost use Rattle.std.specs.Option.{option_and_then};
ghost use Rattle.model.specs.Environments.{registers};
ghost use Rattle.pointwise.specs.States.{put, kept_registers, kept_sides, merged, pointwise, state_means};
ghost use Rattle.pointwise.specs.Tables.{Computes};
ghost use Rattle.pointwise.specs.StateLaws.{state_lawful, registers_named, none_ranked};
ghost use Rattle.pointwise.specs.StateNothing.{state_strict};

use crate::sets::{all_inside, bounded, change, pairwise, sure_value, term, value};
use domain::domain::Domain;
use model::expression::{Condition, Expression, Term};
use model::range::{EMPTY, Range};
use model::register::{REGISTERS, Register};
use model::side::Side;
use number_sets::sets::{NumberSet, Pair};

// A set for each register, or no environment at all.
#[derive(Clone, Copy)]
pub struct Pointwise<V> {
    sets: Option<[V; REGISTERS]>,
}

// No number for one register leaves no environment at all.
fn put<V: NumberSet>(state: &mut Option<[V; REGISTERS]>, register: Register, set: Option<V>)
    ensures { state.new ≡ option_and_then (λ xs. put V.NumberSet.sets registers xs register.index set) state.old }
{
    match (&mut *state, set) {
        (Some(sets), Some(set)) => change(sets, register, set),
        (_, _) => *state = None,
    }
}

// What a condition leaves goes to its two registers; one register on both sides keeps what both leave it.
fn keep_registers<V: NumberSet>(
    state: &mut Option<[V; REGISTERS]>,
    left: Register,
    right: Register,
    pair: Pair<V>,
)
    ensures { state.new ≡ option_and_then (λ xs. kept_registers V.NumberSet.sets registers xs left.index right.index pair) state.old }
{
    if left == right {
        put(state, left, pair.left.meet(pair.right));
    } else {
        put(state, left, Some(pair.left));
        put(state, right, Some(pair.right));
    }
}

// A number has no register.
fn keep_sides<V: NumberSet>(
    state: &mut Option<[V; REGISTERS]>,
    left: Term,
    right: Term,
    pair: Pair<V>,
)
    ensures { state.new ≡ option_and_then (λ xs. kept_sides V.NumberSet.sets registers xs left right (Some pair)) state.old }
{
    match (left, right) {
        (Term::Number(_), Term::Number(_)) => {}
        (Term::Parameter(p), Term::Number(_)) => put(state, p.into(), Some(pair.left)),
        (Term::Number(_), Term::Parameter(q)) => put(state, q.into(), Some(pair.right)),
        (Term::Parameter(p), Term::Parameter(q)) => {
            keep_registers(state, p.into(), q.into(), pair);
        }
    }
}

// Beside no environment the other state stays.
fn merge<V: NumberSet, F: Fn(V, V) -> V>(left: &mut Pointwise<V>, right: &Pointwise<V>, f: F)
    requires { F.IsAlwaysCallable f }
    ensures { (g : V → V → V) → Computes (F.post f) g → left.new.sets ≡ merged V.NumberSet.sets registers g left.old.sets right.now.sets }
{
    match (&mut left.sets, &right.sets) {
        (_, None) => {}
        (None, Some(ys)) => left.sets = Some(*ys),
        (Some(xs), Some(ys)) => *xs = pairwise(xs, ys, f),
    }
}

// Each operation matches on what is there. Tried: `as_ref` with `is_none_or` and `map_or`, which leave their goals open.
impl<V: NumberSet> Domain for Pointwise<V> {
    // one above what all sets together can be widened
    const NONE_RANK: u64 = V::MOST_WIDENINGS as u64 * REGISTERS as u64 + 1;

    ghost NONE_RANK = { (V.NumberSet.MOST_WIDENINGS * registers + 1) % 2 ^ 64 };

    ghost means = { state_means V.NumberSet.sets registers };

    ghost lattice = { pointwise V.NumberSet.sets registers };

    ghost strict = { true };

    ghost ranked = { none_ranked V.NumberSet.sets V.NumberSet.MOST_WIDENINGS V.NumberSet.widenings };

    ghost lawful = { state_lawful V.NumberSet.sets V.NumberSet.lawful registers registers_named };

    ghost nothing = { λ h. state_strict V.NumberSet.sets registers };

    #[tactic(auto, unfolding(crate::specs::Tables::build))]
    fn any() -> Self {
        Pointwise {
            sets: Some([V::whole(); REGISTERS]),
        }
    }

    fn none() -> Self {
        Pointwise { sets: None }
    }

    fn narrow(&mut self, register: Register, range: Range) {
        let Some(sets) = &self.sets else {
            return;
        };
        let set = sets[register.index].narrow(range);
        put(&mut self.sets, register, set);
    }

    fn keep(&mut self, condition: &Condition) {
        let Some(sets) = &self.sets else {
            return;
        };
        let left = term(sets, condition.left);
        let right = term(sets, condition.right);
        match left.kept(condition.rel, right) {
            Some(pair) => keep_sides(&mut self.sets, condition.left, condition.right, pair),
            None => self.sets = None,
        }
    }

    fn set(&mut self, register: Register, expression: &Expression) {
        let Some(sets) = &self.sets else {
            return;
        };
        let set = value(sets, expression);
        put(&mut self.sets, register, set);
    }

    fn join(&mut self, other: &Self) {
        merge(self, other, V::hull);
    }

    fn widen(&mut self, other: &Self) {
        merge(self, other, V::widen);
    }

    fn within(&self, other: &Self) -> bool {
        match (&self.sets, &other.sets) {
            (None, _) => true,
            (_, None) => false,
            (Some(inner), Some(outer)) => all_inside(inner, outer),
        }
    }

    fn sure(&self, expression: &Expression) -> bool {
        match &self.sets {
            None => true,
            Some(sets) => sure_value(sets, expression),
        }
    }

    fn shows(&self, side: Side) -> bool {
        match &self.sets {
            None => true,
            Some(sets) => bounded(sets, side),
        }
    }

    fn range(&self, register: Register, range: Range) -> Range {
        match &self.sets {
            None => EMPTY,
            Some(sets) => sets[register.index].range(range),
        }
    }
}
