// One set of numbers for each register: reading, writing, and two tables entry by entry.
ghost use Rattle.std.specs.Prelude.{◌≡◌, ◌<◌};
ghost use Rattle.model.specs.Environments.{registers};
ghost use Rattle.pointwise.specs.States.{of, numbers, term, value, sure_value, bounded, changed};
ghost use Rattle.pointwise.specs.Tables.{build, every, Computes};

use model::expression::{Expression, Operand, Term};
use model::register::{REGISTERS, Register};
use model::side::Side;
use number_sets::sets::NumberSet;
use std::array;

#[tactic(auto, using(crate::proofs::Loops::set_changed))]
pub(crate) fn change<V: NumberSet>(sets: &mut [V; REGISTERS], register: Register, set: V)
    ensures { sets.new ≡ changed V.NumberSet.sets registers sets.old register.index set }
{
    sets[register.index] = set;
}

// The numbers that an operand may have.
fn numbers<V: NumberSet>(sets: &[V; REGISTERS], operand: Operand) -> V
    ensures { result ≡ numbers V.NumberSet.sets sets.now operand }
{
    match operand {
        Operand::Number(n) => V::single(n),
        Operand::Register(r) => sets[r.index],
    }
}

// Those of a term.
pub(crate) fn term<V: NumberSet>(sets: &[V; REGISTERS], t: Term) -> V
    ensures { result ≡ term V.NumberSet.sets sets.now t }
{
    numbers(sets, t.into())
}

// The results of an expression that lie within the limit.
pub(crate) fn value<V: NumberSet>(sets: &[V; REGISTERS], expression: &Expression) -> Option<V>
    ensures { result ≡ value V.NumberSet.sets sets.now expression.now }
{
    match *expression {
        Expression::Bare(x) => Some(numbers(sets, x)),
        Expression::Apply(op, x, y) => numbers(sets, x).apply(op, numbers(sets, y)),
    }
}

// The same cases as for the value, with another answer in each: one function for both would take two closures.
pub(crate) fn sure_value<V: NumberSet>(sets: &[V; REGISTERS], expression: &Expression) -> bool
    ensures { result ≡ sure_value V.NumberSet.sets sets.now expression.now }
{
    match *expression {
        Expression::Bare(_) => true,
        Expression::Apply(op, x, y) => numbers(sets, x).fits(op, numbers(sets, y)),
    }
}

pub(crate) fn bounded<V: NumberSet>(sets: &[V; REGISTERS], side: Side) -> bool
    ensures { result ≡ bounded V.NumberSet.sets sets.now side }
{
    let v = sets[Register::from(side.v).index];
    let w = sets[Register::from(side.w).index];
    v.bounds(side.a, side.b, w, side.c)
}

// What an operation gives of two tables, register by register.
pub(crate) fn pairwise<V: NumberSet, F: Fn(V, V) -> V>(
    left: &[V; REGISTERS],
    right: &[V; REGISTERS],
    f: F,
) -> [V; REGISTERS]
    requires { F.IsAlwaysCallable f }
    ensures { (g : V → V → V) → Computes (F.post f) g → result ≡ build registers (λ k. g (of V.NumberSet.sets left.now k) (of V.NumberSet.sets right.now k)) }
{
    array::from_fn(
        |k|
            requires within { k < registers }
            requires callable { F.IsAlwaysCallable f }
            ensures { F.post f (of V.NumberSet.sets left.entry.now k) (of V.NumberSet.sets right.entry.now k) result }
        { f(left[k], right[k]) },
    )
}

pub(crate) fn all_inside<V: NumberSet>(inner: &[V; REGISTERS], outer: &[V; REGISTERS]) -> bool
    ensures { result ≡ every registers (λ k. V.NumberSet.sets.inside (of V.NumberSet.sets inner.now k) (of V.NumberSet.sets outer.now k)) }
{
    inner.iter().zip(outer).all(|(x, y)| x.inside(*y))
}
