// What every domain answers.
ghost use Rattle.std.specs.Prelude.{◌≡◌, ℕ, ◌%◌, ◌^◌, Bool, true};
ghost use Rattle.model.specs.Environments.{registers};
ghost use Rattle.domain.specs.Lattice.{Lattice, Lawful, Meaning};
ghost use Rattle.domain.specs.Nothing.{Strict};

use model::expression::{Condition, Expression};
use model::range::Range;
use model::register::Register;
use model::side::Side;

/// An abstract domain. A state means a set of environments, and each operation is that of the lattice, which is built on that meaning and
/// keeps the laws of `domain/specs/Lattice`. Sweeps rest on the meaning, the rank and what the operations answer, and on nothing else.
/// What makes a new state of an old one works in place, for a state is large.
pub trait Domain: Copy {
    /// The rank of none modulo 2^64.
    const NONE_RANK: u64;

    ghost NONE_RANK: { ℕ };

    // the environments that a state means
    ghost means: { Meaning Self };

    ghost lattice: { Lattice means };

    // whether nothing comes of none: a domain may claim it, and no sweep asks it
    ghost strict: { Bool };

    /// The state that means every environment.
    fn any() -> Self
        ensures { result ≡ lattice.any };

    /// The state that means no environment.
    fn none() -> Self
        ensures { result ≡ lattice.none };

    /// Keeps each environment whose register lies in the range.
    fn narrow(&mut self, register: Register, range: Range)
        ensures { self.new ≡ lattice.narrow self.old register.index range };

    /// Keeps each environment that meets the condition.
    fn keep(&mut self, condition: &Condition)
        ensures { self.new ≡ lattice.keep self.old condition.now };

    /// Gives the register the expression's result, at each environment where that does not fault.
    fn set(&mut self, register: Register, expression: &Expression)
        ensures { self.new ≡ lattice.set self.old register.index expression.now };

    /// Takes in every environment of the other state.
    fn join(&mut self, other: &Self)
        ensures { self.new ≡ lattice.join self.old other.now };

    /// Takes in every environment of the other state, and ranks lower where that was not within it.
    fn widen(&mut self, other: &Self)
        ensures { self.new ≡ lattice.widen self.old other.now };

    /// Whether every environment is known to be one of the other state.
    fn within(&self, other: &Self) -> bool
        ensures { result ≡ lattice.within self.now other.now };

    /// Whether the expression is known to fault at no environment.
    fn sure(&self, expression: &Expression) -> bool
        ensures { result ≡ lattice.sure self.now expression.now };

    /// Whether the side is known to hold at every environment.
    fn shows(&self, side: Side) -> bool
        ensures { result ≡ lattice.shows self.now side };

    /// A part of the range, or 1..0, that has each number of the range that the register may have.
    fn range(&self, register: Register, range: Range) -> Range
        ensures { result ≡ lattice.range self.now register.index range };

    ghost ranked: { NONE_RANK ≡ lattice.rank lattice.none % 2 ^ 64 };

    ghost lawful: { Lawful registers lattice };

    ghost nothing: { strict ≡ true → Strict registers lattice };
}
