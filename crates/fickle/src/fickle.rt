// It tells nothing but that there is no environment, and its answers go to and fro: narrowing a state twice by the same range
// gives the state back, and one state is not within another of the same meaning.
ghost use Rattle.std.specs.Prelude.{◌≡◌, false, refl};
ghost use Rattle.fickle.specs.Fickle.{fickle, means, whole_or_empty};
ghost use Rattle.model.specs.Environments.{registers};
ghost use Rattle.fickle.specs.FickleLaws.{fickle_lawful, not_claimed};

use domain::domain::Domain;
use model::expression::{Condition, Expression};
use model::range::{EMPTY, Range};
use model::register::Register;
use model::side::Side;

// Fresh and stale both mean every environment. Not an Option of the two: none is a state like them.
#[derive(Clone, Copy)]
pub enum Fickle {
    None,
    Fresh,
    Stale,
}

fn whole_or_empty(range: Range) -> Range
    ensures { result ≡ whole_or_empty range }
{
    if range.is_empty() { EMPTY } else { range }
}

impl Domain for Fickle {
    const NONE_RANK: u64 = 2;

    ghost NONE_RANK = { 2 };

    ghost means = { means };

    ghost lattice = { fickle };

    ghost strict = { false };

    ghost ranked = { refl };

    ghost lawful = { fickle_lawful registers };

    ghost nothing = { λ h. not_claimed h };

    fn any() -> Self {
        Fickle::Fresh
    }

    fn none() -> Self {
        Fickle::None
    }

    fn narrow(&mut self, _register: Register, _range: Range) {
        *self = match self {
            Fickle::None => Fickle::None,
            Fickle::Fresh => Fickle::Stale,
            Fickle::Stale => Fickle::Fresh,
        };
    }

    fn keep(&mut self, _condition: &Condition) {}

    fn set(&mut self, _register: Register, _expression: &Expression) {
        *self = match self {
            Fickle::None => Fickle::None,
            Fickle::Fresh | Fickle::Stale => Fickle::Fresh,
        };
    }

    fn join(&mut self, other: &Self) {
        *self = match (&*self, other) {
            (Fickle::None, Fickle::None) => Fickle::None,
            _ => Fickle::Stale,
        };
    }

    fn widen(&mut self, other: &Self) {
        *self = match (&*self, other) {
            (Fickle::None, _) => *other,
            (Fickle::Fresh, Fickle::Stale) => Fickle::Stale,
            (Fickle::Fresh | Fickle::Stale, _) => *self,
        };
    }

    fn within(&self, other: &Self) -> bool {
        match (self, other) {
            (Fickle::None, _) => true,
            (Fickle::Fresh, Fickle::None) => false,
            (Fickle::Fresh, _) => true,
            (Fickle::Stale, Fickle::Stale) => true,
            (Fickle::Stale, _) => false,
        }
    }

    fn sure(&self, _expression: &Expression) -> bool {
        false
    }

    fn shows(&self, _side: Side) -> bool {
        false
    }

    fn range(&self, _register: Register, range: Range) -> Range {
        whole_or_empty(range)
    }
}
