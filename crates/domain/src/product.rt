// Two domains side by side: a state means what both of its sides mean. One function for the operations that go side by side would be
// handed each operation twice, once for each side's type.
ghost use Rattle.std.specs.Prelude.{◌≡◌, ◌+◌, ◌%◌, ◌^◌, ◌&&◌};
ghost use Rattle.model.specs.Environments.{registers};
ghost use Rattle.domain.specs.Pairs.{both_mean, pair, reduce, reduce_at};
ghost use Rattle.domain.specs.PairLaws.{pair_lawful, pair_ranked};
ghost use Rattle.std.proofs.lemmas.Bool.{and_parts};
ghost use Rattle.domain.specs.PairNothing.{pair_strict};

use crate::domain::Domain;
use model::expression::{Condition, Expression};
use model::range::{FULL, Range};
use model::register::{REGISTERS, Register};
use model::side::Side;

#[derive(Clone, Copy)]
pub struct Product<A, B> {
    first: A,
    second: B,
}

impl<A: Domain, B: Domain> Product<A, B> {
    #[tactic(auto, unfolding(crate::specs::Pairs::reduce_at))]
    fn reduce_at(&mut self, register: Register)
        ensures { self.new ≡ reduce_at A.Domain.lattice B.Domain.lattice register.index self.old }
    {
        let seen = self.first.range(register, FULL);
        let common = self.second.range(register, seen);
        let outcome = self.first.range(register, common);
        self.first.narrow(register, outcome);
        self.second.narrow(register, outcome);
    }

    // Each side learns, register by register, what the other knows.
    #[tactic(auto, unfolding(crate::specs::Pairs::reduce))]
    fn reduce(&mut self)
        ensures { self.new ≡ reduce A.Domain.lattice B.Domain.lattice registers self.old }
    {
        // A register is made of its number.
        for index in 0..REGISTERS {
            self.reduce_at(Register { index });
        }
    }
}

impl<A: Domain, B: Domain> Domain for Product<A, B> {
    const NONE_RANK: u64 = A::NONE_RANK.wrapping_add(B::NONE_RANK);

    ghost NONE_RANK = { (A.Domain.NONE_RANK + B.Domain.NONE_RANK) % 2 ^ 64 };

    ghost means = { both_mean A.Domain.means B.Domain.means };

    ghost lattice = { pair A.Domain.lattice B.Domain.lattice registers };

    ghost strict = { A.Domain.strict && B.Domain.strict };

    ghost ranked = { pair_ranked registers A.Domain.lattice B.Domain.lattice A.Domain.NONE_RANK B.Domain.NONE_RANK A.Domain.ranked B.Domain.ranked };

    ghost lawful = { pair_lawful registers A.Domain.lattice B.Domain.lattice A.Domain.lawful B.Domain.lawful };

    ghost nothing = { λ h.
        let k = and_parts A.Domain.strict B.Domain.strict h in
        pair_strict registers A.Domain.lattice B.Domain.lattice (A.Domain.nothing k.0) (B.Domain.nothing k.1) };

    fn any() -> Self {
        Product {
            first: A::any(),
            second: B::any(),
        }
    }

    fn none() -> Self {
        Product {
            first: A::none(),
            second: B::none(),
        }
    }

    fn narrow(&mut self, register: Register, range: Range) {
        self.first.narrow(register, range);
        self.second.narrow(register, range);
        self.reduce();
    }

    fn keep(&mut self, condition: &Condition) {
        self.first.keep(condition);
        self.second.keep(condition);
        self.reduce();
    }

    fn set(&mut self, register: Register, expression: &Expression) {
        self.first.set(register, expression);
        self.second.set(register, expression);
        self.reduce();
    }

    fn join(&mut self, other: &Self) {
        self.first.join(&other.first);
        self.second.join(&other.second);
    }

    fn widen(&mut self, other: &Self) {
        self.first.widen(&other.first);
        self.second.widen(&other.second);
    }

    fn within(&self, other: &Self) -> bool {
        self.first.within(&other.first) && self.second.within(&other.second)
    }

    fn sure(&self, expression: &Expression) -> bool {
        self.first.sure(expression) || self.second.sure(expression)
    }

    fn shows(&self, side: Side) -> bool {
        self.first.shows(side) || self.second.shows(side)
    }

    fn range(&self, register: Register, range: Range) -> Range {
        let seen = self.first.range(register, range);
        self.second.range(register, seen)
    }
}
