// The laws of a product, for any number of registers.
ghost use Rattle.std.specs.Prelude.{ℕ};
ghost use Rattle.domain.specs.Lattice.{Lawful};
ghost use Rattle.domain.specs.Nothing.{Strict};
ghost use Rattle.domain.specs.Pairs.{pair};
ghost use Rattle.domain.specs.Tracking.{LosesNothing};

use crate::domain::Domain;

// Nothing to compute: its contract is that a product keeps each law that its sides keep, however many registers there are.
#[tactic(auto, using(crate::specs::PairLaws::pair_lawful, crate::specs::PairNothing::pair_strict, crate::specs::Leading::pair_loses_nothing))]
pub fn product_laws_hold<A: Domain, B: Domain>()
    ensures lawful { (n : ℕ) → Lawful n A.Domain.lattice → Lawful n B.Domain.lattice → Lawful n (pair A.Domain.lattice B.Domain.lattice n) }
    ensures strict { (n : ℕ) → Strict n A.Domain.lattice → Strict n B.Domain.lattice → Strict n (pair A.Domain.lattice B.Domain.lattice n) }
    ensures exact { (n : ℕ) → Lawful n A.Domain.lattice → Lawful n B.Domain.lattice → LosesNothing n A.Domain.lattice → LosesNothing n (pair A.Domain.lattice B.Domain.lattice n) }
{}
