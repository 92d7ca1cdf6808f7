// The laws of such states, for any number of registers that has the axes and the parameters.
ghost use Rattle.std.specs.Prelude.{ℕ, ◌≤◌};
ghost use Rattle.model.specs.Environments.{named, registers};
ghost use Rattle.domain.specs.Lattice.{Lawful};
ghost use Rattle.domain.specs.Nothing.{Strict};
ghost use Rattle.domain.specs.Pairs.{pair};
ghost use Rattle.domain.specs.Tracking.{LosesNothing};
ghost use Rattle.intervals.specs.Intervals.{intervals};
ghost use Rattle.pointwise.specs.States.{pointwise};

use domain::domain::Domain;
use number_sets::sets::NumberSet;

// Nothing to compute: its contract is that the laws hold, whatever the kind of set and however many registers.
pub fn laws_hold<V: NumberSet>()
    ensures lawful { (n : ℕ) → named ≤ n → Lawful n (pointwise V.NumberSet.sets n) }
    ensures strict { (n : ℕ) → Strict n (pointwise V.NumberSet.sets n) }
    ensures exact { (n : ℕ) → named ≤ n → LosesNothing n (pointwise V.NumberSet.sets n) }
{}

// Intervals lose nothing on single values, alone or as the first side of a product with any domain; so does a product that is led by them, as a
// first side again (domain::laws::product_laws_hold).
pub fn intervals_lose_nothing<B: Domain>()
    ensures alone { LosesNothing registers (pointwise intervals registers) }
    ensures first { LosesNothing registers (pair (pointwise intervals registers) B.Domain.lattice registers) }
{}
