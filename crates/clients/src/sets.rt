// Certify by sets of numbers, and dry.
ghost use Rattle.std.specs.Prelude.{◌≡◌, [], ◌∷◌, ◌++◌, length, reverse};
ghost use Rattle.model.specs.Environments.{registers};
ghost use Rattle.domain.specs.Pairs.{pair};
ghost use Rattle.pointwise.specs.States.{pointwise};
ghost use Rattle.calls.specs.Events.{by_dry};
ghost use Rattle.calls.specs.Loans.{StatesStay};
ghost use Rattle.calls.specs.Law.{After, Lawful, by_verdict};
ghost use Rattle.clients.specs.Exactness.{AgreesOnOneRun};
ghost use Rattle.clients.specs.Lists.{certified, dried};

use calls::calls::Calls;
use calls::combine::Then;
use calls::play::play_calls;
use calls::single::{Certify, Dry};
use certify::refusal::{Certificate, CertifyRefusal};
use domain::domain::Domain;
use domain::product::Product;
use model::ending::Ending;
use number_sets::sets::NumberSet;
use pointwise::state::Pointwise;
use session::refusal::DryRefusal;
use travel::travel::Travel;

/// Where a program has one run alone, a set for each register says what a dry run comes to, alone and as the first side of a product with
/// any domain, whatever the kind of set: intervals, congruences. All three are asked of what the calls before them leave.
pub fn certify_by_sets<T: Travel + Drop, C: Calls, V: NumberSet, D: Domain>(
    travel: T,
    list: &mut Then<C, Then<Certify<Pointwise<V>>, Then<Certify<Product<Pointwise<V>, D>>, Dry>>>,
) -> (
    C::Answers,
    Result<Certificate, CertifyRefusal>,
    Result<Certificate, CertifyRefusal>,
    Result<Ending, DryRefusal>,
)
    ensures alone { After (T.envelope travel) (reverse (C.events list.old.first list.new.first result.0))
        (λ now. AgreesOnOneRun now (length list.old.rest.first.store.now)
        list.old.rest.rest.rest.values list.old.rest.rest.rest.steps (by_verdict result.1) (by_dry result.3)) }
    ensures first { After (T.envelope travel) (reverse (C.events list.old.first list.new.first result.0))
        (λ now. AgreesOnOneRun now (length list.old.rest.rest.first.store.now)
        list.old.rest.rest.rest.values list.old.rest.rest.rest.steps (by_verdict result.2) (by_dry result.3)) }
    ensures stays { C.stays list.old.first list.new.first result.0
        × (StatesStay list.old.rest.first.store list.new.rest.first.store result.1
        × (StatesStay list.old.rest.rest.first.store list.new.rest.rest.first.store result.2
        × (list.new.rest.rest.rest ≡ list.old.rest.rest.rest))) }
    ensures law { Lawful (T.envelope travel) [] (C.events list.old.first list.new.first result.0
        ++ (certified (pointwise V.sets registers) (length list.old.rest.first.store.now) result.1
        ∷ certified (pair (pointwise V.sets registers) D.lattice registers) (length list.old.rest.rest.first.store.now) result.2
        ∷ dried list.old.rest.rest.rest.values list.old.rest.rest.rest.steps result.3 ∷ [])) }
{
    let (before, (alone, (first, run))) = play_calls(travel, list);
    (before, alone, first, run)
}
