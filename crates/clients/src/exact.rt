// Certify and dry, one after the other.
ghost use Rattle.std.specs.Prelude.{◌≡◌, [], ◌∷◌, ◌++◌, length, reverse};
ghost use Rattle.model.specs.Environments.{registers};
ghost use Rattle.domain.specs.Tracking.{LosesNothing};
ghost use Rattle.calls.specs.Events.{by_dry, domain};
ghost use Rattle.calls.specs.Loans.{StatesStay};
ghost use Rattle.calls.specs.Law.{After, AnswersCertify, AnswersDry, Lawful, by_verdict};
ghost use Rattle.clients.specs.Exactness.{AgreesOnOneRun};
ghost use Rattle.clients.specs.Lists.{certified, dried};

use calls::calls::Calls;
use calls::combine::Then;
use calls::play::play_calls;
use calls::single::{Certify, Dry};
use certify::refusal::{Certificate, CertifyRefusal};
use domain::domain::Domain;
use model::ending::Ending;
use session::refusal::DryRefusal;
use travel::travel::Travel;

/// Where a program has one run alone, certify in a domain that loses nothing on single values says what a dry run comes to. Both are asked
/// of what the calls before them leave.
pub fn certify_and_dry<T: Travel + Drop, C: Calls, D: Domain>(
    travel: T,
    list: &mut Then<C, Then<Certify<D>, Dry>>,
) -> (
    C::Answers,
    (
        Result<Certificate, CertifyRefusal>,
        Result<Ending, DryRefusal>,
    ),
)
    ensures judged { After (T.envelope travel) (reverse (C.events list.old.first list.new.first result.0))
        (λ now. AnswersCertify (T.envelope travel) now (domain D.lattice) (length list.old.rest.first.store.now) (by_verdict result.1.0)) }
    ensures dried { After (T.envelope travel) (reverse (C.events list.old.first list.new.first result.0))
        (λ now. AnswersDry (T.envelope travel) now.program list.old.rest.rest.values list.old.rest.rest.steps (by_dry result.1.1)) }
    ensures same { LosesNothing registers D.lattice →
        After (T.envelope travel) (reverse (C.events list.old.first list.new.first result.0))
        (λ now. AgreesOnOneRun now (length list.old.rest.first.store.now) list.old.rest.rest.values list.old.rest.rest.steps
        (by_verdict result.1.0) (by_dry result.1.1)) }
    ensures stays { C.stays list.old.first list.new.first result.0
        × (StatesStay list.old.rest.first.store list.new.rest.first.store result.1.0 × (list.new.rest.rest ≡ list.old.rest.rest)) }
    ensures law { Lawful (T.envelope travel) [] (C.events list.old.first list.new.first result.0
        ++ (certified D.lattice (length list.old.rest.first.store.now) result.1.0
        ∷ dried list.old.rest.rest.values list.old.rest.rest.steps result.1.1 ∷ [])) }
{
    let (before, both) = play_calls(travel, list);
    (before, both)
}
