// A certificate, and a run that begins under it.
ghost use Rattle.std.specs.Prelude.{◌≡◌, IfOk, [], ◌∷◌, ◌++◌, length, take, reverse, Result};
ghost use Rattle.std.specs.List.{All};
ghost use Rattle.session.specs.Promises.{InHulls};
ghost use Rattle.session.specs.declared.refusal.StartRefusal.{StartRefusal};
ghost use Rattle.calls.specs.Events.{domain};
ghost use Rattle.calls.specs.Loans.{StatesStay};
ghost use Rattle.clients.specs.Lists.{certified, started, steps, StepsStay};
ghost use Rattle.calls.specs.Law.{After, AnswersCertify, Lawful, by_verdict};
ghost use Rattle.clients.specs.Commands.{CommandsIn};

use calls::calls::Calls;
use calls::combine::Then;
use calls::play::play_calls;
use calls::single::{Certify, Start, Step};
use calls::tape::Tape;
use certify::refusal::{Certificate, CertifyRefusal};
use domain::domain::Domain;
use travel::travel::Travel;

/// Under a certificate each position that steps command lies in the ranges that it names, whatever the domain and the values.
/// The answers of the calls before it come first, since the verdict is on what they leave.
pub fn step_certified<T: Travel + Drop, C: Calls, D: Domain>(
    travel: T,
    list: &mut Then<C, Then<Certify<D>, Then<Start, Tape<Step>>>>,
) -> (C::Answers, Result<Certificate, CertifyRefusal>)
    ensures judged { After (T.envelope travel) (reverse (C.events list.old.first list.new.first result.0))
        (λ now. AnswersCertify (T.envelope travel) now (domain D.lattice) (length list.old.rest.first.store.now) (by_verdict result.1)) }
    ensures inside { IfOk result.1 (λ c. All (CommandsIn (λ p. InHulls p c.hulls))
        (take (length list.old.rest.rest.rest.calls.now) list.new.rest.rest.rest.answers.now)) }
    ensures stays { C.stays list.old.first list.new.first result.0
        × (StatesStay list.old.rest.first.store list.new.rest.first.store result.1
        × ((list.new.rest.rest.first ≡ list.old.rest.rest.first)
        × StepsStay list.old.rest.rest.rest.calls list.new.rest.rest.rest.calls list.old.rest.rest.rest.answers list.new.rest.rest.rest.answers)) }
    ensures law { (begun : Result (Unit {0}) StartRefusal) × Lawful (T.envelope travel) []
        (C.events list.old.first list.new.first result.0
        ++ (certified D.lattice (length list.old.rest.first.store.now) result.1 ∷ started list.old.rest.rest.first.values begun
        ∷ steps list.old.rest.rest.rest.calls.now list.new.rest.rest.rest.calls.now list.new.rest.rest.rest.answers.now)) }
{
    let answers = play_calls(travel, list);
    (answers.0, answers.1.0)
}
