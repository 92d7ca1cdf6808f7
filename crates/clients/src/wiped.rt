// A start after a wipe.
ghost use Rattle.std.specs.Prelude.{◌≡◌, Err, [], ◌∷◌, ◌++◌};
ghost use Rattle.session.specs.declared.refusal.StartRefusal.TheVariants.{Uncertified};
ghost use Rattle.calls.specs.Law.{Lawful, done, event, wipe};
ghost use Rattle.clients.specs.Lists.{started};

use calls::calls::Calls;
use calls::combine::Then;
use calls::play::play_calls;
use calls::single::{Start, Wipe};
use session::refusal::StartRefusal;
use travel::travel::Travel;

/// After a wipe no certificate stands, so no values start a run, whatever was called before. The answers of the calls before it come first.
pub fn start_wiped<T: Travel + Drop, C: Calls>(
    travel: T,
    list: &mut Then<C, Then<Wipe, Start>>,
) -> (C::Answers, Result<(), StartRefusal>)
    ensures refused { result.1 ≡ Err Uncertified }
    ensures stays { C.stays list.old.first list.new.first result.0
        × ((list.new.rest.first ≡ list.old.rest.first) × (list.new.rest.rest ≡ list.old.rest.rest)) }
    ensures law { Lawful (T.envelope travel) [] (C.events list.old.first list.new.first result.0
        ++ (event wipe done ∷ started list.old.rest.rest.values result.1 ∷ [])) }
{
    let answers = play_calls(travel, list);
    (answers.0, answers.1.1)
}
