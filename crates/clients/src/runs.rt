// A start, and steps after it.
ghost use Rattle.std.specs.Prelude.{◌≡◌, IsOk, [], ◌∷◌, ◌++◌, length, take, reverse, is_ok};
ghost use Rattle.std.specs.List.{All, AllPass};
ghost use Rattle.session.specs.Refusals.{start_refusal};
ghost use Rattle.calls.specs.Law.{After, AnswersStart, Lawful, done_or};
ghost use Rattle.clients.specs.Lists.{started, steps, StepsStay};
ghost use Rattle.calls.specs.Loans.{SameLoan};
ghost use Rattle.clients.specs.Commands.{CommandsIn};

use calls::calls::Calls;
use calls::combine::Then;
use calls::play::play_calls;
use calls::single::{Start, Step};
use calls::tape::Tape;
use session::refusal::StartRefusal;
use travel::travel::Travel;

/// After a start that is accepted no step is refused, however many there are. Each position that a step commands lies in the travel.
/// The answers of the calls before it come first, since what they leave decides on the start.
pub fn step_on<T: Travel + Drop, C: Calls>(
    travel: T,
    list: &mut Then<C, Then<Start, Tape<Step>>>,
) -> (C::Answers, Result<(), StartRefusal>)
    ensures begun { After (T.envelope travel) (reverse (C.events list.old.first list.new.first result.0))
        (λ now. AnswersStart now list.old.rest.first.values (done_or start_refusal result.1)) }
    ensures loan { SameLoan list.old.rest.rest.answers list.new.rest.rest.answers }
    ensures stays { C.stays list.old.first list.new.first result.0 × ((list.new.rest.first ≡ list.old.rest.first)
        × StepsStay list.old.rest.rest.calls list.new.rest.rest.calls list.old.rest.rest.answers list.new.rest.rest.answers) }
    ensures law { Lawful (T.envelope travel) [] (C.events list.old.first list.new.first result.0
        ++ (started list.old.rest.first.values result.1
        ∷ steps list.old.rest.rest.calls.now list.new.rest.rest.calls.now list.new.rest.rest.answers.now)) }
    ensures accepted { (IsOk result.1 → AllPass is_ok (take (length list.old.rest.rest.calls.now) list.new.rest.rest.answers.now)) }
    ensures inside { All (CommandsIn (T.envelope travel).region)
        (take (length list.old.rest.rest.calls.now) list.new.rest.rest.answers.now) }
{
    let answers = play_calls(travel, list);
    (answers.0, answers.1.0)
}
