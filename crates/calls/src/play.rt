// All calls go through here.
ghost use Rattle.std.specs.Prelude.{[]};
ghost use Rattle.calls.specs.Law.{Lawful};

use crate::calls::Calls;
use session::session::Session;
use travel::travel::Travel;

/// Makes the calls of a list on a session just made. Whatever the list and the travel, the law holds of the calls and their answers.
pub fn play_calls<T: Travel + Drop, C: Calls>(travel: T, calls: &mut C) -> C::Answers
    ensures stays { C.stays calls.old calls.new result }
    ensures law { Lawful (T.envelope travel) [] (C.events calls.old calls.new result) }
{
    let mut session = Session::new(travel);
    calls.play(&mut session)
}
