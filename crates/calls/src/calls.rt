// What a list of calls is.
ghost use Rattle.std.specs.Prelude.{◌≡◌, List};
ghost use Rattle.session.specs.Memory.{memory};
ghost use Rattle.calls.specs.Law.{Event};
ghost use Rattle.calls.specs.Playing.{AllKept, afters};

use session::session::Session;
use travel::travel::Travel;

/// Played on a session, a list makes its calls in order. It may note answers in itself: `events`, the calls with their answers, takes the
/// list as it was, as it is after, and what it gives.
pub trait Calls {
    type Answers;

    ghost events: { Self → Self → Self.Answers → List Event };

    // what of the list is as it was: its calls, and the memory that is lent to it, but for what answers are noted in
    ghost stays: { Self → Self → Self.Answers → Type 0 };

    fn play<T: Travel>(&mut self, session: &mut Session<T>) -> Self::Answers
        ensures kept { AllKept (T.envelope session.old.travel) (memory session.old) (events self.old self.new result) }
        ensures left { memory session.new ≡
            afters (T.envelope session.old.travel).home (memory session.old) (events self.old self.new result) }
        ensures stays { stays self.old self.new result }
        ensures travel { session.new.travel ≡ session.old.travel };
}
