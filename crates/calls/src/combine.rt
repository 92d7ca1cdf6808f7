// No call, and one list after another.
ghost use Rattle.std.specs.Prelude.{◌≡◌, [], ◌++◌};

use crate::calls::Calls;
use session::session::Session;
use travel::travel::Travel;

/// No call.
#[derive(Clone, Copy)]
pub struct Nothing;

impl Calls for Nothing {
    type Answers = ();

    ghost events = { λ _ _ _. [] };

    ghost stays = { λ c d _. d ≡ c };

    fn play<T: Travel>(&mut self, session: &mut Session<T>) -> () {}
}

/// One list, and another after it.
#[derive(Drop)]
pub struct Then<A, B> {
    pub first: A,
    pub rest: B,
}

impl<A: Calls, B: Calls> Calls for Then<A, B> {
    type Answers = (A::Answers, B::Answers);

    ghost events = { λ c d r. A.Calls.events c.first d.first r.0 ++ B.Calls.events c.rest d.rest r.1 };

    ghost stays = { λ c d r. A.Calls.stays c.first d.first r.0 × B.Calls.stays c.rest d.rest r.1 };

    fn play<T: Travel>(&mut self, session: &mut Session<T>) -> (A::Answers, B::Answers) {
        let first = self.first.play(session);
        let rest = self.rest.play(session);
        (first, rest)
    }
}
