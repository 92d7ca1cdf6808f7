// Lists of one kind in lent memory, played one after another.
ghost use Rattle.calls.specs.Events.{recorded};
ghost use Rattle.calls.specs.Loans.{TapeStays};

use crate::calls::Calls;
use session::session::Session;
use travel::travel::Travel;

/// The answers are noted beside the lists; lists for whose answers there is no room are not played.
#[derive(Drop)]
pub struct Tape<'a, C: Calls> {
    pub calls: &'a mut [C],
    pub answers: &'a mut [C::Answers],
}

impl<'a, C: Calls> Calls for Tape<'a, C>
where
    C::Answers: Drop,
{
    type Answers = ();

    ghost events = { λ c d _. recorded C.Calls.events c.calls.now d.calls.now d.answers.now };

    ghost stays = { λ c d _. TapeStays C.Calls.stays c.calls d.calls c.answers d.answers };

    fn play<T: Travel>(&mut self, session: &mut Session<T>) -> () {
        for n in 0..self.calls.len().min(self.answers.len()) {
            self.answers[n] = self.calls[n].play(session);
        }
    }
}
