// What every travel answers.
ghost use Rattle.std.specs.Prelude.{◌≡◌, length};
ghost use Rattle.model.specs.Sides.{side_at};
ghost use Rattle.model.specs.Envelopes.{Envelope};
ghost use Rattle.std.specs.Bool.{Decides};
ghost use Rattle.travel.specs.Travels.{Lawful};

use model::axes::Position;
use model::side::Side;

/// The most sides that a travel has.
pub const MAX_SIDES: usize = 16;

// A set of positions, the sides that bound it, and a home in it.
pub trait Travel {
    ghost envelope: { Self → Envelope };

    fn side_count(&self) -> usize
        ensures { result ≡ length (envelope self.now).sides };

    fn side(&self, n: usize) -> Option<Side>
        ensures { result ≡ side_at (envelope self.now).sides n };

    fn home(&self) -> Position
        ensures { result ≡ (envelope self.now).home };

    fn inside(&self, p: Position) -> bool
        ensures { Decides result ((envelope self.now).region p) };

    ghost lawful: { (t : Self) → Lawful (envelope t) };
}
