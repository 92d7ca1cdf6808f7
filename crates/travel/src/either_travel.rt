// One of two travels, as a travel.
ghost use Rattle.travel.specs.Eithers.{either};
ghost use Rattle.either.specs.declared.Either.TheVariants.{Left, Right};

use crate::travel::Travel;
use either::{Either, for_both};
use model::axes::Position;
use model::side::Side;

impl<A: Travel, B: Travel> Travel for Either<A, B> {
    ghost envelope = { either A.Travel.envelope B.Travel.envelope };

    ghost lawful = { elim [ Left a ↦ A.Travel.lawful a | Right b ↦ B.Travel.lawful b ] };

    fn side_count(&self) -> usize {
        for_both!(self, travel => travel.side_count())
    }

    #[inline(always)]
    fn side(&self, n: usize) -> Option<Side> {
        for_both!(self, travel => travel.side(n))
    }

    fn home(&self) -> Position {
        for_both!(self, travel => travel.home())
    }

    fn inside(&self, p: Position) -> bool {
        for_both!(self, travel => travel.inside(p))
    }
}
