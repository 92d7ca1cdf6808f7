// The travel of a beam: the sides of its gantry, and one for the gap.
ghost use Rattle.travel.specs.Beams.{beam_envelope};
ghost use Rattle.travel.specs.BeamLaw.{beam_lawful};

use crate::beam::Beam;
use crate::beam::gap::ahead;
use crate::travel::Travel;
use model::axes::Position;
use model::line::Axis;
use model::side::{Factor, Side, Sign};

impl Travel for Beam {
    ghost envelope = { beam_envelope };

    ghost lawful = { λ b. beam_lawful b };

    fn side_count(&self) -> usize {
        self.base.side_count() + 1
    }

    #[inline(always)]
    fn side(&self, n: usize) -> Option<Side> {
        if n == self.base.side_count() {
            let c = -self.gap;
            return Some(Side {
                a: Sign::Plus,
                v: Axis::X,
                b: Factor::Minus,
                w: Axis::U,
                c,
            });
        }
        self.base.side(n)
    }

    fn home(&self) -> Position {
        self.base.home()
    }

    fn inside(&self, p: Position) -> bool {
        self.base.inside(p) && ahead(p, self.gap)
    }
}
