// How a beam is made.
ghost use Rattle.std.specs.Prelude.{◌≡◌};
ghost use Rattle.travel.specs.Beams.{is_ahead, gap_fits, BeamMade};

use crate::beam::Beam;
use crate::gantry::Gantry;
use crate::refusal::TravelRefusal;
use model::axes::{Ends, Position};
use model::expression::LIMIT;

// U is ahead of X by the gap.
pub(crate) fn ahead(p: Position, gap: i32) -> bool
    ensures { result ≡ is_ahead p gap }
{
    p.x as i64 + gap as i64 <= p.u as i64
}

fn gap_fits(home: Position, gap: i32) -> bool
    ensures { result ≡ gap_fits home gap }
{
    1 <= gap && gap <= LIMIT && ahead(home, gap)
}

impl Beam {
    pub fn new(ends: Ends, gap: i32) -> Result<Beam, TravelRefusal>
        ensures { BeamMade ends gap result }
    {
        let base = Gantry::new(ends)?;
        if gap_fits(ends.home, gap) {
            Ok(Beam { base, gap })
        } else {
            Err(TravelRefusal::Gap)
        }
    }
}
