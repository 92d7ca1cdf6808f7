// The tables of the examples.
ghost use Rattle.std.specs.Prelude.{Ok};
ghost use Rattle.travel.specs.Benches.{bench_gantry};
ghost use Rattle.travel.specs.Gantries.{GantryMade};

use crate::gantry::Gantry;
use model::axes::{Ends, Position};

const LOWER: Position = Position {
    x: 0,
    y: 0,
    z: -80_000,
    u: 0,
};

pub const BENCH_GANTRY: Ends = Ends {
    lower: LOWER,
    home: Position {
        x: 0,
        y: 0,
        z: 0,
        u: 0,
    },
    upper: Position {
        x: 2_500_000,
        y: 1_250_000,
        z: 0,
        u: 0,
    },
};

pub const BENCH_BEAM: Ends = Ends {
    lower: LOWER,
    home: Position {
        x: 0,
        y: 0,
        z: 0,
        u: 2_500_000,
    },
    upper: Position {
        x: 2_500_000,
        y: 1_250_000,
        z: 0,
        u: 2_500_000,
    },
};

pub const BENCH_GAP: i32 = 90_000;

// The gantry of the examples: its home lies between its ends, so it can be made.
pub fn bench_gantry() -> Gantry
    ensures { GantryMade bench_gantry (Ok result) }
{
    let Ok(gantry) = Gantry::new(BENCH_GANTRY) else {
        unreachable()
    };
    gantry
}
