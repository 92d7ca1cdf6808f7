// A move from the values of its axes, and its motion from its digit.
ghost use Rattle.std.specs.Prelude.{◌≡◌};
ghost use Rattle.grammar.specs.Axes.{motion_of, moved};

use grammar::axes::AxisValues;
use model::line::{Line, Motion};

// The move that the values make.
pub fn moved(motion: Motion, values: AxisValues) -> Line
    ensures { result ≡ moved motion values }
{
    let AxisValues { x, y, z, u } = values;
    Line::Move { motion, x, y, z, u }
}

// G0 or G1. A TryFrom would bring an error that cannot come after the test of the digits.
pub fn motion_of(g: u32) -> Motion
    ensures { result ≡ motion_of g }
{
    if g == 0 { Motion::Rapid } else { Motion::Feed }
}
