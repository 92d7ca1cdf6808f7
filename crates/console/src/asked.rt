// Which lines of an input are range lines, and the call that one asks for.
ghost use Rattle.std.specs.Prelude.{◌≡◌};
ghost use Rattle.console.specs.Asked.{ask};
ghost use Rattle.console.specs.Readings.{is_range};

use crate::range_line::RangeLine;
use calls::single::Allow;

pub(crate) fn begins_range(line: &[u8]) -> bool
    ensures { result ≡ is_range line.now }
{
    line.first() == Some(&b'?')
}

impl From<RangeLine> for Allow {
    ghost from_gives = { λ line result. result ≡ ask line };

    fn from(line: RangeLine) -> Allow {
        Allow {
            parameter: line.parameter as u32,
            range: line.range,
        }
    }
}
