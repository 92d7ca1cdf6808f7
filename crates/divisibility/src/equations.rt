// Linear equations modulo n.
ghost use Rattle.std.specs.Prelude.{◌≡◌, ◌^◌, ◌<◌};
ghost use Rattle.divisibility.specs.Equations.{makes};
ghost use Rattle.divisibility.specs.Leasts.{least, Below};

use crate::bezout::extended_gcd;
use crate::remainders::divides;

// The least number of times that m makes d, but for a multiple of n, if there is one.
pub fn solve(m: u64, d: u64, n: u64) -> Option<u64>
    requires { (m < 2 ^ 32) × ((d < 2 ^ 32) × ((0 < n) × (n < 2 ^ 32))) }
    ensures value { result ≡ least n (makes m n d) }
    ensures below { Below n result }
{
    let bezout = extended_gcd(m, n);
    if divides(bezout.divisor, d) {
        let step = n / bezout.divisor;
        Some(d / bezout.divisor * (bezout.times % step) % step)
    } else {
        None
    }
}
