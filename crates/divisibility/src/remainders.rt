// Remainders, and whether one number divides another.
ghost use Rattle.std.specs.Prelude.{◌≡◌, ◌^◌, ◌<◌, pos, ◌≤ℤ◌, ◌<ℤ◌};
ghost use Rattle.divisibility.specs.Multiples.{remainder, divides};

// The remainder of z by m, from 0 to m - 1.
pub fn remainder(z: i64, m: u64) -> i64
    requires { (0 < m) × (m < 2 ^ 63) }
    ensures value { result ≡ remainder z m }
    ensures low { pos 0 ≤ℤ result }
    ensures high { result <ℤ pos m }
{
    // A division is slow, and most registers are known by the modulus 1 alone.
    if m == 1 { 0 } else { z.rem_euclid(m as i64) }
}

// Whether n divides m; 0 divides 0 alone.
pub fn divides(n: u64, m: u64) -> bool
    ensures { result ≡ divides n m }
{
    m.is_multiple_of(n)
}
