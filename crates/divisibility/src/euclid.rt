// Euclid's algorithm, and the least common multiple by it.
ghost use Rattle.std.specs.Prelude.{◌≡◌, ◌*◌, ◌^◌, ◌<◌, ◌≤◌};
ghost use Rattle.divisibility.specs.Gcds.{Gcd, Lcm, gcd, lcm};

// The greatest common divisor of a and b; of a number and 0, that number.
pub fn gcd(a: u64, b: u64) -> u64
    ensures value { result ≡ gcd a b }
    ensures greatest { Gcd a b result }
{
    let mut x = a;
    let mut y = b;
    while y != 0 {
        let rest = x % y;
        x = y;
        y = rest;
    }
    x
}

// The least common multiple of m and n.
pub fn lcm(m: u64, n: u64) -> u64
    requires { (m < 2 ^ 32) × ((0 < n) × (n < 2 ^ 32)) }
    ensures value { result ≡ lcm m n }
    ensures small { result ≤ m * n }
    ensures least { Lcm m n result }
{
    m * (n / gcd(m, n))
}
