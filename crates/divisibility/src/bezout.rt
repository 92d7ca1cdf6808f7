// Bézout's factor: how often one number must be taken to make the gcd with another, but for multiples of that other.
ghost use Rattle.std.specs.Prelude.{◌^◌, ◌<◌, ℤ, pos, ◌-ℤ◌, ◌*ℤ◌};
ghost use Rattle.divisibility.specs.Multiples.{Multiple};
ghost use Rattle.divisibility.specs.Gcds.{Brings};

#[derive(Clone, Copy)]
pub struct Bezout {
    pub divisor: u64,
    pub times: u64,
}

// p - k * q, modulo n.
fn less_product(p: u64, k: u64, q: u64, n: u64) -> u64
    requires { (n < 2 ^ 32) × ((p < n) × ((k < 2 ^ 32) × (q < n))) }
    ensures below { result < n }
    ensures same { Multiple n ((pos p -ℤ (pos k *ℤ pos q)) -ℤ pos result) }
{
    (p + n - k * q % n) % n
}

// The gcd of m and n, and how often m makes it, but for a multiple of n.
pub fn extended_gcd(m: u64, n: u64) -> Bezout
    requires { (m < 2 ^ 32) × ((0 < n) × (n < 2 ^ 32)) }
    ensures brings { Brings m n result.divisor result.times }
    ensures below { result.times < n }
{
    let mut a = m;
    let mut b = n;
    let mut p = 1 % n;
    let mut q = 0;
    while b != 0 {
        let rest = a % b;
        let more = less_product(p, a / b, q, n);
        a = b;
        b = rest;
        p = q;
        q = more;
    }
    Bezout {
        divisor: a,
        times: p,
    }
}
