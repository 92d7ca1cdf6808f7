// Congruences from any modulus and any residue. The two go side by side, for they are no congruence yet.
ghost use Rattle.std.specs.Prelude.{◌≡◌, ◌*◌, ◌<◌, ◌≤◌, pos, ◌≤ℤ◌, Some};
ghost use Rattle.model.specs.Limits.{limit};
ghost use Rattle.divisibility.specs.Multiples.{remainder};
ghost use Rattle.congruences.specs.Settled.{checked, folded, settled};

use crate::congruence::Congruence;
use divisibility::remainders::remainder;
use model::expression::LIMIT;
use model::range::fits;

// The single number r, where it lies within the limit.
pub fn checked_single(r: i64) -> Option<Congruence>
    ensures { result ≡ checked 0 r }
{
    if fits(r) {
        Some(Congruence {
            modulus: 0,
            residue: r,
        })
    } else {
        None
    }
}

fn reduced(m: u64, r: i64) -> Congruence
    requires { (0 < m) × (m ≤ 2 * limit) }
    ensures { Some result ≡ checked m (remainder r m) }
{
    Congruence {
        modulus: m,
        residue: remainder(r, m),
    }
}

// The one member within the limit; r is a remainder by m.
fn folded(m: u64, r: i64) -> Option<Congruence>
    requires { (m ≤ 1000000000000000) × (pos 0 ≤ℤ r) }
    ensures { result ≡ folded m r }
{
    if r <= LIMIT as i64 {
        checked_single(r)
    } else {
        checked_single(r - m as i64)
    }
}

// The congruence of the numbers that differ from r by multiples of m.
pub fn settled(m: u64, r: i64) -> Option<Congruence>
    requires { m ≤ 1000000000000000 }
    ensures { result ≡ settled m r }
{
    if m == 0 {
        checked_single(r)
    } else if m <= 2 * LIMIT as u64 {
        Some(reduced(m, r))
    } else {
        folded(m, remainder(r, m))
    }
}

impl Congruence {
    // The residue in 32 bits, as operators and sides take numbers: it lies within twice the limit.
    pub(crate) fn narrow_residue(self) -> i32
        ensures { result ≡ self.residue }
    {
        self.residue as i32
    }
}
