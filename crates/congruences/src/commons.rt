// The members that two congruences have in common.
ghost use Rattle.std.specs.Prelude.{◌≡◌, ◌*◌, ◌<◌, ◌≤◌, ℤ, pos, ◌-ℤ◌};
ghost use Rattle.model.specs.Limits.{limit};
ghost use Rattle.divisibility.specs.Leasts.{least, Below};
ghost use Rattle.divisibility.specs.Multiples.{Multiple};
ghost use Rattle.congruences.specs.Commons.{hits, shifted, met, lone, common, Shared};

use crate::congruence::Congruence;
use crate::settle::settled;
use divisibility::equations::solve;
use divisibility::euclid::lcm;
use divisibility::remainders::{divides, remainder};

// How far y's residue lies above x's, modulo y's modulus. That y is no single number is known in `common` alone, which asks for
// these three: a type for it would be made there and taken apart here.
fn gap(x: Congruence, y: Congruence) -> u64
    requires { 0 < y.modulus }
    ensures below { result < y.modulus }
    ensures same { Multiple y.modulus ((y.residue -ℤ x.residue) -ℤ pos result) }
{
    remainder(y.residue - x.residue, y.modulus).unsigned_abs()
}

// How many moduli above x's residue the first member of y lies, if there is one.
fn meeting(x: Congruence, y: Congruence) -> Option<u64>
    requires { 0 < y.modulus }
    ensures value { result ≡ least y.modulus (hits x y) }
    ensures below { Below y.modulus result }
{
    solve(x.modulus, gap(x, y), y.modulus)
}

fn shifted(x: Congruence, t: u64) -> i64
    requires { t ≤ 2 * limit }
    ensures { result ≡ shifted x t }
{
    x.residue + (t * x.modulus) as i64
}

// The members that both have, if they meet.
fn met(x: Congruence, y: Congruence) -> Option<Congruence>
    requires { 0 < y.modulus }
    ensures { result ≡ met x y (least y.modulus (hits x y)) }
{
    let t = meeting(x, y)?;
    settled(lcm(x.modulus, y.modulus), shifted(x, t))
}

impl Congruence {
    fn lone(self, other: Congruence) -> Option<Congruence>
        ensures { result ≡ lone self other }
    {
        divides(other.modulus, self.residue.abs_diff(other.residue)).then_some(self)
    }

    // The congruence of the members of both, or None where there are none within the limit.
    pub fn common(self, other: Congruence) -> Option<Congruence>
        ensures value { result ≡ common self other }
        ensures members { Shared self other result }
    {
        if self.modulus == 0 {
            self.lone(other)
        } else if other.modulus == 0 {
            other.lone(self)
        } else {
            met(self, other)
        }
    }
}
