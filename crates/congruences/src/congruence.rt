ghost use Rattle.std.specs.Prelude.{◌≡◌, true};
ghost use Rattle.congruences.specs.Shape.{proper};

// The numbers that leave `residue` by `modulus`; of modulus 0, the single number `residue`: as gcd(0, m) is m, sums and hulls need no case.
#[derive(Clone, Copy)]
pub struct Congruence {
    pub modulus: u64,
    pub residue: i64,
    ghost ok: { proper modulus residue ≡ true },
}
