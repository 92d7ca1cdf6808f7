// Runs of digits as numbers.
ghost use Rattle.std.specs.Prelude.{◌≡◌, ◌≤◌, length};
ghost use Rattle.std.specs.Str.Parse.{digits_value, AllDigits};

// The number that at most eight digits write. A loop, since each step's bound stands in its invariant.
pub fn number(s: &[u8]) -> u32
    requires { (AllDigits 10 s.now) × (length s.now ≤ 8) }
    ensures is { result ≡ digits_value 10 s.now }
    ensures below { result ≤ 99999999 }
{
    let mut n: u32 = 0;
    for b in s {
        n = n * 10 + (*b - b'0') as u32;
    }
    n
}
