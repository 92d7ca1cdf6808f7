// The sides that bound positions.
ghost use Rattle.std.specs.Prelude.{◌≡◌, ◌^◌, ◌≤◌, ◌+ℤ◌, int_le, unsigned_abs};
ghost use Rattle.model.specs.Sides.{signed, scaled};

use crate::line::Axis;

#[derive(Clone, Copy)]
pub enum Sign {
    Plus,
    Minus,
}

impl Sign {
    pub fn times(self, n: i32) -> i64
        ensures is { result ≡ signed self n }
        ensures small { unsigned_abs result ≤ 2 ^ 31 }
    {
        match self {
            Sign::Plus => n as i64,
            Sign::Minus => -(n as i64),
        }
    }
}

#[derive(Clone, Copy)]
pub enum Factor {
    Plus,
    Zero,
    Minus,
}

// A sign is no factor of zero: two short matches are plainer than a conversion and its lemma.
impl Factor {
    pub fn times(self, n: i32) -> i64
        ensures is { result ≡ scaled self n }
        ensures small { unsigned_abs result ≤ 2 ^ 31 }
    {
        match self {
            Factor::Plus => n as i64,
            Factor::Zero => 0,
            Factor::Minus => -(n as i64),
        }
    }
}

// The half-space a·v + b·w ≤ c. Where b is zero, w is any axis other than v: a side always names two, so b and w are no Option.
#[derive(Clone, Copy)]
pub struct Side {
    pub a: Sign,
    pub v: Axis,
    pub b: Factor,
    pub w: Axis,
    pub c: i32,
}

// Whether a·v + b·w ≤ c. It takes the parts of a side, since sets of numbers have no axes.
pub fn sum_at_most(a: Sign, v: i32, b: Factor, w: i32, c: i32) -> bool
    ensures { result ≡ int_le (signed a v +ℤ scaled b w) c }
{
    a.times(v) + b.times(w) <= c as i64
}
