// Terms from their digits.
ghost use Rattle.std.specs.Prelude.{◌≡◌, ◌≤◌, pos, neg_ℤ};
ghost use Rattle.model.specs.Limits.{limit};
ghost use Rattle.grammar.specs.Grammar.{parameter_of};

use model::expression::{Parameter, Term};

// A function for each sign, so that the bound of the cast is asked of the digits.
pub fn positive(n: u32) -> Term
    requires { n ≤ limit }
    ensures { result ≡ Term.Number (pos n) }
{
    Term::Number(n as i32)
}

pub fn negative(n: u32) -> Term
    requires { n ≤ limit }
    ensures { result ≡ Term.Number (neg_ℤ (pos n)) }
{
    Term::Number(-(n as i32))
}

// The parameter of a number from 1 to 6. A TryFrom would bring an error that cannot come after the test of the digits.
pub fn parameter_of(n: u32) -> Parameter
    ensures { result ≡ parameter_of n }
{
    match n {
        1 => Parameter::P1,
        2 => Parameter::P2,
        3 => Parameter::P3,
        4 => Parameter::P4,
        5 => Parameter::P5,
        _ => Parameter::P6,
    }
}
