// Values and conditions at the registers of a run.
ghost use Rattle.std.specs.Prelude.{◌≡◌};
ghost use Rattle.model.specs.Values.{number, term, evaluate, holds};
ghost use Rattle.runner.specs.Steps.{value_of};

use model::expression::{Condition, Expression, Operand, Term, Value};
use model::range::fits;
use model::register::REGISTERS;

fn number(registers: &[i32; REGISTERS], operand: Operand) -> i32
    ensures { result ≡ number registers.now operand }
{
    match operand {
        Operand::Number(n) => n,
        Operand::Register(r) => registers[r.index],
    }
}

fn term(registers: &[i32; REGISTERS], t: Term) -> i32
    ensures { result ≡ term registers.now t }
{
    number(registers, t.into())
}

fn evaluate(registers: &[i32; REGISTERS], x: Expression) -> i64
    ensures { result ≡ evaluate registers.now x }
{
    match x {
        Expression::Bare(x) => number(registers, x) as i64,
        Expression::Apply(op, x, y) => op.apply(number(registers, x), number(registers, y)),
    }
}

// What a value gives its register, or none where it faults.
pub fn value(registers: &[i32; REGISTERS], v: Value) -> Option<i32>
    ensures { result ≡ value_of registers.now v }
{
    let n = evaluate(registers, v.into());
    fits(n).then(|| n as i32)
}

pub fn meets(registers: &[i32; REGISTERS], c: Condition) -> bool
    ensures { result ≡ holds registers.now c }
{
    let a = term(registers, c.left) as i64;
    let b = term(registers, c.right) as i64;
    c.rel.holds(a, b)
}
