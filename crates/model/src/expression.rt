// Terms, the values that lines write, the expressions that are evaluated, and conditions.
ghost use Rattle.std.specs.Prelude.{◌≡◌};
ghost use Rattle.model.specs.Values.{apply, compare, expression_of, operand};

use crate::register::Register;

// The greatest length, in micrometres: every number of a program and every result lies from -LIMIT to LIMIT.
pub const LIMIT: i32 = 10_000_000;

// #1 to #6.
#[derive(Clone, Copy)]
pub enum Parameter {
    P1,
    P2,
    P3,
    P4,
    P5,
    P6,
}

#[derive(Clone, Copy)]
pub enum Term {
    Number(i32),
    Parameter(Parameter),
}

#[derive(Clone, Copy)]
pub enum Op {
    Add,
    Sub,
    Mul,
}

impl Op {
    /// The result of the operation on two numbers, in 64 bits.
    pub fn apply(self, a: i32, b: i32) -> i64
        ensures { result ≡ apply self a b }
    {
        let (a, b) = (a as i64, b as i64);
        match self {
            Op::Add => a + b,
            Op::Sub => a - b,
            Op::Mul => a * b,
        }
    }
}

/// What an operator joins: a number, or what a register has.
#[derive(Clone, Copy)]
pub enum Operand {
    Number(i32),
    Register(Register),
}

impl From<Term> for Operand {
    ghost from_gives = { λ term result. result ≡ operand term };

    fn from(term: Term) -> Operand {
        match term {
            Term::Number(n) => Operand::Number(n),
            Term::Parameter(p) => Operand::Register(p.into()),
        }
    }
}

/// What is evaluated in one go, and asked of a domain.
#[derive(Clone, Copy)]
pub enum Expression {
    Bare(Operand),
    Apply(Op, Operand, Operand),
}

/// What a line writes for a register: a term, or two that an operator joins.
#[derive(Clone, Copy)]
pub enum Value {
    Term(Term),
    Joined(Op, Term, Term),
}

impl From<Value> for Expression {
    ghost from_gives = { λ value result. result ≡ expression_of value };

    fn from(value: Value) -> Expression {
        match value {
            Value::Term(t) => Expression::Bare(t.into()),
            Value::Joined(op, left, right) => Expression::Apply(op, left.into(), right.into()),
        }
    }
}

#[derive(Clone, Copy)]
pub enum Rel {
    Eq,
    Ne,
    Lt,
    Le,
    Gt,
    Ge,
}

impl Rel {
    // Whether the relation holds of the two numbers.
    pub fn holds(self, a: i64, b: i64) -> bool
        ensures { result ≡ compare self a b }
    {
        match self {
            Rel::Eq => a == b,
            Rel::Ne => a != b,
            Rel::Lt => a < b,
            Rel::Le => a <= b,
            Rel::Gt => a > b,
            Rel::Ge => a >= b,
        }
    }
}

#[derive(Clone, Copy)]
pub struct Condition {
    pub rel: Rel,
    pub left: Term,
    pub right: Term,
}
