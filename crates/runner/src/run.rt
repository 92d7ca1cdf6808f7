// A run: the line it stands at, and its registers.
ghost use Rattle.std.specs.Prelude.{◌≡◌, ◌+◌, ◌^◌, ◌<◌, length, if◌then◌else◌, Some};
ghost use Rattle.model.specs.Blocks.{block_of};
ghost use Rattle.model.specs.Environments.{position};
ghost use Rattle.model.specs.Sides.{axis_register};
ghost use Rattle.model.specs.Programs.{Closed};
ghost use Rattle.model.specs.Values.{holds};
ghost use Rattle.program.specs.Held.{held};
ghost use Rattle.runner.specs.Drying.{start, number, number_under, is_past};
ghost use Rattle.runner.specs.Plain.{no_run, run_at, PlainStep};
ghost use Rattle.runner.specs.Steps.{worked, set_if, assigned, moved, behind, first, went, gone, commanded, step_of};

use crate::value::{meets, value};
use model::axes::{Axes, Position};
use model::expression::{Condition, Parameter, Value};
use model::line::{Axis, Line};
use model::register::{PARAMETERS, REGISTERS, Register};
use program::table::Program;

#[derive(Clone, Copy)]
pub struct Run {
    // from 0; none where no run goes
    pub at: Option<usize>,
    registers: [i32; REGISTERS],
}

/// Why a run makes no step: none goes.
#[derive(Clone, Copy)]
pub struct NoRun;

// A fault is an answer like the others: a plain run's step has it as an outcome, and clauses and dry runs match on all four.
#[derive(Clone, Copy)]
pub enum Stepped {
    WentOn,
    Commanded(Position),
    Ended,
    Fault,
}

// The result that a value gives, if there is a value; none at all where it faults. A Result would need an error that says nothing.
fn worked(registers: &[i32; REGISTERS], v: &Option<Value>) -> Option<Option<i32>>
    ensures { result ≡ worked registers.now v.now }
{
    match v {
        None => Some(None),
        Some(v) => Some(Some(value(registers, *v)?)),
    }
}

fn behind(program: &Program, label: u16) -> usize
    ensures { result ≡ behind (length (held program.now)) (block_of (held program.now) label) }
{
    let end = program.block(label).and_then(|block| block.end);
    end.unwrap_or(program.lines().len())
}

fn first(program: &Program, label: u16) -> usize
    ensures { result ≡ first (length (held program.now)) (block_of (held program.now) label) }
{
    let first = program
        .block(label)
        .map(|block| block.first.saturating_sub(1));
    first.unwrap_or(program.lines().len())
}

impl Run {
    // Where no run goes.
    pub fn none() -> Run
        ensures { result ≡ no_run }
    {
        Run {
            at: None,
            registers: [0; REGISTERS],
        }
    }

    // A run at the first line, with the axes at home.
    pub fn begin(home: Position, values: [i32; PARAMETERS]) -> Run
        ensures { result ≡ run_at 0 (start home values) }
    {
        let Position { x, y, z, u } = home;
        let [p1, p2, p3, p4, p5, p6] = values;
        Run {
            at: Some(0),
            registers: [x, y, z, u, p1, p2, p3, p4, p5, p6],
        }
    }

    /// The number of the line under the run, from 1; none past the last line, and where no run goes.
    pub fn number_under(&self, program: &Program) -> Option<usize>
        ensures { result ≡ number_under (held program.now) self.now.at }
    {
        let n = self.at?;
        (n < program.lines().len()).then(|| n + 1)
    }

    /// The number of the line under the run, from 1; that of the last line past it, and 0 where no run goes.
    pub fn line_number(&self, program: &Program) -> usize
        ensures { result ≡ number (held program.now) self.now.at }
    {
        let count = program.lines().len();
        match self.at {
            None => 0,
            Some(n) => if n < count { n + 1 } else { count },
        }
    }

    /// Whether the run is past the last line, or none goes.
    pub fn is_past(&self, program: &Program) -> bool
        ensures { result ≡ is_past (held program.now) self.now.at }
    {
        match self.at {
            None => true,
            Some(n) => program.lines().len() <= n,
        }
    }

    fn position(&self) -> Position
        ensures { result ≡ position self.now.registers }
    {
        let [x, y, z, u, ..] = self.registers;
        [x, y, z, u].into()
    }

    // Gives the axis its result, if there is one.
    fn put(&mut self, axis: Axis, x: Option<i32>)
        ensures { self.new ≡ record { at = self.old.at; registers = set_if self.old.registers (axis_register axis) x } }
    {
        if let Some(x) = x {
            self.registers[Register::from(axis).index] = x;
        }
    }

    fn travel(&mut self, n: usize, to: Axes<Option<i32>>) -> Stepped
        ensures { gone self.new result ≡ commanded n (set_if (set_if (set_if (set_if self.old.registers 0 to.x) 1 to.y) 2 to.z) 3 to.u) }
    {
        self.put(Axis::X, to.x);
        self.put(Axis::Y, to.y);
        self.put(Axis::Z, to.z);
        self.put(Axis::U, to.u);
        self.at = Some(n);
        Stepped::Commanded(self.position())
    }

    fn go(&mut self, n: usize) -> Stepped
        ensures { gone self.new result ≡ went Stepped.WentOn n self.old.registers }
    {
        self.at = Some(n);
        Stepped::WentOn
    }

    // A setting at line n gives the parameter its result.
    fn set(&mut self, n: usize, parameter: Parameter, v: Value) -> Stepped
        requires at { self.old.at ≡ Some n }
        requires room { n + 1 < 2 ^ 64 }
        ensures { gone self.new result ≡ assigned n self.old.registers parameter v }
    {
        let Some(x) = value(&self.registers, v) else {
            return Stepped::Fault;
        };
        self.registers[Register::from(parameter).index] = x;
        self.go(n + 1)
    }

    // A block line leads on where its condition holds, else behind its block.
    fn turn(&mut self, program: &Program, next: usize, label: u16, condition: &Condition) -> Stepped
        ensures { gone self.new result ≡ went Stepped.WentOn (if holds self.old.registers condition.now then next else behind (length (held program.now)) (block_of (held program.now) label)) self.old.registers }
    {
        if meets(&self.registers, *condition) {
            self.go(next)
        } else {
            self.go(behind(program, label))
        }
    }

    // A move at line n: all values are worked out before an axis takes its own.
    fn carry(
        &mut self,
        n: usize,
        x: &Option<Value>,
        y: &Option<Value>,
        z: &Option<Value>,
        u: &Option<Value>,
    ) -> Stepped
        requires at { self.old.at ≡ Some n }
        requires room { n + 1 < 2 ^ 64 }
        ensures { gone self.new result ≡ moved n self.old.registers x.now y.now z.now u.now }
    {
        let Some(x) = worked(&self.registers, x) else {
            return Stepped::Fault;
        };
        let Some(y) = worked(&self.registers, y) else {
            return Stepped::Fault;
        };
        let Some(z) = worked(&self.registers, z) else {
            return Stepped::Fault;
        };
        let Some(u) = worked(&self.registers, u) else {
            return Stepped::Fault;
        };
        self.travel(n + 1, Axes { x, y, z, u })
    }

    /// One step over the line under the run; in a closed program it is that of the plain run. Refused where no run goes.
    // Inlined, so that the answer is made where it is read.
    #[inline(always)]
    #[tactic(auto, using(crate::proofs::Stepped::plain_step))]
    pub fn step(&mut self, program: &Program) -> Result<Stepped, NoRun>
        ensures is { gone self.new result ≡ step_of (held program.now) self.old }
        ensures plain { Closed (held program.now) → PlainStep (held program.now) self.old result self.new }
    {
        let Some(n) = self.at else {
            return Err(NoRun);
        };
        match (self, program.lines().get(n)) {
            (run, Some(Line::Plain)) => Ok(run.go(n + 1)),
            (run, Some(Line::Setting { parameter, value })) => Ok(run.set(n, *parameter, *value)),
            (run, Some(Line::Move { x, y, z, u, .. })) => Ok(run.carry(n, x, y, z, u)),
            (run, Some(Line::While { label, condition })) => {
                Ok(run.turn(program, n + 1, *label, condition))
            }
            (run, Some(Line::If { label, condition })) => {
                Ok(run.turn(program, n + 1, *label, condition))
            }
            (run, Some(Line::EndIf { .. })) => Ok(run.go(n + 1)),
            (run, Some(Line::EndWhile { label })) => Ok(run.go(first(program, *label))),
            (_, None) => Ok(Stepped::Ended),
        }
    }
}
