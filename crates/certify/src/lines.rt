// What one line does to a sweep.
ghost use Rattle.std.specs.Prelude.{◌≡◌, ◌<◌, ◌^◌, suc, if◌then◌else◌, Some, None, slice_index_or, slice_set};
ghost use Rattle.model.specs.Opposites.{opposite};
ghost use Rattle.model.specs.Sides.{lowest};
ghost use Rattle.model.specs.Values.{expression_of, register};
ghost use Rattle.program.specs.Held.{held};
ghost use Rattle.sweep.specs.Blocks.{blocks};
ghost use Rattle.sweep.specs.Sweeps.{first, failure, broken, all_sure, set_all, hulls_with, came, keeping, line_step};
ghost use Rattle.certify.specs.Passes.{flowing, sweeping, onward, judged};

use crate::axes::{add_to_hulls, all_sure, lowest_unshown, set_axes};
use crate::copied::CopiedSides;
use crate::pass::Pass;
use crate::store::{come, condition_of, place, put, stored};
use domain::domain::Domain;
use model::ending::{Cause, Failure};
use model::expression::{Condition, Parameter, Value};
use model::line::Line;
use model::opposite::opposite_of;
use model::register::AXES;
use model::side::Side;
use program::table::Program;
use travel::travel::Travel;

// The first failure stays.
fn judge_line<D: Domain>(pass: &mut Pass<D>, cause: Option<Cause>)
    ensures { pass.new ≡ judged pass.old cause }
{
    let line = pass.line;
    pass.failing = pass.failing.or(cause.map(|cause| Failure { line, cause }));
}

fn set_parameter<D: Domain>(pass: &mut Pass<D>, parameter: Parameter, value: Value)
    ensures { pass.new ≡ onward (judged pass.old (if D.lattice.sure pass.old.current (expression_of value) then None else Some Cause.Arithmetic)) (D.lattice.set pass.old.current (register parameter) (expression_of value)) }
{
    let expression = value.into();
    let sure = pass.current.sure(&expression);
    judge_line(pass, (!sure).then_some(Cause::Arithmetic));
    pass.current.set(parameter.into(), &expression);
}

// Arithmetic is judged before travel, at the state before the move.
fn cause_of_move<D: Domain>(sure: bool, after: &D, sides: &[Side]) -> Option<Cause>
    ensures { result ≡ (if sure then broken (lowest (D.lattice.shows after.now) 0 sides.now) else Some Cause.Arithmetic) }
{
    if !sure {
        return Some(Cause::Arithmetic);
    }
    lowest_unshown(after, sides).map(Cause::Travel)
}

fn move_axes<D: Domain>(pass: &mut Pass<D>, sides: &[Side], values: &[Option<Value>; AXES])
    ensures current { pass.new.current ≡ set_all D.lattice 0 values.now pass.old.current }
    ensures changed { pass.new.changed ≡ pass.old.changed }
    ensures failing { pass.new.failing ≡ first pass.old.failing (failure pass.old.line (if all_sure D.lattice pass.old.current values.now then broken (lowest (D.lattice.shows pass.new.current) 0 sides.now) else Some Cause.Arithmetic)) }
    ensures line { pass.new.line ≡ pass.old.line }
    ensures hulls { pass.new.hulls ≡ hulls_with D.lattice 0 pass.new.current pass.old.hulls }
{
    let sure = all_sure(&pass.current, values);
    set_axes(&mut pass.current, values);
    let cause = cause_of_move(sure, &pass.current, sides);
    judge_line(pass, cause);
    add_to_hulls(&pass.current, &mut pass.hulls);
}

// A loop's line: its state goes on, as far as it meets the condition.
fn pass_loop<D: Domain>(store: &mut [D], place: usize, pass: &mut Pass<D>, condition: &Condition)
    ensures flow { flowing store.new pass.new ≡ keeping D.lattice condition.now (came D.lattice place (flowing store.old pass.old)) }
    ensures failing { pass.new.failing ≡ pass.old.failing }
    ensures line { pass.new.line ≡ pass.old.line }
    ensures hulls { pass.new.hulls ≡ pass.old.hulls }
{
    come(store, place, pass);
    pass.current.keep(condition);
}

// What does not meet the condition waits in the store for the end of the branch.
fn enter_branch<D: Domain>(store: &mut [D], place: usize, pass: &mut Pass<D>, condition: &Condition)
    ensures store { store.new ≡ slice_set store.old place (D.lattice.keep pass.old.current (opposite condition.now)) }
    ensures pass { pass.new ≡ onward pass.old (D.lattice.keep pass.old.current condition.now) }
{
    let mut skipped = pass.current;
    skipped.keep(&opposite_of(*condition));
    put(store, place, skipped);
    pass.current.keep(condition);
}

fn leave_branch<D: Domain>(store: &[D], place: usize, pass: &mut Pass<D>)
    ensures { pass.new ≡ onward pass.old (D.lattice.join (slice_index_or store.now place D.lattice.none) pass.old.current) }
{
    let mut joined = stored(store, place);
    joined.join(&pass.current);
    pass.current = joined;
}

// The next line.
pub(crate) fn step<D: Domain, T: Travel>(
    program: &Program,
    sides: &CopiedSides<T>,
    store: &mut [D],
    pass: &mut Pass<D>,
    line: &Line,
)
    requires { suc pass.old.line < 2 ^ 64 }
    ensures { sweeping store.new pass.new ≡ line_step D.lattice (blocks (held program.now)) (T.envelope sides.now.travel.now) (sweeping store.old pass.old) line.now }
{
    match line {
        Line::Plain => {}
        Line::Setting { parameter, value } => set_parameter(pass, *parameter, *value),
        Line::Move { x, y, z, u, .. } => move_axes(pass, sides.as_slice(), &[*x, *y, *z, *u]),
        Line::While { label, condition } => {
            pass_loop(store, place(program, *label), pass, condition);
        }
        Line::EndWhile { label } => {
            let opposite = opposite_of(condition_of(program, *label));
            pass_loop(store, place(program, *label), pass, &opposite);
        }
        Line::If { label, condition } => {
            enter_branch(store, place(program, *label), pass, condition);
        }
        Line::EndIf { label } => leave_branch(store, place(program, *label), pass),
    }
    pass.line += 1;
}
