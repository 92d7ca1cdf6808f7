// Sweeps repeat until one is unchanged; that one judges.
ghost use Rattle.std.specs.Prelude.{◌≡◌, ◌≤◌, length};
ghost use Rattle.model.specs.Programs.{Closed};
ghost use Rattle.program.specs.Held.{held};
ghost use Rattle.sweep.specs.Blocks.{blocks, states_for};
ghost use Rattle.sweep.specs.Sweeps.{sweep, Settles, verdict_of};
ghost use Rattle.certify.specs.Certifies.{answered, TheVerdict, Promised, Untouched};
ghost use Rattle.certify.specs.Passes.{sweeping};

use crate::begin::begin;
use crate::copied::CopiedSides;
use crate::lines::step;
use crate::pass::Pass;
use crate::refusal::{Certificate, CertifyRefusal};
use crate::store::clear;
use domain::domain::Domain;
use model::range::Range;
use model::register::{AXES, PARAMETERS};
use program::table::Program;
use travel::travel::Travel;

// Once through all lines, in order. What is only read goes beside what changes: two lent values for three functions are plainer
// than a type.
fn sweep_once<D: Domain, T: Travel>(
    program: &Program,
    sides: &CopiedSides<T>,
    start: D,
    store: &mut [D],
) -> Pass<D>
    ensures { sweeping store.new result ≡ sweep D.lattice (blocks (held program.now)) (T.envelope sides.now.travel.now) (held program.now) start store.old }
{
    let mut pass = Pass {
        line: 1,
        current: start,
        changed: false,
        failing: None,
        hulls: [None; AXES],
    };
    for line in program.lines() {
        step(program, sides, store, &mut pass, line);
    }
    pass
}

fn settle<D: Domain, T: Travel>(
    program: &Program,
    sides: &CopiedSides<T>,
    start: D,
    store: &mut [D],
) -> Pass<D>
    requires { (Closed (held program.now)) × (states_for (held program.now) ≤ length store.old) }
    ensures { Settles D.lattice (blocks (held program.now)) (T.envelope sides.now.travel.now) (held program.now) start store.old (sweeping store.new result) }
{
    loop {
        let pass = sweep_once(program, sides, start, store);
        if !pass.changed {
            return pass;
        }
    }
}

// What the sweep that judges has found.
fn verdict<D: Domain>(pass: Pass<D>) -> Result<Certificate, CertifyRefusal>
    ensures { result ≡ answered (verdict_of pass.failing pass.hulls) }
{
    match pass.failing {
        None => Ok(Certificate { hulls: pass.hulls }),
        Some(failure) => Err(CertifyRefusal::Uncertified(failure)),
    }
}

// The verdict on a program, in the domain at hand. What the lent states were before does not matter; there is one for each block.
pub fn certify<D: Domain, T: Travel>(
    program: &Program,
    travel: &T,
    allowed: &[Range; PARAMETERS],
    store: &mut [D],
) -> Result<Certificate, CertifyRefusal>
    ensures verdict { TheVerdict D.lattice (held program.now) (T.envelope travel.now) allowed.now (length store.old) result }
    ensures promised { Promised (held program.now) (T.envelope travel.now) allowed.now result }
    ensures untouched { Untouched result store.old store.new }
{
    if !program.is_closed() {
        return Err(CertifyRefusal::Open);
    }
    if store.len() < program.block_count() {
        return Err(CertifyRefusal::Store);
    }
    clear(store);
    let start = begin(travel, allowed);
    let sides = CopiedSides::new(travel);
    let pass = settle(program, &sides, start, store);
    verdict(pass)
}
