// What the same steps come to in each domain, in products, in a product of a product, and beside a domain that tells nothing.
use domain::domain::Domain;
use domain::product::Product;
use fickle::fickle::Fickle;
use model::expression::{Condition, Expression, LIMIT, Op, Parameter, Rel, Term, Value};
use model::line::Axis;
use model::range::{EMPTY, FULL, Range};
use model::register::Register;
use model::side::{Factor, Side, Sign};
use pointwise::kinds::{Congruences, Intervals};
use std::process::Abort;

type Both = Product<Intervals, Congruences>;

type Turned = Product<Congruences, Intervals>;

type Twice = Product<Intervals, Intervals>;

type Beside = Product<Both, Fickle>;

type Behind = Product<Fickle, Both>;

const FIRST: Term = Term::Parameter(Parameter::P1);

fn check_range(rt: &impl Abort, found: Range, lo: i32, hi: i32) {
    assert!(rt; found == Range { lo, hi });
}

// Any environment whose register lies in the range.
fn narrowed<D: Domain>(register: Register, range: Range) -> D {
    let mut state = D::any();
    state.narrow(register, range);
    state
}

// One above what all sets of a state can be widened together; a product's is the sum of its sides'.
#[test]
fn ranks_of_none(rt: HostRuntime) {
    assert!(rt; Intervals::NONE_RANK == 21);
    assert!(rt; Congruences::NONE_RANK == 251);
    assert!(rt; Both::NONE_RANK == 272);
    assert!(rt; Turned::NONE_RANK == 272);
    assert!(rt; Twice::NONE_RANK == 42);
    assert!(rt; Beside::NONE_RANK == 274);
    assert!(rt; Behind::NONE_RANK == 274);
}

// 4 joined with 10, kept above 4: what is left of #1.
fn above_four<D: Domain>() -> Range {
    let mut state = narrowed::<D>(Parameter::P1.into(), Range::single(4));
    let condition = Condition {
        rel: Rel::Gt,
        left: FIRST,
        right: Term::Number(4),
    };
    state.join(&narrowed(Parameter::P1.into(), Range::single(10)));
    state.keep(&condition);
    state.range(Parameter::P1.into(), FULL)
}

#[test]
fn each_side_learns_from_the_other(rt: HostRuntime) {
    check_range(&rt, above_four::<Intervals>(), 5, 10);
    check_range(&rt, above_four::<Congruences>(), -9_999_998, 10_000_000);
    check_range(&rt, above_four::<Both>(), 10, 10);
    check_range(&rt, above_four::<Turned>(), 10, 10);
    check_range(&rt, above_four::<Twice>(), 5, 10);
    check_range(&rt, above_four::<Beside>(), 10, 10);
    check_range(&rt, above_four::<Behind>(), 10, 10);
}

// X after #1 in 0..4 was widened by 1..5 and X is set to #1 times 500.
fn widened_rows<D: Domain>() -> D {
    let mut state = narrowed::<D>(Parameter::P1.into(), Range { lo: 0, hi: 4 });
    state.widen(&narrowed(Parameter::P1.into(), Range { lo: 1, hi: 5 }));
    let row: Expression = Value::Joined(Op::Mul, FIRST, Term::Number(500)).into();
    state.set(Axis::X.into(), &row);
    state
}

#[test]
fn a_product_is_cut_to_the_limit(rt: HostRuntime) {
    check_range(
        &rt,
        widened_rows::<Intervals>().range(Axis::X.into(), FULL),
        0,
        10_000_000,
    );
    check_range(
        &rt,
        widened_rows::<Congruences>().range(Axis::X.into(), FULL),
        -10_000_000,
        10_000_000,
    );
    check_range(
        &rt,
        widened_rows::<Both>().range(Axis::X.into(), Range { lo: 1, hi: 999 }),
        500,
        500,
    );
    check_range(
        &rt,
        widened_rows::<Behind>().range(Axis::X.into(), Range { lo: 1, hi: 499 }),
        1,
        0,
    );
}

fn is_sure<D: Domain>() -> bool {
    let next: Expression = Value::Joined(Op::Add, FIRST, Term::Number(1)).into();
    let below = Range {
        lo: 0,
        hi: LIMIT - 1,
    };
    narrowed::<D>(Parameter::P1.into(), below).sure(&next)
}

// X ≤ 9, for X in 0..9.
fn shows_nine<D: Domain>() -> bool {
    let side = Side {
        a: Sign::Plus,
        v: Axis::X,
        b: Factor::Zero,
        w: Axis::Y,
        c: 9,
    };
    narrowed::<D>(Axis::X.into(), Range { lo: 0, hi: 9 }).shows(side)
}

#[test]
fn one_side_is_enough(rt: HostRuntime) {
    assert!(rt; is_sure::<Intervals>() && !is_sure::<Congruences>());
    assert!(rt; is_sure::<Both>() && is_sure::<Turned>() && is_sure::<Behind>());
    assert!(rt; shows_nine::<Intervals>() && !shows_nine::<Congruences>());
    assert!(rt; shows_nine::<Both>() && shows_nine::<Turned>() && !shows_nine::<Fickle>());
}

fn compared_with_itself<D: Domain>(rel: Rel) -> Range {
    let condition = Condition {
        rel,
        left: FIRST,
        right: FIRST,
    };
    let mut state = narrowed::<D>(Parameter::P1.into(), Range { lo: 0, hi: 9 });
    state.keep(&condition);
    state.range(Parameter::P1.into(), FULL)
}

// Both cuts are made from what the register was.
#[test]
fn a_register_on_both_sides(rt: HostRuntime) {
    check_range(&rt, compared_with_itself::<Intervals>(Rel::Lt), 1, 8);
    check_range(&rt, compared_with_itself::<Intervals>(Rel::Eq), 0, 9);
    check_range(
        &rt,
        compared_with_itself::<Congruences>(Rel::Eq),
        -10_000_000,
        10_000_000,
    );
}

fn is_none_where_empty<D: Domain>() -> bool {
    narrowed::<D>(Axis::U.into(), EMPTY).within(&D::none())
}

#[test]
fn narrowing_to_an_empty_range_leaves_none(rt: HostRuntime) {
    assert!(rt; is_none_where_empty::<Intervals>());
    assert!(rt; is_none_where_empty::<Congruences>());
    assert!(rt; is_none_where_empty::<Both>());
    assert!(rt; !is_none_where_empty::<Behind>());
}
