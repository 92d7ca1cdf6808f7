// How single texts are read: every reading of the rules of lines that could be taken another way.
use model::expression::{Condition, Op, Parameter, Rel, Term, Value};
use model::line::{Line, Motion};
use reader::read;
use std::test::*;

// The number of the refusal and its place, or two zeros for a line.
fn seen(text: &[u8]) -> (u32, usize) {
    match read(text) {
        Ok(_) => (0, 0),
        Err(e) => (e.cause.number(), e.place),
    }
}

#[test]
fn accepted(rt: HostRuntime) -> Result<(), Fail> {
    assert_eq!(rt; seen(b""), (0, 0));
    assert_eq!(rt; seen(b"   "), (0, 0));
    assert_eq!(rt; seen(b"#1=[10000000+1]"), (0, 0));
    assert_eq!(rt; seen(b"# 6 = - 10000000"), (0, 0));
    assert_eq!(rt; seen(b"g1u[+1-#6]z-0x00000005y#1"), (0, 0));
    assert_eq!(rt; seen(b"o9999endwhile"), (0, 0));
    assert_eq!(rt; seen(b"O1if[#1ge-5]"), (0, 0));
    Ok(())
}

// A feed of X to #1 times 500, and of Y to #2.
fn is_feed(line: Line) -> bool {
    matches!(
        line,
        Line::Move {
            motion: Motion::Feed,
            x: Some(Value::Joined(Op::Mul, Term::Parameter(Parameter::P1), Term::Number(500))),
            y: Some(Value::Term(Term::Parameter(Parameter::P2))),
            z: None,
            u: None,
        }
    )
}

// Block 10, a loop while #1 is below 5.
fn is_loop(line: Line) -> bool {
    matches!(
        line,
        Line::While {
            label: 10,
            condition: Condition {
                rel: Rel::Lt,
                left: Term::Parameter(Parameter::P1),
                right: Term::Number(5),
            },
        }
    )
}

#[test]
fn stored_lines(rt: HostRuntime) -> Result<(), Fail> {
    assert!(rt; matches!(read(b"  "), Ok(Line::Plain)));
    assert!(rt; matches!(read(b"g1 x[#1*500] Y#2"), Ok(line) if is_feed(line)));
    assert!(rt; matches!(read(b"O10 WHILE [#1 LT 5]"), Ok(line) if is_loop(line)));
    Ok(())
}

#[test]
fn tokens_are_whole_runs(rt: HostRuntime) -> Result<(), Fail> {
    assert_eq!(rt; seen(b"G1XY5"), (13, 2));
    assert_eq!(rt; seen(b"O1WHILE1"), (13, 7));
    assert_eq!(rt; seen(b"GX5"), (13, 0));
    assert_eq!(rt; seen(b"#1=5;"), (13, 4));
    Ok(())
}

#[test]
fn leftmost_cause_first(rt: HostRuntime) -> Result<(), Fail> {
    assert_eq!(rt; seen(b"G2("), (14, 1));
    assert_eq!(rt; seen(b"G1X1X99999999"), (15, 4));
    assert_eq!(rt; seen(b"G1X99999999X1"), (14, 3));
    assert_eq!(rt; seen(b"#1=5 999999999"), (13, 5));
    Ok(())
}

#[test]
fn limits_of_numbers(rt: HostRuntime) -> Result<(), Fail> {
    assert_eq!(rt; seen(b"#000000001=1"), (14, 1));
    assert_eq!(rt; seen(b"#7=1"), (14, 1));
    assert_eq!(rt; seen(b"#0=1"), (14, 1));
    assert_eq!(rt; seen(b"O0 IF"), (14, 1));
    assert_eq!(rt; seen(b"O10000 IF"), (14, 1));
    assert_eq!(rt; seen(b"#1=-10000001"), (14, 4));
    Ok(())
}

#[test]
fn axes_named_twice(rt: HostRuntime) -> Result<(), Fail> {
    assert_eq!(rt; seen(b"G1 X X5"), (13, 5));
    assert_eq!(rt; seen(b"G1X1Y1Z1U1X1"), (15, 10));
    assert_eq!(rt; seen(b"G1X1Y1Z1U1A"), (13, 10));
    assert_eq!(rt; seen(b"G1X1x"), (15, 4));
    Ok(())
}

#[test]
fn early_ends(rt: HostRuntime) -> Result<(), Fail> {
    assert_eq!(rt; seen(b"G1 X "), (13, 5));
    assert_eq!(rt; seen(b"G1"), (13, 2));
    assert_eq!(rt; seen(b"#1=[1+2"), (13, 7));
    assert_eq!(rt; seen(b"O5 WHILE  "), (13, 10));
    Ok(())
}

#[test]
fn bytes_before_tokens(rt: HostRuntime) -> Result<(), Fail> {
    assert_eq!(rt; seen(b"?\tG"), (12, 1));
    assert_eq!(rt; seen(b"G1X1\r"), (12, 4));
    assert_eq!(rt; seen(&[b'?'; 121]), (11, 120));
    assert_eq!(rt; seen(&[b' '; 120]), (0, 0));
    Ok(())
}
