// What runs come to, as the last answers to a script: here dry runs, and the helper for all.
use console::lines::Lines;
use desk::script::answer_script;
use desk::stretch::write_answers;
use std::alloc::{AllocError, Global};
use std::process::Abort;
use std::test::*;

mod steps;

fn text_of(alloc: Global, lines: &[&[u8]]) -> Result<Vec<u8>, AllocError> {
    let mut text = Vec::new(alloc);
    for line in lines {
        text.extend_from_slice(*line)?;
        text.push(b'\n')?;
    }
    Ok(text)
}

// The last answers to a script, which has one for each line.
fn check_answers(
    rt: &(impl Abort + AllocGlobal),
    script: &[&[u8]],
    last: &[&str],
) -> Result<(), Fail> {
    let text = text_of(rt.alloc(), script)?;
    let mut answers = Vec::new(rt.alloc());
    write_answers(&mut answers, text.as_slice())?;
    assert!(rt; Lines::new(answers.as_slice()).count() == script.len());
    assert!(rt; last.len() <= script.len());
    let before = script.len() - last.len();
    for (answer, text) in Lines::new(answers.as_slice()).skip(before).zip(last) {
        assert!(rt; answer == text.as_bytes());
    }
    Ok(())
}

fn check_last(rt: &(impl Abort + AllocGlobal), script: &[&[u8]], last: &str) -> Result<(), Fail> {
    check_answers(rt, script, &[last])
}

// The answers as values: one for each line, on the table that stands there.
#[test]
fn answers_as_values(rt: HostRuntime) -> Result<(), Fail> {
    let move_past_the_gap: &[u8] = b"line G1 X2410001";
    let dry: &[u8] = b"dry 0 0 0 0 0 0 9";
    let script: [&[u8]; 7] = [
        move_past_the_gap,
        dry,
        b"benchbeam",
        b"step",
        b"go",
        move_past_the_gap,
        dry,
    ];
    let texts = [
        "ok",
        "ended",
        "ok",
        "refused 43",
        "bad command 5",
        "ok",
        "stopped 1 travel 8",
    ];
    let text = text_of(rt.alloc(), &script)?;
    let answers = answer_script(rt.alloc(), text.as_slice())?;
    assert!(rt; answers.len() == texts.len());
    for (answer, text) in answers.iter().zip(texts) {
        let shown = format!(in rt.alloc(); "{answer}")?;
        assert!(rt; shown.as_str() == text);
    }
    Ok(())
}

// Where there is room for no more, the answers before are there.
#[test]
fn a_writer_that_is_full(rt: HostRuntime) -> Result<(), Fail> {
    let mut room = [b'.'; 10];
    let mut writer = room.as_mut_slice();
    let answered = write_answers(&mut writer, b"wipe\nwipe\nstep\n");
    assert!(rt; answered.is_err());
    assert!(rt; room == *b"ok\nok\nrefu");
    Ok(())
}

const ROUNDS: [&[u8]; 4] = [
    b"line O1 WHILE [#1 GT 0]",
    b"line #1=[#1-1]",
    b"line G1 X#1",
    b"line O1 ENDWHILE",
];

fn check_rounds(rt: &(impl Abort + AllocGlobal), dry: &[u8], last: &str) -> Result<(), Fail> {
    check_last(rt, &[ROUNDS[0], ROUNDS[1], ROUNDS[2], ROUNDS[3], dry], last)
}

// n rounds over b lines take n(b + 2) + 1 steps; here b is 2.
#[test]
fn steps_of_a_loop(rt: HostRuntime) -> Result<(), Fail> {
    check_rounds(&rt, b"dry 0 0 0 0 0 0 0", "running")?;
    check_rounds(&rt, b"dry 0 0 0 0 0 0 1", "ended")?;
    check_rounds(&rt, b"dry 3 0 0 0 0 0 12", "running")?;
    check_rounds(&rt, b"dry 3 0 0 0 0 0 13", "ended")?;
    check_rounds(&rt, b"dry 24999 0 0 0 0 0 99996", "running")?;
    check_rounds(&rt, b"dry 24999 0 0 0 0 0 99997", "ended")
}

#[test]
fn no_steps(rt: HostRuntime) -> Result<(), Fail> {
    check_last(&rt, &[b"dry 0 0 0 0 0 0 0"], "ended")?;
    check_last(&rt, &[b"line", b"dry 0 0 0 0 0 0 0"], "running")?;
    check_last(&rt, &[b"line", b"dry 0 0 0 0 0 0 1"], "ended")
}

// A fault counts only where the step that meets it is allowed.
#[test]
fn stop_on_the_last_step(rt: HostRuntime) -> Result<(), Fail> {
    let script: [&[u8]; 2] = [b"line #2=1", b"line #1=[10000000+#2]"];
    check_last(
        &rt,
        &[script[0], script[1], b"dry 0 0 0 0 0 0 1"],
        "running",
    )?;
    check_last(
        &rt,
        &[script[0], script[1], b"dry 0 0 0 0 0 0 2"],
        "stopped 2 arithmetic",
    )?;
    check_last(&rt, &[b"line G0 X-1", b"dry 0 0 0 0 0 0 0"], "running")?;
    check_last(
        &rt,
        &[b"line G0 X-1", b"dry 0 0 0 0 0 0 1"],
        "stopped 1 travel 1",
    )
}

// A sum of two numbers stops a run whatever the registers have, on each table.
#[test]
fn a_sum_beyond_the_limit(rt: HostRuntime) -> Result<(), Fail> {
    let sum: &[u8] = b"line #1=[10000000+1]";
    let stopped = "stopped 1 arithmetic";
    check_last(&rt, &[sum, b"dry 0 0 0 0 0 0 0"], "running")?;
    check_last(&rt, &[sum, b"dry 0 0 0 0 0 0 1"], stopped)?;
    check_last(
        &rt,
        &[sum, b"dry -10000000 0 0 0 0 10000000 100000"],
        stopped,
    )?;
    check_last(&rt, &[b"benchbeam", sum, b"dry 0 0 0 0 0 0 1"], stopped)
}

// Nothing of a line takes effect where one of its values faults.
#[test]
fn faults_come_first(rt: HostRuntime) -> Result<(), Fail> {
    check_last(
        &rt,
        &[b"line G1 X-1 U[10000000+1]", b"dry 0 0 0 0 0 0 9"],
        "stopped 1 arithmetic",
    )?;
    check_last(
        &rt,
        &[b"line G1 X-1 Y-1 Z1 U1", b"dry 0 0 0 0 0 0 9"],
        "stopped 1 travel 1",
    )
}

// On the beam the distance of X to U counts.
#[test]
fn the_gantry_and_the_beam(rt: HostRuntime) -> Result<(), Fail> {
    let dry: &[u8] = b"dry 0 0 0 0 0 0 9";
    check_last(
        &rt,
        &[b"benchgantry", b"line G1 X2500000 Y1250000 Z-80000", dry],
        "ended",
    )?;
    check_last(
        &rt,
        &[b"benchgantry", b"line G1 X2500001", dry],
        "stopped 1 travel 0",
    )?;
    check_last(
        &rt,
        &[b"benchgantry", b"line G1 Z-80001", dry],
        "stopped 1 travel 5",
    )?;
    check_last(
        &rt,
        &[b"benchgantry", b"line G1 U1", dry],
        "stopped 1 travel 6",
    )?;
    check_last(&rt, &[b"benchbeam", b"line G1 X2410000", dry], "ended")?;
    check_last(
        &rt,
        &[b"benchbeam", b"line G1 X2410001", dry],
        "stopped 1 travel 8",
    )?;
    check_last(
        &rt,
        &[b"benchbeam", b"line G1 X1 U90000", dry],
        "stopped 1 travel 8",
    )?;
    check_last(&rt, &[b"benchbeam", b"line G1 X0 U90000", dry], "ended")
}

#[test]
fn refusals(rt: HostRuntime) -> Result<(), Fail> {
    check_last(
        &rt,
        &[b"line O1 IF [1 EQ 1]", b"dry 10000001 0 0 0 0 0 100001"],
        "refused 31",
    )?;
    check_last(&rt, &[b"dry 10000001 0 0 0 0 0 100001"], "refused 44")?;
    check_last(&rt, &[b"dry 0 0 0 0 0 -10000001 100000"], "refused 45")?;
    check_last(&rt, &[b"allow 7 0 0"], "refused 26")?;
    check_last(&rt, &[b"allow 6 1 0"], "refused 27")?;
    check_last(&rt, &[b"gantry 0 0 0 0 1 1 1 1 0 0 0 2"], "refused 51")?;
    check_last(&rt, &[b"beam 0 0 0 0 9 9 9 9 0 0 0 4 5"], "refused 52")?;
    check_last(&rt, &[b"beam 0 0 0 0 9 9 9 9 0 0 0 4 0"], "refused 52")?;
    check_last(&rt, &[b"beam 0 0 0 0 9 9 9 9 0 0 0 4 4"], "ok")?;
    check_last(&rt, &[b"dry"], "bad command 1")
}
