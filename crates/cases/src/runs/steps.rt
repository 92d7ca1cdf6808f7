// Starts, and runs step by step.
use crate::runs::check_answers;
use std::process::Abort;
use std::test::*;

// A program with a certificate, and a run that has just begun.
const BEGUN: [&[u8]; 6] = [
    b"allow 1 0 5",
    b"line O1 IF [#1 GT 2]",
    b"line G1 X#1",
    b"line O1 ENDIF",
    b"certify intervals 1",
    b"start 5 0 0 0 0 0",
];

// The answers to four commands behind those of BEGUN.
fn check_begun(
    rt: &(impl Abort + AllocGlobal),
    commands: [&[u8]; 4],
    answers: [&str; 4],
) -> Result<(), Fail> {
    let [allow, block, line, end, certify, start] = BEGUN;
    let [c1, c2, c3, c4] = commands;
    check_answers(
        rt,
        &[allow, block, line, end, certify, start, c1, c2, c3, c4],
        &answers,
    )
}

// The command is answered so, and no run goes on after it.
fn check_ending(rt: &(impl Abort + AllocGlobal), command: &[u8], answer: &str) -> Result<(), Fail> {
    let gone = "refused 43";
    check_begun(
        rt,
        [b"step", command, b"step", b"step"],
        ["went on", answer, gone, gone],
    )
}

// The command is answered so, and the run goes on after it.
fn check_going(rt: &(impl Abort + AllocGlobal), command: &[u8], answer: &str) -> Result<(), Fail> {
    check_begun(
        rt,
        [b"step", command, b"step", b"step"],
        ["went on", answer, "position 5 0 0 0", "went on"],
    )
}

#[test]
fn steps(rt: HostRuntime) -> Result<(), Fail> {
    let past: &[&[u8]] = &[
        b"certify intervals 0",
        b"start 0 0 0 0 0 0",
        b"step",
        b"step",
    ];
    check_answers(
        &rt,
        past,
        &["certified none none none none", "ok", "ended", "ended"],
    )?;
    check_begun(
        &rt,
        [b"step", b"step", b"step", b"step"],
        ["went on", "position 5 0 0 0", "went on", "ended"],
    )?;
    check_begun(
        &rt,
        [b"start 2 0 0 0 0 0", b"step", b"step", b"step"],
        ["ok", "went on", "ended", "ended"],
    )?;
    check_begun(
        &rt,
        [b"step", b"start 4 0 0 0 0 0", b"step", b"step"],
        ["went on", "ok", "went on", "position 4 0 0 0"],
    )
}

#[test]
fn starts(rt: HostRuntime) -> Result<(), Fail> {
    let start: &[u8] = b"start 0 0 0 0 0 0";
    check_answers(&rt, &[start, b"step"], &["refused 41", "refused 43"])?;
    check_answers(
        &rt,
        &[b"line O1 IF [1 EQ 1]", b"certify intervals 16", start],
        &["ok", "refused 31", "refused 41"],
    )?;
    check_going(&rt, b"start 6 0 0 0 0 0", "refused 42 1")?;
    check_going(&rt, b"start -1 1 0 0 0 0", "refused 42 1")?;
    check_going(&rt, b"start 5 0 -1 0 0 10000001", "refused 42 3")?;
    check_going(&rt, b"start 5 0 0 0 0 1", "refused 42 6")?;
    check_going(&rt, b"start 5 0 0 0 0", "bad command 8")
}

#[test]
fn what_ends_a_run(rt: HostRuntime) -> Result<(), Fail> {
    check_ending(&rt, b"line", "ok")?;
    check_ending(&rt, b"allow 1 0 5", "ok")?;
    check_ending(&rt, b"wipe", "ok")?;
    check_ending(&rt, b"certify intervals 1", "certified 3..5 0..0 0..0 0..0")?;
    check_ending(&rt, b"certify congruences 1", "refused 33 2 travel 0")
}

#[test]
fn what_leaves_a_run(rt: HostRuntime) -> Result<(), Fail> {
    check_going(&rt, b"line O1 ENDIF", "refused 22")?;
    check_going(&rt, b"allow 7 0 0", "refused 26")?;
    check_going(&rt, b"allow 1 1 0", "refused 27")?;
    check_going(&rt, b"certify intervals 0", "refused 32")?;
    check_going(&rt, b"dry 0 0 0 0 0 0 9", "ended")?;
    check_going(&rt, b"gantry 0 0 0 0 1 1 1 1 0 0 0 2", "refused 51")
}

// A start is under the certificate of the last certify that judged, whatever the domain.
#[test]
fn domains_in_turn(rt: HostRuntime) -> Result<(), Fail> {
    let start: &[u8] = b"start 5 0 0 0 0 0";
    check_begun(
        &rt,
        [
            b"certify congruences 1",
            start,
            b"certify congruences*intervals 1",
            start,
        ],
        [
            "refused 33 2 travel 0",
            "refused 41",
            "certified 3..5 0..0 0..0 0..0",
            "ok",
        ],
    )?;
    check_begun(
        &rt,
        [b"certify intervals*congruences 1", b"step", start, b"step"],
        [
            "certified 3..5 0..0 0..0 0..0",
            "refused 43",
            "ok",
            "went on",
        ],
    )
}
