// What is reported on whole inputs.
use console::input::report_on;
use std::process::Abort;
use std::test::*;

fn check_report(rt: &(impl Abort + AllocGlobal), input: &[u8], text: &str) -> Result<(), Fail> {
    let report = report_on(input);
    let shown = format!(in rt.alloc(); "{report}")?;
    assert!(rt; shown.as_str() == text);
    Ok(())
}

// What is printed where no move can be reached.
const NO_MOVE: &str = "certified\nX none\nY none\nZ none\nU none";

#[test]
fn lines_and_blocks(rt: HostRuntime) -> Result<(), Fail> {
    check_report(&rt, b"", NO_MOVE)?;
    check_report(&rt, b"\n", NO_MOVE)?;
    check_report(&rt, b"O1IF[1EQ1]\nO1ENDIF", NO_MOVE)?;
    check_report(&rt, b"O1IF[1EQ1]", "refused 0 31 0")?;
    check_report(&rt, b"O1ENDIF", "refused 1 22 0")?;
    check_report(&rt, b"O1IF[1EQ1]\nO1ENDWHILE\n", "refused 2 22 0")?;
    check_report(&rt, b"O1IF[1EQ1]\nO2ENDIF\n", "refused 2 22 0")?;
    check_report(&rt, b"O1IF[1EQ1]\nO1ENDIF\nO1WHILE[1EQ1]", "refused 3 23 0")
}

#[test]
fn range_lines(rt: HostRuntime) -> Result<(), Fail> {
    check_report(
        &rt,
        b"?1 -5 5\n?6 0 0\nG0X1",
        "certified\nX 1 1\nY 0 0\nZ 0 0\nU 0 0",
    )?;
    check_report(&rt, b"?0 1 2", "refused 0 26 0")?;
    check_report(&rt, b"?7 2 1", "refused 0 26 0")?;
    check_report(&rt, b"?1 2 1", "refused 0 27 0")?;
    check_report(&rt, b"?1 0 10000001", "refused 0 27 0")?;
    check_report(&rt, b"?1  1 2", "refused 0 13 0")?;
    check_report(&rt, b"?1 1 2 ", "refused 0 13 0")?;
    check_report(&rt, b"?1 +1 2", "refused 0 13 0")
}

#[test]
fn where_the_program_begins(rt: HostRuntime) -> Result<(), Fail> {
    check_report(&rt, b"\n?1 1 2", "refused 2 13 0")?;
    check_report(&rt, b" ?1 1 2", "refused 1 13 1")?;
    check_report(&rt, b"?1 1 2\r\n", "refused 0 13 0")
}

// Moves to points 500 apart, as long as the condition on their number holds.
fn check_rows(rt: &(impl Abort + AllocGlobal), condition: &str, text: &str) -> Result<(), Fail> {
    let input = format!(in rt.alloc();
        "?2 100 200\n#1=0\nO10 WHILE [{condition}]\nG1 X[#1*500] Y#2\n#1=[#1+1]\nO10 ENDWHILE\n"
    )?;
    check_report(rt, input.as_str().as_bytes(), text)
}

#[test]
fn verdicts(rt: HostRuntime) -> Result<(), Fail> {
    check_rows(
        &rt,
        "#1 LT 5",
        "certified\nX 0 2000\nY 100 200\nZ 0 0\nU 0 0",
    )?;
    check_rows(
        &rt,
        "#1 LE 5000",
        "certified\nX 0 2500000\nY 100 200\nZ 0 0\nU 0 0",
    )?;
    check_rows(&rt, "#1 LE 5001", "uncertified 3 travel 0")?;
    check_report(
        &rt,
        b"#1=0\nO10 WHILE [#1 LE 5001]\nG1 X[#1*500]\n#1=[#1+1]\nO10 ENDWHILE\n",
        "uncertified 3 travel 0",
    )?;
    check_report(&rt, b"?3 -7 5\nG0 Z#3", "uncertified 1 travel 4")?;
    check_report(
        &rt,
        b"?3 -7 5\n?3 -7 0\nG0 Z#3",
        "certified\nX 0 0\nY 0 0\nZ -7 0\nU 0 0",
    )?;
    check_report(
        &rt,
        b"?1 0 10000000\nG0 X[#1+1]",
        "uncertified 1 arithmetic",
    )
}
