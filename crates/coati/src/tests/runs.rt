use super::verdicts::is_judged;
use super::{AMPLE, call};
use coati_top::Status;
use std::alloc::Global;
use std::process::Abort;
use std::test::Fail;

const THREE_TIMES: &str =
    "nv n = 0; task main { n = n + 1; if n < 3 { next main; } else { halt; } }";

const FOREVER: &str = "nv n; task main { n = n + 1; next main; }";

const TENFOLD: &str =
    "nv a = 1; transaction t { task p { a = a + 1; next q; } task q { a = a * 10; halt; } }";

const FOUR_TASKS: &str = "nv n; transaction t { \
    task p { n = n + 1; if n < 4 { next p; } else { halt; } } }";

/// What it has written is read again, in its task and in the next one.
const OWN_WRITES: &str = "nv a = 3; nv b[2] = {5, 6}; transaction t { \
    task p { a = a + b[1]; b[1] = a; a = a + b[1]; next q; } \
    task q { b[a] = a + b[0]; a = b[0] - a; halt; } }";

const OPERATORS: &str = "nv a[8] = {10,11,12,13,14,15,16,17}; nv r[5]; \
    task m { r[0] = a[9]; r[1] = 7 / 0; r[2] = 1 << 16; r[3] = 65535 + 1; r[4] = 7 % 0; halt; }";

const COUNTED: &str = "coati split / bound 451 / commit task main reads n=0 n=1 / \
    commit task main reads n=1 n=2 / commit task main reads n=2 n=3 / end idle / var n 3 / held 0";

/// What a run of the source in a mode writes, by a trace whose lines are separated by ` / `.
pub(super) fn run_in(
    rt: &impl Abort,
    alloc: Global,
    mode: &str,
    source: &str,
    trace: &str,
) -> Result<String, Fail> {
    let lines = trace.replace(alloc, " / ", "\n")?;
    let input = format!(in alloc; "{source}\n%%\n{lines}\n")?;
    let answer = call(alloc, &["run", mode], input.as_bytes(), AMPLE, AMPLE)?;
    assert_eq!(rt; answer.0, Status::Ok, "{trace}");
    Ok(String::from_utf8(answer.1)?)
}

/// In mode `split`.
pub(super) fn run(
    rt: &impl Abort,
    alloc: Global,
    source: &str,
    trace: &str,
) -> Result<String, Fail> {
    run_in(rt, alloc, "split", source, trace)
}

/// A run of the source in a mode writes these lines by this trace, and they are serial; those of
/// both are separated by ` / `.
pub(super) fn expect_in(
    rt: &impl Abort,
    alloc: Global,
    mode: &str,
    source: &str,
    trace: &str,
    lines: &str,
) -> Result<(), Fail> {
    let text = lines.replace(alloc, " / ", "\n")?;
    let wanted = format!(in alloc; "{text}\n")?;
    let written = run_in(rt, alloc, mode, source, trace)?;
    assert_eq!(rt; written.as_str(), wanted.as_str(), "{source} by {trace}");
    is_judged(rt, alloc, source, mode, lines, "serial")
}

/// In mode `split`.
pub(super) fn expect(
    rt: &impl Abort,
    alloc: Global,
    source: &str,
    trace: &str,
    lines: &str,
) -> Result<(), Fail> {
    expect_in(rt, alloc, "split", source, trace, lines)
}

#[test]
fn runs_are_printed(rt: HostRuntime) -> Result<(), Fail> {
    let alloc = rt.alloc();
    let table = [
        (THREE_TIMES, "limit 1000", COUNTED),
        (THREE_TIMES, "limit 50", COUNTED),
        (
            THREE_TIMES,
            "limit 49",
            "coati split / bound 451 / commit task main reads n=0 n=1 / \
                commit task main reads n=1 n=2 / commit task main reads n=2 n=3 / end limit / \
                var n 3 / held 0",
        ),
        (
            THREE_TIMES,
            "limit 46",
            "coati split / bound 451 / commit task main reads n=0 n=1 / \
                commit task main reads n=1 n=2 / commit task main reads n=2 n=3 / end limit / \
                var n 3 / held 0",
        ),
        (
            THREE_TIMES,
            "limit 45",
            "coati split / bound 451 / commit task main reads n=0 n=1 / \
                commit task main reads n=1 n=2 / end limit / var n 2 / held 0",
        ),
        (
            THREE_TIMES,
            "limit 0",
            "coati split / bound 451 / end limit / var n 0 / held 0",
        ),
        (
            THREE_TIMES,
            "limit 1000 / power 13 / power 1",
            "coati split / bound 451 / commit task main reads n=0 n=1 / boot 1 at 13 / \
                boot 2 at 14 / commit task main reads n=1 n=2 / \
                commit task main reads n=2 n=3 / end idle / var n 3 / held 0",
        ),
        (
            TENFOLD,
            "limit 1000 / power 16",
            "coati split / bound 396 / boot 1 at 16 / \
                commit transaction t tasks 2 reads a=1 a=2 / end idle / var a 20 / held 0",
        ),
        (
            FOUR_TASKS,
            "limit 1000",
            "coati split / bound 451 / \
                commit transaction t tasks 4 reads n=0 n=1 n=1 n=2 n=2 n=3 n=3 n=4 / \
                end idle / var n 4 / held 0",
        ),
        (
            OWN_WRITES,
            "limit 1000",
            "coati split / bound 715 / \
                commit transaction t tasks 2 reads a=3 b[1]=6 a=9 a=9 b[1]=9 \
                a=18 a=18 b[0]=5 b[0]=23 a=18 / \
                end idle / var a 5 / var b 23 9 / held 0",
        ),
        (
            OPERATORS,
            "limit 1000",
            "coati split / bound 1760 / commit task m reads a[1]=11 / end idle / \
                var a 10 11 12 13 14 15 16 17 / var r 11 0 0 0 0 / held 0",
        ),
    ];
    for (source, trace, lines) in table {
        expect(&rt, alloc, source, trace, lines)?;
    }
    Ok(())
}

/// A run that counts to three with one cut, behind so many steps, tells the boot between these
/// lines.
fn expect_boot(
    rt: &impl Abort,
    alloc: Global,
    period: u32,
    before: &str,
    behind: &str,
) -> Result<(), Fail> {
    let trace = format!(in alloc; "limit 1000 / power {period}")?;
    let lines = format!(in alloc;
        "coati split / bound 451{before} / boot 1 at {period}{behind} / \
            commit task main reads n=1 n=2 / commit task main reads n=2 n=3 / \
            end idle / var n 3 / held 0"
    )?;
    expect(rt, alloc, THREE_TIMES, trace.as_str(), lines.as_str())
}

#[test]
fn a_cut_drops_an_attempt_and_no_commit(rt: HostRuntime) -> Result<(), Fail> {
    let first = " / commit task main reads n=0 n=1";
    for period in 1..13u32 {
        expect_boot(&rt, rt.alloc(), period, "", first)?;
    }
    for period in 13..17u32 {
        expect_boot(&rt, rt.alloc(), period, first, "")?;
    }
    expect(
        &rt,
        rt.alloc(),
        THREE_TIMES,
        "limit 1000 / power 1 times 10",
        "coati split / bound 451 / boot 1 at 1 / boot 2 at 2 / boot 3 at 3 / boot 4 at 4 / \
            boot 5 at 5 / boot 6 at 6 / boot 7 at 7 / boot 8 at 8 / boot 9 at 9 / boot 10 at 10 / \
            commit task main reads n=0 n=1 / commit task main reads n=1 n=2 / \
            commit task main reads n=2 n=3 / end idle / var n 3 / held 0",
    )
}

/// The lines of so many commits of a task that counts without end.
fn commits(alloc: Global, count: u32) -> Result<String, Fail> {
    let mut lines = String::new(alloc);
    for n in 0..count {
        let line = format!(in alloc; " / commit task main reads n={n}")?;
        lines.push_str(line.as_str())?;
    }
    Ok(lines)
}

/// The lines of so many boots, each a step behind the one before.
fn boots(alloc: Global, count: u32) -> Result<String, Fail> {
    let mut lines = String::new(alloc);
    for number in 0..count {
        let boot = number + 1;
        let line = format!(in alloc; " / boot {boot} at {boot}")?;
        lines.push_str(line.as_str())?;
    }
    Ok(lines)
}

#[test]
fn a_task_gets_on_within_the_bound(rt: HostRuntime) -> Result<(), Fail> {
    let alloc = rt.alloc();
    let commits = commits(alloc, 33)?;
    let lines = format!(in alloc;
        "coati split / bound 396{commits} / boot 1 at 396 / end limit / var n 33 / held 0"
    )?;
    expect(&rt, alloc, FOREVER, "limit 396 / power 396", lines.as_str())
}

#[test]
fn periods_of_one_step_give_no_commit(rt: HostRuntime) -> Result<(), Fail> {
    let alloc = rt.alloc();
    let boots = boots(alloc, 4096)?;
    let lines = format!(in alloc; "coati split / bound 396{boots} / end limit / var n 0 / held 0")?;
    expect(
        &rt,
        alloc,
        FOREVER,
        "limit 4096 / power 1 times 4096",
        lines.as_str(),
    )
}

/// Whether a run of the source takes this many steps. With the power cut behind them, it then
/// tells the boot, and else what it tells without a cut.
fn takes_steps(
    rt: &impl Abort,
    alloc: Global,
    source: &str,
    steps: u32,
    uncut: &str,
) -> Result<bool, Fail> {
    let trace = format!(in alloc; "limit 1000 / power {steps}")?;
    let written = run(rt, alloc, source, trace.as_str())?;
    if written.as_str() == uncut {
        return Ok(false);
    }
    let boot = format!(in alloc; "boot 1 at {steps}\n")?;
    let rest = written.replacen(alloc, boot.as_str(), "", 1)?;
    assert_eq!(rt; rest.as_str(), uncut, "{source} cut at {steps}");
    Ok(true)
}

/// How many steps a run of the source takes. Wherever the power is cut once, it commits the same.
fn cut_everywhere(rt: &impl Abort, alloc: Global, source: &str) -> Result<u32, Fail> {
    let uncut = run(rt, alloc, source, "limit 1000")?;
    for steps in 0..1000u32 {
        if !takes_steps(rt, alloc, source, steps + 1, uncut.as_str())? {
            return Ok(steps);
        }
    }
    Ok(1000)
}

#[test]
fn no_cut_changes_what_is_committed(rt: HostRuntime) -> Result<(), Fail> {
    let table = [
        (THREE_TIMES, 50),
        (TENFOLD, 32),
        (FOUR_TASKS, 70),
        (OWN_WRITES, 57),
    ];
    for (source, steps) in table {
        let found = cut_everywhere(&rt, rt.alloc(), source)?;
        assert_eq!(rt; found, steps, "{source}");
    }
    Ok(())
}
