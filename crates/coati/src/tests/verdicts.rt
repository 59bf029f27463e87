use super::{AMPLE, call};
use coati_top::{Status, source_part};
use std::alloc::Global;
use std::process::Abort;
use std::test::Fail;

const COUNTING: &str = "nv n = 0; task main { n = n + 1; if n < 3 { next main; } else { halt; } }";

const COUNTED: &str = "coati split / bound 451 / commit task main reads n=0 n=1 / \
    commit task main reads n=1 n=2 / commit task main reads n=2 n=3 / end idle / var n 3 / held 0";

/// What the event writes, the transaction has read by then.
const CLASHING: &str = "nv a = 1; nv b = 0; buffer 2; \
    event e(v) { top { give v; } bottom(x) { a = x; } } \
    transaction t { task p { b = a; next q; } task q { b = b + 1; halt; } }";

const CLASHED: &str = "coati buffi / bound 220 / post 0.1 e 9 from 18 at 29 accepted 1 / \
    abort transaction t tasks 2 posting 1 word a / commit event e posting 1 reads / \
    commit transaction t tasks 2 reads a=9 b=9 / end idle / var a 9 / var b 10 / held 0";

/// A transaction that never ends: with readings, or without one.
const ENDLESS: &str = "nv n; nv m; buffer 1; event e(v) { top { give v; } bottom(x) { n = x; } } \
    transaction t { task p { n = n + 1; next p; } } \
    transaction u { task q { repeat i < 5000 { } next r; } task r { m = 7; next q; } }";

/// The status that belongs to what is said of a printed text.
fn status_of(said: &str) -> Status {
    match said {
        "serial" => Status::Ok,
        _ if said.starts_with("differs") => Status::Differs,
        _ => Status::BadTrace,
    }
}

/// This is said of a printed text of the source, whose lines are separated by ` / `.
pub(super) fn is_judged(
    rt: &impl Abort,
    alloc: Global,
    source: &str,
    mode: &str,
    text: &str,
    said: &str,
) -> Result<(), Fail> {
    let lines = text.replace(alloc, " / ", "\n")?;
    let input = format!(in alloc; "{source}\n%%\n{lines}\n")?;
    let answer = call(alloc, &["replay", mode], input.as_bytes(), AMPLE, AMPLE)?;
    assert_eq!(rt; answer.0, status_of(said), "{text}");
    let line = format!(in alloc; "{said}\n")?;
    assert_eq!(rt; answer.1.as_slice(), line.as_bytes(), "{text}");
    Ok(())
}

/// Each change of a text, made of some words of it, is judged so.
fn changes_are_judged(
    rt: &impl Abort,
    alloc: Global,
    source: &str,
    mode: &str,
    text: &str,
    table: &[(&str, &str, &str)],
) -> Result<(), Fail> {
    for (words, others, said) in table {
        let changed = text.replace(alloc, words, others)?;
        is_judged(rt, alloc, source, mode, changed.as_str(), said)?;
    }
    Ok(())
}

#[test]
fn a_run_of_tasks_is_judged(rt: HostRuntime) -> Result<(), Fail> {
    let first = "commit task main reads n=0 n=1 / ";
    let second = "commit task main reads n=1 n=2 / ";
    let third = "commit task main reads n=2 n=3 / ";
    let table = [
        ("held 0", "held 0", "serial"),
        ("end idle", "end limit", "serial"),
        ("bound 451", "bound 450", "differs line 2"),
        ("coati split / ", "", "printed line 1 bad"),
        ("bound 451 / ", "", "printed line 2 bad"),
        (first, "", "differs line 3"),
        (second, "", "differs line 4"),
        (third, "", "differs line 5"),
        (
            "n=0 n=1 / ",
            "n=0 n=1 / commit task main reads n=0 n=1 / ",
            "differs line 4",
        ),
        ("n=2 n=3", "n=2", "differs line 5"),
        ("end idle / ", "", "printed line 6 bad"),
        ("var n 3 / ", "", "printed line 7 bad"),
        (" / held 0", "", "printed line 8 bad"),
        ("var n 3", "var n 4", "differs line 7"),
        ("held 0", "held 1", "differs line 8"),
    ];
    changes_are_judged(&rt, rt.alloc(), COUNTING, "split", COUNTED, &table)
}

#[test]
fn a_clash_is_judged(rt: HostRuntime) -> Result<(), Fail> {
    let event = "commit event e posting 1 reads / ";
    let unit = "commit transaction t tasks 2 reads a=9 b=9 / ";
    let table = [
        ("held 0", "held 0", "serial"),
        ("b=9", "b=8", "differs line 6"),
        (" / held 0", "", "printed line 10 bad"),
        (event, "", "differs line 5"),
        ("tasks 2 posting", "tasks 1 posting", "serial"),
        ("tasks 2 posting", "tasks 3 posting", "differs line 4"),
        ("word a", "word b", "differs line 4"),
        ("tasks 2 reads", "tasks 1 reads", "differs line 6"),
        ("at 29", "at 62", "serial"),
        ("at 29", "at 63", "differs line 3"),
        ("accepted 1 / ", "full / ", "differs line 3"),
        ("at 29 accepted 1 / ", "at 29 lost 1 / ", "differs line 4"),
        (unit, "boot 1 at 0 / ", "differs line 6"),
    ];
    changes_are_judged(&rt, rt.alloc(), CLASHING, "buffi", CLASHED, &table)?;
    let exchanged = CLASHED.replace(rt.alloc(), event, "")?;
    let last = "reads a=9 b=9 / commit event e posting 1 reads / ";
    let exchanged = exchanged.replace(rt.alloc(), "reads a=9 b=9 / ", last)?;
    is_judged(
        &rt,
        rt.alloc(),
        CLASHING,
        "buffi",
        exchanged.as_str(),
        "differs line 5",
    )?;
    is_judged(
        &rt,
        rt.alloc(),
        CLASHING,
        "split",
        CLASHED,
        "differs line 1",
    )?;
    Ok(())
}

#[test]
fn numbers_of_tasks_cost_nothing(rt: HostRuntime) -> Result<(), Fail> {
    let alloc = rt.alloc();
    let head = "coati buffi / bound 180176 / ";
    let table = [
        (
            "commit transaction t tasks 500000 reads n=0",
            "differs line 3",
        ),
        ("commit transaction t tasks 500000 reads", "differs line 3"),
        ("commit transaction u tasks 500000 reads", "differs line 3"),
    ];
    for (line, said) in table {
        let text = format!(in alloc; "{head}{line} / end limit / var n 0 / var m 0 / held 0")?;
        is_judged(&rt, alloc, ENDLESS, "buffi", text.as_str(), said)?;
    }
    Ok(())
}

/// What a run of an input of so many rounds prints in a mode is serial in that mode.
fn replays_serially(rt: &impl Abort, alloc: Global, rounds: &str, mode: &str) -> Result<(), Fail> {
    let given = call(alloc, &["gen", rounds], b"", AMPLE, AMPLE)?;
    let run = call(alloc, &["run", mode], &given.1, AMPLE, AMPLE)?;
    let mut input = Vec::from_slice(alloc, source_part(&given.1))?;
    input.extend_from_slice(b"%%\n")?;
    input.extend_from_slice(&run.1)?;
    let answer = call(alloc, &["replay", mode], &input, AMPLE, AMPLE)?;
    assert_eq!(rt; answer.0, Status::Ok, "{rounds} in {mode}");
    assert_eq!(rt;
        answer.1.as_slice(),
        b"serial\n".as_slice(),
        "{rounds} in {mode}"
    );
    Ok(())
}

#[test]
fn what_a_run_prints_is_serial(rt: HostRuntime) -> Result<(), Fail> {
    for rounds in ["0", "40"] {
        replays_serially(&rt, rt.alloc(), rounds, "split")?;
        replays_serially(&rt, rt.alloc(), rounds, "buffi")?;
    }
    Ok(())
}

#[test]
fn only_texts_of_accepted_sources_are_judged(rt: HostRuntime) -> Result<(), Fail> {
    let alloc = rt.alloc();
    let input = format!(in alloc; "nv n;\n%%\n{COUNTED}\n")?;
    let answer = call(alloc, &["replay", "split"], input.as_bytes(), AMPLE, AMPLE)?;
    assert_eq!(rt; answer.0, Status::Refused);
    assert_eq!(rt; answer.1.as_slice(), b"refused syntax 3\n".as_slice());
    Ok(())
}
