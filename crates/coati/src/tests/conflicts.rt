use super::runs::{expect_in, run_in};
use std::process::Abort;
use std::test::Fail;

/// The event writes what the first task reads.
const READ: &str =
    "nv a = 1; nv b = 0; buffer 2; event e(v) { top { give v; } bottom(x) { a = x; } } \
    transaction t { task p { b = a; next q; } task q { b = b + 1; halt; } }";

/// The transaction reads it behind its own write.
const WRITTEN_FIRST: &str =
    "nv a = 1; nv b = 0; buffer 2; event e(v) { top { give v; } bottom(x) { a = x; } } \
    transaction t { task p { a = 5; next q; } task q { b = a; halt; } }";

/// Both write it, and neither reads it.
const WRITTEN_ALONE: &str =
    "nv a = 1; nv b = 2; buffer 2; event e(v) { top { give v; } bottom(x) { a = x; } } \
    transaction t { task p { a = 7; next q; } task q { b = b + 1; halt; } }";

/// Two of the words that the event writes are read, and the third is not.
const SEVERAL: &str = "nv a = 1; nv b = 2; nv c = 3; buffer 2; \
    event e(v) { top { give v; } bottom(x) { c = x; b = x; a = 5; } } \
    transaction t { task p { c = c + b; next q; } task q { a = c; halt; } }";

/// The event and the transaction have no word in common.
const APART: &str =
    "nv a = 1; nv b = 2; buffer 2; event e(v) { top { give v; } bottom(x) { b = b + x; } } \
    transaction t { task p { a = a + 1; next q; } task q { a = a * 2; halt; } }";

/// Nor have the event and the task.
const LONE_APART: &str =
    "nv a = 1; nv b = 2; buffer 2; event e(v) { top { give v; } bottom(x) { b = b + x; } } \
    task p { a = a + 1; halt; }";

const LONE: &str =
    "nv a = 1; nv b = 2; buffer 2; event e(v) { top { give v; } bottom(x) { a = a + x; } } \
    task p { a = a + 1; halt; }";

/// An event reads what the one before it wrote.
const ADDING: &str =
    "nv a = 1; nv b = 0; buffer 2; event e(v) { top { give v; } bottom(x) { a = a + x; } } \
    task p { b = b + 1; halt; }";

/// The event reads what the task under commit writes.
const BEHIND: &str =
    "nv a = 1; nv b = 2; buffer 2; event e(v) { top { give v; } bottom(x) { b = a + x; } } \
    task p { a = 7; b = 8; halt; }";

#[test]
fn a_unit_is_given_up_where_an_event_writes_what_it_read(rt: HostRuntime) -> Result<(), Fail> {
    let table = [
        (
            READ,
            "limit 1000 / at 18 0 e 9",
            "bound 220 / post 0.1 e 9 from 18 at 29 accepted 1 / \
                abort transaction t tasks 2 posting 1 word a / commit event e posting 1 reads / \
                commit transaction t tasks 2 reads a=9 b=9 / end idle / var a 9 / var b 10 / held 0",
        ),
        (
            READ,
            "limit 1000 / at 3 0 e 9",
            "bound 220 / post 0.1 e 9 from 3 at 14 accepted 1 / \
                abort transaction t tasks 1 posting 1 word a / commit event e posting 1 reads / \
                commit transaction t tasks 2 reads a=9 b=9 / end idle / var a 9 / var b 10 / held 0",
        ),
        (
            SEVERAL,
            "limit 1000 / at 20 0 e 9",
            "bound 300 / post 0.1 e 9 from 20 at 39 accepted 1 / \
                abort transaction t tasks 1 posting 1 word b / commit event e posting 1 reads / \
                commit transaction t tasks 2 reads c=9 b=9 c=18 / end idle / var a 18 / var b 9 / \
                var c 18 / held 0",
        ),
        (
            LONE,
            "limit 1000 / at 5 0 e 9",
            "bound 230 / post 0.1 e 9 from 5 at 18 accepted 1 / \
                abort task p tasks 1 posting 1 word a / commit event e posting 1 reads a=1 / \
                commit task p reads a=10 / end idle / var a 11 / var b 2 / held 0",
        ),
    ];
    for (source, trace, lines) in table {
        let text = format!(in rt.alloc(); "coati buffi / {lines}")?;
        expect_in(&rt, rt.alloc(), "buffi", source, trace, text.as_str())?;
    }
    Ok(())
}

#[test]
fn an_event_that_clashes_with_nothing_is_committed_at_once(rt: HostRuntime) -> Result<(), Fail> {
    let table = [
        (
            WRITTEN_FIRST,
            "limit 1000 / at 15 0 e 9",
            "bound 220 / post 0.1 e 9 from 15 at 26 accepted 1 / commit event e posting 1 reads / \
                commit transaction t tasks 2 reads a=5 / end idle / var a 5 / var b 5 / held 0",
        ),
        (
            WRITTEN_ALONE,
            "limit 1000 / at 15 0 e 9",
            "bound 220 / post 0.1 e 9 from 15 at 26 accepted 1 / commit event e posting 1 reads / \
                commit transaction t tasks 2 reads b=2 / end idle / var a 7 / var b 3 / held 0",
        ),
        (
            APART,
            "limit 1000 / at 4 0 e 9",
            "bound 230 / post 0.1 e 9 from 4 at 17 accepted 1 / commit event e posting 1 reads b=2 / \
                commit transaction t tasks 2 reads a=1 a=2 / end idle / var a 4 / var b 11 / held 0",
        ),
        (
            APART,
            "limit 1000 / at 22 0 e 9",
            "bound 230 / post 0.1 e 9 from 22 at 35 accepted 1 / commit event e posting 1 reads b=2 / \
                commit transaction t tasks 2 reads a=1 a=2 / end idle / var a 4 / var b 11 / held 0",
        ),
        (
            LONE_APART,
            "limit 1000 / at 5 0 e 9",
            "bound 230 / post 0.1 e 9 from 5 at 18 accepted 1 / commit event e posting 1 reads b=2 / \
                commit task p reads a=1 / end idle / var a 2 / var b 11 / held 0",
        ),
        (
            ADDING,
            "limit 1000 / at 2 0 e 10 / at 2 0 e 20",
            "bound 230 / post 0.1 e 10 from 2 at 15 accepted 1 / \
                post 0.2 e 20 from 15 at 28 accepted 2 / commit event e posting 1 reads a=1 / \
                commit event e posting 2 reads a=11 / commit task p reads b=0 / end idle / \
                var a 31 / var b 1 / held 0",
        ),
        (
            BEHIND,
            "limit 1000 / at 12 0 e 100",
            "bound 230 / commit task p reads / post 0.1 e 100 from 12 at 25 accepted 1 / \
                commit event e posting 1 reads a=7 / end idle / var a 7 / var b 107 / held 0",
        ),
    ];
    for (source, trace, lines) in table {
        let text = format!(in rt.alloc(); "coati buffi / {lines}")?;
        expect_in(&rt, rt.alloc(), "buffi", source, trace, text.as_str())?;
    }
    Ok(())
}

#[test]
fn no_cut_in_an_undo_changes_what_is_committed(rt: HostRuntime) -> Result<(), Fail> {
    let alloc = rt.alloc();
    let uncut = run_in(&rt, alloc, "buffi", READ, "limit 1000 / at 18 0 e 9")?;
    let early = uncut.replacen(alloc, "tasks 2 posting", "tasks 1 posting", 1)?;
    // The unit is given up at 37. Before that a cut takes the attempt of the second task.
    for period in 29..100u32 {
        let trace = format!(in alloc; "limit 1000 / power {period} / at 18 0 e 9")?;
        let written = run_in(&rt, alloc, "buffi", READ, trace.as_str())?;
        let boot = format!(in alloc; "boot 1 at {period}\n")?;
        let rest = written.replacen(alloc, boot.as_str(), "", 1)?;
        let wanted = if period < 37 {
            early.as_str()
        } else {
            uncut.as_str()
        };
        assert_eq!(rt; rest.as_str(), wanted, "cut at {period}");
    }
    Ok(())
}
