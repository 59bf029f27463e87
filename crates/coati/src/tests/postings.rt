use super::DEVICE;
use super::runs::{expect, run};
use std::alloc::Global;
use std::process::Abort;
use std::test::Fail;

const TWO_PLACES: &str =
    "nv a = 1; nv b = 0; buffer 2; event e(v) { top { give v; } bottom(x) { a = x; } } \
    transaction t { task p { b = a; next q; } task q { b = b + 1; halt; } }";

const TWO_WORDS: &str =
    "nv n; nv m; event e(v) { top { give v, v * 2; } bottom(x, y) { n = x; m = y; } } \
    task t { halt; }";

/// Behind a posting at 17 in the transaction, what follows its line.
const SERVED: &str =
    " / commit transaction t tasks 2 reads a=1 a=2 / commit event e posting 1 reads a=20 / \
    end idle / var a 20 / var b 26 / held 0";

/// What follows a posting that was lost.
const NOT_SERVED: &str =
    " / commit transaction t tasks 2 reads a=1 a=2 / end idle / var a 20 / var b 0 / held 0";

#[test]
fn postings_are_answered_and_served(rt: HostRuntime) -> Result<(), Fail> {
    let alloc = rt.alloc();
    let table = [
        (
            DEVICE,
            "limit 1000 / at 17 0 e 5",
            "bound 192 / post 0.1 e 5 from 17 at 25 accepted 1 / \
                commit transaction t tasks 2 reads a=1 a=2 / commit event e posting 1 reads a=20 / \
                end idle / var a 20 / var b 26 / held 0",
        ),
        (
            DEVICE,
            "limit 1000 / at 17 0 e 5 / at 18 1 e 6",
            "bound 192 / post 0.1 e 5 from 17 at 25 accepted 1 / post 1.1 e 6 from 25 at 25 full / \
                commit transaction t tasks 2 reads a=1 a=2 / commit event e posting 1 reads a=20 / \
                end idle / var a 20 / var b 26 / held 0",
        ),
        (
            DEVICE,
            "limit 1000 / power 24 / at 17 0 e 5",
            "bound 192 / post 0.1 e 5 from 17 at 24 lost 1 / boot 1 at 24 / \
                commit transaction t tasks 2 reads a=1 a=2 / end idle / var a 20 / var b 0 / held 0",
        ),
        (
            DEVICE,
            "limit 17 / at 17 0 e 5",
            "bound 192 / post 0.1 e 5 from 17 at 25 accepted 1 / end limit / var a 1 / var b 0 / held 1",
        ),
        (
            DEVICE,
            "limit 16 / at 17 0 e 5",
            "bound 192 / end limit / var a 1 / var b 0 / held 0",
        ),
        (
            DEVICE,
            "limit 1000 / at 300 0 e 65535",
            "bound 192 / commit transaction t tasks 2 reads a=1 a=2 / \
                post 0.1 e 65535 from 300 at 308 accepted 1 / commit event e posting 1 reads a=20 / \
                end idle / var a 20 / var b 20 / held 0",
        ),
        (
            TWO_PLACES,
            "limit 1000 / at 0 0 e 9 / at 0 1 e 8 / at 0 0 e 7",
            "bound 220 / post 0.1 e 9 from 0 at 6 accepted 1 / post 1.1 e 8 from 6 at 12 accepted 2 / \
                post 0.2 e 7 from 12 at 12 full / commit event e posting 1 reads / \
                commit event e posting 2 reads / commit transaction t tasks 2 reads a=8 b=8 / \
                end idle / var a 8 / var b 9 / held 0",
        ),
        (
            TWO_WORDS,
            "limit 1000 / at 0 3 e 7",
            "bound 561 / post 3.1 e 7 from 0 at 10 accepted 1 / commit event e posting 1 reads / \
                commit task t reads / end idle / var n 7 / var m 14 / held 0",
        ),
    ];
    for (source, trace, lines) in table {
        let text = format!(in alloc; "coati split / {lines}")?;
        expect(&rt, alloc, source, trace, text.as_str())?;
    }
    Ok(())
}

#[test]
fn a_posting_is_served_whenever_it_comes(rt: HostRuntime) -> Result<(), Fail> {
    let alloc = rt.alloc();
    let first = "coati split\nbound 192\ncommit event e posting 1 reads a=1\n\
        commit transaction t tasks 2 reads a=1 a=2\nend idle\nvar a 20\nvar b 7\nheld 0\n";
    let last = "coati split\nbound 192\ncommit transaction t tasks 2 reads a=1 a=2\n\
        commit event e posting 1 reads a=20\nend idle\nvar a 20\nvar b 26\nheld 0\n";
    // Once the transaction has begun, the event comes behind it.
    for time in 0..80u32 {
        let trace = format!(in alloc; "limit 1000 / at {time} 0 e 5")?;
        let written = run(&rt, alloc, DEVICE, trace.as_str())?;
        let answered = time + 8;
        let line = format!(in alloc; "post 0.1 e 5 from {time} at {answered} accepted 1\n")?;
        let rest = written.replacen(alloc, line.as_str(), "", 1)?;
        let wanted = if time == 0 { first } else { last };
        assert_eq!(rt; rest.as_str(), wanted, "posted at {time}");
        assert!(rt; rest.len() < written.len(), "posted at {time}");
    }
    Ok(())
}

/// A run with a posting at 17, the power being cut behind so many steps, tells this behind the
/// bound.
fn expect_cut(
    rt: &impl Abort,
    alloc: Global,
    period: u32,
    told: &str,
    behind: &str,
) -> Result<(), Fail> {
    let trace = format!(in alloc; "limit 1000 / power {period} / at 17 0 e 5")?;
    let lines = format!(in alloc; "coati split / bound 192 / {told}{behind}")?;
    expect(rt, alloc, DEVICE, trace.as_str(), lines.as_str())
}

#[test]
fn a_cut_in_a_handler_loses_the_posting(rt: HostRuntime) -> Result<(), Fail> {
    let alloc = rt.alloc();
    let before = "boot 1 at 17 / post 0.1 e 5 from 17 at 25 accepted 1";
    expect_cut(&rt, alloc, 17, before, SERVED)?;
    for period in 18..25u32 {
        let lost = format!(in alloc;
            "post 0.1 e 5 from 17 at {period} lost 1 / boot 1 at {period}"
        )?;
        expect_cut(&rt, alloc, period, lost.as_str(), NOT_SERVED)?;
    }
    for period in 25..27u32 {
        let kept = format!(in alloc; "post 0.1 e 5 from 17 at 25 accepted 1 / boot 1 at {period}")?;
        expect_cut(&rt, alloc, period, kept.as_str(), SERVED)?;
    }
    Ok(())
}

#[test]
fn no_cut_behind_an_answer_changes_what_is_committed(rt: HostRuntime) -> Result<(), Fail> {
    let alloc = rt.alloc();
    let uncut = run(&rt, alloc, DEVICE, "limit 1000 / at 17 0 e 5")?;
    for period in 25..100u32 {
        let trace = format!(in alloc; "limit 1000 / power {period} / at 17 0 e 5")?;
        let written = run(&rt, alloc, DEVICE, trace.as_str())?;
        let boot = format!(in alloc; "boot 1 at {period}\n")?;
        let rest = written.replacen(alloc, boot.as_str(), "", 1)?;
        assert_eq!(rt; rest.as_str(), uncut.as_str(), "cut at {period}");
        // The transaction takes 15 steps more, and the event 11 at least.
        let cut = written.len() > uncut.len();
        assert!(rt; cut || period > 50, "cut at {period}");
        assert!(rt; !cut || period < 99, "cut at {period}");
    }
    Ok(())
}
