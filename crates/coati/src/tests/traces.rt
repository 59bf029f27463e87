use super::{AMPLE, COUNTING, DEVICE, accepted, call};
use coati_top::Status;
use serial_log::Script;
use std::alloc::Global;
use std::process::Abort;
use std::test::Fail;
use task_check::Checked;
use trace_text::TraceFault::{BadLine, NoLimit, Order, TooMany, Unknown};
use trace_text::{TraceFault, read_trace};

/// One event of few steps and another of many: a handler takes at most 937 machine steps.
const EVENTS: &str = "nv n; event e(v) { top { give v; } bottom(x) { n = x; } } \
    event slow(v) { top { repeat i < 100 { } give; } bottom() { } } task m { halt; }";

/// What is read of a trace of the program.
fn script(
    rt: &impl Abort,
    alloc: Global,
    checked: &Checked,
    trace: &[u8],
) -> Result<Script, TraceFault> {
    assert!(rt; trace.len() <= 262_144);
    read_trace(alloc, checked, trace)
}

#[test]
fn a_faulty_trace_is_told(rt: HostRuntime) -> Result<(), Fail> {
    let alloc = rt.alloc();
    let table = [
        ("", "without limit"),
        ("# limit 9\n\n", "without limit"),
        ("power 5\nlimit 9\n", "without limit"),
        ("limits 9\n", "without limit"),
        ("limit\r\n", "without limit"),
        (" limit 9\n", "without limit"),
        ("\nlimit\n", "line 2 bad"),
        ("limit 9 \n", "line 1 bad"),
        ("limit 09\n", "line 1 bad"),
        ("limit 9\r\n", "line 1 bad"),
        ("# a\nlimit 9\n\n# b\nwait\n", "line 5 bad"),
        ("limit 4294967296\n", "line 1 bad"),
        ("limit 9\nlimit 4294967296\n", "line 2 bad"),
        ("limit 9\npower 0\n", "line 2 bad"),
        ("limit 9\npower 4000001\n", "line 2 bad"),
        ("limit 9\npower 5 times 0\n", "line 2 bad"),
        ("limit 9\npower 5 times\n", "line 2 bad"),
        ("limit 9\nat 5 8 e 1\n", "line 2 bad"),
        ("limit 9\nat 5 0 e 65536\n", "line 2 bad"),
        ("limit 9\nat 5 0  1\n", "line 2 bad"),
        ("limit 9\nat 5 0 e 1\npower 0\n", "line 2 unknown"),
        ("limit 9\nlimit 9\n", "line 2 order"),
        ("limit 9\nlimit 500001\n", "line 2 order"),
        ("limit 500001\n", "line 1 many"),
        ("limit 9\npower 5 times 4097\n", "line 2 many"),
        ("limit 9\npower 5 times 4294967295\n", "line 2 many"),
        (
            "limit 9\npower 5 times 4096\n# one more\npower 5\n",
            "line 4 many",
        ),
    ];
    for (trace, fault) in table {
        let input = format!(in alloc; "{COUNTING}{trace}")?;
        let text = format!(in alloc; "trace {fault}\n")?;
        let answer = call(alloc, &["run", "split"], input.as_bytes(), AMPLE, AMPLE)?;
        assert_eq!(rt; answer.0, Status::BadTrace, "{trace}");
        assert_eq!(rt; answer.0.code(), 7);
        assert_eq!(rt; answer.1.as_slice(), text.as_bytes(), "{trace}");
    }
    Ok(())
}

#[test]
fn a_faulty_trace_of_postings_is_told(rt: HostRuntime) -> Result<(), Fail> {
    let alloc = rt.alloc();
    let many = many_postings(alloc, 9, 4097, "e")?;
    let table = [
        ("", Status::BadTrace, "trace without limit\n"),
        (
            "limit 9\nat 5 0 e 1\nat 4 0 e 1\n",
            Status::BadTrace,
            "trace line 3 order\n",
        ),
        (
            "limit 9\nat 5 0 f 1\n",
            Status::BadTrace,
            "trace line 2 unknown\n",
        ),
        (
            "limit 9\nat 5 8 e 1\n",
            Status::BadTrace,
            "trace line 2 bad\n",
        ),
        ("limit 500001\n", Status::BadTrace, "trace line 1 many\n"),
        (many.as_str(), Status::BadTrace, "trace line 4098 many\n"),
        (
            "limit 1000",
            Status::Ok,
            "coati split\nbound 192\ncommit transaction t tasks 2 reads a=1 a=2\nend idle\nvar a 20\nvar b 0\nheld 0\n",
        ),
    ];
    for (trace, status, text) in table {
        let input = format!(in alloc; "{DEVICE}\n%%\n{trace}")?;
        let answer = call(alloc, &["run", "split"], input.as_bytes(), AMPLE, AMPLE)?;
        assert_eq!(rt; answer.0, status, "{text}");
        assert_eq!(rt; answer.1.as_slice(), text.as_bytes(), "{text}");
    }
    Ok(())
}

#[test]
fn a_trace_is_run_up_to_its_limit(rt: HostRuntime) -> Result<(), Fail> {
    let alloc = rt.alloc();
    let table = [
        ("limit 1000", Status::Ok, "coati split\n"),
        (
            "# a long run\n\nlimit 500000\n# the end",
            Status::Ok,
            "coati split\n",
        ),
        ("limit 1000\npower 5\n", Status::Ok, "coati split\n"),
        (
            "limit 1000\npower 4000000 times 4096",
            Status::Ok,
            "coati split\n",
        ),
    ];
    for (trace, status, text) in table {
        let input = format!(in alloc; "{COUNTING}{trace}")?;
        let answer = call(alloc, &["run", "split"], input.as_bytes(), AMPLE, AMPLE)?;
        assert_eq!(rt; answer.0, status, "{trace}");
        assert!(rt; answer.1.starts_with(text.as_bytes()), "{trace}");
    }
    Ok(())
}

#[test]
fn postings_are_read(rt: HostRuntime) -> Result<(), Fail> {
    let checked = accepted(&rt, rt.alloc(), EVENTS.as_bytes())?;
    let table = [
        ("limit 9\nat 5 0 e 1\nat 4 0 e 1\n", Order(3)),
        ("limit 9\nat 5 0 e 1\npower 5\n", Order(3)),
        ("limit 9\nat 5 0 f 1\n", Unknown(2)),
        ("limit 9\nat 5 8 e 1\n", BadLine(2)),
        ("limit 9\nat 5 8 f 1\n", BadLine(2)),
        ("limit 9\nat 5 0 e 1\npower 0\n", BadLine(3)),
        ("limit 9\nat 5 0 e 1\nat 4 0 f 1\n", Unknown(3)),
        ("limit 9\nat 5 0 e 1\nlimit 500001\n", Order(3)),
        ("", NoLimit),
    ];
    for (trace, fault) in table {
        let read = script(&rt, rt.alloc(), &checked, trace.as_bytes());
        assert_eq!(rt; read.err(), Some(fault), "{trace}");
    }
    let trace = b"# a day\n\nlimit 9\npower 7 times 2\npower 3\nat 5 0 e 1\nat 5 7 slow 65535";
    let read = script(&rt, rt.alloc(), &checked, trace)?;
    assert_eq!(rt; read.limit, 9);
    assert_eq!(rt; read.power.as_slice(), [7, 7, 3].as_slice());
    let postings = read.postings.as_slice();
    assert_eq!(rt; postings.len(), 2);
    let (first, second) = (postings[0], postings[1]);
    assert_eq!(rt;
        (first.time, first.device, first.event, first.argument),
        (5, 0, 0, 1)
    );
    assert_eq!(rt;
        (second.time, second.device, second.event, second.argument),
        (5, 7, 1, 65535)
    );
    Ok(())
}

/// Behind a limit, so many lines of one posting each.
fn many_postings(alloc: Global, limit: u32, count: usize, name: &str) -> Result<String, Fail> {
    let mut trace = format!(in alloc; "limit {limit}\n")?;
    for _ in 0..count {
        trace.push_str("at 4294967295 7 ")?;
        trace.push_str(name)?;
        trace.push_str(" 65535\n")?;
    }
    Ok(trace)
}

#[test]
fn postings_are_counted(rt: HostRuntime) -> Result<(), Fail> {
    let alloc = rt.alloc();
    let checked = accepted(&rt, alloc, EVENTS.as_bytes())?;
    let table = [
        (9, 3736, "e", None),
        (500_000, 3735, "e", None),
        (500_000, 3736, "e", Some(TooMany(3737))),
        (0, 4096, "slow", None),
        (0, 4097, "e", Some(TooMany(4098))),
        (0, 4097, "f", Some(Unknown(2))),
    ];
    for (limit, count, name, fault) in table {
        let trace = many_postings(alloc, limit, count, name)?;
        let read = script(&rt, alloc, &checked, trace.as_bytes());
        assert_eq!(rt;
            read.err(),
            fault,
            "{count} postings of {name} within {limit}"
        );
    }
    Ok(())
}
