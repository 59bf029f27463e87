//! Each refusal of the tests of traces is explained.
use super::is_untraced;
use std::alloc::Global;
use std::test::Fail;

const COUNTING: &str =
    "nv n = 0; task main { n = n + 1; if n < 3 { next main; } else { halt; } }\n%%\n";

/// One event of few steps and another of many.
const EVENTS: &str = "nv n; event e(v) { top { give v; } bottom(x) { n = x; } } \
    event slow(v) { top { repeat i < 100 { } give; } bottom() { } } task m { halt; }\n%%\n";

#[test]
fn faulty_traces_are_explained(rt: HostRuntime) -> Result<(), Fail> {
    let alloc = rt.alloc();
    let table = [
        (
            "",
            "line 2: no line behind this one says anything (trace without limit)",
        ),
        (
            "# limit 9\n\n",
            "line 2: no line behind this one says anything (trace without limit)",
        ),
        (
            "power 5\nlimit 9\n",
            "line 3: the trace begins with another line than its limit (trace without limit)",
        ),
        (
            "limits 9\n",
            "line 3: the trace begins with another line than its limit (trace without limit)",
        ),
        (
            "limit\r\n",
            "line 3: the trace begins with another line than its limit (trace without limit)",
        ),
        (
            " limit 9\n",
            "line 3: the trace begins with another line than its limit (trace without limit)",
        ),
        (
            "\nlimit\n",
            "line 4: this line of the trace has none of the forms (trace line 2 bad)",
        ),
        (
            "limit 9 \n",
            "line 3: this line of the trace has none of the forms (trace line 1 bad)",
        ),
        (
            "limit 09\n",
            "line 3: this line of the trace has none of the forms (trace line 1 bad)",
        ),
        (
            "limit 9\r\n",
            "line 3: this line of the trace has none of the forms (trace line 1 bad)",
        ),
        (
            "# a\nlimit 9\n\n# b\nwait\n",
            "line 7: this line of the trace has none of the forms (trace line 5 bad)",
        ),
        (
            "limit 4294967296\n",
            "line 3: this line of the trace has none of the forms (trace line 1 bad)",
        ),
        (
            "limit 9\nlimit 4294967296\n",
            "line 4: this line of the trace has none of the forms (trace line 2 bad)",
        ),
        (
            "limit 9\npower 0\n",
            "line 4: this line of the trace has none of the forms (trace line 2 bad)",
        ),
        (
            "limit 9\npower 4000001\n",
            "line 4: this line of the trace has none of the forms (trace line 2 bad)",
        ),
        (
            "limit 9\npower 5 times 0\n",
            "line 4: this line of the trace has none of the forms (trace line 2 bad)",
        ),
        (
            "limit 9\npower 5 times\n",
            "line 4: this line of the trace has none of the forms (trace line 2 bad)",
        ),
        (
            "limit 9\nat 5 8 e 1\n",
            "line 4: this line of the trace has none of the forms (trace line 2 bad)",
        ),
        (
            "limit 9\nat 5 0 e 65536\n",
            "line 4: this line of the trace has none of the forms (trace line 2 bad)",
        ),
        (
            "limit 9\nat 5 0  1\n",
            "line 4: this line of the trace has none of the forms (trace line 2 bad)",
        ),
        (
            "limit 9\nat 5 0 e 1\npower 0\n",
            "line 4: this line of the trace names no event of the source (trace line 2 unknown)",
        ),
        (
            "limit 9\nlimit 9\n",
            "line 4: this line of the trace is out of order (trace line 2 order)",
        ),
        (
            "limit 9\nlimit 500001\n",
            "line 4: this line of the trace is out of order (trace line 2 order)",
        ),
        (
            "limit 500001\n",
            "line 3: with this line the trace is above a limit (trace line 1 many)",
        ),
        (
            "limit 9\npower 5 times 4097\n",
            "line 4: with this line the trace is above a limit (trace line 2 many)",
        ),
        (
            "limit 9\npower 5 times 4294967295\n",
            "line 4: with this line the trace is above a limit (trace line 2 many)",
        ),
        (
            "limit 9\npower 5 times 4096\n# one more\npower 5\n",
            "line 6: with this line the trace is above a limit (trace line 4 many)",
        ),
    ];
    for (trace, heading) in table {
        let input = format!(in alloc; "{COUNTING}{trace}")?;
        assert!(rt; is_untraced(alloc, input.as_bytes(), heading)?, "{trace}");
    }
    Ok(())
}

#[test]
fn faulty_postings_are_explained(rt: HostRuntime) -> Result<(), Fail> {
    let alloc = rt.alloc();
    let table = [
        (
            "limit 9\nat 5 0 e 1\nat 4 0 e 1\n",
            "line 5: this line of the trace is out of order (trace line 3 order)",
        ),
        (
            "limit 9\nat 5 0 e 1\npower 5\n",
            "line 5: this line of the trace is out of order (trace line 3 order)",
        ),
        (
            "limit 9\nat 5 0 f 1\n",
            "line 4: this line of the trace names no event of the source (trace line 2 unknown)",
        ),
        (
            "limit 9\nat 5 8 e 1\n",
            "line 4: this line of the trace has none of the forms (trace line 2 bad)",
        ),
        (
            "limit 9\nat 5 8 f 1\n",
            "line 4: this line of the trace has none of the forms (trace line 2 bad)",
        ),
        (
            "limit 9\nat 5 0 e 1\npower 0\n",
            "line 5: this line of the trace has none of the forms (trace line 3 bad)",
        ),
        (
            "limit 9\nat 5 0 e 1\nat 4 0 f 1\n",
            "line 5: this line of the trace names no event of the source (trace line 3 unknown)",
        ),
        (
            "limit 9\nat 5 0 e 1\nlimit 500001\n",
            "line 5: this line of the trace is out of order (trace line 3 order)",
        ),
        (
            "",
            "line 2: no line behind this one says anything (trace without limit)",
        ),
    ];
    for (trace, heading) in table {
        let input = format!(in alloc; "{EVENTS}{trace}")?;
        assert!(rt; is_untraced(alloc, input.as_bytes(), heading)?, "{trace}");
    }
    Ok(())
}

/// Behind a limit, so many lines of one posting each.
fn many_postings(alloc: Global, limit: u32, count: usize, name: &str) -> Result<String, Fail> {
    let mut input = format!(in alloc; "{EVENTS}limit {limit}\n")?;
    for _ in 0..count {
        input.push_str("at 4294967295 7 ")?;
        input.push_str(name)?;
        input.push_str(" 65535\n")?;
    }
    Ok(input)
}

#[test]
fn postings_that_are_too_many_are_explained(rt: HostRuntime) -> Result<(), Fail> {
    let alloc = rt.alloc();
    let table = [
        (
            0,
            4097,
            "e",
            "line 4100: with this line the trace is above a limit (trace line 4098 many)",
        ),
        (
            0,
            4097,
            "f",
            "line 4: this line of the trace names no event of the source (trace line 2 unknown)",
        ),
        (
            500000,
            3736,
            "e",
            "line 3739: with this line the trace is above a limit (trace line 3737 many)",
        ),
    ];
    for (limit, count, name, heading) in table {
        let input = many_postings(alloc, limit, count, name)?;
        assert!(rt; is_untraced(alloc, input.as_bytes(), heading)?, "{heading}");
    }
    Ok(())
}
