mod conflicts;
mod generated;
mod listings;
mod loads;
mod pace;
mod postings;
mod printed;
mod rules;
mod runs;
mod traces;
mod verdicts;

use coati_io::{MemSink, MemSource};
use coati_top::{Status, coati_still, spelled_programs_are_well_formed};
use std::alloc::Global;
use std::process::Abort;
use std::test::Fail;
use task_check::{Checked, check};
use task_lex::lex;
use task_parse::parse;

const COUNTING: &str =
    "nv n = 0; task main { n = n + 1; if n < 3 { next main; } else { halt; } }\n%%\n";

const USAGE: &str =
    "usage: coati check | dump | run MODE | live MODE | replay MODE | gen N | load MODE N\n";

/// An end of a call: the most bytes that it moves at once, and the calls that fail.
#[derive(Clone, Copy)]
struct Edge<'a> {
    piece: usize,
    fails: &'a [u32],
}

const AMPLE: Edge<'static> = Edge {
    piece: 4096,
    fails: &[],
};

/// The status of a call on this input, and what it wrote.
fn call(
    alloc: Global,
    words: &[&str],
    input: &[u8],
    source: Edge<'_>,
    sink: Edge<'_>,
) -> Result<(Status, Vec<u8>), Fail> {
    let mut given = Vec::new(alloc);
    for word in words {
        given.push(String::from_str(alloc, word)?)?;
    }
    let bytes = Vec::from_slice(alloc, input)?;
    let fails = Vec::from_slice(alloc, source.fails)?;
    let mut source = MemSource::new(bytes, source.piece.max(1), fails);
    let fails = Vec::from_slice(alloc, sink.fails)?;
    let mut sink = MemSink::new(alloc, sink.piece.max(1), fails);
    sink.reserve(131_072)?;
    let done = coati_still(alloc, &given, &mut source, &mut sink);
    Ok((done.status, Vec::from_slice(alloc, sink.taken())?))
}

/// The program of a source.
fn accepted(rt: &impl Abort, alloc: Global, source: &[u8]) -> Result<Checked, Fail> {
    spelled_programs_are_well_formed();
    assert!(rt; source.len() < 1000);
    let tokens = lex(alloc, source)?;
    assert!(rt; tokens.len() < 1000);
    Ok(check(alloc, parse(alloc, source, &tokens)?)?)
}

#[test]
fn other_words_are_answered_with_the_usage(rt: HostRuntime) -> Result<(), Fail> {
    let table: [&[&str]; 8] = [
        &[],
        &["run"],
        &["check", "x"],
        &["run", "both"],
        &["run", "split", "now"],
        &["walk", "split"],
        &["replay"],
        &["replay", "both"],
    ];
    for words in table {
        let answer = call(rt.alloc(), words, b"", AMPLE, AMPLE)?;
        assert_eq!(rt; answer.0, Status::Usage);
        assert_eq!(rt; answer.0.code(), 2);
        assert_eq!(rt; answer.1.as_slice(), USAGE.as_bytes());
    }
    Ok(())
}

#[test]
fn other_inputs_are_refused(rt: HostRuntime) -> Result<(), Fail> {
    let table = [
        ("", "refused syntax 0\n"),
        ("nv n;", "refused syntax 3\n"),
        ("nv $n; task m { halt; }", "refused lexical 3\n"),
        ("nv n; task m { n = 65536; halt; }", "refused number 19\n"),
        (
            "nv n; nv n; task m { halt; }\n%%\nlimit 9",
            "refused rule 1 TwiceNamed at 9\n",
        ),
    ];
    for (input, text) in table {
        let answer = call(
            rt.alloc(),
            &["run", "split"],
            input.as_bytes(),
            AMPLE,
            AMPLE,
        )?;
        assert_eq!(rt; answer.0, Status::Refused, "{input}");
        assert_eq!(rt; answer.1.as_slice(), text.as_bytes(), "{input}");
    }
    Ok(())
}

#[test]
fn failures_are_told(rt: HostRuntime) -> Result<(), Fail> {
    let alloc = rt.alloc();
    let input = format!(in alloc; "{COUNTING}limit 1000\n")?;
    let table = [
        (30, [1].as_slice(), 10, [].as_slice(), Status::ReadFault, ""),
        (30, [2].as_slice(), 10, [].as_slice(), Status::ReadFault, ""),
        (
            30,
            [].as_slice(),
            10,
            [2].as_slice(),
            Status::WriteFault,
            "coati spli",
        ),
    ];
    for (piece, fails, taken, stops, status, text) in table {
        let source = Edge { piece, fails };
        let sink = Edge {
            piece: taken,
            fails: stops,
        };
        let answer = call(alloc, &["run", "split"], input.as_bytes(), source, sink)?;
        assert_eq!(rt; answer.0, status);
        assert_eq!(rt; answer.1.as_slice(), text.as_bytes());
    }
    Ok(())
}

#[test]
fn the_greatest_input_is_read(rt: HostRuntime) -> Result<(), Fail> {
    let alloc = rt.alloc();
    let run = format!(in alloc; "{COUNTING}limit 1000\n")?;
    for (len, status) in [(262_144, Status::Ok), (262_145, Status::TooLarge)] {
        assert!(rt; run.len() <= len);
        let mut input = vec![in alloc; b' '; len - run.len()]?;
        input.extend_from_slice(run.as_bytes())?;
        let answer = call(alloc, &["run", "split"], &input, AMPLE, AMPLE)?;
        assert_eq!(rt; answer.0, status, "{len} bytes");
        let begins = if len == 262_144 {
            "coati split\n"
        } else {
            "input too large\n"
        };
        assert!(rt; answer.1.starts_with(begins.as_bytes()), "{len} bytes");
    }
    Ok(())
}

#[test]
fn sources_are_checked(rt: HostRuntime) -> Result<(), Fail> {
    let table = [
        ("", "refused syntax 0\n"),
        (
            "nv n; task m { n = k; halt; }",
            "refused rule 2 Unknown at 19\n",
        ),
        (
            "nv a[256]; nv b; task m { halt; }",
            "refused rule 6 TooManyWords at 14\n",
        ),
        (
            "nv n; task m { halt; n = 1; }",
            "refused rule 8 NoEnding at 11\n",
        ),
        (
            "nv n; task m { if n { halt; } halt; }",
            "refused rule 9 EarlyEnding at 22\n",
        ),
        (
            "nv n; task m { next q; } transaction t { task p { next q; } task q { halt; } }",
            "refused rule 10 IntoTx at 20\n",
        ),
        (
            "nv n; task m { n = 1; n = 1; repeat i < 5554 { } halt; }",
            "refused rule 16 TooLong 50001 at 11\n",
        ),
    ];
    for (source, text) in table {
        let answer = call(rt.alloc(), &["check"], source.as_bytes(), AMPLE, AMPLE)?;
        assert_eq!(rt; answer.0, Status::Refused, "{source}");
        assert_eq!(rt; answer.1.as_slice(), text.as_bytes(), "{source}");
    }
    Ok(())
}

const DEVICE: &str = "nv a = 1; nv b = 0; buffer 1; \
    event e(v) { top { give v + 1; } bottom(x) { b = a + x; } } \
    transaction t { task p { a = a + 1; next q; } task q { a = a * 10; halt; } }";

const DEVICE_TEXT: &str = "accepted\nwords 2\nbuffer 1\ntask p cost 7\ntask q cost 7\n\
    event e cost 11\nbounds 12 36 192 48\n";

#[test]
fn accepted_sources_are_measured(rt: HostRuntime) -> Result<(), Fail> {
    let table = [
        (
            "nv a[256]; task m { halt; }",
            "accepted\nwords 256\nbuffer 8\ntask m cost 1\nbounds 2 2068 22770 2070\n",
        ),
        (
            "nv n; task m { n = 1; n = 1; n = 1; n = 1; repeat i < 5553 { } halt; }",
            "accepted\nwords 1\nbuffer 8\ntask m cost 50000\nbounds 50001 28 550319 50029\n",
        ),
        (DEVICE, DEVICE_TEXT),
    ];
    for (source, text) in table {
        let answer = call(rt.alloc(), &["check"], source.as_bytes(), AMPLE, AMPLE)?;
        assert_eq!(rt; answer.0, Status::Ok, "{source}");
        assert_eq!(rt; answer.1.as_slice(), text.as_bytes(), "{source}");
    }
    Ok(())
}
