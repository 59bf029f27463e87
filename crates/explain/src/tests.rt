mod messages;
mod rules;
mod tokens;
mod traces;

use coati_explain::explain;
use coati_io::{MemSink, MemSource};
use coati_text::lines;
use coati_top::Status;
use std::alloc::Global;
use std::test::Fail;

/// An end of a call: the most bytes that it moves at once, and the calls that fail.
#[derive(Clone, Copy)]
struct Edge<'a> {
    piece: usize,
    fails: &'a [u32],
}

const AMPLE: Edge<'static> = Edge {
    piece: 4096,
    fails: &[],
};

/// The status of a call on this input, and what it wrote.
fn call(
    alloc: Global,
    input: &[u8],
    source: Edge<'_>,
    sink: Edge<'_>,
) -> Result<(Status, Vec<u8>), Fail> {
    let bytes = Vec::from_slice(alloc, input)?;
    let fails = Vec::from_slice(alloc, source.fails)?;
    let mut source = MemSource::new(bytes, source.piece.max(1), fails);
    let fails = Vec::from_slice(alloc, sink.fails)?;
    let mut sink = MemSink::new(alloc, sink.piece.max(1), fails);
    sink.reserve(262_144)?;
    let status = explain(alloc, &mut source, &mut sink);
    Ok((status, Vec::from_slice(alloc, sink.taken())?))
}

/// Whether the input ends with this status, and this is the first line about it.
fn begins_with(alloc: Global, input: &[u8], status: Status, heading: &str) -> Result<bool, Fail> {
    let answer = call(alloc, input, AMPLE, AMPLE)?;
    Ok(answer.0 == status && lines(&answer.1).next() == Some(heading.as_bytes()))
}

/// Whether the input's source is refused, with this first line.
fn is_refused(alloc: Global, input: &[u8], heading: &str) -> Result<bool, Fail> {
    begins_with(alloc, input, Status::Refused, heading)
}

/// Whether the input's trace is refused, with this first line.
fn is_untraced(alloc: Global, input: &[u8], heading: &str) -> Result<bool, Fail> {
    begins_with(alloc, input, Status::BadTrace, heading)
}

#[test]
fn a_place_is_shown(rt: HostRuntime) -> Result<(), Fail> {
    let table: [(&[u8], &str); 7] = [
        (
            b"nv n;\ntask m {\nn = n + k;\n}\n",
            "line 3, column 9: `k` is not declared (rule 2 Unknown)\n    n = n + k;\n            ^\n\
             a used name is that of a variable, a task or a local in scope (docs/LANGUAGE.md, Rules, 2)\n",
        ),
        (
            b"nv n;\ntask m {\n\tn\t= k; # \xc3\xa9\r\n}\n",
            "line 3, column 6: `k` is not declared (rule 2 Unknown)\n     n = k; # ???\n         ^\n\
             a used name is that of a variable, a task or a local in scope (docs/LANGUAGE.md, Rules, 2)\n",
        ),
        (
            b"",
            "line 1, column 1: the source says nothing (syntax 0)\n    \n    ^\n\
             a source declares its variables, then its buffer, then its events, and then its tasks and transactions \
             (docs/LANGUAGE.md, Text)\n",
        ),
        (
            b"nv n;\n\n",
            "line 2, column 1: the source ends too early, behind `;` (syntax 3)\n    \n    ^\n\
             a source follows the grammar (docs/FORMATS.md, The grammar)\n",
        ),
        (
            b"nv n;\nx",
            "line 2, column 1: no program goes on with `x` behind `;` (syntax 3)\n    x\n    ^\n\
             a source follows the grammar (docs/FORMATS.md, The grammar)\n",
        ),
        (
            b"nv n; task m\n%%\nlimit 9\n",
            "line 1, column 13: the source ends too early, behind `m` (syntax 5)\n    nv n; task m\n                ^\n\
             a source follows the grammar (docs/FORMATS.md, The grammar)\n",
        ),
        (
            b"nv n; task m { halt; }\n%%\n\nlimit 9\nlimit\t9\n",
            "line 5: this line of the trace has none of the forms (trace line 3 bad)\n    limit 9\n\
             a line is `limit L`, `power P`, `power P times M` or `at T D EVENT A`, with one space between two fields and \
             each number in its range (docs/FORMATS.md, The trace)\n",
        ),
    ];
    for (input, text) in table {
        let answer = call(rt.alloc(), input, AMPLE, AMPLE)?;
        assert_eq!(rt; answer.1.as_slice(), text.as_bytes(), "{input:?}");
    }
    Ok(())
}

const SERVED: &str = "nv n = 0; task main { n = n + 1; halt; }\n";

#[test]
fn an_accepted_input_is_told_so(rt: HostRuntime) -> Result<(), Fail> {
    let alloc = rt.alloc();
    let table = [
        (
            "nv n; task m { n = n * 2; halt; }",
            "the source is accepted: a power period of 396 machine steps suffices\n",
        ),
        (
            "nv n; task m { n = n * 2; halt; }\n%%\nlimit 9\npower 7 times 3\n",
            "the source is accepted: a power period of 396 machine steps suffices\n\
             the trace is accepted: 9 steps at most, 3 power periods, 0 postings\n",
        ),
        (
            "nv n; event e(v) { top { give; } bottom() { } } task m { halt; }\n%%\nlimit 0\nat 1 2 e 3",
            "the source is accepted: a power period of 341 machine steps suffices\n\
             the trace is accepted: 0 steps at most, 0 power periods, 1 postings\n",
        ),
    ];
    for (input, text) in table {
        let answer = call(alloc, input.as_bytes(), AMPLE, AMPLE)?;
        assert_eq!(rt; answer.0, Status::Ok, "{input}");
        assert_eq!(rt; answer.1.as_slice(), text.as_bytes(), "{input}");
    }
    Ok(())
}

#[test]
fn failures_are_told(rt: HostRuntime) -> Result<(), Fail> {
    let table = [
        (20, [1].as_slice(), 10, [].as_slice(), Status::ReadFault, ""),
        (20, [2].as_slice(), 10, [].as_slice(), Status::ReadFault, ""),
        (
            20,
            [].as_slice(),
            10,
            [2].as_slice(),
            Status::WriteFault,
            "the source",
        ),
    ];
    for (piece, fails, taken, stops, status, text) in table {
        let source = Edge { piece, fails };
        let sink = Edge {
            piece: taken,
            fails: stops,
        };
        let answer = call(rt.alloc(), SERVED.as_bytes(), source, sink)?;
        assert_eq!(rt; answer.0, status);
        assert_eq!(rt; answer.1.as_slice(), text.as_bytes());
    }
    Ok(())
}

#[test]
fn the_greatest_input_is_read(rt: HostRuntime) -> Result<(), Fail> {
    let alloc = rt.alloc();
    for (len, status) in [(262_144, Status::Ok), (262_145, Status::TooLarge)] {
        assert!(rt; SERVED.len() <= len);
        let mut input = vec![in alloc; b' '; len - SERVED.len()]?;
        input.extend_from_slice(SERVED.as_bytes())?;
        let answer = call(alloc, &input, AMPLE, AMPLE)?;
        assert_eq!(rt; answer.0, status, "{len} bytes");
        let begins = if len == 262_144 {
            "the source is accepted: "
        } else {
            "the input is longer than 262144 bytes"
        };
        assert!(rt; answer.1.starts_with(begins.as_bytes()), "{len} bytes");
    }
    Ok(())
}
