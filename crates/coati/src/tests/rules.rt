use super::{AMPLE, call};
use coati_top::Status;
use std::alloc::Global;
use std::test::Fail;

/// Whether `check` refuses the source with this fault.
fn is_refused(alloc: Global, source: &str, fault: &str) -> Result<bool, Fail> {
    let answer = call(alloc, &["check"], source.as_bytes(), AMPLE, AMPLE)?;
    let text = format!(in alloc; "refused {fault}\n")?;
    Ok(answer.0 == Status::Refused && answer.1.as_slice() == text.as_bytes())
}

#[test]
fn names_are_declared_once_and_used_as_what_they_are(rt: HostRuntime) -> Result<(), Fail> {
    let table = [
        ("nv n; nv n; task m { halt; }", "rule 1 TwiceNamed at 9"),
        (
            "nv n; task n { let n = 1; halt; }",
            "rule 1 TwiceNamed at 11",
        ),
        (
            "nv n; task m { n = k; let m = 2; halt; }",
            "rule 1 TwiceNamed at 26",
        ),
        (
            "nv n; event e(v) { top { let v = 1; give v; } bottom(x) { } } task m { halt; }",
            "rule 1 TwiceNamed at 29",
        ),
        ("nv n; task m { n = k; halt; }", "rule 2 Unknown at 19"),
        ("nv n; task m { k = j; halt; }", "rule 2 Unknown at 15"),
        ("nv n; task m { let x = x; halt; }", "rule 2 Unknown at 23"),
        (
            "nv n; task m { repeat i < 2 { n = i; } n = i; halt; }",
            "rule 2 Unknown at 43",
        ),
        ("nv n; task m { n[0] = 1; next q; }", "rule 2 Unknown at 30"),
        ("nv n; task m { n[0] = 1; halt; }", "rule 3 WrongKind at 15"),
        (
            "nv a[2]; task m { a = 1; next a; }",
            "rule 3 WrongKind at 18",
        ),
        (
            "nv n; task m { let x = 1; n = x[0]; halt; }",
            "rule 3 WrongKind at 30",
        ),
        (
            "nv a[0]; task m { a[0] = m; halt; }",
            "rule 3 WrongKind at 25",
        ),
    ];
    for (source, fault) in table {
        assert!(rt; is_refused(rt.alloc(), source, fault)?, "{source}");
    }
    Ok(())
}

#[test]
fn counts_are_in_their_ranges(rt: HostRuntime) -> Result<(), Fail> {
    let table = [
        (
            "nv a[0]; buffer 33; task m { halt; }",
            "rule 4 BadCount at 3",
        ),
        ("nv n; nv a[257]; task m { halt; }", "rule 4 BadCount at 9"),
        ("nv n = {1}; task m { halt; }", "rule 4 BadCount at 3"),
        ("nv a[2] = 1; task m { halt; }", "rule 4 BadCount at 3"),
        (
            "nv a[2] = {1, 2, 3}; task m { halt; }",
            "rule 4 BadCount at 3",
        ),
        (
            "nv n; task m { repeat i < 0 { } repeat j < 50001 { } halt; }",
            "rule 4 BadCount at 22",
        ),
        (
            "nv n; task m { repeat i < 50001 { } halt; }",
            "rule 4 BadCount at 22",
        ),
        ("nv n; buffer 0; task m { halt; }", "rule 5 BadBuffer at 13"),
        (
            "nv a[256]; nv n; buffer 33; task m { halt; }",
            "rule 5 BadBuffer at 24",
        ),
        (
            "nv a[256]; nv b; task m { halt; }",
            "rule 6 TooManyWords at 14",
        ),
        (
            "nv a[200]; nv b[57]; nv c; task m { }",
            "rule 6 TooManyWords at 14",
        ),
    ];
    for (source, fault) in table {
        assert!(rt; is_refused(rt.alloc(), source, fault)?, "{source}");
    }
    Ok(())
}

#[test]
fn bodies_end_where_they_must(rt: HostRuntime) -> Result<(), Fail> {
    let table = [
        ("nv n; task m { halt; n = 1; }", "rule 8 NoEnding at 11"),
        (
            "nv n; task m { repeat i < 2 { halt; } }",
            "rule 8 NoEnding at 11",
        ),
        (
            "nv n; event e(v) { top { } bottom() { halt; } } task m { }",
            "rule 8 NoEnding at 12",
        ),
        ("nv n; task m { if n { halt; } }", "rule 8 NoEnding at 11"),
        (
            "nv n; task m { if n { halt; } halt; }",
            "rule 9 EarlyEnding at 22",
        ),
        (
            "nv n; task m { repeat i < 2 { halt; } halt; }",
            "rule 9 EarlyEnding at 30",
        ),
        (
            "nv n; event e(v) { top { give; } bottom() { halt; } } task m { halt; }",
            "rule 9 EarlyEnding at 44",
        ),
        (
            "nv n; event e(v) { top { next m; } bottom() { } } task m { halt; }",
            "rule 9 EarlyEnding at 30",
        ),
        ("nv n; task m { give; }", "rule 9 EarlyEnding at 15"),
        (
            "nv n; task m { next q; } transaction t { task p { next q; } task q { halt; } }",
            "rule 10 IntoTx at 20",
        ),
        (
            "nv n; transaction t { task p { next q; } task q { next p; } } transaction u { task r { next q; } }",
            "rule 10 IntoTx at 92",
        ),
    ];
    for (source, fault) in table {
        assert!(rt; is_refused(rt.alloc(), source, fault)?, "{source}");
    }
    Ok(())
}

#[test]
fn halves_and_loops_keep_their_shapes(rt: HostRuntime) -> Result<(), Fail> {
    let table = [
        (
            "nv n; event e(v) { top { give n; } bottom(x, y) { } } task m { halt; }",
            "rule 11 TopReadsNv at 30",
        ),
        (
            "nv n; event e(v) { top { n = v + n; give v; } bottom(x) { } } task m { halt; }",
            "rule 11 TopReadsNv at 25",
        ),
        (
            "nv n; event e(v) { top { give v, v; } bottom(x) { } } task m { halt; }",
            "rule 12 GiveShape at 25",
        ),
        (
            "nv n; event e(v) { top { give v, v, v, v, v; } bottom(a, b, c, d, f) { } } task m { halt; }",
            "rule 12 GiveShape at 66",
        ),
        (
            "nv n; event e(v) { top { give; } bottom(a, b, c, d, f) { repeat i < 2 { i = 0; } } } task m { halt; }",
            "rule 12 GiveShape at 25",
        ),
        (
            "nv n; task m { repeat i < 2 { i = 0; } halt; }",
            "rule 13 LoopAssigned at 30",
        ),
        (
            "nv n; task m { repeat i < 2 { repeat j < 2 { i = 0; j = 0; } } halt; }",
            "rule 13 LoopAssigned at 45",
        ),
    ];
    for (source, fault) in table {
        assert!(rt; is_refused(rt.alloc(), source, fault)?, "{source}");
    }
    Ok(())
}

/// A source with so many parts, each with its number between two texts.
fn numbered(alloc: Global, parts: u32, texts: (&str, &str, &str, &str)) -> Result<String, Fail> {
    let mut source = String::from_str(alloc, texts.0)?;
    for number in 0..parts {
        let part = format!(in alloc; "{}{number}{}", texts.1, texts.2)?;
        source.push_str(part.as_str())?;
    }
    source.push_str(texts.3)?;
    Ok(source)
}

#[test]
fn programs_and_bodies_have_limits(rt: HostRuntime) -> Result<(), Fail> {
    let alloc = rt.alloc();
    let table = [
        (
            65,
            ("nv n; ", "task t", " { halt; } ", ""),
            "rule 7 TooManyTasks at 1217",
        ),
        (
            17,
            (
                "nv n; ",
                "event e",
                "(v) { top { give; } bottom() { } } ",
                "task m { halt; }",
            ),
            "rule 7 TooManyTasks at 706",
        ),
        (
            33,
            ("nv n; task m { ", "let x", " = 0; ", "halt; }"),
            "rule 14 TooManyLocals at 11",
        ),
        (
            32,
            (
                "nv n; event e(v) { top { ",
                "let x",
                " = v; ",
                "give; } bottom() { } } task m { halt; }",
            ),
            "rule 14 TooManyLocals at 12",
        ),
        (
            8000,
            ("nv a[1]; task m { ", "a[", "] = 1; ", "halt; }"),
            "rule 16 TooLong 56001 at 14",
        ),
    ];
    for (parts, texts, fault) in table {
        let source = numbered(alloc, parts, texts)?;
        assert!(rt; is_refused(alloc, &source, fault)?, "{fault}");
    }
    Ok(())
}

/// A sum of so many parentheses in each other, between two texts.
fn nested(alloc: Global, depth: u32, front: &str, back: &str) -> Result<String, Fail> {
    let mut source = String::from_str(alloc, front)?;
    for _ in 0..depth {
        source.push_str("1 + (")?;
    }
    source.push_str("1")?;
    for _ in 0..depth {
        source.push_str(")")?;
    }
    source.push_str(back)?;
    Ok(source)
}

#[test]
fn a_body_needs_few_operands(rt: HostRuntime) -> Result<(), Fail> {
    let table = [
        (
            32,
            "nv n; task m { n = ",
            "; halt; }",
            "rule 15 TooDeepStack at 11",
        ),
        (
            31,
            "nv a[1]; task m { a[0] = ",
            "; halt; }",
            "rule 15 TooDeepStack at 14",
        ),
    ];
    for (depth, front, back, fault) in table {
        let source = nested(rt.alloc(), depth, front, back)?;
        assert!(rt; is_refused(rt.alloc(), &source, fault)?, "{source}");
    }
    Ok(())
}
