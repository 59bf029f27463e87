//! Each refusal of the tests of the rules is explained.
use super::is_refused;
use std::alloc::Global;
use std::test::Fail;

#[test]
fn names_are_declared_once_and_used_as_what_they_are(rt: HostRuntime) -> Result<(), Fail> {
    let table: [(&[u8], &str); 13] = [
        (
            b"nv n; nv n; task m { halt; }",
            "line 1, column 10: `n` is declared twice (rule 1 TwiceNamed)",
        ),
        (
            b"nv n; task n { let n = 1; halt; }",
            "line 1, column 12: `n` is declared twice (rule 1 TwiceNamed)",
        ),
        (
            b"nv n; task m { n = k; let m = 2; halt; }",
            "line 1, column 27: `m` is declared twice (rule 1 TwiceNamed)",
        ),
        (
            b"nv n; event e(v) { top { let v = 1; give v; } bottom(x) { } } task m { halt; }",
            "line 1, column 30: `v` is declared twice (rule 1 TwiceNamed)",
        ),
        (
            b"nv n; task m { n = k; halt; }",
            "line 1, column 20: `k` is not declared (rule 2 Unknown)",
        ),
        (
            b"nv n; task m { k = j; halt; }",
            "line 1, column 16: `k` is not declared (rule 2 Unknown)",
        ),
        (
            b"nv n; task m { let x = x; halt; }",
            "line 1, column 24: `x` is not declared (rule 2 Unknown)",
        ),
        (
            b"nv n; task m { repeat i < 2 { n = i; } n = i; halt; }",
            "line 1, column 44: `i` is not declared (rule 2 Unknown)",
        ),
        (
            b"nv n; task m { n[0] = 1; next q; }",
            "line 1, column 31: `q` is not declared (rule 2 Unknown)",
        ),
        (
            b"nv n; task m { n[0] = 1; halt; }",
            "line 1, column 16: `n` is used as what it is not (rule 3 WrongKind)",
        ),
        (
            b"nv a[2]; task m { a = 1; next a; }",
            "line 1, column 19: `a` is used as what it is not (rule 3 WrongKind)",
        ),
        (
            b"nv n; task m { let x = 1; n = x[0]; halt; }",
            "line 1, column 31: `x` is used as what it is not (rule 3 WrongKind)",
        ),
        (
            b"nv a[0]; task m { a[0] = m; halt; }",
            "line 1, column 26: `m` is used as what it is not (rule 3 WrongKind)",
        ),
    ];
    for (input, heading) in table {
        assert!(rt; is_refused(rt.alloc(), input, heading)?, "{input:?}");
    }
    Ok(())
}

#[test]
fn counts_are_in_their_ranges(rt: HostRuntime) -> Result<(), Fail> {
    let table: [(&[u8], &str); 11] = [
        (
            b"nv a[0]; buffer 33; task m { halt; }",
            "line 1, column 4: the count of `a` is out of its range (rule 4 BadCount)",
        ),
        (
            b"nv n; nv a[257]; task m { halt; }",
            "line 1, column 10: the count of `a` is out of its range (rule 4 BadCount)",
        ),
        (
            b"nv n = {1}; task m { halt; }",
            "line 1, column 4: the count of `n` is out of its range (rule 4 BadCount)",
        ),
        (
            b"nv a[2] = 1; task m { halt; }",
            "line 1, column 4: the count of `a` is out of its range (rule 4 BadCount)",
        ),
        (
            b"nv a[2] = {1, 2, 3}; task m { halt; }",
            "line 1, column 4: the count of `a` is out of its range (rule 4 BadCount)",
        ),
        (
            b"nv n; task m { repeat i < 0 { } repeat j < 50001 { } halt; }",
            "line 1, column 23: the count of `i` is out of its range (rule 4 BadCount)",
        ),
        (
            b"nv n; task m { repeat i < 50001 { } halt; }",
            "line 1, column 23: the count of `i` is out of its range (rule 4 BadCount)",
        ),
        (
            b"nv n; buffer 0; task m { halt; }",
            "line 1, column 14: no buffer has room for `0` postings (rule 5 BadBuffer)",
        ),
        (
            b"nv a[256]; nv n; buffer 33; task m { halt; }",
            "line 1, column 25: no buffer has room for `33` postings (rule 5 BadBuffer)",
        ),
        (
            b"nv a[256]; nv b; task m { halt; }",
            "line 1, column 15: with `b` the variables have more than 256 words (rule 6 TooManyWords)",
        ),
        (
            b"nv a[200]; nv b[57]; nv c; task m { }",
            "line 1, column 15: with `b` the variables have more than 256 words (rule 6 TooManyWords)",
        ),
    ];
    for (input, heading) in table {
        assert!(rt; is_refused(rt.alloc(), input, heading)?, "{input:?}");
    }
    Ok(())
}

#[test]
fn bodies_end_where_they_must(rt: HostRuntime) -> Result<(), Fail> {
    let table: [(&[u8], &str); 11] = [
        (
            b"nv n; task m { halt; n = 1; }",
            "line 1, column 12: the body of `m` does not end (rule 8 NoEnding)",
        ),
        (
            b"nv n; task m { repeat i < 2 { halt; } }",
            "line 1, column 12: the body of `m` does not end (rule 8 NoEnding)",
        ),
        (
            b"nv n; event e(v) { top { } bottom() { halt; } } task m { }",
            "line 1, column 13: the body of `e` does not end (rule 8 NoEnding)",
        ),
        (
            b"nv n; task m { if n { halt; } }",
            "line 1, column 12: the body of `m` does not end (rule 8 NoEnding)",
        ),
        (
            b"nv n; task m { if n { halt; } halt; }",
            "line 1, column 23: `halt` stands where it may not (rule 9 EarlyEnding)",
        ),
        (
            b"nv n; task m { repeat i < 2 { halt; } halt; }",
            "line 1, column 31: `halt` stands where it may not (rule 9 EarlyEnding)",
        ),
        (
            b"nv n; event e(v) { top { give; } bottom() { halt; } } task m { halt; }",
            "line 1, column 45: `halt` stands where it may not (rule 9 EarlyEnding)",
        ),
        (
            b"nv n; event e(v) { top { next m; } bottom() { } } task m { halt; }",
            "line 1, column 31: the next task `m` is named where no task may end (rule 9 EarlyEnding)",
        ),
        (
            b"nv n; task m { give; }",
            "line 1, column 16: `give` stands where it may not (rule 9 EarlyEnding)",
        ),
        (
            b"nv n; task m { next q; } transaction t { task p { next q; } task q { halt; } }",
            "line 1, column 21: `q` is inside a transaction and not its first task (rule 10 IntoTx)",
        ),
        (
            b"nv n; transaction t { task p { next q; } task q { next p; } } transaction u { task r { next q; } }",
            "line 1, column 93: `q` is inside a transaction and not its first task (rule 10 IntoTx)",
        ),
    ];
    for (input, heading) in table {
        assert!(rt; is_refused(rt.alloc(), input, heading)?, "{input:?}");
    }
    Ok(())
}

#[test]
fn halves_and_loops_keep_their_shapes(rt: HostRuntime) -> Result<(), Fail> {
    let table: [(&[u8], &str); 7] = [
        (
            b"nv n; event e(v) { top { give n; } bottom(x, y) { } } task m { halt; }",
            "line 1, column 31: the top half names the variable `n` (rule 11 TopReadsNv)",
        ),
        (
            b"nv n; event e(v) { top { n = v + n; give v; } bottom(x) { } } task m { halt; }",
            "line 1, column 26: the top half names the variable `n` (rule 11 TopReadsNv)",
        ),
        (
            b"nv n; event e(v) { top { give v, v; } bottom(x) { } } task m { halt; }",
            "line 1, column 26: `give` has another count of words than the bottom half has parameters (rule 12 GiveShape)",
        ),
        (
            b"nv n; event e(v) { top { give v, v, v, v, v; } bottom(a, b, c, d, f) { } } task m { halt; }",
            "line 1, column 67: `f` is the fifth parameter of its bottom half (rule 12 GiveShape)",
        ),
        (
            b"nv n; event e(v) { top { give; } bottom(a, b, c, d, f) { repeat i < 2 { i = 0; } } } task m { halt; }",
            "line 1, column 26: `give` has another count of words than the bottom half has parameters (rule 12 GiveShape)",
        ),
        (
            b"nv n; task m { repeat i < 2 { i = 0; } halt; }",
            "line 1, column 31: `i` is the name of a loop and is assigned to (rule 13 LoopAssigned)",
        ),
        (
            b"nv n; task m { repeat i < 2 { repeat j < 2 { i = 0; j = 0; } } halt; }",
            "line 1, column 46: `i` is the name of a loop and is assigned to (rule 13 LoopAssigned)",
        ),
    ];
    for (input, heading) in table {
        assert!(rt; is_refused(rt.alloc(), input, heading)?, "{input:?}");
    }
    Ok(())
}

#[test]
fn refused_sources_are_explained(rt: HostRuntime) -> Result<(), Fail> {
    let table: [(&[u8], &str); 11] = [
        (b"", "line 1, column 1: the source says nothing (syntax 0)"),
        (
            b"nv n;",
            "line 1, column 6: the source ends too early, behind `;` (syntax 3)",
        ),
        (
            b"nv $n; task m { halt; }",
            "line 1, column 4: no token starts with `$` (lexical 3)",
        ),
        (
            b"nv n; task m { n = 65536; halt; }",
            "line 1, column 20: `65536` is above 65535 (number 19)",
        ),
        (
            b"nv n; nv n; task m { halt; }\n%%\nlimit 9",
            "line 1, column 10: `n` is declared twice (rule 1 TwiceNamed)",
        ),
        (
            b"nv n; task m { n = k; halt; }",
            "line 1, column 20: `k` is not declared (rule 2 Unknown)",
        ),
        (
            b"nv a[256]; nv b; task m { halt; }",
            "line 1, column 15: with `b` the variables have more than 256 words (rule 6 TooManyWords)",
        ),
        (
            b"nv n; task m { halt; n = 1; }",
            "line 1, column 12: the body of `m` does not end (rule 8 NoEnding)",
        ),
        (
            b"nv n; task m { if n { halt; } halt; }",
            "line 1, column 23: `halt` stands where it may not (rule 9 EarlyEnding)",
        ),
        (
            b"nv n; task m { next q; } transaction t { task p { next q; } task q { halt; } }",
            "line 1, column 21: `q` is inside a transaction and not its first task (rule 10 IntoTx)",
        ),
        (
            b"nv n; task m { n = 1; n = 1; repeat i < 5554 { } halt; }",
            "line 1, column 12: a body of `m` is too long (rule 16 TooLong 50001)",
        ),
    ];
    for (input, heading) in table {
        assert!(rt; is_refused(rt.alloc(), input, heading)?, "{input:?}");
    }
    Ok(())
}

/// A source with so many parts, each with its number between two texts.
fn numbered(alloc: Global, parts: u32, texts: (&str, &str, &str, &str)) -> Result<String, Fail> {
    let mut source = String::from_str(alloc, texts.0)?;
    for number in 0..parts {
        let part = format!(in alloc; "{}{number}{}", texts.1, texts.2)?;
        source.push_str(part.as_str())?;
    }
    source.push_str(texts.3)?;
    Ok(source)
}

#[test]
fn programs_and_bodies_have_limits(rt: HostRuntime) -> Result<(), Fail> {
    let alloc = rt.alloc();
    let table = [
        (
            65,
            ("nv n; ", "task t", " { halt; } ", ""),
            "line 1, column 1218: `t64` is one too many (rule 7 TooManyTasks)",
        ),
        (
            17,
            (
                "nv n; ",
                "event e",
                "(v) { top { give; } bottom() { } } ",
                "task m { halt; }",
            ),
            "line 1, column 707: `e16` is one too many (rule 7 TooManyTasks)",
        ),
        (
            33,
            ("nv n; task m { ", "let x", " = 0; ", "halt; }"),
            "line 1, column 12: a body of `m` has more than 32 locals (rule 14 TooManyLocals)",
        ),
        (
            32,
            (
                "nv n; event e(v) { top { ",
                "let x",
                " = v; ",
                "give; } bottom() { } } task m { halt; }",
            ),
            "line 1, column 13: a body of `e` has more than 32 locals (rule 14 TooManyLocals)",
        ),
        (
            8000,
            ("nv a[1]; task m { ", "a[", "] = 1; ", "halt; }"),
            "line 1, column 15: a body of `m` is too long (rule 16 TooLong 56001)",
        ),
    ];
    for (parts, texts, heading) in table {
        let source = numbered(alloc, parts, texts)?;
        assert!(rt; is_refused(alloc, source.as_bytes(), heading)?, "{heading}");
    }
    Ok(())
}

/// A sum of so many parentheses in each other, between two texts.
fn nested(alloc: Global, depth: u32, front: &str, back: &str) -> Result<String, Fail> {
    let mut source = String::from_str(alloc, front)?;
    for _ in 0..depth {
        source.push_str("1 + (")?;
    }
    source.push_str("1")?;
    for _ in 0..depth {
        source.push_str(")")?;
    }
    source.push_str(back)?;
    Ok(source)
}

#[test]
fn a_body_needs_few_operands(rt: HostRuntime) -> Result<(), Fail> {
    let table = [
        (
            32,
            "nv n; task m { n = ",
            "; halt; }",
            "line 1, column 12: a body of `m` needs more than 32 operand words (rule 15 TooDeepStack)",
        ),
        (
            31,
            "nv a[1]; task m { a[0] = ",
            "; halt; }",
            "line 1, column 15: a body of `m` needs more than 32 operand words (rule 15 TooDeepStack)",
        ),
    ];
    for (depth, front, back, heading) in table {
        let source = nested(rt.alloc(), depth, front, back)?;
        assert!(rt;
            is_refused(rt.alloc(), source.as_bytes(), heading)?,
            "{heading}"
        );
    }
    Ok(())
}
