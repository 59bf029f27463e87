//! Each refusal of the tests of tokens is explained.
use super::is_refused;
use std::alloc::Global;
use std::test::Fail;

#[test]
fn bytes_that_start_nothing_are_explained(rt: HostRuntime) -> Result<(), Fail> {
    let table: [(&[u8], &str); 18] = [
        (
            b"65536",
            "line 1, column 1: `65536` is above 65535 (number 0)",
        ),
        (
            b"x = 065536;",
            "line 1, column 5: `065536` is above 65535 (number 4)",
        ),
        (
            b"99999999999999999999999",
            "line 1, column 1: `99999999999999999999999` is above 65535 (number 0)",
        ),
        (
            b"12a",
            "line 1, column 1: `12a` is a number that runs into a letter (number 0)",
        ),
        (
            b"a 12_",
            "line 1, column 3: `12_` is a number that runs into a letter (number 2)",
        ),
        (
            b"0x10",
            "line 1, column 1: `0x10` is a number that runs into a letter (number 0)",
        ),
        (
            b"\x80",
            "line 1, column 1: no token starts with the byte 128 (lexical 0)",
        ),
        (
            b"a\xffb",
            "line 1, column 2: no token starts with the byte 255 (lexical 1)",
        ),
        (
            b"nv\x00",
            "line 1, column 3: no token starts with the byte 0 (lexical 2)",
        ),
        (
            b"a.b",
            "line 1, column 2: no token starts with `.` (lexical 1)",
        ),
        (
            b"\"",
            "line 1, column 1: no token starts with `\"` (lexical 0)",
        ),
        (
            b"\n@",
            "line 2, column 1: no token starts with `@` (lexical 1)",
        ),
        (
            b"# ?\n?",
            "line 2, column 1: no token starts with `?` (lexical 4)",
        ),
        (
            b"\x0b",
            "line 1, column 1: no token starts with the byte 11 (lexical 0)",
        ),
        (
            b"\x0c",
            "line 1, column 1: no token starts with the byte 12 (lexical 0)",
        ),
        (
            b"\x7f",
            "line 1, column 1: no token starts with the byte 127 (lexical 0)",
        ),
        (
            b"70000 ?",
            "line 1, column 1: `70000` is above 65535 (number 0)",
        ),
        (
            b"1 ? 70000",
            "line 1, column 3: no token starts with `?` (lexical 2)",
        ),
    ];
    for (input, heading) in table {
        assert!(rt; is_refused(rt.alloc(), input, heading)?, "{input:?}");
    }
    Ok(())
}

#[test]
fn misplaced_tokens_are_explained(rt: HostRuntime) -> Result<(), Fail> {
    let table: [(&[u8], &str); 56] = [
        (
            b"task t { }",
            "line 1, column 1: no program begins with `task` (syntax 0)",
        ),
        (
            b"buffer 1; nv x;",
            "line 1, column 1: no program begins with `buffer` (syntax 0)",
        ),
        (
            b"nv task;",
            "line 1, column 4: no program goes on with `task` behind `nv` (syntax 1)",
        ),
        (
            b"nv x[x];",
            "line 1, column 6: no program goes on with `x` behind `[` (syntax 3)",
        ),
        (
            b"nv x[1;",
            "line 1, column 7: no program goes on with `;` behind `1` (syntax 4)",
        ),
        (
            b"nv x[1][2];",
            "line 1, column 8: no program goes on with `[` behind `]` (syntax 5)",
        ),
        (
            b"nv x = y;",
            "line 1, column 8: no program goes on with `y` behind `=` (syntax 3)",
        ),
        (
            b"nv x = -1;",
            "line 1, column 8: no program goes on with `-` behind `=` (syntax 3)",
        ),
        (
            b"nv x = { };",
            "line 1, column 10: no program goes on with `}` behind `{` (syntax 4)",
        ),
        (
            b"nv x[2] = {1, };",
            "line 1, column 15: no program goes on with `}` behind `,` (syntax 9)",
        ),
        (
            b"nv x = 1, 2;",
            "line 1, column 9: no program goes on with `,` behind `1` (syntax 4)",
        ),
        (
            b"nv x; buffer x;",
            "line 1, column 14: no program goes on with `x` behind `buffer` (syntax 4)",
        ),
        (
            b"nv x; buffer 1; buffer 2;",
            "line 1, column 17: no program goes on with `buffer` behind `;` (syntax 6)",
        ),
        (
            b"nv x; buffer 1; nv y;",
            "line 1, column 17: no program goes on with `nv` behind `;` (syntax 6)",
        ),
        (
            b"nv x; event e() {",
            "line 1, column 15: no program goes on with `)` behind `(` (syntax 6)",
        ),
        (
            b"nv x; event e(a, b) {",
            "line 1, column 16: no program goes on with `,` behind `a` (syntax 7)",
        ),
        (
            b"nv x; event e(a) { bottom",
            "line 1, column 20: no program goes on with `bottom` behind `{` (syntax 9)",
        ),
        (
            b"nv x; event e(a) { top { } top",
            "line 1, column 28: no program goes on with `top` behind `}` (syntax 12)",
        ),
        (
            b"nv x; event e(a) { top { } bottom(b, ) { }",
            "line 1, column 38: no program goes on with `)` behind `,` (syntax 16)",
        ),
        (
            b"nv x; event e(a) { top { } bottom(1) { }",
            "line 1, column 35: no program goes on with `1` behind `(` (syntax 14)",
        ),
        (
            b"nv x; event e(a) { top { } bottom() { } } buffer 1;",
            "line 1, column 43: no program goes on with `buffer` behind `}` (syntax 18)",
        ),
        (
            b"nv x; transaction q { }",
            "line 1, column 23: no program goes on with `}` behind `{` (syntax 6)",
        ),
        (
            b"nv x; transaction q { transaction",
            "line 1, column 23: no program goes on with `transaction` behind `{` (syntax 6)",
        ),
        (
            b"nv x; task t { } nv y;",
            "line 1, column 18: no program goes on with `nv` behind `}` (syntax 7)",
        ),
        (
            b"nv x; task t { } event e(a)",
            "line 1, column 18: no program goes on with `event` behind `}` (syntax 7)",
        ),
        (
            b"nv x; task t { } }",
            "line 1, column 18: no program goes on with `}` behind `}` (syntax 7)",
        ),
        (
            b"nv x; task t { if x { } else if x { } }",
            "line 1, column 30: no program goes on with `if` behind `else` (syntax 11)",
        ),
        (
            b"nv x; task t { if x { } else { } else { } }",
            "line 1, column 34: no program goes on with `else` behind `}` (syntax 13)",
        ),
        (
            b"nv x; task t { else { } }",
            "line 1, column 16: no program goes on with `else` behind `{` (syntax 6)",
        ),
        (
            b"nv x; task t { if x halt; }",
            "line 1, column 21: no program goes on with `halt` behind `x` (syntax 8)",
        ),
        (
            b"nv x; task t { if { } }",
            "line 1, column 19: no program goes on with `{` behind `if` (syntax 7)",
        ),
        (
            b"nv x; task t { ; }",
            "line 1, column 16: no program goes on with `;` behind `{` (syntax 6)",
        ),
        (
            b"nv x; task t { { } }",
            "line 1, column 16: no program goes on with `{` behind `{` (syntax 6)",
        ),
        (
            b"nv x; task t { x 1; }",
            "line 1, column 18: no program goes on with `1` behind `x` (syntax 7)",
        ),
        (
            b"nv x; task t { x == 1; }",
            "line 1, column 18: no program goes on with `==` behind `x` (syntax 7)",
        ),
        (
            b"nv x; task t { x = ; }",
            "line 1, column 20: no program goes on with `;` behind `=` (syntax 8)",
        ),
        (
            b"nv x; task t { x = 1 2; }",
            "line 1, column 22: no program goes on with `2` behind `1` (syntax 9)",
        ),
        (
            b"nv x; task t { x = - -1; }",
            "line 1, column 22: no program goes on with `-` behind `-` (syntax 9)",
        ),
        (
            b"nv x; task t { x = 1 ~ 2; }",
            "line 1, column 22: no program goes on with `~` behind `1` (syntax 9)",
        ),
        (
            b"nv x; task t { x = 1 + + 2; }",
            "line 1, column 24: no program goes on with `+` behind `+` (syntax 10)",
        ),
        (
            b"nv x; task t { x = (); }",
            "line 1, column 21: no program goes on with `)` behind `(` (syntax 9)",
        ),
        (
            b"nv x; task t { x = (1; }",
            "line 1, column 22: no program goes on with `;` behind `1` (syntax 10)",
        ),
        (
            b"nv x; task t { x = (1]; }",
            "line 1, column 22: no program goes on with `]` behind `1` (syntax 10)",
        ),
        (
            b"nv x; task t { x = 1[2]; }",
            "line 1, column 21: no program goes on with `[` behind `1` (syntax 9)",
        ),
        (
            b"nv x; task t { x = (x)[1]; }",
            "line 1, column 23: no program goes on with `[` behind `)` (syntax 11)",
        ),
        (
            b"nv x; task t { x[] = 1; }",
            "line 1, column 18: no program goes on with `]` behind `[` (syntax 8)",
        ),
        (
            b"nv x; task t { x[1][2] = 1; }",
            "line 1, column 20: no program goes on with `[` behind `]` (syntax 10)",
        ),
        (
            b"nv x; task t { let x[1] = 1; }",
            "line 1, column 21: no program goes on with `[` behind `x` (syntax 8)",
        ),
        (
            b"nv x; task t { repeat i < x { } }",
            "line 1, column 27: no program goes on with `x` behind `<` (syntax 9)",
        ),
        (
            b"nv x; task t { repeat i <= 3 { } }",
            "line 1, column 25: no program goes on with `<=` behind `i` (syntax 8)",
        ),
        (
            b"nv x; task t { repeat i < 3 + 1 { } }",
            "line 1, column 29: no program goes on with `+` behind `3` (syntax 10)",
        ),
        (
            b"nv x; task t { next t, u; }",
            "line 1, column 22: no program goes on with `,` behind `t` (syntax 8)",
        ),
        (
            b"nv x; task t { halt 1; }",
            "line 1, column 21: no program goes on with `1` behind `halt` (syntax 7)",
        ),
        (
            b"nv x; task t { give , 1; }",
            "line 1, column 21: no program goes on with `,` behind `give` (syntax 7)",
        ),
        (
            b"nv x; task t { give 1, ; }",
            "line 1, column 24: no program goes on with `;` behind `,` (syntax 9)",
        ),
        (
            b"nv x; task t { give 1 2; }",
            "line 1, column 23: no program goes on with `2` behind `1` (syntax 8)",
        ),
    ];
    for (input, heading) in table {
        assert!(rt; is_refused(rt.alloc(), input, heading)?, "{input:?}");
    }
    Ok(())
}

/// A statement of a head, a middle within so many of the texts before and after it, and a tail;
/// and what is told of it.
type Nesting = (
    &'static str,
    &'static str,
    usize,
    &'static str,
    &'static str,
    &'static str,
    &'static str,
);

#[test]
fn tokens_that_stand_too_deep_are_explained(rt: HostRuntime) -> Result<(), Fail> {
    let alloc = rt.alloc();
    let table: [Nesting; 11] = [
        (
            "x = ",
            "(",
            64,
            "1",
            ")",
            ";",
            "line 1, column 83: `(` is the 65th open bracket (deep 71)",
        ),
        (
            "x = ",
            "x[",
            64,
            "1",
            "]",
            ";",
            "line 1, column 147: `[` is the 65th open bracket (deep 135)",
        ),
        (
            "",
            "if 1 {",
            64,
            "",
            "}",
            "",
            "line 1, column 399: `{` is the 65th open bracket (deep 197)",
        ),
        (
            "",
            "if 1 {",
            63,
            "x[1] = 1;",
            "}",
            "",
            "line 1, column 395: `[` is the 65th open bracket (deep 196)",
        ),
        (
            "x[",
            "(",
            63,
            "1",
            ")",
            "] = 1;",
            "line 1, column 80: `(` is the 65th open bracket (deep 70)",
        ),
        (
            "x = ",
            "(",
            63,
            "1(",
            ")",
            ";",
            "line 1, column 84: no program goes on with `(` behind `1` (syntax 72)",
        ),
        (
            "x = ",
            "(",
            63,
            ")(",
            ")",
            ";",
            "line 1, column 83: no program goes on with `)` behind `(` (syntax 71)",
        ),
        (
            "x = ",
            "1+",
            17,
            "1",
            "",
            ";",
            "line 1, column 53: `+` is the 17th operator of its expression (deep 41)",
        ),
        (
            "x = ",
            "1+1*1|",
            6,
            "1",
            "",
            ";",
            "line 1, column 53: `*` is the 17th operator of its expression (deep 41)",
        ),
        (
            "x = ",
            "-1-",
            17,
            "1",
            "",
            ";",
            "line 1, column 70: `-` is the 17th operator of its expression (deep 58)",
        ),
        (
            "x = ",
            "1+",
            16,
            "1 2",
            "",
            ";",
            "line 1, column 54: no program goes on with `2` behind `1` (syntax 41)",
        ),
    ];
    for (head, before, count, middle, after, tail, heading) in table {
        let inner = nested(alloc, before, count, middle, after)?;
        let source = format!(in alloc; "nv x; task t {{ {head}{inner}{tail} }}")?;
        assert!(rt; is_refused(alloc, source.as_bytes(), heading)?, "{heading}");
    }
    Ok(())
}

/// The middle within so many of the texts before and after it.
fn nested(
    alloc: Global,
    before: &str,
    count: usize,
    middle: &str,
    after: &str,
) -> Result<String, Fail> {
    let mut text = String::new(alloc);
    for _ in 0..count {
        text.push_str(before)?;
    }
    text.push_str(middle)?;
    for _ in 0..count {
        text.push_str(after)?;
    }
    Ok(text)
}

#[test]
fn the_end_is_told_where_a_source_is_cut(rt: HostRuntime) -> Result<(), Fail> {
    let table: [(&[u8], &str); 5] = [
        (
            b"nv",
            "line 1, column 3: the source ends too early, behind `nv` (syntax 1)",
        ),
        (
            b"nv x; nv s[4] = {1, 2}; ",
            "line 1, column 25: the source ends too early, behind `;` (syntax 15)",
        ),
        (
            b"nv x; nv s[4] = {1, 2}; nv y = 7; buffer 3; event e(v) { top { give; give v, x; } bottom(a, b",
            "line 1, column 94: the source ends too early, behind `b` (syntax 44)",
        ),
        (
            b"nv x; nv s[4] = {1, 2}; nv y = 7; buffer 3; event e(v) { top { give; give v, x; } bottom(a, b) { s[b] = a; } } event f(v) { top { give; } bottom() { } } transaction q { task t { let z = -(s[1] + 2 * x); if x == 1 { next t; } else { halt; } } ",
            "line 1, column 243: the source ends too early, behind `}` (syntax 108)",
        ),
        (
            b"nv x;\ntask t {\n    x = 1;\n    halt;\n",
            "line 4, column 10: the source ends too early, behind `;` (syntax 12)",
        ),
    ];
    for (input, heading) in table {
        assert!(rt; is_refused(rt.alloc(), input, heading)?, "{input:?}");
    }
    Ok(())
}
