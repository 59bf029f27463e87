use super::ParseFault::{Syntax, TooDeep};
use super::*;
use std::alloc::{AllocError, Global};
use std::process::Abort;
use std::test::Fail;
use task_lex::lex;
use task_syntax::Program;

/// What is answered about a source of tokens.
fn answer(rt: &impl Abort, alloc: Global, source: &[u8]) -> Result<Program, ParseFault> {
    assert!(rt; source.len() < 100_000);
    let tokens = lex(alloc, source).expect(rt, "tokens");
    assert!(rt; tokens.len() < 100_000);
    parse(alloc, source, &tokens)
}

#[test]
fn operators_group(rt: HostRuntime) -> Result<(), Fail> {
    let table: [(&str, &str); 20] = [
        ("1 | 2 ^ 3 & 4 == 5", "1 |(2 ^(3 &(4 == 5)))"),
        ("1 == 2 < 3 << 4 + 5 * 6", "1 ==(2 <(3 <<(4 +(5 * 6))))"),
        ("1 * 2 + 3 >> 4 >= 5 != 6", "((((1 * 2)+ 3)>> 4)>= 5)!= 6"),
        ("1 != 2 & 3 ^ 4 | 5", "(((1 != 2)& 3)^ 4)| 5"),
        ("1 - 2 - 3", "(1 - 2)- 3"),
        ("1 + 2 - 3 + 4", "((1 + 2)- 3)+ 4"),
        ("1 / 2 * 3 % 4", "((1 / 2)* 3)% 4"),
        ("1 << 2 >> 3 << 4", "((1 << 2)>> 3)<< 4"),
        ("1 < 2 <= 3 > 4 >= 5", "(((1 < 2)<= 3)> 4)>= 5"),
        ("1 == 2 != 3 == 4", "((1 == 2)!= 3)== 4"),
        ("1 | 2 | 3", "(1 | 2)| 3"),
        ("1 ^ 2 ^ 3", "(1 ^ 2)^ 3"),
        ("1 & 2 & 3", "(1 & 2)& 3"),
        ("1 + 2 * 3 + 4", "(1 +(2 * 3))+ 4"),
        ("1 * 2 + 3 * 4", "(1 * 2)+(3 * 4)"),
        ("1 | 2 + 3 & 4", "1 |((2 + 3)& 4)"),
        ("-1 + ~2 * !3", "(-1)+((~2)*(!3))"),
        ("1 - -2", "1 -(-2)"),
        ("-(1 + 2) * 3", "(-(1 + 2))* 3"),
        ("((1))", "1"),
    ];
    for (text, grouped) in table {
        let read = tree(&rt, rt.alloc(), text)?;
        let wanted = tree(&rt, rt.alloc(), grouped)?;
        assert_eq!(rt; read, wanted, "of {text}");
    }
    Ok(())
}

/// A program with the expression, printed.
fn tree(rt: &impl Abort, alloc: Global, expression: &str) -> Result<String, Fail> {
    let source = format!(in alloc; "nv x; task t {{ x = {expression}; }}")?;
    let program = answer(rt, alloc, source.as_bytes())?;
    Ok(format!(in alloc; "{program:?}")?)
}

#[test]
fn the_end_is_told_where_a_source_is_cut(rt: HostRuntime) {
    let source: &[u8] = b"nv x; nv s[4] = {1, 2}; nv y = 7; buffer 3; \
        event e(v) { top { give; give v, x; } bottom(a, b) { s[b] = a; } } \
        event f(v) { top { give; } bottom() { } } \
        transaction q { \
            task t { let z = -(s[1] + 2 * x); if x == 1 { next t; } else { halt; } } \
            task u { repeat i < 4 { x = ~x; } if z { } } \
        }";
    assert!(rt; source.len() < 100_000);
    let tokens = lex(rt.alloc(), source).expect(&rt, "tokens");
    for (number, token) in tokens.iter().enumerate() {
        let number = u32::try_from(number).expect(&rt, "few tokens");
        let place = token.start as usize;
        assert!(rt; place <= source.len());
        match answer(&rt, rt.alloc(), &source[..place]) {
            Ok(_) => assert!(rt; false, "a program before token {number}"),
            Err(fault) => assert_eq!(rt; fault, ParseFault::Syntax(number)),
        }
    }
    assert!(rt; answer(&rt, rt.alloc(), source).is_ok());
}

#[test]
fn the_first_misplaced_token_is_told(rt: HostRuntime) {
    let table: [(&[u8], u32); 56] = [
        (b"task t { }", 0),
        (b"buffer 1; nv x;", 0),
        (b"nv task;", 1),
        (b"nv x[x];", 3),
        (b"nv x[1;", 4),
        (b"nv x[1][2];", 5),
        (b"nv x = y;", 3),
        (b"nv x = -1;", 3),
        (b"nv x = { };", 4),
        (b"nv x[2] = {1, };", 9),
        (b"nv x = 1, 2;", 4),
        (b"nv x; buffer x;", 4),
        (b"nv x; buffer 1; buffer 2;", 6),
        (b"nv x; buffer 1; nv y;", 6),
        (b"nv x; event e() {", 6),
        (b"nv x; event e(a, b) {", 7),
        (b"nv x; event e(a) { bottom", 9),
        (b"nv x; event e(a) { top { } top", 12),
        (b"nv x; event e(a) { top { } bottom(b, ) { }", 16),
        (b"nv x; event e(a) { top { } bottom(1) { }", 14),
        (b"nv x; event e(a) { top { } bottom() { } } buffer 1;", 18),
        (b"nv x; transaction q { }", 6),
        (b"nv x; transaction q { transaction", 6),
        (b"nv x; task t { } nv y;", 7),
        (b"nv x; task t { } event e(a)", 7),
        (b"nv x; task t { } }", 7),
        (b"nv x; task t { if x { } else if x { } }", 11),
        (b"nv x; task t { if x { } else { } else { } }", 13),
        (b"nv x; task t { else { } }", 6),
        (b"nv x; task t { if x halt; }", 8),
        (b"nv x; task t { if { } }", 7),
        (b"nv x; task t { ; }", 6),
        (b"nv x; task t { { } }", 6),
        (b"nv x; task t { x 1; }", 7),
        (b"nv x; task t { x == 1; }", 7),
        (b"nv x; task t { x = ; }", 8),
        (b"nv x; task t { x = 1 2; }", 9),
        (b"nv x; task t { x = - -1; }", 9),
        (b"nv x; task t { x = 1 ~ 2; }", 9),
        (b"nv x; task t { x = 1 + + 2; }", 10),
        (b"nv x; task t { x = (); }", 9),
        (b"nv x; task t { x = (1; }", 10),
        (b"nv x; task t { x = (1]; }", 10),
        (b"nv x; task t { x = 1[2]; }", 9),
        (b"nv x; task t { x = (x)[1]; }", 11),
        (b"nv x; task t { x[] = 1; }", 8),
        (b"nv x; task t { x[1][2] = 1; }", 10),
        (b"nv x; task t { let x[1] = 1; }", 8),
        (b"nv x; task t { repeat i < x { } }", 9),
        (b"nv x; task t { repeat i <= 3 { } }", 8),
        (b"nv x; task t { repeat i < 3 + 1 { } }", 10),
        (b"nv x; task t { next t, u; }", 8),
        (b"nv x; task t { halt 1; }", 7),
        (b"nv x; task t { give , 1; }", 7),
        (b"nv x; task t { give 1, ; }", 9),
        (b"nv x; task t { give 1 2; }", 8),
    ];
    for (source, number) in table {
        match answer(&rt, rt.alloc(), source) {
            Ok(_) => assert!(rt; false, "{source:?} is a program"),
            Err(fault) => assert_eq!(rt; fault, ParseFault::Syntax(number), "of {source:?}"),
        }
    }
}

/// A statement of a head, a middle within so many of the texts before and after it, and a tail;
/// and the fault that is told of it.
type Nesting = (
    &'static str,
    &'static str,
    usize,
    &'static str,
    &'static str,
    &'static str,
    Option<ParseFault>,
);

#[test]
fn the_65th_open_bracket_is_too_deep(rt: HostRuntime) -> Result<(), Fail> {
    // The brace of the task is the first.
    let table: [Nesting; 9] = [
        ("x = ", "(", 63, "1", ")", ";", None),
        ("x = ", "(", 64, "1", ")", ";", Some(TooDeep(71))),
        ("x = ", "x[", 63, "1", "]", ";", None),
        ("x = ", "x[", 64, "1", "]", ";", Some(TooDeep(135))),
        ("", "if 1 {", 63, "", "}", "", None),
        ("", "if 1 {", 64, "", "}", "", Some(TooDeep(197))),
        ("", "if 1 {", 63, "x[1] = 1;", "}", "", Some(TooDeep(196))),
        ("x[", "(", 62, "1", ")", "] = 1;", None),
        ("x[", "(", 63, "1", ")", "] = 1;", Some(TooDeep(70))),
    ];
    faults_are_told(&rt, rt.alloc(), &table)
}

#[test]
fn a_bracket_is_misplaced_where_none_can_stand(rt: HostRuntime) -> Result<(), Fail> {
    let table: [Nesting; 2] = [
        ("x = ", "(", 63, "1(", ")", ";", Some(Syntax(72))),
        ("x = ", "(", 63, ")(", ")", ";", Some(Syntax(71))),
    ];
    faults_are_told(&rt, rt.alloc(), &table)
}

#[test]
fn the_17th_operator_is_too_deep(rt: HostRuntime) -> Result<(), Fail> {
    // The operators of an expression are of one level or of several.
    let table: [Nesting; 5] = [
        ("x = ", "1+", 16, "1", "", ";", None),
        ("x = ", "1+", 17, "1", "", ";", Some(TooDeep(41))),
        ("x = ", "1+1*1|", 6, "1", "", ";", Some(TooDeep(41))),
        ("x = ", "-1-", 17, "1", "", ";", Some(TooDeep(58))),
        ("x = ", "1+", 16, "1 2", "", ";", Some(Syntax(41))),
    ];
    faults_are_told(&rt, rt.alloc(), &table)
}

#[test]
fn operators_elsewhere_are_not_counted(rt: HostRuntime) -> Result<(), Fail> {
    // They stand in brackets, or in other expressions of a list.
    let table: [Nesting; 7] = [
        ("x = ", "1+", 15, "(1+1+1)+1", "", ";", None),
        ("x = ", "1+", 15, "x[1+1+1]+1", "", ";", None),
        ("give ", "1+1+1+1+1,", 9, "1", "", ";", None),
        (
            "x = ",
            "1+1+1+1+1+1+1+1+1|1^1&1==1<1<<1+1*(",
            63,
            "1",
            ")",
            ";",
            None,
        ),
        (
            "x = ",
            "1+1+1+1+1+1+1+1+1|1^1&1==1<1<<1+1*x[",
            63,
            "1",
            "]",
            ";",
            None,
        ),
        (
            "",
            "if 1+1+1+1+1+1+1+1+1|1^1&1==1<1<<1+1*1 {",
            63,
            "",
            "}",
            "",
            None,
        ),
        ("x = ", "-1*(", 63, "1", ")", ";", None),
    ];
    faults_are_told(&rt, rt.alloc(), &table)
}

/// Fails where what is told of a statement is not the fault of its row.
fn faults_are_told(rt: &impl Abort, alloc: Global, table: &[Nesting]) -> Result<(), Fail> {
    for (head, before, count, middle, after, tail, fault) in table {
        let inner = nested(alloc, before, *count, middle, after)?;
        let source = format!(in alloc; "nv x; task t {{ {head}{inner}{tail} }}")?;
        assert_eq!(rt;
            answer(rt, alloc, source.as_bytes()).err(),
            *fault,
            "of {source}"
        );
    }
    Ok(())
}

/// The middle within so many of the texts before and after it.
fn nested(
    alloc: Global,
    before: &str,
    count: usize,
    middle: &str,
    after: &str,
) -> Result<String, AllocError> {
    let mut text = String::new(alloc);
    for _ in 0..count {
        text.push_str(before)?;
    }
    text.push_str(middle)?;
    for _ in 0..count {
        text.push_str(after)?;
    }
    Ok(text)
}
