//! What each message asks, and what a person trips over.
use super::{AMPLE, call};
use coati_text::lines;
use std::alloc::Global;
use std::test::Fail;

/// Whether this line of the answer to the input, counted from 0, is this one.
fn has_line(alloc: Global, input: &[u8], number: usize, line: &str) -> Result<bool, Fail> {
    let answer = call(alloc, input, AMPLE, AMPLE)?;
    Ok(lines(&answer.1).nth(number) == Some(line.as_bytes()))
}

#[test]
fn each_message_says_what_is_asked(rt: HostRuntime) -> Result<(), Fail> {
    let table: [(&[u8], &str); 29] = [
        (
            b"nv n$;",
            "outside comments a source is names, numbers, signs and blanks, in ASCII (docs/LANGUAGE.md, Text)",
        ),
        (
            b"nv \xc3\xa9;",
            "outside comments a source is names, numbers, signs and blanks, in ASCII (docs/LANGUAGE.md, Text)",
        ),
        (
            b"\xef\xbb\xbfnv n;",
            "save the source without the mark: it is plain ASCII (docs/LANGUAGE.md, Text)",
        ),
        (
            b"nv n = 65536;",
            "a number is at most 65535 (docs/LANGUAGE.md, Text)",
        ),
        (
            b"nv n = 12a;",
            "no letter and no `_` follows a number directly, and no name begins with a digit (docs/LANGUAGE.md, Text)",
        ),
        (
            b"# nothing",
            "a source declares its variables, then its buffer, then its events, and then its tasks and transactions (docs/LANGUAGE.md, Text)",
        ),
        (
            b"task m { halt; }",
            "a source declares its variables, then its buffer, then its events, and then its tasks and transactions (docs/LANGUAGE.md, Text)",
        ),
        (
            b"nv n; n",
            "a source follows the grammar (docs/FORMATS.md, The grammar)",
        ),
        (
            b"nv n",
            "a source follows the grammar (docs/FORMATS.md, The grammar)",
        ),
        (
            b"nv n; task m { n = ((((((((((((((((((((((((((((((((((((((((((((((((((((((((((((((((1",
            "at most 64 brackets are open at once, those round blocks and lists too (docs/LANGUAGE.md, Limits)",
        ),
        (
            b"nv n; task m { n = 1+1+1+1+1+1+1+1+1+1+1+1+1+1+1+1+1+1; halt; }",
            "an expression has at most 16 binary operators, without those inside its brackets (docs/LANGUAGE.md, Limits)",
        ),
        (
            b"nv n; nv n; task m { halt; }",
            "variables, events, tasks and transactions have names of their own, and a local has one that nothing in scope has (docs/LANGUAGE.md, Rules, 1)",
        ),
        (
            b"nv n; task m { n = k; halt; }",
            "a used name is that of a variable, a task or a local in scope (docs/LANGUAGE.md, Rules, 2)",
        ),
        (
            b"nv n; task m { n[0] = 1; halt; }",
            "an index stands behind arrays alone, a name without one is a scalar or a local, and `next` names a task (docs/LANGUAGE.md, Rules, 3)",
        ),
        (
            b"nv a[2] = {1, 2, 3}; task m { halt; }",
            "an array has 1 to 256 words and no single number or longer list, a scalar has no list, and a loop has 1 to 50000 turns (docs/LANGUAGE.md, Rules, 4)",
        ),
        (
            b"nv n; buffer 33; task m { halt; }",
            "a buffer has room for 1 to 32 postings (docs/LANGUAGE.md, Rules, 5)",
        ),
        (
            b"nv a[256]; nv b; task m { halt; }",
            "all variables together have at most 256 words (docs/LANGUAGE.md, Rules, 6)",
        ),
        (
            b"nv n; task t0 { halt; } task t1 { halt; } task t2 { halt; } task t3 { halt; } task t4 { halt; } task t5 { halt; } task t6 { halt; } task t7 { halt; } task t8 { halt; } task t9 { halt; } task t10 { halt; } task t11 { halt; } task t12 { halt; } task t13 { halt; } task t14 { halt; } task t15 { halt; } task t16 { halt; } task t17 { halt; } task t18 { halt; } task t19 { halt; } task t20 { halt; } task t21 { halt; } task t22 { halt; } task t23 { halt; } task t24 { halt; } task t25 { halt; } task t26 { halt; } task t27 { halt; } task t28 { halt; } task t29 { halt; } task t30 { halt; } task t31 { halt; } task t32 { halt; } task t33 { halt; } task t34 { halt; } task t35 { halt; } task t36 { halt; } task t37 { halt; } task t38 { halt; } task t39 { halt; } task t40 { halt; } task t41 { halt; } task t42 { halt; } task t43 { halt; } task t44 { halt; } task t45 { halt; } task t46 { halt; } task t47 { halt; } task t48 { halt; } task t49 { halt; } task t50 { halt; } task t51 { halt; } task t52 { halt; } task t53 { halt; } task t54 { halt; } task t55 { halt; } task t56 { halt; } task t57 { halt; } task t58 { halt; } task t59 { halt; } task t60 { halt; } task t61 { halt; } task t62 { halt; } task t63 { halt; } task t64 { halt; } ",
            "a source has at most 64 tasks, 16 events and 16 transactions (docs/LANGUAGE.md, Rules, 7)",
        ),
        (
            b"nv n; task m { halt; n = 1; }",
            "a task and a top half end with an ending, or with an `if` of which both blocks do (docs/LANGUAGE.md, Rules, 8)",
        ),
        (
            b"nv n; task m { if n { halt; } halt; }",
            "an ending stands last in its body, or last in both blocks of an `if` that does: `next` or `halt` in a task, `give` in a top half (docs/LANGUAGE.md, Rules, 9)",
        ),
        (
            b"nv n; task m { if n { next m; } halt; }",
            "an ending stands last in its body, or last in both blocks of an `if` that does: `next` or `halt` in a task, `give` in a top half (docs/LANGUAGE.md, Rules, 9)",
        ),
        (
            b"nv n; task m { next q; } transaction t { task p { next q; } task q { halt; } }",
            "from outside a transaction `next` names its first task alone (docs/LANGUAGE.md, Rules, 10)",
        ),
        (
            b"nv n; event e(v) { top { give n; } bottom(x) { } } task m { halt; }",
            "a top half sees the posted word and its own locals, and no variable (docs/LANGUAGE.md, Rules, 11)",
        ),
        (
            b"nv n; event e(v) { top { give v, v; } bottom(x) { } } task m { halt; }",
            "a bottom half has at most four parameters, and each `give` of its top half as many words (docs/LANGUAGE.md, Rules, 12)",
        ),
        (
            b"nv n; event e(v) { top { give v, v, v, v, v; } bottom(a, b, c, d, f) { } } task m { halt; }",
            "a bottom half has at most four parameters, and each `give` of its top half as many words (docs/LANGUAGE.md, Rules, 12)",
        ),
        (
            b"nv n; task m { repeat i < 2 { i = 0; } halt; }",
            "the name of a loop is read and not assigned to (docs/LANGUAGE.md, Rules, 13)",
        ),
        (
            b"nv n; task m { let x0 = 0; let x1 = 0; let x2 = 0; let x3 = 0; let x4 = 0; let x5 = 0; let x6 = 0; let x7 = 0; let x8 = 0; let x9 = 0; let x10 = 0; let x11 = 0; let x12 = 0; let x13 = 0; let x14 = 0; let x15 = 0; let x16 = 0; let x17 = 0; let x18 = 0; let x19 = 0; let x20 = 0; let x21 = 0; let x22 = 0; let x23 = 0; let x24 = 0; let x25 = 0; let x26 = 0; let x27 = 0; let x28 = 0; let x29 = 0; let x30 = 0; let x31 = 0; let x32 = 0; halt; }",
            "a body has at most 32 locals: what it takes, each `let` and each loop (docs/LANGUAGE.md, Rules, 14)",
        ),
        (
            b"nv n; task m { n = 1 + (1 + (1 + (1 + (1 + (1 + (1 + (1 + (1 + (1 + (1 + (1 + (1 + (1 + (1 + (1 + (1 + (1 + (1 + (1 + (1 + (1 + (1 + (1 + (1 + (1 + (1 + (1 + (1 + (1 + (1 + (1 + (1)))))))))))))))))))))))))))))))); halt; }",
            "a body needs at most 32 operand words: `let` splits an expression that nests deep (docs/LANGUAGE.md, Rules, 15)",
        ),
        (
            b"nv n; task m { n = 1; n = 1; repeat i < 5554 { } halt; }",
            "a body costs at most 50000 machine steps and has at most 50000 words of code (docs/LANGUAGE.md, Rules, 16)",
        ),
    ];
    for (source, asked) in table {
        assert!(rt; has_line(rt.alloc(), source, 3, asked)?, "{asked}");
    }
    Ok(())
}

#[test]
fn each_message_about_a_trace_says_what_is_asked(rt: HostRuntime) -> Result<(), Fail> {
    let alloc = rt.alloc();
    let table = [
        (
            "limit 9\npower\n",
            "a line is `limit L`, `power P`, `power P times M` or `at T D EVENT A`, with one space between two fields and each number in its range (docs/FORMATS.md, The trace)",
        ),
        (
            "limit 9\nat 1 2 e 3\n",
            "an `at` line names an event of the source (docs/FORMATS.md, The trace)",
        ),
        (
            "limit 9\nlimit 9\n",
            "the limit comes first and once, then the power periods, then the postings in the order of their times (docs/FORMATS.md, The trace)",
        ),
        (
            "limit 500001\n",
            "a limit is at most 500000, a trace has at most 4096 periods and 4096 postings, and it takes at most 4000000 machine steps (docs/FORMATS.md, The trace)",
        ),
        (
            "power 9\n",
            "a trace begins with `limit L`; an empty line and one that begins with `#` say nothing (docs/FORMATS.md, The trace)",
        ),
        (
            "# nothing\n",
            "a trace begins with `limit L`; an empty line and one that begins with `#` say nothing (docs/FORMATS.md, The trace)",
        ),
    ];
    for (trace, asked) in table {
        let input = format!(in alloc; "nv n; task m {{ halt; }}\n%%\n{trace}")?;
        assert!(rt; has_line(alloc, input.as_bytes(), 2, asked)?, "{asked}");
    }
    Ok(())
}

#[test]
fn what_a_person_trips_over_is_told(rt: HostRuntime) -> Result<(), Fail> {
    let table: [(&[u8], usize, &str); 7] = [
        (
            b"nv n; task m { halt; }\n%%\r\nlimit 9\r\n",
            4,
            "a CR stands at the end of this line: save the input with LF alone behind its lines",
        ),
        (
            b"nv n; task m { halt; }\n%% \t\nlimit 9\n",
            4,
            "the line that ends a source is `%%` alone: take away the blanks behind it",
        ),
        (
            b"nv n; task m { halt; }\n%%\r\r\nlimit 9\n",
            4,
            "the line that ends a source is `%%` alone: take away the blanks behind it",
        ),
        (
            b"nv n; task m { halt; }\n%%\t",
            4,
            "the line that ends a source is `%%` alone: take away the blanks behind it",
        ),
        (
            b"nv n; task m { halt; }\n%%\nlimit 9\r\n",
            3,
            "a CR stands at the end of this line: save the input with LF alone behind its lines",
        ),
        (
            b"nv n; task m { halt; }\n%%\nlimit\r\n",
            3,
            "a CR stands at the end of this line: save the input with LF alone behind its lines",
        ),
        (
            b"nv n; task m { halt; }\n%%\n\r\nlimit 9\n",
            3,
            "a CR stands at the end of this line: save the input with LF alone behind its lines",
        ),
    ];
    for (input, number, hint) in table {
        assert!(rt; has_line(rt.alloc(), input, number, hint)?, "{input:?}");
    }
    Ok(())
}

#[test]
fn nothing_else_is_told(rt: HostRuntime) -> Result<(), Fail> {
    let table: [&[u8]; 3] = [
        b"nv n; task m { halt; }\n%% x\nlimit 9\n",
        b"nv n; task m { halt; }\n%%%\nlimit 9\n",
        b"nv n;\r\nn\r\n",
    ];
    for input in table {
        let answer = call(rt.alloc(), input, AMPLE, AMPLE)?;
        assert!(rt; lines(&answer.1).nth(4).is_none(), "{input:?}");
    }
    Ok(())
}
