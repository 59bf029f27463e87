use super::accepted;
use coati_word::{Mode, Reading};
use serial_log::{AbortOf, Answer, End, Line, Posted, Printed, Record, Unit};
use std::alloc::Global;
use std::process::Abort;
use std::test::Fail;
use task_check::Checked;
use trace_out::PrintFault::BadLine;
use trace_out::{PrintFault, read_print};

/// A unit of each kind, a scalar and an array.
const UNITS: &str = "nv n; nv a[2]; event e(v) { top { give v; } bottom(x) { n = x; } } \
    task m { halt; } transaction t { task p { next q; } task q { halt; } }";

const ONE: &str = "nv n = 0; task main { n = n + 1; if n < 3 { next main; } else { halt; } }";

/// What the program of `ONE` prints where it runs to its end.
const COUNTED: [&str; 8] = [
    "coati split\n",
    "bound 451\n",
    "commit task main reads n=0 n=1\n",
    "commit task main reads n=1 n=2\n",
    "commit task main reads n=2 n=3\n",
    "end idle\n",
    "var n 3\n",
    "held 0\n",
];

/// What is read of a printed text of the program.
fn said(
    rt: &impl Abort,
    alloc: Global,
    checked: &Checked,
    text: &str,
) -> Result<Printed, PrintFault> {
    assert!(rt; text.len() <= 262_144);
    read_print(alloc, checked, text.as_bytes())
}

/// A posting of the event of `UNITS` by device 7.
fn post(index: u32, from: u32, at: u32, answer: Answer) -> Line {
    Line::Post {
        at,
        posted: Posted {
            device: 7,
            index,
            event: 0,
            argument: 65_535,
            from,
            answer,
        },
    }
}

#[test]
fn what_a_text_says_is_read(rt: HostRuntime) -> Result<(), Fail> {
    let alloc = rt.alloc();
    let checked = accepted(&rt, alloc, UNITS.as_bytes())?;
    let text = "coati buffi\nbound 4294967295\n\
        post 7.1 e 65535 from 0 at 9 accepted 1\n\
        post 7.2 e 65535 from 9 at 9 full\n\
        post 7.3 e 65535 from 9 at 12 lost 1\n\
        boot 1 at 12\n\
        abort transaction t tasks 2 posting 1 word a[1]\n\
        commit event e posting 1 reads\n\
        commit transaction t tasks 500000 reads n=0 a[0]=65535\n\
        commit task m reads a[1]=7\n\
        end limit\nvar n 1\nvar a 0 65535\nheld 2";
    let printed = said(&rt, alloc, &checked, text)?;
    assert_eq!(rt; printed.mode, Mode::Buffi);
    assert_eq!(rt; printed.bound, 4_294_967_295);
    let committed = |unit, tasks, posting, reads_from, reads_len| {
        Line::Commit(Record {
            unit,
            tasks,
            posting,
            reads_from,
            reads_len,
        })
    };
    let lines = [
        post(1, 0, 9, Answer::Accepted(1)),
        post(2, 9, 9, Answer::Full),
        post(3, 9, 12, Answer::Lost(1)),
        Line::Boot { number: 1, at: 12 },
        Line::Abort(AbortOf {
            unit: Unit::Transaction(0),
            tasks: 2,
            posting: 1,
            word: 2,
        }),
        committed(Unit::Event(0), 0, 1, 0, 0),
        committed(Unit::Transaction(0), 500_000, 0, 0, 2),
        committed(Unit::Task(0), 1, 0, 2, 1),
    ];
    assert_eq!(rt; printed.lines.as_slice(), lines.as_slice());
    let reading = |word, value| Reading { word, value };
    let readings = [reading(0, 0), reading(1, 65_535), reading(2, 7)];
    assert_eq!(rt; printed.readings.as_slice(), readings.as_slice());
    assert_eq!(rt; printed.end, End::Limit);
    assert_eq!(rt; printed.values.as_slice(), [1, 0, 65_535].as_slice());
    assert_eq!(rt; printed.held, 2);
    Ok(())
}

#[test]
fn a_line_that_is_left_out_is_missed(rt: HostRuntime) -> Result<(), Fail> {
    let alloc = rt.alloc();
    let checked = accepted(&rt, alloc, ONE.as_bytes())?;
    let table = [
        None,
        Some(1),
        Some(2),
        None,
        None,
        None,
        Some(6),
        Some(7),
        Some(8),
    ];
    for (left_out, bad) in table.into_iter().enumerate() {
        let mut text = String::new(alloc);
        for (number, line) in COUNTED.into_iter().enumerate() {
            if number + 1 != left_out {
                text.push_str(line)?;
            }
        }
        let fault = said(&rt, alloc, &checked, text.as_str()).err();
        assert_eq!(rt; fault, bad.map(BadLine), "line {left_out} left out");
    }
    Ok(())
}

#[test]
fn the_first_bad_line_is_told(rt: HostRuntime) -> Result<(), Fail> {
    let alloc = rt.alloc();
    let checked = accepted(&rt, alloc, UNITS.as_bytes())?;
    let table = [
        ("", 1),
        ("coati split", 2),
        ("coati both\n", 1),
        ("coati split \n", 1),
        ("coati split\nbound 01\n", 2),
        ("coati split\nbound 4294967296\n", 2),
        ("coati split\nbound 1\n\n", 3),
        ("coati split\nbound 1\nboot 1 at 2\r\n", 3),
        ("coati split\nbound 1\nboot 1 at  2\n", 3),
        ("coati split\nbound 1\npost 8.1 e 0 from 0 at 9 full\n", 3),
        ("coati split\nbound 1\npost 0.1 f 0 from 0 at 9 full\n", 3),
        (
            "coati split\nbound 1\npost 0.1 e 65536 from 0 at 9 full\n",
            3,
        ),
        ("coati split\nbound 1\npost 0.1 e 0 from 0 at 9 full 1\n", 3),
        ("coati split\nbound 1\ncommit task t reads\n", 3),
        ("coati split\nbound 1\ncommit task p reads\nhalt\n", 4),
        (
            "coati split\nbound 1\ncommit transaction t tasks 0 reads\n",
            3,
        ),
        (
            "coati split\nbound 1\ncommit transaction t tasks 500001 reads\n",
            3,
        ),
        ("coati split\nbound 1\ncommit task m reads a=1\n", 3),
        ("coati split\nbound 1\ncommit task m reads a[2]=1\n", 3),
        ("coati split\nbound 1\ncommit task m reads n[0]=1\n", 3),
        ("coati split\nbound 1\ncommit task m reads n=65536\n", 3),
        (
            "coati split\nbound 1\nabort event e tasks 1 posting 1 word n\n",
            3,
        ),
        ("coati split\nbound 1\nend idle\nend idle\n", 4),
        ("coati split\nbound 1\nend idle\nvar a 0 0\n", 4),
        ("coati split\nbound 1\nend idle\nvar n 0 0\n", 4),
        ("coati split\nbound 1\nend idle\nvar n 0\nvar a 0\n", 5),
        (
            "coati split\nbound 1\nend idle\nvar n 0\nvar a 0 0\nheld\n",
            6,
        ),
        (
            "coati split\nbound 1\nend idle\nvar n 0\nvar a 0 0\nheld 0\n\n",
            7,
        ),
    ];
    for (text, number) in table {
        let fault = said(&rt, alloc, &checked, text).err();
        assert_eq!(rt; fault, Some(BadLine(number)), "{text}");
    }
    Ok(())
}
