use super::{AMPLE, Edge, USAGE, accepted, call};
use coati_gen::generate;
use coati_top::{Status, second_part, source_part};
use std::alloc::Global;
use std::process::Abort;
use std::test::Fail;
use trace_text::read_trace;

const NO_ROUND: &str = "nv s[16];
nv w;
nv sum;
nv left = 1;
buffer 4;
event tick(v) { top { give v, v >> 2; } bottom(x, y) { s[w] = x + y; w = w + 1; } }
task start { left = left - 1; next add; }
transaction mean { task add { sum = 0; repeat i < 16 { sum = sum + s[i]; } next put; } task put { sum = sum >> 4; if left == 0 { halt; } else { next start; } } }
%%
limit 2000
";

/// What a run of the input without a round prints.
const NO_ROUND_RUN: &str = "coati split
bound 3080
commit task start reads left=1
commit transaction mean tasks 2 reads sum=0 s[0]=0 sum=0 s[1]=0 sum=0 s[2]=0 sum=0 s[3]=0 \
sum=0 s[4]=0 sum=0 s[5]=0 sum=0 s[6]=0 sum=0 s[7]=0 sum=0 s[8]=0 sum=0 s[9]=0 sum=0 s[10]=0 \
sum=0 s[11]=0 sum=0 s[12]=0 sum=0 s[13]=0 sum=0 s[14]=0 sum=0 s[15]=0 sum=0 left=0
end idle
var s 0 0 0 0 0 0 0 0 0 0 0 0 0 0 0 0
var w 0
var sum 0
var left 0
held 0
";

#[test]
fn the_input_of_no_round_is_given_and_run(rt: HostRuntime) -> Result<(), Fail> {
    let alloc = rt.alloc();
    let given = call(alloc, &["gen", "0"], b"", AMPLE, AMPLE)?;
    assert_eq!(rt; given.0, Status::Ok);
    assert_eq!(rt; given.1.as_slice(), NO_ROUND.as_bytes());
    let run = call(alloc, &["run", "split"], &given.1, AMPLE, AMPLE)?;
    assert_eq!(rt; run.0, Status::Ok);
    assert_eq!(rt; run.1.as_slice(), NO_ROUND_RUN.as_bytes());
    Ok(())
}

/// How many lines of a text begin with these bytes.
fn lines_with(text: &[u8], front: &[u8]) -> usize {
    text.split(|byte| *byte == b'\n')
        .filter(|line| line.starts_with(front))
        .count()
}

/// A run of the input in a mode answers each of its 40 postings, and leaves nothing to do.
fn runs_to_its_end(rt: &impl Abort, alloc: Global, mode: &str, input: &[u8]) -> Result<(), Fail> {
    let run = call(alloc, &["run", mode], input, AMPLE, AMPLE)?;
    assert_eq!(rt; run.0, Status::Ok, "{mode}");
    for (front, count) in [("post ", 40), ("end idle", 1), ("var left 0", 1)] {
        let found = lines_with(&run.1, front.as_bytes());
        assert_eq!(rt; found, count, "{front} in {mode}");
    }
    Ok(())
}

#[test]
fn a_realistic_input_is_run(rt: HostRuntime) -> Result<(), Fail> {
    let alloc = rt.alloc();
    let given = call(alloc, &["gen", "40"], b"", AMPLE, AMPLE)?;
    assert_eq!(rt; given.0, Status::Ok);
    runs_to_its_end(&rt, alloc, "split", &given.1)?;
    runs_to_its_end(&rt, alloc, "buffi", &given.1)
}

/// The input of so many rounds is a source with a trace of as many postings.
fn is_source_with_trace(rt: &impl Abort, alloc: Global, rounds: u16) -> Result<(), Fail> {
    let input = generate(alloc, rounds)?;
    let checked = accepted(rt, alloc, source_part(&input))?;
    let trace = second_part(&input);
    assert!(rt; trace.len() <= 262_144);
    let script = read_trace(alloc, &checked, trace)?;
    assert_eq!(rt; script.postings.as_slice().len(), usize::from(rounds));
    Ok(())
}

#[test]
fn each_generated_input_is_a_source_with_a_trace(rt: HostRuntime) -> Result<(), Fail> {
    for rounds in 0..201 {
        is_source_with_trace(&rt, rt.alloc(), rounds)?;
    }
    Ok(())
}

#[test]
fn other_numbers_of_rounds_are_no_command(rt: HostRuntime) -> Result<(), Fail> {
    for word in ["201", "07", "", "-1", "1 ", "x", "65536", "4294967296"] {
        let answer = call(rt.alloc(), &["gen", word], b"", AMPLE, AMPLE)?;
        assert_eq!(rt; answer.0, Status::Usage, "{word}");
        assert_eq!(rt; answer.1.as_slice(), USAGE.as_bytes(), "{word}");
    }
    Ok(())
}

#[test]
fn nothing_is_read_for_an_input_that_is_given(rt: HostRuntime) -> Result<(), Fail> {
    let failing = Edge {
        piece: 1,
        fails: &[1],
    };
    let given = call(rt.alloc(), &["gen", "200"], b"ignored", failing, AMPLE)?;
    assert_eq!(rt; given.0, Status::Ok);
    assert!(rt; given.1.ends_with(b"\nat 12000 2 tick 40000\n"));
    Ok(())
}
