use super::*;

const NO_ROUND: &[u8] = b"nv s[16];
nv w;
nv sum;
nv left = 1;
buffer 4;
event tick(v) { top { give v, v >> 2; } bottom(x, y) { s[w] = x + y; w = w + 1; } }
task start { left = left - 1; next add; }
transaction mean { task add { sum = 0; repeat i < 16 { sum = sum + s[i]; } next put; } task put { sum = sum >> 4; if left == 0 { halt; } else { next start; } } }
%%
limit 2000
";

#[test]
fn no_round_is_a_source_with_a_limit(rt: HostRuntime) {
    match generate(rt.alloc(), 0) {
        Ok(text) => assert!(rt; text.as_slice() == NO_ROUND),
        Err(_) => assert!(rt; false),
    }
}

#[test]
fn rounds_have_periods_and_then_postings(rt: HostRuntime) {
    let tail = b"%%\nlimit 6000\npower 913\npower 926\nat 60 1 tick 1\nat 120 2 tick 4\n";
    match generate(rt.alloc(), 2) {
        Ok(text) => assert!(rt; text.as_slice().ends_with(tail)),
        Err(_) => assert!(rt; false),
    }
}

#[test]
fn more_than_200_rounds_are_too_many(rt: HostRuntime) {
    assert!(rt; generate(rt.alloc(), 200).is_ok());
    assert!(rt; generate(rt.alloc(), 201) == Err(GenFault::TooBig));
}
