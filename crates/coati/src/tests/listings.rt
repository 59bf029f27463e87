use super::{AMPLE, call};
use coati_top::Status;
use std::test::Fail;

/// Sources with their listings, in which ` / ` stands for the end of a line.
const TABLE: [(&str, &str); 5] = [
    (
        "nv n = 0; task main { n = n + 1; if n < 3 { next main; } else { halt; } }",
        "task main / 0 loadv 0 / 2 push 1 / 4 add / 5 storev 0 / 7 loadv 0 / 9 push 3 / 11 lt / 12 jumpz 18 / 14 next 0 / 16 jump 19 / 18 halt / ",
    ),
    (
        "nv n; task m { if n { n = 1; } halt; }",
        "task m / 0 loadv 0 / 2 jumpz 8 / 4 push 1 / 6 storev 0 / 8 halt / ",
    ),
    (
        "nv n; task m { repeat i < 3 { n = i; } halt; }",
        "task m / 0 push 0 / 2 setl 0 / 4 getl 0 / 6 push 3 / 8 lt / 9 jumpz 24 / 11 getl 0 / 13 storev 0 / 15 getl 0 / 17 push 1 / 19 add / 20 setl 0 / 22 jump 4 / 24 halt / ",
    ),
    (
        "nv s; nv a[3]; task m { a[s] = a[2] - s; halt; }",
        "task m / 0 loadv 0 / 2 push 2 / 4 loadx 1 3 / 7 loadv 0 / 9 sub / 10 storex 1 3 / 13 halt / ",
    ),
    (
        "nv n; event e(v) { top { let x = v >> 1; give x, -v; } bottom(a, b) { n = a | b; } } task m { halt; }",
        "task m / 0 halt / top e / 0 getl 0 / 2 push 1 / 4 shr / 5 setl 1 / 7 getl 1 / 9 getl 0 / 11 neg / 12 give 2 / bottom e / 0 getl 0 / 2 getl 1 / 4 or / 5 storev 0 / 7 done / ",
    ),
];

#[test]
fn code_is_listed(rt: HostRuntime) -> Result<(), Fail> {
    for (source, lines) in TABLE {
        let answer = call(rt.alloc(), &["dump"], source.as_bytes(), AMPLE, AMPLE)?;
        let listing = lines.replace(rt.alloc(), " / ", "\n")?;
        assert_eq!(rt; answer.0, Status::Ok, "{source}");
        assert_eq!(rt; answer.1.as_slice(), listing.as_bytes(), "{source}");
    }
    Ok(())
}
