use super::{AMPLE, Edge, USAGE, call};
use coati_top::Status;
use std::test::Fail;

const NO_ROUND: &str = "load split 0
commits 2
aborts 0
boots 0
accepted 0
full 0
lost 0
end idle
held 0
";

#[test]
fn the_load_of_no_round_reads_nothing_and_is_told(rt: HostRuntime) -> Result<(), Fail> {
    let failing = Edge {
        piece: 1,
        fails: &[1],
    };
    let answer = call(
        rt.alloc(),
        &["load", "split", "0"],
        b"ignored",
        failing,
        AMPLE,
    )?;
    assert_eq!(rt; answer.0, Status::Ok);
    assert_eq!(rt; answer.1.as_slice(), NO_ROUND.as_bytes());
    Ok(())
}

/// The number behind this word at the front of a line, or 0 where there is none.
fn told(text: &str, word: &str) -> u32 {
    for line in text.lines() {
        if let Some(number) = line.strip_prefix(word) {
            return number.parse().unwrap_or(0);
        }
    }
    0
}

#[test]
fn each_posting_of_a_load_is_answered(rt: HostRuntime) -> Result<(), Fail> {
    for mode in ["split", "buffi"] {
        let answer = call(rt.alloc(), &["load", mode, "200"], b"", AMPLE, AMPLE)?;
        assert_eq!(rt; answer.0, Status::Ok, "{mode}");
        let text = String::from_utf8(answer.1)?;
        let mut answered = 0u64;
        for word in ["accepted ", "full ", "lost "] {
            answered = answered.saturating_add(u64::from(told(&text, word)));
        }
        assert_eq!(rt; answered, 200, "{mode}");
        assert!(rt; text.ends_with("\nend idle\nheld 0\n"), "{mode}");
    }
    Ok(())
}

#[test]
fn other_loads_are_no_command(rt: HostRuntime) -> Result<(), Fail> {
    let table: [&[&str]; 5] = [
        &["load", "split"],
        &["load", "split", "201"],
        &["load", "other", "3"],
        &["load", "split", "03"],
        &["load", "split", "3", "4"],
    ];
    for words in table {
        let answer = call(rt.alloc(), words, b"", AMPLE, AMPLE)?;
        assert_eq!(rt; answer.0, Status::Usage);
        assert_eq!(rt; answer.1.as_slice(), USAGE.as_bytes());
    }
    Ok(())
}
