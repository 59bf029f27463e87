//! The lines of a generated input.

ghost use Rattle.std.specs.Prelude.{◌≡◌, ◌≤◌, ◌++◌, IfOk, OnOk, decimal};
ghost use Rattle.coati_gen.specs.Generated.{generated, limit_line, lines_up_to, posting_line, power_line, source_text, trace_text};

use coati_text::put_decimal;
use coati_word::OutOfMemory;
use std::alloc::Global;

const DECLARED: &[u8] = b"nv s[16];\nnv w;\nnv sum;\nnv left = ";

const PROGRAM: &[u8] =
    b";\nbuffer 4;\nevent tick(v) { top { give v, v >> 2; } bottom(x, y) { s[w] = x + y; w = w + 1; } }\ntask start { left = left - 1; next add; }\ntransaction mean { task add { sum = 0; repeat i < 16 { sum = sum + s[i]; } next put; } task put { sum = sum >> 4; if left == 0 { halt; } else { next start; } } }\n%%\n";

/// The whole input of so many rounds.
pub(crate) fn input(alloc: Global, rounds: u32) -> Result<Vec<u8>, OutOfMemory>
    requires { rounds ≤ 200 }
    ensures { IfOk result (λ text. text.items ≡ generated rounds) }
{
    let mut out = Vec::new(alloc);
    put_source(&mut out, rounds)?;
    put_trace(&mut out, rounds)?;
    Ok(out)
}

fn put_source(out: &mut Vec<u8>, rounds: u32) -> Result<(), OutOfMemory>
    requires { rounds ≤ 200 }
    ensures { OnOk result (out.new.items ≡ out.old.items ++ source_text rounds) }
{
    out.extend_from_slice(DECLARED)?;
    put_decimal(out, rounds + 1)?;
    out.extend_from_slice(PROGRAM)?;
    Ok(())
}

fn put_trace(out: &mut Vec<u8>, rounds: u32) -> Result<(), OutOfMemory>
    requires { rounds ≤ 200 }
    ensures { OnOk result (out.new.items ≡ out.old.items ++ trace_text rounds) }
{
    put_number(out, b"limit ", 2000 + 2000 * rounds)?;
    out.extend_from_slice(b"\n")?;
    put_powers(out, rounds)?;
    put_postings(out, rounds)
}

// A power period a round.
#[tactic(auto, using(crate::proofs::Lines::one_line_more))]
fn put_powers(out: &mut Vec<u8>, rounds: u32) -> Result<(), OutOfMemory>
    requires { rounds ≤ 200 }
    ensures { OnOk result (out.new.items ≡ out.old.items ++ lines_up_to power_line rounds) }
{
    for i in 0..rounds {
        put_power(out, i + 1)?;
    }
    Ok(())
}

fn put_power(out: &mut Vec<u8>, i: u32) -> Result<(), OutOfMemory>
    requires { i ≤ 200 }
    ensures { OnOk result (out.new.items ≡ out.old.items ++ power_line i) }
{
    put_number(out, b"power ", 900 + 13 * (i % 50))?;
    out.extend_from_slice(b"\n")?;
    Ok(())
}

// A posting a round.
#[tactic(auto, using(crate::proofs::Lines::one_line_more))]
fn put_postings(out: &mut Vec<u8>, rounds: u32) -> Result<(), OutOfMemory>
    requires { rounds ≤ 200 }
    ensures { OnOk result (out.new.items ≡ out.old.items ++ lines_up_to posting_line rounds) }
{
    for i in 0..rounds {
        put_posting(out, i + 1)?;
    }
    Ok(())
}

fn put_posting(out: &mut Vec<u8>, i: u32) -> Result<(), OutOfMemory>
    requires { i ≤ 200 }
    ensures { OnOk result (out.new.items ≡ out.old.items ++ posting_line i) }
{
    put_number(out, b"at ", 60 * i)?;
    put_number(out, b" ", i % 3)?;
    put_number(out, b" tick ", i * i)?;
    out.extend_from_slice(b"\n")?;
    Ok(())
}

// A word, and the number behind it.
fn put_number(out: &mut Vec<u8>, word: &[u8], number: u32) -> Result<(), OutOfMemory>
    ensures { OnOk result (out.new.items ≡ out.old.items ++ (word.now ++ decimal number)) }
{
    out.extend_from_slice(word)?;
    put_decimal(out, number)
}
