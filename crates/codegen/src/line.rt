//! The lines of instructions in a listing.

ghost use Rattle.std.specs.Prelude.{◌≡◌, ◌<◌, ◌≤◌, ◌++◌, OnOk, flat_map, length};
ghost use Rattle.codegen.specs.Listing.{field, instr_line, instr_text, lines_from, operand_field, operands, operator_text, unary_text};

use coati_text::put_decimal;
use coati_word::{Op, Op1, OutOfMemory};
use word_code::{Instr, decode};

/// Appends the lines of the instructions of a body.
pub(crate) fn put_lines(out: &mut Vec<u8>, words: &[u16]) -> Result<(), OutOfMemory>
    requires { length words.now ≤ 50000 }
    ensures { OnOk result (out.new.items ≡ out.old.items ++ lines_from 0 0 words.now) }
{
    let mut at = 0;
    while at < words.len() {
        match decode(words, at) {
            Some((instr, count)) => {
                put_line(out, at, &instr)?;
                at += count;
            }
            None => at += 1,
        }
    }
    Ok(())
}

/// Appends the line of an instruction at a word.
fn put_line(out: &mut Vec<u8>, at: usize, instr: &Instr) -> Result<(), OutOfMemory>
    requires { at < 50000 }
    ensures { OnOk result (out.new.items ≡ out.old.items ++ instr_line at instr.now) }
{
    put_decimal(out, at as u32)?;
    put_field(out, instr_text(instr))?;
    put_operands(out, instr)?;
    put(out, b"\n")
}

fn put_operands(out: &mut Vec<u8>, instr: &Instr) -> Result<(), OutOfMemory>
    ensures { OnOk result (out.new.items ≡ out.old.items
        ++ flat_map operand_field (operands instr.now)) }
{
    match instr {
        Instr::LoadX(first, length) | Instr::StoreX(first, length) => {
            put_operand(out, *first)?;
            put_operand(out, *length)
        }
        Instr::Push(operand)
        | Instr::GetL(operand)
        | Instr::SetL(operand)
        | Instr::LoadV(operand)
        | Instr::StoreV(operand)
        | Instr::Jump(operand)
        | Instr::JumpZ(operand)
        | Instr::Next(operand)
        | Instr::Give(operand) => put_operand(out, *operand),
        Instr::Halt | Instr::Done | Instr::Two(_) | Instr::One(_) => Ok(()),
    }
}

fn put_operand(out: &mut Vec<u8>, operand: u16) -> Result<(), OutOfMemory>
    ensures { OnOk result (out.new.items ≡ out.old.items ++ operand_field operand) }
{
    put(out, b" ")?;
    put_decimal(out, u32::from(operand))
}

/// Appends a field with the space before it.
pub(crate) fn put_field(out: &mut Vec<u8>, text: &[u8]) -> Result<(), OutOfMemory>
    ensures { OnOk result (out.new.items ≡ out.old.items ++ field text.now) }
{
    put(out, b" ")?;
    put(out, text)
}

/// Appends bytes.
pub(crate) fn put(out: &mut Vec<u8>, bytes: &[u8]) -> Result<(), OutOfMemory>
    ensures { OnOk result (out.new.items ≡ out.old.items ++ bytes.now) }
{
    Ok(out.extend_from_slice(bytes)?)
}

fn instr_text(instr: &Instr) -> &'static [u8]
    ensures { result.now ≡ instr_text instr.now }
{
    match instr {
        Instr::Push(_) => b"push",
        Instr::GetL(_) => b"getl",
        Instr::SetL(_) => b"setl",
        Instr::LoadV(_) => b"loadv",
        Instr::StoreV(_) => b"storev",
        Instr::LoadX(_, _) => b"loadx",
        Instr::StoreX(_, _) => b"storex",
        Instr::Jump(_) => b"jump",
        Instr::JumpZ(_) => b"jumpz",
        Instr::Next(_) => b"next",
        Instr::Halt => b"halt",
        Instr::Done => b"done",
        Instr::Give(_) => b"give",
        Instr::Two(op) => operator_text(*op),
        Instr::One(op) => unary_text(*op),
    }
}

fn operator_text(op: Op) -> &'static [u8]
    ensures { result.now ≡ operator_text op }
{
    match op {
        Op::Or => b"or",
        Op::Xor => b"xor",
        Op::And => b"and",
        Op::Eq => b"eq",
        Op::Ne => b"ne",
        Op::Lt => b"lt",
        Op::Le => b"le",
        Op::Gt => b"gt",
        Op::Ge => b"ge",
        Op::Shl => b"shl",
        Op::Shr => b"shr",
        Op::Add => b"add",
        Op::Sub => b"sub",
        Op::Mul => b"mul",
        Op::Div => b"div",
        Op::Rem => b"rem",
    }
}

fn unary_text(op: Op1) -> &'static [u8]
    ensures { result.now ≡ unary_text op }
{
    match op {
        Op1::Neg => b"neg",
        Op1::Inv => b"inv",
        Op1::Zero => b"zero",
    }
}
