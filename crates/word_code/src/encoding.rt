ghost use Rattle.std.specs.Prelude.{◌≡◌, ◌<◌, ◌++◌, OnOk, OnErr};
ghost use Rattle.word_code.specs.Instruction.{IsEncodable, binary_number, encoded, unary_number};

use crate::Instr;
use coati_word::{Op, Op1, OutOfMemory};

/// Appends the words of an instruction, whose operands are in their ranges. A refusal appends
/// nothing.
pub fn encode(instr: &Instr, out: &mut Vec<u16>) -> Result<(), OutOfMemory>
    requires { IsEncodable instr.now }
    ensures ok { OnOk result (out.new.items ≡ out.old.items ++ encoded instr.now) }
    ensures err { OnErr result (out.new.items ≡ out.old.items) }
{
    match instr {
        Instr::Push(word) => append(out, &[1, *word]),
        Instr::GetL(local) => append(out, &[2, *local]),
        Instr::SetL(local) => append(out, &[3, *local]),
        Instr::LoadV(word) => append(out, &[4, *word]),
        Instr::StoreV(word) => append(out, &[5, *word]),
        Instr::LoadX(first, length) => append(out, &[6, *first, *length]),
        Instr::StoreX(first, length) => append(out, &[7, *first, *length]),
        Instr::Jump(place) => append(out, &[8, *place]),
        Instr::JumpZ(place) => append(out, &[9, *place]),
        Instr::Next(task) => append(out, &[10, *task]),
        Instr::Halt => append(out, &[11]),
        Instr::Done => append(out, &[12]),
        Instr::Give(count) => append(out, &[13, *count]),
        Instr::Two(op) => append(out, &[32 + number(*op)]),
        Instr::One(op) => append(out, &[48 + number1(*op)]),
    }
}

/// Appends words. A refusal appends nothing.
pub(crate) fn append(out: &mut Vec<u16>, words: &[u16]) -> Result<(), OutOfMemory>
    ensures ok { OnOk result (out.new.items ≡ out.old.items ++ words.now) }
    ensures err { OnErr result (out.new.items ≡ out.old.items) }
{
    Ok(out.extend_from_slice(words)?)
}

fn number(op: Op) -> u16
    ensures number { result ≡ binary_number op }
    ensures small { result < 16 }
{
    op as u16
}

fn number1(op: Op1) -> u16
    ensures number { result ≡ unary_number op }
    ensures small { result < 3 }
{
    op as u16
}
