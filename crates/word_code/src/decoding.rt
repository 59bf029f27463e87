ghost use Rattle.std.specs.Prelude.{◌≡◌, IfSome, drop, slice_get};
ghost use Rattle.word_code.specs.Instruction.{binary_operators, decoded, read_by, readers, unary_operators};
ghost use Rattle.word_code.specs.InstructionLaws.{StandsAt};

use crate::Instr;
use coati_word::{Op, Op1};

/// The instruction that starts at a place, and its count of words. None where no instruction
/// starts there: the word is no opcode or missing, an operand word is missing, or an operand is
/// out of its range.
pub fn decode(words: &[u16], at: usize) -> Option<(Instr, usize)>
    ensures value { result ≡ decoded (drop at words.now) }
    ensures found { IfSome result (λ r. StandsAt words.now at r.0 r.1) }
{
    if at >= words.len() {
        return None;
    }
    first_of(&words[at..])
}

fn first_of(words: &[u16]) -> Option<(Instr, usize)>
    ensures { result ≡ decoded words.now }
{
    match words {
        [] => None,
        [opcode, operands @ ..] => {
            if *opcode < 32 {
                with_operands(*opcode, operands)
            } else if *opcode < 48 {
                binary(*opcode - 32).map(|op| (Instr::Two(op), 1))
            } else {
                unary(*opcode - 48).map(|op| (Instr::One(op), 1))
            }
        }
    }
}

fn with_operands(opcode: u16, operands: &[u16]) -> Option<(Instr, usize)>
    ensures { result ≡ read_by (slice_get readers opcode) operands.now }
{
    match (opcode, operands) {
        (1, [word, ..]) => Some((Instr::Push(*word), 2)),
        (2, [local, ..]) if *local < 32 => Some((Instr::GetL(*local), 2)),
        (3, [local, ..]) if *local < 32 => Some((Instr::SetL(*local), 2)),
        (4, [word, ..]) => Some((Instr::LoadV(*word), 2)),
        (5, [word, ..]) => Some((Instr::StoreV(*word), 2)),
        (6, [first, length, ..]) if *length != 0 => Some((Instr::LoadX(*first, *length), 3)),
        (7, [first, length, ..]) if *length != 0 => Some((Instr::StoreX(*first, *length), 3)),
        (8, [place, ..]) => Some((Instr::Jump(*place), 2)),
        (9, [place, ..]) => Some((Instr::JumpZ(*place), 2)),
        (10, [task, ..]) => Some((Instr::Next(*task), 2)),
        (11, _) => Some((Instr::Halt, 1)),
        (12, _) => Some((Instr::Done, 1)),
        (13, [count, ..]) if *count <= 4 => Some((Instr::Give(*count), 2)),
        _ => None,
    }
}

fn binary(number: u16) -> Option<Op>
    ensures { result ≡ slice_get binary_operators number }
{
    match number {
        0 => Some(Op::Or),
        1 => Some(Op::Xor),
        2 => Some(Op::And),
        3 => Some(Op::Eq),
        4 => Some(Op::Ne),
        5 => Some(Op::Lt),
        6 => Some(Op::Le),
        7 => Some(Op::Gt),
        8 => Some(Op::Ge),
        9 => Some(Op::Shl),
        10 => Some(Op::Shr),
        11 => Some(Op::Add),
        12 => Some(Op::Sub),
        13 => Some(Op::Mul),
        14 => Some(Op::Div),
        15 => Some(Op::Rem),
        _ => None,
    }
}

fn unary(number: u16) -> Option<Op1>
    ensures { result ≡ slice_get unary_operators number }
{
    match number {
        0 => Some(Op1::Neg),
        1 => Some(Op1::Inv),
        2 => Some(Op1::Zero),
        _ => None,
    }
}
