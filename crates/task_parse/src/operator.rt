ghost use Rattle.std.specs.Prelude.{◌≡◌, ◌<◌};
ghost use Rattle.task_parse.specs.Operators.{level, operator_of, unary_of};

use coati_word::{Op, Op1};
use task_lex::Symbol;

/// How tight an operator binds, from 0 for the loosest.
pub(crate) fn level_of(op: Op) -> u8
    ensures level { result ≡ level op }
    ensures few { result < 8 }
{
    match op {
        Op::Or => 0,
        Op::Xor => 1,
        Op::And => 2,
        Op::Eq | Op::Ne => 3,
        Op::Lt | Op::Le | Op::Gt | Op::Ge => 4,
        Op::Shl | Op::Shr => 5,
        Op::Add | Op::Sub => 6,
        Op::Mul | Op::Div | Op::Rem => 7,
    }
}

/// The operator that a sign stands for between operands.
pub(crate) fn operator_of(symbol: Symbol) -> Option<Op>
    ensures { result ≡ operator_of symbol }
{
    match symbol {
        Symbol::Or => Some(Op::Or),
        Symbol::Xor => Some(Op::Xor),
        Symbol::And => Some(Op::And),
        Symbol::Equal => Some(Op::Eq),
        Symbol::NotEqual => Some(Op::Ne),
        Symbol::Below => Some(Op::Lt),
        Symbol::AtMost => Some(Op::Le),
        Symbol::Above => Some(Op::Gt),
        Symbol::AtLeast => Some(Op::Ge),
        Symbol::ShiftLeft => Some(Op::Shl),
        Symbol::ShiftRight => Some(Op::Shr),
        Symbol::Plus => Some(Op::Add),
        Symbol::Minus => Some(Op::Sub),
        Symbol::Times => Some(Op::Mul),
        Symbol::Divide => Some(Op::Div),
        Symbol::Remainder => Some(Op::Rem),
        _ => None,
    }
}

/// The operator that a sign stands for before an operand.
pub(crate) fn unary_of(symbol: Symbol) -> Option<Op1>
    ensures { result ≡ unary_of symbol }
{
    match symbol {
        Symbol::Minus => Some(Op1::Neg),
        Symbol::Invert => Some(Op1::Inv),
        Symbol::Not => Some(Op1::Zero),
        _ => None,
    }
}
