ghost use Rattle.std.specs.Prelude.{◌≡◌};
ghost use Rattle.coati_word.specs.Operator.{operator_value, unary_value};

/// A binary operator, in the order of the operators' numbers.
#[derive(Clone, Copy, Debug, PartialEq, Eq)]
pub enum Op {
    Or,
    Xor,
    And,
    Eq,
    Ne,
    Lt,
    Le,
    Gt,
    Ge,
    Shl,
    Shr,
    Add,
    Sub,
    Mul,
    Div,
    Rem,
}

/// A unary operator, in the order of the operators' numbers.
#[derive(Clone, Copy, Debug, PartialEq, Eq)]
pub enum Op1 {
    Neg,
    Inv,
    Zero,
}

/// The value of a binary operator. Each has one on all words: sums wrap, and what divides by 0 is
/// 0.
pub fn apply(op: Op, a: u16, b: u16) -> u16
    ensures { result ≡ operator_value op a b }
{
    match op {
        Op::Or => a | b,
        Op::Xor => a ^ b,
        Op::And => a & b,
        Op::Eq => u16::from(a == b),
        Op::Ne => u16::from(a != b),
        Op::Lt => u16::from(a < b),
        Op::Le => u16::from(a <= b),
        Op::Gt => u16::from(a > b),
        Op::Ge => u16::from(a >= b),
        Op::Shl => if b < 16 { a << b } else { 0 },
        Op::Shr => if b < 16 { a >> b } else { 0 },
        Op::Add => a.wrapping_add(b),
        Op::Sub => a.wrapping_sub(b),
        Op::Mul => a.wrapping_mul(b),
        Op::Div => if b == 0 { 0 } else { a / b },
        Op::Rem => if b == 0 { 0 } else { a % b },
    }
}

/// The value of a unary operator.
pub fn apply1(op: Op1, a: u16) -> u16
    ensures { result ≡ unary_value op a }
{
    match op {
        Op1::Neg => a.wrapping_neg(),
        Op1::Inv => !a,
        Op1::Zero => u16::from(a == 0),
    }
}
