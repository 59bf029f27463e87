ghost use Rattle.std.specs.Prelude.{◌≡◌};
ghost use Rattle.task_syntax.specs.Saturated.{saturated};
ghost use Rattle.task_syntax.specs.CodeWords.{body_words, expression_words, expressions_words, access_words, statement_words, statements_words};

use crate::{Expr, Kind, Place, Program, Stmt};

/// The words of the code of a body of this kind.
#[tactic(auto, using(crate::proofs::Sums::saturating))]
pub fn code_words(_program: &Program, body: &[Stmt], kind: Kind) -> u32
    ensures { result ≡ saturated (body_words body.now kind) }
{
    let end = match kind {
        Kind::Task | Kind::Top => 0,
        Kind::Bottom => 1,
    };
    statements_words(body).saturating_add(end)
}

#[cycle(words)]
#[tactic(auto, using(crate::proofs::Sums::saturating))]
fn statements_words(body: &[Stmt]) -> u32
    ensures { result ≡ saturated (statements_words body.now) }
{
    let mut sum = 0u32;
    for statement in body {
        sum = sum.saturating_add(statement_words(statement));
    }
    sum
}

#[cycle(words)]
#[tactic(auto, using(crate::proofs::Sums::saturating))]
fn statement_words(statement: &Stmt) -> u32
    ensures { result ≡ saturated (statement_words statement.now) }
{
    match statement {
        Stmt::Let(_, value) => expression_words(value).saturating_add(2),
        Stmt::Assign(place, value) => access_words(place).saturating_add(expression_words(value)),
        Stmt::If(condition, block, other) => {
            let test = expression_words(condition).saturating_add(2);
            let block = statements_words(block.as_slice());
            match other {
                None => test.saturating_add(block),
                Some(other) => {
                    let other = statements_words(other.as_slice());
                    test.saturating_add(block)
                        .saturating_add(2)
                        .saturating_add(other)
                }
            }
        }
        Stmt::Repeat(_, _, block) => statements_words(block.as_slice()).saturating_add(20),
        Stmt::Next(_) => 2,
        Stmt::Halt(_) => 1,
        Stmt::Give(values, _) => expressions_words(values.as_slice()).saturating_add(2),
    }
}

#[tactic(auto, using(crate::proofs::Sums::saturating))]
fn expressions_words(values: &[Expr]) -> u32
    ensures { result ≡ saturated (expressions_words values.now) }
{
    let mut sum = 0u32;
    for value in values {
        sum = sum.saturating_add(expression_words(value));
    }
    sum
}

#[cycle(expression_words)]
#[tactic(auto, using(crate::proofs::Sums::saturating))]
fn expression_words(value: &Expr) -> u32
    ensures { result ≡ saturated (expression_words value.now) }
{
    match value {
        Expr::Num(_) => 2,
        Expr::Get(place) => access_words(place),
        Expr::One(_, operand) => expression_words(operand.get()).saturating_add(1),
        Expr::Two(_, left, right) => expression_words(left.get())
            .saturating_add(expression_words(right.get()))
            .saturating_add(1),
    }
}

#[cycle(expression_words)]
#[tactic(auto, using(crate::proofs::Sums::saturating))]
fn access_words(place: &Place) -> u32
    ensures { result ≡ saturated (access_words place.now) }
{
    match place {
        Place::Plain(_) => 2,
        Place::Item(_, index) => expression_words(index.get()).saturating_add(3),
    }
}
