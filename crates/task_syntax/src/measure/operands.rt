ghost use Rattle.std.specs.Prelude.{◌≡◌, map};
ghost use Rattle.task_syntax.specs.Saturated.{saturated};
ghost use Rattle.task_syntax.specs.Depth.{body_depth, expression_depth, index_depth, stacked, statement_depth};
ghost use Rattle.std.specs.Option.{option_map};

use crate::{Expr, Place, Stmt};

/// The operand words that a body needs at most.
#[cycle(depth)]
#[tactic(auto, using(crate::proofs::Sums::saturating))]
pub fn depth(body: &[Stmt]) -> u32
    ensures { result ≡ saturated (body_depth body.now) }
{
    let mut greatest = 0u32;
    for statement in body {
        greatest = greatest.max(statement_depth(statement));
    }
    greatest
}

#[cycle(depth)]
#[tactic(auto, using(crate::proofs::Sums::saturating))]
fn statement_depth(statement: &Stmt) -> u32
    ensures { result ≡ saturated (statement_depth statement.now) }
{
    match statement {
        Stmt::Let(_, value) => expression_depth(value),
        Stmt::Assign(place, value) => {
            let value = expression_depth(value);
            match index_depth(place) {
                None => value,
                Some(index) => index.max(value.saturating_add(1)),
            }
        }
        Stmt::If(condition, block, other) => {
            let test = expression_depth(condition);
            let block = depth(block.as_slice());
            match other {
                None => test.max(block),
                Some(other) => test.max(block.max(depth(other.as_slice()))),
            }
        }
        Stmt::Repeat(_, _, block) => depth(block.as_slice()).max(2),
        Stmt::Next(_) | Stmt::Halt(_) => 0,
        Stmt::Give(values, _) => stacked(values.as_slice()),
    }
}

#[tactic(auto, using(crate::proofs::Sums::saturating))]
fn stacked(values: &[Expr]) -> u32
    ensures { result ≡ saturated (stacked 0 (map expression_depth values.now)) }
{
    let mut below = 0u32;
    let mut greatest = 0u32;
    for value in values {
        greatest = greatest.max(expression_depth(value).saturating_add(below));
        below = below.saturating_add(1);
    }
    greatest
}

#[cycle(expression_depth)]
#[tactic(auto, using(crate::proofs::Sums::saturating))]
fn expression_depth(value: &Expr) -> u32
    ensures { result ≡ saturated (expression_depth value.now) }
{
    match value {
        Expr::Num(_) => 1,
        Expr::Get(place) => index_depth(place).unwrap_or(1),
        Expr::One(_, operand) => expression_depth(operand.get()),
        Expr::Two(_, left, right) => expression_depth(left.get()).max(expression_depth(
            right.get(),
        ).saturating_add(1)),
    }
}

#[cycle(expression_depth)]
fn index_depth(place: &Place) -> Option<u32>
    ensures { result ≡ option_map saturated (index_depth place.now) }
{
    match place {
        Place::Plain(_) => None,
        Place::Item(_, index) => Some(expression_depth(index.get())),
    }
}
