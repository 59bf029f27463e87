ghost use Rattle.std.specs.Prelude.{◌≡◌, is_some};
ghost use Rattle.task_syntax.specs.Names.{words_of};
ghost use Rattle.task_syntax.specs.Saturated.{saturated};
ghost use Rattle.task_syntax.specs.Cost.{body_cost, expression_cost, expressions_cost, index_cost, store_cost, statement_cost, statements_cost, loop_cost};

use crate::{Expr, Kind, NameText, Place, Program, Stmt};

/// The machine steps that a body of this kind takes at most.
#[tactic(auto, using(crate::proofs::Sums::saturating))]
pub fn cost(program: &Program, body: &[Stmt], kind: Kind) -> u32
    ensures { result ≡ saturated (body_cost program.now body.now kind) }
{
    let end = match kind {
        Kind::Task | Kind::Top => 0,
        Kind::Bottom => 1,
    };
    statements_cost(program, body).saturating_add(end)
}

#[cycle(cost)]
#[tactic(auto, using(crate::proofs::Sums::saturating))]
fn statements_cost(program: &Program, body: &[Stmt]) -> u32
    ensures { result ≡ saturated (statements_cost program.now body.now) }
{
    let mut sum = 0u32;
    for statement in body {
        sum = sum.saturating_add(statement_cost(program, statement));
    }
    sum
}

#[cycle(cost)]
#[tactic(auto, using(crate::proofs::Sums::saturating))]
fn statement_cost(program: &Program, statement: &Stmt) -> u32
    ensures { result ≡ saturated (statement_cost program.now statement.now) }
{
    match statement {
        Stmt::Let(_, value) => expression_cost(value).saturating_add(1),
        Stmt::Assign(place, value) => index_cost(place)
            .saturating_add(expression_cost(value))
            .saturating_add(store_cost(program, place)),
        Stmt::If(condition, block, other) => {
            let test = expression_cost(condition).saturating_add(1);
            let block = statements_cost(program, block.as_slice());
            match other {
                None => test.saturating_add(block),
                Some(other) => {
                    let other = statements_cost(program, other.as_slice());
                    test.saturating_add(block.saturating_add(1).max(other))
                }
            }
        }
        Stmt::Repeat(_, count, block) => {
            loop_cost(*count, statements_cost(program, block.as_slice()))
        }
        Stmt::Next(_) | Stmt::Halt(_) => 1,
        Stmt::Give(values, _) => expressions_cost(values.as_slice()).saturating_add(1),
    }
}

fn loop_cost(count: u16, block: u32) -> u32
    ensures { result ≡ saturated (loop_cost count block) }
{
    u32::from(count)
        .saturating_mul(block.saturating_add(9))
        .saturating_add(6)
}

fn store_cost(program: &Program, place: &Place) -> u32
    ensures { result ≡ store_cost program.now place.now }
{
    match place {
        Place::Plain(name) if !is_variable(program, &name.text) => 1,
        _ => 3,
    }
}

fn is_variable(program: &Program, name: &NameText) -> bool
    ensures { result ≡ is_some (words_of program.now name.now) }
{
    for var in program.vars.as_slice() {
        if var.name.text == *name {
            return true;
        }
    }
    false
}

#[tactic(auto, using(crate::proofs::Sums::saturating))]
fn expressions_cost(values: &[Expr]) -> u32
    ensures { result ≡ saturated (expressions_cost values.now) }
{
    let mut sum = 0u32;
    for value in values {
        sum = sum.saturating_add(expression_cost(value));
    }
    sum
}

#[cycle(expression_cost)]
#[tactic(auto, using(crate::proofs::Sums::saturating))]
fn expression_cost(value: &Expr) -> u32
    ensures { result ≡ saturated (expression_cost value.now) }
{
    match value {
        Expr::Num(_) => 1,
        Expr::Get(place) => index_cost(place).saturating_add(1),
        Expr::One(_, operand) => expression_cost(operand.get()).saturating_add(1),
        Expr::Two(_, left, right) => expression_cost(left.get())
            .saturating_add(expression_cost(right.get()))
            .saturating_add(1),
    }
}

#[cycle(expression_cost)]
fn index_cost(place: &Place) -> u32
    ensures { result ≡ saturated (index_cost place.now) }
{
    match place {
        Place::Plain(_) => 0,
        Place::Item(_, index) => expression_cost(index.get()),
    }
}
