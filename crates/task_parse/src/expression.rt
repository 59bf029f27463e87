//! Expressions, by precedence climbing.

ghost use Rattle.std.specs.Prelude.{◌≡◌, ◌≤◌, ◌∷◌, [], IfOk, Some, MatchOption};
ghost use Rattle.task_parse.specs.Bars.{most_operators};
ghost use Rattle.task_parse.specs.Grammar.{Form};
ghost use Rattle.task_parse.specs.Machine.{Part};
ghost use Rattle.task_parse.specs.Operators.{level as level_of_op};
ghost use Rattle.task_parse.specs.Readings.{HasRead, HasReadUpTo};
ghost use Rattle.task_parse.specs.Spots.{Below, first_operator};
ghost use Rattle.task_lex.specs.declared.symbol.Symbol.TheVariants as sign;
ghost use Rattle.task_syntax.specs.declared.expression.Expr.TheVariants.{One, Two};

use crate::ParseFault;
use crate::cursor::Cursor;
use crate::operator::level_of;
use coati_word::limits::BINARY_OPERATORS;
use coati_word::{Op, Op1};
use sqlite_items::Boxed;
use std::alloc::{AllocError, Global};
use task_lex::Symbol;
use task_syntax::{Expr, Place};

/// Reads an expression.
#[cycle(expression)]
pub(crate) fn expression(alloc: Global, cursor: &mut Cursor<'_>) -> Result<Expr, ParseFault>
    ensures { HasRead (Form.Level 0)
        (Part.Operand ∷ Part.Ops 0 ∷ [])
        cursor.old cursor.new result }
{
    let (value, _) = level(alloc, cursor, 0, 0)?;
    Ok(value)
}

/// Reads an expression whose operators bind at least so tight, behind so many operators that it
/// goes on from. With it comes how many operators there are then.
#[cycle(expression)]
fn level(
    alloc: Global,
    cursor: &mut Cursor<'_>,
    least: u8,
    operators: usize,
) -> Result<(Expr, usize), ParseFault>
    requires few { operators ≤ most_operators }
    requires low { least ≤ 8 }
    ensures read { HasReadUpTo (λ read. Form.Level least read.0)
        (Part.Operand ∷ Part.Ops operators ∷ []) (λ read. Part.Ops read.1 ∷ [])
        cursor.old cursor.new result }
    ensures below { IfOk result (λ _. Below least cursor.new.rest) }
    ensures few { IfOk result (λ read. read.1 ≤ most_operators) }
{
    let mut left = operand(alloc, cursor)?;
    let mut count = operators;
    while let Some(op) = operator(cursor, least) {
        if count == BINARY_OPERATORS {
            return Err(cursor.too_many());
        }
        cursor.advance();
        let (right, after) = level(alloc, cursor, level_of(op) + 1, count + 1)?;
        left = two(alloc, op, left, right)?;
        count = after;
    }
    Ok((left, count))
}

/// The operator that comes next, if one does that binds at least so tight.
fn operator(cursor: &Cursor<'_>, least: u8) -> Option<Op>
    ensures { MatchOption result (Below least cursor.now.rest)
        (λ op. (first_operator cursor.now.rest ≡ Some op) × (least ≤ level_of_op op)) }
{
    let op = cursor.operator()?;
    if level_of(op) < least { None } else { Some(op) }
}

/// Reads a primary, and the unary operator before it where one comes next.
#[cycle(expression)]
fn operand(alloc: Global, cursor: &mut Cursor<'_>) -> Result<Expr, ParseFault>
    ensures { HasRead Form.Operand (Part.Operand ∷ []) cursor.old cursor.new result }
{
    match cursor.unary() {
        Some(op) => {
            cursor.advance();
            let operand = primary(alloc, cursor)?;
            Ok(one(alloc, op, operand)?)
        }
        None => primary(alloc, cursor),
    }
}

/// Reads a number, a place, or an expression in parentheses.
#[cycle(expression)]
fn primary(alloc: Global, cursor: &mut Cursor<'_>) -> Result<Expr, ParseFault>
    ensures { HasRead Form.Primary (Part.Primary ∷ []) cursor.old cursor.new result }
{
    if cursor.is_at_name() {
        let place = place(alloc, cursor)?;
        Ok(Expr::Get(place))
    } else if cursor.is_at(Symbol::OpenParen) {
        parentheses(alloc, cursor)
    } else {
        let number = cursor.number()?;
        Ok(Expr::Num(number.value))
    }
}

#[cycle(expression)]
fn parentheses(alloc: Global, cursor: &mut Cursor<'_>) -> Result<Expr, ParseFault>
    ensures { HasRead Form.Primary
        (Part.Sign sign.OpenParen ∷ Part.Operand ∷ Part.Ops 0 ∷ Part.Sign sign.CloseParen ∷ [])
        cursor.old cursor.new result }
{
    cursor.open(Symbol::OpenParen)?;
    let value = expression(alloc, cursor)?;
    cursor.close(Symbol::CloseParen)?;
    Ok(value)
}

/// Reads a name, and an index in brackets where one follows.
#[cycle(expression)]
pub(crate) fn place(alloc: Global, cursor: &mut Cursor<'_>) -> Result<Place, ParseFault>
    ensures { HasRead Form.Target (Part.AName ∷ Part.Index ∷ []) cursor.old cursor.new result }
{
    let name = cursor.name(alloc)?;
    if !cursor.is_at(Symbol::OpenBracket) {
        return Ok(Place::Plain(name));
    }
    cursor.open(Symbol::OpenBracket)?;
    let index = expression(alloc, cursor)?;
    cursor.close(Symbol::CloseBracket)?;
    let index = Boxed::new(alloc, index)?;
    Ok(Place::Item(name, index))
}

fn one(alloc: Global, op: Op1, operand: Expr) -> Result<Expr, AllocError>
    ensures { IfOk result (λ x. x ≡ One op operand) }
{
    Ok(Expr::One(op, Boxed::new(alloc, operand)?))
}

fn two(alloc: Global, op: Op, left: Expr, right: Expr) -> Result<Expr, AllocError>
    ensures { IfOk result (λ x. x ≡ Two op left right) }
{
    let left = Boxed::new(alloc, left)?;
    Ok(Expr::Two(op, left, Boxed::new(alloc, right)?))
}
