//! Statements that have no block.

ghost use Rattle.std.specs.Prelude.{◌∷◌, []};
ghost use Rattle.task_lex.specs.declared.keyword.Keyword.TheVariants as keyword;
ghost use Rattle.task_lex.specs.declared.symbol.Symbol.TheVariants as sign;
ghost use Rattle.task_parse.specs.Grammar.{Form};
ghost use Rattle.task_parse.specs.Lexeme.{Lexeme};
ghost use Rattle.task_parse.specs.Machine.{Part, expression_then};
ghost use Rattle.task_parse.specs.Readings.{HasRead, HasReadWithin};

use crate::ParseFault;
use crate::cursor::Cursor;
use crate::expression::{expression, place};
use sqlite_items::Items;
use std::alloc::Global;
use task_lex::{Keyword, Symbol};
use task_syntax::{Expr, Stmt};

/// `place = e;`
pub(crate) fn assignment(alloc: Global, cursor: &mut Cursor<'_>) -> Result<Stmt, ParseFault>
    ensures { HasRead Form.Statement
        (Part.AName ∷ Part.Index ∷ Part.Sign sign.Assign
        ∷ expression_then (Part.Sign sign.Semicolon ∷ []))
        cursor.old cursor.new result }
{
    let place = place(alloc, cursor)?;
    cursor.sign(Symbol::Assign)?;
    let value = expression(alloc, cursor)?;
    cursor.sign(Symbol::Semicolon)?;
    Ok(Stmt::Assign(place, value))
}

/// `let name = e;`
pub(crate) fn local(alloc: Global, cursor: &mut Cursor<'_>) -> Result<Stmt, ParseFault>
    ensures { HasRead Form.Statement
        (Part.Word keyword.Let ∷ Part.AName ∷ Part.Sign sign.Assign
        ∷ expression_then (Part.Sign sign.Semicolon ∷ []))
        cursor.old cursor.new result }
{
    cursor.word(Keyword::Let)?;
    let name = cursor.name(alloc)?;
    cursor.sign(Symbol::Assign)?;
    let value = expression(alloc, cursor)?;
    cursor.sign(Symbol::Semicolon)?;
    Ok(Stmt::Let(name, value))
}

/// `next name;`
pub(crate) fn next(alloc: Global, cursor: &mut Cursor<'_>) -> Result<Stmt, ParseFault>
    ensures { HasRead Form.Statement
        (Part.Word keyword.Next ∷ Part.AName ∷ Part.Sign sign.Semicolon ∷ [])
        cursor.old cursor.new result }
{
    cursor.word(Keyword::Next)?;
    let name = cursor.name(alloc)?;
    cursor.sign(Symbol::Semicolon)?;
    Ok(Stmt::Next(name))
}

/// `halt;`
pub(crate) fn halt(cursor: &mut Cursor<'_>) -> Result<Stmt, ParseFault>
    ensures { HasRead Form.Statement
        (Part.Word keyword.Halt ∷ Part.Sign sign.Semicolon ∷ []) cursor.old cursor.new result }
{
    let at = cursor.word(Keyword::Halt)?;
    cursor.sign(Symbol::Semicolon)?;
    Ok(Stmt::Halt(at))
}

/// `give e, e;`, of any number of expressions.
pub(crate) fn give(alloc: Global, cursor: &mut Cursor<'_>) -> Result<Stmt, ParseFault>
    ensures { HasRead Form.Statement
        (Part.Word keyword.Give ∷ Part.Values ∷ Part.Sign sign.Semicolon ∷ [])
        cursor.old cursor.new result }
{
    let at = cursor.word(Keyword::Give)?;
    let values = values(alloc, cursor)?;
    Ok(Stmt::Give(values, at))
}

/// Reads expressions with commas between them, or none, and the semicolon behind them.
fn values(alloc: Global, cursor: &mut Cursor<'_>) -> Result<Items<Expr>, ParseFault>
    ensures { HasReadWithin [] (Lexeme.sign sign.Semicolon ∷ []) Form.Values
        (Part.Values ∷ Part.Sign sign.Semicolon ∷ [])
        cursor.old cursor.new result }
{
    let mut values = Items::new(alloc);
    if cursor.is_at(Symbol::Semicolon) {
        cursor.sign(Symbol::Semicolon)?;
        return Ok(values);
    }
    let first = expression(alloc, cursor)?;
    values.push(first)?;
    while cursor.is_at(Symbol::Comma) {
        cursor.sign(Symbol::Comma)?;
        let value = expression(alloc, cursor)?;
        values.push(value)?;
    }
    cursor.sign(Symbol::Semicolon)?;
    Ok(values)
}
