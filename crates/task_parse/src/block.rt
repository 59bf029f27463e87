//! Blocks, and the statements that have them.

ghost use Rattle.std.specs.Prelude.{◌≡◌, ◌∷◌, [], false};
ghost use Rattle.task_lex.specs.declared.keyword.Keyword.TheVariants as keyword;
ghost use Rattle.task_lex.specs.declared.symbol.Symbol.TheVariants as sign;
ghost use Rattle.task_parse.specs.Grammar.{Form};
ghost use Rattle.task_parse.specs.Machine.{Part, block_then, expression_then};
ghost use Rattle.task_parse.specs.Readings.{HasRead, HasReadUpTo, MayRead};
ghost use Rattle.task_parse.specs.Spots.{is_at};

use crate::ParseFault;
use crate::cursor::Cursor;
use crate::expression::expression;
use crate::statement::{assignment, give, halt, local, next};
use sqlite_items::Items;
use std::alloc::Global;
use task_lex::{Keyword, Symbol, TokenKind};
use task_syntax::Stmt;

/// Reads statements in braces.
#[cycle(block)]
pub(crate) fn block(alloc: Global, cursor: &mut Cursor<'_>) -> Result<Items<Stmt>, ParseFault>
    ensures { HasRead Form.Block (block_then []) cursor.old cursor.new result }
{
    cursor.open(Symbol::OpenBrace)?;
    let block = statements(alloc, cursor)?;
    Ok(block)
}

/// Reads statements, and the brace that closes their block.
#[cycle(block)]
fn statements(alloc: Global, cursor: &mut Cursor<'_>) -> Result<Items<Stmt>, ParseFault>
    ensures { HasRead Form.Rest (Part.Body ∷ []) cursor.old cursor.new result }
{
    let mut statements = Items::new(alloc);
    while !cursor.is_at(Symbol::CloseBrace) {
        let next = statement(alloc, cursor)?;
        statements.push(next)?;
    }
    cursor.close(Symbol::CloseBrace)?;
    Ok(statements)
}

#[cycle(block)]
fn statement(alloc: Global, cursor: &mut Cursor<'_>) -> Result<Stmt, ParseFault>
    requires { is_at sign.CloseBrace cursor.old.rest ≡ false }
    ensures { HasReadUpTo Form.Statement (Part.Body ∷ []) (λ _. Part.Body ∷ [])
        cursor.old cursor.new result }
{
    match cursor.peek() {
        Some(TokenKind::Name) => assignment(alloc, cursor),
        Some(TokenKind::Keyword(Keyword::Let)) => local(alloc, cursor),
        Some(TokenKind::Keyword(Keyword::If)) => choice(alloc, cursor),
        Some(TokenKind::Keyword(Keyword::Repeat)) => repetition(alloc, cursor),
        Some(TokenKind::Keyword(Keyword::Next)) => next(alloc, cursor),
        Some(TokenKind::Keyword(Keyword::Halt)) => halt(cursor),
        Some(TokenKind::Keyword(Keyword::Give)) => give(alloc, cursor),
        _ => Err(cursor.misplaced()),
    }
}

/// `if e { .. }`, and `else { .. }` where it follows.
#[cycle(block)]
fn choice(alloc: Global, cursor: &mut Cursor<'_>) -> Result<Stmt, ParseFault>
    ensures { HasRead Form.Statement
        (Part.Word keyword.If ∷ expression_then (block_then (Part.Otherwise ∷ [])))
        cursor.old cursor.new result }
{
    cursor.word(Keyword::If)?;
    let condition = expression(alloc, cursor)?;
    let first = block(alloc, cursor)?;
    let other = otherwise(alloc, cursor)?;
    Ok(Stmt::If(condition, first, other))
}

/// `else { .. }`, where it follows.
#[cycle(block)]
fn otherwise(alloc: Global, cursor: &mut Cursor<'_>) -> Result<Option<Items<Stmt>>, ParseFault>
    ensures { MayRead Form.Otherwise (Part.Otherwise ∷ []) cursor.old cursor.new result }
{
    if !cursor.is_at_word(Keyword::Else) {
        return Ok(None);
    }
    cursor.word(Keyword::Else)?;
    let block = block(alloc, cursor)?;
    Ok(Some(block))
}

/// `repeat name < count { .. }`
#[cycle(block)]
fn repetition(alloc: Global, cursor: &mut Cursor<'_>) -> Result<Stmt, ParseFault>
    ensures { HasRead Form.Statement
        (Part.Word keyword.Repeat ∷ Part.AName ∷ Part.Sign sign.Below ∷ Part.ANumber
        ∷ block_then [])
        cursor.old cursor.new result }
{
    cursor.word(Keyword::Repeat)?;
    let name = cursor.name(alloc)?;
    cursor.sign(Symbol::Below)?;
    let count = cursor.number()?;
    let block = block(alloc, cursor)?;
    Ok(Stmt::Repeat(name, count.value, block))
}
