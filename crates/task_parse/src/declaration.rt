//! Variables and the buffer.

ghost use Rattle.std.specs.Prelude.{◌≢◌, ◌∷◌, [], IfOk};
ghost use Rattle.task_lex.specs.declared.keyword.Keyword.TheVariants as keyword;
ghost use Rattle.task_lex.specs.declared.symbol.Symbol.TheVariants as sign;
ghost use Rattle.task_parse.specs.Grammar.{Form};
ghost use Rattle.task_parse.specs.Lexeme.{Lexeme};
ghost use Rattle.task_parse.specs.Machine.{Part, variable_then};
ghost use Rattle.task_parse.specs.Readings.{HasRead, HasReadWithin, MayRead};
ghost use Rattle.task_syntax.specs.declared.program.Init.TheVariants as init;

use crate::ParseFault;
use crate::cursor::Cursor;
use sqlite_items::Items;
use std::alloc::Global;
use task_lex::{Keyword, Symbol};
use task_syntax::{Init, Number, Var};

/// Reads one variable or more.
pub(crate) fn variables(alloc: Global, cursor: &mut Cursor<'_>) -> Result<Items<Var>, ParseFault>
    ensures read { HasRead Form.Variables
        (Part.Word keyword.Nv ∷ variable_then (Part.Variables ∷ []))
        cursor.old cursor.new result }
    ensures some { IfOk result (λ vars. vars ≢ []) }
{
    let mut vars = Items::new(alloc);
    let first = variable(alloc, cursor)?;
    vars.push(first)?;
    while cursor.is_at_word(Keyword::Nv) {
        let var = variable(alloc, cursor)?;
        vars.push(var)?;
    }
    Ok(vars)
}

/// `nv name[length] = init;`, with or without a length and values.
fn variable(alloc: Global, cursor: &mut Cursor<'_>) -> Result<Var, ParseFault>
    ensures { HasRead Form.Variable
        (Part.Word keyword.Nv ∷ variable_then [])
        cursor.old cursor.new result }
{
    cursor.word(Keyword::Nv)?;
    let name = cursor.name(alloc)?;
    let length = array_length(cursor)?;
    let init = init(alloc, cursor)?;
    cursor.sign(Symbol::Semicolon)?;
    Ok(Var { name, length, init })
}

/// `[length]`, where it follows.
fn array_length(cursor: &mut Cursor<'_>) -> Result<Option<u16>, ParseFault>
    ensures { MayRead Form.Length (Part.Length ∷ []) cursor.old cursor.new result }
{
    if !cursor.is_at(Symbol::OpenBracket) {
        return Ok(None);
    }
    cursor.open(Symbol::OpenBracket)?;
    let length = cursor.number()?;
    cursor.close(Symbol::CloseBracket)?;
    Ok(Some(length.value))
}

/// `= value` or `= { value, .. }`, where it follows.
fn init(alloc: Global, cursor: &mut Cursor<'_>) -> Result<Init, ParseFault>
    ensures { MayRead Form.Given (Part.Given ∷ []) cursor.old cursor.new result }
{
    if !cursor.is_at(Symbol::Assign) {
        return Ok(Init::None);
    }
    cursor.sign(Symbol::Assign)?;
    if cursor.is_at(Symbol::OpenBrace) {
        let values = values(alloc, cursor)?;
        return Ok(Init::Many(values));
    }
    let value = cursor.number()?;
    Ok(Init::One(value.value))
}

/// `{ value, .. }`, with one value or more.
fn values(alloc: Global, cursor: &mut Cursor<'_>) -> Result<Items<u16>, ParseFault>
    ensures { HasReadWithin (Lexeme.sign sign.Assign ∷ []) []
        (λ values. Form.Given (init.Many values))
        (Part.Sign sign.OpenBrace ∷ Part.ANumber ∷ Part.Numbers ∷ Part.Sign sign.CloseBrace ∷ [])
        cursor.old cursor.new result }
{
    cursor.open(Symbol::OpenBrace)?;
    let mut values = Items::new(alloc);
    let first = cursor.number()?;
    values.push(first.value)?;
    while cursor.is_at(Symbol::Comma) {
        cursor.sign(Symbol::Comma)?;
        let value = cursor.number()?;
        values.push(value.value)?;
    }
    cursor.close(Symbol::CloseBrace)?;
    Ok(values)
}

/// `buffer number;`, where it follows.
pub(crate) fn buffer(cursor: &mut Cursor<'_>) -> Result<Option<Number>, ParseFault>
    ensures { MayRead Form.Buffer (Part.Buffer ∷ []) cursor.old cursor.new result }
{
    if !cursor.is_at_word(Keyword::Buffer) {
        return Ok(None);
    }
    cursor.word(Keyword::Buffer)?;
    let size = cursor.number()?;
    cursor.sign(Symbol::Semicolon)?;
    Ok(Some(size))
}
