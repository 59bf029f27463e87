//! Events.

ghost use Rattle.std.specs.Prelude.{◌∷◌, []};
ghost use Rattle.task_lex.specs.declared.keyword.Keyword.TheVariants as keyword;
ghost use Rattle.task_parse.specs.Grammar.{Form};
ghost use Rattle.task_parse.specs.Machine.{Part, event_then};
ghost use Rattle.task_parse.specs.Readings.{HasRead, MayRead};

use crate::ParseFault;
use crate::block::block;
use crate::cursor::Cursor;
use sqlite_items::Items;
use std::alloc::Global;
use task_lex::{Keyword, Symbol};
use task_syntax::{Event, Name};

/// Reads any number of events.
pub(crate) fn events(alloc: Global, cursor: &mut Cursor<'_>) -> Result<Items<Event>, ParseFault>
    ensures { MayRead Form.Events (Part.Events ∷ []) cursor.old cursor.new result }
{
    let mut events = Items::new(alloc);
    while cursor.is_at_word(Keyword::Event) {
        let next = event(alloc, cursor)?;
        events.push(next)?;
    }
    Ok(events)
}

/// `event name(argument) { top { .. } bottom(..) { .. } }`
fn event(alloc: Global, cursor: &mut Cursor<'_>) -> Result<Event, ParseFault>
    ensures { HasRead Form.OneEvent
        (Part.Word keyword.Event ∷ event_then [])
        cursor.old cursor.new result }
{
    cursor.word(Keyword::Event)?;
    let name = cursor.name(alloc)?;
    cursor.open(Symbol::OpenParen)?;
    let argument = cursor.name(alloc)?;
    cursor.close(Symbol::CloseParen)?;
    cursor.open(Symbol::OpenBrace)?;
    cursor.word(Keyword::Top)?;
    let top = block(alloc, cursor)?;
    cursor.word(Keyword::Bottom)?;
    cursor.open(Symbol::OpenParen)?;
    let params = parameters(alloc, cursor)?;
    cursor.close(Symbol::CloseParen)?;
    let bottom = block(alloc, cursor)?;
    cursor.close(Symbol::CloseBrace)?;
    Ok(Event {
        name,
        argument,
        top,
        params,
        bottom,
    })
}

/// Reads names with commas between them, or none.
fn parameters(alloc: Global, cursor: &mut Cursor<'_>) -> Result<Items<Name>, ParseFault>
    ensures { MayRead Form.Params (Part.Params ∷ []) cursor.old cursor.new result }
{
    let mut params = Items::new(alloc);
    if !cursor.is_at_name() {
        return Ok(params);
    }
    let first = cursor.name(alloc)?;
    params.push(first)?;
    while cursor.is_at(Symbol::Comma) {
        cursor.sign(Symbol::Comma)?;
        let param = cursor.name(alloc)?;
        params.push(param)?;
    }
    Ok(params)
}
