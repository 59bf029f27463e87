//! Tasks and transactions.

ghost use Rattle.std.specs.Prelude.{◌≢◌, ◌∷◌, [], IfOk};
ghost use Rattle.task_lex.specs.declared.keyword.Keyword.TheVariants as keyword;
ghost use Rattle.task_parse.specs.Grammar.{Form, Reads};
ghost use Rattle.task_parse.specs.Machine.{Part, task_then, transaction_then};
ghost use Rattle.task_parse.specs.Readings.{HasRead};
ghost use Rattle.task_parse.specs.Spots.{Ends};
ghost use Rattle.task_syntax.specs.declared.program.UnitDecl.TheVariants as unit;

use crate::ParseFault;
use crate::block::block;
use crate::cursor::Cursor;
use sqlite_items::Items;
use std::alloc::Global;
use task_lex::{Keyword, Symbol};
use task_syntax::{TaskDecl, TxDecl, UnitDecl};

/// Reads one unit or more, up to the end of the tokens.
pub(crate) fn units(alloc: Global, cursor: &mut Cursor<'_>) -> Result<Items<UnitDecl>, ParseFault>
    ensures reads { IfOk result (λ units. Reads (Form.Units units) cursor.old.rest []) }
    ensures some { IfOk result (λ units. units ≢ []) }
    ensures ends { Ends cursor.old (Part.AUnit ∷ Part.Units ∷ []) result }
{
    let mut units = Items::new(alloc);
    let first = unit(alloc, cursor)?;
    units.push(first)?;
    while !cursor.is_at_end() {
        let next = unit(alloc, cursor)?;
        units.push(next)?;
    }
    Ok(units)
}

fn unit(alloc: Global, cursor: &mut Cursor<'_>) -> Result<UnitDecl, ParseFault>
    ensures { HasRead Form.OneUnit (Part.AUnit ∷ []) cursor.old cursor.new result }
{
    if cursor.is_at_word(Keyword::Transaction) {
        let tx = transaction(alloc, cursor)?;
        Ok(UnitDecl::Tx(tx))
    } else {
        let lone = task(alloc, cursor)?;
        Ok(UnitDecl::Lone(lone))
    }
}

/// `transaction name { task .. }`
fn transaction(alloc: Global, cursor: &mut Cursor<'_>) -> Result<TxDecl, ParseFault>
    ensures { HasRead (λ tx. Form.OneUnit (unit.Tx tx))
        (Part.Word keyword.Transaction ∷ transaction_then [])
        cursor.old cursor.new result }
{
    cursor.word(Keyword::Transaction)?;
    let name = cursor.name(alloc)?;
    cursor.open(Symbol::OpenBrace)?;
    let tasks = tasks(alloc, cursor)?;
    cursor.close(Symbol::CloseBrace)?;
    Ok(TxDecl { name, tasks })
}

/// Reads one task or more.
fn tasks(alloc: Global, cursor: &mut Cursor<'_>) -> Result<Items<TaskDecl>, ParseFault>
    ensures read { HasRead Form.Tasks
        (Part.Word keyword.Task ∷ task_then (Part.Members ∷ []))
        cursor.old cursor.new result }
    ensures some { IfOk result (λ tasks. tasks ≢ []) }
{
    let mut tasks = Items::new(alloc);
    let first = task(alloc, cursor)?;
    tasks.push(first)?;
    while cursor.is_at_word(Keyword::Task) {
        let next = task(alloc, cursor)?;
        tasks.push(next)?;
    }
    Ok(tasks)
}

/// `task name { .. }`
fn task(alloc: Global, cursor: &mut Cursor<'_>) -> Result<TaskDecl, ParseFault>
    ensures { HasRead Form.Task
        (Part.Word keyword.Task ∷ task_then [])
        cursor.old cursor.new result }
{
    cursor.word(Keyword::Task)?;
    let name = cursor.name(alloc)?;
    let body = block(alloc, cursor)?;
    Ok(TaskDecl { name, body })
}
