ghost use Rattle.std.specs.Prelude.{◌≡◌, ◌+◌, ◌≤◌, ◌<◌, ◌++◌, ◌∷◌, [], IfOk, OnOk, length};
ghost use Rattle.task_syntax.specs.CodeWords.{access_words, expression_words, expressions_words, statement_words, statements_words};
ghost use Rattle.task_syntax.specs.LocalCount.{declared_count, declared_counts};
ghost use Rattle.word_code.specs.declared.instruction.Instr.TheVariants.{Give, SetL};
ghost use Rattle.codegen.specs.Scope.{behind_block, declare};
ghost use Rattle.codegen.specs.Templates.{expression_code, expressions_code, place_code, statement_code, statements_code, storing};

use crate::access::{item_access, plain_access};
use crate::expression::{put_expression, put_expressions};
use crate::jumps::{put_choice, put_loop, put_when};
use crate::scope::Scope;
use crate::segment::Segment;
use coati_word::OutOfMemory;
use std::alloc::Global;
use task_check::Checked;
use task_syntax::{Expr, Name, Place, Stmt};
use word_code::Instr;

/// Appends the code of a statement, and goes on in the scope behind it. In a checked program a
/// `next` names a task.
#[cycle(statement)]
fn put_statement<'a>(
    alloc: Global,
    checked: &Checked,
    scope: &mut Scope<'a>,
    statement: &'a Stmt,
    out: &mut Segment,
) -> Result<(), OutOfMemory>
    requires words { out.old.end + statement_words statement.now ≤ 50000 }
    requires slots { scope.old.next + declared_count statement.now ≤ 32 }
    ensures code { OnOk result (out.new.instrs.items ≡ out.old.instrs.items
        ++ (statement_code checked.now statement.now scope.old).code out.old.end) }
    ensures end { OnOk result (out.new.end ≡ out.old.end + statement_words statement.now) }
    ensures scope { OnOk result (scope.new ≡ (statement_code checked.now statement.now
        scope.old).behind) }
    ensures slots { OnOk result (scope.new.next ≡ scope.old.next + declared_count statement.now) }
{
    match statement {
        Stmt::Let(name, value) => put_declaration(checked, scope, name, value, out),
        Stmt::Assign(place, value) => put_assignment(checked, scope, place, value, out),
        Stmt::If(condition, block, other) => {
            put_expression(checked, scope, condition, out)?;
            let block = block_code(alloc, checked, scope, out.end + 2, block.as_slice())?;
            match other {
                None => put_when(out, block),
                Some(other) => {
                    let other = block_code(alloc, checked, scope, block.end + 2, other.as_slice())?;
                    put_choice(out, block, other)
                }
            }
        }
        Stmt::Repeat(name, count, block) => {
            let slot = scope.next();
            let turn = loop_block_code(
                alloc,
                checked,
                scope,
                name,
                out.end + 11,
                block.as_slice(),
            )?;
            put_loop(out, slot, *count, turn)
        }
        Stmt::Next(name) => out.push(Instr::Next(checked.task_of(&name.text).unwrap_or(0))),
        Stmt::Halt(_) => out.push(Instr::Halt),
        Stmt::Give(values, _) => put_give(checked, scope, values.as_slice(), out),
    }
}

/// The code of a block at a word. Its locals leave with it.
#[cycle(statement)]
fn block_code<'a>(
    alloc: Global,
    checked: &Checked,
    scope: &mut Scope<'a>,
    at: u16,
    block: &'a [Stmt],
) -> Result<Segment, OutOfMemory>
    requires words { at + statements_words block.now ≤ 50000 }
    requires slots { scope.old.next + declared_counts block.now ≤ 32 }
    ensures code { IfOk result (λ code. code.instrs.items
        ≡ (statements_code checked.now block.now scope.old).code at) }
    ensures end { IfOk result (λ code. code.end ≡ at + statements_words block.now) }
    ensures scope { OnOk result (scope.new ≡ behind_block scope.old
        (statements_code checked.now block.now scope.old).behind) }
    ensures slots { OnOk result (scope.new.next ≡ scope.old.next + declared_counts block.now) }
{
    let mut inner = scope.within(alloc)?;
    let mut code = Segment::new(alloc, at);
    put_statements(alloc, checked, &mut inner, block, &mut code)?;
    scope.pass(inner);
    Ok(code)
}

/// The code of a loop's block at a word. The loop's name leaves with its locals.
#[cycle(statement)]
fn loop_block_code<'a>(
    alloc: Global,
    checked: &Checked,
    scope: &mut Scope<'a>,
    name: &'a Name,
    at: u16,
    block: &'a [Stmt],
) -> Result<Segment, OutOfMemory>
    requires words { at + statements_words block.now ≤ 50000 }
    requires slots { scope.old.next + 1 + declared_counts block.now ≤ 32 }
    ensures code { IfOk result (λ code. code.instrs.items
        ≡ (statements_code checked.now block.now (declare name.now.text scope.old)).code at) }
    ensures end { IfOk result (λ code. code.end ≡ at + statements_words block.now) }
    ensures scope { OnOk result (scope.new ≡ behind_block scope.old
        (statements_code checked.now block.now (declare name.now.text scope.old)).behind) }
    ensures slots { OnOk result (scope.new.next ≡ scope.old.next + 1 + declared_counts block.now) }
{
    let mut inner = scope.within(alloc)?;
    inner.declare(name)?;
    let mut code = Segment::new(alloc, at);
    put_statements(alloc, checked, &mut inner, block, &mut code)?;
    scope.pass(inner);
    Ok(code)
}

/// Appends the code of statements, and goes on in the scope behind them.
#[cycle(statement)]
pub(crate) fn put_statements<'a>(
    alloc: Global,
    checked: &Checked,
    scope: &mut Scope<'a>,
    block: &'a [Stmt],
    out: &mut Segment,
) -> Result<(), OutOfMemory>
    requires words { out.old.end + statements_words block.now ≤ 50000 }
    requires slots { scope.old.next + declared_counts block.now ≤ 32 }
    ensures code { OnOk result (out.new.instrs.items ≡ out.old.instrs.items
        ++ (statements_code checked.now block.now scope.old).code out.old.end) }
    ensures end { OnOk result (out.new.end ≡ out.old.end + statements_words block.now) }
    ensures scope { OnOk result (scope.new ≡ (statements_code checked.now block.now
        scope.old).behind) }
    ensures slots { OnOk result (scope.new.next ≡ scope.old.next + declared_counts block.now) }
{
    for statement in block {
        put_statement(alloc, checked, scope, statement, out)?;
    }
    Ok(())
}

/// Appends the code of a value and of the declaration that takes it.
fn put_declaration<'a>(
    checked: &Checked,
    scope: &mut Scope<'a>,
    name: &'a Name,
    value: &Expr,
    out: &mut Segment,
) -> Result<(), OutOfMemory>
    requires words { out.old.end + expression_words value.now + 2 ≤ 50000 }
    requires slots { scope.old.next < 32 }
    ensures code { OnOk result (out.new.instrs.items ≡ out.old.instrs.items
        ++ (expression_code checked.now value.now scope.old.locals ++ SetL scope.old.next ∷ [])) }
    ensures end { OnOk result (out.new.end ≡ out.old.end + expression_words value.now + 2) }
    ensures scope { OnOk result (scope.new ≡ declare name.now.text scope.old) }
{
    put_expression(checked, scope, value, out)?;
    out.push(Instr::SetL(scope.next()))?;
    scope.declare(name)
}

/// Appends the code of a value that is stored at a place: an index stands before the value.
fn put_assignment(
    checked: &Checked,
    scope: &Scope,
    place: &Place,
    value: &Expr,
    out: &mut Segment,
) -> Result<(), OutOfMemory>
    requires { out.old.end + access_words place.now + expression_words value.now ≤ 50000 }
    ensures code { OnOk result (out.new.instrs.items ≡ out.old.instrs.items
        ++ storing checked.now (place_code checked.now place.now scope.now.locals)
        (expression_code checked.now value.now scope.now.locals)) }
    ensures end { OnOk result (out.new.end ≡ out.old.end + access_words place.now
        + expression_words value.now) }
{
    match place {
        Place::Plain(name) => {
            put_expression(checked, scope, value, out)?;
            let access = plain_access(checked, scope, name);
            out.push(access.store)
        }
        Place::Item(name, index) => {
            let index = index.get();
            put_expression(checked, scope, index, out)?;
            put_expression(checked, scope, value, out)?;
            let access = item_access(checked, name);
            out.push(access.store)
        }
    }
}

/// Appends the code of a message.
#[tactic(auto, using(crate::proofs::CodeSizes::few_expressions))]
fn put_give(
    checked: &Checked,
    scope: &Scope,
    values: &[Expr],
    out: &mut Segment,
) -> Result<(), OutOfMemory>
    requires { out.old.end + expressions_words values.now + 2 ≤ 50000 }
    ensures code { OnOk result (out.new.instrs.items ≡ out.old.instrs.items
        ++ (expressions_code checked.now values.now scope.now.locals
        ++ Give (length values.now) ∷ [])) }
    ensures end { OnOk result (out.new.end ≡ out.old.end + expressions_words values.now + 2) }
{
    put_expressions(checked, scope, values, out)?;
    out.push(Instr::Give(values.len() as u16))
}
