ghost use Rattle.std.specs.Prelude.{◌≡◌, ◌≤◌, length, IfOk, IsTrue, None, OnOk};
ghost use Rattle.task_syntax.specs.Expressions.{expressions};
ghost use Rattle.task_syntax.specs.Statements.{assigned, next_task, statement, statements, turns};
ghost use Rattle.task_syntax.specs.Names.{task_of};
ghost use Rattle.task_check.specs.Messages.{statement_gives, statements_give};
ghost use Rattle.serial_run.specs.Aims.{IsAimWithin, aim_of};
ghost use Rattle.serial_run.specs.Locals.{locals_of};
ghost use Rattle.serial_run.specs.Moments.{behind, end_of};
ghost use Rattle.serial_run.specs.Runs.{IsRunOf, moment_of};
ghost use Rattle.serial_run.specs.Ways.{way_of};

use crate::expression::{aim, evaluate};
use crate::locals::Locals;
use crate::run::Run;
use crate::target::Target;
use coati_word::{Ending, Message, OutOfMemory};
use task_check::Checked;
use task_syntax::{Expr, Name, Stmt};

/// Runs a statement. The ending is there where it ended the body.
#[cycle(statement)]
pub(crate) fn statement<'p>(
    checked: &Checked,
    locals: &mut Locals<'p>,
    run: &mut Run,
    source: &'p Stmt,
) -> Result<Option<Ending>, OutOfMemory>
    requires run { IsRunOf checked.now run.old }
    requires gives { IsTrue (statement_gives source.now) }
    ensures way { IfOk result (λ ending. way_of ending (locals_of locals.new)
        ≡ end_of (statement checked.now source.now (locals_of locals.old)) (moment_of run.old)) }
    ensures still { OnOk result (IsRunOf checked.now run.new) }
    ensures moment { OnOk result (moment_of run.new
        ≡ behind (statement checked.now source.now (locals_of locals.old)) (moment_of run.old)) }
{
    match source {
        Stmt::Let(name, value) => {
            let value = evaluate(checked, locals, run, value)?;
            locals.set(&name.text, value)?;
            Ok(None)
        }
        Stmt::Assign(place, value) => {
            let target = aim(checked, locals, run, place)?;
            let value = evaluate(checked, locals, run, value)?;
            assign(checked, locals, run, target, value)?;
            Ok(None)
        }
        Stmt::If(condition, block, other) => {
            let value = evaluate(checked, locals, run, condition)?;
            if value != 0 {
                return statements(checked, locals, run, block.as_slice());
            }
            match other {
                Some(other) => statements(checked, locals, run, other.as_slice()),
                None => Ok(None),
            }
        }
        Stmt::Repeat(name, count, block) => {
            repeat(checked, locals, run, name, *count, block.as_slice())
        }
        Stmt::Next(name) => Ok(Some(next(checked, name))),
        Stmt::Halt(_) => Ok(Some(Ending::Halt)),
        Stmt::Give(values, _) => {
            let message = give(checked, locals, run, values.as_slice())?;
            Ok(Some(Ending::Given(message)))
        }
    }
}

/// Runs statements, one after another, until one has ended the body.
#[cycle(statement)]
pub(crate) fn statements<'p>(
    checked: &Checked,
    locals: &mut Locals<'p>,
    run: &mut Run,
    block: &'p [Stmt],
) -> Result<Option<Ending>, OutOfMemory>
    requires run { IsRunOf checked.now run.old }
    requires gives { IsTrue (statements_give block.now) }
    ensures way { IfOk result (λ ending. way_of ending (locals_of locals.new)
        ≡ end_of (statements checked.now block.now (locals_of locals.old)) (moment_of run.old)) }
    ensures still { OnOk result (IsRunOf checked.now run.new) }
    ensures moment { OnOk result (moment_of run.new
        ≡ behind (statements checked.now block.now (locals_of locals.old)) (moment_of run.old)) }
{
    for source in block {
        if let Some(ending) = statement(checked, locals, run, source)? {
            return Ok(Some(ending));
        }
    }
    Ok(None)
}

/// Runs the turns of a loop, until one has ended the body.
#[cycle(statement)]
fn repeat<'p>(
    checked: &Checked,
    locals: &mut Locals<'p>,
    run: &mut Run,
    name: &'p Name,
    count: u16,
    block: &'p [Stmt],
) -> Result<Option<Ending>, OutOfMemory>
    requires run { IsRunOf checked.now run.old }
    requires gives { IsTrue (statements_give block.now) }
    ensures way { IfOk result (λ ending. way_of ending (locals_of locals.new) ≡ end_of
        (turns count 0 name.now.text (statements checked.now block.now) (locals_of locals.old))
        (moment_of run.old)) }
    ensures still { OnOk result (IsRunOf checked.now run.new) }
    ensures moment { OnOk result (moment_of run.new ≡ behind
        (turns count 0 name.now.text (statements checked.now block.now) (locals_of locals.old))
        (moment_of run.old)) }
{
    for turn in 0..count {
        locals.set(&name.text, turn)?;
        if let Some(ending) = statements(checked, locals, run, block)? {
            return Ok(Some(ending));
        }
    }
    Ok(None)
}

/// Assigns a value to a place.
#[tactic(auto, using(crate::proofs::Steps::steps))]
fn assign<'p>(
    checked: &Checked,
    locals: &mut Locals<'p>,
    run: &mut Run,
    target: Target<'p>,
    value: u16,
) -> Result<(), OutOfMemory>
    requires run { IsRunOf checked.now run.old }
    requires within { IsAimWithin checked.now (aim_of target) }
    ensures way { OnOk result (way_of None (locals_of locals.new) ≡ end_of
        (assigned (locals_of locals.old) (aim_of target.entry) value) (moment_of run.old)) }
    ensures still { OnOk result (IsRunOf checked.now run.new) }
    ensures moment { OnOk result (moment_of run.new ≡ behind
        (assigned (locals_of locals.old) (aim_of target.entry) value) (moment_of run.old)) }
{
    match target {
        Target::Local(name) => locals.set(name, value),
        Target::Word(word) => {
            run.store(word, value);
            Ok(())
        }
    }
}

/// The ending that goes on with a task.
fn next(checked: &Checked, name: &Name) -> Ending
    ensures { result ≡ next_task (task_of checked.now name.now.text) }
{
    match checked.task_of(&name.text) {
        None => Ending::Halt,
        Some(task) => Ending::Next(task),
    }
}

/// The values of expressions, one after another.
fn give(
    checked: &Checked,
    locals: &Locals,
    run: &mut Run,
    values: &[Expr],
) -> Result<Message, OutOfMemory>
    requires run { IsRunOf checked.now run.old }
    requires few { length values.now ≤ 4 }
    ensures words { IfOk result (λ message. message
        ≡ end_of (expressions checked.now values.now (locals_of locals.now)) (moment_of run.old)) }
    ensures still { OnOk result (IsRunOf checked.now run.new) }
    ensures moment { OnOk result (moment_of run.new
        ≡ behind (expressions checked.now values.now (locals_of locals.now)) (moment_of run.old)) }
{
    let mut words = [0u16; 4];
    for (at, value) in values.iter().enumerate() {
        words[at] = evaluate(checked, locals, run, value)?;
    }
    Ok(Message::new(&words[..values.len()]))
}
