ghost use Rattle.std.specs.Prelude.{◌≡◌, ◌<◌, IfOk, IsTrue, OnOk, length};
ghost use Rattle.task_syntax.specs.Events.{event_course, message, message_of, with_words};
ghost use Rattle.task_check.specs.Messages.{statements_give};
ghost use Rattle.serial_run.specs.Locals.{locals_of};
ghost use Rattle.serial_run.specs.Moments.{behind, end_of};
ghost use Rattle.serial_run.specs.Runs.{IsRunOf, moment_of};

use crate::body::run_body;
use crate::locals::Locals;
use crate::run::Run;
use coati_word::{Ending, Message, OutOfMemory};
use std::alloc::Global;
use task_check::Checked;
use task_syntax::{Event, Name};

/// Runs the two halves of an event.
pub(crate) fn run_halves(
    alloc: Global,
    checked: &Checked,
    run: &mut Run,
    event: u16,
    argument: u16,
) -> Result<Ending, OutOfMemory>
    requires run { IsRunOf checked.now run.old }
    requires event { event < length checked.now.events }
    ensures ending { IfOk result (λ ending. ending
        ≡ end_of (event_course checked.now event argument) (moment_of run.old)) }
    ensures still { OnOk result (IsRunOf checked.now run.new) }
    ensures moment { OnOk result (moment_of run.new
        ≡ behind (event_course checked.now event argument) (moment_of run.old)) }
{
    let declared = &checked.program().events.as_slice()[event as usize];
    let message = message(alloc, checked, declared, argument)?;
    let mut locals = Locals::new(alloc);
    set_all(&mut locals, declared.params.as_slice(), message.as_slice())?;
    run_body(checked, &mut locals, run, declared.bottom.as_slice())
}

/// What the top half of an event gives on an argument.
fn message(
    alloc: Global,
    checked: &Checked,
    event: &Event,
    argument: u16,
) -> Result<Message, OutOfMemory>
    requires gives { IsTrue (statements_give event.now.top) }
    ensures { IfOk result (λ words. words ≡ message checked.now event.now argument) }
{
    let words = usize::from(checked.words());
    let blank = Vec::from_elem(alloc, 0, words)?;
    let mut run = Run::reading(alloc, blank);
    let mut locals = Locals::new(alloc);
    locals.set(&event.argument.text, argument)?;
    let ending = run_body(checked, &mut locals, &mut run, event.top.as_slice())?;
    Ok(message_of(ending))
}

/// The words that a top half gives.
fn message_of(ending: Ending) -> Message
    ensures { result ≡ message_of ending }
{
    match ending {
        Ending::Given(message) => message,
        Ending::Next(_) | Ending::Halt | Ending::Done => Message::new(&[]),
    }
}

/// Lets names stand for words, each for one.
fn set_all<'p>(locals: &mut Locals<'p>, names: &'p [Name], words: &[u16]) -> Result<(), OutOfMemory>
    ensures { OnOk result (locals_of locals.new
        ≡ with_words names.now words.now (locals_of locals.old)) }
{
    for at in 0..names.len().min(words.len()) {
        locals.set(&names[at].text, words[at])?;
    }
    Ok(())
}
