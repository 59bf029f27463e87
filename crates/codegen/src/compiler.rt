ghost use Rattle.std.specs.Prelude.{◌≡◌, [], ◌∷◌, All, IfOk, OnOk, flat_map, map};
ghost use Rattle.task_syntax.specs.declared.body.Kind.TheVariants as kind;
ghost use Rattle.task_syntax.specs.declared.program.Event.{Event};
ghost use Rattle.task_syntax.specs.declared.program.TaskDecl.{TaskDecl};
ghost use Rattle.task_syntax.specs.declared.program.UnitDecl.{UnitDecl};
ghost use Rattle.task_syntax.specs.Names.{tasks_of_unit};
ghost use Rattle.codegen.specs.Bodies.{program_code};
ghost use Rattle.codegen.specs.Compiling.{with_bodies};
ghost use Rattle.codegen.specs.Fit.{Fits};
ghost use Rattle.codegen.specs.Templates.{body_words, half_words, task_words};

use crate::emitter::body_words;
use crate::laws::accepted_bodies_fit;
use coati_word::OutOfMemory;
use std::alloc::Global;
use std::slice;
use task_check::Checked;
use task_syntax::{Event, Kind, Name, Stmt, TaskDecl, UnitDecl};
use word_code::Code;

/// The code of a program: exactly the words of the templates, body by body. It is refused only
/// where memory is.
pub fn compile(alloc: Global, checked: &Checked) -> Result<Code, OutOfMemory>
    ensures { IfOk result (λ code. code ≡ program_code checked.now) }
{
    accepted_bodies_fit();
    let program = checked.program();
    let mut code = Code::new(alloc, checked.tasks());
    put_units(alloc, checked, program.units.as_slice(), &mut code)?;
    put_events(alloc, checked, program.events.as_slice(), &mut code)?;
    Ok(code)
}

/// Adds the bodies of the units' tasks.
fn put_units(
    alloc: Global,
    checked: &Checked,
    units: &[UnitDecl],
    code: &mut Code,
) -> Result<(), OutOfMemory>
    requires { All (λ (unit : UnitDecl). All (λ (task : TaskDecl). Fits checked.now kind.Task []
        task.body) (tasks_of_unit unit)) units.now }
    ensures { OnOk result (code.new ≡ with_bodies
        (map (task_words checked.now) (flat_map tasks_of_unit units.now)) code.old) }
{
    for unit in units {
        put_tasks(alloc, checked, unit.tasks(), code)?;
    }
    Ok(())
}

/// Adds the bodies of tasks.
fn put_tasks(
    alloc: Global,
    checked: &Checked,
    tasks: &[TaskDecl],
    code: &mut Code,
) -> Result<(), OutOfMemory>
    requires { All (λ (task : TaskDecl). Fits checked.now kind.Task [] task.body) tasks.now }
    ensures { OnOk result (code.new ≡ with_bodies (map (task_words checked.now) tasks.now)
        code.old) }
{
    for task in tasks {
        put_body(alloc, checked, Kind::Task, &[], task.body.as_slice(), code)?;
    }
    Ok(())
}

/// Adds the halves of events.
fn put_events(
    alloc: Global,
    checked: &Checked,
    events: &[Event],
    code: &mut Code,
) -> Result<(), OutOfMemory>
    requires tops { All (λ (event : Event). Fits checked.now kind.Top (event.argument
        ∷ []) event.top) events.now }
    requires bottoms { All (λ (event : Event). Fits checked.now kind.Bottom event.params
        event.bottom) events.now }
    ensures { OnOk result (code.new ≡ with_bodies (flat_map (half_words checked.now) events.now)
        code.old) }
{
    for event in events {
        put_halves(alloc, checked, event, code)?;
    }
    Ok(())
}

/// Adds the top half and the bottom half of an event.
fn put_halves(
    alloc: Global,
    checked: &Checked,
    event: &Event,
    code: &mut Code,
) -> Result<(), OutOfMemory>
    requires top { Fits checked.now kind.Top (event.now.argument ∷ []) event.now.top }
    requires bottom { Fits checked.now kind.Bottom event.now.params event.now.bottom }
    ensures { OnOk result (code.new ≡ with_bodies (half_words checked.now event.now) code.old) }
{
    let argument = slice::from_ref(&event.argument);
    let top = event.top.as_slice();
    put_body(alloc, checked, Kind::Top, argument, top, code)?;
    let params = event.params.as_slice();
    let bottom = event.bottom.as_slice();
    put_body(alloc, checked, Kind::Bottom, params, bottom, code)
}

/// Adds a body.
fn put_body(
    alloc: Global,
    checked: &Checked,
    kind: Kind,
    params: &[Name],
    body: &[Stmt],
    code: &mut Code,
) -> Result<(), OutOfMemory>
    requires { Fits checked.now kind params.now body.now }
    ensures { OnOk result (code.new ≡ with_bodies (body_words checked.now kind params.now body.now
        ∷ []) code.old) }
{
    let words = body_words(alloc, checked, kind, params, body)?;
    code.push(&words)
}
