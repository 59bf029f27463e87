ghost use Rattle.std.specs.Prelude.{◌≡◌, ◌++◌, IfOk, OnOk, flat_map};
ghost use Rattle.task_syntax.specs.Names.{tasks};
ghost use Rattle.coati_top.specs.CheckText.{bounds_line, check_text, cost_line, event_line, task_line};

use coati_word::OutOfMemory;
use std::alloc::Global;
use task_check::Checked;
use task_cost::{Bounds, body_cost, bounds};
use task_syntax::BodyId;
use trace_out::{put, put_number, put_number_line};

/// What is said of an accepted program: its words, its buffer, what its tasks and events cost, and
/// its bounds.
pub(crate) fn check_text(alloc: Global, checked: &Checked) -> Result<Vec<u8>, OutOfMemory>
    ensures { IfOk result (λ text. text.items ≡ check_text checked.now) }
{
    let mut out = Vec::from_slice(alloc, b"accepted\n")?;
    put_number_line(&mut out, b"words", u32::from(checked.words()))?;
    put_number_line(&mut out, b"buffer", u32::from(checked.buffer()))?;
    put_tasks(&mut out, checked)?;
    put_events(&mut out, checked)?;
    put_bounds(&mut out, bounds(checked))?;
    Ok(out)
}

/// Appends a line for each task, by number.
fn put_tasks(out: &mut Vec<u8>, checked: &Checked) -> Result<(), OutOfMemory>
    ensures { OnOk result (out.new.items ≡ out.old.items
        ++ flat_map (task_line checked.now) (tasks checked.now)) }
{
    for number in 0..checked.tasks() {
        let name = checked.task(number).name.text.as_slice();
        put_cost(out, b"task", name, body_cost(checked, BodyId::Task(number)))?;
    }
    Ok(())
}

/// Appends a line for each event, by number.
fn put_events(out: &mut Vec<u8>, checked: &Checked) -> Result<(), OutOfMemory>
    ensures { OnOk result (out.new.items ≡ out.old.items
        ++ flat_map (event_line checked.now) checked.now.events) }
{
    for number in 0..checked.events() {
        let name = checked.event(number).name.text.as_slice();
        let cost = body_cost(checked, BodyId::Top(number))
            + body_cost(checked, BodyId::Bottom(number));
        put_cost(out, b"event", name, cost)?;
    }
    Ok(())
}

/// Appends the line that says what a task or an event costs.
fn put_cost(out: &mut Vec<u8>, kind: &[u8], name: &[u8], cost: u32) -> Result<(), OutOfMemory>
    ensures { OnOk result (out.new.items ≡ out.old.items ++ cost_line kind.now name.now cost) }
{
    put(out, kind)?;
    put(out, b" ")?;
    put(out, name)?;
    put_number(out, b" cost", cost)?;
    put(out, b"\n")
}

/// Appends the line of the bounds.
fn put_bounds(out: &mut Vec<u8>, bounds: Bounds) -> Result<(), OutOfMemory>
    ensures { OnOk result (out.new.items ≡ out.old.items ++ bounds_line bounds) }
{
    put_number(out, b"bounds", bounds.c)?;
    put_number(out, b"", bounds.a)?;
    put_number(out, b"", bounds.b)?;
    put_number(out, b"", bounds.h)?;
    put(out, b"\n")
}
