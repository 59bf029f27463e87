ghost use Rattle.std.specs.Prelude.{◌≡◌, ◌≤◌, ◌++◌, IfOk, OnOk, IsSome, Some, flat_map, length, slice_get};
ghost use Rattle.task_syntax.specs.Names.{tasks};
ghost use Rattle.task_check.specs.Bodies.{BodyRead};
ghost use Rattle.codegen.specs.Bodies.{body_of, program_code, words_of_body};
ghost use Rattle.codegen.specs.Listing.{body_lines, event_lines, listing, task_lines};

use crate::laws::{accepted_bodies_fit, bodies_stand_by_number};
use crate::line::{put, put_field, put_lines};
use coati_word::OutOfMemory;
use std::alloc::Global;
use task_check::Checked;
use task_syntax::{BodyId, Event, Name, TaskDecl};
use word_code::Code;

/// The listing of a program's code: for each body a line with its kind and its name, and then a
/// line for each instruction. It is refused only where memory is.
pub fn listing(alloc: Global, checked: &Checked, code: &Code) -> Result<Vec<u8>, OutOfMemory>
    requires { code.now ≡ program_code checked.now }
    ensures { IfOk result (λ text. text.items ≡ listing checked.now) }
{
    let mut out = Vec::new(alloc);
    put_tasks(&mut out, checked, code)?;
    put_events(&mut out, checked, code)?;
    Ok(out)
}

fn put_tasks(out: &mut Vec<u8>, checked: &Checked, code: &Code) -> Result<(), OutOfMemory>
    requires { code.now ≡ program_code checked.now }
    ensures { OnOk result (out.new.items ≡ out.old.items
        ++ flat_map (task_lines checked.now) (tasks checked.now)) }
{
    for number in 0..checked.tasks() {
        put_task(out, checked, code, number, checked.task(number))?;
    }
    Ok(())
}

fn put_task(
    out: &mut Vec<u8>,
    checked: &Checked,
    code: &Code,
    number: u16,
    task: &TaskDecl,
) -> Result<(), OutOfMemory>
    requires code { code.now ≡ program_code checked.now }
    requires task { slice_get (tasks checked.now) number ≡ Some task.now }
    ensures { OnOk result (out.new.items ≡ out.old.items ++ task_lines checked.now task.now) }
{
    let words = words_of(checked, code, BodyId::Task(number));
    put_body(out, b"task", &task.name, words)
}

fn put_events(out: &mut Vec<u8>, checked: &Checked, code: &Code) -> Result<(), OutOfMemory>
    requires { code.now ≡ program_code checked.now }
    ensures { OnOk result (out.new.items ≡ out.old.items
        ++ flat_map (event_lines checked.now) checked.now.events) }
{
    for number in 0..checked.events() {
        put_event(out, checked, code, number, checked.event(number))?;
    }
    Ok(())
}

fn put_event(
    out: &mut Vec<u8>,
    checked: &Checked,
    code: &Code,
    number: u16,
    event: &Event,
) -> Result<(), OutOfMemory>
    requires code { code.now ≡ program_code checked.now }
    requires event { slice_get checked.now.events number ≡ Some event.now }
    ensures { OnOk result (out.new.items ≡ out.old.items ++ event_lines checked.now event.now) }
{
    let top = words_of(checked, code, BodyId::Top(number));
    put_body(out, b"top", &event.name, top)?;
    let bottom = words_of(checked, code, BodyId::Bottom(number));
    put_body(out, b"bottom", &event.name, bottom)
}

/// The words of a body of the program.
fn words_of<'a>(checked: &Checked, code: &'a Code, number: BodyId) -> &'a [u16]
    requires code { code.now ≡ program_code checked.now }
    requires body { IsSome (body_of checked.now number) }
    ensures words { (body : BodyRead) → body_of checked.now number ≡ Some body →
        result.now ≡ words_of_body checked.now body }
    ensures few { length result.now ≤ 50000 }
{
    accepted_bodies_fit();
    bodies_stand_by_number();
    let _program = checked.program();
    code.body(number)
}

fn put_body(out: &mut Vec<u8>, kind: &[u8], name: &Name, words: &[u16]) -> Result<(), OutOfMemory>
    requires { length words.now ≤ 50000 }
    ensures { OnOk result (out.new.items ≡ out.old.items
        ++ body_lines kind.now name.now.text words.now) }
{
    put(out, kind)?;
    put_field(out, name.text.as_slice())?;
    put(out, b"\n")?;
    put_lines(out, words)
}
