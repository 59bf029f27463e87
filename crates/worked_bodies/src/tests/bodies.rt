ghost use Rattle.std.specs.Prelude.{◌≡◌, ◌<◌, ◌≤◌, IfOk, length};
ghost use Rattle.task_syntax.specs.Names.{tasks, word_count};
ghost use Rattle.worked_bodies.specs.Bodies.{HasBodyFor};

use super::accepted;
use crate::{Compiled, Ran};
use coati_word::{Ending, Message, Reading};
use serial_run::{Outcome, SerialStore};
use std::alloc::Global;
use std::process::Abort;
use std::test::Fail;
use task_syntax::BodyId;

const SOURCES: [&str; 11] = [
    "nv n = 0; task main { n = n + 1; if n < 3 { next main; } else { halt; } }",
    "nv n; task main { n = n + 1; next main; }",
    "nv a = 1; transaction t { task p { a = a + 1; next q; } task q { a = a * 10; halt; } }",
    "nv a = 1; nv b = 0; buffer 1; event e(v) { top { give v + 1; } bottom(x) { b = a + x; } } \
        transaction t { task p { a = a + 1; next q; } task q { a = a * 10; halt; } }",
    "nv a = 1; nv b = 0; buffer 2; event e(v) { top { give v; } bottom(x) { a = x; } } \
        transaction t { task p { b = a; next q; } task q { b = b + 1; halt; } }",
    "nv n; transaction t { task p { n = n + 1; if n < 4 { next p; } else { halt; } } }",
    "nv a = 1; nv b = 0; buffer 2; event e(v) { top { give v; } bottom(x) { a = x; } } \
        transaction t { task p { a = 5; next q; } task q { b = a; halt; } }",
    "nv a = 1; nv b = 0; buffer 2; event e(v) { top { give v; } bottom(x) { a = a + x; } } \
        task p { b = b + 1; halt; }",
    "nv a = 1; nv b = 2; buffer 2; event e(v) { top { give v; } bottom(x) { b = a + x; } } \
        task p { a = 7; b = 8; halt; }",
    "nv a[8] = {10,11,12,13,14,15,16,17}; nv r[5]; task m { r[0] = a[9]; r[1] = 7 / 0; \
        r[2] = 1 << 16; r[3] = 65535 + 1; r[4] = 7 % 0; halt; }",
    "nv s[16]; nv w; nv sum; nv left = 2; buffer 4; \
        event tick(v) { top { give v, v >> 2; } bottom(x, y) { s[w] = x + y; w = w + 1; } } \
        task start { left = left - 1; next add; } \
        transaction mean { task add { sum = 0; repeat i < 16 { sum = sum + s[i]; } next put; } \
        task put { sum = sum >> 4; if left == 0 { halt; } else { next start; } } }",
];

/// The program of a source, with its code.
fn compiled(rt: &impl Abort, alloc: Global, source: &str) -> Result<Compiled, Fail> {
    let checked = accepted(rt, alloc, source.as_bytes())?;
    Ok(Compiled::new(alloc, checked)?)
}

/// Runs a body over both views, which come to the same, and answers what it did and the words that
/// it left.
fn run_on_both(
    rt: &impl Abort,
    alloc: Global,
    compiled: &Compiled,
    body: BodyId,
    params: &[u16],
) -> Result<(Ran, Vec<u16>), Fail>
    requires body { HasBodyFor compiled.now.checked body params.now }
    requires few { length params.now ≤ 4 }
    ensures { IfOk result (λ ran. length ran.1.items ≡ word_count compiled.now.checked.vars) }
{
    let mut plain = compiled.plain(alloc)?;
    let ran = compiled.run(alloc, body, params, &mut plain)?;
    let mut noted = compiled.noted(alloc)?;
    let other = compiled.run(alloc, body, params, &mut noted)?;
    assert_eq!(rt; other.ending, ran.ending);
    assert_eq!(rt; other.readings.as_slice(), ran.readings.as_slice());
    assert_eq!(rt; noted.words.as_slice(), plain.words.as_slice());
    Ok((ran, plain.words))
}

/// The machine does in a task what the evaluator does.
fn compare_task(rt: &impl Abort, alloc: Global, compiled: &Compiled, task: u16) -> Result<(), Fail>
    requires { task < length (tasks compiled.now.checked) }
{
    let _task = compiled.checked.task(task);
    let ran = run_on_both(rt, alloc, compiled, BodyId::Task(task), &[])?;
    let opening = SerialStore::opening(alloc, &compiled.checked)?;
    let evaluated = opening.run_task(&compiled.checked, task)?;
    compare(rt, compiled, ran, evaluated)
}

/// The machine does in the two halves of an event what the evaluator does.
fn compare_event(
    rt: &impl Abort,
    alloc: Global,
    compiled: &Compiled,
    event: u16,
    argument: u16,
) -> Result<(), Fail>
    requires { event < length compiled.now.checked.events }
{
    let declared = compiled.checked.event(event);
    let (top, _) = run_on_both(rt, alloc, compiled, BodyId::Top(event), &[argument])?;
    let message = given(rt, top.ending);
    let words = message.as_slice();
    assert!(rt; words.len() == declared.params.len());
    let ran = run_on_both(rt, alloc, compiled, BodyId::Bottom(event), words)?;
    let opening = SerialStore::opening(alloc, &compiled.checked)?;
    let evaluated = opening.run_event(&compiled.checked, event, argument)?;
    compare(rt, compiled, ran, evaluated)
}

fn compare(
    rt: &impl Abort,
    compiled: &Compiled,
    ran: (Ran, Vec<u16>),
    evaluated: (SerialStore, Outcome),
) -> Result<(), Fail>
    requires words { length ran.1.items ≡ word_count compiled.now.checked.vars }
    requires store { length evaluated.0 ≡ word_count compiled.now.checked.vars }
{
    let (ran, words) = ran;
    let (store, outcome) = evaluated;
    assert_eq!(rt; ran.ending, outcome.ending);
    assert_eq!(rt; ran.readings.as_slice(), outcome.readings.as_slice());
    for word in 0..compiled.checked.words() {
        assert_eq!(rt; words[usize::from(word)], store.get(word), "word {word}");
    }
    Ok(())
}

/// The message that a top half gave.
fn given(rt: &impl Abort, ending: Ending) -> Message {
    match ending {
        Ending::Given(message) => message,
        _ => panic!(rt; "a top half gives a message"),
    }
}

#[test]
fn the_machine_does_what_the_evaluator_does(rt: HostRuntime) -> Result<(), Fail> {
    for source in SOURCES {
        let compiled = compiled(&rt, rt.alloc(), source)?;
        for task in 0..compiled.checked.tasks() {
            compare_task(&rt, rt.alloc(), &compiled, task)?;
        }
        for event in 0..compiled.checked.events() {
            for argument in [0, 5, 65535] {
                compare_event(&rt, rt.alloc(), &compiled, event, argument)?;
            }
        }
    }
    Ok(())
}

#[test]
fn a_store_is_one_step_or_three(rt: HostRuntime) -> Result<(), Fail> {
    let alloc = rt.alloc();
    let compiled = compiled(
        &rt,
        alloc,
        "nv n = 65535; nv m = 9; nv a[3] = {9, 9, 9}; task t { m = n + 3; a[5] = 7; n = a[8]; halt; }",
    )?;
    assert!(rt; compiled.checked.tasks() == 1);
    let _task = compiled.checked.task(0);
    let readings = [
        Reading {
            word: 0,
            value: 65535,
        },
        Reading { word: 4, value: 7 },
    ];
    let mut plain = compiled.plain(alloc)?;
    let ran = compiled.run(alloc, BodyId::Task(0), &[], &mut plain)?;
    assert_eq!(rt; ran.steps, 11);
    assert_eq!(rt; ran.ending, Ending::Halt);
    assert_eq!(rt; ran.readings.as_slice(), readings.as_slice());
    assert_eq!(rt; plain.words.as_slice(), [7, 2, 9, 9, 7].as_slice());

    let mut noted = compiled.noted(alloc)?;
    let ran = compiled.run(alloc, BodyId::Task(0), &[], &mut noted)?;
    assert_eq!(rt; ran.steps, 17);
    assert_eq!(rt; ran.ending, Ending::Halt);
    assert_eq!(rt; ran.readings.as_slice(), readings.as_slice());
    assert_eq!(rt; noted.words.as_slice(), [7, 2, 9, 9, 7].as_slice());
    assert_eq!(rt; noted.loads, 2);
    Ok(())
}
