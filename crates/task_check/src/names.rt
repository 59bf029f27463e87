ghost use Rattle.std.specs.Prelude.{◌≡◌, OnOk, IfOk, map};
ghost use Rattle.task_check.specs.Mentions.{bodies_part, body_part, declares, declares_all, event_part, globals_part, halves_part, in_turn, task_part, unit_bodies, unit_part, var_meaning, var_part, within, chain, statements_part};
ghost use Rattle.task_check.specs.declared.meaning.Meaning.TheVariants as meaning;
ghost use Rattle.task_check.specs.Walk.{behind};
ghost use Rattle.task_check.specs.Least.{IsLeastOf};
ghost use Rattle.task_check.specs.NameRules.{twice_named_places, unknown_places, wrong_kind_places};

use crate::found::Found;
use crate::meaning::Meaning;
use crate::walk::Walk;
use coati_word::OutOfMemory;
use std::alloc::Global;
use task_syntax::{Event, Name, Program, Stmt, TaskDecl, TxDecl, UnitDecl, Var};

/// Rules 1 to 3: the least places at which the names of a program break them.
pub(crate) fn names(alloc: Global, program: &Program) -> Result<Found, OutOfMemory>
    ensures twice_named { IfOk result (λ found.
        IsLeastOf (twice_named_places program.now) found.twice_named) }
    ensures unknown { IfOk result (λ found. IsLeastOf (unknown_places program.now) found.unknown) }
    ensures wrong_kind { IfOk result (λ found.
        IsLeastOf (wrong_kind_places program.now) found.wrong_kind) }
{
    let mut walk = Walk::new(alloc);
    globals(&mut walk, program)?;
    bodies(&mut walk, program)?;
    Ok(walk.found)
}

/// The global names, in the order of their declarations.
#[tactic(auto, using(crate::proofs::Walking::naming))]
fn globals<'a>(walk: &mut Walk<'a>, program: &'a Program) -> Result<(), OutOfMemory>
    ensures { OnOk result (walk.new ≡ behind (globals_part program.now) walk.old) }
{
    variables(walk, program.vars.as_slice())?;
    events(walk, program.events.as_slice())?;
    units(walk, program.units.as_slice())?;
    Ok(())
}

fn variables<'a>(walk: &mut Walk<'a>, vars: &'a [Var]) -> Result<(), OutOfMemory>
    ensures { OnOk result (walk.new ≡ behind (in_turn (map var_part vars.now)) walk.old) }
{
    for var in vars {
        variable(walk, var)?;
    }
    Ok(())
}

fn variable<'a>(walk: &mut Walk<'a>, var: &'a Var) -> Result<(), OutOfMemory>
    ensures { OnOk result (walk.new ≡ behind (var_part var.now) walk.old) }
{
    walk.declare(&var.name, meaning_of(var))
}

fn meaning_of(var: &Var) -> Meaning
    ensures { result ≡ var_meaning var.now.length }
{
    match var.length {
        None => Meaning::Scalar,
        Some(_) => Meaning::Array,
    }
}

fn events<'a>(walk: &mut Walk<'a>, events: &'a [Event]) -> Result<(), OutOfMemory>
    ensures { OnOk result (walk.new ≡ behind (in_turn (map event_part events.now)) walk.old) }
{
    for event in events {
        walk.declare(&event.name, Meaning::Event)?;
    }
    Ok(())
}

fn units<'a>(walk: &mut Walk<'a>, units: &'a [UnitDecl]) -> Result<(), OutOfMemory>
    ensures { OnOk result (walk.new ≡ behind (in_turn (map unit_part units.now)) walk.old) }
{
    for unit in units {
        declare_unit(walk, unit)?;
    }
    Ok(())
}

#[tactic(auto, using(crate::proofs::Walking::naming))]
fn declare_unit<'a>(walk: &mut Walk<'a>, unit: &'a UnitDecl) -> Result<(), OutOfMemory>
    ensures { OnOk result (walk.new ≡ behind (unit_part unit.now) walk.old) }
{
    match unit {
        UnitDecl::Lone(task) => walk.declare(&task.name, Meaning::Task),
        UnitDecl::Tx(tx) => transaction(walk, tx),
    }
}

/// The name of a transaction, and those of its tasks.
#[tactic(auto, using(crate::proofs::Walking::naming))]
fn transaction<'a>(walk: &mut Walk<'a>, tx: &'a TxDecl) -> Result<(), OutOfMemory>
    ensures { OnOk result (walk.new ≡ behind
        (chain (declares meaning.Transaction tx.now.name) (in_turn (map task_part tx.now.tasks)))
        walk.old) }
{
    walk.declare(&tx.name, Meaning::Transaction)?;
    members(walk, tx.tasks.as_slice())
}

fn members<'a>(walk: &mut Walk<'a>, tasks: &'a [TaskDecl]) -> Result<(), OutOfMemory>
    ensures { OnOk result (walk.new ≡ behind (in_turn (map task_part tasks.now)) walk.old) }
{
    for task in tasks {
        walk.declare(&task.name, Meaning::Task)?;
    }
    Ok(())
}

/// The bodies, each of which sees all global names.
#[tactic(auto, using(crate::proofs::Walking::naming))]
fn bodies<'a>(walk: &mut Walk<'a>, program: &'a Program) -> Result<(), OutOfMemory>
    ensures { OnOk result (walk.new ≡ behind (bodies_part program.now) walk.old) }
{
    halves(walk, program.events.as_slice())?;
    task_bodies(walk, program.units.as_slice())?;
    Ok(())
}

/// The halves of events.
fn halves<'a>(walk: &mut Walk<'a>, events: &'a [Event]) -> Result<(), OutOfMemory>
    ensures { OnOk result (walk.new ≡ behind (in_turn (map halves_part events.now)) walk.old) }
{
    for event in events {
        halves_of(walk, event)?;
    }
    Ok(())
}

#[tactic(auto, using(crate::proofs::Walking::naming))]
fn halves_of<'a>(walk: &mut Walk<'a>, event: &'a Event) -> Result<(), OutOfMemory>
    ensures { OnOk result (walk.new ≡ behind (halves_part event.now) walk.old) }
{
    walk.block_with(&event.argument, event.top.as_slice())?;
    bottom(walk, event.params.as_slice(), event.bottom.as_slice())?;
    Ok(())
}

#[tactic(auto, using(crate::proofs::Walking::naming))]
fn bottom<'a>(walk: &mut Walk<'a>, params: &'a [Name], body: &'a [Stmt]) -> Result<(), OutOfMemory>
    ensures { OnOk result (walk.new
        ≡ behind (within (chain (declares_all meaning.Local params.now)
        (statements_part body.now)))
        walk.old) }
{
    let outside = walk.scope.len();
    parameters(walk, params)?;
    walk.statements(body)?;
    walk.scope.truncate(outside);
    Ok(())
}

fn parameters<'a>(walk: &mut Walk<'a>, params: &'a [Name]) -> Result<(), OutOfMemory>
    ensures { OnOk result (walk.new ≡ behind (declares_all meaning.Local params.now) walk.old) }
{
    for name in params {
        walk.declare(name, Meaning::Local)?;
    }
    Ok(())
}

/// The bodies of tasks.
fn task_bodies<'a>(walk: &mut Walk<'a>, units: &'a [UnitDecl]) -> Result<(), OutOfMemory>
    ensures { OnOk result (walk.new ≡ behind (in_turn (map unit_bodies units.now)) walk.old) }
{
    for unit in units {
        bodies_of(walk, unit)?;
    }
    Ok(())
}

#[tactic(auto, using(crate::proofs::Walking::naming))]
fn bodies_of<'a>(walk: &mut Walk<'a>, unit: &'a UnitDecl) -> Result<(), OutOfMemory>
    ensures { OnOk result (walk.new ≡ behind (unit_bodies unit.now) walk.old) }
{
    match unit {
        UnitDecl::Lone(task) => body(walk, task),
        UnitDecl::Tx(tx) => member_bodies(walk, tx.tasks.as_slice()),
    }
}

fn member_bodies<'a>(walk: &mut Walk<'a>, tasks: &'a [TaskDecl]) -> Result<(), OutOfMemory>
    ensures { OnOk result (walk.new ≡ behind (in_turn (map body_part tasks.now)) walk.old) }
{
    for task in tasks {
        body(walk, task)?;
    }
    Ok(())
}

fn body<'a>(walk: &mut Walk<'a>, task: &'a TaskDecl) -> Result<(), OutOfMemory>
    ensures { OnOk result (walk.new ≡ behind (body_part task.now) walk.old) }
{
    walk.block(task.body.as_slice())
}
