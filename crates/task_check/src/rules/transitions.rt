ghost use Rattle.std.specs.Prelude.{◌≡◌, ◌+◌, ◌<◌, ◌^◌, flat_map};
ghost use Rattle.task_syntax.specs.Names.{task_from};
ghost use Rattle.task_check.specs.Least.{IsLeastOf, least};
ghost use Rattle.task_check.specs.Transitions.{enters_in_block, enters_in_member, into, into_step, into_tx_places, members, midst_of};
ghost use Rattle.task_check.specs.UnitWalk.{count_with, own_number};
ghost use Rattle.task_check.specs.Within.{bare};

use crate::least::{least_among, lesser};
use crate::within::least_within;
use task_syntax::{NameText, Program, Stmt, TaskDecl, UnitDecl};

/// Rule 10: the least named task that is entered from outside its transaction, though it isn't the
/// first there.
#[tactic(auto, using(crate::proofs::LeastParts::IsLeastOf_least))]
pub(crate) fn least_into_tx(program: &Program) -> Option<u32>
    ensures { IsLeastOf (into_tx_places program.now) result }
{
    least_in_units(program, program.units.as_slice())
}

fn least_in_units(program: &Program, units: &[UnitDecl]) -> Option<u32>
    ensures { result ≡ least (flat_map (enters_in_member program.now) (members 0 units.now)) }
{
    let mut found = None;
    let mut tx = 0;
    for unit in units {
        let own = own_number(unit, tx);
        found = lesser(found, enters_in_tasks(program, own, unit.tasks()));
        tx = count_with(unit, tx);
    }
    found
}

fn enters_in_tasks(program: &Program, own: Option<usize>, tasks: &[TaskDecl]) -> Option<u32>
    ensures { result ≡ least
        (flat_map (λ task. enters_in_member program.now (own, task)) tasks.now) }
{
    least_among(
        tasks,
        |task| enters_in_block(program, own, task.body.as_slice()),
    )
}

/// The transaction that the unit is, where so many stand before it.
pub(crate) fn own_number(unit: &UnitDecl, tx: usize) -> Option<usize>
    ensures { result ≡ own_number unit.now tx }
{
    match unit {
        UnitDecl::Lone(_) => None,
        UnitDecl::Tx(_) => Some(tx),
    }
}

/// How many transactions there are with the unit, where so many stand before it.
pub(crate) fn count_with(unit: &UnitDecl, tx: usize) -> usize
    requires { tx + 1 < 2 ^ 64 }
    ensures { result ≡ count_with unit.now tx }
{
    match unit {
        UnitDecl::Lone(_) => tx,
        UnitDecl::Tx(_) => tx + 1,
    }
}

/// The least named task in a block that is entered from outside its transaction; the block is in a
/// task of `own`.
fn enters_in_block(program: &Program, own: Option<usize>, block: &[Stmt]) -> Option<u32>
    ensures { result ≡ least (enters_in_block program.now own block.now) }
{
    least_within(block, &|statement| enters(program, own, statement))
}

/// The task that a `next` names, where it is entered from outside its transaction.
fn enters(program: &Program, own: Option<usize>, statement: &Stmt) -> Option<u32>
    ensures { result ≡ least (into_step program.now own (bare statement.now)) }
{
    match statement {
        Stmt::Next(name) => into(own, midst_of(program, &name.text), name.at),
        _ => None,
    }
}

/// The place, where it leads into the midst of a transaction from outside.
fn into(own: Option<usize>, midst: Option<usize>, at: u32) -> Option<u32>
    ensures { result ≡ least (into own midst at) }
{
    match midst {
        Some(tx) if own != Some(tx) => Some(at),
        _ => None,
    }
}

/// The transaction of the task of a name, where that is a member of one, and not its first.
fn midst_of(program: &Program, name: &NameText) -> Option<usize>
    ensures { result ≡ midst_of program.now name.now }
{
    let mut tx = 0;
    for unit in program.units.as_slice() {
        match position_in(unit.tasks(), name) {
            Some(0) => return None,
            Some(_) => return Some(tx),
            None => {}
        }
        tx = count_with(unit, tx);
    }
    None
}

/// The number of the task of a name among these.
fn position_in(tasks: &[TaskDecl], name: &NameText) -> Option<usize>
    ensures { result ≡ task_from 0 tasks.now name.now }
{
    for (index, task) in tasks.iter().enumerate() {
        if task.name.text == *name {
            return Some(index);
        }
    }
    None
}
