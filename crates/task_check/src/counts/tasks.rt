ghost use Rattle.std.specs.Prelude.{◌≡◌, slice_get};
ghost use Rattle.std.specs.Option.{option_copied};
ghost use Rattle.task_syntax.specs.Names.{tasks};
ghost use Rattle.task_check.specs.Counts.{place_of, too_many_tasks_places, transactions};
ghost use Rattle.task_check.specs.Least.{IsLeastOf, least};

use crate::least::lesser;
use coati_word::limits::{EVENTS, TASKS, TRANSACTIONS};
use task_syntax::{Event, Program, TaskDecl, TxDecl, UnitDecl};

/// Rule 7: the 65th task, the 17th event or the 17th transaction.
pub(crate) fn too_many_tasks(program: &Program) -> Option<u32>
    ensures { IsLeastOf (too_many_tasks_places program.now) result }
{
    let event = late_event(program.events.as_slice());
    lesser(lesser(late_task(program), event), late_transaction(program))
}

/// The 65th task.
fn late_task(program: &Program) -> Option<u32>
    ensures { result ≡ least
        (place_of (λ (task : TaskDecl). task.name) (slice_get (tasks program.now) 64)) }
{
    let task = task_at(program, usize::from(TASKS))?;
    Some(task.name.at)
}

/// The 17th event.
fn late_event(events: &[Event]) -> Option<u32>
    ensures { result ≡ least (place_of (λ (event : Event). event.name) (slice_get events.now 16)) }
{
    let event = events.get(usize::from(EVENTS))?;
    Some(event.name.at)
}

/// The 17th transaction.
fn late_transaction(program: &Program) -> Option<u32>
    ensures { result ≡ least
        (place_of (λ (tx : TxDecl). tx.name) (slice_get (transactions program.now) 16)) }
{
    let tx = transaction_at(program, usize::from(TRANSACTIONS))?;
    Some(tx.name.at)
}

/// The task of a number.
pub(crate) fn task_at(program: &Program, number: usize) -> Option<&TaskDecl>
    ensures { option_copied result ≡ slice_get (tasks program.now) number }
{
    let mut left = number;
    for unit in program.units.as_slice() {
        let tasks = unit.tasks();
        if left < tasks.len() {
            return Some(&tasks[left]);
        }
        left -= tasks.len();
    }
    None
}

/// The transaction of a number.
pub(crate) fn transaction_at(program: &Program, number: usize) -> Option<&TxDecl>
    ensures { option_copied result ≡ slice_get (transactions program.now) number }
{
    let mut left = number;
    for unit in program.units.as_slice() {
        if let UnitDecl::Tx(tx) = unit {
            if left == 0 {
                return Some(tx);
            }
            left -= 1;
        }
    }
    None
}
