//! The units of tasks: a lone task, or a transaction.

ghost use Rattle.std.specs.Prelude.{◌≡◌, ℕ};
ghost use Rattle.task_syntax.specs.Units.{is_inside, transaction_of};
ghost use Rattle.coati_device.specs.Kept.{unit_of};

use serial_log::Unit;
use task_check::Checked;

/// Whether a place is in this transaction, where it is one.
pub fn is_in(checked: &Checked, tx: Option<u16>, place: u16) -> bool
    ensures { (task : ℕ) → tx ≡ transaction_of checked.now task
        → result ≡ is_inside checked.now task place }
{
    match tx {
        Some(tx) => checked.tx_of_task(place) == Some(tx),
        None => false,
    }
}

/// The unit of a task with this transaction, where it has one.
pub fn unit_of(tx: Option<u16>, task: u16) -> Unit
    ensures { result ≡ unit_of tx task }
{
    match tx {
        Some(tx) => Unit::Transaction(tx),
        None => Unit::Task(task),
    }
}
