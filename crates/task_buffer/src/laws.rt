//! What follows from the definitions: each function's contract is a law, and its body does
//! nothing.

ghost use Rattle.task_buffer.specs.StoreLaws.{ResetsEmptyTheLog, StoresSetTheValue};

/// A store makes the log that with the value set, at its last part and not before, and changes
/// nothing beside the log.
pub fn stores_set_the_value()
    ensures { StoresSetTheValue }
{}

/// The write that empties a log changes nothing beside it.
pub fn resets_empty_the_log()
    ensures { ResetsEmptyTheLog }
{}
