//! What follows from the definitions: each function's contract is a law, and its body does
//! nothing.

ghost use Rattle.buffi_sets.specs.Flags.{FlagWritesSetOneFlag, UnflagWritesTakeOneBack};
ghost use Rattle.buffi_sets.specs.Undo.{DoomWritesKeep, UndoWritesKeep, UndosEnd};
ghost use Rattle.buffi_sets.specs.View.{HandlersReadBehindHeldEvents};

/// A flag write sets one flag of the attempt and leaves all else.
#[tactic(auto, using(crate::proofs::Flagging::flag_set))]
pub fn flag_writes_set_one_flag()
    ensures { FlagWritesSetOneFlag }
{}

/// A write that takes back a flag of the attempt leaves all else.
pub fn unflag_writes_take_one_back()
    ensures { UnflagWritesTakeOneBack }
{}

/// Below its own log a handler reads the committed words, changed by the held events, the oldest
/// first.
#[tactic(auto, using(crate::proofs::Viewing::behind_held))]
pub fn handlers_read_behind_held_events()
    ensures { HandlersReadBehindHeldEvents }
{}

/// The write that aborts a transaction leaves what memory stands for.
#[tactic(auto, using(crate::proofs::Undoing::doom_keeps))]
pub fn doom_writes_keep()
    ensures { DoomWritesKeep }
{}

/// Each write of an undo leaves what memory stands for.
pub fn undo_writes_keep()
    ensures { UndoWritesKeep }
{}

/// An undo ends.
#[tactic(auto, using(crate::proofs::Ending::undo_ends))]
pub fn undos_end()
    ensures { UndosEnd }
{}
