//! What follows from the definitions: each function's contract is a law, and its body does
//! nothing.

ghost use Rattle.nv_memory.specs.BlankLaws.{BlankImagesAreSound};
ghost use Rattle.nv_memory.specs.LogLaws.{EmptyLogsHaveNoPair, LogsHaveRoom, LogsHaveVariables};
ghost use Rattle.nv_memory.specs.RingLaws.{HeldFitTheBuffer, HeldSlotsDiffer, TailSlotIsFree, TakenSlotIsNotHeld};
ghost use Rattle.nv_memory.specs.State.{WritesPutOneWord};

/// A write to the address of a seat changes what stands there and nothing else.
#[tactic(auto, using(crate::proofs::Puts::puts_one_word))]
pub fn writes_put_one_word()
    ensures { WritesPutOneWord }
{}

/// A blank image is in range and stands for the opening values and the first task, with nothing
/// held.
#[tactic(auto, using(crate::proofs::BlankSound::blank_sound))]
pub fn blank_images_are_sound()
    ensures { BlankImagesAreSound }
{}

/// A log has variable words alone, and room for each that it doesn't have; without a pair it is
/// empty.
pub fn logs_have_room()
    ensures room { LogsHaveRoom }
    ensures variables { LogsHaveVariables }
    ensures empty { EmptyLogsHaveNoPair }
{}

/// The held entries fit the buffer and have different slots, and the slot for the next posting is
/// none of theirs.
pub fn held_entries_have_slots()
    ensures few { HeldFitTheBuffer }
    ensures differ { HeldSlotsDiffer }
    ensures free { TailSlotIsFree }
    ensures taken { TakenSlotIsNotHeld }
{}
