//! What follows from the definitions: each function's contract is a law, and its body does
//! nothing.

ghost use Rattle.event_buffer.specs.FillLaws.{AllPartsAreThePosting, LogsAreInTheirEntries, NoPartStandsAtFirst, PartsFillTheSlot, TailEntryIsFree};
ghost use Rattle.event_buffer.specs.Held.{HeldAreCounted};
ghost use Rattle.event_buffer.specs.TurnLaws.{AcceptsAddTheNewest, FreesLeaveTheHeld, MarksTakeTheOldest, PreparesLeaveTheHeld};

/// The held entries are as many as there are positions from the oldest to the tail.
#[tactic(auto, using(crate::proofs::Slots::held_length))]
pub fn the_held_are_counted()
    ensures { HeldAreCounted }
{}

/// Part by part the posting comes into its slot, and nothing else is changed.
pub fn parts_fill_the_slot()
    ensures first { NoPartStandsAtFirst }
    ensures parts { PartsFillTheSlot }
    ensures all { AllPartsAreThePosting }
{}

/// Where there is room, no write to the entry at the tail, its log too, touches what the image
/// stands for.
pub fn the_tail_entry_is_free()
    ensures logs { LogsAreInTheirEntries }
    ensures free { TailEntryIsFree }
{}

/// The write that accepts adds the posting at the tail to the held ones, at the end, and leaves
/// all else.
pub fn accepts_add_the_newest()
    ensures { AcceptsAddTheNewest }
{}

/// The marker of an event's commit takes the oldest posting. The write that prepares it and the
/// one that moves the head on leave what is held.
pub fn commits_take_the_oldest()
    ensures prepare { PreparesLeaveTheHeld }
    ensures mark { MarksTakeTheOldest }
    ensures free { FreesLeaveTheHeld }
{}
