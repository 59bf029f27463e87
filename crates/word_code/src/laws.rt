//! What follows from the definitions: each function's contract is a law, and its body is empty.

ghost use Rattle.std.specs.Prelude.{ℕ};
ghost use Rattle.coati_word.specs.declared.ending.Ending.{Ending};
ghost use Rattle.word_code.specs.CodeLaws.{BodiesStandAtTheirEntry};
ghost use Rattle.word_code.specs.FollowingLaws.{BodiesAreNeverStuck, BodiesHaveTheirEffect, ChainsAreFollowedInTurn, FollowingGoesOn};
ghost use Rattle.word_code.specs.InstructionLaws.{DecodedIsEncoded, EncodedIsDecoded};

/// An instruction and its words determine each other.
pub fn instructions_are_their_words()
    ensures round_trip { EncodedIsDecoded }
    ensures nothing_else { DecodedIsEncoded }
{}

/// Where a course is followed an instruction can run, and with its move the course goes on.
pub fn following_goes_on()
    ensures { FollowingGoesOn }
{}

/// Courses that are followed one after another are followed as their chain, in the sum of their
/// steps.
pub fn chains_are_followed_in_turn()
    ensures operands { ChainsAreFollowedInTurn ℕ ℕ }
    ensures body { ChainsAreFollowedInTurn ℕ Ending }
{}

/// A body that computes a course has its effect on each store, within its cost, and is never
/// stuck, whatever its loads give.
pub fn bodies_do_what_they_compute()
    ensures effect { BodiesHaveTheirEffect }
    ensures never_stuck { BodiesAreNeverStuck }
{}

/// The words of a body stand among those of the code, from its entry on.
pub fn bodies_stand_at_their_entry()
    ensures { BodiesStandAtTheirEntry }
{}
