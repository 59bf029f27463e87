//! What the definition of a listing tells: the function's contract is a law, and its body is
//! empty.

ghost use Rattle.codegen.specs.ListingLaws.{EachInstructionHasItsLine};

use word_code::laws::instructions_are_their_words;

/// The lines of a body are those of its instructions, each at the word where it starts.
pub fn each_instruction_has_its_line()
    ensures { EachInstructionHasItsLine }
{
    instructions_are_their_words();
}
