//! What follows from the definitions: each function's contract is a law.

ghost use Rattle.word_values.specs.Laws.{EventsStayInWords, OpeningStoresHoldWords, SpelledProgramsAreOfWords, UnitsStayInWords};

use coati_word::laws::values_are_words;
use task_lex::tokens_stand_in_their_source;
use task_syntax::laws::accesses_join_up;

/// The numbers of a source are words, so a program that its tokens spell writes words alone where
/// it reads words.
pub fn spelled_programs_are_of_words()
    ensures { SpelledProgramsAreOfWords }
{
    values_are_words();
    tokens_stand_in_their_source();
}

/// Such a program begins with words, and reads and leaves words on a store of words.
pub fn programs_stay_in_words()
    ensures opening { OpeningStoresHoldWords }
    ensures units { UnitsStayInWords }
    ensures events { EventsStayInWords }
{
    accesses_join_up();
}
