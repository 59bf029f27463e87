//! What follows from the definitions: each function's contract is a law, and its body is empty.

ghost use Rattle.coati_replay.specs.Laws.{EachTextHasAVerdict, SerialTextsAreLegal};
ghost use Rattle.coati_replay.specs.Laws.{VerdictsAreUnique};

/// A printed text has one verdict at most.
pub fn verdicts_are_unique()
    ensures { VerdictsAreUnique }
{}

/// A printed text has a verdict.
pub fn each_text_has_a_verdict()
    ensures { EachTextHasAVerdict }
{
    task_syntax::laws::written_words_are_told();
}

/// A text each line of which meets its condition is serial and legal, and no other is.
pub fn serial_texts_are_legal()
    ensures { SerialTextsAreLegal }
{}
