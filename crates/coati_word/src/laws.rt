//! What follows from the definitions: a function's contract is a law, and its body is empty.

ghost use Rattle.coati_word.specs.OperatorLaws.{OperatorsGiveWords, UnaryOperatorsGiveWords};

/// The value of an operator on words is a word.
pub fn values_are_words()
    ensures binary { OperatorsGiveWords }
    ensures unary { UnaryOperatorsGiveWords }
{}
