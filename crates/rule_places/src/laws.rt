//! What follows from the definitions: the function's contract is a law.

ghost use Rattle.rule_places.specs.Laws.{BrokenRulesBeginTokens, BrokenRulesLieWithin};

use task_lex::tokens_stand_in_their_source;

/// Where the tokens of a source spell a program that is refused for a rule, the place that is told
/// is where one of these tokens begins, and so it lies within the source.
pub fn broken_rules_begin_tokens()
    ensures token { BrokenRulesBeginTokens }
    ensures within { BrokenRulesLieWithin }
{
    tokens_stand_in_their_source();
}
