//! What the definitions of tokens and faults come to.
ghost use Rattle.std.specs.Prelude.{◌≡◌, ℕ, List, length, All};
ghost use Rattle.task_lex.specs.Reading.{FaultsAt, Tokens};
ghost use Rattle.task_lex.specs.Span.{AreInOrder, IsTokenOf};

use crate::{LexFault, Token};

/// A source has at most one list of tokens and at most one first fault, and not both.
pub fn each_source_has_one_answer()
    ensures tokens { (source : List ℕ) (tokens others : List Token)
        → Tokens source tokens → Tokens source others → tokens ≡ others }
    ensures fault { (source : List ℕ) (fault other : LexFault)
        → FaultsAt source fault → FaultsAt source other → fault ≡ other }
    ensures apart { (source : List ℕ) (tokens : List Token) (fault : LexFault)
        → Tokens source tokens → FaultsAt source fault → ⊥ }
{}

/// The tokens of a source stand in it one behind another, each with the text of its kind.
pub fn tokens_stand_in_their_source()
    ensures order { (source : List ℕ) (tokens : List Token)
        → Tokens source tokens → AreInOrder 0 tokens (length source) }
    ensures texts { (source : List ℕ) (tokens : List Token)
        → Tokens source tokens → All (IsTokenOf source) tokens }
{}
