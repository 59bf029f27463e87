//! What the definitions of places come to.
ghost use Rattle.std.specs.Prelude.{◌≡◌, ℕ, ◌+◌, ◌≤◌, true, List, ◌∷◌, ◌++◌, length};
ghost use Rattle.coati_text.specs.Line.{lines_of};
ghost use Rattle.coati_top.specs.Divided.{divider, second_part};
ghost use Rattle.coati_explain.specs.Answer.{has_trace};
ghost use Rattle.coati_explain.specs.Spot.{LiesAt, line_of, spot_at};
ghost use Rattle.coati_explain.specs.Trace.{divider_line};

/// Each place of a text, and its end, lies at the spot that is told, and the line of a number is
/// the one with as many lines before it as that number counts.
pub fn places_lie_in_their_lines()
    ensures spot { (text : List ℕ) (at : ℕ) → at ≤ length text → LiesAt text at (spot_at text at) }
    ensures line { (text : List ℕ) (front : List (List ℕ)) (line : List ℕ) (more : List (List ℕ))
        → lines_of text ≡ front ++ line ∷ more → line_of text (length front + 1) ≡ line }
{}

/// The lines of a trace stand in its input behind the line `%%`.
pub fn traces_stand_behind_their_sources()
    ensures divider { (input : List ℕ) → has_trace input ≡ true
        → line_of input (divider_line input) ≡ divider }
    ensures lines { (input : List ℕ) (number : ℕ) → has_trace input ≡ true → 1 ≤ number
        → line_of input (divider_line input + number) ≡ line_of (second_part input) number }
{}
