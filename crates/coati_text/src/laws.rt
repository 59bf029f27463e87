//! What the definitions of decimals and lines come to.
ghost use Rattle.std.specs.Prelude.{◌≡◌, ℕ, ◌^◌, ◌<◌, ◌≤◌, ◌++◌, [], ◌∷◌, List, decimal, Ok, All};
ghost use Rattle.coati_text.specs.Decimal.{decimal_at, digit_count};
ghost use Rattle.coati_text.specs.Line.{lines_of, IsTextOf};

/// What is read is the one decimal of a number, and each number's decimal is read.
pub fn each_number_has_one_decimal()
    ensures spelled { (max n : ℕ) (text : List ℕ) → max < 2 ^ 32 → decimal_at max text ≡ Ok n
        → (rest : List ℕ) × (text ≡ decimal n ++ rest) × (digit_count rest ≡ 0) }
    ensures read { (max n : ℕ) (rest : List ℕ) → max < 2 ^ 32 → n ≤ max → digit_count rest ≡ 0
        → decimal_at max (decimal n ++ rest) ≡ Ok n }
{}

/// The lines of a text are what stands before, between and behind its ends, and no others are.
pub fn lines_are_the_text()
    ensures lines { (text : List ℕ) → IsTextOf (lines_of text) text }
    ensures only { (lines : List (List ℕ)) (text : List ℕ) → IsTextOf lines text →
        lines ≡ lines_of text }
{}
