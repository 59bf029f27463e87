//! How long generated inputs are.
ghost use Rattle.std.specs.Prelude.{ℕ, ◌≤◌, length};
ghost use Rattle.coati_gen.specs.Generated.{generated};

/// No generated input is longer than an input may be.
pub fn generated_inputs_are_small()
    ensures { (count : ℕ) → count ≤ 200 → length (generated count) ≤ 262144 }
{}
