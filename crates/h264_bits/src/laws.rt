//! What holds of reading at one place. Nothing here runs.
#![tactic(auto)]

ghost use Rattle.std.specs.Prelude.{◌≡◌, ℕ, ℤ, List};
ghost use Rattle.h264_base.specs.Word.{Code, Reads};

/// At each bit stands at most one word of a code, so that a read has at most one value and one bit after it (9.1, 9.2).
pub fn one_word()
    ensures { (code : Code) (bytes : List ℕ) (i : ℕ) (v u : ℤ) (j k : ℕ) → Reads code bytes i v j → Reads code bytes i u k → (v ≡ u) × (j ≡ k) }
{}
