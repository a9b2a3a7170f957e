//! What the definitions of syntax imply, for every code and every grammar. Nothing here runs.
#![tactic(auto)]

ghost use Rattle.std.specs.Prelude.{◌≡◌, ℕ, ℤ, List, Result};
ghost use Rattle.h264_base.specs.declared.stop.Stop.{Stop};
ghost use Rattle.h264_base.specs.Body.{Body};
ghost use Rattle.h264_base.specs.Word.{Code, Reads};
ghost use Rattle.h264_base.specs.Grammar.{Grammar, Element, Says};

/// At a place stands at most one word of a code: one value, and one bit after it (9.1).
pub fn one_word()
    ensures { (code : Code) (bytes : List ℕ) (i : ℕ) (v w : ℤ) (j k : ℕ) → Reads code bytes i v j → Reads code bytes i w k → (v ≡ w) × (j ≡ k) }
{}

/// A body has at most one derivation in a structure, and derivation, broken rule and feature exclude one another:
/// there is one list of elements and one answer.
pub fn one_answer<A>()
    ensures { (g : Grammar A) (body : Body) (i : ℕ) (es fs : List Element) (a b : Result (A × ℕ) Stop) → Says g body i es a → Says g body i fs b →
        (es ≡ fs) × (a ≡ b) }
{}

/// Each body has a list of elements and an answer in each structure.
pub fn some_answer<A>()
    ensures { (g : Grammar A) (body : Body) (i : ℕ) → (es : List Element) × (a : Result (A × ℕ) Stop) × Says g body i es a }
{}
