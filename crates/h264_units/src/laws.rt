//! What the definition of a byte stream implies.
#![tactic(auto)]

ghost use Rattle.std.specs.Prelude.{ℕ, ◌+◌, ◌≤◌, List, length};
ghost use Rattle.std.specs.List.{All};
ghost use Rattle.h264_units.specs.Stream.{NalUnit, Tail, Splits, SameUnits, Zeros, IsByteStream, IsLongest, IsFault, unit_limit, input_limit};

/// Each input has at most one list of units and one tail.
pub fn one_split()
    ensures { (at : ℕ) (bytes : List ℕ) (units others : List NalUnit) (tail other : Tail) → Splits at bytes units tail → Splits at bytes others other →
        SameUnits units others tail other }
{}

/// Each input has a list of units and a tail.
pub fn some_split()
    ensures { (at : ℕ) (bytes : List ℕ) → at ≤ input_limit → (units : List NalUnit) × (tail : Tail) × Splits at bytes units tail }
{}

/// An input with no fault is a byte stream of its units.
pub fn all_units()
    ensures { (at : ℕ) (bytes : List ℕ) (units : List NalUnit) → Splits at bytes units Zeros → IsByteStream at bytes units }
{}

/// A byte stream within the limits has its units and no others.
pub fn judged_stream()
    ensures { (at : ℕ) (bytes : List ℕ) (units : List NalUnit) → IsByteStream at bytes units → All (λ unit. length unit.body ≤ unit_limit) units →
        at + length bytes ≤ input_limit → Splits at bytes units Zeros }
{}

/// An input with a fault has the units of its longest part from the front that is a byte stream.
pub fn longest_part()
    ensures { (at : ℕ) (bytes : List ℕ) (units : List NalUnit) (tail : Tail) → Splits at bytes units tail → IsFault tail → IsLongest at bytes units }
{}
