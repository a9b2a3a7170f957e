//! What the definitions of bins imply, for every tree. Nothing here runs.
#![tactic(auto)]

ghost use Rattle.std.specs.Prelude.{◌≡◌, ℕ, [], ◌++◌, Bool, List, Some};
ghost use Rattle.h264_cabac.specs.Bins.{Bins, DecoderState, Spells, Takes, decoded};

/// A bin string is that of one value only, and no bin string begins another (9.3.2).
pub fn one_value<A>()
    ensures { (tree : Bins A) (bins more : List Bool) (v w : A) → Spells tree bins v → Spells tree (bins ++ more) w → (v ≡ w) × (more ≡ []) }
{}

/// A value that is decoded is that of the bins that were decoded for it, one after another, each with the context that the tree names (9.3.3).
pub fn bins_of_value<A>()
    ensures { (tree : Bins A) (d e : DecoderState) (v : A) → decoded tree d ≡ Some (v, e) → (bins : List Bool) × Spells tree bins v × Takes tree d bins e }
{}
