//! What holds of the equations of a picture. Nothing here runs.
#![tactic(auto)]

ghost use Rattle.std.specs.Prelude.{◌≡◌, ℕ, ◌+◌, ◌*◌, ◌<◌, List, length, Option, ℤ};
ghost use Rattle.h264_base.specs.declared.weight.Weights.{Weights};
ghost use Rattle.h264_near.specs.Coded.{CodedMacroblock};
ghost use Rattle.h264_vectors.specs.declared.slice.SliceContext.{SliceContext};
ghost use Rattle.h264_mbsyntax.specs.Possible.{IsPossible};
ghost use Rattle.h264_recon.specs.Given.{given, slice_settings};
ghost use Rattle.h264_plane.specs.declared.frame.Component.{Component};
ghost use Rattle.h264_plane.specs.Places.{side};
ghost use Rattle.h264_recon.specs.Inter.{Setting};
ghost use Rattle.h264_recon.specs.Constructed.{Coded, Constructed, SameReferences, IsAllowed};
ghost use Rattle.h264_recon.specs.Lines.{AreStored};
ghost use Rattle.h264_recon.specs.declared.store.Lines.{Lines};

/// The equations of a picture have at most one solution, in every plane (8.3, 8.4.2, 8.5.14).
pub fn one_picture()
    ensures { (k : Setting) (macroblock : ℕ → Coded) (u v : Component → ℕ → ℕ → ℕ) →
        ((c r : ℕ) → c < k.across → r < k.down → IsAllowed (macroblock (r * k.across + c)) k.across c r) → Constructed k macroblock u →
        Constructed k macroblock v → (p : Component) (x y : ℕ) → x < side p * k.across → y < side p * k.down → u p x y ≡ v p x y }
{}

/// And they have one, for every picture whose modes and neighbours are allowed and for all reference pictures.
pub fn some_picture()
    ensures { (k : Setting) (macroblock : ℕ → Coded) → ((c r : ℕ) → c < k.across → r < k.down →
        IsAllowed (macroblock (r * k.across + c)) k.across c r) → (u : Component → ℕ → ℕ → ℕ) × Constructed k macroblock u }
{}

/// The constructed samples of a picture depend on its reference pictures' samples alone, and of these on those that it refers to (8.4.2).
pub fn references_alone()
    ensures { (across down : ℕ) (f g : ℕ → Component → ℕ → ℕ → ℕ) (macroblock : ℕ → Coded) (u : Component → ℕ → ℕ → ℕ) →
        ((c r : ℕ) → c < across → r < down → SameReferences across down f g (macroblock (r * across + c)).prediction) →
        Constructed (record { across = across; down = down; reference = f }) macroblock u →
        Constructed (record { across = across; down = down; reference = g }) macroblock u }
{}

/// Where a row of macroblocks ends, the lines are those of the next one.
pub fn next_row()
    ensures { (w r : ℕ) (u : Component → ℕ → ℕ → ℕ) (l : Lines) → AreStored w w r u l → AreStored w 0 (r + 1) u l }
{}

/// What a macroblock of the coded picture gives to its construction is allowed, where its modes have their samples (8.3.1.2, 8.3.3, 8.3.4): intra prediction
/// takes no macroblock from outside the picture, and no mode a side that is not there.
pub fn given_is_allowed()
    ensures { (width : ℕ) (slice : SliceContext) (picture : List CodedMacroblock) (place : ℕ → ℕ) (weights : List (Option Weights)) (offset : ℤ)
        (coded : CodedMacroblock) (c r : ℕ) → length picture ≡ r * width + c → c < width → coded.slice ≡ slice.number →
        IsPossible width slice picture coded.prediction →
        IsAllowed (given width picture place (slice_settings weights slice.constrained_intra offset) coded) width c r }
{}
