//! What holds of the equations of intra prediction, for whoever hands in the samples of a whole picture. Nothing here runs.
#![tactic(auto)]

ghost use Rattle.std.specs.Prelude.{◌≡◌, ℕ, ◌<◌, IsTrue};
ghost use Rattle.h264_intra.specs.Sides.{Sides, SameSides};
ghost use Rattle.h264_intra.specs.Luma4.{Sides4, SameSides4, is_possible4, predicted4};
ghost use Rattle.h264_intra.specs.Luma16.{is_possible16, predicted16};
ghost use Rattle.h264_intra.specs.Chroma.{is_possible_chroma, predicted_chroma};
ghost use Rattle.h264_intra.specs.declared.luma4.Intra4x4PredMode.{Intra4x4PredMode};
ghost use Rattle.h264_intra.specs.declared.luma16.Intra16x16PredMode.{Intra16x16PredMode};
ghost use Rattle.h264_intra.specs.declared.chroma.IntraChromaPredMode.{IntraChromaPredMode};

/// The prediction of a 4x4 block depends on the sides that are available, and on no other sample (8.3.1.2).
pub fn predicted4_same()
    ensures { (mode : Intra4x4PredMode) (s : Sides4) (p q : ℕ → ℕ → ℕ) (x y : ℕ) → IsTrue (is_possible4 mode s) → x < 4 → y < 4 → SameSides4 s p q →
        predicted4 mode s p x y ≡ predicted4 mode s q x y }
{}

/// So does that of the luma samples of a macroblock (8.3.3).
pub fn predicted16_same()
    ensures { (mode : Intra16x16PredMode) (s : Sides) (p q : ℕ → ℕ → ℕ) (x y : ℕ) → IsTrue (is_possible16 mode s) → x < 16 → y < 16 →
        SameSides 16 s p q → predicted16 mode s p x y ≡ predicted16 mode s q x y }
{}

/// And that of a chroma plane (8.3.4).
pub fn predicted_chroma_same()
    ensures { (mode : IntraChromaPredMode) (s : Sides) (p q : ℕ → ℕ → ℕ) (x y : ℕ) → IsTrue (is_possible_chroma mode s) → x < 8 → y < 8 →
        SameSides 8 s p q → predicted_chroma mode s p x y ≡ predicted_chroma mode s q x y }
{}
