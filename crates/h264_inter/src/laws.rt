//! What holds of the predicted samples. Nothing here runs.
#![tactic(auto)]

ghost use Rattle.std.specs.Prelude.{◌≡◌, ℕ, ◌<◌};
ghost use Rattle.h264_inter.specs.Luma.{quarter, predicted_luma};
ghost use Rattle.h264_base.specs.declared.weight.Weight.{Weight};
ghost use Rattle.h264_inter.specs.Chroma.{eighth, predicted_chroma};
ghost use Rattle.h264_inter.specs.Weighted.{weighted, IsPlain};
ghost use Rattle.h264_inter.specs.declared.vector.MotionVector.{MotionVector};

/// A sample at a quarter place depends on the six columns and rows of whole samples around it alone, one at an eighth place on two columns and
/// rows (8.4.2.2.1, 8.4.2.2.2).
pub fn places_depend_on_samples()
    ensures quarter { (x y : ℕ) (f g : ℕ → ℕ → ℕ) → ((i j : ℕ) → i < 6 → j < 6 → f i j ≡ g i j) → quarter x y f ≡ quarter x y g }
    ensures eighth { (x y : ℕ) (f g : ℕ → ℕ → ℕ) → ((i j : ℕ) → i < 2 → j < 2 → f i j ≡ g i j) → eighth x y f ≡ eighth x y g }
{}

/// A predicted sample depends on the samples of the reference picture alone, of `w` columns and `h` rows, and not on what a function says of
/// places outside it (8.4.2.2).
pub fn predictions_depend_on_picture()
    ensures luma { (w h : ℕ) (s t : ℕ → ℕ → ℕ) (mv : MotionVector) (x y : ℕ) → 0 < w → 0 < h → ((i j : ℕ) → i < w → j < h → s i j ≡ t i j) →
        predicted_luma w h s mv x y ≡ predicted_luma w h t mv x y }
    ensures chroma { (w h : ℕ) (s t : ℕ → ℕ → ℕ) (mv : MotionVector) (x y : ℕ) → 0 < w → 0 < h → ((i j : ℕ) → i < w → j < h → s i j ≡ t i j) →
        predicted_chroma w h s mv x y ≡ predicted_chroma w h t mv x y }
{}

/// A weight of 1 with no offset leaves each sample as it is, whatever its denominator (8.4.2.3.2).
pub fn plain_weights()
    ensures { (w : Weight) (p : ℕ) → p < 256 → IsPlain w → weighted w p ≡ p }
{}
