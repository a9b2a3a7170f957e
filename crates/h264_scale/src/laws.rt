//! What holds of the residual of a macroblock. Nothing here runs.
#![tactic(auto)]

ghost use Rattle.std.specs.Prelude.{◌≡◌, ℕ, pos};
ghost use Rattle.h264_plane.specs.declared.frame.Component.TheVariants.{Y, Cb, Cr};
ghost use Rattle.h264_scale.specs.Macroblock.{residual};
ghost use Rattle.h264_scale.specs.declared.levels.Levels.{Levels};
ghost use Rattle.h264_scale.specs.declared.levels.LumaLevels.TheVariants as luma;
ghost use Rattle.h264_scale.specs.declared.levels.ChromaLevels.TheVariants as chroma;

/// A plane of which no level is coded has a residual of 0.
pub fn not_coded()
    ensures y { (l : Levels) (x y : ℕ) → l.luma ≡ luma.NotCoded → residual l Y x y ≡ pos 0 }
    ensures cb { (l : Levels) (x y : ℕ) → l.cb ≡ chroma.NotCoded → residual l Cb x y ≡ pos 0 }
    ensures cr { (l : Levels) (x y : ℕ) → l.cr ≡ chroma.NotCoded → residual l Cr x y ≡ pos 0 }
{}
