//! Skipped macroblocks (7.4.4).
#![tactic(auto)]

ghost use Rattle.std.specs.Prelude.{◌≡◌, List, Some, true};
ghost use Rattle.h264_near.specs.Coded.{CodedMacroblock};
ghost use Rattle.h264_near.specs.Skips.{IsSkipped};
ghost use Rattle.h264_vectors.specs.Derived.{motion_of as motion_by};
ghost use Rattle.h264_vectors.specs.Vectors.{keeps_still, zero_vector};
ghost use Rattle.h264_mbsyntax.specs.Macroblock.{predicted_qp};
ghost use Rattle.h264_mbsyntax.specs.Slice.{skipped_of, still_macroblock};

use h264_near::{Skipped, Vector};
use h264_vectors::{SliceContext, motion_of};

/// A skipped macroblock of this vector: P_Skip, without coefficients. `qp` is QP_Y of the macroblock before, or SliceQP_Y.
#[inline]
pub fn skip_macroblock(slice: &SliceContext, vector: Vector, qp: u8) -> Skipped
    ensures holds { (picture : List CodedMacroblock) → qp ≡ predicted_qp slice.now picture → IsSkipped result (skipped_of slice.now picture vector) }
    ensures qp { result.qp ≡ qp }
    ensures same { result.slice ≡ slice.now.number }
    ensures motion { result.motion ≡ motion_by slice.now 0 vector }
{
    Skipped {
        slice: slice.number,
        qp,
        motion: motion_of(slice, 0, vector),
    }
}

/// The vector of a macroblock that stands still.
const STILL: Vector = Vector { x: 0, y: 0 };

/// Whether two skipped macroblocks are alike: all fields are equal.
#[inline]
fn is_alike(one: &Skipped, other: &Skipped) -> bool
    ensures same { result ≡ true → one.now ≡ other.now }
    ensures found { one.now ≡ other.now → result ≡ true }
{
    one.slice == other.slice
        && one.qp == other.qp
        && one.motion.picture == other.motion.picture
        && one.motion.ref_idx == other.motion.ref_idx
        && one.motion.vector.x == other.motion.vector.x
        && one.motion.vector.y == other.motion.vector.y
}

/// Whether a skipped macroblock is the one that stands still in this slice, so that the next one of its row, if it is skipped, is alike (8.4.1.1).
/// `qp` is QP_Y of the macroblock before that one.
#[inline]
pub fn is_repeated(slice: &SliceContext, skipped: &Skipped, qp: u8) -> bool
    ensures same { result ≡ true → skipped.now.slice ≡ slice.now.number }
    ensures still { result ≡ true → keeps_still (Some (Some skipped.now.motion)) ≡ true }
    ensures holds { result ≡ true → (picture : List CodedMacroblock) → qp ≡ predicted_qp slice.now picture →
        IsSkipped skipped.now (skipped_of slice.now picture zero_vector) }
    ensures found { skipped.now ≡ still_macroblock slice.now qp → result ≡ true }
{
    let own = skip_macroblock(slice, STILL, qp);
    is_alike(skipped, &own)
}
