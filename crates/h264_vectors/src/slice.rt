//! What macroblocks take from their slice, and what they see around themselves.
#![tactic(auto)]

ghost use Rattle.std.specs.Prelude.{◌≡◌, ◌<◌};
ghost use Rattle.h264_vectors.specs.Derived.{has_picture, motion_of};

use h264_base::SliceType;
use h264_near::{Motion, Near, Vector};

/// What the slice header and the parameter sets say to its macroblocks.
#[derive(Clone, Copy)]
pub struct SliceContext {
    /// The address of its first macroblock, by which macroblocks name their slice.
    pub number: u32,
    pub slice_type: SliceType,
    /// SliceQP_Y, 0 to 51.
    pub qp: u8,
    /// How many places the reference list has: num_ref_idx_l0_active_minus1 + 1, at most 16, and none in I slices.
    pub active: u32,
    /// The number of the picture in each place of the list, and nothing where there is none to predict from.
    pub references: [Option<u64>; 16],
    /// constrained_intra_pred_flag.
    pub constrained_intra: bool,
    /// -12 to 12.
    pub chroma_qp_index_offset: i32,
    /// Vertical vector components lie below this, in quarter samples, and not below its negative.
    pub vector_limit: u32,
}

/// What a macroblock sees around itself: the macroblocks before it, as far as they are kept, and its slice, by which they are available to it (6.4.9).
#[derive(Clone, Copy)]
pub struct Surroundings<'a> {
    pub near: &'a Near,
    pub slice: &'a SliceContext,
}

/// Whether an index names a picture to predict from.
#[inline]
pub fn has_picture(slice: &SliceContext, index: u32) -> bool
    ensures { result ≡ has_picture slice.now index }
{
    if index < 16 {
        return slice.references[index as usize].is_some();
    }
    false
}

/// What the blocks of a part are predicted from.
#[tactic(auto, unfolding(crate::specs::Derived::motion_of))]
#[inline]
pub fn motion_of(slice: &SliceContext, index: u32, vector: Vector) -> Motion
    requires { index < 16 }
    ensures { result ≡ motion_of slice.now index vector }
{
    Motion {
        ref_idx: index as u8,
        picture: slice.references[index as usize].unwrap_or(0),
        vector,
    }
}
