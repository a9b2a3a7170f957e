//! A slice, and what is kept of its macroblocks.
#![tactic(auto)]

ghost use Rattle.h264_vectors.specs.Agrees.{Usable};

use h264_base::SliceType;
use h264_intra::Intra4x4PredMode;
use h264_near::{Contexts, Motion, Vector};
use h264_vectors::SliceContext;

/// What the macroblocks of a slice with so many reference pictures, at most 16, take from it. The others but these two have no picture.
pub fn slice(slice_type: SliceType, active: u32, pictures: [Option<u64>; 2]) -> SliceContext
    ensures { Usable result }
{
    let mut references = [None; 16];
    references[0] = pictures[0];
    references[1] = pictures[1];
    SliceContext {
        number: 0,
        slice_type,
        qp: 26,
        active: active.min(16),
        references,
        constrained_intra: false,
        chroma_qp_index_offset: 0,
        vector_limit: 256,
    }
}

/// An intra macroblock of the first slice, without coefficients.
pub const INTRA: Contexts = Contexts {
    slice: 0,
    intra: true,
    qp: 26,
    totals: [0; 16],
    chroma_totals: [0; 8],
    modes: [Intra4x4PredMode::Dc; 16],
    motions: [None; 16],
};

/// By this index, from this picture, with this vector.
pub const fn motion(ref_idx: u8, picture: u64, x: i16, y: i16) -> Motion {
    Motion {
        ref_idx,
        picture,
        vector: Vector { x, y },
    }
}

/// The index, the picture and the vector of a motion.
pub fn parts_of(motion: Option<Motion>) -> Option<(u8, u64, i16, i16)> {
    match motion {
        None => None,
        Some(m) => Some((m.ref_idx, m.picture, m.vector.x, m.vector.y)),
    }
}

/// An inter macroblock of the first slice, without coefficients, all of whose blocks move so.
pub fn inter(motion: Motion) -> Contexts {
    Contexts {
        intra: false,
        motions: [Some(motion); 16],
        ..INTRA
    }
}
