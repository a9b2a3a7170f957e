//! What the macroblocks of a slice are decoded with.
#![tactic(auto)]

ghost use Rattle.h264_vectors.specs.Agrees.{Usable};

use h264_deblock::SliceFilter;
use h264_recon::SliceWeights;
use h264_vectors::SliceContext;

/// What the macroblocks of a slice are decoded with. It is made where slice data begin, and lent to each macroblock.
#[derive(Clone, Copy)]
pub(crate) struct Slice {
    /// What they take from the slice's header, its parameter sets and its reference list.
    pub(crate) context: SliceContext,
    /// The places of its reference pictures in the pool of the sequence, by refIdxL0; that of any other frame where there is none.
    pub(crate) places: [u8; 16],
    pub(crate) filter: SliceFilter,
    /// The weights of its reference indexes.
    pub(crate) weights: SliceWeights,

    ghost usable: { Usable context },
}
