//! What neighbours need of a macroblock.
#![tactic(auto)]

use crate::motion::Motion;
use h264_intra::Intra4x4PredMode;

/// What neighbours need of a macroblock. Blocks are by their number (6.4.3).
#[derive(Clone, Copy)]
pub struct Contexts {
    /// The address of the first macroblock of its slice.
    pub slice: u32,
    pub intra: bool,
    /// The quantisation parameter that the deblocking filter takes.
    pub qp: u8,
    /// How many coefficients each luma block has.
    pub totals: [u8; 16],
    /// How many coefficients each chroma block has: four of Cb, then of Cr.
    pub chroma_totals: [u8; 8],
    /// Intra4x4PredMode of each luma block, DC where it has none (8.3.1.1).
    pub modes: [Intra4x4PredMode; 16],
    /// What each luma block is predicted from; nothing in an intra macroblock.
    pub motions: [Option<Motion>; 16],
}

/// The blocks along one edge of a macroblock.
#[derive(Clone, Copy)]
pub struct Edge {
    pub slice: u32,
    pub intra: bool,
    pub qp: u8,
    pub totals: [u8; 4],
    /// Two of Cb, then of Cr.
    pub chroma: [u8; 4],
    pub modes: [Intra4x4PredMode; 4],
    pub motions: [Option<Motion>; 4],
}
