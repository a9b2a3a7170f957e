use crate::weights::SliceWeights;
use h264_inter::MotionVector;
use h264_intra::{Intra4x4PredMode, Intra16x16PredMode, IntraChromaPredMode};
use h264_near::{Motion as Derived, Partition};

/// Which of the macroblocks beside this one intra prediction may use (6.4.9, 8.3.1.2).
#[derive(Clone, Copy)]
pub struct Available {
    pub left: bool,
    pub above: bool,
    pub above_right: bool,
    pub corner: bool,
}

/// How the luma samples of an intra macroblock are predicted.
#[derive(Clone, Copy)]
pub enum IntraLuma {
    /// Intra_4x4, with the mode of each block by its number (6.4.3).
    Blocks([Intra4x4PredMode; 16]),
    /// Intra_16x16.
    Whole(Intra16x16PredMode),
}

/// The modes of an intra macroblock.
#[derive(Clone, Copy)]
pub struct IntraModes {
    pub luma: IntraLuma,
    pub chroma: IntraChromaPredMode,
}

/// Where a macroblock stands in its picture: how many macroblocks stand to its left, and how many rows of them above it.
#[derive(Clone, Copy)]
pub struct Position {
    pub column: usize,
    pub row: usize,
}

/// What the reference indexes of a slice stand for.
#[derive(Clone, Copy)]
pub struct SliceReferences<'a> {
    /// The places of the reference pictures in the pool of frames, by refIdxL0.
    pub places: &'a [u8; 16],
    /// The weights of their samples, likewise.
    pub weights: &'a SliceWeights,
}

/// The reference picture and the vector of a 4x4 place.
#[derive(Clone, Copy)]
pub struct Motion {
    /// Its place in the pool of frames.
    pub picture: u8,
    pub vector: MotionVector,
}

/// What the partitions of an inter macroblock are predicted from.
#[derive(Clone, Copy)]
pub struct Motions<'a> {
    /// How the macroblock is partitioned. All places of a partition have the motion of its first block.
    pub partition: Partition,
    /// What each block is predicted from, as it was derived, by its number (6.4.3).
    pub derived: &'a [Option<Derived>; 16],
    /// The places of the reference pictures in the pool of frames, by refIdxL0.
    pub places: &'a [u8; 16],
}

/// How a macroblock is predicted.
#[derive(Clone, Copy)]
pub enum Prediction<'a> {
    Intra(IntraModes),
    Inter(Motions<'a>),
    /// I_PCM: its samples, those of Y, then of Cb and Cr, each row by row (7.3.5).
    Pcm(&'a [u8; 384]),
}

/// What weighs the predicted samples of an inter macroblock (8.4.2.3): each 4x4 place by its reference index.
#[derive(Clone, Copy)]
pub struct Weighting<'a> {
    /// The weights of the slice's reference indexes.
    pub weights: &'a SliceWeights,
    /// What the macroblock's blocks are predicted from, by their number (6.4.3).
    pub motions: &'a [Option<Derived>; 16],
    /// Whether the first of these stands for all.
    pub whole: bool,
}

/// What constructs the samples of a macroblock, beside its residual.
#[derive(Clone, Copy)]
pub struct Macroblock<'a> {
    pub available: Available,
    pub prediction: Prediction<'a>,
    pub weighting: Weighting<'a>,
}
