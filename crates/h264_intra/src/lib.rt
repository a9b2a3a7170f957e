//! Intra prediction (8.3): of 4x4 luma blocks (8.3.1.2), of 16x16 luma (8.3.3) and of 8x8 chroma (8.3.4) of a macroblock.
//!
//! Takes a mode and the samples beside the block, as values, each side there or missing, and gives the predicted samples row by row.
//! Each sample is the standard's equation of its mode, where there are the sides that the mode needs (`is_possible`). Which sides are
//! available is the caller's matter, and so are the residual and the deblocking filter: the neighbours are samples before it.
#![tactic(auto)]

mod chroma;
pub mod laws;
mod luma16;
mod luma4;
mod sides;
mod slope;

pub use chroma::{IntraChromaPredMode, NeighboursChroma, predict_chroma};
pub use luma4::{Intra4x4PredMode, Neighbours4, predict4};
pub use luma16::{Intra16x16PredMode, Neighbours16, predict16};
pub use sides::{Sides, Sides4};
