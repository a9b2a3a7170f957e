//! Construction of macroblocks (8.3, 8.4.2, 8.5): prediction and residual, or the samples of I_PCM, in place in a frame.
//!
//! Takes how a macroblock is predicted, its levels, and what was kept of the macroblocks before it, and writes its samples into the
//! frame. The samples beside it come from line stores, since those in the frame may already be filtered. Each plane meets one system of
//! equations over the whole picture (`specs/Constructed.antt`), which has at most one solution (`laws`). `given` makes of a macroblock that
//! was read what is constructed (`specs/Given.antt`): which macroblocks intra prediction may use, modes, motions and samples. Its residual is made of
//! its levels (`specs/Levels.antt`) block by block, and added where it is made, or a value of its transform is found out of range. The deblocking
//! filter is the caller's matter.
#![tactic(auto)]

mod added;
mod blocks;
mod coefficients;
mod in_place;
mod input;
mod inter;
mod intra;
pub mod laws;
mod macroblock;
mod pcm;
mod range;
mod run;
mod scaled;
mod store;
mod sum;
mod weighing;
mod weights;

pub use in_place::{construct, construct_skipped};
pub use input::{available, given, partition_of};
pub use macroblock::{
    Available, IntraLuma, IntraModes, Macroblock, Motion, Motions, Position, Prediction,
    SliceReferences, Weighting,
};
pub use range::residual_fits;
pub use scaled::ReadLevels;
pub use store::{Lines, Samples, Store};
pub use weights::SliceWeights;
