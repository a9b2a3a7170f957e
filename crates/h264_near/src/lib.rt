//! What the next macroblock of a picture needs of the macroblocks before it (6.4, 8.3.1.1, 8.4.1.3, 9.2.1).
//!
//! `specs/Coded.antt` says what a coded picture is, `specs/Place.antt` what stands where in it. `Near` keeps one row of
//! contexts, a left column and a corner, and promises that what it answers is what stands there in the coded picture.
//! To the deblocking filter it gives the edges of the macroblocks to the left and above, whatever their slices.
#![tactic(auto)]

pub mod block;
pub mod context;
mod kept_edges;
mod lookup;
pub mod motion;
pub mod near;
pub mod partition;
pub mod skipped;

pub use context::{Contexts, Edge};
pub use motion::{Motion, Vector};
pub use near::Near;
pub use partition::{Partition, SubPartition};
pub use skipped::Skipped;
