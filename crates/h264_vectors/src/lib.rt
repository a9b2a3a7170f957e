//! References and vectors of inter macroblocks (7.3.5.1, 7.3.5.2, 8.4.1), and their range (A.3.1).
//!
//! `predicted_vector` and `skip_vector` are the vectors of `specs/Vectors.antt`, by what stands around in the coded picture;
//! `derive` goes from part to part of a macroblock, as `specs/Derived.antt` says, and keeps reference and vector at each
//! 4x4 place. `read_motions` reads sub_mb_type, ref_idx_l0 and mvd_l0 of a macroblock, and promises to meet the grammar of
//! `specs/Inter.antt`. mb_type, and what else stands in a macroblock, is not decided here.
#![tactic(auto)]

pub mod derived;
pub mod inter;
pub mod part;
pub mod predicted;
pub mod range;
pub mod slice;

pub use derived::derive;
pub use inter::read_motions;
pub use part::{Direction, Part, PredictedPart, VectorDifference};
pub use predicted::{predicted_vector, skip_vector};
pub use range::vector_fits;
pub use slice::{SliceContext, Surroundings, has_picture, motion_of};
