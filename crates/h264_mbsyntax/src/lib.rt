//! Slice data and macroblocks (7.3.4, 7.3.5): their syntax, and the rules on their elements.
//!
//! `specs/` has a grammar for each structure, by the coded picture so far; the readers here promise to meet those of
//! macroblocks. Whoever goes over the macroblocks of a slice meets that of slice data, by the lemmas of `proofs/Slices.antt`.
//! Where the samples come from, and whether the transform stays in its range, is not decided here.
#![tactic(auto)]

pub mod intra;
pub mod laws;
pub mod macroblock;
pub mod residual;
pub mod skip;
pub mod slice;

pub use macroblock::{Kind, Macroblock, read_macroblock};
pub use residual::Residual;
pub use skip::{is_repeated, skip_macroblock};
pub use slice::Standing;
