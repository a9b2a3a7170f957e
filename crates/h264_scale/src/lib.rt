//! Scaling and inverse transform of residual blocks (8.5.6, 8.5.9 to 8.5.12), with the flat scaling matrix of the Baseline profiles.
//!
//! Takes the levels of a block by place in the zig-zag scan, and gives its residual by row and column, or those of the DC coefficients of a
//! macroblock. What the residual of a macroblock is stands in `specs/Macroblock.antt`, of the levels of `Levels`. Each value that the standard names
//! is checked against its range of 16 bits: `TransformRange` is the answer exactly where one lies outside. Adding the prediction and clipping belong
//! to the caller.
#![tactic(auto)]

mod dc;
mod fours;
mod lanes;
pub mod laws;
mod levels;
mod range;
mod residual;
mod transform;

pub use dc::{dc2, dc16};
pub use levels::{ChromaLevels, ChromaWithDc, Levels, LumaLevels, LumaWithDc};
pub use range::{are_small_together, fits4, fits4_of_dc, fits4_with_dc};
pub use residual::{residual4, residual4_of_dc, residual4_with_dc};
pub use transform::TransformRange;
