//! What neighbours need of a skipped macroblock.
#![tactic(auto)]

use crate::motion::Motion;

/// A skipped macroblock (7.4.4): no block has coefficients, and one motion predicts all sixteen.
#[derive(Clone, Copy)]
pub struct Skipped {
    /// The address of the first macroblock of its slice.
    pub slice: u32,
    /// QP_Y.
    pub qp: u8,
    /// What each block is predicted from.
    pub motion: Motion,
}
