//! Residual blocks in CAVLC (7.3.5.3.2, 9.2).
//!
//! `block_into` and `block` read the levels of a block of 16, 15 or 4 transform coefficients, by their place in the scan, or name the first
//! rule that the block breaks: ResidualWord where a word is missing, BlockSize where it has too many coefficients or zeros.
//! They promise that the block derives in the grammar of `specs/Block.antt`, which follows the standard's table; where a level
//! stands is the equation of `specs/Place.antt`. The sink is told each element as soon as its code word was read.
//! What nC is, and to which sample a place of the scan belongs, is not decided here.
#![tactic(auto)]

mod level;
pub mod residual;
mod runs;
mod token;
mod token_words;
mod totals;
mod zeros;

pub use residual::{Levels, block, block_into};
