//! CABAC, the arithmetic decoding of syntax elements (9.3).
//!
//! `Engine` decodes one bin after another: by a context (9.3.3.2.1), by bypass (9.3.3.2.3), and before a termination (9.3.3.2.4).
//! It promises that each bin, and range and offset after it, are those of the standard's steps in `specs/Engine.antt`, and says so where the
//! bits end before a bin. `Decoder` has the contexts of a slice beside it, which begin as `specs/Contexts.antt` says.
//! The readers of `elements` give the value whose bins were decoded, with the contexts that `specs/Elements.antt` names for each bin.
//! What follows from macroblocks beside, as the ctxIdxInc of a first bin, is not decided here, nor is the order of elements.
#![tactic(auto)]

mod bins;
pub mod context;
pub mod decoder;
pub mod elements;
pub mod engine;
pub mod initial;
pub mod laws;
mod load;
pub mod mb_type;
mod pairs_1_2;
mod pairs_i_0;
pub mod pattern;
mod register;
mod states;

pub use context::Context;
pub use decoder::Decoder;
pub use engine::Engine;
pub use initial::InitTable;
