//! A picture from its slices (7.3.4, 8).
//!
//! `Work` holds the macroblocks of a picture so far, as far as the next ones need them. `slice` reads the slice data of one
//! slice more, and promises that they are a derivation, or the first rule that they break, as the grammar `slice_data` of
//! h264_mbsyntax says it with the range of the transform by h264_scale; no call in a slice takes memory.
//! `slice_context` is what macroblocks take from the slice's header, its parameter sets and its reference list.
//! The samples of each macroblock are made after its levels, in place in a frame of the sequence: after each the equations hold of
//! the macroblocks so far (`in_place::go_on`). For the verdict alone (`Purpose`) no sample is made, and there is no memory for one: of a
//! macroblock's levels only the range of their transform is judged, and skipped macroblocks that stand still are passed by rows (`still`).
//! A `Sequence` has the memory, and in it the `Picture` that is decoded and, where frames are made, their `Canvas`; a `Slice` is made where
//! slice data begin, and lent to each macroblock.
//! The allocator is lent to `Work::activate` alone; nothing that is kept has one, but for the `Vec`s of planes, lines and contexts.
#![tactic(auto)]

mod buffer;
mod canvas;
pub mod context;
mod frames;
pub mod in_place;
pub mod laws;
mod making;
mod picture;
mod places;
mod purpose;
mod run;
mod samples;
mod sequence;
mod slice;
mod step;
mod still;
pub mod work;

pub use buffer::buffer_size;
pub use context::slice_context;
pub use frames::PLACES;
pub use purpose::Purpose;
pub use samples::{SliceSamples, slice_samples};
pub use work::Work;
