//! The verdict on a stream: what `run` and a `Session` tell a sink, and whether the stream is legal.
//!
//! A `Session` takes the bytes in pieces of any size; `run` reads a `Source` to its end. Each unit is judged as soon as its end
//! is known, in the stated order of checks, for the target, by the mode: its own rules and the parameter sets; slice headers too, with the
//! pictures and counts that they give; or slice data too, with the pictures' samples. The sink is told each unit, each syntax
//! element and each slice, and each frame in the order of output.
//!
//! From the whole to its parts: `running` and `session` take a stream; `unit` judges a unit, and the end of the input; `slice` gives a slice its
//! place; `slices` and `rules` have its rules in their order; `data` reads its slice data into its picture's frame; `close` ends a picture.
//! `frame_num` has the gaps, `picture` the picture that is open, `decoder` the place where pictures are decoded and their frames wait. A
//! `State` is what the units so far left, and `head` what a slice has once its header is read. `laws` has what follows for any stream.
//!
//! Promised, for every byte string and every cutting of it: a yes, a no or an outside is the verdict of `specs/Verdict.antt`, of
//! which each stream has exactly one, and the sink was told exactly its calls, with frames whose samples are those of the
//! standard's equations; `run` gives it on the bytes that its source gave; a stopped session repeats its stop and touches no sink;
//! Write comes where the sink failed, and there only; Read where the source failed, and else only where it was read 2^41 times;
//! Memory only for the bytes of a unit, or for a picture of another format than that of the one before it (`specs/Memory.antt`).
//! Not promised: that memory suffices.
#![tactic(auto)]

pub mod bytes;
pub mod close;
pub mod data;
pub mod decoder;
mod frame_num;
mod head;
pub mod laws;
mod nal_header;
pub mod picture;
pub mod rules;
pub mod running;
pub mod session;
pub mod slice;
pub mod slices;
pub mod source;
pub mod state;
pub mod unit;

pub use h264_base::Summary;
pub use h264_dpb::FrameSink;
pub use h264_units::NalUnitType;
pub use running::run;
pub use session::Session;
pub use source::Source;
pub use state::{Depth, Extent, State, Terms};
