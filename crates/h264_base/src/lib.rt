//! What all other crates of the decoder speak of: the rules that a stream can break, the features that are not judged,
//! the stops that both lead to, what is counted of a legal stream, the names of the syntax elements, the weights of prediction, and the calls
//! that a sink takes.
//!
//! `specs/` has the language in which each syntax structure of H.264 (clause 7.3, Annex E) is written down once, as a
//! grammar, with what it means that the bits of a unit derive in it, break a rule of it, or reach a feature.
//! The laws of that language (each grammar gives one list of elements and one answer) are proved here once for all grammars.
//! Nothing here reads a bit: `h264_bits` does, and is proved against these definitions.
#![tactic(auto)]

pub mod element_name;
pub mod elements;
pub mod laws;
pub mod mode;
pub mod rule;
pub mod stop;
pub mod summary;
pub mod weight;

pub use element_name::ElementName;
pub use elements::{Elements, Failed};
pub use mode::{Mode, SliceType, Target};
pub use rule::Rule;
pub use stop::{Feature, Stop};
pub use summary::Summary;
pub use weight::{Weight, Weights};
