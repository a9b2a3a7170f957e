//! The byte stream of Annex B of H.264 and its NAL units (B.1.1, B.1.2, 7.3.1).
//!
//! A `Splitter` takes the bytes of an input in pieces of any size and gives the units one by one, whole. It keeps the bytes
//! of the current unit and at most three bytes whose meaning is not decided yet.
//!
//! It stops at the first byte that may not stand between units, at a start code without a unit, at a unit of more than 2^28
//! bytes and at an input of more than 2^40 bytes. What the bytes of a unit mean it does not look at. A `NalUnitType` is what the first of them says.
//!
//! Promised: however the input is cut, the units are those of the input's definition in `specs/Stream.antt`, and so is the
//! stop, with its place. `laws` has what that definition implies.
#![tactic(auto)]

pub mod laws;
pub mod nal_unit_type;
mod plan;
mod scan;
pub mod splitter;
pub mod unit;

pub use nal_unit_type::NalUnitType;
pub use splitter::Splitter;
pub use unit::NalUnit;
