//! The RBSP of a NAL unit, and emulation prevention (7.3.1, 7.4.1).
//!
//! `Rbsp::of` takes a unit and gives the bytes after its header without the emulation prevention bytes; `stream_bit` says
//! where each of their bits stands in the input. `check_emulation` judges the unit's bytes: 00 00 02 does not stand in it,
//! 00 00 03 only before 00 to 03, and not at its end.
//!
//! Promised: bytes and places are those of the definitions in `specs/`, and the check names the first place where the rule
//! is broken, or passes where it is not. What the header and the RBSP say is not looked at.
#![tactic(auto)]

pub mod emulation;
pub mod laws;
pub mod rbsp;
mod scan;
mod unescape;

pub use emulation::check_emulation;
pub use rbsp::Rbsp;
