//! A writer of syntax elements, for tests (7.2, 7.3.1, 9.1).
//!
//! A `Writer` takes values in u(n), ue(v), se(v), te(v) and as words of tables, and the trailing bits, and gives the bytes of an
//! RBSP; `unit` makes a NAL unit of these, with emulation prevention bytes.
//! Promised: in all bytes that begin with the bits that were written, each value stands at its place, as the readers' definitions
//! say; a unit's bytes are those of a unit of a byte stream, and its RBSP is the one given.
//! Which elements follow one another, and whether their values make sense, is not looked at.
#![tactic(auto)]

pub mod escape;
mod pack;
mod rows;
mod spell;
pub mod writer;

pub use escape::unit;
pub use writer::{WriteError, Writer};
