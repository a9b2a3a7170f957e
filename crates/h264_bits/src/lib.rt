//! Reading the code words of a unit's RBSP (7.2, 9.1), and the syntax elements that they stand for (7.3).
//!
//! `Bits` reads u(n), ue(v), se(v), alignment and trailing bits: each read gives the word that stands at the bit that is
//! next, and an error only where none stands there; then nothing has moved.
//! The readers of elements also tell a sink what they read, and each meets the grammar of one element, so that a function
//! that reads a syntax structure meets that structure's grammar by its steps.
//! Which elements a structure has, and which values they may have, is not decided here.
#![tactic(auto)]

pub mod bits;
mod codes;
pub mod count;
pub mod element;
pub mod forms;
pub mod laws;
mod stretch;
mod window;

pub use bits::{Bits, NoWord};
pub use count::count_of;
pub use element::{
    Ahead, Found, SeenWord, check, look, read_align, read_bits, read_bytes, read_entry,
    read_entry_if, read_flag, read_held_entry, read_residual_bits, read_se, read_te, read_trailing,
    read_u, read_ue, read_word, support, tell_ahead,
};
