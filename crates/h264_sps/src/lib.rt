//! Sequence parameter sets (7.3.2.1.1, 7.4.2.1.1), with their video usability information and HRD parameters (E.1, E.2).
//!
//! `read_sps` takes the RBSP of a unit of nal_unit_type 7 and gives each value in it, or the first rule that it breaks.
//! `vui::read_vui_info` reads the part of it that stands in Annex E.
//! It promises that the set derives in the grammars of `specs/Sps.antt`, `specs/Vui.antt` and `specs/Hrd.antt`, which stand line
//! for line as the standard's tables do, with each rule that is checked at its place; the sink is told each element as soon as its
//! code word was read. Two sets are equal by `==` exactly where their contents are (`laws`). A set is judged here alone: one that
//! was read is accepted (`specs/Usable.antt`), and `buffer` says how many frames it gives the picture buffer.
//! In the VUI the rules on max_dec_frame_buffering are judged. Bit rates, timing and the other values are kept, and not judged.
#![tactic(auto)]

pub mod buffer;
pub mod count_type;
pub mod hrd;
pub mod laws;
pub mod read;
pub mod sps;
pub mod vui;
