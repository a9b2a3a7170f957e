//! The reference picture list of a P slice (8.2.4).
//!
//! `build` takes the held frames and what the slice header says of the list: its length, and its modifications. It promises
//! the list that `specs/Built.antt` defines: short-term frames by falling PicNum, then long-term frames by rising
//! LongTermPicNum, cut or filled to length, and then modified; and refuses exactly a modification that names no held frame.
//! Whether a frame exists that is predicted from is not decided here.
#![tactic(auto)]

mod initial;
pub mod laws;
mod list;
mod modified;
pub mod slot;

pub use list::build;
pub use slot::RefSlot;
