//! Held reference frames (8.2.5): what is marked as used for reference once a picture is decoded.
//!
//! `Held` keeps the frames of a sequence in sixteen places. `fill_gap` takes a frame_num that is missing, `mark` the marking of
//! a picture: that of an IDR picture, the sliding window, or memory management control operations. Both promise what
//! `specs/Held.antt` and `specs/Window.antt` define on the list of held frames, and refuse exactly what cannot be met; then
//! nothing has changed. `mark_end` marks at the end of a picture by the header of its first slice. `gaps` has the numbers that are missing before a
//! picture. What a picture predicts from is not decided here.
#![tactic(auto)]

mod ending;
pub mod frame;
pub mod gaps;
pub mod held;
pub mod laws;
mod numbers;
mod operations;
mod steady;
mod window;

pub use ending::{is_window, mark_end, numbering_of, resets};
pub use frame::{Numbering, ReferenceFrame, Term};
pub use held::Held;
