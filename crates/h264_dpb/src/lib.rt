//! The decoded picture buffer and the order of output (C.4).
//!
//! `Buffer::store` takes a picture that has ended, or a frame that a gap in frame_num stands for, and `flush` empties the buffer. Both write
//! frames to a sink in the order of their counts as places are needed, and promise what `specs/Bumping.antt` defines on the list of frames in the
//! buffer; `laws` says what holds of these steps. What is held for reference is decided elsewhere, and named to `store`. The samples stay where they
//! are: a frame is named by its place, lent by a `FrameStore`, and told to the sink with the rectangle that is shown of it.
//!
//! `Output` is the buffer of a whole stream. `make_way` and `store` take a picture once it has ended and is marked, `miss` the frame of a missing
//! frame_num, and `finish` the end of the input. Each writes the frames that have to leave, as `specs/Turns.antt` defines them from pictures alone:
//! whatever family of frames the places show, the sink is told these.
#![tactic(auto)]

mod buffer;
mod bumping;
mod ended;
mod entry;
mod format;
pub mod frame_sink;
pub mod laws;
mod output;
mod places;
mod sink;

pub use buffer::Buffer;
pub use ended::{Ended, ended_of};
pub use entry::{Entry, Kind, Picture, Placed, Rectangle};
pub use format::rectangle_of;
pub use frame_sink::FrameSink;
pub use output::Output;
pub use sink::FrameOut;
