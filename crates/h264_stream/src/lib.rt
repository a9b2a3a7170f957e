//! A stream and its frames, for callers that hold the bytes themselves.
//!
//! A `Decoder` takes a stream in pieces, or in NAL units without start codes, and keeps each frame that is due until it is taken, and `judge_bytes` judges
//! a stream in memory. A decoder also says what the parameter sets say of the stream (`StreamInfo`), and tells a verdict as an object of JSON, with its place
//! where that was asked for.
//!
//! Promised (`specs/Given.antt`): the frames taken and those that wait are the stream's, in order, up to the answer, which is the verdict on the bytes given,
//! or Memory. The bit that is told counts what was sent, and no start code that was put in (`specs/Sent.antt`). The object has the fields of the answer
//! (`specs/Noted.antt`); the place in it is tested.
#![tactic(auto)]

pub mod decoder;
mod filling;
pub mod info;
pub mod notes;
pub mod queue;
pub mod sent;
pub mod whole;

pub use decoder::Decoder;
pub use info::StreamInfo;
pub use notes::Notes;
pub use queue::{FrameQueue, ShownFrame};
pub use sent::NotSent;
pub use whole::judge_bytes;
