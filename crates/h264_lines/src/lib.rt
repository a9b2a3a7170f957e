//! The text of each call that a sink takes, as a line or an object of JSON, and sinks that write them.
//!
//! `unit_line`, `slice_line`, `frame_line`, `element_line` and `verdict_line` make each line without its line end, in ASCII. `LineSink` writes a line, or an
//! object of JSON, for each unit, slice, element or frame to a `Device`, `YuvSink` the samples of each frame, `Y4mSink` frames with their header; `TrailSink`
//! keeps the last 16 elements. A `Sheet` says for what a sink was made. `Choice` and `Reading` say which calls are of one picture or one macroblock.
//! `answer` has the exit status of an answer, and the answer that is told where a sink broke off. `shown` writes a name of a file as it stands in a line.
//!
//! Promised: exactly the texts of `specs/Lines.antt` and `specs/Objects.antt`; that a writer which tells its bytes holds the lines, the samples or the frames
//! of the calls taken, in order, and after a failure a part of the last (`specs/Told.antt`, `specs/Y4m.antt`); that a trail has the last 16 elements;
//! that no control character of ASCII stands in a name as it is shown.
//! Nothing is promised of the head of an object.
#![tactic(auto)]

pub mod answer;
pub mod choice;
pub mod device;
pub mod form;
mod frames;
pub mod head;
pub mod line_sink;
pub mod lines;
pub mod listing;
pub mod names;
pub mod objects;
pub mod reading;
pub mod rows;
pub mod send;
pub mod sheet;
pub mod trail;
pub mod trail_sink;
pub mod y4m_sink;
pub mod yuv_sink;

pub use answer::{answer_status, told_answer};
pub use choice::Choice;
pub use device::{Device, WriteDevice};
pub use form::Form;
pub use head::{Aspect, Head};
pub use line_sink::LineSink;
pub use lines::{
    FrameCall, SliceCall, UnitCall, element_line, frame_line, slice_line, unit_line, verdict_line,
};
pub use listing::Listing;
pub use names::{put_hex, shown};
pub use reading::{Reach, Reading};
pub use send::put_text;
pub use sheet::{Pen, Sheet};
pub use trail::{Element, Trail};
pub use trail_sink::TrailSink;
pub use y4m_sink::Y4mSink;
pub use yuv_sink::YuvSink;
