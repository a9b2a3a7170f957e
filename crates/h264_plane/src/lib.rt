//! Planes of samples, frames of three planes, a pool of frames, Clip1, and samples as vectors.
//!
//! A frame is a decoded picture in 4:2:0 (6.2): luma, and two chroma planes of half its width and height.
//! Contracts see a plane by its samples at (column, row), and each write says what every sample of the plane is afterwards.
//! A `FrameStore` lends frames by their places.
//! No call reads or writes outside its plane, and only `new` takes memory. Nothing here knows what the samples mean.
#![tactic(auto)]

mod clip;
mod frame;
mod frame_store;
mod plane;
mod pool;
mod vectors;

pub use clip::clip1;
pub use frame::{Component, Frame};
pub use frame_store::FrameStore;
pub use plane::{MAX_SIDE, Plane, put_row, put_rows};
pub use pool::Pool;
pub use vectors::{beside, eight, narrow, sixteen, widened};
