//! The frames of a stream, compared with a reconstruction: do the decoded samples equal those that an encoder wrote?
//!
//! `CompareSink` is told the frames of a stream in the order of output, and reads a reconstruction beside them: a piece of 4,096 bytes at a time into a
//! buffer of its own, with no copy of a picture. `Numbers` has how many frames there were, how many of them differ, the first sample that differs with its
//! plane, column, row and macroblock, and the sums of the squares of the differences. `open_reconstruction` says how the frames lie in a file: bare, as
//! `decode` writes them, or after the header of YUV4MPEG2. `psnr` makes a ratio of the sums.
//!
//! Promised: that the numbers are those of the samples that the frames have and the bytes that the reader gave for them (`specs/Compared.antt`); that no
//! difference is told exactly where all samples are equal (`laws`); that a reconstruction which is called too short has no byte left.
//! Nothing is promised of what a header says, nor of `psnr`.
#![tactic(auto)]

pub mod comparing;
pub mod given;
pub mod laws;
pub mod lines;
pub mod numbers;
pub mod opening;
pub mod psnr;
pub mod shown;
pub mod sink;

pub use given::{Lack, Layout};
pub use numbers::{Difference, Numbers, Sums};
pub use opening::{Ahead, Opened, Unopened, open_reconstruction};
pub use shown::Place;
pub use sink::CompareSink;
