//! A survey of a stream: what its calls tell of sets, units, slices, pictures and macroblocks.
//!
//! `Surveyed` stands around another sink: it notes each call in a `Survey` and hands it on; `Narrowed` hands on what is chosen alone. Promised: the sink
//! inside takes the calls as if it stood alone, or what `specs/Chosen.antt` leaves of them; and the survey has what these calls tell (`specs/Surveyed.antt`),
//! all of it unless memory was wanting for a set or a picture. It is safe, total, and never fails a call. Its memory grows with the pictures alone.
#![tactic(auto)]

pub mod counts;
pub mod meter;
pub mod narrowed;
pub mod notes;
pub mod picture;
pub mod pictures;
pub mod sequence;
pub mod sets;
pub mod slice;
pub mod surveyed;

pub use counts::MacroblockCounts;
pub use h264_lines::{Choice, Reach, Reading};
pub use meter::{Meter, NoMeter};
pub use narrowed::Narrowed;
pub use notes::Survey;
pub use picture::{Picture, PictureKind};
pub use pictures::Pictures;
pub use sequence::{AspectRatio, Cropping, PictureSet, Sequence, Timing};
pub use sets::{ParameterSet, Sets};
pub use slice::{Slice, Unit};
pub use surveyed::Surveyed;
