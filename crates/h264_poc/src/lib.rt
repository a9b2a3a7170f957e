//! Picture order counts (8.2.1).
//!
//! `Counts::next` takes the pictures of a stream in decoding order and gives the counts of each one's fields, for the three
//! values of pic_order_cnt_type. It promises the counts that `specs/Counts.antt` defines of the list of pictures so far, and
//! refuses exactly where they leave their range or two non-reference pictures of type 2 follow each other.
//! `picture_of` is a picture as its counts see it, by the header of its first slice.
//! It keeps a few numbers of the pictures before. Which picture is which, and the order of output, is not decided here.
#![tactic(auto)]

pub mod counts;
mod cycle;
mod lsb;
pub mod picture;
mod slice;
mod step;
mod within;

pub use counts::Counts;
pub use picture::{Count, Cycle, Order, Picture};
pub use slice::picture_of;
