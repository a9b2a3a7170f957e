//! What the buffer is told of a picture.
#![tactic(auto)]

ghost use Rattle.std.specs.Prelude.{◌≡◌};
ghost use Rattle.h264_dpb.specs.Ending.{drops_by, drops, count_after, ended_of};

use crate::Rectangle;
use crate::format::rectangle_of;
use h264_bits::Found;
use h264_header::{Header, Marking};
use h264_marking::resets;
use h264_sps::sps::Sps;

/// A picture that has ended and is marked.
#[derive(Clone, Copy)]
pub struct Ended {
    /// It is an IDR picture.
    pub idr: bool,
    /// no_output_of_prior_pics_flag; false where it is not there.
    pub drops: bool,
    /// Operation 5 is among its marking.
    pub resets: bool,
    /// It is used for reference.
    pub reference: bool,
    /// Its number in decoding order.
    pub picture: u64,
    /// PicOrderCnt of its frame; 0 after operation 5.
    pub count: i32,
    /// What is shown of its frame.
    pub rectangle: Rectangle,
    /// How many frames the buffer of its sequence holds: 1 to 16.
    pub size: usize,
}

fn drops_by(marking: &Marking) -> bool
    ensures { result ≡ drops_by marking.now }
{
    match marking {
        Marking::Idr {
            no_output_of_prior_pics_flag,
            ..
        } => *no_output_of_prior_pics_flag,
        Marking::SlidingWindow => false,
        Marking::Adaptive(_) => false,
    }
}

/// no_output_of_prior_pics_flag; false where it is not there.
fn drops(marking: &Option<Found<Marking>>) -> bool
    ensures { result ≡ drops marking.now }
{
    match marking {
        None => false,
        Some(found) => drops_by(&found.value),
    }
}

/// The count of a picture's frame: operation 5 takes it from itself (8.2.1).
fn count_after(resets: bool, count: i32) -> i32
    ensures { result ≡ count_after resets count }
{
    if resets { 0 } else { count }
}

/// A picture by its first slice's header, with its number in decoding order, the lesser of its fields' counts, and how many
/// frames the buffer of its sequence holds.
#[tactic(auto, unfolding(crate::specs::Ending::ended_of))]
pub fn ended_of(sps: &Sps, header: &Header, picture: u64, count: i32, size: usize) -> Ended
    ensures { result ≡ ended_of sps.now header.now picture count size }
{
    let resets = resets(&header.marking);
    Ended {
        idr: header.idr_pic_id.is_some(),
        drops: drops(&header.marking),
        resets,
        reference: header.nal_ref_idc != 0,
        picture,
        count: count_after(resets, count),
        rectangle: rectangle_of(sps),
        size,
    }
}
