//! What a sequence parameter set says of what is shown of frames.
#![tactic(auto)]

ghost use Rattle.std.specs.Prelude.{◌≡◌};
ghost use Rattle.h264_dpb.specs.Rectangles.{whole, leaves, is_within, rectangle_of};

use crate::Rectangle;
use h264_sps::sps::{FrameCropping, FrameSize, Sps};

/// Whether so many chroma samples on two sides leave something of so many macroblocks.
fn leaves(first: u32, second: u32, macroblocks: u32) -> bool
    ensures { result ≡ leaves first second macroblocks }
{
    (first as u64 + second as u64) < 8 * macroblocks as u64
}

/// Whether a cropping rectangle lies in a frame of this size. In each set that was accepted it does (7.4.2.1.1).
fn is_within(cropping: FrameCropping, size: FrameSize) -> bool
    ensures { result ≡ is_within cropping size }
{
    leaves(cropping.left, cropping.right, size.width)
        && leaves(cropping.top, cropping.bottom, size.height)
}

/// All of a frame.
pub(crate) fn whole() -> Rectangle
    ensures { result ≡ whole }
{
    Rectangle {
        left: 0,
        right: 0,
        top: 0,
        bottom: 0,
    }
}

/// The part of a sequence's frames that is shown: its cropping rectangle, or all where it has none.
#[tactic(auto, unfolding(crate::specs::Rectangles::rectangle_of))]
pub fn rectangle_of(sps: &Sps) -> Rectangle
    ensures { result ≡ rectangle_of sps.now }
{
    let Some(cropping) = sps.frame_cropping else {
        return whole();
    };
    if !is_within(cropping, sps.frame_size) {
        return whole();
    }
    Rectangle {
        left: cropping.left as usize,
        right: cropping.right as usize,
        top: cropping.top as usize,
        bottom: cropping.bottom as usize,
    }
}
