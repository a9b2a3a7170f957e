//! A frame as C reads it.
#![tactic(auto)]

ghost use Rattle.std.specs.Prelude.{◌≡◌, ◌<◌, ◌^◌};
ghost use Rattle.h264_c.specs.Frames.{IsFrame};

use h264_stream::ShownFrame;

/// A frame that is lent: `h264v_frame` of h264v.h.
#[repr(C)]
#[derive(Clone, Copy)]
pub struct CFrame {
    pub samples: *const u8,
    pub size: usize,
    pub width: u32,
    pub height: u32,
    pub count: i32,
}

/// What C reads of a frame, which owns the samples.
pub(crate) fn frame_of(frame: &ShownFrame) -> CFrame
    ensures { IsFrame frame.now result }
{
    CFrame {
        samples: frame.samples.as_ptr(),
        size: frame.samples.len(),
        width: side(frame.width),
        height: side(frame.height),
        count: frame.count,
    }
}

/// A side of a frame in 32 bits, which hold it: no side is longer than MAX_SIDE of h264_plane.
fn side(samples: usize) -> u32
    ensures { samples < 2 ^ 32 → result ≡ samples }
{
    match u32::try_from(samples) {
        Ok(side) => side,
        Err(_) => u32::MAX,
    }
}
