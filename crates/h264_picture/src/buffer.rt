//! How many frames the picture buffer of a sequence holds.
#![tactic(auto)]

ghost use Rattle.std.specs.Prelude.{◌≡◌, ◌≤◌};
ghost use Rattle.h264_picture.specs.Buffer.{buffer_size as buffer_size_of};

use h264_sps::buffer::{dpb_frames, given_frames};
use h264_sps::sps::Sps;

/// How many frames the picture buffer of a sequence holds: max_dec_frame_buffering, if it is given, else MaxDpbFrames of its level and
/// frame size (A.3.1, E.2.1), and one at least; 1 to 16.
pub fn buffer_size(sps: &Sps) -> usize
    ensures value { result ≡ buffer_size_of sps.now }
    ensures some { 1 ≤ result }
    ensures most { result ≤ 16 }
{
    let frames = given_frames(sps).unwrap_or(dpb_frames(sps));
    frames.clamp(1, 16) as usize
}
