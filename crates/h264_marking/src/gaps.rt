//! Gaps in frame_num: the numbers that are missing before a picture (7.4.3), each of which becomes a frame (8.2.5.2).
#![tactic(auto)]

ghost use Rattle.std.specs.Prelude.{◌≡◌, ℕ, ◌+◌, ◌%◌, ◌<◌, ◌≤◌};
ghost use Rattle.std.specs.List.{list_any};
ghost use Rattle.h264_marking.specs.Frames.{has_frame_num};
ghost use Rattle.h264_marking.specs.Gaps.{gap_before, is_new_num};

use crate::frame::{Numbering, ReferenceFrame};
use crate::held::Held;

/// How many numbers are missing before a picture: those between PrevRefFrameNum, which is `prev`, and its frame_num, modulo
/// MaxFrameNum (7.4.3); none before an IDR picture. MaxFrameNum is at most 65,536.
pub fn gap_before(idr: bool, prev: u32, numbering: &Numbering) -> u32
    requires { (0 < numbering.now.max_frame_num) × (numbering.now.max_frame_num ≤ 65536) }
    ensures { result ≡ gap_before idr prev numbering.now }
{
    if idr || numbering.frame_num == prev {
        return 0;
    }
    let max = numbering.max_frame_num as u64;
    let following = prev as u64 + 1;
    ((numbering.frame_num as u64 + max).saturating_sub(following) % max) as u32
}

/// The number that lies so many after this one, modulo MaxFrameNum.
pub fn number_after(number: u32, count: u32, max_frame_num: u32) -> u32
    requires { 0 < max_frame_num }
    ensures { result ≡ (number + count) % max_frame_num }
{
    ((number as u64 + count as u64) % max_frame_num as u64) as u32
}

/// Whether one of these short-term frames has a frame_num.
fn has_short(frames: &[ReferenceFrame], frame_num: u32) -> bool
    ensures { result ≡ list_any (has_frame_num frame_num) frames.now }
{
    frames.iter().any(|f| f.has_frame_num(frame_num))
}

/// Whether a reference picture may have this frame_num: it is neither PrevRefFrameNum, which is `prev`, nor that of a held
/// short-term frame.
pub fn is_new_num(prev: u32, frame_num: u32, held: &Held) -> bool
    ensures { result ≡ is_new_num prev frame_num held.now }
{
    let is_held = has_short(held.frames(), frame_num);
    !(frame_num == prev) && !is_held
}
