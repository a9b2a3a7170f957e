//! The places that the frames are in, and tests of their numbers (8.2.4.1).
#![tactic(auto)]

ghost use Rattle.std.specs.Prelude.{◌≡◌, length, nat_lt};
ghost use Rattle.std.specs.List.{list_any};
ghost use Rattle.h264_marking.specs.Frames.{frame_places, has_pic_num, has_index, has_frame_num, without_pic_num, without_index};

use crate::frame::{Numbering, ReferenceFrame};
use arrayvec::ArrayVec;

/// Sixteen places, of which the sequence may use fewer.
pub(crate) type Places = ArrayVec<ReferenceFrame, 16>;

/// How many frames are held at most.
pub(crate) fn frame_places(max_num_ref_frames: u32) -> u32
    ensures { result ≡ frame_places max_num_ref_frames }
{
    max_num_ref_frames.max(1).min(16)
}

/// Whether a place is free for one more frame.
pub(crate) fn has_place(current: &Numbering, places: &Places) -> bool
    ensures { result ≡ nat_lt (length places.now.items) (frame_places current.now.max_num_ref_frames) }
{
    places.len() < frame_places(current.max_num_ref_frames) as usize
}

/// A copy of these frames.
pub(crate) fn copied(places: &Places) -> Places
    ensures { result.items ≡ places.now.items }
{
    let mut copy = ArrayVec::new();
    let _ = copy.try_extend_from_slice(places.as_slice());
    copy
}

/// Whether some short-term frame has the FrameNum.
pub(crate) fn some_has_frame_num(frame_num: u32, frames: &[ReferenceFrame]) -> bool
    ensures { result ≡ list_any (has_frame_num frame_num) frames.now }
{
    frames.iter().any(|f| f.has_frame_num(frame_num))
}

/// Whether some short-term frame has the PicNum.
pub(crate) fn some_has_pic_num(current: &Numbering, number: i64, frames: &[ReferenceFrame]) -> bool
    ensures { result ≡ list_any (has_pic_num current.now number) frames.now }
{
    frames.iter().any(|f| f.has_pic_num(current, number))
}

/// Whether some long-term frame has the index.
pub(crate) fn some_has_index(index: u32, frames: &[ReferenceFrame]) -> bool
    ensures { result ≡ list_any (has_index index) frames.now }
{
    frames.iter().any(|f| f.has_index(index))
}

/// Removes the short-term frames with the PicNum.
pub(crate) fn remove_pic_num(current: &Numbering, number: i64, places: &mut Places)
    ensures { places.new.items ≡ without_pic_num current.now number places.old.items }
{
    places.retain(|f| !f.has_pic_num(current, number));
}

/// Removes the long-term frames with the index.
pub(crate) fn remove_index(index: u32, places: &mut Places)
    ensures { places.new.items ≡ without_index index places.old.items }
{
    places.retain(|f| !f.has_index(index));
}
