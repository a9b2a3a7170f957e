//! The sliding window (8.2.5.3), and gaps in frame_num (8.2.5.2).
#![tactic(auto)]

ghost use Rattle.std.specs.Prelude.{◌≡◌, ◌&&◌, not, length, unwrap_or};
ghost use Rattle.std.specs.List.{list_any};
ghost use Rattle.std.specs.Option.{is_some, option_and_then};
ghost use Rattle.h264_marking.specs.Frames.{has_frame_num, has_pic_num, without_pic_num};
ghost use Rattle.h264_marking.specs.Window.{lesser, least_pic_num, slide, missing_frame, with_missing};

use crate::frame::{Numbering, ReferenceFrame, Term};
use crate::numbers::{Places, has_place, remove_pic_num, some_has_frame_num};

fn lesser(a: Option<i64>, b: Option<i64>) -> Option<i64>
    ensures { result ≡ lesser a b }
{
    match (a, b) {
        (Some(x), Some(y)) => Some(x.min(y)),
        (Some(x), None) => Some(x),
        (None, y) => y,
    }
}

/// The least PicNum of the short-term frames, if there are any.
pub(crate) fn least_pic_num(current: &Numbering, frames: &[ReferenceFrame]) -> Option<i64>
    ensures { result ≡ least_pic_num current.now frames.now }
{
    let mut least = None;
    for frame in frames {
        least = lesser(least, frame.pic_num(current));
    }
    least
}

/// The frame that a missing frame_num stands for.
fn missing_frame(frame_num: u32) -> ReferenceFrame
    ensures { result ≡ missing_frame frame_num }
{
    ReferenceFrame {
        picture: None,
        frame_num,
        term: Term::Short,
    }
}

/// Whether some short-term frame has the FrameNum and does not have the PicNum.
fn some_other_has_frame_num(missing: &Numbering, number: i64, frames: &[ReferenceFrame]) -> bool
    ensures { result ≡ list_any (λ f. has_frame_num missing.now.frame_num f && not (has_pic_num missing.now number f)) frames.now }
{
    frames.iter().any(|f| f.has_frame_num(missing.frame_num) && !f.has_pic_num(missing, number))
}

/// How many of the frames do not have the PicNum.
pub(crate) fn count_others(current: &Numbering, number: i64, frames: &[ReferenceFrame]) -> usize
    ensures { result ≡ length (without_pic_num current.now number frames.now) }
{
    frames
        .iter()
        .filter(|f| !f.has_pic_num(current, number))
        .count()
}

/// Lets the frame of a missing frame_num join, for which the window slides first. False where the window cannot, or where a
/// short-term frame that is still held has the number; then nothing has changed.
#[tactic(auto, using(crate::proofs::Kept::any_kept))]
pub(crate) fn fill(missing: &Numbering, places: &mut Places) -> bool
    ensures met { result ≡ is_some (option_and_then (with_missing missing.now.frame_num) (slide missing.now places.old.items)) }
    ensures left { places.new.items ≡ unwrap_or (option_and_then (with_missing missing.now.frame_num) (slide missing.now places.old.items))
        places.old.items }
{
    if has_place(missing, places) {
        if some_has_frame_num(missing.frame_num, places.as_slice()) {
            return false;
        }
        places.push(missing_frame(missing.frame_num));
        return true;
    }
    let Some(least) = least_pic_num(missing, places.as_slice()) else {
        return false;
    };
    if some_other_has_frame_num(missing, least, places.as_slice()) {
        return false;
    }
    remove_pic_num(missing, least, places);
    places.push(missing_frame(missing.frame_num));
    true
}
