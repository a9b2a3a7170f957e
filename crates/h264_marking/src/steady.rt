//! The window once the frames of missing numbers have filled it, but for the long-term frames (8.2.5.2, 8.2.5.3): each next one takes the place of the oldest,
//! so their numbers alone change.
#![tactic(auto)]

ghost use Rattle.std.specs.Prelude.{◌≡◌, ◌+◌, ◌-◌, ◌%◌, ◌<◌, true, length, map};
ghost use Rattle.std.specs.List.{count_by};
ghost use Rattle.h264_marking.specs.Frames.{is_short};
ghost use Rattle.h264_marking.specs.Steady.{is_missing, are_missing, is_window, moved, IsSteady};

use crate::frame::{Numbering, ReferenceFrame, Term};
use crate::gaps::number_after;
use crate::numbers::{Places, frame_places};

/// Whether a frame is a short-term frame.
fn is_short(frame: &ReferenceFrame) -> bool
    ensures { result ≡ is_short frame.now.term }
{
    match frame.term {
        Term::Short => true,
        Term::Long { .. } => false,
    }
}

/// Whether a frame stands for this missing number.
fn is_missing(number: u32, frame: &ReferenceFrame) -> bool
    ensures { result ≡ is_missing number frame.now }
{
    frame.has_frame_num(number) && frame.picture.is_none()
}

/// Whether these stand for the numbers after `before`.
fn are_missing(max_frame_num: u32, before: u32, frames: &[ReferenceFrame]) -> bool
    requires { 0 < max_frame_num }
    ensures { result ≡ are_missing max_frame_num before frames.now }
{
    match frames.split_first() {
        None => true,
        Some((first, rest)) => {
            let number = number_after(before, 1, max_frame_num);
            is_missing(number, first) && are_missing(max_frame_num, number, rest)
        }
    }
}

/// Whether these are long-term frames, and after them so many short-term frames, which stand for the numbers after `before`.
fn is_window(max_frame_num: u32, before: u32, shorts: usize, frames: &[ReferenceFrame]) -> bool
    requires { 0 < max_frame_num }
    ensures { result ≡ is_window max_frame_num before shorts frames.now }
{
    match frames.split_first() {
        None => shorts == 0,
        Some((first, rest)) => {
            if is_short(first) {
                frames.len() == shorts && are_missing(max_frame_num, before, frames)
            } else {
                is_window(max_frame_num, before, shorts, rest)
            }
        }
    }
}

/// How many of the frames are short-term frames.
fn count_shorts(frames: &[ReferenceFrame]) -> usize
    ensures { result ≡ count_by (λ f. is_short f.term) frames.now }
{
    frames.iter().filter(|f| is_short(f)).count()
}

/// The number that lies so many before this one.
fn number_before(number: u32, count: usize, max_frame_num: u32) -> u32
    requires { 0 < max_frame_num }
    ensures { result ≡ (number + max_frame_num - count) % max_frame_num }
{
    ((number as u64 + max_frame_num as u64).saturating_sub(count as u64)
        % max_frame_num as u64) as u32
}

/// Whether all places are taken by long-term frames, and by the frames of missing numbers up to `last`.
pub(crate) fn is_steady(numbering: &Numbering, last: u32, frames: &[ReferenceFrame]) -> bool
    requires { 0 < numbering.now.max_frame_num }
    ensures { result ≡ true → IsSteady numbering.now last frames.now }
{
    let max = numbering.max_frame_num;
    let shorts = count_shorts(frames);
    if shorts == 0 || shorts >= max as usize {
        return false;
    }
    if frames.len() != frame_places(numbering.max_num_ref_frames) as usize {
        return false;
    }
    let before = number_before(last, shorts, max);
    if number_after(before, shorts as u32, max) != last {
        return false;
    }
    is_window(max, before, shorts, frames)
}

/// A short-term frame with the number that lies so far after its own.
fn moved(max_frame_num: u32, count: u32, frame: &ReferenceFrame) -> ReferenceFrame
    requires { 0 < max_frame_num }
    ensures { result ≡ moved max_frame_num count frame.now }
{
    ReferenceFrame {
        picture: frame.picture,
        frame_num: if is_short(frame) {
            number_after(frame.frame_num, count, max_frame_num)
        } else {
            frame.frame_num
        },
        term: frame.term,
    }
}

/// Gives each short-term frame of these the number that lies so far after its own.
fn move_each(max_frame_num: u32, count: u32, frames: &mut [ReferenceFrame])
    requires { 0 < max_frame_num }
    ensures { frames.new ≡ map (moved max_frame_num count) frames.old }
{
    for frame in frames {
        *frame = moved(max_frame_num, count, frame);
    }
}

/// Gives each short-term frame in these places the number that lies so far after its own.
pub(crate) fn move_all(max_frame_num: u32, count: u32, places: &mut Places)
    requires { 0 < max_frame_num }
    ensures { places.new.items ≡ map (moved max_frame_num count) places.old.items }
{
    move_each(max_frame_num, count, places.as_mut_slice());
}
