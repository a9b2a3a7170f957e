//! Modification of the list (8.2.4.3).
#![tactic(auto)]

ghost use Rattle.std.specs.Prelude.{◌≡◌, ℕ, ◌+◌, ◌-◌, ◌<◌, ◌≤◌, ◌++◌, pos, length, take, drop, remove, position};
ghost use Rattle.std.specs.List.{find};
ghost use Rattle.std.specs.Result.{result_map_both};
ghost use Rattle.h264_lists.specs.Modified.{IsWithin, lowered, raised, pred_after, pic_num_of, is_named, is_in, without_first, put_at, modified, source};
ghost use Rattle.h264_lists.specs.Built.{list_answer};

use crate::slot::RefSlot;
use arrayvec::ArrayVec;
use h264_base::{Rule, Stop};
use h264_header::{Modification, PicNumModification};
use h264_marking::{Numbering, ReferenceFrame};

/// picNumL0NoWrap of command 0.
fn lowered(current: &Numbering, pred: i64, abs_diff_pic_num_minus1: u32) -> i64
    requires { IsWithin 16 pred }
    ensures value { result ≡ lowered current.now pred abs_diff_pic_num_minus1 }
    ensures grows { (n : ℕ) → IsWithin n pred → IsWithin (n + 1) result }
{
    let number = pred - (abs_diff_pic_num_minus1 as i64 + 1);
    if number < 0 {
        return number + current.max_frame_num as i64;
    }
    number
}

/// picNumL0NoWrap of command 1.
fn raised(current: &Numbering, pred: i64, abs_diff_pic_num_minus1: u32) -> i64
    requires { IsWithin 16 pred }
    ensures value { result ≡ raised current.now pred abs_diff_pic_num_minus1 }
    ensures grows { (n : ℕ) → IsWithin n pred → IsWithin (n + 1) result }
{
    let number = pred + (abs_diff_pic_num_minus1 as i64 + 1);
    if number >= current.max_frame_num as i64 {
        return number - current.max_frame_num as i64;
    }
    number
}

/// picNumL0NoWrap after a modification.
fn pred_after(current: &Numbering, pred: i64, modification: Modification) -> i64
    requires { IsWithin 16 pred }
    ensures value { result ≡ pred_after current.now pred modification }
    ensures grows { (n : ℕ) → IsWithin n pred → IsWithin (n + 1) result }
{
    match modification {
        Modification::Subtract {
            abs_diff_pic_num_minus1,
        } => lowered(current, pred, abs_diff_pic_num_minus1),
        Modification::Add {
            abs_diff_pic_num_minus1,
        } => raised(current, pred, abs_diff_pic_num_minus1),
        Modification::LongTerm { .. } => pred,
    }
}

/// picNumL0.
fn pic_num_of(current: &Numbering, no_wrap: i64) -> i64
    requires { IsWithin 16 no_wrap }
    ensures { result ≡ pic_num_of current.now no_wrap }
{
    if no_wrap > current.frame_num as i64 {
        return no_wrap - current.max_frame_num as i64;
    }
    no_wrap
}

/// Whether a modification names a frame, where picNumL0NoWrap is so.
fn is_named(
    current: &Numbering,
    no_wrap: i64,
    modification: Modification,
    frame: &ReferenceFrame,
) -> bool
    requires { IsWithin 16 no_wrap }
    ensures { result ≡ is_named current.now no_wrap modification frame.now }
{
    match modification {
        Modification::Subtract { .. } | Modification::Add { .. } => {
            frame.has_pic_num(current, pic_num_of(current, no_wrap))
        }
        Modification::LongTerm { long_term_pic_num } => frame.has_index(long_term_pic_num),
    }
}

/// The held frame that a modification names.
fn named_frame(
    current: &Numbering,
    no_wrap: i64,
    modification: Modification,
    frames: &[ReferenceFrame],
) -> Option<ReferenceFrame>
    requires { IsWithin 16 no_wrap }
    ensures { result ≡ find (is_named current.now no_wrap modification) frames.now }
{
    frames
        .iter()
        .copied()
        .find(|frame| is_named(current, no_wrap, modification, frame))
}

/// Whether the named frame stands in a place.
fn is_in(current: &Numbering, no_wrap: i64, modification: Modification, slot: &RefSlot) -> bool
    requires { IsWithin 16 no_wrap }
    ensures { result ≡ is_in (is_named current.now no_wrap modification) slot.now }
{
    match slot {
        RefSlot::NoPicture => false,
        RefSlot::Held(frame) => is_named(current, no_wrap, modification, frame),
    }
}

/// The first of these places in which the named frame stands.
fn occurrence(
    current: &Numbering,
    no_wrap: i64,
    modification: Modification,
    slots: &[RefSlot],
) -> Option<usize>
    requires { IsWithin 16 no_wrap }
    ensures { result ≡ position (is_in (is_named current.now no_wrap modification)) slots.now }
{
    slots
        .iter()
        .position(|slot| is_in(current, no_wrap, modification, slot))
}

/// The place that the named frame leaves as it moves to index k: its first at or after k, or else the last of the list.
fn left_place(
    current: &Numbering,
    no_wrap: i64,
    modification: Modification,
    slots: &[RefSlot],
    k: usize,
) -> usize
    requires bound { IsWithin 16 no_wrap }
    requires in_list { k < length slots.now }
    ensures within { result < length slots.now }
    ensures others { take (length slots.now - 1) (take k slots.now ++ without_first (is_in (is_named current.now no_wrap modification))
        (drop k slots.now)) ≡ remove slots.now result }
{
    match occurrence(current, no_wrap, modification, &slots[k..]) {
        Some(following) => k + following,
        None => slots.len() - 1,
    }
}

/// Puts the named frame at index k of the list.
fn put_at(
    current: &Numbering,
    no_wrap: i64,
    modification: Modification,
    frame: ReferenceFrame,
    k: usize,
    slots: &mut ArrayVec<RefSlot, 16>,
)
    requires { IsWithin 16 no_wrap }
    ensures value { slots.new.items ≡ put_at (length slots.old.items) k (is_named current.now no_wrap modification) frame slots.old.items }
    ensures len { length slots.new.items ≡ length slots.old.items }
{
    if k >= slots.len() {
        return;
    }
    let place = left_place(current, no_wrap, modification, slots.as_slice(), k);
    slots.remove(place);
    slots.insert(k, RefSlot::Held(frame));
}

/// Makes the modifications of the list in turn, the first at index 0.
///
/// No: a modification names a frame that is not held; the rule is ListCommand, at the modification's bit.
pub(crate) fn modify(
    current: &Numbering,
    frames: &[ReferenceFrame],
    modifications: &[PicNumModification],
    slots: &mut ArrayVec<RefSlot, 16>,
) -> Result<(), Stop>
    requires { length modifications.now ≤ 16 }
    ensures { result_map_both (λ _. slots.new) (λ stop. stop) result ≡ list_answer
        (modified (source current.now (length slots.old.items) frames.now) 0 (pos current.now.frame_num) modifications.now slots.old.items) }
{
    let mut no_wrap = current.frame_num as i64;
    for (k, command) in modifications.iter().enumerate() {
        no_wrap = pred_after(current, no_wrap, command.modification);
        let Some(frame) = named_frame(current, no_wrap, command.modification, frames) else {
            return Err(Stop::No {
                bit: command.bit,
                rule: Rule::ListCommand,
            });
        };
        put_at(current, no_wrap, command.modification, frame, k, slots);
    }
    Ok(())
}
