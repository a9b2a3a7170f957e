//! The counts of one more picture, from what is kept of those before.
#![tactic(auto)]

ghost use Rattle.std.specs.Prelude.{◌≡◌, ℕ, ◌+◌, ◌-◌, ◌^◌, ◌<◌, ◌≤ℤ◌, neg_ℤ, pos, IfSome};
ghost use Rattle.std.specs.Option.{option_map, SomeIff};
ghost use Rattle.h264_poc.specs.Lsb.{no_prev, msb_of, lsb_counts, prev_after};
ghost use Rattle.h264_poc.specs.Within.{count_within};
ghost use Rattle.h264_poc.specs.Counts.{start_of, prev_by, has_frame_num_offset, frame_num_offset, decoding_order_count, order_counts, field_counts};
ghost use Rattle.h264_poc.specs.Counts.{may_follow, count_with, offset_of, history_after, IsSmall, IsSmallPrev};

use crate::cycle::{Deltas, cycle_count};
use crate::lsb::{Prev, lsb_counts, msb_of, prev_after};
use crate::picture::{Count, Order, Picture};
use crate::within::{FieldCounts, count_within};

/// FrameNumOffset stays below this.
const MOST: u64 = 1 << 62;

/// A number from which on the count of type 2 is out of range.
const FAR: u64 = 1 << 32;

/// What is kept of the pictures before.
#[derive(Clone, Copy)]
pub(crate) struct History {
    /// prevPicOrderCntMsb and prevPicOrderCntLsb.
    pub(crate) prev: Prev,
    /// prevFrameNum.
    pub(crate) frame_num: u32,
    /// prevFrameNumOffset.
    pub(crate) frame_num_offset: u64,
    /// The picture before is a non-reference picture.
    pub(crate) non_reference: bool,
}

/// The counts of a picture, and what is kept then.
#[derive(Clone, Copy)]
pub(crate) struct Step {
    pub(crate) count: Count,
    pub(crate) history: History,
}

fn start_of(idr: bool, prev: Prev) -> Prev
    ensures { result ≡ start_of idr prev }
{
    if idr { Prev { msb: 0, lsb: 0 } } else { prev }
}

fn has_frame_num_offset(order: &Order) -> bool
    ensures { result ≡ has_frame_num_offset order.now }
{
    match order {
        Order::Lsb { .. } => false,
        Order::Cycle { .. } => true,
        Order::DecodingOrder => true,
    }
}

/// FrameNumOffset, where it is small enough.
fn frame_num_offset(picture: &Picture, prev_num: u32, prev_offset: u64) -> Option<u64>
    requires { prev_offset < 2 ^ 62 }
    ensures { SomeIff result (frame_num_offset picture.now prev_num prev_offset < 2 ^ 62) (frame_num_offset picture.now prev_num prev_offset) }
{
    if picture.idr || !has_frame_num_offset(&picture.order) {
        return Some(0);
    }
    if picture.frame_num >= prev_num {
        return Some(prev_offset);
    }
    let offset = prev_offset + picture.max_frame_num as u64;
    if offset < MOST { Some(offset) } else { None }
}

/// The count of type 2. `number` is FrameNumOffset + frame_num.
fn decoding_order_count(idr: bool, reference: bool, number: u64) -> i64
    requires { number < 2 ^ 32 }
    ensures { result ≡ decoding_order_count idr reference number }
{
    if idr {
        return 0;
    }
    let twice = 2 * number as i64;
    if reference { twice } else { twice - 1 }
}

/// The count of type 2, where it is in range.
fn order_count(idr: bool, reference: bool, number: u64) -> Option<Count>
    ensures { result ≡ count_within (order_counts idr reference number) }
{
    if !idr && number >= FAR {
        return None;
    }
    let count = decoding_order_count(idr, reference, if idr { 0 } else { number });
    count_within(FieldCounts {
        top: count,
        bottom: count,
    })
}

/// The counts of a picture, and what it leaves if it is a reference.
#[derive(Clone, Copy)]
struct WithPrev {
    count: Count,
    prev: Prev,
}

/// Type 0, where the counts are in range.
fn lsb_counted(start: Prev, max: u32, lsb: u32, delta_bottom: i32, resets: bool) -> Option<WithPrev>
    requires { IsSmallPrev start }
    ensures count { option_map (λ c. c.count) result ≡ count_within (lsb_counts (msb_of start lsb max) lsb delta_bottom) }
    ensures prev { IfSome result (λ c. c.prev ≡ prev_after resets (msb_of start lsb max) lsb delta_bottom) }
    ensures small { IfSome result (λ c. IsSmallPrev c.prev) }
{
    let msb = msb_of(start, lsb, max);
    let count = count_within(lsb_counts(msb, lsb, delta_bottom))?;
    Some(WithPrev {
        count,
        prev: prev_after(resets, msb, lsb, delta_bottom),
    })
}

/// A picture of type 1 or 2, which leaves nothing.
fn leaving_nothing(count: Option<Count>) -> Option<WithPrev>
    ensures count { option_map (λ c. c.count) result ≡ count }
    ensures prev { IfSome result (λ c. c.prev ≡ no_prev) }
    ensures small { IfSome result (λ c. IsSmallPrev c.prev) }
{
    let count = count?;
    Some(WithPrev {
        count,
        prev: Prev { msb: 0, lsb: 0 },
    })
}

/// The counts of a picture, where they are in range.
fn counted(picture: &Picture, start: Prev, offset: u64) -> Option<WithPrev>
    requires small { IsSmallPrev start }
    requires few { offset < 2 ^ 62 }
    ensures count { option_map (λ c. c.count) result ≡ count_within (field_counts picture.now start offset) }
    ensures prev { IfSome result (λ c. c.prev ≡ prev_by picture.now.order picture.now.resets start) }
    ensures small { IfSome result (λ c. IsSmallPrev c.prev) }
{
    let number = offset + picture.frame_num as u64;
    match &picture.order {
        Order::Lsb {
            max_pic_order_cnt_lsb,
            pic_order_cnt_lsb,
            delta_pic_order_cnt_bottom,
        } => lsb_counted(
            start,
            *max_pic_order_cnt_lsb,
            *pic_order_cnt_lsb,
            *delta_pic_order_cnt_bottom,
            picture.resets,
        ),
        Order::Cycle {
            offset_for_non_ref_pic,
            offset_for_top_to_bottom_field,
            cycle,
            delta_top,
            delta_bottom,
        } => {
            let deltas = Deltas {
                offset_for_non_ref_pic: *offset_for_non_ref_pic,
                offset_for_top_to_bottom_field: *offset_for_top_to_bottom_field,
                top: *delta_top,
                bottom: *delta_bottom,
            };
            leaving_nothing(cycle_count(cycle, picture.reference, number, deltas))
        }
        Order::DecodingOrder => {
            leaving_nothing(order_count(picture.idr, picture.reference, number))
        }
    }
}

/// Whether a picture may follow one that is or is not a reference.
fn may_follow(order: &Order, reference: bool, after_non_reference: bool) -> bool
    ensures { result ≡ may_follow order.now reference after_non_reference }
{
    match order {
        Order::Lsb { .. } => true,
        Order::Cycle { .. } => true,
        Order::DecodingOrder => reference || !after_non_reference,
    }
}

/// What is kept once a picture is counted; `prev` is what it leaves as a reference.
fn history_after(history: History, picture: &Picture, prev: Prev, offset: u64) -> History
    ensures { result ≡ history_after history picture.now prev offset }
{
    History {
        prev: if picture.reference {
            prev
        } else {
            history.prev
        },
        frame_num: if picture.resets { 0 } else { picture.frame_num },
        frame_num_offset: if picture.resets { 0 } else { offset },
        non_reference: !picture.reference,
    }
}

/// The counts of one more picture, where they are in range and it may follow.
pub(crate) fn counted_next(history: History, picture: &Picture) -> Option<Step>
    requires { IsSmall history }
    ensures count { option_map (λ s. s.count) result ≡ count_with picture.now history.prev (offset_of history picture.now) history.non_reference }
    ensures history { IfSome result (λ s. s.history ≡ history_after history picture.now
        (prev_by picture.now.order picture.now.resets (start_of picture.now.idr history.prev)) (offset_of history picture.now)) }
    ensures small { IfSome result (λ s. IsSmall s.history) }
{
    let offset = frame_num_offset(picture, history.frame_num, history.frame_num_offset)?;
    if !may_follow(&picture.order, picture.reference, history.non_reference) {
        return None;
    }
    let start = start_of(picture.idr, history.prev);
    let found = counted(picture, start, offset)?;
    Some(Step {
        count: found.count,
        history: history_after(history, picture, found.prev, offset),
    })
}
