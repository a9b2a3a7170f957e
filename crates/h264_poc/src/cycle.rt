//! pic_order_cnt_type 1 (8.2.1.2).
#![tactic(auto)]

ghost use Rattle.std.specs.Prelude.{◌≡◌, ℕ, ◌+◌, ◌-◌, ◌*◌, ◌^◌, ◌<◌, ◌≤◌, ◌≤ℤ◌, neg_ℤ, pos, length, IfSome, IfNone};
ghost use Rattle.h264_poc.specs.Cycle.{sum_of, abs_frame_num, expected, with_non_ref, counts_from, cycle_counts, IsFar};
ghost use Rattle.h264_poc.specs.Within.{count_within};

use crate::picture::{Count, Cycle};
use crate::within::{FieldCounts, count_within};

/// Counts beyond this are out of range, whatever is added to them.
const FAR: i64 = 1 << 48;

/// The sum of offsets.
fn sum_of(offsets: &[i32]) -> i64
    requires { length offsets.now ≤ 255 }
    ensures is { result ≡ sum_of offsets.now }
    ensures above { neg_ℤ (pos (2 ^ 39)) ≤ℤ result }
    ensures below { result ≤ℤ pos (2 ^ 39) }
{
    let mut sum = 0i64;
    for offset in offsets {
        sum += *offset as i64;
    }
    sum
}

/// absFrameNum.
fn abs_frame_num(offsets: &[i32], reference: bool, number: u64) -> u64
    ensures is { result ≡ abs_frame_num offsets.now reference number }
    ensures small { result ≤ number }
    ensures none { length offsets.now ≡ 0 → result ≡ 0 }
{
    if offsets.is_empty() {
        return 0;
    }
    if reference {
        number
    } else {
        number.saturating_sub(1)
    }
}

/// expectedPicOrderCnt before offset_for_non_ref_pic; none where it is far out of range.
fn expected(offsets: &[i32], abs: u64) -> Option<i64>
    requires short { length offsets.now ≤ 255 }
    requires some { length offsets.now ≡ 0 → abs ≡ 0 }
    requires fits { abs < 2 ^ 63 }
    ensures is { IfSome result (λ e. e ≡ expected offsets.now abs) }
    ensures above { IfSome result (λ e. neg_ℤ (pos (2 ^ 49)) ≤ℤ e) }
    ensures below { IfSome result (λ e. e ≤ℤ pos (2 ^ 49)) }
    ensures far { IfNone result (IsFar (expected offsets.now abs)) }
{
    if abs == 0 {
        return Some(0);
    }
    let n = offsets.len() as u64;
    let begun = sum_of(&offsets[..((abs - 1) % n) as usize + 1]);
    let whole = ((abs - 1) / n) as i64;
    let Some(cycles) = whole.checked_mul(sum_of(offsets)) else {
        return None;
    };
    if cycles < -FAR {
        return None;
    }
    if cycles > FAR {
        return None;
    }
    Some(cycles + begun)
}

/// The elements of type 1 beside the cycle.
#[derive(Clone, Copy)]
pub(crate) struct Deltas {
    pub(crate) offset_for_non_ref_pic: i32,
    pub(crate) offset_for_top_to_bottom_field: i32,
    pub(crate) top: i32,
    pub(crate) bottom: i32,
}

/// expectedPicOrderCnt, with offset_for_non_ref_pic.
fn with_non_ref(base: i64, reference: bool, offset_for_non_ref_pic: i32) -> i64
    requires above { neg_ℤ (pos (2 ^ 49)) ≤ℤ base }
    requires below { base ≤ℤ pos (2 ^ 49) }
    ensures is { result ≡ with_non_ref base reference offset_for_non_ref_pic }
    ensures low { neg_ℤ (pos (2 ^ 50)) ≤ℤ result }
    ensures high { result ≤ℤ pos (2 ^ 50) }
{
    if reference {
        return base;
    }
    base + offset_for_non_ref_pic as i64
}

/// The counts of the fields, from expectedPicOrderCnt.
fn counts_from(expected: i64, top_to_bottom: i32, delta_top: i32, delta_bottom: i32) -> FieldCounts
    requires above { neg_ℤ (pos (2 ^ 50)) ≤ℤ expected }
    requires below { expected ≤ℤ pos (2 ^ 50) }
    ensures { result ≡ counts_from expected top_to_bottom delta_top delta_bottom }
{
    let top = expected + delta_top as i64;
    FieldCounts {
        top,
        bottom: top + top_to_bottom as i64 + delta_bottom as i64,
    }
}

/// The counts, where they are in range. `number` is FrameNumOffset + frame_num.
pub(crate) fn cycle_count(
    cycle: &Cycle,
    reference: bool,
    number: u64,
    deltas: Deltas,
) -> Option<Count>
    requires { number < 2 ^ 63 }
    ensures { result ≡ count_within (cycle_counts cycle.now reference number deltas) }
{
    let offsets = cycle.offsets();
    let abs = abs_frame_num(offsets, reference, number);
    let Some(base) = expected(offsets, abs) else {
        return None;
    };
    let expected = with_non_ref(base, reference, deltas.offset_for_non_ref_pic);
    count_within(counts_from(
        expected,
        deltas.offset_for_top_to_bottom_field,
        deltas.top,
        deltas.bottom,
    ))
}
