//! pic_order_cnt_type 0 (8.2.1.1).
#![tactic(auto)]

ghost use Rattle.std.specs.Prelude.{◌≡◌, ℕ, ◌+◌, ◌-◌, ◌^◌, ◌<◌, ◌≤ℤ◌, neg_ℤ, pos};
ghost use Rattle.h264_poc.specs.Lsb.{msb_of, lsb_counts, reset_top, prev_after};

use crate::within::FieldCounts;

/// prevPicOrderCntMsb and prevPicOrderCntLsb.
#[derive(Clone, Copy, Debug, PartialEq, Eq)]
pub(crate) struct Prev {
    pub(crate) msb: i64,
    pub(crate) lsb: u64,
}

/// PicOrderCntMsb.
pub(crate) fn msb_of(prev: Prev, lsb: u32, max: u32) -> i64
    requires low { neg_ℤ (pos (2 ^ 40)) ≤ℤ prev.msb }
    requires high { prev.msb ≤ℤ pos (2 ^ 40) }
    ensures is { result ≡ msb_of prev lsb max }
    ensures above { neg_ℤ (pos (2 ^ 41)) ≤ℤ result }
    ensures below { result ≤ℤ pos (2 ^ 41) }
{
    let lsb = lsb as u64;
    let half = (max / 2) as u64;
    if lsb < prev.lsb && prev.lsb - lsb >= half {
        return prev.msb + max as i64;
    }
    if lsb > prev.lsb && lsb - prev.lsb > half {
        return prev.msb - max as i64;
    }
    prev.msb
}

/// The counts of the fields.
pub(crate) fn lsb_counts(msb: i64, lsb: u32, delta_bottom: i32) -> FieldCounts
    requires above { neg_ℤ (pos (2 ^ 41)) ≤ℤ msb }
    requires below { msb ≤ℤ pos (2 ^ 41) }
    ensures { result ≡ lsb_counts msb lsb delta_bottom }
{
    let top = msb + lsb as i64;
    FieldCounts {
        top,
        bottom: top + delta_bottom as i64,
    }
}

/// TopFieldOrderCnt once the lesser count is taken from it.
fn reset_top(counts: FieldCounts) -> u64
    ensures { result ≡ reset_top counts }
{
    counts.top.abs_diff(counts.top.min(counts.bottom))
}

/// What a reference picture leaves.
pub(crate) fn prev_after(resets: bool, msb: i64, lsb: u32, delta_bottom: i32) -> Prev
    requires above { neg_ℤ (pos (2 ^ 40)) ≤ℤ msb }
    requires below { msb ≤ℤ pos (2 ^ 40) }
    ensures is { result ≡ prev_after resets msb lsb delta_bottom }
    ensures low { neg_ℤ (pos (2 ^ 40)) ≤ℤ result.msb }
    ensures high { result.msb ≤ℤ pos (2 ^ 40) }
{
    if resets {
        return Prev {
            msb: 0,
            lsb: reset_top(lsb_counts(msb, lsb, delta_bottom)),
        };
    }
    Prev {
        msb,
        lsb: lsb as u64,
    }
}
