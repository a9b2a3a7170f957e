//! The range of counts (8.2.1).
#![tactic(auto)]

ghost use Rattle.std.specs.Prelude.{◌≡◌, ◌^◌, ◌-◌, ◌≤ℤ◌, neg_ℤ, pos, IfSome};
ghost use Rattle.h264_poc.specs.Within.{is_in_range, count_within};

use crate::picture::Count;

/// TopFieldOrderCnt and BottomFieldOrderCnt, in range or not.
#[derive(Clone, Copy)]
pub(crate) struct FieldCounts {
    pub(crate) top: i64,
    pub(crate) bottom: i64,
}

fn is_in_range(z: i64) -> bool
    ensures { result ≡ is_in_range z }
{
    z >= i32::MIN as i64 && z <= i32::MAX as i64
}

/// The counts, where both are in range.
pub(crate) fn count_within(counts: FieldCounts) -> Option<Count>
    ensures is { result ≡ count_within counts }
    ensures low { IfSome result (λ _. neg_ℤ (pos (2 ^ 31)) ≤ℤ counts.top) }
    ensures high { IfSome result (λ _. counts.top ≤ℤ pos (2 ^ 31 - 1)) }
{
    if is_in_range(counts.top) && is_in_range(counts.bottom) {
        return Some(Count {
            top: counts.top as i32,
            bottom: counts.bottom as i32,
        });
    }
    None
}
