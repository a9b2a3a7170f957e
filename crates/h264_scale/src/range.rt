//! Whether the values of the transform of a block are in range (8.5.12), without its residual. Mostly the sizes of its levels tell.
#![tactic(auto)]

ghost use Rattle.std.specs.Prelude.{◌≡◌, ℕ, ◌+◌, ◌*◌, ◌<◌, ◌≤◌, true, get_or, replicate, pos};
ghost use Rattle.h264_scale.specs.Residual.{d_of, d_with_dc, residual_fits};
ghost use Rattle.h264_scale.specs.Fours.{factor_at};
ghost use Rattle.h264_scale.specs.Lanes.{size_below};

use crate::residual::{V1, factor, residual4, residual4_of_dc, residual4_with_dc};

/// Coefficients without signs whose sum is no more than this have no value out of range in their transform.
const SMALL: u32 = 32735;

/// The sum of the levels without signs.
#[inline(always)]
fn total_size<const N: usize>(levels: &[i16; N]) -> u32
    requires { N ≤ 16 }
    ensures value { result ≡ size_below N levels.now }
    ensures bound { result ≤ 524288 }
{
    let mut size = 0;
    for level in levels {
        size += u32::from(level.unsigned_abs());
    }
    size
}

/// What a coefficient is multiplied by at most.
#[inline(always)]
fn greatest_factor(qp: u8) -> u32
    requires { qp ≤ 51 }
    ensures most { (i j : ℕ) → factor_at qp i j ≤ result }
    ensures bound { result ≤ 7424 }
{
    factor(V1[usize::from(qp % 6)], qp)
}

/// Whether each value of the transform of a block of 16 levels is in range (8.5.12).
#[inline]
pub fn fits4(levels: &[i16; 16], qp: u8) -> bool
    requires { qp ≤ 51 }
    ensures { result ≡ residual_fits (d_of levels.now qp) }
{
    if total_size(levels) * greatest_factor(qp) <= SMALL {
        return true;
    }
    residual4(levels, qp).is_ok()
}

/// Whether each value of the transform of a block is in range, by its scaled DC coefficient and its 15 levels from the second place of the scan on.
#[inline]
pub fn fits4_with_dc(dc: i16, levels: &[i16; 15], qp: u8) -> bool
    requires { qp ≤ 51 }
    ensures { result ≡ residual_fits (d_with_dc dc levels.now qp) }
{
    if u32::from(dc.unsigned_abs()) + total_size(levels) * greatest_factor(qp) <= SMALL {
        return true;
    }
    residual4_with_dc(dc, levels, qp).is_ok()
}

/// Whether each value of the transform of a block without levels beside its scaled DC coefficient is in range.
#[inline(always)]
pub fn fits4_of_dc(dc: i16) -> bool
    ensures { (qp : ℕ) → result ≡ residual_fits (d_with_dc dc (replicate 15 (pos 0)) qp) }
{
    residual4_of_dc(dc).is_ok()
}

/// The sum of the levels of four blocks without signs.
#[inline(always)]
fn size_of_four(levels: &[[i16; 16]; 16], first: usize) -> u32
    requires { first + 4 ≤ 16 }
    ensures each { (b : ℕ) → first ≤ b → b < first + 4 → size_below 16 (get_or levels.now b (replicate 16 (pos 0))) ≤ result }
    ensures bound { result ≤ 2097152 }
{
    total_size(&levels[first])
        + total_size(&levels[first + 1])
        + total_size(&levels[first + 2])
        + total_size(&levels[first + 3])
}

/// Whether the levels of sixteen blocks are so small together that no value of the transform of any of them leaves its range (8.5.12). Where they are
/// larger nothing is said.
#[inline]
pub fn are_small_together(levels: &[[i16; 16]; 16], qp: u8) -> bool
    requires { qp ≤ 51 }
    ensures { result ≡ true → (b : ℕ) → b < 16 → residual_fits (d_of (get_or levels.now b (replicate 16 (pos 0))) qp) ≡ true }
{
    // Without a loop, since the compiler then adds the blocks side by side.
    let size = size_of_four(levels, 0)
        + size_of_four(levels, 4)
        + size_of_four(levels, 8)
        + size_of_four(levels, 12);
    if size > SMALL {
        return false;
    }
    size * greatest_factor(qp) <= SMALL
}
