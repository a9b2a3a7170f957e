ghost use Rattle.std.specs.Prelude.{◌≡◌, [], ◌∷◌, ◌*ℤ◌, ◌+◌, ◌<◌, ◌≤◌, ◌↔◌, ℕ, ℤ, pos, get_or, length, IsTrue, IfSome, IsSome, true};
ghost use Rattle.h264_scale.specs.Residual.{AreIn, coefficient};
ghost use Rattle.h264_scale.specs.Fours.{IsShort, IsShortFour, IsShortBlock, IsSmall, AreWithin, plus as plus_of, minus as minus_of, half as half_of};
ghost use Rattle.h264_scale.specs.Fours.{halves as halves_of, joined as joined_of, transposed as transposed_of, block_of, with_dc, factor_at};
ghost use Rattle.h264_scale.specs.Fours.{rounded_block, scaled_block, block_residual_fits, block_residual};
ghost use Rattle.h264_scale.specs.Lanes.{lanes, AreRows, AreWide, by_place, size_below, with_first as with_first_of};
ghost use Rattle.h264_scale.specs.declared.fours.Four.{Four};
ghost use Rattle.h264_scale.specs.declared.fours.Block.{Block};
ghost use Rattle.h264_plane.specs.Clip.{IsIn};

use crate::residual::{V0, V1, V2, factor};
use std::simd::prelude::*;

/// A matrix of numbers of 16 bits, by its rows.
#[derive(Clone, Copy)]
pub struct Rows {
    pub r0: i16x4,
    pub r1: i16x4,
    pub r2: i16x4,
    pub r3: i16x4,
}

/// The sum of two rows.
#[inline(always)]
fn plus(v: i16x4, w: i16x4) -> i16x4
    ensures { (x y : Four) → v ≡ lanes x → w ≡ lanes y → IsShortFour x → IsShortFour y → IsShortFour (plus_of x y) → result ≡ lanes (plus_of x y) }
{
    v + w
}

/// Their difference.
#[inline(always)]
fn minus(v: i16x4, w: i16x4) -> i16x4
    ensures { (x y : Four) → v ≡ lanes x → w ≡ lanes y → IsShortFour x → IsShortFour y → IsShortFour (minus_of x y) → result ≡ lanes (minus_of x y) }
{
    v - w
}

/// Half of a row, rounded down.
#[inline(always)]
fn half(v: i16x4) -> i16x4
    ensures { (x : Four) → v ≡ lanes x → IsShortFour x → result ≡ lanes (half_of x) }
{
    v >> i16x4::splat(1)
}

/// The transform of each column.
#[inline(always)]
fn step(m: Rows) -> Rows
    ensures { (x : Block) → AreRows m x → IsShortBlock x → IsShortBlock (halves_of x) → IsShortBlock (joined_of (halves_of x)) →
        AreRows result (joined_of (halves_of x)) }
{
    let e0 = plus(m.r0, m.r2);
    let e1 = minus(m.r0, m.r2);
    let e2 = minus(half(m.r1), m.r3);
    let e3 = plus(m.r1, half(m.r3));
    Rows {
        r0: plus(e0, e3),
        r1: plus(e1, e2),
        r2: minus(e1, e2),
        r3: minus(e0, e3),
    }
}

/// The matrix with its rows as columns.
#[inline(always)]
fn transposed(m: Rows) -> Rows
    ensures { (x : Block) → AreRows m x → IsShortBlock x → AreRows result (transposed_of x) }
{
    let upper = m.r0.shuffle::<8>(m.r1, [0, 4, 1, 5, 2, 6, 3, 7]);
    let lower = m.r2.shuffle::<8>(m.r3, [0, 4, 1, 5, 2, 6, 3, 7]);
    Rows {
        r0: upper.shuffle::<4>(lower, [0, 1, 8, 9]),
        r1: upper.shuffle::<4>(lower, [2, 3, 10, 11]),
        r2: upper.shuffle::<4>(lower, [4, 5, 12, 13]),
        r3: upper.shuffle::<4>(lower, [6, 7, 14, 15]),
    }
}

/// The residual row by row, from the last values of the transform.
#[inline(always)]
fn rounded_rows(m: Rows) -> [i16; 16]
    ensures value { (x : Block) → AreRows m x → AreWithin 32735 x → result ≡ rounded_block x }
{
    let upper = m.r0.shuffle::<8>(m.r1, [0, 1, 2, 3, 4, 5, 6, 7]);
    let lower = m.r2.shuffle::<8>(m.r3, [0, 1, 2, 3, 4, 5, 6, 7]);
    let all = upper.shuffle::<16>(
        lower,
        [0, 1, 2, 3, 4, 5, 6, 7, 8, 9, 10, 11, 12, 13, 14, 15],
    );
    ((all + i16x16::splat(32)) >> i16x16::splat(6)).to_array()
}

/// Whether the entries are so small that no later value leaves its range: each later value is at most their sum without signs, and a last one may be 32735.
#[inline(always)]
fn are_small(d: &[i32; 16]) -> bool
    ensures { IsTrue result ↔ (size_below 16 d.now ≤ 32735) }
{
    let mut size = 0;
    // One entry of 2 ^ 15 is too much already.
    for x in d {
        size += x.unsigned_abs().min(32768);
    }
    size <= 32735
}

/// Small numbers in 16 bits.
#[inline(always)]
fn narrow(d: i32x16) -> i16x16
    requires { (k : ℕ) → k < 16 → IsIn 32735 (get_or d k (pos 0)) }
    ensures { result ≡ d }
{
    d.cast::<i16>()
}

/// What the coefficients of a block are multiplied by.
#[inline(always)]
fn factors(qp: u8) -> i32x16
    requires { qp ≤ 51 }
    ensures { result ≡ by_place (λ i j. pos (factor_at qp i j)) }
{
    let m = usize::from(qp % 6);
    let even = factor(V0[m], qp) as i32;
    let odd = factor(V1[m], qp) as i32;
    let other = factor(V2[m], qp) as i32;
    i32x4::from_array([even, odd, other, 0]).swizzle::<16>([
        0, 2, 2, 0, 1, 0, 2, 2, 2, 2, 1, 0, 1, 2, 2, 1,
    ])
}

/// The scaled coefficients by place of the scan.
#[inline(always)]
fn products(levels: i16x16, qp: u8) -> i32x16
    requires { qp ≤ 51 }
    ensures { (m : ℕ → ℕ → ℤ) → levels ≡ by_place m → IsShortBlock (block_of m) → result ≡ by_place (λ i j. m i j *ℤ pos (factor_at qp i j)) }
{
    levels.cast::<i32>() * factors(qp)
}

/// The columns of a matrix whose entries stand by place of the scan.
#[inline(always)]
fn columns(d: i16x16) -> Rows
    ensures { (m : ℕ → ℕ → ℤ) → d ≡ by_place m → IsShortBlock (block_of m) → AreRows result (transposed_of (block_of m)) }
{
    Rows {
        r0: d.swizzle::<4>([0, 2, 3, 9]),
        r1: d.swizzle::<4>([1, 4, 8, 10]),
        r2: d.swizzle::<4>([5, 7, 11, 14]),
        r3: d.swizzle::<4>([6, 12, 13, 15]),
    }
}

/// Entries by place of the scan with another first one.
#[inline(always)]
fn with_first(d: i32x16, first: i16) -> i32x16
    ensures { (m : ℕ → ℕ → ℤ) → d ≡ by_place m → AreWide m → result ≡ by_place (with_first_of first m) }
{
    d.shuffle::<16>(
        i32x16::splat(i32::from(first)),
        [16, 1, 2, 3, 4, 5, 6, 7, 8, 9, 10, 11, 12, 13, 14, 15],
    )
}

/// The 16 levels of a block.
#[inline(always)]
fn sixteen(l: &[i16; 16]) -> i16x16
    ensures value { result ≡ by_place (coefficient l.now) }
    ensures range { IsShortBlock (block_of (coefficient l.now)) }
{
    i16x16::from_array([
        l[0], l[1], l[2], l[3], l[4], l[5], l[6], l[7], l[8], l[9], l[10], l[11], l[12], l[13],
        l[14], l[15],
    ])
}

/// The 15 levels after the first place of the scan, with the first of them also at that place, where no level stands.
#[inline(always)]
fn sixteen_after_dc(l: &[i16; 15]) -> i16x16
    ensures value { result ≡ by_place (coefficient (get_or l.now 0 (pos 0) ∷ l.now)) }
    ensures range { IsShortBlock (block_of (coefficient (get_or l.now 0 (pos 0) ∷ l.now))) }
{
    i16x16::from_array([
        l[0], l[0], l[1], l[2], l[3], l[4], l[5], l[6], l[7], l[8], l[9], l[10], l[11], l[12],
        l[13], l[14],
    ])
}

/// The columns of scaled coefficients by place of the scan, if these are small.
#[inline(always)]
fn small_columns(d: i32x16) -> Option<Rows>
    ensures columns { (m : ℕ → ℕ → ℤ) → d ≡ by_place m → AreWide m → IfSome result (λ c. AreRows c (transposed_of (block_of m)) × IsSmall (block_of m)) }
    ensures answers { (m : ℕ → ℕ → ℤ) → d ≡ by_place m → AreWide m → IsSmall (block_of m) → IsSome result }
{
    if !are_small(&d.to_array()) {
        return None;
    }
    Some(columns(narrow(d)))
}

/// The inverse transform of small coefficients, by their columns: no value leaves its range.
#[inline(always)]
fn transform(columns: Rows) -> [i16; 16]
    ensures value { (d : Block) → AreRows columns (transposed_of d) → IsSmall d → result ≡ block_residual d }
    ensures bound { (d : Block) → AreRows columns (transposed_of d) → IsSmall d → AreIn 512 result }
{
    rounded_rows(step(transposed(step(columns))))
}

/// The residual of a block of 16 levels whose scaled coefficients are small.
#[inline(always)]
pub fn small_residual(levels: &[i16; 16], qp: u8) -> Option<[i16; 16]>
    requires { qp ≤ 51 }
    ensures value { IfSome result (λ r. (block_residual_fits (scaled_block qp (block_of (coefficient levels.now))) ≡ true)
        × (r ≡ block_residual (scaled_block qp (block_of (coefficient levels.now))))) }
    ensures answers { IsSmall (scaled_block qp (block_of (coefficient levels.now))) → IsSome result }
    ensures bound { IfSome result (AreIn 512) }
{
    let columns = small_columns(products(sixteen(levels), qp))?;
    Some(transform(columns))
}

/// The residual of a block whose DC coefficient was scaled apart, and whose coefficients are small.
#[inline(always)]
pub fn small_residual_with_dc(dc: i16, levels: &[i16; 15], qp: u8) -> Option<[i16; 16]>
    requires { qp ≤ 51 }
    ensures value { IfSome result (λ r. (block_residual_fits (with_dc dc
        (scaled_block qp (block_of (coefficient (get_or levels.now 0 (pos 0) ∷ levels.now))))) ≡ true)
        × (r ≡ block_residual (with_dc dc (scaled_block qp (block_of (coefficient (get_or levels.now 0 (pos 0) ∷ levels.now))))))) }
    ensures answers { IsSmall (with_dc dc (scaled_block qp (block_of (coefficient (get_or levels.now 0 (pos 0) ∷ levels.now))))) → IsSome result }
    ensures bound { IfSome result (AreIn 512) }
{
    let d = products(sixteen_after_dc(levels), qp);
    let columns = small_columns(with_first(d, dc))?;
    Some(transform(columns))
}
