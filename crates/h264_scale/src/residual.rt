ghost use Rattle.std.specs.Prelude.{◌≡◌, ◌↔◌, ℕ, ◌*◌, ◌/◌, ◌^◌, ◌<◌, ◌≤◌, IsTrue, IsOk, IfOk, length, get_or, replicate, ℤ, pos, ◌∷◌, ◌*ℤ◌};
ghost use Rattle.h264_scale.specs.Residual.{AreIn, coefficient, d_of, d_with_dc, residual_at, residual_fits, HasEntries};
ghost use Rattle.h264_scale.specs.Fours.{IsShort, IsShortFour, IsShortBlock, four, block_of, with_dc, scaled_block};

use crate::fours::{Block, Four};
use crate::lanes::{small_residual, small_residual_with_dc};
use crate::transform::{TransformRange, flat, tested_residual};

/// The first column of the matrix v, by qp % 6 (8.5.9): what entries in an even row and an even column are multiplied by.
pub const V0: [u8; 6] = [10, 11, 13, 14, 16, 18];

/// Its second column: for an odd row and an odd column.
pub const V1: [u8; 6] = [16, 18, 20, 23, 25, 29];

/// Its third column: for all other entries.
pub const V2: [u8; 6] = [13, 14, 16, 18, 20, 23];

/// What a coefficient is multiplied by.
#[inline(always)]
pub fn factor(v: u8, qp: u8) -> u32
    requires table { v ≤ 29 }
    requires qp { qp ≤ 51 }
    ensures value { result ≡ v * 2 ^ (qp / 6) }
    ensures bound { result ≤ 7424 }
{
    u32::from(v) << (qp / 6)
}

/// A scaled coefficient.
#[inline(always)]
fn scaled_entry(c: i32, factor: u32) -> i32
    requires factor { factor ≤ 7424 }
    requires range { IsShort c }
    ensures { result ≡ c *ℤ pos factor }
{
    c * (factor as i32)
}

/// A row of scaled coefficients, whose columns are multiplied by two factors in turn.
#[inline(always)]
fn scaled_row(v: Four, left: u32, right: u32) -> Four
    requires left { left ≤ 7424 }
    requires right { right ≤ 7424 }
    requires range { IsShortFour v }
    ensures { result ≡ four (v.a *ℤ pos left) (v.b *ℤ pos right) (v.c *ℤ pos left) (v.d *ℤ pos right) }
{
    Four {
        a: scaled_entry(v.a, left),
        b: scaled_entry(v.b, right),
        c: scaled_entry(v.c, left),
        d: scaled_entry(v.d, right),
    }
}

/// The scaled coefficients (8.5.12.1).
#[inline(always)]
fn scaled(c: Block, qp: u8) -> Block
    requires qp { qp ≤ 51 }
    requires range { IsShortBlock c }
    ensures { result ≡ scaled_block qp c }
{
    let m = usize::from(qp % 6);
    let even = factor(V0[m], qp);
    let odd = factor(V1[m], qp);
    let other = factor(V2[m], qp);
    Block {
        r0: scaled_row(c.r0, even, other),
        r1: scaled_row(c.r1, other, odd),
        r2: scaled_row(c.r2, even, other),
        r3: scaled_row(c.r3, other, odd),
    }
}

/// The levels at four places.
#[inline(always)]
pub fn four_at(levels: &[i16], a: usize, b: usize, c: usize, d: usize) -> Four
    requires a { a < length levels.now }
    requires b { b < length levels.now }
    requires c { c < length levels.now }
    requires d { d < length levels.now }
    ensures value { result ≡ four (get_or levels.now a (pos 0)) (get_or levels.now b (pos 0)) (get_or levels.now c (pos 0)) (get_or levels.now d (pos 0)) }
    ensures range { IsShortFour result }
{
    Four {
        a: i32::from(levels[a]),
        b: i32::from(levels[b]),
        c: i32::from(levels[c]),
        d: i32::from(levels[d]),
    }
}

/// The coefficients of 16 levels, by row and column (8.5.6).
#[inline(always)]
pub fn coefficients(levels: &[i16; 16]) -> Block
    ensures value { result ≡ block_of (coefficient levels.now) }
    ensures range { IsShortBlock result }
{
    Block {
        r0: four_at(levels, 0, 1, 5, 6),
        r1: four_at(levels, 2, 4, 7, 12),
        r2: four_at(levels, 3, 8, 11, 13),
        r3: four_at(levels, 9, 10, 14, 15),
    }
}

/// The coefficients of the 15 levels after the first place of the scan, with the first of them also at that place, where no level stands.
#[inline(always)]
fn coefficients_after_dc(levels: &[i16; 15]) -> Block
    ensures value { with_dc (pos 0) result ≡ block_of (coefficient (pos 0 ∷ levels.now)) }
    ensures range { IsShortBlock result }
{
    Block {
        r0: four_at(levels, 0, 0, 4, 5),
        r1: four_at(levels, 1, 3, 6, 11),
        r2: four_at(levels, 2, 7, 10, 12),
        r3: four_at(levels, 8, 9, 13, 14),
    }
}

/// Whether all levels are 0.
#[inline(always)]
fn are_zero(levels: &[i16]) -> bool
    requires { length levels.now ≤ 16 }
    ensures { IsTrue result → (k : ℕ) → k < length levels.now → get_or levels.now k (pos 0) ≡ pos 0 }
{
    let mut all = true;
    for level in levels {
        all &= *level == 0;
    }
    all
}

/// The residual of a 4x4 block, row by row, from its 16 levels by place of the scan (8.5.12). A block of a DC alone, or of nothing,
/// costs one look at its levels. Touches 16 samples.
pub fn residual4(levels: &[i16; 16], qp: u8) -> Result<[i16; 16], TransformRange>
    requires { qp ≤ 51 }
    ensures range { IsOk result ↔ IsTrue (residual_fits (d_of levels.now qp)) }
    ensures residual { IfOk result (λ r. HasEntries r (residual_at (d_of levels.now qp))) }
    ensures bound { IfOk result (AreIn 512) }
{
    if are_zero(&levels[1..]) {
        let dc = scaled_entry(i32::from(levels[0]), factor(V0[usize::from(qp % 6)], qp));
        return flat(dc);
    }
    match small_residual(levels, qp) {
        Some(residual) => Ok(residual),
        None => tested_residual(scaled(coefficients(levels), qp)),
    }
}

/// The residual of a 4x4 block, row by row, from its scaled DC coefficient and its 15 levels from the second place of the scan on. Where
/// these are 0 it costs one look at them. Touches 16 samples.
pub fn residual4_with_dc(dc: i16, levels: &[i16; 15], qp: u8) -> Result<[i16; 16], TransformRange>
    requires { qp ≤ 51 }
    ensures range { IsOk result ↔ IsTrue (residual_fits (d_with_dc dc levels.now qp)) }
    ensures residual { IfOk result (λ r. HasEntries r (residual_at (d_with_dc dc levels.now qp))) }
    ensures bound { IfOk result (AreIn 512) }
{
    if are_zero(levels) {
        return flat(i32::from(dc));
    }
    if let Some(residual) = small_residual_with_dc(dc, levels, qp) {
        return Ok(residual);
    }
    let mut d = scaled(coefficients_after_dc(levels), qp);
    d.r0.a = i32::from(dc);
    tested_residual(d)
}

/// The residual of a block without levels beside its scaled DC coefficient: each sample is the same.
#[inline(always)]
pub fn residual4_of_dc(dc: i16) -> Result<[i16; 16], TransformRange>
    ensures range { (qp : ℕ) → IsOk result ↔ IsTrue (residual_fits (d_with_dc dc (replicate 15 (pos 0)) qp)) }
    ensures residual { (qp : ℕ) → IfOk result (λ r. HasEntries r (residual_at (d_with_dc dc (replicate 15 (pos 0)) qp))) }
    ensures bound { IfOk result (AreIn 512) }
{
    flat(i32::from(dc))
}
