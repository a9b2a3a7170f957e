ghost use Rattle.std.specs.Prelude.{◌≡◌, ◌↔◌, ◌≤◌, IsTrue, IsOk, IfOk, true, false, MatchResult};
ghost use Rattle.h264_scale.specs.Residual.{HasEntries};
ghost use Rattle.h264_scale.specs.Dc.{dc16_at, dc16_fits, chroma_coefficient, dc2_at, dc2_fits, HasEntries2};
ghost use Rattle.h264_scale.specs.Fours.{IsShort, IsShortFour, IsShortBlock, dc_scaled, dc_four, dc_block as dc_block_of, block_dc_fits, block_dc};
ghost use Rattle.h264_scale.specs.Fours.{dc2_scaled, dc2_four, four_dc_fits, four_dc, matrix_four};

use crate::fours::{Block, Four};
use crate::residual::{V0, coefficients, factor, four_at};
use crate::transform::TransformRange;

/// A DC coefficient of Intra 16x16 luma, scaled (8.5.10).
#[inline(always)]
fn scaled16(f: i32, factor: u32) -> i32
    requires factor { factor ≤ 7424 }
    requires range { IsShort f }
    ensures { result ≡ dc_scaled factor f }
{
    (f * (factor as i32) + 2) >> 2
}

#[inline(always)]
fn scaled_row(f: Four, factor: u32) -> Four
    requires factor { factor ≤ 7424 }
    requires range { IsShortFour f }
    ensures { result ≡ dc_four factor f }
{
    Four {
        a: scaled16(f.a, factor),
        b: scaled16(f.b, factor),
        c: scaled16(f.c, factor),
        d: scaled16(f.d, factor),
    }
}

#[inline(always)]
fn scaled_block(f: Block, factor: u32) -> Block
    requires factor { factor ≤ 7424 }
    requires range { IsShortBlock f }
    ensures { result ≡ dc_block_of factor f }
{
    Block {
        r0: scaled_row(f.r0, factor),
        r1: scaled_row(f.r1, factor),
        r2: scaled_row(f.r2, factor),
        r3: scaled_row(f.r3, factor),
    }
}

/// The scaled DC coefficients of Intra 16x16 luma, from their matrix.
#[tactic(auto, unfolding(crate::specs::Fours::block_dc_fits, crate::specs::Fours::block_dc))]
#[inline(always)]
fn transformed(c: Block, factor: u32) -> Result<[i16; 16], TransformRange>
    requires factor { factor ≤ 7424 }
    requires range { IsShortBlock c }
    ensures { MatchResult result (λ r. (block_dc_fits factor c ≡ true) × (r ≡ block_dc factor c)) (λ _. block_dc_fits factor c ≡ false) }
{
    let f = c.hadamard();
    if !f.fits() {
        return Err(TransformRange);
    }
    let dc = scaled_block(f, factor);
    if !dc.fits() {
        return Err(TransformRange);
    }
    Ok(dc.rows())
}

/// The scaled DC coefficients of the 4x4 blocks of Intra 16x16 luma, row by row of blocks, from their levels by place of the scan (8.5.10).
/// Touches 16 coefficients.
pub fn dc16(levels: &[i16; 16], qp: u8) -> Result<[i16; 16], TransformRange>
    requires { qp ≤ 51 }
    ensures range { IsOk result ↔ IsTrue (dc16_fits levels.now qp) }
    ensures scaled { IfOk result (λ r. HasEntries r (dc16_at levels.now qp)) }
{
    transformed(coefficients(levels), factor(V0[usize::from(qp % 6)], qp))
}

/// A chroma DC coefficient, scaled (8.5.11).
#[inline(always)]
fn scaled2(f: i32, factor: u32) -> i32
    requires factor { factor ≤ 7424 }
    requires range { IsShort f }
    ensures { result ≡ dc2_scaled factor f }
{
    (f * (factor as i32)) >> 1
}

#[inline(always)]
fn scaled_corners(f: Four, factor: u32) -> Four
    requires factor { factor ≤ 7424 }
    requires range { IsShortFour f }
    ensures { result ≡ dc2_four factor f }
{
    Four {
        a: scaled2(f.a, factor),
        b: scaled2(f.b, factor),
        c: scaled2(f.c, factor),
        d: scaled2(f.d, factor),
    }
}

/// The scaled DC coefficients of a chroma plane, from their matrix row by row.
#[tactic(auto, unfolding(crate::specs::Fours::four_dc_fits, crate::specs::Fours::four_dc))]
#[inline(always)]
fn transformed2(c: Four, factor: u32) -> Result<[i16; 4], TransformRange>
    requires factor { factor ≤ 7424 }
    requires range { IsShortFour c }
    ensures { MatchResult result (λ r. (four_dc_fits factor c ≡ true) × (r ≡ four_dc factor c)) (λ _. four_dc_fits factor c ≡ false) }
{
    let f = c.corners();
    if !f.fits() {
        return Err(TransformRange);
    }
    let scaled = scaled_corners(f, factor);
    if !scaled.fits() {
        return Err(TransformRange);
    }
    Ok(scaled.row())
}

/// The DC coefficients of a chroma plane, row by row.
#[inline(always)]
fn chroma_coefficients(levels: &[i16; 4]) -> Four
    ensures value { result ≡ matrix_four (chroma_coefficient levels.now) }
    ensures range { IsShortFour result }
{
    four_at(levels, 0, 1, 2, 3)
}

/// The scaled DC coefficients of the 4x4 blocks of a chroma plane, row by row of blocks, from their four levels (8.5.11). `qp` is that of
/// chroma. Touches 4 coefficients.
pub fn dc2(levels: &[i16; 4], qp: u8) -> Result<[i16; 4], TransformRange>
    requires { qp ≤ 51 }
    ensures range { IsOk result ↔ IsTrue (dc2_fits levels.now qp) }
    ensures scaled { IfOk result (λ r. HasEntries2 r (dc2_at levels.now qp)) }
{
    transformed2(
        chroma_coefficients(levels),
        factor(V0[usize::from(qp % 6)], qp),
    )
}
