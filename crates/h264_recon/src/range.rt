//! Whether each value of the transform of a macroblock that was read is in its range (8.5), without its samples.
#![tactic(auto)]

ghost use Rattle.std.specs.Prelude.{◌≡◌, ℕ, ◌+◌, ◌*◌, ◌<◌, ◌≤◌, ◌&&◌, true, get_or, replicate, pos};
ghost use Rattle.h264_plane.specs.Blocks.{column_of, row_of};
ghost use Rattle.h264_mbsyntax.specs.Stored.{shown};
ghost use Rattle.h264_scale.specs.Residual.{d_of, d_with_dc, residual_fits as values_fit};
ghost use Rattle.h264_scale.specs.Macroblock.{luma_fits, chroma_fits, levels_fit};
ghost use Rattle.h264_scale.specs.declared.levels.ChromaLevels.TheVariants as chroma;
ghost use Rattle.h264_recon.specs.Table.{table};
ghost use Rattle.h264_recon.specs.ReadLevels.{luma_by, chroma_read, levels_in, d_in};

use crate::coefficients::qp_of_chroma;
use crate::scaled::{
    LumaBlocks, ReadLevels, dc_levels, is_pcm, is_plane_uncoded, levels_at, luma_of,
};
use h264_mbsyntax::Macroblock;
use h264_near::block::{column, row};
use h264_scale::{are_small_together, dc2, fits4, fits4_of_dc, fits4_with_dc};

/// Of a block of 16 levels, so many of which are not 0.
#[inline(always)]
fn plain_block_fits(total: u8, levels: &[i16; 16], qp: u8) -> bool
    requires { qp ≤ 51 }
    ensures { result ≡ values_fit (d_of (shown 16 total levels.now) qp) }
{
    if total == 0 {
        return true;
    }
    fits4(levels, qp)
}

/// Of a block by its scaled DC coefficient and its other levels, of which so many are not 0.
#[inline(always)]
fn block_with_dc_fits(dc: i16, total: u8, levels: &[i16; 15], qp: u8) -> bool
    requires { qp ≤ 51 }
    ensures { result ≡ values_fit (d_with_dc dc (shown 15 total levels.now) qp) }
{
    if total == 0 {
        return fits4_of_dc(dc);
    }
    fits4_with_dc(dc, levels, qp)
}

/// Of the luma block of this number.
#[inline(always)]
fn luma_block_fits(blocks: &LumaBlocks<'_>, b: usize, qp: u8) -> bool
    requires block { b < 16 }
    requires qp { qp ≤ 51 }
    ensures { result ≡ values_fit (d_in qp blocks.now (column_of b) (row_of b)) }
{
    match blocks {
        LumaBlocks::NotCoded => true,
        LumaBlocks::Plain(plain) => {
            plain_block_fits(plain.totals[b], levels_at(plain.levels, b), qp)
        }
        LumaBlocks::WithDc(with) => {
            let x = column(b);
            let y = row(b);
            block_with_dc_fits(
                with.dc[4 * y + x],
                with.totals[b],
                levels_at(with.levels, b),
                qp,
            )
        }
    }
}

/// Whether the sizes of the luma levels tell that each block fits. Where they do not tell, nothing is said.
#[inline(always)]
fn is_luma_small(blocks: &LumaBlocks<'_>, qp: u8) -> bool
    requires { qp ≤ 51 }
    ensures { result ≡ true → (x y : ℕ) → x < 4 → y < 4 → values_fit (d_in qp blocks.now x y) ≡ true }
{
    match blocks {
        LumaBlocks::NotCoded => true,
        LumaBlocks::Plain(plain) => are_small_together(plain.levels, qp),
        LumaBlocks::WithDc(_) => false,
    }
}

/// Of luma.
#[inline(always)]
fn luma_fits(mb: &Macroblock) -> bool
    requires { mb.now.qp ≤ 51 }
    ensures { result ≡ luma_fits mb.now.qp (luma_by mb.now.kind mb.now) }
{
    let Ok(blocks) = luma_of(mb) else {
        return false;
    };
    if is_luma_small(&blocks, mb.qp) {
        return true;
    }
    for b in 0..16 {
        if !luma_block_fits(&blocks, b, mb.qp) {
            return false;
        }
    }
    true
}

/// Of the block of this number of a chroma plane.
#[inline(always)]
fn chroma_block_fits(dc: i16, mb: &Macroblock, c: usize, b: usize, qp: u8) -> bool
    requires place { (c < 2) × (b < 4) }
    requires qp { qp ≤ 51 }
    ensures { result ≡ values_fit (d_with_dc dc (shown 15 (get_or mb.now.contexts.chroma_totals (4 * c + b) 0)
        (get_or mb.now.residual.chroma_ac (4 * c + b) (replicate 15 (pos 0)))) qp) }
{
    let total = mb.contexts.chroma_totals[4 * c + b];
    block_with_dc_fits(dc, total, &mb.residual.chroma_ac[4 * c + b], qp)
}

/// Of a chroma plane, Cb 0 or Cr 1, that has levels, by those of its DC coefficients.
#[inline(always)]
fn coded_plane_fits(mb: &Macroblock, levels: &[i16; 4], c: usize, qp: u8) -> bool
    requires plane { c < 2 }
    requires qp { qp ≤ 51 }
    ensures { result ≡ chroma_fits qp (chroma.WithDc (record {
      dc = levels.now;
      ac = table 4 (λ k. shown 15 (get_or mb.now.contexts.chroma_totals (4 * c + k) 0) (get_or mb.now.residual.chroma_ac (4 * c + k) (replicate 15 (pos 0))));
    })) }
{
    let Ok(dc) = dc2(levels, qp) else {
        return false;
    };
    for b in 0..4 {
        if !chroma_block_fits(dc[2 * (b / 2) + b % 2], mb, c, b, qp) {
            return false;
        }
    }
    true
}

/// Of a chroma plane, Cb 0 or Cr 1, of a macroblock that is not I_PCM.
#[inline(always)]
fn plane_fits(mb: &Macroblock, c: usize, qp: u8) -> bool
    requires plane { c < 2 }
    requires qp { qp ≤ 51 }
    ensures { result ≡ chroma_fits qp (chroma_read c mb.now) }
{
    let dc = dc_levels(&mb.residual.chroma_dc_totals, &mb.residual.chroma_dc, c);
    if is_plane_uncoded(&dc, &mb.contexts.chroma_totals, c) {
        return true;
    }
    coded_plane_fits(mb, &dc, c, qp)
}

/// Whether each value of the transform of a macroblock that was read is in its range of 16 bits (8.5). Makes no sample, and transforms those
/// blocks alone whose levels are large.
pub fn residual_fits(levels: &ReadLevels<'_>) -> bool
    requires { levels.now.read.now.qp ≤ 51 }
    ensures { result ≡ levels_fit (levels_in levels.now) }
{
    let mb = levels.read;
    if is_pcm(mb.kind) {
        return true;
    }
    if !luma_fits(mb) {
        return false;
    }
    let qp = qp_of_chroma(mb.qp, levels.chroma_qp_index_offset);
    if !plane_fits(mb, 0, qp) {
        return false;
    }
    plane_fits(mb, 1, qp)
}
