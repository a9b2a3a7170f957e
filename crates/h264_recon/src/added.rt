//! The residual of a macroblock that was read, added to its predicted samples (8.5.14). Blocks without levels are not touched.
#![tactic(auto)]

ghost use Rattle.std.specs.Prelude.{◌≡◌, ◌↔◌, ℕ, ◌+◌, ◌*◌, ◌/◌, ◌%◌, ◌<◌, ◌≤◌, ◌&&◌, IsOk, IfOk, IsTrue, get_or, replicate, pos};
ghost use Rattle.h264_plane.specs.Blocks.{column_of, row_of};
ghost use Rattle.h264_tables.specs.ChromaQp.{chroma_qp_of};
ghost use Rattle.h264_mbsyntax.specs.Stored.{shown};
ghost use Rattle.h264_scale.specs.Residual.{residual_at, residual_fits, d_with_dc};
ghost use Rattle.h264_scale.specs.Macroblock.{luma_d, luma_fits, chroma_fits, levels_fit};
ghost use Rattle.h264_scale.specs.declared.levels.LumaLevels.{LumaLevels};
ghost use Rattle.h264_scale.specs.declared.levels.ChromaLevels.TheVariants as chroma;
ghost use Rattle.h264_recon.specs.Table.{table};
ghost use Rattle.h264_plane.specs.declared.frame.Component.TheVariants.{Y, Cb, Cr};
ghost use Rattle.h264_recon.specs.ReadLevels.{chroma_read, levels_in, AreBlocksOf};
ghost use Rattle.h264_recon.specs.Residuals.{IsAdded, IsBlockAdded, IsChromaOf, AreAdded};

use crate::coefficients::qp_of_chroma;
use crate::scaled::{
    LumaBlocks, ReadLevels, block_with_dc, dc_levels, is_pcm, is_plane_uncoded, luma_block, luma_of,
};
use crate::store::Samples;
use crate::sum::{add_nothing, add8, add16};
use h264_mbsyntax::Macroblock;
use h264_near::block::{column, row};
use h264_scale::{TransformRange, dc2};

/// Adds the residual of the luma block of this number.
#[tactic(auto, unfolding(h264_plane::specs::Blocks::column_of, h264_plane::specs::Blocks::row_of))]
#[inline(always)]
pub fn add_luma_block(
    samples: &mut [u8; 256],
    blocks: &LumaBlocks<'_>,
    b: usize,
    qp: u8,
) -> Result<(), TransformRange>
    requires block { b < 16 }
    requires qp { qp ≤ 51 }
    ensures range { (l : LumaLevels) → AreBlocksOf qp blocks.now l → IsOk result ↔ IsTrue (residual_fits (luma_d qp l (column_of b) (row_of b))) }
    ensures added { IfOk result (λ u. (l : LumaLevels) → AreBlocksOf qp blocks.now l →
        IsBlockAdded 16 samples.old samples.new (column_of b) (row_of b) (residual_at (luma_d qp l (column_of b) (row_of b)))) }
{
    match luma_block(blocks, b, qp)? {
        None => add_nothing::<256>(samples),
        Some(block) => {
            let x = column(b);
            let y = row(b);
            add16(samples, x, y, &block);
        }
    }
    Ok(())
}

/// Adds the residual of luma.
#[inline(always)]
pub fn add_luma(levels: &ReadLevels<'_>, samples: &mut [u8; 256]) -> Result<(), TransformRange>
    requires { levels.now.read.now.qp ≤ 51 }
    ensures range { IsOk result ↔ IsTrue (luma_fits (levels_in levels.now).qp (levels_in levels.now).luma) }
    ensures added { IfOk result (λ u. IsAdded (levels_in levels.now) Y samples.old samples.new) }
{
    let mb = levels.read;
    let blocks = luma_of(mb)?;
    if let LumaBlocks::NotCoded = blocks {
        add_nothing::<256>(samples);
        return Ok(());
    }
    for b in 0..16 {
        add_luma_block(samples, &blocks, b, mb.qp)?;
    }
    Ok(())
}

/// Adds the residual of the block of this number of a chroma plane.
#[inline(always)]
fn add_chroma_block(
    samples: &mut [u8; 64],
    dc: i16,
    mb: &Macroblock,
    c: usize,
    b: usize,
    qp: u8,
) -> Result<(), TransformRange>
    requires place { (c < 2) × (b < 4) }
    requires qp { qp ≤ 51 }
    ensures range { IsOk result ↔ IsTrue (residual_fits (d_with_dc dc (shown 15 (get_or mb.now.contexts.chroma_totals (4 * c + b) 0)
        (get_or mb.now.residual.chroma_ac (4 * c + b) (replicate 15 (pos 0)))) qp)) }
    ensures added { IfOk result (λ u. IsBlockAdded 8 samples.old samples.new (b % 2) (b / 2) (residual_at (d_with_dc dc
        (shown 15 (get_or mb.now.contexts.chroma_totals (4 * c + b) 0) (get_or mb.now.residual.chroma_ac (4 * c + b) (replicate 15 (pos 0)))) qp))) }
{
    let total = mb.contexts.chroma_totals[4 * c + b];
    match block_with_dc(dc, total, &mb.residual.chroma_ac[4 * c + b], qp)? {
        None => add_nothing::<64>(samples),
        Some(block) => add8(samples, b % 2, b / 2, &block),
    }
    Ok(())
}

/// Adds the residual of a chroma plane, Cb 0 or Cr 1, that has levels, by those of its DC coefficients.
#[inline(always)]
fn add_coded_plane(
    mb: &Macroblock,
    levels: &[i16; 4],
    c: usize,
    qp: u8,
    samples: &mut [u8; 64],
) -> Result<(), TransformRange>
    requires plane { c < 2 }
    requires qp { qp ≤ 51 }
    ensures { IsChromaOf qp (chroma.WithDc (record {
      dc = levels.now;
      ac = table 4 (λ k. shown 15 (get_or mb.now.contexts.chroma_totals (4 * c + k) 0) (get_or mb.now.residual.chroma_ac (4 * c + k) (replicate 15 (pos 0))));
    })) result samples.old samples.new }
{
    let dc = dc2(levels, qp)?;
    for b in 0..4 {
        add_chroma_block(samples, dc[2 * (b / 2) + b % 2], mb, c, b, qp)?;
    }
    Ok(())
}

/// Adds the residual of a chroma plane, Cb 0 or Cr 1, of a macroblock that is not I_PCM. A plane without levels costs no transform.
#[inline(always)]
fn add_plane(
    levels: &ReadLevels<'_>,
    c: usize,
    samples: &mut [u8; 64],
) -> Result<(), TransformRange>
    requires plane { c < 2 }
    requires qp { levels.now.read.now.qp ≤ 51 }
    ensures { IsChromaOf (chroma_qp_of levels.now.read.now.qp levels.now.chroma_qp_index_offset) (chroma_read c levels.now.read.now)
        result samples.old samples.new }
{
    let mb = levels.read;
    let dc = dc_levels(&mb.residual.chroma_dc_totals, &mb.residual.chroma_dc, c);
    if is_plane_uncoded(&dc, &mb.contexts.chroma_totals, c) {
        add_nothing::<64>(samples);
        return Ok(());
    }
    let qp = qp_of_chroma(mb.qp, levels.chroma_qp_index_offset);
    add_coded_plane(mb, &dc, c, qp, samples)
}

/// Adds the residual of chroma.
#[inline(always)]
pub fn add_chroma(
    levels: &ReadLevels<'_>,
    cb: &mut [u8; 64],
    cr: &mut [u8; 64],
) -> Result<(), TransformRange>
    requires { levels.now.read.now.qp ≤ 51 }
    ensures range { IsOk result ↔ IsTrue (chroma_fits (levels_in levels.now).qp_cb (levels_in levels.now).cb
        && chroma_fits (levels_in levels.now).qp_cr (levels_in levels.now).cr) }
    ensures cb { IfOk result (λ u. IsAdded (levels_in levels.now) Cb cb.old cb.new) }
    ensures cr { IfOk result (λ u. IsAdded (levels_in levels.now) Cr cr.old cr.new) }
{
    if is_pcm(levels.read.kind) {
        add_nothing::<64>(cb);
        add_nothing::<64>(cr);
        return Ok(());
    }
    add_plane(levels, 0, cb)?;
    add_plane(levels, 1, cr)
}

/// Adds the residual of each plane to the predicted samples of a macroblock. `TransformRange` where a value of its transform is out of range: the
/// samples are then of no use.
#[inline(always)]
pub fn add_residual(levels: &ReadLevels<'_>, own: &mut Samples) -> Result<(), TransformRange>
    requires { levels.now.read.now.qp ≤ 51 }
    ensures range { IsOk result ↔ IsTrue (levels_fit (levels_in levels.now)) }
    ensures added { IfOk result (λ u. AreAdded (levels_in levels.now) own.old own.new) }
{
    add_luma(levels, &mut own.y)?;
    add_chroma(levels, &mut own.cb, &mut own.cr)
}
