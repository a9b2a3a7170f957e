//! The levels of a macroblock that was read, and the residual of each of its blocks (8.5).
#![tactic(auto)]

ghost use Rattle.std.specs.Prelude.{◌≡◌, ◌↔◌, ℕ, ◌*◌, ◌<◌, ◌≤◌, ◌&&◌, [], IsOk, IfOk, IsTrue, unwrap_or, get_or, replicate, take, drop, pos};
ghost use Rattle.h264_plane.specs.Blocks.{column_of, row_of};
ghost use Rattle.h264_near.specs.Coded.{CodedMacroblock};
ghost use Rattle.h264_mbsyntax.specs.Stored.{shown};
ghost use Rattle.h264_mbsyntax.specs.Holds.{HoldsMacroblock};
ghost use Rattle.h264_scale.specs.Residual.{residual_at, residual_fits, d_of, d_with_dc, HasEntries, AreIn};
ghost use Rattle.h264_scale.specs.Macroblock.{luma_dc_fits};
ghost use Rattle.h264_recon.specs.ReadLevels.{luma_read, luma_by, is_pcm as is_pcm_of, levels_in, d_in, AreBlocksOf};
ghost use Rattle.h264_near.specs.Coded.{are_blank as are_blank_of};
ghost use Rattle.h264_recon.specs.Levels.{are_zero as are_zero_of, levels_of};

use crate::coefficients::{are_zero, shown4, shown16};
use h264_mbsyntax::{Kind, Macroblock};
use h264_near::block::{are_blank, column, row};
use h264_scale::{TransformRange, dc16, residual4, residual4_of_dc, residual4_with_dc};

/// The levels of a macroblock as they were read, and chroma_qp_index_offset.
#[derive(Clone, Copy)]
pub struct ReadLevels<'a> {
    pub read: &'a Macroblock,
    pub chroma_qp_index_offset: i32,
}

impl<'a> ReadLevels<'a> {
    /// The levels of a macroblock that was read.
    #[inline(always)]
    pub fn new(read: &'a Macroblock, chroma_qp_index_offset: i32) -> ReadLevels<'a>
        ensures read { result.read.now ≡ read.now }
        ensures levels { (coded : CodedMacroblock) → HoldsMacroblock read.now coded → levels_in result ≡ levels_of chroma_qp_index_offset coded }
    {
        ReadLevels {
            read,
            chroma_qp_index_offset,
        }
    }
}

/// The luma blocks of a macroblock that is not Intra 16x16: how many levels of each are not 0, and its levels, by its number.
#[derive(Clone, Copy)]
pub struct PlainBlocks<'a> {
    pub totals: &'a [u8; 16],
    pub levels: &'a [[i16; 16]; 16],
}

/// The luma blocks of Intra 16x16, with their scaled DC coefficients row by row of blocks.
#[derive(Clone, Copy)]
pub struct BlocksWithDc<'a> {
    pub dc: [i16; 16],
    pub totals: &'a [u8; 16],
    pub levels: &'a [[i16; 15]; 16],
}

/// The luma blocks of a macroblock, ready for the transform of each.
#[derive(Clone, Copy)]
pub enum LumaBlocks<'a> {
    /// No block has a level.
    NotCoded,
    Plain(PlainBlocks<'a>),
    WithDc(BlocksWithDc<'a>),
}

/// The residual of a block of 16 levels, so many of which are not 0; none where each number of it is 0.
#[inline(always)]
fn plain_block(total: u8, levels: &[i16; 16], qp: u8) -> Result<Option<[i16; 16]>, TransformRange>
    requires { qp ≤ 51 }
    ensures range { IsOk result ↔ IsTrue (residual_fits (d_of (shown 16 total levels.now) qp)) }
    ensures residual { IfOk result (λ r. HasEntries (unwrap_or r []) (residual_at (d_of (shown 16 total levels.now) qp))) }
    ensures bound { IfOk result (λ r. AreIn 512 (unwrap_or r [])) }
{
    if total == 0 {
        return Ok(None);
    }
    Ok(Some(residual4(levels, qp)?))
}

/// The levels of the block of this number.
#[inline(always)]
pub(crate) fn levels_at<const N: usize>(levels: &[[i16; N]; 16], b: usize) -> &[i16; N]
    requires { b < 16 }
    ensures { result.now ≡ get_or levels.now b (replicate N (pos 0)) }
{
    &levels[b]
}

/// The residual of a block by its scaled DC coefficient and its other levels, of which so many are not 0; none where each number of it is 0.
#[inline(always)]
pub fn block_with_dc(
    dc: i16,
    total: u8,
    levels: &[i16; 15],
    qp: u8,
) -> Result<Option<[i16; 16]>, TransformRange>
    requires { qp ≤ 51 }
    ensures range { IsOk result ↔ IsTrue (residual_fits (d_with_dc dc (shown 15 total levels.now) qp)) }
    ensures residual { IfOk result (λ r. HasEntries (unwrap_or r []) (residual_at (d_with_dc dc (shown 15 total levels.now) qp))) }
    ensures bound { IfOk result (λ r. AreIn 512 (unwrap_or r [])) }
{
    if total != 0 {
        return Ok(Some(residual4_with_dc(dc, levels, qp)?));
    }
    if dc == 0 {
        return Ok(None);
    }
    Ok(Some(residual4_of_dc(dc)?))
}

/// The luma blocks of a macroblock that is not Intra 16x16.
#[inline(always)]
fn plain_blocks(mb: &Macroblock) -> LumaBlocks<'_>
    ensures { AreBlocksOf mb.now.qp result (luma_read mb.now) }
{
    let totals = &mb.contexts.totals;
    if are_blank(totals) {
        return LumaBlocks::NotCoded;
    }
    LumaBlocks::Plain(PlainBlocks {
        totals,
        levels: &mb.residual.luma,
    })
}

/// The luma blocks of a macroblock that was read, or `TransformRange` where a value of the transform of its DC levels is out of range.
#[inline(always)]
pub fn luma_of(mb: &Macroblock) -> Result<LumaBlocks<'_>, TransformRange>
    requires { mb.now.qp ≤ 51 }
    ensures range { IsOk result ↔ IsTrue (luma_dc_fits mb.now.qp (luma_by mb.now.kind mb.now)) }
    ensures blocks { IfOk result (λ blocks. AreBlocksOf mb.now.qp blocks (luma_by mb.now.kind mb.now)) }
{
    match mb.kind {
        Kind::Intra16x16 { mode: _ } => {
            let dc = shown16(&mb.residual.luma_dc, mb.residual.luma_dc_total);
            Ok(LumaBlocks::WithDc(BlocksWithDc {
                dc: dc16(&dc, mb.qp)?,
                totals: &mb.contexts.totals,
                levels: &mb.residual.luma_ac,
            }))
        }
        Kind::Pcm => Ok(LumaBlocks::NotCoded),
        Kind::Intra4x4 => Ok(plain_blocks(mb)),
        Kind::Inter { partition: _ } => Ok(plain_blocks(mb)),
    }
}

/// The residual of the luma block of this number; none where each number of it is 0.
#[inline(always)]
pub fn luma_block(
    blocks: &LumaBlocks<'_>,
    b: usize,
    qp: u8,
) -> Result<Option<[i16; 16]>, TransformRange>
    requires block { b < 16 }
    requires qp { qp ≤ 51 }
    ensures range { IsOk result ↔ IsTrue (residual_fits (d_in qp blocks.now (column_of b) (row_of b))) }
    ensures residual { IfOk result (λ r. HasEntries (unwrap_or r []) (residual_at (d_in qp blocks.now (column_of b) (row_of b)))) }
    ensures bound { IfOk result (λ r. AreIn 512 (unwrap_or r [])) }
{
    match blocks {
        LumaBlocks::NotCoded => Ok(None),
        LumaBlocks::Plain(plain) => plain_block(plain.totals[b], levels_at(plain.levels, b), qp),
        LumaBlocks::WithDc(with) => {
            let x = column(b);
            let y = row(b);
            block_with_dc(
                with.dc[4 * y + x],
                with.totals[b],
                levels_at(with.levels, b),
                qp,
            )
        }
    }
}

/// The DC levels of a chroma plane.
#[inline(always)]
pub fn dc_levels(totals: &[u8; 2], stands: &[[i16; 4]; 2], c: usize) -> [i16; 4]
    requires { c < 2 }
    ensures { result ≡ shown 4 (get_or totals.now c 0) (get_or stands.now c (replicate 4 (pos 0))) }
{
    shown4(&stands[c], totals[c])
}

/// Whether a chroma plane has no level.
pub fn is_plane_uncoded(dc: &[i16; 4], totals: &[u8; 8], c: usize) -> bool
    requires { c < 2 }
    ensures { result ≡ (are_zero_of dc.now && are_blank_of (take 4 (drop (4 * c) totals.now))) }
{
    if !are_zero(dc) {
        return false;
    }
    are_blank(&totals[4 * c..4 * c + 4])
}

/// Whether a macroblock is I_PCM.
#[inline(always)]
pub fn is_pcm(kind: Kind) -> bool
    ensures { result ≡ is_pcm_of kind }
{
    match kind {
        Kind::Pcm => true,
        Kind::Intra4x4 => false,
        Kind::Intra16x16 { mode: _ } => false,
        Kind::Inter { partition: _ } => false,
    }
}
