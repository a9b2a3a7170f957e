//! What the edges of a macroblock have in common in a plane.
#![tactic(auto)]

ghost use Rattle.std.specs.Prelude.{◌≡◌, ◌≤◌, true, false};
ghost use Rattle.h264_tables.specs.ChromaQp.{clip_51};
ghost use Rattle.h264_deblock.specs.Steps.{side_qp};
ghost use Rattle.h264_deblock.specs.Level.{IsLevelOf};

use crate::limits::{Level, level_of};
use crate::named::Word;
use crate::slice_filter::SliceFilter;
use h264_tables::chroma_qp;

/// The edge between a macroblock and the one beside it: the strengths, and the quantisation parameter of that one. The strengths come first, since a copy
/// moves four bytes and then one: it waits where the four were not written as one.
#[derive(Clone, Copy)]
pub(crate) struct Border {
    pub strengths: Word,
    pub qp: u8,
}

/// Clip3(0, 51, z).
#[inline]
fn clip_51(z: i64) -> u8
    ensures here { result ≡ clip_51 z }
    ensures within { result ≤ 51 }
{
    z.clamp(0, 51) as u8
}

/// The quantisation parameter of luma, or of chroma: QPC by QPY and chroma_qp_index_offset (8.5.8).
#[inline]
pub(crate) fn qp_in(chroma: bool, qp: u8, filter: SliceFilter) -> u8
    ensures { result ≡ side_qp chroma qp filter.chroma_qp_index_offset }
{
    if chroma {
        return chroma_qp(clip_51(qp as i64 + filter.chroma_qp_index_offset as i64), 0);
    }
    qp
}

/// What the edges of a macroblock have in common in a plane: its quantisation parameters, and the level of its inner edges.
#[derive(Clone, Copy)]
pub(crate) struct PlaneLevel<'a> {
    /// The quantisation parameter of luma.
    pub luma_qp: u8,
    /// And that of this plane.
    pub qp: u8,
    pub inner: Level,
    /// The filter of its slice.
    pub filter: &'a SliceFilter,
}

/// What they have in common in a plane of luma, or of chroma.
#[inline(always)]
pub(crate) fn plane_level<const CHROMA: bool>(qp: u8, filter: &SliceFilter) -> PlaneLevel<'_>
    ensures luma { result.luma_qp ≡ qp }
    ensures qp { result.qp ≡ side_qp CHROMA result.luma_qp result.filter.now.chroma_qp_index_offset }
    ensures filter { result.filter.now ≡ filter.now }
    ensures inner { IsLevelOf result.inner result.qp result.qp result.filter.now }
{
    let plane_qp = qp_in(CHROMA, qp, *filter);
    PlaneLevel {
        luma_qp: qp,
        qp: plane_qp,
        inner: level_of(plane_qp, plane_qp, filter),
        filter,
    }
}

/// The level of the edge to the macroblock beside: that of the inner edges where both have one quantisation parameter.
#[inline(always)]
pub(crate) fn level_beside<const CHROMA: bool>(border: &Border, own: &PlaneLevel<'_>) -> Level
    requires qp { own.now.qp ≡ side_qp CHROMA own.now.luma_qp own.now.filter.now.chroma_qp_index_offset }
    requires inner { IsLevelOf own.now.inner own.now.qp own.now.qp own.now.filter.now }
    ensures { IsLevelOf result (side_qp CHROMA border.now.qp own.now.filter.now.chroma_qp_index_offset) own.now.qp own.now.filter.now }
{
    if border.qp == own.luma_qp {
        return own.inner;
    }
    level_of(qp_in(CHROMA, border.qp, *own.filter), own.qp, own.filter)
}
