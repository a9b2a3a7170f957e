//! The edges of a macroblock of the coded picture, filtered by their strengths and by what they have in common (8.7).
#![tactic(auto)]

ghost use Rattle.std.specs.Prelude.{◌≡◌, ◌+◌, ◌*◌, ◌<◌, ◌≤◌, true, false, IsTrue, is_some};
ghost use Rattle.h264_plane.specs.Samples.{at, size_along, size_across, ShowsSamples};
ghost use Rattle.h264_deblock.specs.Edge.{edge_at};
ghost use Rattle.h264_deblock.specs.Filtering.{edge_or, edges_done};
ghost use Rattle.h264_deblock.specs.CodedEdges.{filters};
ghost use Rattle.h264_deblock.specs.Steps.{side_qp, border_edge, inner_edge};
ghost use Rattle.h264_deblock.specs.Words.{named_border, HasWord};
ghost use Rattle.h264_deblock.specs.Marks.{AreMarks, AreStill, luma_by, chroma_by};
ghost use Rattle.h264_deblock.specs.Level.{names, IsWord, IsLevelOf};

use crate::edges::{edge, edge_pair};
use crate::named::{Word, is_zero};
use crate::plane_level::{Border, PlaneLevel, level_beside, plane_level};
use crate::slice_filter::SliceFilter;
use crate::strengths::InnerStrengths;
use h264_plane::{Frame, Plane};

/// The strengths of the edges of a macroblock: to those beside it, where they are filtered, and inside it.
#[derive(Clone, Copy)]
pub(crate) struct Marks {
    pub left: Option<Border>,
    pub above: Option<Border>,
    pub inner: InnerStrengths,
}

/// Filters the edge of luma to the macroblock beside, where it is filtered.
#[inline(always)]
fn luma_border<const VERTICAL: bool>(
    plane: &mut Plane,
    along: usize,
    across: usize,
    border: &Option<Border>,
    own: &PlaneLevel<'_>,
)
    requires along { along + 16 ≤ size_along VERTICAL plane.old }
    requires before { IsTrue (is_some border.now) → 4 ≤ across }
    requires following { across + 4 ≤ size_across VERTICAL plane.old }
    requires word { HasWord border.now }
    requires qp { own.now.qp ≡ side_qp false own.now.luma_qp own.now.filter.now.chroma_qp_index_offset }
    requires inner { IsLevelOf own.now.inner own.now.qp own.now.qp own.now.filter.now }
    ensures { ShowsSamples plane.old plane.new
        (edge_or (border_edge false own.now.qp own.now.filter.now (named_border border.now)) VERTICAL false (edge_at along across) (at plane.old)) }
{
    let Some(border) = border else {
        return;
    };
    if is_zero(&border.strengths) {
        return;
    }
    let level = level_beside::<false>(border, own);
    edge::<VERTICAL>(plane, along, across, &level, &border.strengths);
}

/// Filters an inner edge of luma.
#[inline(always)]
fn luma_inner<const VERTICAL: bool>(
    plane: &mut Plane,
    along: usize,
    across: usize,
    word: &Word,
    own: &PlaneLevel<'_>,
)
    requires along { along + 16 ≤ size_along VERTICAL plane.old }
    requires before { 4 ≤ across }
    requires following { across + 4 ≤ size_across VERTICAL plane.old }
    requires word { IsWord word.now }
    requires inner { IsLevelOf own.now.inner own.now.qp own.now.qp own.now.filter.now }
    requires filtered { filters own.now.filter.now.deblocking true ≡ true }
    ensures { ShowsSamples plane.old plane.new
        (edge_or (inner_edge own.now.qp own.now.filter.now (names word.now)) VERTICAL false (edge_at along across) (at plane.old)) }
{
    edge::<VERTICAL>(plane, along, across, &own.inner, word);
}

/// Filters the edge of both planes of chroma to the macroblock beside, where it is filtered.
#[inline(always)]
fn pair_border<const VERTICAL: bool>(
    cb: &mut Plane,
    cr: &mut Plane,
    along: usize,
    across: usize,
    border: &Option<Border>,
    own: &PlaneLevel<'_>,
)
    requires cb_along { along + 8 ≤ size_along VERTICAL cb.old }
    requires cr_along { along + 8 ≤ size_along VERTICAL cr.old }
    requires before { IsTrue (is_some border.now) → 4 ≤ across }
    requires cb_after { across + 4 ≤ size_across VERTICAL cb.old }
    requires cr_after { across + 4 ≤ size_across VERTICAL cr.old }
    requires word { HasWord border.now }
    requires qp { own.now.qp ≡ side_qp true own.now.luma_qp own.now.filter.now.chroma_qp_index_offset }
    requires inner { IsLevelOf own.now.inner own.now.qp own.now.qp own.now.filter.now }
    ensures cb { ShowsSamples cb.old cb.new
        (edge_or (border_edge true own.now.qp own.now.filter.now (named_border border.now)) VERTICAL true (edge_at along across) (at cb.old)) }
    ensures cr { ShowsSamples cr.old cr.new
        (edge_or (border_edge true own.now.qp own.now.filter.now (named_border border.now)) VERTICAL true (edge_at along across) (at cr.old)) }
{
    let Some(border) = border else {
        return;
    };
    if is_zero(&border.strengths) {
        return;
    }
    let level = level_beside::<true>(border, own);
    edge_pair::<VERTICAL>(cb, cr, along, across, &level, &border.strengths);
}

/// Filters an inner edge of both planes of chroma.
#[inline(always)]
fn pair_inner<const VERTICAL: bool>(
    cb: &mut Plane,
    cr: &mut Plane,
    along: usize,
    across: usize,
    word: &Word,
    own: &PlaneLevel<'_>,
)
    requires cb_along { along + 8 ≤ size_along VERTICAL cb.old }
    requires cr_along { along + 8 ≤ size_along VERTICAL cr.old }
    requires before { 4 ≤ across }
    requires cb_after { across + 4 ≤ size_across VERTICAL cb.old }
    requires cr_after { across + 4 ≤ size_across VERTICAL cr.old }
    requires word { IsWord word.now }
    requires inner { IsLevelOf own.now.inner own.now.qp own.now.qp own.now.filter.now }
    requires filtered { filters own.now.filter.now.deblocking true ≡ true }
    ensures cb { ShowsSamples cb.old cb.new
        (edge_or (inner_edge own.now.qp own.now.filter.now (names word.now)) VERTICAL true (edge_at along across) (at cb.old)) }
    ensures cr { ShowsSamples cr.old cr.new
        (edge_or (inner_edge own.now.qp own.now.filter.now (names word.now)) VERTICAL true (edge_at along across) (at cr.old)) }
{
    edge_pair::<VERTICAL>(cb, cr, along, across, &own.inner, word);
}

/// Filters the edges of the macroblock at this column and row, those of luma by turns with those of chroma. An edge reads what the one before it in its
/// plane has written, and a processor waits where wide loads follow narrow stores at once: an edge of other planes between the two gives it other work.
#[inline(always)]
fn by_turns(
    frame: &mut Frame,
    marks: &Marks,
    of_luma: &PlaneLevel<'_>,
    of_chroma: &PlaneLevel<'_>,
    column: usize,
    row: usize,
)
    requires y { (16 * column + 16 ≤ frame.old.y.width) × (16 * row + 16 ≤ frame.old.y.height) }
    requires cb { (8 * column + 8 ≤ frame.old.cb.width) × (8 * row + 8 ≤ frame.old.cb.height) }
    requires cr { (8 * column + 8 ≤ frame.old.cr.width) × (8 * row + 8 ≤ frame.old.cr.height) }
    requires small { (column < 1024) × (row < 1024) }
    requires marks { AreMarks marks.now column row }
    requires luma_qp { of_luma.now.qp ≡ side_qp false of_luma.now.luma_qp of_luma.now.filter.now.chroma_qp_index_offset }
    requires luma_inner { IsLevelOf of_luma.now.inner of_luma.now.qp of_luma.now.qp of_luma.now.filter.now }
    requires luma_filtered { filters of_luma.now.filter.now.deblocking true ≡ true }
    requires chroma_qp { of_chroma.now.qp ≡ side_qp true of_chroma.now.luma_qp of_chroma.now.filter.now.chroma_qp_index_offset }
    requires chroma_inner { IsLevelOf of_chroma.now.inner of_chroma.now.qp of_chroma.now.qp of_chroma.now.filter.now }
    requires chroma_filtered { filters of_chroma.now.filter.now.deblocking true ≡ true }
    ensures y { ShowsSamples frame.old.y frame.new.y
        (edges_done 16 false (luma_by of_luma.now.qp of_luma.now.filter.now marks.now) column row (at frame.old.y)) }
    ensures cb { ShowsSamples frame.old.cb frame.new.cb
        (edges_done 8 true (chroma_by of_chroma.now.qp of_chroma.now.filter.now marks.now) column row (at frame.old.cb)) }
    ensures cr { ShowsSamples frame.old.cr frame.new.cr
        (edges_done 8 true (chroma_by of_chroma.now.qp of_chroma.now.filter.now marks.now) column row (at frame.old.cr)) }
{
    let (x, y, u, v) = (16 * column, 16 * row, 8 * column, 8 * row);
    let (vertical, horizontal) = (&marks.inner.vertical, &marks.inner.horizontal);
    let (luma, cb, cr) = (&mut frame.y, &mut frame.cb, &mut frame.cr);
    luma_border::<true>(luma, y, x, &marks.left, of_luma);
    pair_border::<true>(cb, cr, v, u, &marks.left, of_chroma);
    luma_inner::<true>(luma, y, x + 4, &vertical[0], of_luma);
    pair_inner::<true>(cb, cr, v, u + 4, &vertical[1], of_chroma);
    luma_inner::<true>(luma, y, x + 8, &vertical[1], of_luma);
    pair_border::<false>(cb, cr, u, v, &marks.above, of_chroma);
    luma_inner::<true>(luma, y, x + 12, &vertical[2], of_luma);
    pair_inner::<false>(cb, cr, u, v + 4, &horizontal[1], of_chroma);
    luma_border::<false>(luma, x, y, &marks.above, of_luma);
    luma_inner::<false>(luma, x, y + 4, &horizontal[0], of_luma);
    luma_inner::<false>(luma, x, y + 8, &horizontal[1], of_luma);
    luma_inner::<false>(luma, x, y + 12, &horizontal[2], of_luma);
}

/// Filters the edges of the macroblock at this column and row, whose quantisation parameter is `qp`.
pub(crate) fn filter_by(
    frame: &mut Frame,
    marks: &Marks,
    qp: u8,
    filter: &SliceFilter,
    column: usize,
    row: usize,
)
    requires y { (16 * column + 16 ≤ frame.old.y.width) × (16 * row + 16 ≤ frame.old.y.height) }
    requires cb { (8 * column + 8 ≤ frame.old.cb.width) × (8 * row + 8 ≤ frame.old.cb.height) }
    requires cr { (8 * column + 8 ≤ frame.old.cr.width) × (8 * row + 8 ≤ frame.old.cr.height) }
    requires small { (column < 1024) × (row < 1024) }
    requires marks { AreMarks marks.now column row }
    requires filtered { filters filter.now.deblocking true ≡ true }
    ensures y { ShowsSamples frame.old.y frame.new.y
        (edges_done 16 false (luma_by (side_qp false qp filter.now.chroma_qp_index_offset) filter.now marks.now) column row (at frame.old.y)) }
    ensures cb { ShowsSamples frame.old.cb frame.new.cb
        (edges_done 8 true (chroma_by (side_qp true qp filter.now.chroma_qp_index_offset) filter.now marks.now) column row (at frame.old.cb)) }
    ensures cr { ShowsSamples frame.old.cr frame.new.cr
        (edges_done 8 true (chroma_by (side_qp true qp filter.now.chroma_qp_index_offset) filter.now marks.now) column row (at frame.old.cr)) }
{
    let of_luma = plane_level::<false>(qp, filter);
    let of_chroma = plane_level::<true>(qp, filter);
    by_turns(frame, marks, &of_luma, &of_chroma, column, row);
}

/// Filters the edges of the macroblock at this column and row to those beside it, likewise: no inner edge has a bS but 0.
#[inline(always)]
fn borders_by_turns(
    frame: &mut Frame,
    marks: &Marks,
    of_luma: &PlaneLevel<'_>,
    of_chroma: &PlaneLevel<'_>,
    column: usize,
    row: usize,
)
    requires y { (16 * column + 16 ≤ frame.old.y.width) × (16 * row + 16 ≤ frame.old.y.height) }
    requires cb { (8 * column + 8 ≤ frame.old.cb.width) × (8 * row + 8 ≤ frame.old.cb.height) }
    requires cr { (8 * column + 8 ≤ frame.old.cr.width) × (8 * row + 8 ≤ frame.old.cr.height) }
    requires small { (column < 1024) × (row < 1024) }
    requires marks { AreMarks marks.now column row }
    requires still { AreStill marks.now.inner }
    requires luma_qp { of_luma.now.qp ≡ side_qp false of_luma.now.luma_qp of_luma.now.filter.now.chroma_qp_index_offset }
    requires luma_inner { IsLevelOf of_luma.now.inner of_luma.now.qp of_luma.now.qp of_luma.now.filter.now }
    requires luma_filtered { filters of_luma.now.filter.now.deblocking true ≡ true }
    requires chroma_qp { of_chroma.now.qp ≡ side_qp true of_chroma.now.luma_qp of_chroma.now.filter.now.chroma_qp_index_offset }
    requires chroma_inner { IsLevelOf of_chroma.now.inner of_chroma.now.qp of_chroma.now.qp of_chroma.now.filter.now }
    requires chroma_filtered { filters of_chroma.now.filter.now.deblocking true ≡ true }
    ensures y { ShowsSamples frame.old.y frame.new.y
        (edges_done 16 false (luma_by of_luma.now.qp of_luma.now.filter.now marks.now) column row (at frame.old.y)) }
    ensures cb { ShowsSamples frame.old.cb frame.new.cb
        (edges_done 8 true (chroma_by of_chroma.now.qp of_chroma.now.filter.now marks.now) column row (at frame.old.cb)) }
    ensures cr { ShowsSamples frame.old.cr frame.new.cr
        (edges_done 8 true (chroma_by of_chroma.now.qp of_chroma.now.filter.now marks.now) column row (at frame.old.cr)) }
{
    let (x, y, u, v) = (16 * column, 16 * row, 8 * column, 8 * row);
    let (left, above) = (&marks.left, &marks.above);
    let (luma, cb, cr) = (&mut frame.y, &mut frame.cb, &mut frame.cr);
    luma_border::<true>(luma, y, x, left, of_luma);
    pair_border::<true>(cb, cr, v, u, left, of_chroma);
    luma_border::<false>(luma, x, y, above, of_luma);
    pair_border::<false>(cb, cr, u, v, above, of_chroma);
}

/// Filters the edges of the macroblock at this column and row, whose quantisation parameter is `qp`, where no inner edge has a bS but 0.
pub(crate) fn filter_borders(
    frame: &mut Frame,
    marks: &Marks,
    qp: u8,
    filter: &SliceFilter,
    column: usize,
    row: usize,
)
    requires y { (16 * column + 16 ≤ frame.old.y.width) × (16 * row + 16 ≤ frame.old.y.height) }
    requires cb { (8 * column + 8 ≤ frame.old.cb.width) × (8 * row + 8 ≤ frame.old.cb.height) }
    requires cr { (8 * column + 8 ≤ frame.old.cr.width) × (8 * row + 8 ≤ frame.old.cr.height) }
    requires small { (column < 1024) × (row < 1024) }
    requires marks { AreMarks marks.now column row }
    requires still { AreStill marks.now.inner }
    requires filtered { filters filter.now.deblocking true ≡ true }
    ensures y { ShowsSamples frame.old.y frame.new.y
        (edges_done 16 false (luma_by (side_qp false qp filter.now.chroma_qp_index_offset) filter.now marks.now) column row (at frame.old.y)) }
    ensures cb { ShowsSamples frame.old.cb frame.new.cb
        (edges_done 8 true (chroma_by (side_qp true qp filter.now.chroma_qp_index_offset) filter.now marks.now) column row (at frame.old.cb)) }
    ensures cr { ShowsSamples frame.old.cr frame.new.cr
        (edges_done 8 true (chroma_by (side_qp true qp filter.now.chroma_qp_index_offset) filter.now marks.now) column row (at frame.old.cr)) }
{
    let of_luma = plane_level::<false>(qp, filter);
    let of_chroma = plane_level::<true>(qp, filter);
    borders_by_turns(frame, marks, &of_luma, &of_chroma, column, row);
}
