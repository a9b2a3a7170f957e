//! The edges of a macroblock of the coded picture (8.7).
#![tactic(auto)]

ghost use Rattle.std.specs.Prelude.{◌≡◌, ℕ, ◌+◌, ◌*◌, ◌<◌, ◌≤◌, true, IsTrue, List, length, Option, Some, None, is_some};
ghost use Rattle.h264_plane.specs.declared.frame.Component.{Component};
ghost use Rattle.h264_plane.specs.Frames.{plane_of, is_chroma};
ghost use Rattle.h264_plane.specs.Places.{side};
ghost use Rattle.h264_plane.specs.Samples.{at, ShowsSamples, IsSized};
ghost use Rattle.h264_near.specs.Coded.{CodedMacroblock};
ghost use Rattle.h264_near.specs.Keeps.{Keeps, AreContexts, IsEdge};
ghost use Rattle.h264_deblock.specs.Filtering.{edges_done};
ghost use Rattle.h264_deblock.specs.declared.slice_filter.SliceFilter.{SliceFilter as Filter};
ghost use Rattle.h264_deblock.specs.CodedEdges.{coded_edges};
ghost use Rattle.h264_deblock.specs.Steps.{LiesAlong, IsEven, border_of, IsStill, MovesBy};
ghost use Rattle.h264_deblock.specs.Words.{named_border};
ghost use Rattle.h264_deblock.specs.Level.{IsWord};

use crate::by_level::{Marks, filter_by};
use crate::named::is_zero;
use crate::plane_level::Border;
use crate::slice_filter::{Deblocking, SliceFilter, is_filtered};
use crate::strengths::{border_strengths, inner_strengths, is_even, is_uniform};
use h264_near::{Contexts, Edge, Near, Partition};
use h264_plane::Frame;

/// The edge between a macroblock and the one beside it, if it is filtered; `place` is the column of the macroblock, or its row, and
/// `even` says that nothing tells the blocks of the macroblock apart.
fn border_of(
    beside: &Option<Edge>,
    own: &Contexts,
    even: bool,
    vertical: bool,
    filter: &SliceFilter,
    place: usize,
) -> Option<Border>
    ensures inside { IsTrue (is_some result) → 0 < place }
    ensures here { (even ≡ true → IsEven own.now) → (p : Option CodedMacroblock) (q : CodedMacroblock) →
        IsEdge (LiesAlong vertical) beside.now p → AreContexts own.now q →
        (place ≡ 0 → p ≡ None) → named_border result ≡ border_of filter.now vertical p q }
    ensures word { (b : Border) → result ≡ Some b → IsWord b.strengths }
{
    if place == 0 {
        return None;
    }
    match beside {
        None => None,
        Some(edge) => {
            if is_filtered(filter.deblocking, edge.slice == own.slice) {
                return Some(Border {
                    qp: edge.qp,
                    strengths: border_strengths(edge, own, even, vertical),
                });
            }
            None
        }
    }
}

/// Whether an edge is not filtered, or has no bS but 0: no sample changes by it.
#[inline]
pub(crate) fn is_still(border: &Option<Border>) -> bool
    ensures { result ≡ true → IsStill (named_border border.now) }
{
    match border {
        None => true,
        Some(border) => is_zero(&border.strengths),
    }
}

/// A macroblock of the coded picture whose edges are to be filtered.
#[derive(Clone, Copy)]
pub struct Coded<'a> {
    /// What is kept of the macroblocks before it.
    pub near: &'a Near,
    pub own: &'a Contexts,
    /// How it is partitioned, if it is an inter macroblock.
    pub partition: Option<Partition>,
    /// The filter of its slice.
    pub filter: &'a SliceFilter,
}

/// Filters the edges of a macroblock of the coded picture, which stands at this column and row of macroblocks (8.7), in place: in each plane the vertical ones
/// from left to right, and then the horizontal ones from top to bottom. A uniform macroblock beside macroblocks like it returns after a few tests.
pub fn filter_coded(frame: &mut Frame, coded: &Coded<'_>, column: usize, row: usize)
    requires y { (16 * column + 16 ≤ frame.old.y.width) × (16 * row + 16 ≤ frame.old.y.height) }
    requires cb { (8 * column + 8 ≤ frame.old.cb.width) × (8 * row + 8 ≤ frame.old.cb.height) }
    requires cr { (8 * column + 8 ≤ frame.old.cr.width) × (8 * row + 8 ≤ frame.old.cr.height) }
    requires small { (column < 1024) × (row < 1024) }
    ensures size { (p : Component) → IsSized (plane_of p frame.new) (plane_of p frame.old).width (plane_of p frame.old).height }
    ensures filtered { (slices : ℕ → Filter) (width : ℕ) (picture : List CodedMacroblock) (q : CodedMacroblock) →
        MovesBy coded.now.partition coded.now.own.now.motions → Keeps width picture coded.now.near.now →
        AreContexts coded.now.own.now q → length picture ≡ row * width + column → column < width →
        slices q.slice ≡ coded.now.filter.now → ((n : ℕ) → (slices n).chroma_qp_index_offset ≡ coded.now.filter.now.chroma_qp_index_offset) →
        (p : Component) → ShowsSamples (plane_of p frame.old) (plane_of p frame.new)
        (edges_done (side p) (is_chroma p) (coded_edges slices width picture q p) column row (at (plane_of p frame.old))) }
{
    let (own, filter) = (coded.own, coded.filter);
    if let Deblocking::Off = filter.deblocking {
        return;
    }
    let even = is_even(own, &coded.partition);
    let left = border_of(coded.near.left_edge(), own, even, true, filter, column);
    let above = border_of(coded.near.above_edge(), own, even, false, filter, row);
    if is_uniform(own, even) && is_still(&left) && is_still(&above) {
        return;
    }
    let marks = Marks {
        left,
        above,
        inner: inner_strengths(own, &coded.partition, even),
    };
    filter_by(frame, &marks, own.qp, filter, column, row);
}
