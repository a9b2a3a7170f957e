//! The edges of a skipped macroblock (8.7).
#![tactic(auto)]

ghost use Rattle.std.specs.Prelude.{◌≡◌, ℕ, ◌+◌, ◌*◌, ◌<◌, ◌≤◌, Bool, true, false, IsTrue, is_some, List, length, Option, Some, None};
ghost use Rattle.h264_plane.specs.declared.frame.Component.{Component};
ghost use Rattle.h264_plane.specs.Frames.{plane_of, is_chroma};
ghost use Rattle.h264_plane.specs.Places.{side};
ghost use Rattle.h264_plane.specs.Samples.{at, ShowsSamples, IsSized};
ghost use Rattle.h264_near.specs.Coded.{CodedMacroblock};
ghost use Rattle.h264_near.specs.Keeps.{Keeps, IsEdge};
ghost use Rattle.h264_near.specs.Skips.{IsSkipped};
ghost use Rattle.h264_deblock.specs.Filtering.{edges_done};
ghost use Rattle.h264_deblock.specs.declared.slice_filter.SliceFilter.{SliceFilter as Filter};
ghost use Rattle.h264_deblock.specs.CodedEdges.{named, strength_at, strengths, coded_edges as edges_of_coded};
ghost use Rattle.h264_deblock.specs.Marks.{AreStill};
ghost use Rattle.h264_deblock.specs.Steps.{LiesAlong, border_of, inner_lines};
ghost use Rattle.h264_deblock.specs.Words.{all_names, named_border};
ghost use Rattle.h264_deblock.specs.Level.{names, IsWord};

use crate::by_level::{Marks, filter_borders};
use crate::coded::is_still;
use crate::named::Word;
use crate::plane_level::Border;
use crate::slice_filter::{Deblocking, SliceFilter, is_filtered};
use crate::strengths::{FOURS, InnerStrengths, ZEROS, are_like, inter};
use h264_near::block::are_blank;
use h264_near::{Edge, Near, Skipped};
use h264_plane::Frame;

/// bS between a block along an edge, of a macroblock that is not intra, and a skipped macroblock.
#[inline(always)]
fn beside(edge: &Edge, own: &Skipped, k: usize) -> u8
    requires place { k < 4 }
    requires beside { edge.now.intra ≡ false }
    ensures here { (vertical : Bool) (p q : CodedMacroblock) → LiesAlong vertical edge.now p → IsSkipped own.now q →
        named result ≡ strength_at vertical 0 p q k }
    ensures small { result < 4 }
{
    let coded = 0 < edge.totals[k];
    inter(coded, false, &edge.motions[k], &Some(own.motion))
}

/// The strengths of the edge between a skipped macroblock and the one beside it, to the left or above.
#[inline(always)]
fn border_strengths(edge: &Edge, own: &Skipped) -> Word
    ensures here { (vertical : Bool) (p q : CodedMacroblock) → LiesAlong vertical edge.now p → IsSkipped own.now q → names result ≡ strengths vertical 0 p q }
    ensures word { IsWord result }
{
    if edge.intra {
        return FOURS;
    }
    if are_blank(&edge.totals) {
        if are_like(&edge.motions, &Some(own.motion)) {
            return ZEROS;
        }
    }
    [
        beside(edge, own, 0),
        beside(edge, own, 1),
        beside(edge, own, 2),
        beside(edge, own, 3),
    ]
}

/// The edge between a skipped macroblock and the one beside it, if it is filtered; `place` is the column of the macroblock, or its row.
fn border_to(
    beside: &Option<Edge>,
    own: &Skipped,
    filter: &SliceFilter,
    place: usize,
) -> Option<Border>
    ensures inside { IsTrue (is_some result) → 0 < place }
    ensures here { (vertical : Bool) (p : Option CodedMacroblock) (q : CodedMacroblock) → IsEdge (LiesAlong vertical) beside.now p → IsSkipped own.now q →
        (place ≡ 0 → p ≡ None) → named_border result ≡ border_of filter.now vertical p q }
    ensures word { (b : Border) → result ≡ Some b → IsWord b.strengths }
{
    if place == 0 {
        return None;
    }
    match beside {
        None => None,
        Some(edge) => {
            if is_filtered(filter.deblocking, edge.slice == own.slice) {
                return Some(Border {
                    qp: edge.qp,
                    strengths: border_strengths(edge, own),
                });
            }
            None
        }
    }
}

/// The strengths of the inner edges of a skipped macroblock.
#[inline(always)]
fn still_strengths() -> InnerStrengths
    ensures still { AreStill result }
    ensures vertical { (own : Skipped) (coded : CodedMacroblock) → IsSkipped own coded → all_names result.vertical ≡ inner_lines true coded }
    ensures horizontal { (own : Skipped) (coded : CodedMacroblock) → IsSkipped own coded → all_names result.horizontal ≡ inner_lines false coded }
{
    InnerStrengths {
        vertical: [ZEROS; 3],
        horizontal: [ZEROS; 3],
    }
}

/// A skipped macroblock whose edges are to be filtered.
#[derive(Clone, Copy)]
pub struct CodedSkip<'a> {
    /// What is kept of the macroblocks before it.
    pub near: &'a Near,
    pub own: &'a Skipped,
    /// The filter of its slice.
    pub filter: &'a SliceFilter,
}

/// Filters the edges of a skipped macroblock, as `filter_coded` does: those to the macroblocks beside it, since no inner edge has a bS but 0.
pub fn filter_skipped(frame: &mut Frame, coded: &CodedSkip<'_>, column: usize, row: usize)
    requires y { (16 * column + 16 ≤ frame.old.y.width) × (16 * row + 16 ≤ frame.old.y.height) }
    requires cb { (8 * column + 8 ≤ frame.old.cb.width) × (8 * row + 8 ≤ frame.old.cb.height) }
    requires cr { (8 * column + 8 ≤ frame.old.cr.width) × (8 * row + 8 ≤ frame.old.cr.height) }
    requires small { (column < 1024) × (row < 1024) }
    ensures size { (p : Component) → IsSized (plane_of p frame.new) (plane_of p frame.old).width (plane_of p frame.old).height }
    ensures filtered { (slices : ℕ → Filter) (width : ℕ) (picture : List CodedMacroblock) (q : CodedMacroblock) → Keeps width picture coded.now.near.now →
        IsSkipped coded.now.own.now q → length picture ≡ row * width + column → column < width → slices q.slice ≡ coded.now.filter.now →
        ((n : ℕ) → (slices n).chroma_qp_index_offset ≡ coded.now.filter.now.chroma_qp_index_offset) → (p : Component) →
        ShowsSamples (plane_of p frame.old) (plane_of p frame.new)
        (edges_done (side p) (is_chroma p) (edges_of_coded slices width picture q p) column row (at (plane_of p frame.old))) }
{
    let (own, filter) = (coded.own, coded.filter);
    if let Deblocking::Off = filter.deblocking {
        return;
    }
    let left = border_to(coded.near.left_edge(), own, filter, column);
    let above = border_to(coded.near.above_edge(), own, filter, row);
    if is_still(&left) && is_still(&above) {
        return;
    }
    let marks = Marks {
        left,
        above,
        inner: still_strengths(),
    };
    filter_borders(frame, &marks, own.qp, filter, column, row);
}
