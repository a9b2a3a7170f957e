//! The blocks along the edges of a macroblock, written field by field over those of another one.
#![tactic(auto)]

ghost use Rattle.std.specs.Prelude.{◌≡◌, Some};
ghost use Rattle.h264_near.specs.Coded.{CodedMacroblock};
ghost use Rattle.h264_near.specs.Keeps.{AreContexts, IsEdge, Lower, Right};
ghost use Rattle.h264_near.specs.Beside.{edge_of};

use crate::context::{Contexts, Edge};
use crate::skipped::Skipped;
use h264_intra::Intra4x4PredMode;

/// An edge before anything is written to it.
const NO_EDGE: Edge = Edge {
    slice: 0,
    intra: false,
    qp: 0,
    totals: [0; 4],
    chroma: [0; 4],
    modes: [Intra4x4PredMode::Dc; 4],
    motions: [None; 4],
};

/// Writes the lower edge of a macroblock.
#[inline(always)]
fn write_lower(edge: &mut Edge, m: &Contexts)
    ensures { (coded : CodedMacroblock) → AreContexts m.now coded → Lower edge.new coded }
{
    edge.slice = m.slice;
    edge.intra = m.intra;
    edge.qp = m.qp;
    edge.totals = [m.totals[10], m.totals[11], m.totals[14], m.totals[15]];
    edge.chroma = [
        m.chroma_totals[2],
        m.chroma_totals[3],
        m.chroma_totals[6],
        m.chroma_totals[7],
    ];
    edge.modes = [m.modes[10], m.modes[11], m.modes[14], m.modes[15]];
    edge.motions[0] = m.motions[10];
    edge.motions[1] = m.motions[11];
    edge.motions[2] = m.motions[14];
    edge.motions[3] = m.motions[15];
}

/// Writes the right edge of a macroblock.
#[inline(always)]
fn write_right(edge: &mut Edge, m: &Contexts)
    ensures { (coded : CodedMacroblock) → AreContexts m.now coded → Right edge.new coded }
{
    edge.slice = m.slice;
    edge.intra = m.intra;
    edge.qp = m.qp;
    edge.totals = [m.totals[5], m.totals[7], m.totals[13], m.totals[15]];
    edge.chroma = [
        m.chroma_totals[1],
        m.chroma_totals[3],
        m.chroma_totals[5],
        m.chroma_totals[7],
    ];
    edge.modes = [m.modes[5], m.modes[7], m.modes[13], m.modes[15]];
    edge.motions[0] = m.motions[5];
    edge.motions[1] = m.motions[7];
    edge.motions[2] = m.motions[13];
    edge.motions[3] = m.motions[15];
}

/// Writes an edge of a skipped macroblock: all are alike.
#[inline(always)]
fn write_skipped(edge: &mut Edge, m: &Skipped)
    ensures { edge.new ≡ edge_of m.now }
{
    edge.slice = m.slice;
    edge.intra = false;
    edge.qp = m.qp;
    edge.totals = [0; 4];
    edge.chroma = [0; 4];
    edge.modes = [Intra4x4PredMode::Dc; 4];
    edge.motions[0] = Some(m.motion);
    edge.motions[1] = Some(m.motion);
    edge.motions[2] = Some(m.motion);
    edge.motions[3] = Some(m.motion);
}

/// The lower edge of a macroblock.
#[cold]
#[inline(never)]
fn lower_of(m: &Contexts) -> Edge
    ensures { (coded : CodedMacroblock) → AreContexts m.now coded → Lower result coded }
{
    let mut edge = NO_EDGE;
    write_lower(&mut edge, m);
    edge
}

/// The right edge of a macroblock.
#[cold]
#[inline(never)]
fn right_of(m: &Contexts) -> Edge
    ensures { (coded : CodedMacroblock) → AreContexts m.now coded → Right result coded }
{
    let mut edge = NO_EDGE;
    write_right(&mut edge, m);
    edge
}

/// An edge of a skipped macroblock.
#[cold]
#[inline(never)]
fn skipped_of(m: &Skipped) -> Edge
    ensures { result ≡ edge_of m.now }
{
    let mut edge = NO_EDGE;
    write_skipped(&mut edge, m);
    edge
}

/// Puts the lower edge of a macroblock in the place of another one, or of none.
#[inline(always)]
pub(crate) fn put_lower(place: &mut Option<Edge>, m: &Contexts)
    ensures { (coded : CodedMacroblock) → AreContexts m.now coded → IsEdge Lower place.new (Some coded) }
{
    match place {
        Some(edge) => write_lower(edge, m),
        None => *place = Some(lower_of(m)),
    }
}

/// Puts the right edge of a macroblock in the place of another one, or of none.
#[inline(always)]
pub(crate) fn put_right(place: &mut Option<Edge>, m: &Contexts)
    ensures { (coded : CodedMacroblock) → AreContexts m.now coded → IsEdge Right place.new (Some coded) }
{
    match place {
        Some(edge) => write_right(edge, m),
        None => *place = Some(right_of(m)),
    }
}

/// Puts an edge of a skipped macroblock in the place of another one, or of none.
#[inline(always)]
pub(crate) fn put_skipped(place: &mut Option<Edge>, m: &Skipped)
    ensures { place.new ≡ Some (edge_of m.now) }
{
    match place {
        Some(edge) => write_skipped(edge, m),
        None => *place = Some(skipped_of(m)),
    }
}
