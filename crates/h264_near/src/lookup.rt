//! What an edge says of its blocks.
#![tactic(auto)]

ghost use Rattle.std.specs.Prelude.{◌≡◌, ◌<◌, Some};
ghost use Rattle.std.specs.Option.{option_map};
ghost use Rattle.h264_near.specs.Intra.{mean as mean_of, lesser_mode as lesser_mode_of};
ghost use Rattle.h264_near.specs.Along.{edge_total, edge_chroma, edge_mode, edge_motion};

use crate::context::Edge;
use crate::motion::Motion;
use h264_intra::Intra4x4PredMode;

#[inline(always)]
pub(crate) fn total_along(edge: &Option<Edge>, slice: u32, k: usize) -> Option<u8>
    requires { k < 4 }
    ensures { result ≡ edge_total slice k edge.now }
{
    match edge {
        None => None,
        Some(edge) => {
            if edge.slice == slice {
                Some(edge.totals[k])
            } else {
                None
            }
        }
    }
}

#[inline(always)]
pub(crate) fn chroma_along(edge: &Option<Edge>, slice: u32, c: usize, k: usize) -> Option<u8>
    requires component { c < 2 }
    requires place { k < 2 }
    ensures { result ≡ edge_chroma slice c k edge.now }
{
    match edge {
        None => None,
        Some(edge) => {
            if edge.slice == slice {
                Some(edge.chroma[c * 2 + k])
            } else {
                None
            }
        }
    }
}

#[inline(always)]
pub(crate) fn mode_along(
    edge: &Option<Edge>,
    slice: u32,
    constrained: bool,
    k: usize,
) -> Option<Intra4x4PredMode>
    requires { k < 4 }
    ensures { result ≡ edge_mode slice constrained k edge.now }
{
    match edge {
        None => None,
        Some(edge) => {
            if edge.slice == slice && (edge.intra || !constrained) {
                Some(edge.modes[k])
            } else {
                None
            }
        }
    }
}

#[inline(always)]
pub(crate) fn motion_along(edge: &Option<Edge>, slice: u32, k: usize) -> Option<Option<Motion>>
    requires { k < 4 }
    ensures { result ≡ edge_motion slice k edge.now }
{
    match edge {
        None => None,
        Some(edge) => {
            if edge.slice == slice {
                Some(edge.motions[k])
            } else {
                None
            }
        }
    }
}

/// What a block of the macroblock that is being decoded is predicted from, if that is derived.
#[inline(always)]
pub(crate) fn derived(motion: Option<Motion>) -> Option<Option<Motion>>
    ensures { result ≡ option_map (λ m. Some m) motion }
{
    match motion {
        None => None,
        Some(motion) => Some(Some(motion)),
    }
}

/// nC of nA and nB.
#[inline(always)]
pub(crate) fn mean(left: Option<u8>, above: Option<u8>) -> u8
    ensures { result ≡ mean_of left above }
{
    match (left, above) {
        (None, None) => 0,
        (None, Some(above)) => above,
        (Some(left), None) => left,
        (Some(left), Some(above)) => ((left as u16 + above as u16 + 1) / 2) as u8,
    }
}

/// The predicted mode from those of A and B: the one of the lesser number, and DC where A or B has none.
#[inline(always)]
pub(crate) fn lesser_mode(
    left: Option<Intra4x4PredMode>,
    above: Option<Intra4x4PredMode>,
) -> Intra4x4PredMode
    ensures { result ≡ lesser_mode_of left above }
{
    match (left, above) {
        (Some(left), Some(above)) => {
            if left.number() <= above.number() {
                left
            } else {
                above
            }
        }
        (None, None) => Intra4x4PredMode::Dc,
        (None, Some(_)) => Intra4x4PredMode::Dc,
        (Some(_), None) => Intra4x4PredMode::Dc,
    }
}
