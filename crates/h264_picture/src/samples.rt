//! What the samples of a slice depend on beside its macroblocks.
#![tactic(auto)]

ghost use Rattle.std.specs.Prelude.{◌≡◌, ℕ, ◌<◌, ◌*ℤ◌, pos, false, get_or, None};
ghost use Rattle.h264_header.specs.Weights.{weights_of as weights_of_header};
ghost use Rattle.h264_recon.specs.Placed.{weights_by};
ghost use Rattle.h264_picture.specs.Weights.{slice_weights};
ghost use Rattle.h264_picture.specs.Filter.{clip_6, filter_by as filter_of_offsets, filter_in, slice_filter as filter_of_slice};

use h264_base::Weights;
use h264_deblock::{Deblocking, SliceFilter};
use h264_header::{Deblocking as HeaderDeblocking, FilterOffsets, Header, SliceKind, weights_of};
use h264_pps::Pps;
use h264_recon::SliceWeights;

/// What the samples of a slice depend on beside its macroblocks.
#[derive(Clone, Copy)]
pub struct SliceSamples {
    /// The places of the reference pictures by refIdxL0, as `Work` lends them; any number where there is none.
    pub places: [u8; 16],
    pub filter: SliceFilter,
    /// The weights of its reference indexes.
    pub weights: SliceWeights,
}

/// Clip3(-6, 6, z).
fn clip_6(z: i32) -> i8
    ensures here { result ≡ clip_6 z }
{
    z.clamp(-6, 6) as i8
}

/// FilterOffsetA or FilterOffsetB, by half of it.
fn offset_of(half: i32) -> i8
    ensures { result ≡ pos 2 *ℤ clip_6 half }
{
    2 * clip_6(half)
}

fn filter_by(
    deblocking: Deblocking,
    offsets: &FilterOffsets,
    chroma_qp_index_offset: i32,
) -> SliceFilter
    ensures { result ≡ filter_of_offsets deblocking offsets.now chroma_qp_index_offset }
{
    SliceFilter {
        deblocking,
        filter_offset_a: offset_of(offsets.slice_alpha_c0_offset_div2),
        filter_offset_b: offset_of(offsets.slice_beta_offset_div2),
        chroma_qp_index_offset,
    }
}

/// The filter by disable_deblocking_filter_idc and its offsets.
fn filter_in(deblocking: &HeaderDeblocking, chroma_qp_index_offset: i32) -> SliceFilter
    ensures { result ≡ filter_in deblocking.now chroma_qp_index_offset }
{
    match deblocking {
        HeaderDeblocking::AllEdges(offsets) => {
            filter_by(Deblocking::AllEdges, offsets, chroma_qp_index_offset)
        }
        HeaderDeblocking::Off => SliceFilter {
            deblocking: Deblocking::Off,
            filter_offset_a: 0,
            filter_offset_b: 0,
            chroma_qp_index_offset,
        },
        HeaderDeblocking::WithinSlice(offsets) => {
            filter_by(Deblocking::WithinSlice, offsets, chroma_qp_index_offset)
        }
    }
}

/// Whether a slice has a table of weights.
fn has_weights(header: &Header) -> bool
    ensures { result ≡ false → (k : ℕ) → weights_of_header header.now k ≡ None }
{
    match &header.kind.value {
        SliceKind::P(list) => list.pred_weight_table.is_some(),
        SliceKind::I => false,
    }
}

/// The weights of each reference index.
fn weights_by_index(header: &Header) -> [Option<Weights>; 16]
    ensures { (k : ℕ) → k < 16 → get_or result k None ≡ weights_of_header header.now k }
{
    let mut weights = [None; 16];
    for k in 0..16 {
        weights[k] = weights_of(header, k as u32);
    }
    weights
}

/// The weights of a slice (7.4.3.2).
fn weights_in(header: &Header) -> SliceWeights
    ensures { weights_by result ≡ slice_weights header.now }
{
    if !has_weights(header) {
        return SliceWeights::NONE;
    }
    SliceWeights::new(&weights_by_index(header))
}

/// What the samples of a slice take from its header and its picture parameter set, with the places of its reference pictures by refIdxL0.
#[tactic(auto, unfolding(crate::specs::Filter::slice_filter))]
pub fn slice_samples(pps: &Pps, header: &Header, places: [u8; 16]) -> SliceSamples
    ensures filter { result.filter ≡ filter_of_slice pps.now header.now }
    ensures places { result.places ≡ places }
    ensures weights { weights_by result.weights ≡ slice_weights header.now }
{
    SliceSamples {
        places,
        filter: filter_in(&header.deblocking, pps.chroma_qp_index_offset),
        weights: weights_in(header),
    }
}
