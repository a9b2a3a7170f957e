//! What macroblocks take from their slice.
#![tactic(auto)]

ghost use Rattle.std.specs.Prelude.{◌≡◌, ◌≤◌, List, slice_get, IfSome};
ghost use Rattle.std.specs.Option.{option_and_then};
ghost use Rattle.h264_tables.specs.ChromaQp.{clip_51};
ghost use Rattle.h264_tables.specs.Level.{limits_of};
ghost use Rattle.h264_vectors.specs.Agrees.{Usable};
ghost use Rattle.h264_recon.specs.Table.{table};
ghost use Rattle.h264_picture.specs.Context.{picture_in, slice_qp, vector_limit, slice_context};

use h264_header::Header;
use h264_lists::RefSlot;
use h264_pps::Pps;
use h264_sps::buffer;
use h264_sps::sps::Sps;
use h264_tables::Limits;
use h264_vectors::SliceContext;

/// Clip3(0, 51, z).
fn clip_51(z: i64) -> u8
    ensures here { result ≡ clip_51 z }
    ensures within { result ≤ 51 }
{
    z.clamp(0, 51) as u8
}

/// SliceQP_Y.
fn slice_qp(pps: &Pps, header: &Header) -> u8
    ensures here { result ≡ slice_qp pps.now header.now }
    ensures within { result ≤ 51 }
{
    let init = i64::from(pps.pic_init_qp_minus26);
    let delta = i64::from(header.slice_qp_delta.value);
    clip_51(26 + init + delta)
}

/// What the level of a sequence allows, if it is one that is judged here.
fn limits_of(sps: &Sps) -> Option<Limits>
    ensures here { result ≡ limits_of sps.now.level_idc sps.now.constraint_set_flags.set3 }
    ensures within { IfSome result (λ l. l.max_vector ≤ 512) }
{
    buffer::limits_of(sps)
}

/// The greatest vertical vector component of a sequence, in quarter samples, and 1 more.
#[tactic(auto, unfolding(crate::specs::Context::vector_limit))]
fn vector_limit(sps: &Sps) -> u32
    ensures here { result ≡ vector_limit sps.now }
    ensures within { result ≤ 8192 }
{
    match limits_of(sps) {
        None => 0,
        Some(limits) => 4 * limits.max_vector,
    }
}

/// The number of the picture in a place of the list.
fn picture_at(list: &[RefSlot], place: usize) -> Option<u64>
    ensures { result ≡ option_and_then picture_in (slice_get list.now place) }
{
    match list.get(place) {
        None => None,
        Some(RefSlot::NoPicture) => None,
        Some(RefSlot::Held(frame)) => frame.picture,
    }
}

/// The pictures of the first sixteen places of the list.
fn references(list: &[RefSlot]) -> [Option<u64>; 16]
    ensures { result ≡ table 16 (λ k. option_and_then picture_in (slice_get list.now k)) }
{
    let mut pictures = [None; 16];
    for k in 0..16 {
        pictures[k] = picture_at(list, k);
    }
    pictures
}

/// What the macroblocks of a slice take from its header, the sets that it names, and its reference list, which an I slice does
/// not have: its list is empty.
pub fn slice_context(pps: &Pps, sps: &Sps, header: &Header, list: &[RefSlot]) -> SliceContext
    ensures value { result ≡ slice_context pps.now sps.now header.now list.now }
    ensures usable { Usable result }
    ensures qp { result.qp ≤ 51 }
{
    SliceContext {
        number: header.first_mb_in_slice.value,
        slice_type: header.kind.value.slice_type(),
        qp: slice_qp(pps, header),
        active: list.len().min(16) as u32,
        references: references(list),
        constrained_intra: pps.constrained_intra_pred_flag,
        chroma_qp_index_offset: pps.chroma_qp_index_offset,
        vector_limit: vector_limit(sps),
    }
}
