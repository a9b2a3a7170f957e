ghost use Rattle.std.specs.Prelude.{◌≡◌, IfOk};

use crate::macroblocks::INTRA;
use h264_deblock::{
    Coded, CodedSkip, Deblocking, SliceFilter, edge, edge_pair, filter_coded, filter_skipped,
    level_of,
};
use h264_near::{Motion, Near, Skipped, Vector};
use h264_plane::{Component, Frame};
use std::alloc::{AllocError, Global};

const ALL_EDGES: SliceFilter = SliceFilter {
    deblocking: Deblocking::AllEdges,
    filter_offset_a: 0,
    filter_offset_b: 0,
    chroma_qp_index_offset: 0,
};

/// A skipped macroblock of the first slice.
const SKIPPED: Skipped = Skipped {
    slice: 0,
    qp: 26,
    motion: Motion {
        ref_idx: 0,
        picture: 7,
        vector: Vector { x: 0, y: 0 },
    },
};

/// The first frame of a stream that public decoders agree on, as it is constructed: its luma is 128 in the left macroblock and 131 in the right one.
fn constructed(alloc: Global) -> Result<Frame, AllocError>
    ensures y { IfOk result (λ f. (f.y.width ≡ 32) × (f.y.height ≡ 16)) }
    ensures cb { IfOk result (λ f. (f.cb.width ≡ 16) × (f.cb.height ≡ 8)) }
    ensures cr { IfOk result (λ f. (f.cr.width ≡ 16) × (f.cr.height ≡ 8)) }
{
    let mut frame = Frame::new(alloc, 32, 16)?;
    frame.put_block::<16, 16>(Component::Y, 0, 0, &[128; 256]);
    frame.put_block::<16, 16>(Component::Y, 16, 0, &[131; 256]);
    frame.put_block::<8, 8>(Component::Cb, 0, 0, &[100; 64]);
    frame.put_block::<8, 8>(Component::Cb, 8, 0, &[103; 64]);
    Ok(frame)
}

/// This frame with its right macroblock filtered, as a coded or as a skipped one.
fn filtered(alloc: Global, near: &Near, is_coded: bool) -> Result<Frame, AllocError> {
    let mut frame = constructed(alloc)?;
    if is_coded {
        let coded = Coded {
            near,
            own: &INTRA,
            partition: None,
            filter: &ALL_EDGES,
        };
        filter_coded(&mut frame, &coded, 1, 0);
    } else {
        let coded = CodedSkip {
            near,
            own: &SKIPPED,
            filter: &ALL_EDGES,
        };
        filter_skipped(&mut frame, &coded, 1, 0);
    }
    Ok(frame)
}

/// Whether a row of luma, and one of Cb, are these, `third` being the sample at column 18.
fn is_filtered(frame: &Frame, third: u8) -> bool {
    if frame.y.width() != 32 || frame.y.height() != 16 {
        return false;
    }
    if frame.cb.width() != 16 || frame.cb.height() != 8 {
        return false;
    }
    let row = frame.y.row(15);
    &row[..14] == [128; 14].as_slice()
        && &row[14..19] == [129, 129, 130, 130, third].as_slice()
        && &row[19..] == [131; 13].as_slice()
        && &frame.cb.row(7)[6..10] == [100, 101, 102, 103].as_slice()
}

/// The edge at 16 has bS 4, beside an intra macroblock. Of an intra macroblock the edge at 20 has bS 3, and changes what the edge at 16 wrote; of a skipped one
/// it has bS 0. In Cb p0 is (200 + 100 + 103 + 2) >> 2 and q0 is (206 + 103 + 100 + 2) >> 2.
#[test]
fn filters_a_macroblock(rt: HostRuntime) -> Result<(), AllocError> {
    let mut near = Near::new(rt.alloc(), 2)?;
    near.push(&INTRA);
    for (is_coded, third) in [(true, 130), (false, 131)] {
        let frame = filtered(rt.alloc(), &near, is_coded)?;
        assert!(rt; is_filtered(&frame, third));
    }
    Ok(())
}

/// The edge at 16 alone, with bS 4: the samples from 19 on stay.
#[test]
fn filters_an_edge(rt: HostRuntime) -> Result<(), AllocError> {
    let mut frame = constructed(rt.alloc())?;
    let level = level_of(SKIPPED.qp, SKIPPED.qp, &ALL_EDGES);
    edge::<true>(&mut frame.y, 0, 16, &level, &[4; 4]);
    edge_pair::<true>(&mut frame.cb, &mut frame.cr, 0, 8, &level, &[4; 4]);
    assert!(rt; is_filtered(&frame, 131));
    Ok(())
}
