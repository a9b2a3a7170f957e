//! What no clause says: headers worked by hand from the standard's tables, and each range's ends.
#![tactic(auto)]

ghost use Rattle.std.specs.Prelude.{◌≡◌, ◌≤◌, true, IfOk};
ghost use Rattle.h264_sps.specs.Usable.{is_accepted};

use crate::header_cases::{
    Case, DEBLOCKING, FRONT, FULL_LIST, IDR_PIC_ID, LIST, LONG_LIST, MARKING, RANGE, WEIGHTS,
};
use crate::parameter_sets::{pps, sps};
use crate::sinks::Heard;
use crate::streams::{rbsp_in, rbsp_of_bits, rbsp_of_bytes, write};
use h264_base::{Rule, Stop, Target, Weight};
use h264_bits::{Bits, Found};
use h264_header::{
    Deblocking, Header, Marking, MarkingOperation, Modification, Operation, PicNumModification,
    PicOrderCnt, SliceKind, SliceUnit, begins_picture, picture_elements, read_header, weights_of,
};
use h264_pps::{Pps, read_pps};
use h264_rbsp::Rbsp;
use h264_sets::Sets;
use h264_sps::count_type::{CountType, Cycle};
use h264_sps::read::read_sps;
use h264_sps::sps::Sps;
use h264_write::Writer;
use std::alloc::{AllocError, Global};
use std::process::Abort;
use std::test::Fail;

/// The sequence parameter set in a stream of one unit.
fn sps_read(alloc: Global, stream: &[u8]) -> Result<Sps, Stop>
    ensures id { IfOk result (λ s. s.seq_parameter_set_id ≤ 31) }
    ensures accepted { IfOk result (λ s. is_accepted s ≡ true) }
{
    let body = rbsp_in(alloc, stream)?;
    read_sps(Target::MainIP, &mut Bits::new(&body), &mut Heard::nothing())
}

/// The picture parameter set in a stream of one unit.
fn pps_read(alloc: Global, stream: &[u8]) -> Result<Pps, Stop>
    ensures id { IfOk result (λ p. p.pic_parameter_set_id ≤ 255) }
    ensures names { IfOk result (λ p. p.seq_parameter_set_id ≤ 31) }
{
    let body = rbsp_in(alloc, stream)?;
    read_pps(Target::MainIP, &mut Bits::new(&body), &mut Heard::nothing())
}

/// The sets of two units, each with its start code.
fn sets_read(alloc: Global, sps: &[u8], pps: &[u8]) -> Result<Sets, Fail> {
    let mut sets = Sets::new(alloc)?;
    sets.put_sps(sps_read(alloc, sps)?);
    sets.put_pps(pps_read(alloc, pps)?);
    Ok(sets)
}

/// Both sets under id 0.
fn sets_of(alloc: Global, count_type: CountType, pps: Pps) -> Result<Sets, AllocError>
    requires id { pps.pic_parameter_set_id ≡ 0 }
    requires names { pps.seq_parameter_set_id ≡ 0 }
{
    let mut sets = Sets::new(alloc)?;
    sets.put_sps(sps(0, 1, count_type));
    sets.put_pps(pps);
    Ok(sets)
}

/// The header that stands in an RBSP.
fn header_in(body: &Rbsp, sets: &Sets, idr: bool, nal_ref_idc: u32) -> Result<Header, Stop> {
    let unit = SliceUnit {
        idr_pic_flag: idr,
        nal_ref_idc,
    };
    let mut header = Header::unread();
    read_header(
        &mut Bits::new(body),
        sets,
        unit,
        &mut header,
        &mut Heard::nothing(),
    )?;
    Ok(header)
}

/// The rule that a header breaks, and its bit in the RBSP; of a header without a fault none.
fn refusal(body: &Rbsp, sets: &Sets, idr: bool) -> Result<Option<(u64, Rule)>, Stop> {
    match header_in(body, sets, idr, 1) {
        Err(Stop::No { bit, rule }) => Ok(Some((bit.saturating_sub(32), rule))),
        Err(stop) => Err(stop),
        Ok(_) => Ok(None),
    }
}

/// Headers without order counts, and what their picture parameter set says.
#[derive(Clone, Copy)]
struct Group {
    num_ref_idx_l0_default_active_minus1: u32,
    deblocking_filter_control_present_flag: bool,
    weighted_pred_flag: bool,
    idr: bool,
    cases: &'static [Case],
}

/// Headers of P slices where the picture parameter set says nothing of its own.
const PLAIN: Group = Group {
    num_ref_idx_l0_default_active_minus1: 0,
    deblocking_filter_control_present_flag: false,
    weighted_pred_flag: false,
    idr: false,
    cases: &[],
};

const GROUPS: [Group; 8] = [
    Group {
        cases: FRONT,
        ..PLAIN
    },
    Group {
        cases: LIST,
        ..PLAIN
    },
    Group {
        num_ref_idx_l0_default_active_minus1: 16,
        cases: LONG_LIST,
        ..PLAIN
    },
    Group {
        num_ref_idx_l0_default_active_minus1: 15,
        cases: FULL_LIST,
        ..PLAIN
    },
    Group {
        cases: MARKING,
        ..PLAIN
    },
    Group {
        deblocking_filter_control_present_flag: true,
        cases: DEBLOCKING,
        ..PLAIN
    },
    Group {
        weighted_pred_flag: true,
        cases: WEIGHTS,
        ..PLAIN
    },
    Group {
        idr: true,
        cases: IDR_PIC_ID,
        ..PLAIN
    },
];

/// The sets of these headers.
fn sets_for(alloc: Global, group: &Group) -> Result<Sets, AllocError> {
    let mut pps = pps(0, 0);
    pps.num_ref_idx_l0_default_active_minus1 = group.num_ref_idx_l0_default_active_minus1;
    pps.deblocking_filter_control_present_flag = group.deblocking_filter_control_present_flag;
    pps.weighted_pred_flag = group.weighted_pred_flag;
    sets_of(alloc, CountType::DecodingOrder, pps)
}

/// Stops unless each header of these is refused as it is to be, or not at all.
fn refuses(rt: &(impl Abort + AllocGlobal), group: &Group) -> Result<(), Fail> {
    let sets = sets_for(rt.alloc(), group)?;
    for (text, expected) in group.cases {
        let body = rbsp_of_bits(rt.alloc(), text, true)?;
        assert!(rt; refusal(&body, &sets, group.idr)? == *expected, "{text}");
    }
    Ok(())
}

#[test]
fn edges_of_each_part(rt: HostRuntime) -> Result<(), Fail> {
    for group in &GROUPS {
        refuses(&rt, group)?;
    }
    number_of_operations(&rt)
}

/// The RBSP of a header with so many marking operations.
fn with_operations(alloc: Global, count: u32) -> Result<Rbsp, Fail> {
    let mut writer = Writer::new(alloc);
    write(&mut writer, "1 00110 1 0001 0 0 1")?;
    for _ in 0..count {
        write(&mut writer, "010 1")?;
    }
    write(&mut writer, "1 1 1")?;
    Ok(rbsp_of_bytes(alloc, &writer.bytes(alloc)?)?)
}

/// 36 operations may stand before the 0, and not 37.
fn number_of_operations(rt: &(impl Abort + AllocGlobal)) -> Result<(), Fail> {
    let alloc = rt.alloc();
    let sets = sets_for(alloc, &PLAIN)?;
    assert!(rt; refusal(&with_operations(alloc, 36)?, &sets, false)? == None);
    assert!(rt; refusal(&with_operations(alloc, 37)?, &sets, false)? == Some((158, RANGE)));
    Ok(())
}

/// The header in a stream of one unit, where its parameter sets are those of these streams.
fn header_after(
    alloc: Global,
    sps: &[u8],
    pps: &[u8],
    slice: &[u8],
    idr: bool,
    nal_ref_idc: u32,
) -> Result<Header, Fail> {
    let sets = sets_read(alloc, sps, pps)?;
    Ok(header_in(&rbsp_in(alloc, slice)?, &sets, idr, nal_ref_idc)?)
}

const SPS: &[u8] = &[0, 0, 1, 0x67, 0x42, 0xC0, 0x0A, 0xDA, 0x71];

const PPS: &[u8] = &[0, 0, 1, 0x68, 0xCE, 0x38, 0x80];

const IDR: &[u8] = &[0, 0, 1, 0x65, 0x88, 0x84, 0x93, 0xC0];

/// Whether a header is that of the IDR slice of one_frame.264: 1 0001000 1 0000 1 0 0 1.
fn is_first(header: &Header) -> bool {
    header.nal_ref_idc == 3
        && header.first_mb_in_slice == Found { bit: 32, value: 0 }
        && header.kind.bit == 33
        && matches!(&header.kind.value, SliceKind::I)
        && header.same_type_in_picture
        && header.pic_parameter_set_id == Found { bit: 40, value: 0 }
}

/// And from frame_num on.
fn is_first_in_time(header: &Header) -> bool {
    header.frame_num == Found { bit: 41, value: 0 }
        && header.idr_pic_id == Some(Found { bit: 45, value: 0 })
        && matches!(&header.pic_order_cnt, PicOrderCnt::DecodingOrder)
        && header.slice_qp_delta == Found { bit: 48, value: 0 }
}

fn idr_slice(rt: &(impl Abort + AllocGlobal)) -> Result<(), Fail> {
    let header = header_after(rt.alloc(), SPS, PPS, IDR, true, 3)?;
    assert!(rt; is_first(&header));
    assert!(rt; is_first_in_time(&header));
    match &header.marking {
        Some(marking) => {
            assert_eq!(rt; marking.bit, 46);
            assert!(rt; is_idr_marking(&marking.value, false, false));
        }
        None => assert!(rt; false),
    }
    Ok(())
}

fn is_idr_marking(marking: &Marking, no_output: bool, long_term: bool) -> bool {
    match marking {
        Marking::Idr {
            no_output_of_prior_pics_flag,
            long_term_reference_flag,
        } => {
            *no_output_of_prior_pics_flag == no_output && *long_term_reference_flag == long_term
        }
        _ => false,
    }
}

/// The marking operations of a header; none also where it has no marking.
fn operations(header: &Header) -> &[MarkingOperation] {
    match &header.marking {
        Some(
            Found {
                value: Marking::Adaptive(operations),
                ..
            },
        ) => operations.as_slice(),
        _ => &[],
    }
}

/// The modifications of a header; none also where it has no list.
fn modifications(header: &Header) -> &[PicNumModification] {
    match &header.kind.value {
        SliceKind::P(list) => list.modifications.as_slice(),
        SliceKind::I => &[],
    }
}

/// The bit of a header's first modification with its abs_diff_pic_num_minus1, where it subtracts.
fn first_subtracted(header: &Header) -> Option<(u64, u32)> {
    let first = modifications(header).first()?;
    match first.modification {
        Modification::Subtract {
            abs_diff_pic_num_minus1,
        } => Some((first.bit, abs_diff_pic_num_minus1)),
        _ => None,
    }
}

/// The length of a P slice's list.
fn active(header: &Header) -> u32 {
    match &header.kind.value {
        SliceKind::P(list) => list.num_ref_idx_l0_active,
        SliceKind::I => 0,
    }
}

/// Whether all edges are filtered, by the tables as they are.
fn is_without_offsets(deblocking: Deblocking) -> bool {
    match deblocking {
        Deblocking::AllEdges(offsets) => {
            offsets.slice_alpha_c0_offset_div2 == 0 && offsets.slice_beta_offset_div2 == 0
        }
        _ => false,
    }
}

/// A P slice of one frame_num, and what its header says.
struct PSlice {
    bytes: &'static [u8],
    frame_num: u32,
    num_ref_idx_l0_active: u32,
    /// The bit of its modification with abs_diff_pic_num_minus1.
    subtracted: Option<(u64, u32)>,
    operations: &'static [MarkingOperation],
    /// The bit of slice_qp_delta.
    qp: u64,
}

/// 1 00110 1 0001 0 0 0 1; with another frame_num; with two places.
const PLAIN_SLICES: [PSlice; 4] = [
    PSlice {
        bytes: &[0, 0, 1, 0x61, 0x9A, 0x22, 0xA0],
        frame_num: 1,
        num_ref_idx_l0_active: 1,
        subtracted: None,
        operations: &[],
        qp: 46,
    },
    PSlice {
        bytes: &[0, 0, 1, 0x61, 0x9A, 0x42, 0xA0],
        frame_num: 2,
        num_ref_idx_l0_active: 1,
        subtracted: None,
        operations: &[],
        qp: 46,
    },
    PSlice {
        bytes: &[0, 0, 1, 0x61, 0x9A, 0x02, 0xA0],
        frame_num: 0,
        num_ref_idx_l0_active: 1,
        subtracted: None,
        operations: &[],
        qp: 46,
    },
    PSlice {
        bytes: &[0, 0, 1, 0x61, 0x9A, 0x34, 0x77, 0x80],
        frame_num: 1,
        num_ref_idx_l0_active: 2,
        subtracted: None,
        operations: &[],
        qp: 49,
    },
];

/// modification_of_pic_nums_idc 0 with difference 2, then the end. Operation 1 with difference 2 and 1. Operations 4, 3 and 2.
const COMMANDING_SLICES: [PSlice; 4] = [
    PSlice {
        bytes: &[0, 0, 1, 0x61, 0x9A, 0x2D, 0x11, 0x50],
        frame_num: 1,
        num_ref_idx_l0_active: 1,
        subtracted: Some((45, 1)),
        operations: &[],
        qp: 55,
    },
    PSlice {
        bytes: &[0, 0, 1, 0x61, 0x9A, 0x25, 0x2D, 0x40],
        frame_num: 1,
        num_ref_idx_l0_active: 1,
        subtracted: None,
        operations: &[MarkingOperation {
            bit: 46,
            operation: Operation::UnmarkShortTerm {
                difference_of_pic_nums_minus1: 1,
            },
        }],
        qp: 53,
    },
    PSlice {
        bytes: &[0, 0, 1, 0x61, 0x9A, 0x25, 0x75],
        frame_num: 1,
        num_ref_idx_l0_active: 1,
        subtracted: None,
        operations: &[MarkingOperation {
            bit: 46,
            operation: Operation::UnmarkShortTerm {
                difference_of_pic_nums_minus1: 0,
            },
        }],
        qp: 51,
    },
    PSlice {
        bytes: &[0, 0, 1, 0x61, 0x9A, 0x24, 0xA8, 0x9B, 0xEA],
        frame_num: 1,
        num_ref_idx_l0_active: 1,
        subtracted: None,
        operations: &[
            MarkingOperation {
                bit: 46,
                operation: Operation::LimitLongTerm {
                    max_long_term_frame_idx_plus1: 1,
                },
            },
            MarkingOperation {
                bit: 54,
                operation: Operation::MakeLongTerm {
                    difference_of_pic_nums_minus1: 0,
                    long_term_frame_idx: 0,
                },
            },
            MarkingOperation {
                bit: 61,
                operation: Operation::UnmarkLongTerm {
                    long_term_pic_num: 0,
                },
            },
        ],
        qp: 66,
    },
];

/// Whether a header has the commands of a slice.
fn has_commands(header: &Header, slice: &PSlice) -> bool {
    let count = if slice.subtracted.is_some() { 1 } else { 0 };
    modifications(header).len() == count
        && first_subtracted(header) == slice.subtracted
        && operations(header) == slice.operations
}

/// Whether a header is that of a slice.
fn is_p_slice(header: &Header, slice: &PSlice) -> bool {
    header.same_type_in_picture
        && header.kind.bit == 33
        && active(header) == slice.num_ref_idx_l0_active
        && header.frame_num
            == Found {
                bit: 39,
                value: slice.frame_num,
            }
        && header.idr_pic_id == None
        && header.slice_qp_delta
            == Found {
                bit: slice.qp,
                value: 0,
            }
        && is_without_offsets(header.deblocking)
}

/// Stops unless each header is that of its slice.
fn p_slices(rt: &(impl Abort + AllocGlobal), slices: &[PSlice]) -> Result<(), Fail> {
    for (i, slice) in slices.iter().enumerate() {
        let header = header_after(rt.alloc(), SPS, PPS, slice.bytes, false, 3)?;
        assert!(rt; is_p_slice(&header, slice), "slice {i}");
        assert!(rt; has_commands(&header, slice), "slice {i}");
    }
    Ok(())
}

/// Whether a plane is weighted so.
fn is_weight(weight: &Weight, denom: u8, factor: i16, offset: i16) -> bool {
    weight.log2_weight_denom == denom && weight.weight == factor && weight.offset == offset
}

/// Denominators 1 and 0, and for the one index a luma weight of 3 with offset -2; the chroma weights are inferred.
fn p_slice_with_weights(rt: &(impl Abort + AllocGlobal)) -> Result<(), Fail> {
    let alloc = rt.alloc();
    let pps = [0, 0, 1, 0x68, 0xCF, 0x38, 0x80];
    let slice = [0, 0, 1, 0x61, 0x9A, 0x22, 0xCC, 0x52, 0xA0];
    let header = header_after(alloc, SPS, pps.as_slice(), slice.as_slice(), false, 3)?;
    match weights_of(&header, 0) {
        Some(weights) => {
            assert!(rt; is_weight(&weights.luma, 1, 3, -2));
            assert!(rt; is_weight(&weights.cb, 0, 1, 0) && is_weight(&weights.cr, 0, 1, 0));
        }
        None => assert!(rt; false),
    }
    assert!(rt; weights_of(&header, 1).is_none());
    Ok(())
}

/// Whether both are of one type and have the same elements.
fn same_counts(a: PicOrderCnt, b: PicOrderCnt) -> bool {
    match (a, b) {
        (
            PicOrderCnt::Lsb {
                pic_order_cnt_lsb,
                delta_pic_order_cnt_bottom,
            },
            PicOrderCnt::Lsb {
                pic_order_cnt_lsb: lsb,
                delta_pic_order_cnt_bottom: bottom,
            },
        ) => pic_order_cnt_lsb == lsb && delta_pic_order_cnt_bottom == bottom,
        (
            PicOrderCnt::Deltas { top, bottom },
            PicOrderCnt::Deltas {
                top: other_top,
                bottom: other_bottom,
            },
        ) => top == other_top && bottom == other_bottom,
        _ => false,
    }
}

/// pic_order_cnt_type 0 with an lsb of 4 bits.
const LSB_SPS: &[u8] = &[
    0, 0, 1, 0x67, 0x42, 0xC0, 0x0A, 0xF4, 0xE4, 0x03, 0xF4, 0xA0,
];

/// An IDR slice.
fn first_lsb_slice(alloc: Global) -> Result<Header, Fail> {
    let slice = [0, 0, 1, 0x65, 0x88, 0x84, 0x09, 0x3C];
    header_after(alloc, LSB_SPS, PPS, slice.as_slice(), true, 3)
}

/// A slice of no reference picture.
fn later_lsb_slice(alloc: Global) -> Result<Header, Fail> {
    let slice = [0, 0, 1, 0x01, 0x9A, 0x30, 0x54];
    header_after(alloc, LSB_SPS, PPS, slice.as_slice(), false, 0)
}

/// Whether a header has this lsb and no delta, and slice_qp_delta at this bit.
fn has_lsb(header: &Header, pic_order_cnt_lsb: u32, qp: u64) -> bool {
    let counts = PicOrderCnt::Lsb {
        pic_order_cnt_lsb,
        delta_pic_order_cnt_bottom: 0,
    };
    same_counts(header.pic_order_cnt, counts) && header.slice_qp_delta.bit == qp
}

/// The counts of both, and what follows them. The second begins a picture after the first, and none after itself.
fn lsb_slices(rt: &(impl Abort + AllocGlobal)) -> Result<(), Fail> {
    let first = first_lsb_slice(rt.alloc())?;
    let later = later_lsb_slice(rt.alloc())?;
    assert!(rt; has_lsb(&first, 0, 52));
    assert!(rt; has_lsb(&later, 8, 49) && later.marking.is_none());
    let (first, later) = (picture_elements(&first), picture_elements(&later));
    assert!(rt; begins_picture(&first, &later));
    assert!(rt; !begins_picture(&later, &later));
    Ok(())
}

/// A way to count, whether delta_pic_order_cnt_bottom may be there, the header of an I slice that is no reference, its
/// counts, and its slice_qp_delta, where that is compared.
type CountCase = (
    CountType,
    bool,
    &'static str,
    PicOrderCnt,
    Option<Found<i32>>,
);

/// Whether the slice has these counts.
fn counts_are(alloc: Global, case: &CountCase) -> Result<bool, Fail> {
    let mut pps = pps(0, 0);
    pps.bottom_field_pic_order_in_frame_present_flag = case.1;
    let sets = sets_of(alloc, case.0, pps)?;
    let header = header_in(&rbsp_of_bits(alloc, case.2, true)?, &sets, false, 0)?;
    let same_qp = match case.4 {
        Some(qp) => header.slice_qp_delta == qp,
        None => true,
    };
    Ok(same_counts(header.pic_order_cnt, case.3) && same_qp)
}

/// Type 1 without offsets, with deltas.
const WITH_DELTAS: CountType = CountType::Cycle {
    delta_pic_order_always_zero_flag: false,
    offset_for_non_ref_pic: 0,
    offset_for_top_to_bottom_field: 0,
    cycle: Cycle {
        offset_for_ref_frame: [0; 255],
        length: 0,
    },
};

/// Type 1 without offsets, whose deltas are 0.
const ZERO_DELTAS: CountType = CountType::Cycle {
    delta_pic_order_always_zero_flag: true,
    offset_for_non_ref_pic: 0,
    offset_for_top_to_bottom_field: 0,
    cycle: Cycle {
        offset_for_ref_frame: [0; 255],
        length: 0,
    },
};

/// delta_pic_order_cnt_bottom, delta_pic_order_cnt[0] and delta_pic_order_cnt[1], where they are there.
const COUNTS: &[CountCase] = &[
    (
        CountType::Lsb {
            log2_max_pic_order_cnt_lsb: 5,
        },
        true,
        "1 011 1 0001 10001 00101 1",
        PicOrderCnt::Lsb {
            pic_order_cnt_lsb: 17,
            delta_pic_order_cnt_bottom: -2,
        },
        None,
    ),
    (
        WITH_DELTAS,
        true,
        "1 011 1 0001 010 00110 1",
        PicOrderCnt::Deltas { top: 1, bottom: 3 },
        None,
    ),
    (
        WITH_DELTAS,
        false,
        "1 011 1 0001 00110 011",
        PicOrderCnt::Deltas { top: 3, bottom: 0 },
        Some(Found { bit: 46, value: -1 }),
    ),
    (
        ZERO_DELTAS,
        true,
        "1 011 1 0001 010",
        PicOrderCnt::Deltas { top: 0, bottom: 0 },
        Some(Found { bit: 41, value: 1 }),
    ),
];

/// The counts of each row.
fn deltas(rt: &(impl Abort + AllocGlobal)) -> Result<(), Fail> {
    for case in COUNTS {
        assert!(rt; counts_are(rt.alloc(), case)?);
    }
    Ok(())
}

#[test]
fn whole_headers(rt: HostRuntime) -> Result<(), Fail> {
    idr_slice(&rt)?;
    p_slices(&rt, &PLAIN_SLICES)?;
    p_slices(&rt, &COMMANDING_SLICES)?;
    p_slice_with_weights(&rt)?;
    lsb_slices(&rt)?;
    deltas(&rt)
}
