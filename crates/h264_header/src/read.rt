//! Reading a slice header (7.3.3).
#![tactic(auto)]

ghost use Rattle.std.specs.Prelude.{◌≡◌, ℕ, ◌-◌, ◌<◌, ◌≤◌, ◌^◌, true, IfOk, OnOk, is_some};
ghost use Rattle.h264_base.specs.Call.{HasRoom, span};
ghost use Rattle.h264_base.specs.Meets.{Meets, Is, Answers};
ghost use Rattle.h264_bits.specs.Forms.{optional, signed};
ghost use Rattle.h264_header.specs.Layout.{sets_of, IsShort, IsShortCount};
ghost use Rattle.h264_header.specs.Listed.{or_0};
ghost use Rattle.h264_header.specs.Header.{is_judged_type, type_of, stated_type, named_sets, idr_pic_id, pic_order_cnt, deblocking};
ghost use Rattle.h264_header.specs.Header.{header as header_of};
ghost use Rattle.h264_header.specs.Parts.{header_from_frame_num, header_from_kind};

use crate::header::{Deblocking, FilterOffsets, Header, PicOrderCnt, SliceUnit};
use crate::layout::{CountElements, Layout, layout_of, named_sets};
use crate::marking::read_marking;
use crate::ref_list::read_slice_kind;
use h264_base::{ElementName, Elements, Rule, SliceType, Stop};
use h264_bits::forms::{se_value, se_within, ue_up_to};
use h264_bits::{Bits, Found, check, read_bits, read_se, read_ue};
use h264_sets::Sets;

/// What slice_type says.
#[derive(Clone, Copy)]
pub(crate) struct StatedType {
    bit: u64,
    slice_type: SliceType,
    /// All slices of the picture have the type.
    same_in_picture: bool,
}

/// pic_parameter_set_id, and what the sets say of the rest of the header.
#[derive(Clone, Copy)]
pub(crate) struct NamedSets {
    id: Found<u32>,
    layout: Layout,
}

fn is_judged_type(value: u32) -> bool
    ensures { result ≡ is_judged_type value }
{
    value % 5 == 0 || value % 5 == 2
}

fn type_of(value: u32) -> SliceType
    ensures { result ≡ type_of value }
{
    if value % 5 == 0 {
        SliceType::P
    } else {
        SliceType::I
    }
}

/// slice_type.
fn read_stated_type<S: Elements>(bits: &mut Bits, sink: &mut S) -> Result<StatedType, Stop>
    requires { HasRoom S.failures sink.old }
    ensures { Meets (span S.took S.failures sink.old sink.new) (Is (λ x. x)) stated_type bits.old bits.new result }
{
    let stated = read_ue(bits, ElementName::SliceType, sink)?;
    check(stated.value <= 9, Rule::Range, stated.bit)?;
    check(is_judged_type(stated.value), Rule::Tool, stated.bit)?;
    Ok(StatedType {
        bit: stated.bit,
        slice_type: type_of(stated.value),
        same_in_picture: stated.value >= 5,
    })
}

/// pic_parameter_set_id, whose sets are there.
fn read_named_sets<S: Elements>(
    sets: &Sets,
    bits: &mut Bits,
    sink: &mut S,
) -> Result<NamedSets, Stop>
    requires { HasRoom S.failures sink.old }
    ensures meets { Meets (span S.took S.failures sink.old sink.new) (Is (λ x. x)) (named_sets (sets_of sets.now)) bits.old bits.new result }
    ensures short { IfOk result (λ n. IsShort n.layout) }
{
    let id = read_ue(bits, ElementName::PicParameterSetId, sink)?;
    check(id.value <= 255, Rule::NoSet, id.bit)?;
    match named_sets(sets, id.value) {
        Some((pps, sps)) => Ok(NamedSets {
            id,
            layout: layout_of(pps, sps),
        }),
        None => Err(Stop::No {
            bit: id.bit,
            rule: Rule::NoSet,
        }),
    }
}

/// idr_pic_id, where the picture is an IDR picture.
fn read_idr<S: Elements>(
    idr: bool,
    bits: &mut Bits,
    sink: &mut S,
) -> Result<Option<Found<u32>>, Stop>
    requires { HasRoom S.failures sink.old }
    ensures { Meets (span S.took S.failures sink.old sink.new) (Is (λ x. x)) (optional idr idr_pic_id) bits.old bits.new result }
{
    if !idr {
        return Ok(None);
    }
    let id = read_ue(bits, ElementName::IdrPicId, sink)?;
    check(id.value <= 65535, Rule::Range, id.bit)?;
    Ok(Some(id))
}

/// The delta of this name, where it is present, or 0.
fn read_delta<S: Elements>(
    present: bool,
    name: ElementName,
    bits: &mut Bits,
    sink: &mut S,
) -> Result<i32, Stop>
    requires { HasRoom S.failures sink.old }
    ensures { Meets (span S.took S.failures sink.old sink.new) (Is (λ x. x)) (or_0 present (signed name)) bits.old bits.new result }
{
    if !present {
        return Ok(0);
    }
    se_value(bits, name, sink)
}

/// The elements of the picture order count.
fn read_pic_order_cnt<S: Elements>(
    count: CountElements,
    has_bottom: bool,
    bits: &mut Bits,
    sink: &mut S,
) -> Result<PicOrderCnt, Stop>
    requires short { IsShortCount count }
    requires room { HasRoom S.failures sink.old }
    ensures { Meets (span S.took S.failures sink.old sink.new) (Is (λ x. x)) (pic_order_cnt count has_bottom) bits.old bits.new result }
{
    match count {
        CountElements::Lsb { length } => {
            let lsb = read_bits(bits, ElementName::PicOrderCntLsb, length, sink)?;
            let name = ElementName::DeltaPicOrderCntBottom;
            let bottom = read_delta(has_bottom, name, bits, sink)?;
            Ok(PicOrderCnt::Lsb {
                pic_order_cnt_lsb: lsb.value,
                delta_pic_order_cnt_bottom: bottom,
            })
        }
        CountElements::Deltas => {
            let name = ElementName::DeltaPicOrderCnt;
            let top = se_value(bits, name, sink)?;
            let bottom = read_delta(has_bottom, name, bits, sink)?;
            Ok(PicOrderCnt::Deltas { top, bottom })
        }
        CountElements::ZeroDeltas => Ok(PicOrderCnt::Deltas { top: 0, bottom: 0 }),
        CountElements::DecodingOrder => Ok(PicOrderCnt::DecodingOrder),
    }
}

/// The control of the deblocking filter, where it is present.
fn read_deblocking<S: Elements>(
    present: bool,
    bits: &mut Bits,
    sink: &mut S,
) -> Result<Deblocking, Stop>
    requires { HasRoom S.failures sink.old }
    ensures { Meets (span S.took S.failures sink.old sink.new) (Is (λ x. x)) (deblocking present) bits.old bits.new result }
{
    if !present {
        return Ok(Deblocking::AllEdges(FilterOffsets {
            slice_alpha_c0_offset_div2: 0,
            slice_beta_offset_div2: 0,
        }));
    }
    let idc = ue_up_to(bits, ElementName::DisableDeblockingFilterIdc, 2, sink)?;
    if idc == 1 {
        return Ok(Deblocking::Off);
    }
    let alpha = se_within(bits, ElementName::SliceAlphaC0OffsetDiv2, -6, 6, sink)?;
    let beta = se_within(bits, ElementName::SliceBetaOffsetDiv2, -6, 6, sink)?;
    let offsets = FilterOffsets {
        slice_alpha_c0_offset_div2: alpha,
        slice_beta_offset_div2: beta,
    };
    if idc == 0 {
        Ok(Deblocking::AllEdges(offsets))
    } else {
        Ok(Deblocking::WithinSlice(offsets))
    }
}

/// The header from the reference picture list on.
fn header_from_kind<S: Elements>(
    unit: SliceUnit,
    stated: StatedType,
    layout: Layout,
    header: &mut Header,
    bits: &mut Bits,
    sink: &mut S,
) -> Result<(), Stop>
    requires short { layout.frame_num_length ≤ 16 }
    requires room { HasRoom S.failures sink.old }
    ensures { Meets (span S.took S.failures sink.old sink.new) (Is (λ _. header.new)) (header_from_kind header.old unit stated layout)
        bits.old bits.new result }
{
    header.kind.bit = stated.bit;
    let kind = &mut header.kind.value;
    read_slice_kind(layout, stated.slice_type, kind, bits, sink)?;
    let reference = unit.nal_ref_idc > 0;
    read_marking(
        reference,
        unit.idr_pic_flag,
        &mut header.marking,
        bits,
        sink,
    )?;
    header.slice_qp_delta = read_se(bits, ElementName::SliceQpDelta, sink)?;
    header.deblocking = read_deblocking(layout.has_deblocking_control, bits, sink)?;
    Ok(())
}

/// The header from frame_num on.
fn header_from_frame_num<S: Elements>(
    unit: SliceUnit,
    stated: StatedType,
    layout: Layout,
    header: &mut Header,
    bits: &mut Bits,
    sink: &mut S,
) -> Result<(), Stop>
    requires short { IsShort layout }
    requires room { HasRoom S.failures sink.old }
    ensures { Meets (span S.took S.failures sink.old sink.new) (Is (λ _. header.new)) (header_from_frame_num header.old unit stated layout)
        bits.old bits.new result }
{
    header.frame_num = read_bits(bits, ElementName::FrameNum, layout.frame_num_length, sink)?;
    header.idr_pic_id = read_idr(unit.idr_pic_flag, bits, sink)?;
    header.pic_order_cnt = read_pic_order_cnt(layout.count, layout.has_bottom, bits, sink)?;
    header_from_kind(unit, stated, layout, header, bits, sink)
}

/// The header, element by element.
fn header_steps<S: Elements>(
    bits: &mut Bits,
    sets: &Sets,
    unit: SliceUnit,
    header: &mut Header,
    sink: &mut S,
) -> Result<(), Stop>
    requires { HasRoom S.failures sink.old }
    ensures { Meets (span S.took S.failures sink.old sink.new) (Is (λ _. header.new)) (header_of (sets_of sets.now) unit) bits.old bits.new result }
{
    header.nal_ref_idc = unit.nal_ref_idc;
    header.first_mb_in_slice = read_ue(bits, ElementName::FirstMbInSlice, sink)?;
    let stated = read_stated_type(bits, sink)?;
    header.same_type_in_picture = stated.same_in_picture;
    let named = read_named_sets(sets, bits, sink)?;
    header.pic_parameter_set_id = named.id;
    header_from_frame_num(unit, stated, named.layout, header, bits, sink)
}

/// Reads the header of a slice, up to the bit at which its data begin, into a place of the caller: it is large to move.
///
/// Ok: the header; the elements that the sink was told are its one derivation, with every rule on its own elements met.
/// No: the first rule that it breaks, at its stream bit; NoSet where the picture parameter set of its id, or the sequence
/// parameter set that this one names, is not there. Write: the sink failed. After an Err the reader may have moved, and the
/// place holds some elements of this header and some of what it held.
pub fn read_header<S: Elements>(
    bits: &mut Bits,
    sets: &Sets,
    unit: SliceUnit,
    header: &mut Header,
    sink: &mut S,
) -> Result<(), Stop>
    requires { HasRoom S.failures sink.old }
    ensures answers { Answers (span S.took S.failures sink.old sink.new) (Is (λ _. header.new)) (header_of (sets_of sets.now) unit) bits.old bits.new result }
    ensures meets { Meets (span S.took S.failures sink.old sink.new) (Is (λ _. header.new)) (header_of (sets_of sets.now) unit) bits.old bits.new result }
    ensures id { OnOk result (header.new.pic_parameter_set_id.value ≤ 255) }
    ensures named { OnOk result (is_some (sets_of sets.now header.new.pic_parameter_set_id.value) ≡ true) }
{
    header_steps(bits, sets, unit, header, sink)
}
