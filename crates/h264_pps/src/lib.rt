//! Picture parameter sets (7.3.2.2, 7.4.2.2).
//!
//! `read_pps` takes the RBSP of a unit of nal_unit_type 8 and gives each value in it, or the first rule that it breaks.
//! It promises that the set derives in the grammar of `specs/Pps.antt`, which stands line for line as the standard's table does,
//! with each rule that is checked at its place; the sink is told each element as soon as its code word was read.
//! The extension of the High profiles is not read: what follows redundant_pic_cnt_present_flag has to be the trailing bits.
#![tactic(auto)]

ghost use Rattle.std.specs.Prelude.{◌≡◌, ℕ, ◌-◌, ◌<◌, ◌≤◌, ◌^◌, IfOk};
ghost use Rattle.h264_base.specs.Call.{HasRoom, span};
ghost use Rattle.h264_base.specs.Meets.{Meets, Is, Answers};
ghost use Rattle.h264_pps.specs.Pps.{is_weighting_judged, weighted_pred, weighted_bipred, pps};

use h264_base::{ElementName, Elements, Rule, Stop, Target};
use h264_bits::forms::{flag_value, se_within, u_must_be, ue_must_be_0, ue_up_to};
use h264_bits::{Bits, check, read_trailing, read_u};

/// A picture parameter set. Flags of tools that no target has are 0, and not kept.
#[derive(Clone, Copy, Debug, PartialEq, Eq)]
pub struct Pps {
    /// 0 to 255.
    pub pic_parameter_set_id: u32,
    /// 0 to 31.
    pub seq_parameter_set_id: u32,
    pub bottom_field_pic_order_in_frame_present_flag: bool,
    /// 0 to 31.
    pub num_ref_idx_l0_default_active_minus1: u32,
    /// 0 to 31.
    pub num_ref_idx_l1_default_active_minus1: u32,
    /// P slices have weights (7.3.3.2). False for the target `Baseline`.
    pub weighted_pred_flag: bool,
    /// 0 to 2, how B slices are weighted; nothing depends on it. 0 for the target `Baseline`.
    pub weighted_bipred_idc: u32,
    /// -26 to 25.
    pub pic_init_qp_minus26: i32,
    /// -26 to 25.
    pub pic_init_qs_minus26: i32,
    /// -12 to 12.
    pub chroma_qp_index_offset: i32,
    pub deblocking_filter_control_present_flag: bool,
    pub constrained_intra_pred_flag: bool,
}

/// Whether an element of weighted prediction has a value that is judged.
fn is_weighting_judged(target: Target, value: u32) -> bool
    ensures { result ≡ is_weighting_judged target value }
{
    match target {
        Target::Baseline => value == 0,
        Target::MainIP => true,
    }
}

/// weighted_pred_flag, which is 0 where the target has no weighted prediction.
fn read_weighted_pred<S: Elements>(
    target: Target,
    bits: &mut Bits,
    sink: &mut S,
) -> Result<bool, Stop>
    requires { HasRoom S.failures sink.old }
    ensures { Meets (span S.took S.failures sink.old sink.new) (Is (λ x. x)) (weighted_pred target) bits.old bits.new result }
{
    let flag = read_u::<1, S>(bits, ElementName::WeightedPredFlag, sink)?;
    let judged = is_weighting_judged(target, flag.value);
    check(judged, Rule::Tool, flag.bit)?;
    Ok(flag.value == 1)
}

/// weighted_bipred_idc, which is 0 where the target has no weighted prediction.
fn read_weighted_bipred<S: Elements>(
    target: Target,
    bits: &mut Bits,
    sink: &mut S,
) -> Result<u32, Stop>
    requires { HasRoom S.failures sink.old }
    ensures { Meets (span S.took S.failures sink.old sink.new) (Is (λ x. x)) (weighted_bipred target) bits.old bits.new result }
{
    let idc = read_u::<2, S>(bits, ElementName::WeightedBipredIdc, sink)?;
    let judged = is_weighting_judged(target, idc.value);
    check(judged, Rule::Tool, idc.bit)?;
    check(idc.value <= 2, Rule::Range, idc.bit)?;
    Ok(idc.value)
}

/// The set, element by element.
fn pps_steps<S: Elements>(target: Target, bits: &mut Bits, sink: &mut S) -> Result<Pps, Stop>
    requires { HasRoom S.failures sink.old }
    ensures meets { Meets (span S.took S.failures sink.old sink.new) (Is (λ x. x)) (pps target) bits.old bits.new result }
    ensures id { IfOk result (λ s. s.pic_parameter_set_id ≤ 255) }
    ensures names { IfOk result (λ s. s.seq_parameter_set_id ≤ 31) }
{
    let id = ue_up_to(bits, ElementName::PicParameterSetId, 255, sink)?;
    let sps = ue_up_to(bits, ElementName::SeqParameterSetId, 31, sink)?;
    u_must_be::<1, S>(bits, ElementName::EntropyCodingModeFlag, 0, sink)?;
    let bottom = flag_value(
        bits,
        ElementName::BottomFieldPicOrderInFramePresentFlag,
        sink,
    )?;
    ue_must_be_0(bits, ElementName::NumSliceGroupsMinus1, sink)?;
    let l0 = ue_up_to(bits, ElementName::NumRefIdxL0DefaultActiveMinus1, 31, sink)?;
    let l1 = ue_up_to(bits, ElementName::NumRefIdxL1DefaultActiveMinus1, 31, sink)?;
    let weighted = read_weighted_pred(target, bits, sink)?;
    let bipred = read_weighted_bipred(target, bits, sink)?;
    let qp = se_within(bits, ElementName::PicInitQpMinus26, -26, 25, sink)?;
    let qs = se_within(bits, ElementName::PicInitQsMinus26, -26, 25, sink)?;
    let chroma = se_within(bits, ElementName::ChromaQpIndexOffset, -12, 12, sink)?;
    let deblocking = flag_value(bits, ElementName::DeblockingFilterControlPresentFlag, sink)?;
    let intra = flag_value(bits, ElementName::ConstrainedIntraPredFlag, sink)?;
    u_must_be::<1, S>(bits, ElementName::RedundantPicCntPresentFlag, 0, sink)?;
    read_trailing(bits, sink)?;
    Ok(Pps {
        pic_parameter_set_id: id,
        seq_parameter_set_id: sps,
        bottom_field_pic_order_in_frame_present_flag: bottom,
        num_ref_idx_l0_default_active_minus1: l0,
        num_ref_idx_l1_default_active_minus1: l1,
        weighted_pred_flag: weighted,
        weighted_bipred_idc: bipred,
        pic_init_qp_minus26: qp,
        pic_init_qs_minus26: qs,
        chroma_qp_index_offset: chroma,
        deblocking_filter_control_present_flag: deblocking,
        constrained_intra_pred_flag: intra,
    })
}

/// Reads a picture parameter set, which is all of the unit's RBSP, for this target.
///
/// Ok: the set; the elements that the sink was told are its one derivation, with every rule met.
/// No: the first rule that it breaks, at its stream bit. Write: the sink failed. After an Err the reader may have moved.
pub fn read_pps<S: Elements>(target: Target, bits: &mut Bits, sink: &mut S) -> Result<Pps, Stop>
    requires { HasRoom S.failures sink.old }
    ensures answers { Answers (span S.took S.failures sink.old sink.new) (Is (λ x. x)) (pps target) bits.old bits.new result }
    ensures meets { Meets (span S.took S.failures sink.old sink.new) (Is (λ x. x)) (pps target) bits.old bits.new result }
    ensures id { IfOk result (λ s. s.pic_parameter_set_id ≤ 255) }
    ensures names { IfOk result (λ s. s.seq_parameter_set_id ≤ 31) }
{
    pps_steps(target, bits, sink)
}
