//! Reading a sequence parameter set (7.3.2.1.1).
#![tactic(auto)]

ghost use Rattle.std.specs.Prelude.{◌≡◌, ℕ, ◌+◌, ◌-◌, ◌<◌, ◌≤◌, ◌^◌, IfOk, Some, None, cond, true};
ghost use Rattle.h264_base.specs.Call.{HasRoom, span};
ghost use Rattle.h264_base.specs.Meets.{Meets, Is, Answers};
ghost use Rattle.h264_base.specs.declared.element_name.ElementName.TheVariants.{FrameCroppingFlag};
ghost use Rattle.h264_bits.specs.Forms.{flag};
ghost use Rattle.h264_sps.specs.Vui.{flagged, vui};
ghost use Rattle.h264_sps.specs.Parts.{crop_offsets, is_size_allowed, sps_from_size};
ghost use Rattle.h264_sps.specs.Seen.{level_seen, front_seen};
ghost use Rattle.h264_sps.specs.Sps.{constraint_set_flags, level, profile_and_level, frame_size, frame_cropping, max_dpb_frames as max_dpb_frames_of};
ghost use Rattle.h264_sps.specs.Sps.{is_judged_profile, is_level_6, sps};
ghost use Rattle.h264_sps.specs.Usable.{is_accepted};

use crate::count_type::{CountType, read_count_type};
use crate::sps::{ConstraintSetFlags, FrameCropping, FrameSize, Sps};
use crate::vui::read_vui_info;
use h264_base::{ElementName, Elements, Feature, Rule, Stop, Target};
use h264_bits::forms::{flag_value, u_must_be, u_value, u_values, ue_up_to};
use h264_bits::{Bits, check, read_trailing, read_u, read_ue, support};
use h264_tables::{Limits, limits};

/// level_idc, and what the level allows.
#[derive(Clone, Copy)]
pub(crate) struct Level {
    level_idc: u32,
    limits: Limits,
}

/// What stands before the set's id.
#[derive(Clone, Copy)]
pub(crate) struct Front {
    profile_idc: u32,
    flags: ConstraintSetFlags,
    reserved: u32,
    level: Level,
}

/// What stands before the size of a frame.
#[derive(Clone, Copy)]
pub(crate) struct Start {
    front: Front,
    seq_parameter_set_id: u32,
    log2_max_frame_num: u32,
    count_type: CountType,
    max_num_ref_frames: u32,
    gaps_in_frame_num_value_allowed_flag: bool,
}

fn is_judged_profile(target: Target, profile_idc: u32, set0: bool) -> bool
    ensures { result ≡ is_judged_profile target profile_idc set0 }
{
    match target {
        Target::Baseline => profile_idc == 66 || (profile_idc == 77 || profile_idc == 88) && set0,
        Target::MainIP => profile_idc == 66 || profile_idc == 77 || profile_idc == 88 && set0,
    }
}

fn is_level_6(level_idc: u32) -> bool
    ensures { result ≡ is_level_6 level_idc }
{
    level_idc == 60 || level_idc == 61 || level_idc == 62
}

/// The six flags.
fn read_flags<S: Elements>(bits: &mut Bits, sink: &mut S) -> Result<ConstraintSetFlags, Stop>
    requires { HasRoom S.failures sink.old }
    ensures { Meets (span S.took S.failures sink.old sink.new) (Is (λ x. x)) constraint_set_flags bits.old bits.new result }
{
    let names = [
        ElementName::ConstraintSet0Flag,
        ElementName::ConstraintSet1Flag,
        ElementName::ConstraintSet2Flag,
        ElementName::ConstraintSet3Flag,
        ElementName::ConstraintSet4Flag,
        ElementName::ConstraintSet5Flag,
    ];
    let [set0, set1, set2, set3, set4, set5] = u_values::<1, 6, S>(bits, names, sink)?;
    Ok(ConstraintSetFlags {
        set0: set0 == 1,
        set1: set1 == 1,
        set2: set2 == 1,
        set3: set3 == 1,
        set4: set4 == 1,
        set5: set5 == 1,
    })
}

/// level_idc: a level that is judged.
fn read_level<S: Elements>(set3: bool, bits: &mut Bits, sink: &mut S) -> Result<Level, Stop>
    requires { HasRoom S.failures sink.old }
    ensures { Meets (span S.took S.failures sink.old sink.new) (Is level_seen) (level set3) bits.old bits.new result }
{
    let level = read_u::<8, S>(bits, ElementName::LevelIdc, sink)?;
    support(!is_level_6(level.value), Feature::Level6, level.bit)?;
    match limits(level.value as u8, set3) {
        Some(limits) => Ok(Level {
            level_idc: level.value,
            limits,
        }),
        None => Err(Stop::No {
            bit: level.bit,
            rule: Rule::Range,
        }),
    }
}

/// The profile, the flags and the level.
fn read_front<S: Elements>(target: Target, bits: &mut Bits, sink: &mut S) -> Result<Front, Stop>
    requires { HasRoom S.failures sink.old }
    ensures { Meets (span S.took S.failures sink.old sink.new) (Is front_seen) (profile_and_level target) bits.old bits.new result }
{
    let profile = read_u::<8, S>(bits, ElementName::ProfileIdc, sink)?;
    let flags = read_flags(bits, sink)?;
    check(
        is_judged_profile(target, profile.value, flags.set0),
        Rule::Profile,
        profile.bit,
    )?;
    let reserved = u_value::<2, S>(bits, ElementName::ReservedZero2bits, sink)?;
    let level = read_level(flags.set3, bits, sink)?;
    Ok(Front {
        profile_idc: profile.value,
        flags,
        reserved,
        level,
    })
}

/// MaxDpbFrames: how many frames of this size the level's picture buffer holds (A.3.1); 0 where a frame has no macroblock.
pub fn max_dpb_frames(limits: Limits, frame_size: FrameSize) -> u32
    ensures { result ≡ max_dpb_frames_of limits frame_size }
{
    let macroblocks = frame_size.width as u64 * frame_size.height as u64;
    if macroblocks == 0 {
        return 0;
    }
    (limits.max_dpb_mbs as u64 / macroblocks).min(16) as u32
}

/// The size of a frame, where the level allows it, and the reference frames in its picture buffer.
fn allowed_size(
    limits: Limits,
    max_num_ref_frames: u32,
    width: u64,
    height: u64,
) -> Option<FrameSize>
    requires across { (0 < width) × (width ≤ 2 ^ 32) }
    requires down { (0 < height) × (height ≤ 2 ^ 32) }
    ensures { result ≡ cond (is_size_allowed limits max_num_ref_frames (record { width = width; height = height }))
        (Some (record { width = width; height = height })) None }
{
    let most = limits.max_fs as u64;
    if width > most || height > most {
        return None;
    }
    if width * height > most || width * width > 8 * most || height * height > 8 * most {
        return None;
    }
    let size = FrameSize {
        width: width as u32,
        height: height as u32,
    };
    if max_num_ref_frames <= max_dpb_frames(limits, size) {
        Some(size)
    } else {
        None
    }
}

/// The size of a frame, which fits the level, as do the reference frames.
fn read_frame_size<S: Elements>(
    limits: Limits,
    max_num_ref_frames: u32,
    bits: &mut Bits,
    sink: &mut S,
) -> Result<FrameSize, Stop>
    requires { HasRoom S.failures sink.old }
    ensures { Meets (span S.took S.failures sink.old sink.new) (Is (λ x. x)) (frame_size limits max_num_ref_frames) bits.old bits.new result }
{
    let width_minus1 = read_ue(bits, ElementName::PicWidthInMbsMinus1, sink)?;
    let height_minus1 = read_ue(bits, ElementName::PicHeightInMapUnitsMinus1, sink)?;
    let width = width_minus1.value as u64 + 1;
    let height = height_minus1.value as u64 + 1;
    match allowed_size(limits, max_num_ref_frames, width, height) {
        Some(size) => Ok(size),
        None => Err(Stop::No {
            bit: height_minus1.bit,
            rule: Rule::FrameSize,
        }),
    }
}

/// The offsets at two sides of a frame, so many macroblocks apart, which leave some samples between them.
fn read_crop_offsets<S: Elements>(
    first: ElementName,
    second: ElementName,
    macroblocks: u32,
    bits: &mut Bits,
    sink: &mut S,
) -> Result<(u32, u32), Stop>
    requires { HasRoom S.failures sink.old }
    ensures { Meets (span S.took S.failures sink.old sink.new) (Is (λ x. (x.0, x.1))) (crop_offsets first second macroblocks) bits.old bits.new result }
{
    let before = read_ue(bits, first, sink)?;
    let following = read_ue(bits, second, sink)?;
    let cropped = 2 * (before.value as u64 + following.value as u64);
    check(cropped < 16 * macroblocks as u64, Rule::Crop, following.bit)?;
    Ok((before.value, following.value))
}

/// The cropping offsets, where they are present.
fn read_crop_info<S: Elements>(
    size: FrameSize,
    bits: &mut Bits,
    sink: &mut S,
) -> Result<Option<FrameCropping>, Stop>
    requires { HasRoom S.failures sink.old }
    ensures { Meets (span S.took S.failures sink.old sink.new) (Is (λ x. x)) (flagged (flag FrameCroppingFlag) (frame_cropping size)) bits.old bits.new result }
{
    let present = flag_value(bits, ElementName::FrameCroppingFlag, sink)?;
    if !present {
        return Ok(None);
    }
    let (left, right) = (
        ElementName::FrameCropLeftOffset,
        ElementName::FrameCropRightOffset,
    );
    let across = read_crop_offsets(left, right, size.width, bits, sink)?;
    let (top, bottom) = (
        ElementName::FrameCropTopOffset,
        ElementName::FrameCropBottomOffset,
    );
    let down = read_crop_offsets(top, bottom, size.height, bits, sink)?;
    Ok(Some(FrameCropping {
        left: across.0,
        right: across.1,
        top: down.0,
        bottom: down.1,
    }))
}

/// The set from the frame's size on.
fn sps_from_size<S: Elements>(start: &Start, bits: &mut Bits, sink: &mut S) -> Result<Sps, Stop>
    requires { HasRoom S.failures sink.old }
    ensures meets { Meets (span S.took S.failures sink.old sink.new) (Is (λ x. x)) (sps_from_size start.now) bits.old bits.new result }
    ensures id { IfOk result (λ s. s.seq_parameter_set_id ≡ start.now.seq_parameter_set_id) }
{
    let limits = start.front.level.limits;
    let size = read_frame_size(limits, start.max_num_ref_frames, bits, sink)?;
    u_must_be::<1, S>(bits, ElementName::FrameMbsOnlyFlag, 1, sink)?;
    let direct = flag_value(bits, ElementName::Direct8x8InferenceFlag, sink)?;
    let crop = read_crop_info(size, bits, sink)?;
    let buffer = max_dpb_frames(limits, size);
    let usability = read_vui_info(start.max_num_ref_frames, buffer, bits, sink)?;
    read_trailing(bits, sink)?;
    Ok(Sps {
        profile_idc: start.front.profile_idc,
        constraint_set_flags: start.front.flags,
        reserved_zero_2bits: start.front.reserved,
        level_idc: start.front.level.level_idc,
        seq_parameter_set_id: start.seq_parameter_set_id,
        log2_max_frame_num: start.log2_max_frame_num,
        count_type: start.count_type,
        max_num_ref_frames: start.max_num_ref_frames,
        gaps_in_frame_num_value_allowed_flag: start.gaps_in_frame_num_value_allowed_flag,
        frame_size: size,
        direct_8x8_inference_flag: direct,
        frame_cropping: crop,
        vui: usability,
    })
}

/// The set, element by element.
fn sps_steps<S: Elements>(target: Target, bits: &mut Bits, sink: &mut S) -> Result<Sps, Stop>
    requires { HasRoom S.failures sink.old }
    ensures meets { Meets (span S.took S.failures sink.old sink.new) (Is (λ x. x)) (sps target) bits.old bits.new result }
    ensures id { IfOk result (λ s. s.seq_parameter_set_id ≤ 31) }
{
    let front = read_front(target, bits, sink)?;
    let id = ue_up_to(bits, ElementName::SeqParameterSetId, 31, sink)?;
    let log2_minus4 = ue_up_to(bits, ElementName::Log2MaxFrameNumMinus4, 12, sink)?;
    let count_type = read_count_type(bits, sink)?;
    let refs = ue_up_to(bits, ElementName::MaxNumRefFrames, 16, sink)?;
    let gaps = flag_value(bits, ElementName::GapsInFrameNumValueAllowedFlag, sink)?;
    let start = Start {
        front,
        seq_parameter_set_id: id,
        log2_max_frame_num: log2_minus4 + 4,
        count_type,
        max_num_ref_frames: refs,
        gaps_in_frame_num_value_allowed_flag: gaps,
    };
    sps_from_size(&start, bits, sink)
}

/// Reads a sequence parameter set, which is all of the unit's RBSP, for this target.
///
/// Ok: the set; the elements that the sink was told are its one derivation, with every rule met. So its lengths, its size, its
/// cropping rectangle and its picture buffer are ones that some unit may give, and nobody has to test them again.
/// No: the first rule that it breaks, at its stream bit. Outside: its level is one that is not judged. Write: the sink failed.
/// After an Err the reader may have moved.
pub fn read_sps<S: Elements>(target: Target, bits: &mut Bits, sink: &mut S) -> Result<Sps, Stop>
    requires { HasRoom S.failures sink.old }
    ensures answers { Answers (span S.took S.failures sink.old sink.new) (Is (λ x. x)) (sps target) bits.old bits.new result }
    ensures meets { Meets (span S.took S.failures sink.old sink.new) (Is (λ x. x)) (sps target) bits.old bits.new result }
    ensures id { IfOk result (λ s. s.seq_parameter_set_id ≤ 31) }
    ensures accepted { IfOk result (λ s. is_accepted s ≡ true) }
{
    sps_steps(target, bits, sink)
}
