//! The content of messages that need no parameter set (D.1, D.2).
//!
//! Each reader goes through the syntax of a message and answers None where a word is missing, or a value is out of its range.
#![tactic(auto)]

ghost use Rattle.std.specs.Prelude.{◌≡◌, ◌≤◌};
ghost use Rattle.h264_strict.specs.SeiContent as say;
ghost use Rattle.h264_strict.specs.SeiPart.{times, read_so};

use crate::sei::part::{must, u, u_to, ue, ue_to};
use h264_bits::{Bits, NoWord};

/// The longest repetition period.
const LONGEST_PERIOD: u32 = 16384;

/// The greatest frame_num that any sequence may have.
const LAST_FRAME_NUM: u32 = 65535;

/// Each frame_packing_arrangement_type that a rule names: squares of a board, the frames side by side, one over the other, or one after another.
const CHECKERBOARD: u32 = 0;

const SIDE_BY_SIDE: u32 = 3;

const TOP_BOTTOM: u32 = 4;

const TEMPORAL: u32 = 5;

/// What some messages repeat.
#[derive(Clone, Copy)]
pub(crate) enum Group {
    /// An offset of a rectangle's side.
    Offset,
    /// The rates of a layer of sub-sequences.
    Statistics,
    /// A sub-sequence that is referred to.
    Reference,
    /// 32 bits that may have any value.
    Word,
}

/// An identifying number; 256 to 511 and those from 2^31 on are reserved.
fn identifier(bits: &mut Bits) -> Option<()>
    ensures read { read_so result bits.new.at ≡ say.identifier bits.old.body.bytes bits.old.at }
    ensures body { bits.new.body ≡ bits.old.body }
{
    let id = ue(bits)?;
    must(id < 256 || 512 <= id && id < 1 << 31)
}

/// A repetition period.
fn repetition_period(bits: &mut Bits) -> Option<()>
    ensures read { read_so result bits.new.at ≡ say.repetition_period bits.old.body.bytes bits.old.at }
    ensures body { bits.new.body ≡ bits.old.body }
{
    ue_to(bits, LONGEST_PERIOD)?;
    Some(())
}

/// A number below any MaxFrameNum.
fn frame_count(bits: &mut Bits) -> Option<()>
    ensures read { read_so result bits.new.at ≡ say.frame_count bits.old.body.bytes bits.old.at }
    ensures body { bits.new.body ≡ bits.old.body }
{
    ue_to(bits, LAST_FRAME_NUM)?;
    Some(())
}

/// Bits that may have any value.
pub(crate) fn any(bits: &mut Bits, n: u32) -> Option<()>
    requires { n ≤ 32 }
    ensures read { read_so result bits.new.at ≡ say.any n bits.old.body.bytes bits.old.at }
    ensures body { bits.new.body ≡ bits.old.body }
{
    u(bits, n)?;
    Some(())
}

/// sub_seq_layer_num and sub_seq_id.
fn sub_sequence(bits: &mut Bits) -> Option<()>
    ensures read { read_so result bits.new.at ≡ say.sub_sequence bits.old.body.bytes bits.old.at }
    ensures body { bits.new.body ≡ bits.old.body }
{
    ue_to(bits, 255)?;
    ue_to(bits, 65535)?;
    Some(())
}

/// accurate_statistics_flag; average_bit_rate and average_frame_rate, each of 16 bits.
fn statistics(bits: &mut Bits) -> Option<()>
    ensures read { read_so result bits.new.at ≡ say.statistics bits.old.body.bytes bits.old.at }
    ensures body { bits.new.body ≡ bits.old.body }
{
    u(bits, 1)?;
    any(bits, 32)
}

/// The sub-sequence that is referred to, and ref_sub_seq_direction.
fn sub_sequence_reference(bits: &mut Bits) -> Option<()>
    ensures read { read_so result bits.new.at ≡ say.sub_sequence_reference bits.old.body.bytes bits.old.at }
    ensures body { bits.new.body ≡ bits.old.body }
{
    sub_sequence(bits)?;
    any(bits, 1)
}

/// An offset of a rectangle's side, se(v).
fn offset(bits: &mut Bits) -> Option<()>
    ensures read { read_so result bits.new.at ≡ say.offset bits.old.body.bytes bits.old.at }
    ensures body { bits.new.body ≡ bits.old.body }
{
    match bits.se() {
        Ok(_) => Some(()),
        Err(NoWord) => None,
    }
}

/// One group.
#[tactic(auto, unfolding(crate::specs::SeiContent::group))]
fn one(bits: &mut Bits, group: Group) -> Option<()>
    ensures read { read_so result bits.new.at ≡ say.group group bits.old.body.bytes bits.old.at }
    ensures body { bits.new.body ≡ bits.old.body }
{
    match group {
        Group::Offset => offset(bits),
        Group::Statistics => statistics(bits),
        Group::Reference => sub_sequence_reference(bits),
        Group::Word => any(bits, 32),
    }
}

/// So many groups.
fn groups(bits: &mut Bits, group: Group, count: u32) -> Option<()>
    ensures read { read_so result bits.new.at ≡ times count (say.group group) bits.old.body.bytes bits.old.at }
    ensures body { bits.new.body ≡ bits.old.body }
{
    for _n in 0..count {
        one(bits, group)?;
    }
    Some(())
}

/// The rectangles of pan_scan_rect(), and how long they stay.
fn pan_scan_rects(bits: &mut Bits) -> Option<()>
    ensures read { read_so result bits.new.at ≡ say.pan_scan_rects bits.old.body.bytes bits.old.at }
    ensures body { bits.new.body ≡ bits.old.body }
{
    let pan_scan_cnt_minus1 = ue_to(bits, 2)?;
    groups(bits, Group::Offset, 4 * (pan_scan_cnt_minus1 + 1))?;
    repetition_period(bits)
}

/// pan_scan_rect().
fn pan_scan_rect(bits: &mut Bits) -> Option<()>
    ensures read { read_so result bits.new.at ≡ say.pan_scan_rect bits.old.body.bytes bits.old.at }
    ensures body { bits.new.body ≡ bits.old.body }
{
    identifier(bits)?;
    let pan_scan_rect_cancel_flag = u(bits, 1)?;
    if pan_scan_rect_cancel_flag == 0 {
        return pan_scan_rects(bits);
    }
    Some(())
}

/// recovery_point(): recovery_frame_cnt; exact_match_flag and broken_link_flag; changing_slice_group_idc.
fn recovery_point(bits: &mut Bits) -> Option<()>
    ensures read { read_so result bits.new.at ≡ say.recovery_point bits.old.body.bytes bits.old.at }
    ensures body { bits.new.body ≡ bits.old.body }
{
    frame_count(bits)?;
    u(bits, 2)?;
    u_to(bits, 2, 2)?;
    Some(())
}

/// The scene of scene_info(), and the one that it becomes.
fn scene(bits: &mut Bits) -> Option<()>
    ensures read { read_so result bits.new.at ≡ say.scene bits.old.body.bytes bits.old.at }
    ensures body { bits.new.body ≡ bits.old.body }
{
    let scene_id = ue(bits)?;
    let scene_transition_type = ue_to(bits, 6)?;
    if 3 < scene_transition_type {
        let second_scene_id = ue(bits)?;
        return must(second_scene_id != scene_id);
    }
    Some(())
}

/// scene_info().
fn scene_info(bits: &mut Bits) -> Option<()>
    ensures read { read_so result bits.new.at ≡ say.scene_info bits.old.body.bytes bits.old.at }
    ensures body { bits.new.body ≡ bits.old.body }
{
    let scene_info_present_flag = u(bits, 1)?;
    if scene_info_present_flag == 1 {
        return scene(bits);
    }
    Some(())
}

/// sub_seq_info(); the 3 bits are first_ref_pic_flag, leading_non_ref_pic_flag and last_pic_flag.
fn sub_seq_info(bits: &mut Bits) -> Option<()>
    ensures read { read_so result bits.new.at ≡ say.sub_seq_info bits.old.body.bytes bits.old.at }
    ensures body { bits.new.body ≡ bits.old.body }
{
    sub_sequence(bits)?;
    u(bits, 3)?;
    let sub_seq_frame_num_flag = u(bits, 1)?;
    if sub_seq_frame_num_flag == 1 {
        return frame_count(bits);
    }
    Some(())
}

/// sub_seq_layer_characteristics().
fn sub_seq_layer_characteristics(bits: &mut Bits) -> Option<()>
    ensures read { read_so result bits.new.at ≡ say.sub_seq_layer_characteristics bits.old.body.bytes bits.old.at }
    ensures body { bits.new.body ≡ bits.old.body }
{
    let num_sub_seq_layers_minus1 = ue_to(bits, 255)?;
    groups(bits, Group::Statistics, num_sub_seq_layers_minus1 + 1)
}

/// The duration and the rates of sub_seq_characteristics().
fn sub_seq_rates(bits: &mut Bits) -> Option<()>
    ensures read { read_so result bits.new.at ≡ say.sub_seq_rates bits.old.body.bytes bits.old.at }
    ensures body { bits.new.body ≡ bits.old.body }
{
    let duration_flag = u(bits, 1)?;
    if duration_flag == 1 {
        any(bits, 32)?;
    }
    let average_rate_flag = u(bits, 1)?;
    if average_rate_flag == 1 {
        return statistics(bits);
    }
    Some(())
}

/// sub_seq_characteristics().
fn sub_seq_characteristics(bits: &mut Bits) -> Option<()>
    ensures read { read_so result bits.new.at ≡ say.sub_seq_characteristics bits.old.body.bytes bits.old.at }
    ensures body { bits.new.body ≡ bits.old.body }
{
    sub_sequence(bits)?;
    sub_seq_rates(bits)?;
    let num_referenced_subseqs = ue_to(bits, 255)?;
    groups(bits, Group::Reference, num_referenced_subseqs)
}

/// progressive_refinement_start().
fn progressive_refinement_start(bits: &mut Bits) -> Option<()>
    ensures read { read_so result bits.new.at ≡ say.progressive_refinement_start bits.old.body.bytes bits.old.at }
    ensures body { bits.new.body ≡ bits.old.body }
{
    ue(bits)?;
    frame_count(bits)
}

/// A number that may be any: snapshot_id, and progressive_refinement_id at the end.
fn number(bits: &mut Bits) -> Option<()>
    ensures read { read_so result bits.new.at ≡ say.number bits.old.body.bytes bits.old.at }
    ensures body { bits.new.body ≡ bits.old.body }
{
    ue(bits)?;
    Some(())
}

/// deblocking_filter_display_preference().
fn deblocking_filter_display_preference(bits: &mut Bits) -> Option<()>
    ensures read { read_so result bits.new.at ≡ say.deblocking_filter_display_preference bits.old.body.bytes bits.old.at }
    ensures body { bits.new.body ≡ bits.old.body }
{
    let deblocking_display_preference_cancel_flag = u(bits, 1)?;
    if deblocking_display_preference_cancel_flag == 0 {
        u(bits, 2)?;
        return repetition_period(bits);
    }
    Some(())
}

/// stereo_video_info().
fn stereo_video_info(bits: &mut Bits) -> Option<()>
    ensures read { read_so result bits.new.at ≡ say.stereo_video_info bits.old.body.bytes bits.old.at }
    ensures body { bits.new.body ≡ bits.old.body }
{
    let field_views_flag = u(bits, 1)?;
    any(bits, if field_views_flag == 1 { 3 } else { 4 })
}

/// Whether quincunx sampling is that of type 0, and not of type 5.
fn fits_sampling(arrangement_type: u32, quincunx_sampling_flag: u32) -> bool
    ensures { result ≡ say.fits_sampling arrangement_type quincunx_sampling_flag }
{
    let lacks = arrangement_type == CHECKERBOARD && quincunx_sampling_flag == 0;
    !lacks && !(arrangement_type == TEMPORAL && quincunx_sampling_flag == 1)
}

/// The flags of a frame packing arrangement after its content_interpretation_type.
fn arrangement_flags(bits: &mut Bits, arrangement_type: u32) -> Option<()>
    ensures read { read_so result bits.new.at ≡ say.arrangement_flags arrangement_type bits.old.body.bytes bits.old.at }
    ensures body { bits.new.body ≡ bits.old.body }
{
    let spatial_flipping_flag = u(bits, 1)?;
    let frame0_flipped_flag = u(bits, 1)?;
    u(bits, 1)?;
    let current_frame_is_frame0_flag = u(bits, 1)?;
    u(bits, 2)?;
    let may_flip = arrangement_type == SIDE_BY_SIDE || arrangement_type == TOP_BOTTOM;
    must(
        (may_flip || spatial_flipping_flag == 0)
            && (spatial_flipping_flag == 1 || frame0_flipped_flag == 0)
            && (arrangement_type == TEMPORAL || current_frame_is_frame0_flag == 0),
    )
}

/// The grid of a frame packing arrangement, its reserved byte, and how long it stays.
fn arrangement_end(bits: &mut Bits, has_grid: bool) -> Option<()>
    ensures read { read_so result bits.new.at ≡ say.arrangement_end has_grid bits.old.body.bytes bits.old.at }
    ensures body { bits.new.body ≡ bits.old.body }
{
    if has_grid {
        any(bits, 16)?;
    }
    u_to(bits, 8, 0)?;
    repetition_period(bits)
}

/// What a frame packing arrangement says where it is not cancelled.
fn arrangement(bits: &mut Bits) -> Option<()>
    ensures read { read_so result bits.new.at ≡ say.arrangement bits.old.body.bytes bits.old.at }
    ensures body { bits.new.body ≡ bits.old.body }
{
    let arrangement_type = u_to(bits, 7, 7)?;
    let quincunx_sampling_flag = u(bits, 1)?;
    must(fits_sampling(arrangement_type, quincunx_sampling_flag))?;
    u_to(bits, 6, 2)?;
    arrangement_flags(bits, arrangement_type)?;
    arrangement_end(
        bits,
        quincunx_sampling_flag == 0 && arrangement_type != TEMPORAL,
    )
}

/// frame_packing_arrangement(); the last bit is frame_packing_arrangement_extension_flag.
fn frame_packing_arrangement(bits: &mut Bits) -> Option<()>
    ensures read { read_so result bits.new.at ≡ say.frame_packing_arrangement bits.old.body.bytes bits.old.at }
    ensures body { bits.new.body ≡ bits.old.body }
{
    identifier(bits)?;
    let frame_packing_arrangement_cancel_flag = u(bits, 1)?;
    if frame_packing_arrangement_cancel_flag == 0 {
        arrangement(bits)?;
    }
    u_to(bits, 1, 0)?;
    Some(())
}

/// hor_flip, ver_flip and anticlockwise_rotation, which are the 18 bits, how long they stay, and display_orientation_extension_flag.
fn orientation(bits: &mut Bits) -> Option<()>
    ensures read { read_so result bits.new.at ≡ say.orientation bits.old.body.bytes bits.old.at }
    ensures body { bits.new.body ≡ bits.old.body }
{
    u(bits, 18)?;
    repetition_period(bits)?;
    u_to(bits, 1, 0)?;
    Some(())
}

/// display_orientation().
fn display_orientation(bits: &mut Bits) -> Option<()>
    ensures read { read_so result bits.new.at ≡ say.display_orientation bits.old.body.bytes bits.old.at }
    ensures body { bits.new.body ≡ bits.old.body }
{
    let display_orientation_cancel_flag = u(bits, 1)?;
    if display_orientation_cancel_flag == 0 {
        return orientation(bits);
    }
    Some(())
}

/// alternative_transfer_characteristics(): a value of table E-4 that is not reserved.
fn alternative_transfer_characteristics(bits: &mut Bits) -> Option<()>
    ensures read { read_so result bits.new.at ≡ say.alternative_transfer_characteristics bits.old.body.bytes bits.old.at }
    ensures body { bits.new.body ≡ bits.old.body }
{
    let preferred = u(bits, 8)?;
    must(preferred != 0 && preferred != 3 && preferred <= 18)
}

/// Sub-sequences, freezes, snapshots and refinements.
fn early_content(bits: &mut Bits, payload_type: usize) -> Option<()>
    ensures read { read_so result bits.new.at ≡ say.early_content payload_type bits.old.body.bytes bits.old.at }
    ensures body { bits.new.body ≡ bits.old.body }
{
    match payload_type {
        10 => sub_seq_info(bits),
        11 => sub_seq_layer_characteristics(bits),
        12 => sub_seq_characteristics(bits),
        13 => repetition_period(bits),
        14 => Some(()),
        16 => progressive_refinement_start(bits),
        _ => number(bits),
    }
}

/// The content of a message of this payloadType.
pub(crate) fn content(bits: &mut Bits, payload_type: usize) -> Option<()>
    ensures read { read_so result bits.new.at ≡ say.content payload_type bits.old.body.bytes bits.old.at }
    ensures body { bits.new.body ≡ bits.old.body }
{
    match payload_type {
        2 => pan_scan_rect(bits),
        6 => recovery_point(bits),
        9 => scene_info(bits),
        20 => deblocking_filter_display_preference(bits),
        21 => stereo_video_info(bits),
        45 => frame_packing_arrangement(bits),
        47 => display_orientation(bits),
        137 => groups(bits, Group::Word, 6),
        144 => any(bits, 32),
        147 => alternative_transfer_characteristics(bits),
        _ => early_content(bits, payload_type),
    }
}
