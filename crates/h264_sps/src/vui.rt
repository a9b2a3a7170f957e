//! Video usability information (E.1.1), with the rules on the picture buffer (E.2.1).
#![tactic(auto)]

ghost use Rattle.std.specs.Prelude.{◌≡◌, ◌||◌, ℕ, ◌-◌, ◌<◌, ◌^◌};
ghost use Rattle.h264_base.specs.Call.{HasRoom, span};
ghost use Rattle.std.specs.Option.{is_some};
ghost use Rattle.h264_base.specs.Meets.{Meets, Is};
ghost use Rattle.h264_base.specs.declared.element_name.ElementName.TheVariants.{AspectRatioInfoPresentFlag, OverscanInfoPresentFlag};
ghost use Rattle.h264_base.specs.declared.element_name.ElementName.TheVariants.{OverscanAppropriateFlag, VideoSignalTypePresentFlag};
ghost use Rattle.h264_base.specs.declared.element_name.ElementName.TheVariants.{ChromaLocInfoPresentFlag, TimingInfoPresentFlag, LowDelayHrdFlag};
ghost use Rattle.h264_base.specs.declared.element_name.ElementName.TheVariants.{BitstreamRestrictionFlag, VuiParametersPresentFlag};
ghost use Rattle.h264_bits.specs.Forms.{flag, optional};
ghost use Rattle.h264_sps.specs.Hrd.{hrd};
ghost use Rattle.h264_sps.specs.VuiParts.{is_buffering_allowed, vui_from_hrd, there as there_of};
ghost use Rattle.h264_sps.specs.Vui.{extended_ratio, sample_aspect_ratio, colour_description, video_signal_type, chroma_location, timing};
ghost use Rattle.h264_sps.specs.Vui.{bitstream_restriction, flagged, vui};

use crate::hrd::{Hrd, read_hrd};
use h264_base::{ElementName, Elements, Rule, Stop};
use h264_bits::forms::{flag_value, u_value, u_values, ue_values};
use h264_bits::{Bits, check, read_ue};

/// aspect_ratio_idc of a ratio that is written out (Table E-1).
const EXTENDED_SAR: u32 = 255;

/// The shape of a sample.
#[derive(Clone, Copy, PartialEq)]
pub struct SampleAspectRatio {
    pub aspect_ratio_idc: u32,
    /// The width and the height, where aspect_ratio_idc is 255.
    pub extended: Option<ExtendedRatio>,
}

/// sar_width and sar_height.
#[derive(Clone, Copy, PartialEq)]
pub struct ExtendedRatio {
    pub sar_width: u32,
    pub sar_height: u32,
}

/// The kind of video signal.
#[derive(Clone, Copy, PartialEq)]
pub struct VideoSignalType {
    pub video_format: u32,
    pub video_full_range_flag: bool,
    pub colour_description: Option<ColourDescription>,
}

/// How colours are meant.
#[derive(Clone, Copy, PartialEq)]
pub struct ColourDescription {
    pub colour_primaries: u32,
    pub transfer_characteristics: u32,
    pub matrix_coefficients: u32,
}

/// Where chroma samples lie.
#[derive(Clone, Copy, PartialEq)]
pub struct ChromaLocation {
    pub top_field: u32,
    pub bottom_field: u32,
}

/// The rate of pictures.
#[derive(Clone, Copy, PartialEq)]
pub struct Timing {
    pub num_units_in_tick: u32,
    pub time_scale: u32,
    pub fixed_frame_rate_flag: bool,
}

/// What a stream restricts itself to.
#[derive(Clone, Copy, PartialEq)]
pub struct BitstreamRestriction {
    pub motion_vectors_over_pic_boundaries_flag: bool,
    pub max_bytes_per_pic_denom: u32,
    pub max_bits_per_mb_denom: u32,
    pub log2_max_mv_length_horizontal: u32,
    pub log2_max_mv_length_vertical: u32,
    /// At most `max_dec_frame_buffering`.
    pub max_num_reorder_frames: u32,
    /// Frames of the picture buffer: max_num_ref_frames to MaxDpbFrames of the level.
    pub max_dec_frame_buffering: u32,
}

/// Video usability information. Values but those of the buffer are kept, and not judged.
#[derive(Clone, Copy, PartialEq)]
pub struct Vui {
    pub sample_aspect_ratio: Option<SampleAspectRatio>,
    pub overscan_appropriate_flag: Option<bool>,
    pub video_signal_type: Option<VideoSignalType>,
    pub chroma_location: Option<ChromaLocation>,
    pub timing: Option<Timing>,
    pub nal_hrd: Option<Hrd>,
    pub vcl_hrd: Option<Hrd>,
    pub low_delay_hrd_flag: Option<bool>,
    pub pic_struct_present_flag: bool,
    pub bitstream_restriction: Option<BitstreamRestriction>,
}

/// How many frames the picture buffer has to hold, and may hold.
#[derive(Clone, Copy)]
pub(crate) struct Frames {
    pub(crate) max_num_ref_frames: u32,
    /// MaxDpbFrames of the level.
    pub(crate) max_dpb_frames: u32,
}

/// How pictures are to be shown: what stands before the HRD parameters.
#[derive(Clone, Copy)]
pub(crate) struct Shown {
    ratio: Option<SampleAspectRatio>,
    overscan: Option<bool>,
    signal: Option<VideoSignalType>,
    location: Option<ChromaLocation>,
    time: Option<Timing>,
}

/// What was read of a part that is present.
pub(crate) fn there<T>(part: Result<T, Stop>) -> Result<Option<T>, Stop>
    ensures { result ≡ there_of part }
{
    match part {
        Ok(part) => Ok(Some(part)),
        Err(stop) => Err(stop),
    }
}

/// sar_width and sar_height, where they are present.
fn read_extended<S: Elements>(
    present: bool,
    bits: &mut Bits,
    sink: &mut S,
) -> Result<Option<ExtendedRatio>, Stop>
    requires { HasRoom S.failures sink.old }
    ensures { Meets (span S.took S.failures sink.old sink.new) (Is (λ x. x)) (optional present extended_ratio) bits.old bits.new result }
{
    if !present {
        return Ok(None);
    }
    let names = [ElementName::SarWidth, ElementName::SarHeight];
    let [width, height] = u_values::<16, 2, S>(bits, names, sink)?;
    Ok(Some(ExtendedRatio {
        sar_width: width,
        sar_height: height,
    }))
}

/// The colour description, where it is present.
fn read_colours<S: Elements>(
    present: bool,
    bits: &mut Bits,
    sink: &mut S,
) -> Result<Option<ColourDescription>, Stop>
    requires { HasRoom S.failures sink.old }
    ensures { Meets (span S.took S.failures sink.old sink.new) (Is (λ x. x)) (optional present colour_description) bits.old bits.new result }
{
    if !present {
        return Ok(None);
    }
    let names = [
        ElementName::ColourPrimaries,
        ElementName::TransferCharacteristics,
        ElementName::MatrixCoefficients,
    ];
    let [primaries, transfer, matrix] = u_values::<8, 3, S>(bits, names, sink)?;
    Ok(Some(ColourDescription {
        colour_primaries: primaries,
        transfer_characteristics: transfer,
        matrix_coefficients: matrix,
    }))
}

/// video_format and what goes with it.
fn read_video_signal_type<S: Elements>(
    bits: &mut Bits,
    sink: &mut S,
) -> Result<VideoSignalType, Stop>
    requires { HasRoom S.failures sink.old }
    ensures { Meets (span S.took S.failures sink.old sink.new) (Is (λ x. x)) video_signal_type bits.old bits.new result }
{
    let format = u_value::<3, S>(bits, ElementName::VideoFormat, sink)?;
    let full_range = flag_value(bits, ElementName::VideoFullRangeFlag, sink)?;
    let present = flag_value(bits, ElementName::ColourDescriptionPresentFlag, sink)?;
    let description = read_colours(present, bits, sink)?;
    Ok(VideoSignalType {
        video_format: format,
        video_full_range_flag: full_range,
        colour_description: description,
    })
}

/// Whether a picture buffer of so many frames holds the reference frames and those that are reordered, and the level allows it.
fn is_buffering_allowed(frames: Frames, reorder: u32, buffering: u32) -> bool
    ensures { result ≡ is_buffering_allowed frames reorder buffering }
{
    reorder <= buffering
        && frames.max_num_ref_frames <= buffering
        && buffering <= frames.max_dpb_frames
}

/// What the stream restricts itself to, with the rules on max_dec_frame_buffering.
fn read_bitstream_restriction<S: Elements>(
    frames: Frames,
    bits: &mut Bits,
    sink: &mut S,
) -> Result<BitstreamRestriction, Stop>
    requires { HasRoom S.failures sink.old }
    ensures { Meets (span S.took S.failures sink.old sink.new) (Is (λ x. x)) (bitstream_restriction frames.max_num_ref_frames frames.max_dpb_frames)
        bits.old bits.new result }
{
    let over = flag_value(bits, ElementName::MotionVectorsOverPicBoundariesFlag, sink)?;
    let names = [
        ElementName::MaxBytesPerPicDenom,
        ElementName::MaxBitsPerMbDenom,
        ElementName::Log2MaxMvLengthHorizontal,
        ElementName::Log2MaxMvLengthVertical,
        ElementName::MaxNumReorderFrames,
    ];
    let [bytes, mb_bits, across, down, reorder] = ue_values::<5, S>(bits, names, sink)?;
    let buffering = read_ue(bits, ElementName::MaxDecFrameBuffering, sink)?;
    check(
        is_buffering_allowed(frames, reorder, buffering.value),
        Rule::Vui,
        buffering.bit,
    )?;
    Ok(BitstreamRestriction {
        motion_vectors_over_pic_boundaries_flag: over,
        max_bytes_per_pic_denom: bytes,
        max_bits_per_mb_denom: mb_bits,
        log2_max_mv_length_horizontal: across,
        log2_max_mv_length_vertical: down,
        max_num_reorder_frames: reorder,
        max_dec_frame_buffering: buffering.value,
    })
}

/// The shape of a sample, where it is present.
fn read_ratio_info<S: Elements>(
    bits: &mut Bits,
    sink: &mut S,
) -> Result<Option<SampleAspectRatio>, Stop>
    requires { HasRoom S.failures sink.old }
    ensures { Meets (span S.took S.failures sink.old sink.new) (Is (λ x. x)) (flagged (flag AspectRatioInfoPresentFlag) sample_aspect_ratio)
        bits.old bits.new result }
{
    let present = flag_value(bits, ElementName::AspectRatioInfoPresentFlag, sink)?;
    if !present {
        return Ok(None);
    }
    let idc = u_value::<8, S>(bits, ElementName::AspectRatioIdc, sink)?;
    let extended = read_extended(idc == EXTENDED_SAR, bits, sink)?;
    Ok(Some(SampleAspectRatio {
        aspect_ratio_idc: idc,
        extended,
    }))
}

/// overscan_appropriate_flag, where it is present.
fn read_overscan_info<S: Elements>(bits: &mut Bits, sink: &mut S) -> Result<Option<bool>, Stop>
    requires { HasRoom S.failures sink.old }
    ensures { Meets (span S.took S.failures sink.old sink.new) (Is (λ x. x)) (flagged (flag OverscanInfoPresentFlag) (flag OverscanAppropriateFlag))
        bits.old bits.new result }
{
    match flag_value(bits, ElementName::OverscanInfoPresentFlag, sink) {
        Ok(true) => there(flag_value(bits, ElementName::OverscanAppropriateFlag, sink)),
        Ok(false) => Ok(None),
        Err(stop) => Err(stop),
    }
}

/// The kind of video signal, where it is present.
fn read_signal_info<S: Elements>(
    bits: &mut Bits,
    sink: &mut S,
) -> Result<Option<VideoSignalType>, Stop>
    requires { HasRoom S.failures sink.old }
    ensures { Meets (span S.took S.failures sink.old sink.new) (Is (λ x. x)) (flagged (flag VideoSignalTypePresentFlag) video_signal_type)
        bits.old bits.new result }
{
    match flag_value(bits, ElementName::VideoSignalTypePresentFlag, sink) {
        Ok(true) => there(read_video_signal_type(bits, sink)),
        Ok(false) => Ok(None),
        Err(stop) => Err(stop),
    }
}

/// Where chroma samples lie, where it is present.
fn read_location_info<S: Elements>(
    bits: &mut Bits,
    sink: &mut S,
) -> Result<Option<ChromaLocation>, Stop>
    requires { HasRoom S.failures sink.old }
    ensures { Meets (span S.took S.failures sink.old sink.new) (Is (λ x. x)) (flagged (flag ChromaLocInfoPresentFlag) chroma_location)
        bits.old bits.new result }
{
    let present = flag_value(bits, ElementName::ChromaLocInfoPresentFlag, sink)?;
    if !present {
        return Ok(None);
    }
    let names = [
        ElementName::ChromaSampleLocTypeTopField,
        ElementName::ChromaSampleLocTypeBottomField,
    ];
    let [top, bottom] = ue_values::<2, S>(bits, names, sink)?;
    Ok(Some(ChromaLocation {
        top_field: top,
        bottom_field: bottom,
    }))
}

/// The rate of pictures, where it is present.
fn read_timing_info<S: Elements>(bits: &mut Bits, sink: &mut S) -> Result<Option<Timing>, Stop>
    requires { HasRoom S.failures sink.old }
    ensures { Meets (span S.took S.failures sink.old sink.new) (Is (λ x. x)) (flagged (flag TimingInfoPresentFlag) timing) bits.old bits.new result }
{
    let present = flag_value(bits, ElementName::TimingInfoPresentFlag, sink)?;
    if !present {
        return Ok(None);
    }
    let names = [ElementName::NumUnitsInTick, ElementName::TimeScale];
    let [units, scale] = u_values::<32, 2, S>(bits, names, sink)?;
    let fixed = flag_value(bits, ElementName::FixedFrameRateFlag, sink)?;
    Ok(Some(Timing {
        num_units_in_tick: units,
        time_scale: scale,
        fixed_frame_rate_flag: fixed,
    }))
}

/// The HRD parameters after this flag, where they are present.
fn read_hrd_info<S: Elements>(
    flag_name: ElementName,
    bits: &mut Bits,
    sink: &mut S,
) -> Result<Option<Hrd>, Stop>
    requires { HasRoom S.failures sink.old }
    ensures { Meets (span S.took S.failures sink.old sink.new) (Is (λ x. x)) (flagged (flag flag_name) hrd) bits.old bits.new result }
{
    match flag_value(bits, flag_name, sink) {
        Ok(true) => there(read_hrd(bits, sink)),
        Ok(false) => Ok(None),
        Err(stop) => Err(stop),
    }
}

/// Whether HRD parameters of either kind are present.
fn has_hrd(nal: &Option<Hrd>, vcl: &Option<Hrd>) -> bool
    ensures { result ≡ (is_some nal.now || is_some vcl.now) }
{
    nal.is_some() || vcl.is_some()
}

/// low_delay_hrd_flag, where HRD parameters are present.
fn read_low_delay<S: Elements>(
    present: bool,
    bits: &mut Bits,
    sink: &mut S,
) -> Result<Option<bool>, Stop>
    requires { HasRoom S.failures sink.old }
    ensures { Meets (span S.took S.failures sink.old sink.new) (Is (λ x. x)) (optional present (flag LowDelayHrdFlag)) bits.old bits.new result }
{
    if !present {
        return Ok(None);
    }
    there(flag_value(bits, ElementName::LowDelayHrdFlag, sink))
}

/// What the stream restricts itself to, where it says so.
fn read_restriction<S: Elements>(
    frames: Frames,
    bits: &mut Bits,
    sink: &mut S,
) -> Result<Option<BitstreamRestriction>, Stop>
    requires { HasRoom S.failures sink.old }
    ensures { Meets (span S.took S.failures sink.old sink.new) (Is (λ x. x)) (flagged (flag BitstreamRestrictionFlag)
        (bitstream_restriction frames.max_num_ref_frames frames.max_dpb_frames)) bits.old bits.new result }
{
    match flag_value(bits, ElementName::BitstreamRestrictionFlag, sink) {
        Ok(true) => there(read_bitstream_restriction(frames, bits, sink)),
        Ok(false) => Ok(None),
        Err(stop) => Err(stop),
    }
}

/// The VUI from the HRD parameters on.
fn vui_from_hrd<S: Elements>(
    shown: &Shown,
    frames: Frames,
    bits: &mut Bits,
    sink: &mut S,
) -> Result<Vui, Stop>
    requires { HasRoom S.failures sink.old }
    ensures { Meets (span S.took S.failures sink.old sink.new) (Is (λ x. x)) (vui_from_hrd shown.now frames) bits.old bits.new result }
{
    let nal = read_hrd_info(ElementName::NalHrdParametersPresentFlag, bits, sink)?;
    let vcl = read_hrd_info(ElementName::VclHrdParametersPresentFlag, bits, sink)?;
    let low_delay = read_low_delay(has_hrd(&nal, &vcl), bits, sink)?;
    let pic_struct = flag_value(bits, ElementName::PicStructPresentFlag, sink)?;
    let restriction = read_restriction(frames, bits, sink)?;
    Ok(Vui {
        sample_aspect_ratio: shown.ratio,
        overscan_appropriate_flag: shown.overscan,
        video_signal_type: shown.signal,
        chroma_location: shown.location,
        timing: shown.time,
        nal_hrd: nal,
        vcl_hrd: vcl,
        low_delay_hrd_flag: low_delay,
        pic_struct_present_flag: pic_struct,
        bitstream_restriction: restriction,
    })
}

/// vui_parameters(), of a stream with so many reference frames, at a level whose buffer holds so many frames of its size.
fn read_vui<S: Elements>(frames: Frames, bits: &mut Bits, sink: &mut S) -> Result<Vui, Stop>
    requires { HasRoom S.failures sink.old }
    ensures { Meets (span S.took S.failures sink.old sink.new) (Is (λ x. x)) (vui frames.max_num_ref_frames frames.max_dpb_frames) bits.old bits.new result }
{
    let ratio = read_ratio_info(bits, sink)?;
    let overscan = read_overscan_info(bits, sink)?;
    let signal = read_signal_info(bits, sink)?;
    let location = read_location_info(bits, sink)?;
    let time = read_timing_info(bits, sink)?;
    let shown = Shown {
        ratio,
        overscan,
        signal,
        location,
        time,
    };
    vui_from_hrd(&shown, frames, bits, sink)
}

/// The usability information after its flag, where it is present, of a stream with so many reference frames, at a level whose buffer holds so many
/// frames of its size (MaxDpbFrames).
///
/// Ok: the elements that the sink was told are its one derivation, with every rule met. No: the first rule that it breaks, at its stream bit. Write:
/// the sink failed. After an Err the reader may have moved.
pub fn read_vui_info<S: Elements>(
    max_num_ref_frames: u32,
    max_dpb_frames: u32,
    bits: &mut Bits,
    sink: &mut S,
) -> Result<Option<Vui>, Stop>
    requires { HasRoom S.failures sink.old }
    ensures { Meets (span S.took S.failures sink.old sink.new) (Is (λ x. x)) (flagged (flag VuiParametersPresentFlag) (vui max_num_ref_frames max_dpb_frames))
        bits.old bits.new result }
{
    let frames = Frames {
        max_num_ref_frames,
        max_dpb_frames,
    };
    match flag_value(bits, ElementName::VuiParametersPresentFlag, sink) {
        Ok(true) => there(read_vui(frames, bits, sink)),
        Ok(false) => Ok(None),
        Err(stop) => Err(stop),
    }
}
