//! What a stream is, as C reads it.
#![tactic(auto)]

ghost use Rattle.std.specs.Prelude.{◌≡◌, ◌<◌, ◌^◌};
ghost use Rattle.h264_c.specs.Infos.{IsCInfo};

use h264_stream::StreamInfo;
use h264_stream::info::FrameRate;

/// What the parameter sets say of a stream: `h264v_info` of h264v.h.
#[repr(C)]
#[derive(Clone, Copy)]
pub struct CInfo {
    pub rate_frames: u64,
    pub rate_seconds: u64,
    pub profile_idc: u32,
    pub level_idc: u32,
    pub is_level_1b: u32,
    pub width: u32,
    pub height: u32,
    pub coded_width: u32,
    pub coded_height: u32,
    pub crop_left: u32,
    pub crop_right: u32,
    pub crop_top: u32,
    pub crop_bottom: u32,
    pub sar_width: u32,
    pub sar_height: u32,
    pub is_fixed_rate: u32,
}

/// A number in 32 bits, which hold those of every set that is judged.
fn in_32_bits(value: u64) -> u32
    ensures { value < 2 ^ 32 → result ≡ value }
{
    match u32::try_from(value) {
        Ok(value) => value,
        Err(_) => u32::MAX,
    }
}

/// The width and the height of a sample, with zeros where they are not known.
fn shape_of(info: &StreamInfo) -> (u64, u64) {
    match info.shape {
        Some(shape) => (shape.width, shape.height),
        None => (0, 0),
    }
}

/// The rate, with zeros where there is none.
fn rate_of(info: &StreamInfo) -> FrameRate {
    info.rate.unwrap_or_default()
}

/// What C reads of a stream.
pub(crate) fn info_of(info: &StreamInfo) -> CInfo
    ensures { IsCInfo info.now result }
{
    let (sar_width, sar_height) = shape_of(info);
    let rate = rate_of(info);
    CInfo {
        rate_frames: rate.frames,
        rate_seconds: rate.seconds,
        profile_idc: in_32_bits(info.profile_idc),
        level_idc: in_32_bits(info.level_idc),
        is_level_1b: u32::from(info.is_level_1b),
        width: in_32_bits(info.width),
        height: in_32_bits(info.height),
        coded_width: in_32_bits(info.coded_width),
        coded_height: in_32_bits(info.coded_height),
        crop_left: in_32_bits(info.crop_left),
        crop_right: in_32_bits(info.crop_right),
        crop_top: in_32_bits(info.crop_top),
        crop_bottom: in_32_bits(info.crop_bottom),
        sar_width: in_32_bits(sar_width),
        sar_height: in_32_bits(sar_height),
        is_fixed_rate: u32::from(info.is_fixed_rate),
    }
}
