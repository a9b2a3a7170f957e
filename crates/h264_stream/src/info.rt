//! What the active sequence parameter set says of a stream.
#![tactic(auto)]

ghost use Rattle.std.specs.Prelude.{◌≡◌, ◌*◌, ◌<◌, ◌^◌};
ghost use Rattle.h264_stream.specs.Noted.{IsInfo};

use h264_lines::Aspect;
use h264_pages::survey::Sequence;

/// So many frames in so many seconds.
#[derive(Clone, Copy, Default)]
pub struct FrameRate {
    pub frames: u64,
    pub seconds: u64,
}

/// What the active sequence parameter set says of a stream (7.4.2.1.1, E.2.1).
#[derive(Clone, Copy)]
pub struct StreamInfo {
    pub profile_idc: u64,
    /// level_idc as it is written: 9, or 11 with `is_level_1b`, for level 1b.
    pub level_idc: u64,
    pub is_level_1b: bool,
    /// The width and height of a coded frame, in luma samples.
    pub coded_width: u64,
    pub coded_height: u64,
    /// The width and height of what is shown, in luma samples.
    pub width: u64,
    pub height: u64,
    /// What cropping cuts off each side, in luma samples.
    pub crop_left: u64,
    pub crop_right: u64,
    pub crop_top: u64,
    pub crop_bottom: u64,
    /// The sample aspect ratio. None: it is not given, or not specified.
    pub shape: Option<Aspect>,
    /// The frame rate of the timing. None: it is not given.
    pub rate: Option<FrameRate>,
    /// Whether the rate is a fixed one.
    pub is_fixed_rate: bool,
}

/// Samples in a row of a macroblock.
const SIDE: u64 = 16;

/// Luma samples that an offset of cropping counts.
const CROP_UNIT: u64 = 2;

/// Fields of a frame: a tick is the time of a field (E.2.1).
const FIELDS: u64 = 2;

impl FrameRate {
    /// The rate that a set gives (E.2.1). None: it gives no timing.
    fn of(set: &Sequence) -> Option<FrameRate> {
        let timing = set.timing?;
        if timing.num_units_in_tick == 0 || timing.time_scale == 0 {
            return None;
        }
        Some(FrameRate {
            frames: timing.time_scale,
            seconds: timing.num_units_in_tick.saturating_mul(FIELDS),
        })
    }
}

/// Whether a set says that its rate is fixed.
fn has_fixed_rate(set: &Sequence) -> bool {
    match set.timing {
        Some(timing) => timing.fixed_frame_rate,
        None => false,
    }
}

/// The shape of a set's samples. None: it is not given, or not specified.
fn shape_of(set: &Sequence) -> Option<Aspect> {
    let ratio = set.aspect_ratio?;
    Aspect::of(ratio.aspect_ratio_idc, ratio.sar_width, ratio.sar_height)
}

impl StreamInfo {
    /// What a set says.
    pub(crate) fn of(set: &Sequence) -> StreamInfo
        ensures { IsInfo set.now result }
    {
        let coded_width = set.width.saturating_mul(SIDE);
        let coded_height = set.height.saturating_mul(SIDE);
        let crop_left = set.cropping.left.saturating_mul(CROP_UNIT);
        let crop_right = set.cropping.right.saturating_mul(CROP_UNIT);
        let crop_top = set.cropping.top.saturating_mul(CROP_UNIT);
        let crop_bottom = set.cropping.bottom.saturating_mul(CROP_UNIT);
        StreamInfo {
            profile_idc: set.profile_idc,
            level_idc: set.level_idc,
            is_level_1b: set.constraint_set3,
            coded_width,
            coded_height,
            width: coded_width.saturating_sub(crop_left.saturating_add(crop_right)),
            height: coded_height.saturating_sub(crop_top.saturating_add(crop_bottom)),
            crop_left,
            crop_right,
            crop_top,
            crop_bottom,
            shape: shape_of(set),
            rate: FrameRate::of(set),
            is_fixed_rate: has_fixed_rate(set),
        }
    }
}
