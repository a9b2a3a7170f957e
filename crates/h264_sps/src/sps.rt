//! What a sequence parameter set holds.
#![tactic(auto)]

use crate::count_type::CountType;
use crate::vui::Vui;

/// constraint_set0_flag to constraint_set5_flag (7.4.2.1.1).
#[derive(Clone, Copy, PartialEq)]
pub struct ConstraintSetFlags {
    pub set0: bool,
    pub set1: bool,
    pub set2: bool,
    pub set3: bool,
    pub set4: bool,
    pub set5: bool,
}

/// The size of a frame in macroblocks (7.4.2.1.1): 1 to 543 each, and together at most MaxFS of the level.
#[derive(Clone, Copy, PartialEq)]
pub struct FrameSize {
    /// PicWidthInMbs.
    pub width: u32,
    /// FrameHeightInMbs.
    pub height: u32,
}

/// How far the cropping rectangle lies inside the frame, in chroma samples; in luma samples it is twice as much.
#[derive(Clone, Copy, PartialEq)]
pub struct FrameCropping {
    pub left: u32,
    pub right: u32,
    pub top: u32,
    pub bottom: u32,
}

/// A sequence parameter set. Two sets have the same content where all fields are equal.
#[derive(Clone, Copy, PartialEq)]
pub struct Sps {
    /// 66, 77 or 88.
    pub profile_idc: u32,
    pub constraint_set_flags: ConstraintSetFlags,
    /// Kept, and not judged.
    pub reserved_zero_2bits: u32,
    /// Ten times the level's number; 9, or 11 with constraint_set3_flag, for level 1b.
    pub level_idc: u32,
    /// 0 to 31.
    pub seq_parameter_set_id: u32,
    /// log2 of MaxFrameNum: 4 to 16.
    pub log2_max_frame_num: u32,
    pub count_type: CountType,
    /// 0 to 16 frames.
    pub max_num_ref_frames: u32,
    pub gaps_in_frame_num_value_allowed_flag: bool,
    pub frame_size: FrameSize,
    pub direct_8x8_inference_flag: bool,
    pub frame_cropping: Option<FrameCropping>,
    pub vui: Option<Vui>,
}
