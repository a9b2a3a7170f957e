//! What is noted of the parameter sets.
#![tactic(auto)]

ghost use Rattle.std.specs.Prelude.{◌≡◌};
ghost use Rattle.h264_bits.specs.Forms.{natural};
ghost use Rattle.h264_pages.specs.SurveyedSets.{with_ratio, with_usability, with_size, with_element, with_picture_element, timing_of, ratio_of};

use h264_base::ElementName;
use h264_bits::count_of;

/// What is cut off the frame, in units of two luma samples (7.4.2.1.1).
#[derive(Clone, Copy, Default)]
pub struct Cropping {
    pub left: u64,
    pub right: u64,
    pub top: u64,
    pub bottom: u64,
}

/// The timing of the video usability information (E.2.1).
#[derive(Clone, Copy, Default)]
pub struct Timing {
    pub num_units_in_tick: u64,
    pub time_scale: u64,
    pub fixed_frame_rate: bool,
}

/// The sample aspect ratio of the video usability information (E.2.1).
#[derive(Clone, Copy, Default)]
pub struct AspectRatio {
    pub aspect_ratio_idc: u64,
    /// The ratio that aspect_ratio_idc 255, Extended_SAR, is followed by.
    pub sar_width: u64,
    pub sar_height: u64,
}

/// A sequence parameter set (7.4.2.1).
#[derive(Clone, Copy, Default)]
pub struct Sequence {
    pub seq_parameter_set_id: u64,
    pub profile_idc: u64,
    pub constraint_set0: bool,
    pub constraint_set1: bool,
    pub constraint_set3: bool,
    pub level_idc: u64,
    pub log2_max_frame_num: u64,
    pub pic_order_cnt_type: u64,
    pub max_num_ref_frames: u64,
    pub gaps_allowed: bool,
    /// The frame's width in macroblocks.
    pub width: u64,
    /// The frame's height in macroblocks.
    pub height: u64,
    pub cropping: Cropping,
    /// The sample aspect ratio, where it is given.
    pub aspect_ratio: Option<AspectRatio>,
    /// The timing, where it is given.
    pub timing: Option<Timing>,
    /// max_num_reorder_frames, where it is given.
    pub max_num_reorder_frames: Option<u64>,
    /// max_dec_frame_buffering, where it is given.
    pub max_dec_frame_buffering: Option<u64>,
}

impl Sequence {
    /// The timing, with zeros where none is given yet.
    fn timing(&self) -> Timing
        ensures { result ≡ timing_of self.now }
    {
        self.timing.unwrap_or_default()
    }

    /// The sample aspect ratio, with zeros where none is given yet.
    fn ratio(&self) -> AspectRatio
        ensures { result ≡ ratio_of self.now }
    {
        self.aspect_ratio.unwrap_or_default()
    }

    /// Notes an element of its sample aspect ratio.
    #[tactic(auto, unfolding(crate::specs::SurveyedSets::with_ratio))]
    fn note_ratio(&mut self, name: ElementName, value: u64)
        ensures { self.new ≡ with_ratio name value self.old }
    {
        let ratio = self.ratio();
        match name {
            ElementName::AspectRatioIdc => {
                self.aspect_ratio = Some(AspectRatio {
                    aspect_ratio_idc: value,
                    ..ratio
                })
            }
            ElementName::SarWidth => {
                self.aspect_ratio = Some(AspectRatio {
                    sar_width: value,
                    ..ratio
                })
            }
            ElementName::SarHeight => {
                self.aspect_ratio = Some(AspectRatio {
                    sar_height: value,
                    ..ratio
                })
            }
            _ => {}
        }
    }

    /// Notes an element of its video usability information.
    #[tactic(auto, unfolding(crate::specs::SurveyedSets::with_usability))]
    fn note_usability(&mut self, name: ElementName, value: u64)
        ensures { self.new ≡ with_usability name value self.old }
    {
        let timing = self.timing();
        match name {
            ElementName::NumUnitsInTick => {
                self.timing = Some(Timing {
                    num_units_in_tick: value,
                    ..timing
                })
            }
            ElementName::TimeScale => {
                self.timing = Some(Timing {
                    time_scale: value,
                    ..timing
                })
            }
            ElementName::FixedFrameRateFlag => {
                self.timing = Some(Timing {
                    fixed_frame_rate: value != 0,
                    ..timing
                })
            }
            ElementName::MaxNumReorderFrames => self.max_num_reorder_frames = Some(value),
            ElementName::MaxDecFrameBuffering => self.max_dec_frame_buffering = Some(value),
            _ => self.note_ratio(name, value),
        }
    }

    /// Notes an element of its size and cropping.
    #[tactic(auto, unfolding(crate::specs::SurveyedSets::with_size))]
    fn note_size(&mut self, name: ElementName, value: u64)
        ensures { self.new ≡ with_size name value self.old }
    {
        match name {
            ElementName::PicWidthInMbsMinus1 => self.width = value.saturating_add(1),
            ElementName::PicHeightInMapUnitsMinus1 => self.height = value.saturating_add(1),
            ElementName::FrameCropLeftOffset => self.cropping.left = value,
            ElementName::FrameCropRightOffset => self.cropping.right = value,
            ElementName::FrameCropTopOffset => self.cropping.top = value,
            ElementName::FrameCropBottomOffset => self.cropping.bottom = value,
            _ => self.note_usability(name, value),
        }
    }

    /// Notes an element of it.
    #[tactic(auto, unfolding(crate::specs::SurveyedSets::with_element))]
    pub fn note(&mut self, name: ElementName, value: i64)
        ensures { self.new ≡ with_element name (natural value) self.old }
    {
        let value = count_of(value);
        match name {
            ElementName::ProfileIdc => self.profile_idc = value,
            ElementName::ConstraintSet0Flag => self.constraint_set0 = value != 0,
            ElementName::ConstraintSet1Flag => self.constraint_set1 = value != 0,
            ElementName::ConstraintSet3Flag => self.constraint_set3 = value != 0,
            ElementName::LevelIdc => self.level_idc = value,
            ElementName::SeqParameterSetId => self.seq_parameter_set_id = value,
            ElementName::Log2MaxFrameNumMinus4 => {
                self.log2_max_frame_num = value.saturating_add(4)
            }
            ElementName::PicOrderCntType => self.pic_order_cnt_type = value,
            ElementName::MaxNumRefFrames => self.max_num_ref_frames = value,
            ElementName::GapsInFrameNumValueAllowedFlag => self.gaps_allowed = value != 0,
            _ => self.note_size(name, value),
        }
    }
}

/// A picture parameter set, by its two ids (7.4.2.2).
#[derive(Clone, Copy, Default)]
pub struct PictureSet {
    pub pic_parameter_set_id: u64,
    pub seq_parameter_set_id: u64,
    pub pic_init_qp_minus26: i64,
}

impl PictureSet {
    /// Notes an element of it.
    #[tactic(auto, unfolding(crate::specs::SurveyedSets::with_picture_element))]
    pub fn note(&mut self, name: ElementName, value: i64)
        ensures { self.new ≡ with_picture_element name value self.old }
    {
        match name {
            ElementName::PicParameterSetId => self.pic_parameter_set_id = count_of(value),
            ElementName::SeqParameterSetId => self.seq_parameter_set_id = count_of(value),
            ElementName::PicInitQpMinus26 => self.pic_init_qp_minus26 = value,
            _ => {}
        }
    }
}
