//! What the sequence parameter set that came last says, as far as the further rules need it, and the rules on the values of a set.
#![tactic(auto)]

ghost use Rattle.std.specs.Prelude.{◌≡◌};
ghost use Rattle.h264_strict.specs.StrictSets.{no_set, set_of_profile, set_after, is_other, with_id, by_value, by_set, by_limits};
ghost use Rattle.h264_strict.specs.StrictSets.{needs_inference, holds_no_frame, is_baseline, is_in_order, is_timed, outruns, is_too_fast};
ghost use Rattle.h264_strict.specs.StrictSets.{are_too_many_bytes, vector_limit};

use crate::strict_levels::{bit_limits, max_mbps, max_vectors};
use crate::strict_ratio::is_reducible;
use crate::strict_rule::{StrictRule, broken_if};
use crate::strict_schedules::{Schedules, rises, rises_not};
use h264_base::ElementName;

/// profile_idc of Baseline, Main and Extended (A.2).
const BASELINE: u64 = 66;

const MAIN: u64 = 77;

const EXTENDED: u64 = 88;

/// level_idc 9, which stands for level 1b in the High profiles, and 11, with which constraint_set3_flag stands for it in the others (7.4.2.1.1).
const HIGH_LEVEL_1B: u64 = 9;

const LEVEL_1_1: u64 = 11;

/// level_idc of level 3, from which on Main asks for direct_8x8_inference_flag (table A-4).
const LEVEL_3: u64 = 30;

/// RawMbBits, of 8 bits a sample in 4:2:0 (7.4.2.1.1).
const RAW_MB_BITS: u64 = 3072;

/// The most frames a second at any level, 1 / fR (A.3.1).
const MOST_FRAMES: u64 = 172;

/// What a sequence parameter set says.
#[derive(Clone, Copy)]
pub struct SetFacts {
    /// seq_parameter_set_id of the last set.
    pub id: Option<u64>,
    /// All sets so far have that id, so the last one is the active one wherever a slice is read.
    pub is_alone: bool,
    /// The elements that are read are its own.
    pub is_read: bool,
    pub profile_idc: u64,
    /// It promises what Baseline asks: by profile_idc, or by constraint_set0_flag.
    pub promises_baseline: bool,
    /// It promises what Main asks: by profile_idc, or by constraint_set1_flag.
    pub promises_main: bool,
    /// It promises what Extended asks: by profile_idc, or by constraint_set2_flag.
    pub promises_extended: bool,
    pub constraint_set3_flag: bool,
    pub level_idc: u64,
    pub max_num_ref_frames: u64,
    pub sar_width: u64,
    /// 0 where it is not told.
    pub max_bytes_per_pic_denom: u64,
    /// PicWidthInMbs.
    pub width: u64,
    /// PicSizeInMbs, counted in 64 bits.
    pub size: u64,
    /// 0 where it is not told.
    pub num_units_in_tick: u64,
    pub time_scale: u64,
    pub fixed_frame_rate_flag: bool,
    pub pic_struct_present_flag: bool,
    /// max_num_reorder_frames is told, and is 0.
    pub keeps_order: bool,
    /// The HRD parameters that came last.
    pub schedules: Schedules,
}

/// The rule that an element of a sequence parameter set breaks by its value alone.
#[tactic(auto, unfolding(crate::specs::StrictSets::by_value))]
fn by_value(name: ElementName, value: u64) -> Option<StrictRule>
    ensures { result ≡ by_value name value }
{
    match name {
        ElementName::ReservedZero2bits => broken_if(value != 0, StrictRule::ReservedBits),
        ElementName::AspectRatioIdc => {
            broken_if(16 < value && value < 255, StrictRule::AspectRatio)
        }
        ElementName::VideoFormat => broken_if(5 < value, StrictRule::VideoFormat),
        ElementName::ColourPrimaries => broken_if(
            value == 0 || value == 3 || 12 < value && value != 22,
            StrictRule::ColourPrimaries,
        ),
        ElementName::TransferCharacteristics => broken_if(
            value == 0 || value == 3 || 18 < value,
            StrictRule::TransferCharacteristics,
        ),
        ElementName::MatrixCoefficients => broken_if(
            value == 0 || value == 3 || 14 < value,
            StrictRule::MatrixCoefficients,
        ),
        ElementName::ChromaSampleLocTypeTopField => {
            broken_if(5 < value, StrictRule::ChromaLocation)
        }
        ElementName::ChromaSampleLocTypeBottomField => {
            broken_if(5 < value, StrictRule::ChromaLocation)
        }
        ElementName::NumUnitsInTick => broken_if(value == 0, StrictRule::Timing),
        ElementName::TimeScale => broken_if(value == 0, StrictRule::Timing),
        ElementName::MaxBytesPerPicDenom => broken_if(16 < value, StrictRule::Restriction),
        ElementName::MaxBitsPerMbDenom => broken_if(16 < value, StrictRule::Restriction),
        ElementName::Log2MaxMvLengthHorizontal => broken_if(16 < value, StrictRule::Restriction),
        ElementName::Log2MaxMvLengthVertical => broken_if(16 < value, StrictRule::Restriction),
        _ => None,
    }
}

/// The facts of a set of which profile_idc alone was read, after sets of this id.
fn set_of_profile(id: Option<u64>, is_alone: bool, profile_idc: u64) -> SetFacts
    ensures { result ≡ set_of_profile id is_alone profile_idc }
{
    SetFacts {
        id,
        is_alone,
        is_read: true,
        profile_idc,
        promises_baseline: profile_idc == BASELINE,
        promises_main: profile_idc == MAIN,
        promises_extended: profile_idc == EXTENDED,
        constraint_set3_flag: false,
        level_idc: 0,
        max_num_ref_frames: 0,
        sar_width: 0,
        max_bytes_per_pic_denom: 0,
        width: 0,
        size: 0,
        num_units_in_tick: 0,
        time_scale: 0,
        fixed_frame_rate_flag: false,
        pic_struct_present_flag: false,
        keeps_order: false,
        schedules: Schedules::new(),
    }
}

/// Whether sets came before, and have another id.
fn is_other(id: Option<u64>, other: u64) -> bool
    ensures { result ≡ is_other id other }
{
    match id {
        None => false,
        Some(id) => id != other,
    }
}

impl SetFacts {
    /// Before the first set.
    pub fn new() -> SetFacts
        ensures { result ≡ no_set }
    {
        SetFacts {
            is_read: false,
            ..set_of_profile(None, true, 0)
        }
    }

    /// Notes seq_parameter_set_id of a sequence parameter set; that of a picture parameter set changes nothing.
    fn note_id(&mut self, id: u64)
        ensures { self.new ≡ with_id self.old id }
    {
        if self.is_read {
            self.is_alone = self.is_alone && !is_other(self.id, id);
            self.id = Some(id);
        }
    }

    /// Notes an element.
    #[tactic(auto, unfolding(crate::specs::StrictSets::set_after))]
    pub fn note(&mut self, name: ElementName, value: u64)
        ensures { self.new ≡ set_after self.old name value }
    {
        let is_set = value != 0;
        match name {
            ElementName::ProfileIdc => *self = set_of_profile(self.id, self.is_alone, value),
            ElementName::ConstraintSet0Flag => {
                self.promises_baseline = self.promises_baseline || is_set;
            }
            ElementName::ConstraintSet1Flag => self.promises_main = self.promises_main || is_set,
            ElementName::ConstraintSet2Flag => {
                self.promises_extended = self.promises_extended || is_set;
            }
            ElementName::ConstraintSet3Flag => self.constraint_set3_flag = is_set,
            ElementName::LevelIdc => self.level_idc = value,
            ElementName::SeqParameterSetId => self.note_id(value),
            ElementName::PicParameterSetId => self.is_read = false,
            ElementName::MaxNumRefFrames => self.max_num_ref_frames = value,
            ElementName::PicWidthInMbsMinus1 => self.width = value.saturating_add(1),
            ElementName::PicHeightInMapUnitsMinus1 => {
                self.size = self.width.saturating_mul(value.saturating_add(1));
            }
            ElementName::SarWidth => self.sar_width = value,
            ElementName::NumUnitsInTick => self.num_units_in_tick = value,
            ElementName::TimeScale => self.time_scale = value,
            ElementName::FixedFrameRateFlag => self.fixed_frame_rate_flag = is_set,
            ElementName::PicStructPresentFlag => self.pic_struct_present_flag = is_set,
            ElementName::MaxBytesPerPicDenom => self.max_bytes_per_pic_denom = value,
            ElementName::MaxNumReorderFrames => self.keeps_order = value == 0,
            _ => {
                self.schedules
                    .note(self.level_idc, self.constraint_set3_flag, name, value);
            }
        }
    }

    /// Whether direct_8x8_inference_flag has to be 1.
    fn needs_inference(&self) -> bool
        ensures { result ≡ needs_inference self.now }
    {
        self.promises_extended || self.promises_main && LEVEL_3 <= self.level_idc
    }

    /// The rule that an element of a sequence parameter set breaks.
    #[tactic(auto, unfolding(crate::specs::StrictSets::by_set))]
    pub fn by_set(&self, name: ElementName, value: u64) -> Option<StrictRule>
        ensures { result ≡ by_set self.now name value }
    {
        match name {
            ElementName::ConstraintSet4Flag | ElementName::ConstraintSet5Flag => broken_if(
                self.profile_idc == BASELINE && value != 0,
                StrictRule::ReservedConstraint,
            ),
            ElementName::LevelIdc => broken_if(
                value == HIGH_LEVEL_1B || self.constraint_set3_flag && value != LEVEL_1_1,
                StrictRule::Level1b,
            ),
            ElementName::Direct8x8InferenceFlag => broken_if(
                value == 0 && self.needs_inference(),
                StrictRule::DirectInference,
            ),
            ElementName::SarHeight => broken_if(
                is_reducible(self.sar_width, value),
                StrictRule::CommonFactor,
            ),
            ElementName::LowDelayHrdFlag => broken_if(
                value != 0 && self.fixed_frame_rate_flag,
                StrictRule::LowDelay,
            ),
            ElementName::BitRateValueMinus1 => broken_if(
                rises_not(self.schedules.last_rate, value),
                StrictRule::ScheduleOrder,
            ),
            ElementName::CpbSizeValueMinus1 => {
                broken_if(
                    rises(self.schedules.last_size, value),
                    StrictRule::ScheduleOrder,
                )
            }
            _ => by_value(name, value),
        }
    }

    /// The rule that an element breaks by what the level allows of schedules.
    #[tactic(auto, unfolding(crate::specs::StrictSets::by_limits))]
    pub fn by_limits(&self, name: ElementName, value: u64) -> Option<StrictRule>
        ensures { result ≡ by_limits self.now name value }
    {
        match name {
            ElementName::CpbSizeValueMinus1 => {
                let limits = bit_limits(self.level_idc, self.constraint_set3_flag);
                broken_if(
                    self.schedules.none_keeps(limits, value),
                    StrictRule::ScheduleLimits,
                )
            }
            _ => None,
        }
    }

    /// Whether the active set is known, and max_num_ref_frames is 0 in it.
    pub fn holds_no_frame(&self) -> bool
        ensures { result ≡ holds_no_frame self.now }
    {
        self.is_alone && self.max_num_ref_frames == 0
    }

    /// Whether the active set is known, and promises what Baseline asks.
    pub fn is_baseline(&self) -> bool
        ensures { result ≡ is_baseline self.now }
    {
        self.is_alone && self.promises_baseline
    }

    /// Whether the active set is known, and says that frames are output as they are decoded.
    pub fn is_in_order(&self) -> bool
        ensures { result ≡ is_in_order self.now }
    {
        self.is_alone && self.keeps_order
    }

    /// Whether frames come at a fixed rate that the set tells whole: no message can repeat a frame.
    fn is_timed(&self) -> bool
        ensures { result ≡ is_timed self.now }
    {
        self.fixed_frame_rate_flag && !self.pic_struct_present_flag && self.num_units_in_tick != 0
    }

    /// Whether frames come faster than a level with this MaxMBPS allows.
    fn outruns(&self, max_mbps: Option<u64>) -> bool
        ensures { result ≡ outruns self.now max_mbps }
    {
        let ticks = self.num_units_in_tick.saturating_mul(2);
        match max_mbps {
            None => false,
            Some(rate) => {
                ticks.saturating_mul(rate) < self.size.saturating_mul(self.time_scale)
                    || ticks.saturating_mul(MOST_FRAMES) < self.time_scale
            }
        }
    }

    /// Whether the active set is known, and its fixed rate leaves a frame less time than its level asks for.
    pub fn is_too_fast(&self) -> bool
        ensures { result ≡ is_too_fast self.now }
    {
        self.is_alone
            && self.is_timed()
            && self.outruns(max_mbps(self.level_idc, self.constraint_set3_flag))
    }

    /// Whether the active set is known, and allows a picture fewer bytes.
    pub fn are_too_many_bytes(&self, bytes: u64) -> bool
        ensures { result ≡ are_too_many_bytes self.now bytes }
    {
        let raw = self.size.saturating_mul(RAW_MB_BITS);
        let bits = bytes.saturating_mul(8);
        self.is_alone
            && self.max_bytes_per_pic_denom != 0
            && raw < bits.saturating_mul(self.max_bytes_per_pic_denom)
    }

    /// MaxMvsPer2Mb of the active set; none where it is not known, or where its level has no limit.
    pub fn max_vectors(&self) -> Option<u64>
        ensures { result ≡ vector_limit self.now }
    {
        if self.is_alone {
            max_vectors(self.level_idc)
        } else {
            None
        }
    }
}
