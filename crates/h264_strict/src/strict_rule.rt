//! The rules of H.264 that no verdict rests on: their labels and clauses.
#![tactic(auto)]

ghost use Rattle.std.specs.Prelude.{◌≡◌, ◌<◌, if◌then◌else◌, None, Some};
ghost use Rattle.h264_strict.specs.StrictRules.{place_of, label_of, clause_of};

/// A rule of H.264 that no verdict rests on.
#[derive(Clone, Copy)]
pub enum StrictRule {
    /// reserved_zero_2bits is 0 (7.4.2.1.1).
    ReservedBits,
    /// aspect_ratio_idc is no reserved value (table E-1).
    AspectRatio,
    /// video_format is no reserved value (table E-2).
    VideoFormat,
    /// colour_primaries is no reserved value (table E-3).
    ColourPrimaries,
    /// transfer_characteristics is no reserved value (table E-4).
    TransferCharacteristics,
    /// matrix_coefficients is no reserved value, and not 0 in 4:2:0 (table E-5).
    MatrixCoefficients,
    /// Places of chroma samples are 0 to 5 (E.2.1).
    ChromaLocation,
    /// num_units_in_tick and time_scale are above 0 (E.2.1).
    Timing,
    /// Denominators and lengths of vectors are 0 to 16 (E.2.1).
    Restriction,
    /// Operation 5 stands together with none of 1 to 3 (7.4.3.3).
    OperationsExclude,
    /// The picture order count of an IDR picture is 0 (8.2.1).
    IdrCount,
    /// nal_ref_idc is not 0 in units of types 13 and 15 (7.4.1).
    SetRefIdc,
    /// A delimiter is the first unit of its access unit (7.4.1.2.3).
    DelimiterFirst,
    /// Filler data does not come before the first slice of its access unit (7.4.1.2.3).
    FillerFirst,
    /// No unit follows the end of the stream (7.4.2.6).
    AfterEndOfStream,
    /// Level 1b is told by level_idc 11 with constraint_set3_flag, and by nothing else; no other level has that flag (7.4.2.1.1).
    Level1b,
    /// constraint_set4_flag and constraint_set5_flag are 0 in Baseline (7.4.2.1.1).
    ReservedConstraint,
    /// direct_8x8_inference_flag is 1 where Extended is promised, or Main at level 3 or above (A.2.3, A.3.3).
    DirectInference,
    /// low_delay_hrd_flag is 0 where fixed_frame_rate_flag is 1 (E.2.1).
    LowDelay,
    /// A delimiter has two bytes, and the end of a sequence or of the stream one (7.3.2.4 to 7.3.2.6).
    UnitLength,
    /// The end of a sequence or of the stream does not come before the first slice of its access unit (7.4.1.2.3).
    EndFirst,
    /// long_term_reference_flag is 0 where max_num_ref_frames is 0 (7.4.3.3).
    LongTermReference,
    /// A stream that promises Baseline has no weights (A.2.1).
    Weights,
    /// The frame_num of a picture that is no IDR picture is not PrevRefFrameNum (7.4.3).
    FrameNumRepeated,
    /// No two pictures of a sequence have one picture order count (8.2.1).
    CountRepeated,
    /// Pictures are output as they are decoded where max_num_reorder_frames is 0 (E.2.1).
    Reorder,
    /// Two macroblocks in a row have at most MaxMvsPer2Mb vectors (A.3.1).
    VectorCount,
    /// Frames of a fixed rate have the time that MaxMBPS asks for (A.3.1).
    FrameRate,
    /// Bit rates of schedules rise, and sizes of their buffers do not (E.2.2).
    ScheduleOrder,
    /// NAL and VCL HRD parameters each have a schedule that keeps to MaxBR and MaxCPB of the level (A.3.1).
    ScheduleLimits,
    /// sar_width and sar_height are relatively prime, or one of them is 0 (E.2.1).
    CommonFactor,
    /// A picture has no more bytes than max_bytes_per_pic_denom promises (E.2.1).
    PictureBytes,
    /// SEI is messages of the sizes that they tell, and trailing bits (7.3.2.3).
    SeiSizes,
    /// In a delimiter the trailing bits follow primary_pic_type (7.3.2.4).
    DelimiterBits,
    /// Filler data are bytes FF and trailing bits (7.3.2.7).
    FillerBytes,
    /// A zero_byte stands before each set, and before the first unit of an access unit (B.1.2).
    ZeroByte,
    /// A picture has no slice that the primary_pic_type of its delimiter leaves out (7.4.2.4).
    DelimiterType,
    /// A message of SEI is as its syntax says, with values in their ranges (D.1, D.2).
    SeiContent,
    /// An access unit has arrived when it is removed from the coded picture buffer (C.3).
    BufferUnderflow,
    /// initial_cpb_removal_delay is the time from the last arrival to the removal (C.3).
    InitialDelay,
    /// The coded picture buffer never holds more than CpbSize bits (C.3).
    BufferOverflow,
    /// The slices of an access unit have no more bytes than MinCR allows in the time since the one before was removed (A.3.1).
    MinCompression,
    /// An access unit is removed no sooner after the one before than MaxMBPS asks for, nor than 1/172 of a second (A.3.1).
    RemovalRate,
}

/// Every rule, by its place.
pub const EVERY_STRICT_RULE: [StrictRule; STRICT_RULES] = [
    StrictRule::ReservedBits,
    StrictRule::AspectRatio,
    StrictRule::VideoFormat,
    StrictRule::ColourPrimaries,
    StrictRule::TransferCharacteristics,
    StrictRule::MatrixCoefficients,
    StrictRule::ChromaLocation,
    StrictRule::Timing,
    StrictRule::Restriction,
    StrictRule::OperationsExclude,
    StrictRule::IdrCount,
    StrictRule::SetRefIdc,
    StrictRule::DelimiterFirst,
    StrictRule::FillerFirst,
    StrictRule::AfterEndOfStream,
    StrictRule::Level1b,
    StrictRule::ReservedConstraint,
    StrictRule::DirectInference,
    StrictRule::LowDelay,
    StrictRule::UnitLength,
    StrictRule::EndFirst,
    StrictRule::LongTermReference,
    StrictRule::Weights,
    StrictRule::FrameNumRepeated,
    StrictRule::CountRepeated,
    StrictRule::Reorder,
    StrictRule::VectorCount,
    StrictRule::FrameRate,
    StrictRule::ScheduleOrder,
    StrictRule::ScheduleLimits,
    StrictRule::CommonFactor,
    StrictRule::PictureBytes,
    StrictRule::SeiSizes,
    StrictRule::DelimiterBits,
    StrictRule::FillerBytes,
    StrictRule::ZeroByte,
    StrictRule::DelimiterType,
    StrictRule::SeiContent,
    StrictRule::BufferUnderflow,
    StrictRule::InitialDelay,
    StrictRule::BufferOverflow,
    StrictRule::MinCompression,
    StrictRule::RemovalRate,
];

/// How many rules there are.
pub const STRICT_RULES: usize = 43;

impl StrictRule {
    /// Its place among them, from 0.
    #[tactic(auto, unfolding(crate::specs::StrictRules::place_of))]
    pub fn place(self) -> usize
        ensures value { result ≡ place_of self }
        ensures bound { result < STRICT_RULES }
    {
        match self {
            StrictRule::ReservedBits => 0,
            StrictRule::AspectRatio => 1,
            StrictRule::VideoFormat => 2,
            StrictRule::ColourPrimaries => 3,
            StrictRule::TransferCharacteristics => 4,
            StrictRule::MatrixCoefficients => 5,
            StrictRule::ChromaLocation => 6,
            StrictRule::Timing => 7,
            StrictRule::Restriction => 8,
            StrictRule::OperationsExclude => 9,
            StrictRule::IdrCount => 10,
            StrictRule::SetRefIdc => 11,
            StrictRule::DelimiterFirst => 12,
            StrictRule::FillerFirst => 13,
            StrictRule::AfterEndOfStream => 14,
            StrictRule::Level1b => 15,
            StrictRule::ReservedConstraint => 16,
            StrictRule::DirectInference => 17,
            StrictRule::LowDelay => 18,
            StrictRule::UnitLength => 19,
            StrictRule::EndFirst => 20,
            StrictRule::LongTermReference => 21,
            StrictRule::Weights => 22,
            StrictRule::FrameNumRepeated => 23,
            StrictRule::CountRepeated => 24,
            StrictRule::Reorder => 25,
            StrictRule::VectorCount => 26,
            StrictRule::FrameRate => 27,
            StrictRule::ScheduleOrder => 28,
            StrictRule::ScheduleLimits => 29,
            StrictRule::CommonFactor => 30,
            StrictRule::PictureBytes => 31,
            StrictRule::SeiSizes => 32,
            StrictRule::DelimiterBits => 33,
            StrictRule::FillerBytes => 34,
            StrictRule::ZeroByte => 35,
            StrictRule::DelimiterType => 36,
            StrictRule::SeiContent => 37,
            StrictRule::BufferUnderflow => 38,
            StrictRule::InitialDelay => 39,
            StrictRule::BufferOverflow => 40,
            StrictRule::MinCompression => 41,
            StrictRule::RemovalRate => 42,
        }
    }

    /// Its label.
    #[tactic(auto, unfolding(crate::specs::StrictRules::label_of))]
    pub fn label(self) -> &'static str
        ensures { result.now ≡ label_of self }
    {
        match self {
            StrictRule::ReservedBits => "ReservedBits",
            StrictRule::AspectRatio => "AspectRatio",
            StrictRule::VideoFormat => "VideoFormat",
            StrictRule::ColourPrimaries => "ColourPrimaries",
            StrictRule::TransferCharacteristics => "TransferCharacteristics",
            StrictRule::MatrixCoefficients => "MatrixCoefficients",
            StrictRule::ChromaLocation => "ChromaLocation",
            StrictRule::Timing => "Timing",
            StrictRule::Restriction => "Restriction",
            StrictRule::OperationsExclude => "OperationsExclude",
            StrictRule::IdrCount => "IdrCount",
            StrictRule::SetRefIdc => "SetRefIdc",
            StrictRule::DelimiterFirst => "DelimiterFirst",
            StrictRule::FillerFirst => "FillerFirst",
            StrictRule::AfterEndOfStream => "AfterEndOfStream",
            StrictRule::Level1b => "Level1b",
            StrictRule::ReservedConstraint => "ReservedConstraint",
            StrictRule::DirectInference => "DirectInference",
            StrictRule::LowDelay => "LowDelay",
            StrictRule::UnitLength => "UnitLength",
            StrictRule::EndFirst => "EndFirst",
            StrictRule::LongTermReference => "LongTermReference",
            StrictRule::Weights => "Weights",
            StrictRule::FrameNumRepeated => "FrameNumRepeated",
            StrictRule::CountRepeated => "CountRepeated",
            StrictRule::Reorder => "Reorder",
            StrictRule::VectorCount => "VectorCount",
            StrictRule::FrameRate => "FrameRate",
            StrictRule::ScheduleOrder => "ScheduleOrder",
            StrictRule::ScheduleLimits => "ScheduleLimits",
            StrictRule::CommonFactor => "CommonFactor",
            StrictRule::PictureBytes => "PictureBytes",
            StrictRule::SeiSizes => "SeiSizes",
            StrictRule::DelimiterBits => "DelimiterBits",
            StrictRule::FillerBytes => "FillerBytes",
            StrictRule::ZeroByte => "ZeroByte",
            StrictRule::DelimiterType => "DelimiterType",
            StrictRule::SeiContent => "SeiContent",
            StrictRule::BufferUnderflow => "BufferUnderflow",
            StrictRule::InitialDelay => "InitialDelay",
            StrictRule::BufferOverflow => "BufferOverflow",
            StrictRule::MinCompression => "MinCompression",
            StrictRule::RemovalRate => "RemovalRate",
        }
    }

    /// The clause of H.264 that states it.
    #[tactic(auto, unfolding(crate::specs::StrictRules::clause_of))]
    pub fn clause(self) -> &'static str
        ensures { result.now ≡ clause_of self }
    {
        match self {
            StrictRule::ReservedBits => "7.4.2.1.1",
            StrictRule::AspectRatio => "E.2.1",
            StrictRule::VideoFormat => "E.2.1",
            StrictRule::ColourPrimaries => "E.2.1",
            StrictRule::TransferCharacteristics => "E.2.1",
            StrictRule::MatrixCoefficients => "E.2.1",
            StrictRule::ChromaLocation => "E.2.1",
            StrictRule::Timing => "E.2.1",
            StrictRule::Restriction => "E.2.1",
            StrictRule::OperationsExclude => "7.4.3.3",
            StrictRule::IdrCount => "8.2.1",
            StrictRule::SetRefIdc => "7.4.1",
            StrictRule::DelimiterFirst => "7.4.1.2.3",
            StrictRule::FillerFirst => "7.4.1.2.3",
            StrictRule::AfterEndOfStream => "7.4.2.6",
            StrictRule::Level1b => "7.4.2.1.1",
            StrictRule::ReservedConstraint => "7.4.2.1.1",
            StrictRule::DirectInference => "A.2",
            StrictRule::LowDelay => "E.2.1",
            StrictRule::UnitLength => "7.3.2",
            StrictRule::EndFirst => "7.4.1.2.3",
            StrictRule::LongTermReference => "7.4.3.3",
            StrictRule::Weights => "A.2.1",
            StrictRule::FrameNumRepeated => "7.4.3",
            StrictRule::CountRepeated => "8.2.1",
            StrictRule::Reorder => "E.2.1",
            StrictRule::VectorCount => "A.3.1",
            StrictRule::FrameRate => "A.3.1",
            StrictRule::ScheduleOrder => "E.2.2",
            StrictRule::ScheduleLimits => "A.3.1",
            StrictRule::CommonFactor => "E.2.1",
            StrictRule::PictureBytes => "E.2.1",
            StrictRule::SeiSizes => "7.3.2.3",
            StrictRule::DelimiterBits => "7.3.2.4",
            StrictRule::FillerBytes => "7.3.2.7",
            StrictRule::ZeroByte => "B.1.2",
            StrictRule::DelimiterType => "7.4.2.4",
            StrictRule::SeiContent => "D.1",
            StrictRule::BufferUnderflow => "C.3",
            StrictRule::InitialDelay => "C.3",
            StrictRule::BufferOverflow => "C.3",
            StrictRule::MinCompression => "A.3.1",
            StrictRule::RemovalRate => "A.3.1",
        }
    }
}

/// A rule, if it is broken.
pub(crate) fn broken_if(is_broken: bool, rule: StrictRule) -> Option<StrictRule>
    ensures { result ≡ (if is_broken then Some rule else None) }
{
    if is_broken { Some(rule) } else { None }
}
