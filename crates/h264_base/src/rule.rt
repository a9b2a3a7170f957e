//! The rules that a stream can break.
#![tactic(auto)]

ghost use Rattle.std.specs.Prelude.{◌≡◌};

/// A checked rule. Each has a label, which the program prints, and the clause of H.264 that states it.
#[derive(Clone, Copy, Debug, PartialEq, Eq)]
pub enum Rule {
    /// Between units stands a byte other than 00 and start codes. (B.1)
    ByteStream,
    /// A start code that no byte of a unit follows. (B.1)
    EmptyUnit,
    /// 00 00 02 stands in a unit, 00 00 03 is followed by more than 03, or 00 00 03 ends it. (7.4.1)
    Emulation,
    /// forbidden_zero_bit is 1. (7.4.1)
    ForbiddenBit,
    /// nal_ref_idc does not fit nal_unit_type. (7.4.1)
    RefIdc,
    /// A data partition: nal_unit_type 2, 3 or 4. (A.2)
    Partition,
    /// No word of the element's code stands there. (9.1)
    CodeWord,
    /// No word of the code of an element of a residual block stands there. (9.2)
    ResidualWord,
    /// A value out of the element's range. (7.4)
    Range,
    /// A value of a tool that the profile leaves out. (A.2)
    Tool,
    /// A profile other than the ones judged here. (A.2)
    Profile,
    /// The frame or the number of reference frames is too large for the level. (A.3)
    FrameSize,
    /// Cropping leaves no samples. (7.4.2)
    Crop,
    /// The buffering that the VUI gives does not fit the level or the reference frames. (E.2)
    Vui,
    /// A parameter set does not end in its trailing bits. (7.3.2)
    Trailing,
    /// A slice names a parameter set that is not there. (7.4.1)
    NoSet,
    /// A slice of another kind stands where an IDR picture is due. (7.4.1)
    FirstPicture,
    /// The active sequence parameter set changes before the next IDR picture. (7.4.1)
    SetChanged,
    /// first_mb_in_slice is not the next macroblock of the picture. (7.4.3)
    FirstMb,
    /// The slice's type is not allowed there. (7.4.3)
    SliceType,
    /// frame_num does not follow from the pictures before. (7.4.3)
    FrameNum,
    /// Two IDR pictures in a row have one idr_pic_id. (7.4.3)
    IdrPicId,
    /// The slice's quantisation parameter is out of range. (7.4.3)
    Qp,
    /// The picture order count is out of range, or does not suit its type. (8.2.1)
    Count,
    /// A list modification names a picture that is not held. (8.2.4)
    ListCommand,
    /// A marking operation does not fit the held frames. (8.2.5)
    MarkCommand,
    /// A later slice of a picture has other marking elements than the first. (7.4.3)
    MarkDiffers,
    /// Slice data without a macroblock. (7.3.4)
    SliceEmpty,
    /// A macroblock beyond the picture's last. (7.3.4)
    MbPast,
    /// Prediction from a picture that is not there. (8.4.2)
    NoReference,
    /// Intra prediction from samples that are not available. (8.3)
    IntraMode,
    /// A residual block has more coefficients or zeros than places. (9.2)
    BlockSize,
    /// A motion vector out of the level's range. (A.3)
    VectorRange,
    /// A value of the transform out of its range. (8.5)
    TransformRange,
    /// A picture ends before its last macroblock. (7.4.1)
    Incomplete,
    /// The input has no picture. (7.4.1)
    NoPicture,
}

impl Rule {
    ghost use Rattle.h264_base.specs.Rule.{label_of, clause_of};

    /// The rule's name, as the program prints it.
    #[tactic(auto, unfolding(crate::specs::Rule::label_of))]
    pub fn label(self) -> &'static str
        ensures { result.now ≡ label_of self }
    {
        match self {
            Rule::ByteStream => "ByteStream",
            Rule::EmptyUnit => "EmptyUnit",
            Rule::Emulation => "Emulation",
            Rule::ForbiddenBit => "ForbiddenBit",
            Rule::RefIdc => "RefIdc",
            Rule::Partition => "Partition",
            Rule::CodeWord => "CodeWord",
            Rule::ResidualWord => "ResidualWord",
            Rule::Range => "Range",
            Rule::Tool => "Tool",
            Rule::Profile => "Profile",
            Rule::FrameSize => "FrameSize",
            Rule::Crop => "Crop",
            Rule::Vui => "Vui",
            Rule::Trailing => "Trailing",
            Rule::NoSet => "NoSet",
            Rule::FirstPicture => "FirstPicture",
            Rule::SetChanged => "SetChanged",
            Rule::FirstMb => "FirstMb",
            Rule::SliceType => "SliceType",
            Rule::FrameNum => "FrameNum",
            Rule::IdrPicId => "IdrPicId",
            Rule::Qp => "Qp",
            Rule::Count => "Count",
            Rule::ListCommand => "ListCommand",
            Rule::MarkCommand => "MarkCommand",
            Rule::MarkDiffers => "MarkDiffers",
            Rule::SliceEmpty => "SliceEmpty",
            Rule::MbPast => "MbPast",
            Rule::NoReference => "NoReference",
            Rule::IntraMode => "IntraMode",
            Rule::BlockSize => "BlockSize",
            Rule::VectorRange => "VectorRange",
            Rule::TransformRange => "TransformRange",
            Rule::Incomplete => "Incomplete",
            Rule::NoPicture => "NoPicture",
        }
    }

    /// The clause of H.264 that states the rule.
    #[tactic(auto, unfolding(crate::specs::Rule::clause_of))]
    pub fn clause(self) -> &'static str
        ensures { result.now ≡ clause_of self }
    {
        match self {
            Rule::ByteStream | Rule::EmptyUnit => "B.1",
            Rule::Emulation
            | Rule::ForbiddenBit
            | Rule::RefIdc
            | Rule::NoSet
            | Rule::FirstPicture
            | Rule::SetChanged
            | Rule::Incomplete
            | Rule::NoPicture => "7.4.1",
            Rule::Partition | Rule::Tool | Rule::Profile => "A.2",
            Rule::CodeWord => "9.1",
            Rule::ResidualWord | Rule::BlockSize => "9.2",
            Rule::Range => "7.4",
            Rule::FrameSize | Rule::VectorRange => "A.3",
            Rule::Crop => "7.4.2",
            Rule::Vui => "E.2",
            Rule::Trailing => "7.3.2",
            Rule::FirstMb
            | Rule::SliceType
            | Rule::FrameNum
            | Rule::IdrPicId
            | Rule::Qp
            | Rule::MarkDiffers => "7.4.3",
            Rule::Count => "8.2.1",
            Rule::ListCommand => "8.2.4",
            Rule::MarkCommand => "8.2.5",
            Rule::SliceEmpty | Rule::MbPast => "7.3.4",
            Rule::NoReference => "8.4.2",
            Rule::IntraMode => "8.3",
            Rule::TransformRange => "8.5",
        }
    }
}
