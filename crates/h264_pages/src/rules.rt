//! What each rule says to a reader: what breaks it, which bit is named, and what usually causes it.
//!
//! docs/RULES.md is made of this table by `tools/rules.py`, in this order, which is the order in which the rules are judged.
#![tactic(auto)]

ghost use Rattle.std.specs.Prelude.{◌≡◌, IfSome, IfNone};
ghost use Rattle.h264_base.specs.Rule.{label_of};
ghost use Rattle.h264_base.specs.declared.rule.Rule.{Rule};
ghost use Rattle.h264_base.specs.Feature.{text_of};
ghost use Rattle.h264_base.specs.declared.stop.Feature.{Feature};
ghost use Rattle.h264_pages.specs.Entries.{HaveOtherLabels, HaveOtherNames};

use h264_base::{Feature, Rule};

/// What is said of a rule.
#[derive(Clone, Copy)]
pub struct RuleEntry {
    pub rule: Rule,
    /// What breaks it.
    pub breaks: &'static str,
    /// The bit of the input that a no names.
    pub bit: &'static str,
    /// What usually causes it.
    pub cause: &'static str,
}

/// What is said of a feature that is not judged.
#[derive(Clone, Copy)]
pub struct FeatureEntry {
    pub feature: Feature,
    /// What stands in the stream.
    pub stands: &'static str,
    /// The bit of the input that an outside names.
    pub bit: &'static str,
    /// What to do.
    pub advice: &'static str,
}

/// Every rule, in the order in which the rules are judged.
const RULES: [RuleEntry; 36] = [
    RuleEntry {
        rule: Rule::ByteStream,
        breaks: "A byte other than 00 stands between two units, outside the start codes 00 00 01.",
        bit: "The first bit of that byte.",
        cause: "The file is not a byte stream: it is a container such as MP4, or a text. \
            Or bytes were lost or added between units.",
    },
    RuleEntry {
        rule: Rule::EmptyUnit,
        breaks: "No byte of a unit follows a start code.",
        bit: "The first bit after the start code.",
        cause: "A start code was written twice, a unit lost its bytes, or the file was cut after a start code.",
    },
    RuleEntry {
        rule: Rule::Emulation,
        breaks: "A unit contains 00 00 02, or 00 00 03 followed by a byte above 03, or it ends in 00 00 03.",
        bit: "The first bit of the 02, of the byte above 03, or of the last 03.",
        cause: "The encoder left emulation prevention out, or did it for a part of the unit alone. \
            00 00 03 itself becomes 00 00 03 03. Zero words after a slice serve CABAC alone.",
    },
    RuleEntry {
        rule: Rule::ForbiddenBit,
        breaks: "forbidden_zero_bit is 1.",
        bit: "The first bit of the unit.",
        cause: "The byte is damaged. Or a unit contains 00 00 01 without emulation prevention, and its second half was taken for a unit.",
    },
    RuleEntry {
        rule: Rule::RefIdc,
        breaks: "nal_ref_idc is 0 in a unit of type 5, 7 or 8, or not 0 in a unit of type 6, 9, 10, 11 or 12.",
        bit: "The first bit of the unit.",
        cause: "The encoder begins such a unit with the wrong byte. Usual ones are 65 for an IDR slice, \
            67 and 68 for the parameter sets, 06 for SEI, 09 for a delimiter.",
    },
    RuleEntry {
        rule: Rule::Partition,
        breaks: "nal_unit_type is 2, 3 or 4. Data partitions are not in the profile.",
        bit: "The first bit of the unit.",
        cause: "The encoder uses data partitioning, a tool of the Extended profile.",
    },
    RuleEntry {
        rule: Rule::CodeWord,
        breaks: "No word of the element's code stands there, or the unit ends within it. \
            A coded_block_pattern above 47 and a 1 among the alignment bits before I_PCM samples are such cases.",
        bit: "The first bit of the element. Where the unit ends at an element's first bit, or among I_PCM samples: the first bit after the unit.",
        cause: "An element before it was left out, or written in another code. Where the unit ends there, look for 00 00 00 or 00 00 01 \
            among its bytes, for want of emulation prevention, or for a file that was cut.",
    },
    RuleEntry {
        rule: Rule::Range,
        breaks: "The value is out of the element's range. A list of ranges stands in docs/RULES.md.",
        bit: "The first bit of the element.",
        cause: "The encoder wrote a wrong value. Where the value makes no sense, an element before it is missing or has another length.",
    },
    RuleEntry {
        rule: Rule::Tool,
        breaks: "The value asks for a tool that the profile leaves out: CABAC, fields, slice groups, weighted prediction, \
            redundant pictures, or slices of type B, SP or SI.",
        bit: "The first bit of the element.",
        cause: "The encoder was set to a richer profile, or its settings contradict the profile that it wrote.",
    },
    RuleEntry {
        rule: Rule::Profile,
        breaks: "profile_idc is not 66, and not 77 or 88 with constraint_set0_flag. The target main-ip takes 77 with any flags.",
        bit: "The first bit of profile_idc. It is judged after constraint_set5_flag.",
        cause: "The stream has another profile, such as High. A Main profile stream that keeps to the tools of Baseline \
            says so by constraint_set0_flag.",
    },
    RuleEntry {
        rule: Rule::FrameSize,
        breaks: "In this order: the frame has more macroblocks than MaxFS of its level; \
            its width or height squared is above 8 * MaxFS; max_num_ref_frames is above MaxDpbFrames.",
        bit: "The first bit of pic_height_in_map_units_minus1.",
        cause: "level_idc is too low for the size of the frame, or for that many reference frames of this size.",
    },
    RuleEntry {
        rule: Rule::Crop,
        breaks: "Cropping leaves no samples: twice the left and right offsets together reach the frame's width, \
            or twice the top and bottom ones its height.",
        bit: "The first bit of frame_crop_right_offset or frame_crop_bottom_offset.",
        cause: "The offsets were written in samples. They count two samples each.",
    },
    RuleEntry {
        rule: Rule::Vui,
        breaks: "max_num_reorder_frames is above max_dec_frame_buffering, or max_dec_frame_buffering is below max_num_ref_frames \
            or above MaxDpbFrames of the level.",
        bit: "The first bit of max_dec_frame_buffering.",
        cause: "The bitstream restriction was written from other settings than the rest of the set.",
    },
    RuleEntry {
        rule: Rule::Trailing,
        breaks: "A parameter set is not followed by a 1 and 0s up to the end of its last byte.",
        bit: "The first bit that should be trailing.",
        cause: "The set has an extension of another profile, an element too many or too few, or bytes after its end.",
    },
    RuleEntry {
        rule: Rule::NoSet,
        breaks: "A slice names a picture parameter set that is not there, or one that names a sequence parameter set that is not there.",
        bit: "The first bit of pic_parameter_set_id.",
        cause: "The set was lost, comes after the slice, or has another id. No set has an id above 255.",
    },
    RuleEntry {
        rule: Rule::FirstPicture,
        breaks: "The stream begins with a picture that is no IDR picture, or such a picture follows a unit of type 10 or 11.",
        bit: "The first bit of the unit.",
        cause: "The stream was cut in its middle. It has to begin with an IDR picture, and so has what follows an end of sequence.",
    },
    RuleEntry {
        rule: Rule::SetChanged,
        breaks: "A slice that begins no IDR picture uses a sequence parameter set of another id or other content than the active one.",
        bit: "The first bit of pic_parameter_set_id.",
        cause: "Settings changed without an IDR picture, or two streams were joined.",
    },
    RuleEntry {
        rule: Rule::FirstMb,
        breaks: "first_mb_in_slice is not the number of macroblocks that the picture has so far.",
        bit: "The first bit of first_mb_in_slice.",
        cause: "Slices were lost, sent twice or out of order. Or the header does not tell this picture from the one before.",
    },
    RuleEntry {
        rule: Rule::SliceType,
        breaks: "A P slice stands in an IDR picture, or where max_num_ref_frames is 0. Or a later slice has another type than \
            an earlier one of its picture, and one of them has slice_type 5 or 7.",
        bit: "The first bit of slice_type.",
        cause: "slice_type 5 to 9 promises one type for all slices of the picture. Use 0 to 4 where they differ.",
    },
    RuleEntry {
        rule: Rule::FrameNum,
        breaks: "In this order: an IDR picture has a frame_num other than 0; another picture has neither PrevRefFrameNum nor the number \
            after it, and gaps are not allowed; a missing number of a gap cannot be filled; a reference picture repeats PrevRefFrameNum, \
            or has the frame_num of a short-term frame that is still held.",
        bit: "The first bit of frame_num.",
        cause: "Pictures were lost. Or the encoder raised frame_num after a non-reference picture, or did not raise it after a reference picture.",
    },
    RuleEntry {
        rule: Rule::IdrPicId,
        breaks: "An IDR picture follows another IDR picture directly, and both have one idr_pic_id.",
        bit: "The first bit of idr_pic_id.",
        cause: "The encoder does not change idr_pic_id, an IDR picture was sent twice, or the pictures between were lost.",
    },
    RuleEntry {
        rule: Rule::Count,
        breaks: "A picture order count is out of -2^31 to 2^31 - 1. Or pic_order_cnt_type is 2, and two non-reference pictures follow each other.",
        bit: "The first bit of the unit.",
        cause: "Type 2: two non-reference pictures in a row. Type 1: offsets or deltas that grow. Type 0: counts that never begin anew.",
    },
    RuleEntry {
        rule: Rule::Qp,
        breaks: "26 + pic_init_qp_minus26 + slice_qp_delta is out of 0 to 51.",
        bit: "The first bit of slice_qp_delta.",
        cause: "The delta was taken from the slice before. It counts from the picture parameter set that the slice names.",
    },
    RuleEntry {
        rule: Rule::ListCommand,
        breaks: "A modification of the reference picture list names a frame that is not held.",
        bit: "The first bit of its modification_of_pic_nums_idc.",
        cause: "The encoder's list of held frames differs from what the sliding window and the marking operations leave. \
            abs_diff_pic_num_minus1 counts from the number that was named before.",
    },
    RuleEntry {
        rule: Rule::MarkDiffers,
        breaks: "A later slice of a picture has other marking elements than the first.",
        bit: "The first bit of no_output_of_prior_pics_flag or adaptive_ref_pic_marking_mode_flag.",
        cause: "Each slice of a picture has to repeat the marking of the first.",
    },
    RuleEntry {
        rule: Rule::SliceEmpty,
        breaks: "Slice data begin with the trailing bits.",
        bit: "The first bit of the slice data.",
        cause: "The encoder wrote a slice without macroblocks.",
    },
    RuleEntry {
        rule: Rule::MbPast,
        breaks: "More data follow when the picture has all its macroblocks.",
        bit: "The first bit of mb_type.",
        cause: "The picture is larger than its parameter set says. Or the trailing bits were read as part of an element.",
    },
    RuleEntry {
        rule: Rule::NoReference,
        breaks: "A reference index names a place of the list without a picture, or a frame that a gap in frame_num left.",
        bit: "The first bit of ref_idx_l0. Where the index is inferred: of mb_type, or of mb_skip_run.",
        cause: "Reference pictures were lost, or the encoder holds other frames than the stream's marking leaves.",
    },
    RuleEntry {
        rule: Rule::IntraMode,
        breaks: "An intra prediction mode needs samples that are not available: outside the picture or the slice, \
            or of inter macroblocks under constrained_intra_pred_flag.",
        bit: "The first bit of prev_intra4x4_pred_mode_flag, of mb_type (Intra 16x16) or of intra_chroma_pred_mode.",
        cause: "The encoder ignores the upper or left border of the slice, or constrained_intra_pred_flag.",
    },
    RuleEntry {
        rule: Rule::ResidualWord,
        breaks: "No word of the code of an element of a residual block stands there, or the unit ends within it.",
        bit: "The first bit of the element. Where the unit ends at its first bit: the first bit after the unit.",
        cause: "nC is wrong, which comes from the blocks to the left and above. Or the slice was cut.",
    },
    RuleEntry {
        rule: Rule::BlockSize,
        breaks: "A residual block has more coefficients than places, more zeros with them than places, or a run longer than the zeros left.",
        bit: "The first bit of coeff_token, total_zeros or run_before.",
        cause: "nC is wrong, or the kind of the block: it has 16, 15 or 4 places.",
    },
    RuleEntry {
        rule: Rule::VectorRange,
        breaks: "A vector of the macroblock is out of -8192 to 8191 across, or out of the level's range down, in quarter samples.",
        bit: "The first bit of the macroblock's mb_type. It is judged at the macroblock's end.",
        cause: "level_idc is too low for the encoder's search range.",
    },
    RuleEntry {
        rule: Rule::TransformRange,
        breaks: "A value of the inverse transform does not fit 16 bits.",
        bit: "The first bit of the macroblock's mb_type. It is judged after VectorRange.",
        cause: "Levels are too great for their quantisation parameter.",
    },
    RuleEntry {
        rule: Rule::Incomplete,
        breaks: "A picture ends before all its macroblocks are coded.",
        bit: "The first bit after the picture's last slice.",
        cause: "Slices were lost, or the file was cut.",
    },
    RuleEntry {
        rule: Rule::MarkCommand,
        breaks: "The marking of a reference picture cannot be done. Operations 1 and 3 name a short-term frame that is held, and 3 one that exists; \
            2 names a long-term frame that is held; 3 and 6 use an index that there is; 4 allows at most max_num_ref_frames indices; \
            after 6 no operation unmarks the picture itself. After the marking at most max_num_ref_frames frames are held, or 1 where that is 0.",
        bit: "The first bit of memory_management_control_operation. For the sliding window and for the total: of adaptive_ref_pic_marking_mode_flag.",
        cause: "The encoder's list of held frames differs from the stream's. No sliding window removes a long-term frame.",
    },
    RuleEntry {
        rule: Rule::NoPicture,
        breaks: "The input ends without a picture.",
        bit: "The first bit after the input.",
        cause: "The file is empty, or has parameter sets and other units alone.",
    },
];

/// Every feature that is not judged.
const FEATURES: [FeatureEntry; 3] = [
    FeatureEntry {
        feature: Feature::Level6,
        stands: "level_idc is 60, 61 or 62.",
        bit: "The first bit of level_idc.",
        advice: "Levels 1 to 5.2 are judged. Nothing is said of this stream.",
    },
    FeatureEntry {
        feature: Feature::UnitTooLong,
        stands: "A unit has more than 2^28 bytes.",
        bit: "The first bit of the unit.",
        advice: "Look whether start codes were lost. Nothing is said of this stream.",
    },
    FeatureEntry {
        feature: Feature::InputTooLong,
        stands: "The input has more than 2^40 bytes.",
        bit: "Bit 2^43.",
        advice: "Cut the input before an IDR picture, and judge the parts.",
    },
];

/// The first of these entries whose rule has this label.
#[tactic(auto, using(crate::proofs::Entries::one_more_label))]
fn find_labelled(entries: &[RuleEntry], label: &str) -> Option<RuleEntry>
    ensures is { IfSome result (λ e. label_of e.rule ≡ label.now) }
    ensures none { IfNone result (HaveOtherLabels label.now entries.now) }
{
    for entry in entries {
        if entry.rule.label() == label {
            return Some(*entry);
        }
    }
    None
}

/// What is said of the rule with this label; none where no rule has it.
pub fn entry_by_label(label: &str) -> Option<RuleEntry>
    ensures is { IfSome result (λ e. label_of e.rule ≡ label.now) }
    ensures none { IfNone result ((rule : Rule) → label_of rule ≡ label.now → ⊥) }
{
    find_labelled(&RULES, label)
}

/// What is said of a rule: the entry with its label.
pub fn entry_of(rule: Rule) -> RuleEntry
    ensures { label_of result.rule ≡ label_of rule }
{
    let Some(entry) = entry_by_label(rule.label()) else {
        unreachable!()
    };
    entry
}

/// The first of these entries whose feature has this name.
#[tactic(auto, using(crate::proofs::Entries::one_more_name))]
fn find_named(entries: &[FeatureEntry], name: &str) -> Option<FeatureEntry>
    ensures is { IfSome result (λ e. text_of e.feature ≡ name.now) }
    ensures none { IfNone result (HaveOtherNames name.now entries.now) }
{
    for entry in entries {
        if entry.feature.text() == name {
            return Some(*entry);
        }
    }
    None
}

/// What is said of the feature with this name; none where no feature has it.
pub fn feature_by_name(name: &str) -> Option<FeatureEntry>
    ensures is { IfSome result (λ e. text_of e.feature ≡ name.now) }
    ensures none { IfNone result ((feature : Feature) → text_of feature ≡ name.now → ⊥) }
{
    find_named(&FEATURES, name)
}

/// What is said of a feature: the entry with its name.
pub fn entry_of_feature(feature: Feature) -> FeatureEntry
    ensures { text_of result.feature ≡ text_of feature }
{
    let Some(entry) = feature_by_name(feature.text()) else {
        unreachable!()
    };
    entry
}
