//! What each further rule says to a reader: what breaks it, which bit is named, what usually causes it, and an example.
//!
//! docs/RULES.md is made of these tables by `tools/rules.py`, and each example stands in docs/EXAMPLES.md with a stream.
#![tactic(auto)]

ghost use Rattle.std.specs.Prelude.{◌≡◌, ◌<◌, ◌≤◌, IfSome, IfNone};
ghost use Rattle.h264_strict.specs.StrictEntries.{HaveOtherFurtherLabels};
ghost use Rattle.h264_strict.specs.StrictRules.{label_of, place_of};
ghost use Rattle.h264_strict.specs.declared.strict_rule.StrictRule.{StrictRule as StrictRuleView};

use crate::strict_rule::StrictRule;

/// What is said of a further rule.
#[derive(Clone, Copy)]
pub struct StrictEntry {
    pub rule: StrictRule,
    /// What breaks it.
    pub breaks: &'static str,
    /// The first bit of what is named.
    pub bit: &'static str,
    /// What usually causes it.
    pub cause: &'static str,
    /// What is wrong in its example (docs/EXAMPLES.md).
    pub example: &'static str,
}

/// How many further rules come before those on the coded picture buffer.
const EARLY_RULES: usize = 38;

/// How many rules on the coded picture buffer there are.
const BUFFER_RULES: usize = 5;

/// Each rule before those on the coded picture buffer, by its place.
const ENTRIES: [StrictEntry; EARLY_RULES] = [
    StrictEntry {
        rule: StrictRule::ReservedBits,
        breaks: "reserved_zero_2bits is not 0.",
        bit: "The first bit of reserved_zero_2bits.",
        cause: "The flags of the profile were written as one byte with its lowest bits in use.",
        example: "reserved_zero_2bits 1",
    },
    StrictEntry {
        rule: StrictRule::AspectRatio,
        breaks: "aspect_ratio_idc is 17 to 254, which table E-1 reserves.",
        bit: "The first bit of aspect_ratio_idc.",
        cause: "A ratio that table E-1 has not was numbered on. 255 stands for sar_width and sar_height.",
        example: "aspect_ratio_idc 17",
    },
    StrictEntry {
        rule: StrictRule::VideoFormat,
        breaks: "video_format is 6 or 7, which table E-2 reserves.",
        bit: "The first bit of video_format.",
        cause: "An unknown format was written as 7. The value for an unspecified format is 5.",
        example: "video_format 6",
    },
    StrictEntry {
        rule: StrictRule::ColourPrimaries,
        breaks: "colour_primaries is 0, 3, 13 to 21 or above 22, which table E-3 reserves.",
        bit: "The first bit of colour_primaries.",
        cause: "Unknown primaries were written as 0. The value for unspecified ones is 2.",
        example: "colour_primaries 3",
    },
    StrictEntry {
        rule: StrictRule::TransferCharacteristics,
        breaks: "transfer_characteristics is 0, 3 or above 18, which table E-4 reserves.",
        bit: "The first bit of transfer_characteristics.",
        cause: "An unknown transfer was written as 0. The value for an unspecified one is 2.",
        example: "transfer_characteristics 19",
    },
    StrictEntry {
        rule: StrictRule::MatrixCoefficients,
        breaks: "matrix_coefficients is 3 or above 14, which table E-5 reserves, or 0, which wants 4:4:4.",
        bit: "The first bit of matrix_coefficients.",
        cause: "The stream was made of RGB, and the value of its source was kept. Or unknown coefficients were written as 0; the value \
            for unspecified ones is 2.",
        example: "matrix_coefficients 0, which is GBR, in 4:2:0",
    },
    StrictEntry {
        rule: StrictRule::ChromaLocation,
        breaks: "chroma_sample_loc_type_top_field or chroma_sample_loc_type_bottom_field is above 5.",
        bit: "The first bit of the element.",
        cause: "The location was numbered from 1, or another element before it has a wrong length.",
        example: "chroma_sample_loc_type_top_field 6",
    },
    StrictEntry {
        rule: StrictRule::Timing,
        breaks: "num_units_in_tick or time_scale is 0.",
        bit: "The first bit of the element.",
        cause: "The frame rate was not known. timing_info_present_flag 0 says that.",
        example: "num_units_in_tick 0",
    },
    StrictEntry {
        rule: StrictRule::Restriction,
        breaks: "max_bytes_per_pic_denom, max_bits_per_mb_denom, log2_max_mv_length_horizontal or log2_max_mv_length_vertical is above 16.",
        bit: "The first bit of the element.",
        cause: "The length of a vector was written in place of its logarithm.",
        example: "log2_max_mv_length_horizontal 17",
    },
    StrictEntry {
        rule: StrictRule::OperationsExclude,
        breaks: "memory_management_control_operation 5 stands in one marking with 1, 2 or 3.",
        bit: "The first bit of the later of the two.",
        cause: "The encoder unmarks frames one by one, and then all of them.",
        example: "operation 1 and operation 5 in one marking",
    },
    StrictEntry {
        rule: StrictRule::IdrCount,
        breaks: "The picture order count of an IDR picture is not 0.",
        bit: "The first bit of its first slice's unit.",
        cause: "The encoder counts on across IDR pictures. pic_order_cnt_lsb has to begin anew at each.",
        example: "pic_order_cnt_lsb 4 in an IDR picture",
    },
    StrictEntry {
        rule: StrictRule::SetRefIdc,
        breaks: "nal_ref_idc is 0 in a unit of type 13 or 15.",
        bit: "The first bit of the unit.",
        cause: "The unit begins with 0d or 0f. Both are parameter sets, whose nal_ref_idc is not 0.",
        example: "a unit of type 13 of nal_ref_idc 0",
    },
    StrictEntry {
        rule: StrictRule::DelimiterFirst,
        breaks: "A delimiter comes after another unit of its access unit: after a delimiter, a set, SEI or a unit of type 14 to 18, \
            with no slice between.",
        bit: "The first bit of the delimiter.",
        cause: "Parameter sets were put before a stream that already has delimiters.",
        example: "a delimiter after the parameter sets",
    },
    StrictEntry {
        rule: StrictRule::FillerFirst,
        breaks: "Filler data comes after a delimiter, a set, SEI or a unit of type 14 to 18, and before the access unit's first slice.",
        bit: "The first bit of the filler data.",
        cause: "The filler data of a picture was written before it. It follows the picture's slices.",
        example: "filler data before the picture",
    },
    StrictEntry {
        rule: StrictRule::AfterEndOfStream,
        breaks: "A unit follows the end of the stream.",
        bit: "The first bit of the unit.",
        cause: "Two streams were joined, and the unit of type 11 between them was kept.",
        example: "the end of the stream, and then another picture",
    },
    StrictEntry {
        rule: StrictRule::Level1b,
        breaks: "level_idc is 9, or constraint_set3_flag is 1 with a level_idc other than 11.",
        bit: "The first bit of level_idc.",
        cause: "Level 1b was told as in the High profiles, by level_idc 9. In Baseline, Main and Extended it is level_idc 11 with \
            constraint_set3_flag 1.",
        example: "level_idc 9",
    },
    StrictEntry {
        rule: StrictRule::ReservedConstraint,
        breaks: "constraint_set4_flag or constraint_set5_flag is 1 where profile_idc is 66.",
        bit: "The first bit of the flag.",
        cause: "The flags of a Constrained High stream were kept in a Baseline one.",
        example: "constraint_set4_flag 1 with profile_idc 66",
    },
    StrictEntry {
        rule: StrictRule::DirectInference,
        breaks: "direct_8x8_inference_flag is 0, and the set promises Extended (by profile_idc 88 or constraint_set2_flag), or Main at \
            level 3 or above (by profile_idc 77 or constraint_set1_flag).",
        bit: "The first bit of direct_8x8_inference_flag.",
        cause: "The flag was taken for one of B slices alone. Main asks for it from level 3 on (table A-4), and Extended always, \
            whatever the slices are.",
        example: "direct_8x8_inference_flag 0 at level 3, with constraint_set1_flag",
    },
    StrictEntry {
        rule: StrictRule::LowDelay,
        breaks: "low_delay_hrd_flag is 1, and fixed_frame_rate_flag is 1 too.",
        bit: "The first bit of low_delay_hrd_flag.",
        cause: "A big picture may come late under low_delay_hrd_flag, so the rate is not fixed. One of the two flags has to be 0.",
        example: "low_delay_hrd_flag 1 with fixed_frame_rate_flag 1",
    },
    StrictEntry {
        rule: StrictRule::UnitLength,
        breaks: "A delimiter has more or less than 2 bytes, or the end of a sequence or of the stream more than 1.",
        bit: "The first bit of the unit.",
        cause: "A byte 80 was put after 0a or 0b as if it were trailing bits, or bytes were left after a delimiter.",
        example: "the end of a sequence with a second byte 80",
    },
    StrictEntry {
        rule: StrictRule::EndFirst,
        breaks: "The end of a sequence or of the stream comes after a delimiter, a set, SEI or a unit of type 14 to 18, and before the \
            access unit's first slice.",
        bit: "The first bit of the unit.",
        cause: "The end was written after the delimiter of the next picture. It follows the slices of the last one.",
        example: "the end of a sequence after a delimiter",
    },
    StrictEntry {
        rule: StrictRule::LongTermReference,
        breaks: "long_term_reference_flag is 1 where max_num_ref_frames is 0.",
        bit: "The first bit of long_term_reference_flag.",
        cause: "The encoder keeps IDR pictures as long-term ones, and says that it holds no frame.",
        example: "long_term_reference_flag 1, and no reference frames",
    },
    StrictEntry {
        rule: StrictRule::Weights,
        breaks: "A slice has a table of weights, and the set promises Baseline by profile_idc 66 or constraint_set0_flag. Only the \
            target main-ip comes so far.",
        bit: "The first bit of luma_log2_weight_denom.",
        cause: "constraint_set0_flag was set for the want of CABAC and B slices. Baseline leaves weighted_pred_flag out too.",
        example: "weights in a stream of Main with constraint_set0_flag",
    },
    StrictEntry {
        rule: StrictRule::FrameNumRepeated,
        breaks: "A picture that is no IDR picture has PrevRefFrameNum as its frame_num. A reference picture that does is a no of FrameNum.",
        bit: "The first bit of its first slice's unit.",
        cause: "The encoder increments frame_num one picture too late after a reference picture. Each picture after one has another \
            frame_num, one that is no reference too.",
        example: "a non-reference picture with the frame_num of the reference picture before it",
    },
    StrictEntry {
        rule: StrictRule::CountRepeated,
        breaks: "A picture has the greatest picture order count that its sequence had so far.",
        bit: "The first bit of its first slice's unit.",
        cause: "pic_order_cnt_lsb does not grow, or it wraps at a number too small for the distance of two pictures.",
        example: "two pictures of count 0",
    },
    StrictEntry {
        rule: StrictRule::Reorder,
        breaks: "max_num_reorder_frames is 0, and a picture's count is below that of one before it in its sequence.",
        bit: "The first bit of its first slice's unit.",
        cause: "Pictures are coded out of order for temporal layers, and the bitstream restriction says otherwise.",
        example: "a count of -2 after one of 0, and max_num_reorder_frames 0",
    },
    StrictEntry {
        rule: StrictRule::VectorCount,
        breaks: "Two macroblocks that follow one another in decoding order have more vectors than MaxMvsPer2Mb of the level: 16 from \
            level 3.1 on.",
        bit: "The first bit of the element with which there are more: mb_type, sub_mb_type or mb_skip_run.",
        cause: "The encoder parts macroblocks down to 4x4. Its search has to count vectors from level 3.1 on, or leave the smallest \
            parts out.",
        example: "16 vectors and then a skipped macroblock at level 3.1",
    },
    StrictEntry {
        rule: StrictRule::FrameRate,
        breaks: "fixed_frame_rate_flag is 1, pic_struct_present_flag is 0, and a frame lasts less than PicSizeInMbs / MaxMBPS of the \
            level, or less than 1/172 of a second.",
        bit: "The first bit of the first slice's unit of a picture that follows another one in its sequence.",
        cause: "level_idc is too low for the frame rate.",
        example: "a thousand frames a second at level 1",
    },
    StrictEntry {
        rule: StrictRule::ScheduleOrder,
        breaks: "A schedule of the reference decoder has a bit_rate_value_minus1 that is not above that of the one before, or a \
            cpb_size_value_minus1 above it.",
        bit: "The first bit of bit_rate_value_minus1 or cpb_size_value_minus1.",
        cause: "Schedules were written from the greatest rate down. They go from the least rate and the greatest buffer on.",
        example: "two schedules of one bit rate",
    },
    StrictEntry {
        rule: StrictRule::ScheduleLimits,
        breaks: "NAL HRD parameters have no schedule of at most 1200 * MaxBR bits a second and a buffer of at most 1200 * MaxCPB bits, or VCL \
            HRD parameters none of at most 1000 * MaxBR and 1000 * MaxCPB (table A-1).",
        bit: "The first bit of cpb_size_value_minus1 of the last schedule.",
        cause: "level_idc is too low for the bit rate or for the buffer that the encoder was given.",
        example: "76,864 bits a second in NAL HRD parameters at level 1",
    },
    StrictEntry {
        rule: StrictRule::CommonFactor,
        breaks: "sar_width and sar_height are above 0 and have a common factor above 1.",
        bit: "The first bit of sar_height.",
        cause: "The ratio was not brought to its lowest terms: 4:6 is 2:3. Or an aspect ratio of the picture was written in place of one of its samples.",
        example: "sar_width 4 and sar_height 6",
    },
    StrictEntry {
        rule: StrictRule::PictureBytes,
        breaks: "The units of a picture's slices have more bytes than PicSizeInMbs * 384 / max_bytes_per_pic_denom, where \
            max_bytes_per_pic_denom is told and not 0.",
        bit: "The first bit of the unit of the slice with which there are more.",
        cause: "The encoder wrote a promise on sizes that its rate control does not keep. max_bytes_per_pic_denom 0 promises nothing.",
        example: "30 bytes in a picture of one macroblock, and max_bytes_per_pic_denom 16",
    },
    StrictEntry {
        rule: StrictRule::SeiSizes,
        breaks: "A unit of SEI does not consist of messages, each as long as its payloadSize says, and a byte 80.",
        bit: "The first bit of the unit.",
        cause: "payloadSize counts emulation prevention bytes, or the trailing bits were left out.",
        example: "a message whose payloadSize is 5 and which has 4 bytes",
    },
    StrictEntry {
        rule: StrictRule::DelimiterBits,
        breaks: "The five bits of a delimiter after primary_pic_type are not 1 0000.",
        bit: "The first bit of the delimiter.",
        cause: "primary_pic_type was written without its trailing bits. A delimiter of P and I slices is 09 30.",
        example: "a delimiter whose second byte is 20",
    },
    StrictEntry {
        rule: StrictRule::FillerBytes,
        breaks: "Filler data are not bytes FF and then a byte 80.",
        bit: "The first bit of the filler data.",
        cause: "The unit was padded with other bytes, or the trailing bits were left out.",
        example: "filler data of two bytes FE",
    },
    StrictEntry {
        rule: StrictRule::ZeroByte,
        breaks: "A sequence or picture parameter set has a start code of three bytes, 00 00 01, and no 00 before it. Or a delimiter, SEI or \
            the slice of macroblock 0 has, and is the first unit of its access unit.",
        bit: "The first bit of the unit.",
        cause: "Units were joined with 00 00 01 alone. The start codes of sets, and of the first unit of a picture, have four bytes.",
        example: "a picture parameter set after 00 00 01",
    },
    StrictEntry {
        rule: StrictRule::DelimiterType,
        breaks: "The primary_pic_type of a delimiter leaves out the slice_type of the picture's slice of macroblock 0 (table 7-5): that of \
            a P slice where it is 0, 3, 4 or 5, or that of an I slice where it is 3 or 4.",
        bit: "The first bit of the slice's unit.",
        cause: "One delimiter was written before all pictures. 09 10 promises I slices alone, 09 30 P slices too, and 09 F0 any.",
        example: "a delimiter 09 70, which promises SI slices alone, and an I slice",
    },
    StrictEntry {
        rule: StrictRule::SeiContent,
        breaks: "A message of SEI whose payloadType is 0 to 6, 9 to 17, 20, 21, 45, 47, 137, 144 or 147 is not as its syntax says: an element is missing or \
            out of its range, or the elements and the bits that close them are not payloadSize bytes.",
        bit: "The first bit of the message.",
        cause: "The last byte of the payload was left as it was: after the elements come a 1 and then zeros, and nothing where they end with a byte. Or \
            payloadSize was made for another message.",
        example: "a recovery_point() whose changing_slice_group_idc is 3",
    },
];

/// Each rule on the coded picture buffer, by its place.
const BUFFER_ENTRIES: [StrictEntry; BUFFER_RULES] = [
    StrictEntry {
        rule: StrictRule::BufferUnderflow,
        breaks: "low_delay_hrd_flag is 0, and an access unit is removed from the coded picture buffer before all of it has arrived. That is with SchedSelIdx 0 \
            of the NAL or the VCL HRD parameters.",
        bit: "The first bit of the first unit of the access unit.",
        cause: "A picture is larger than the rate control planned for, or bytes were added after the encoder. Or bit_rate_value_minus1 or the initial delay \
            is too small.",
        example: "a picture that is removed 90 ms after the first bit of the stream came, and has arrived after 97.5 ms",
    },
    StrictEntry {
        rule: StrictRule::InitialDelay,
        breaks: "initial_cpb_removal_delay of a buffering period after the first is above the time from the arrival of the access unit before to the removal \
            of its own, rounded up; or with cbr_flag 1 below that time, rounded down. That is with SchedSelIdx 0 of the NAL or the VCL HRD parameters.",
        bit: "The first bit of the first unit of the access unit that begins the buffering period.",
        cause: "Streams were joined, or bytes were left out or added after the encoder, and each buffering period still tells the fullness that its \
            encoder saw.",
        example: "a second initial_cpb_removal_delay of 7200, where the time from the last arrival on is 3825",
    },
    StrictEntry {
        rule: StrictRule::BufferOverflow,
        breaks: "The coded picture buffer holds more than CpbSize bits: those of access units that have arrived and are not removed, and what has come of the \
            next. That is with SchedSelIdx 0 of the NAL or the VCL HRD parameters. It is not judged from where more than 256 access units stand in the buffer \
            at once.",
        bit: "The first bit of the first unit of the access unit that arrives then.",
        cause: "The encoder was given a larger buffer than cpb_size_value_minus1 tells. Or its rate is constant, and filler data are missing.",
        example: "four pictures of 136 bits in a buffer of 512 bits, from which none of them is removed yet",
    },
    StrictEntry {
        rule: StrictRule::MinCompression,
        breaks: "The units of an access unit's slices have more bytes than 384 * MaxMBPS / MinCR times the seconds since the access unit before was removed \
            from the coded picture buffer. The first one has more than 384 * PicSizeInMbs / MinCR bytes, and more than 384 * MaxMBPS / 172 / MinCR. The times \
            are of SchedSelIdx 0 of the NAL or the VCL HRD parameters.",
        bit: "The first bit of the first unit of the access unit.",
        cause: "Pictures are coded at the best quality, or as I_PCM macroblocks, at a high frame rate. A level with a greater MaxMBPS allows more bytes.",
        example: "a slice of 4 bytes, 1/100000 of a second after the one before",
    },
    StrictEntry {
        rule: StrictRule::RemovalRate,
        breaks: "An access unit is removed from the coded picture buffer less than PicSizeInMbs / MaxMBPS seconds after the one before, or less than 1/172 of \
            a second. PicSizeInMbs and MaxMBPS are those of the one before, and the times are of SchedSelIdx 0 of the NAL or the VCL HRD parameters.",
        bit: "The first bit of the first unit of the access unit.",
        cause: "level_idc is too low for the frame rate. Or cpb_removal_delay counts ticks that are not those of num_units_in_tick and time_scale.",
        example: "a picture that is removed 5 ms after the one before",
    },
];

/// The first of these entries whose rule has this label.
#[tactic(auto, using(crate::proofs::StrictEntries::one_more_further))]
fn find_further(entries: &[StrictEntry], label: &str) -> Option<StrictEntry>
    ensures is { IfSome result (λ e. label_of e.rule ≡ label.now) }
    ensures none { IfNone result (HaveOtherFurtherLabels label.now entries.now) }
{
    for entry in entries {
        if entry.rule.label() == label {
            return Some(*entry);
        }
    }
    None
}

/// What is said of the further rule with this label, among those before the rules on the coded picture buffer.
fn early_by_label(label: &str) -> Option<StrictEntry>
    ensures is { IfSome result (λ e. label_of e.rule ≡ label.now) }
    ensures none { IfNone result ((rule : StrictRuleView) → place_of rule < EARLY_RULES → label_of rule ≡ label.now → ⊥) }
{
    find_further(&ENTRIES, label)
}

/// What is said of the further rule with this label, among the rules on the coded picture buffer.
fn buffer_by_label(label: &str) -> Option<StrictEntry>
    ensures is { IfSome result (λ e. label_of e.rule ≡ label.now) }
    ensures none { IfNone result ((rule : StrictRuleView) → EARLY_RULES ≤ place_of rule → label_of rule ≡ label.now → ⊥) }
{
    find_further(&BUFFER_ENTRIES, label)
}

/// What is said of the further rule with this label; none where no further rule has it.
pub fn strict_by_label(label: &str) -> Option<StrictEntry>
    ensures is { IfSome result (λ e. label_of e.rule ≡ label.now) }
    ensures none { IfNone result ((rule : StrictRuleView) → label_of rule ≡ label.now → ⊥) }
{
    match early_by_label(label) {
        Some(entry) => Some(entry),
        None => buffer_by_label(label),
    }
}
