//! What a rule allows where it was broken.
#![tactic(auto)]

use crate::pages::finding::Finding;
use crate::pages::page::Page;
use crate::pages::profile::put_level;
use crate::pages::ranges::{range_of, tool_range_of};
use crate::pages::reason::Reason;
use crate::survey::{Sequence, Survey};
use h264_base::Rule;
use h264_tables::{Limits, limits};

/// The greatest quantisation parameter (7.4.3).
const MAX_QP: i64 = 51;

/// The quantisation parameter to which pic_init_qp_minus26 is added (7.4.2.2).
const MIDDLE_QP: i64 = 26;

/// Frames of the decoded picture buffer at most (A.3.1).
const MAX_FRAMES: u64 = 16;

/// The limits of a set's level.
fn limits_of(set: &Sequence) -> Option<Limits> {
    match u8::try_from(set.level_idc) {
        Ok(level_idc) => limits(level_idc, set.constraint_set3),
        Err(_) => None,
    }
}

/// 2 to the power of log2_max_frame_num (7.4.2.1).
fn max_frame_num(set: &Sequence) -> u64 {
    if set.log2_max_frame_num < 32 {
        return 1 << set.log2_max_frame_num;
    }
    1 << 16
}

/// Adds the frame_num that may follow (7.4.3).
fn put_frame_num(page: &mut Page, survey: &Survey) {
    let Some(set) = survey.sequence() else {
        return;
    };
    let Some(previous) = survey.pictures.previous_reference else {
        page.put("0, that of an IDR picture");
        return;
    };
    let max = max_frame_num(&set);
    page.number(previous.saturating_add(1) % max.max(1));
    page.put(", which follows PrevRefFrameNum ");
    page.number(previous);
    page.put(" modulo MaxFrameNum ");
    page.number(max);
    page.put("; 0 in an IDR picture; ");
    page.number(previous);
    page.put(" in a picture that is no reference; gaps are ");
    page.put(if set.gaps_allowed {
        "allowed"
    } else {
        "not allowed"
    });
}

/// Adds the range of motion vectors of the level (A.3.1).
fn put_vector_range(page: &mut Page, survey: &Survey) {
    let Some(set) = survey.sequence() else {
        return;
    };
    let Some(limits) = limits_of(&set) else {
        return;
    };
    let most = u64::from(limits.max_vector).saturating_mul(4);
    page.put("vectors of -8192 to 8191 across and -");
    page.number(most);
    page.put(" to ");
    page.number(most.saturating_sub(1));
    page.put(" down, in quarter samples, at level ");
    put_level(page, &set);
}

/// Adds the frame size of a set, and what its level allows (A.3.1).
fn put_frame_size(page: &mut Page, survey: &Survey) {
    let Some(set) = survey.sequence() else {
        return;
    };
    let Some(limits) = limits_of(&set) else {
        return;
    };
    let size = set.width.saturating_mul(set.height);
    page.put("at most ");
    page.number(u64::from(limits.max_fs));
    page.put(" macroblocks a frame, each side squared at most ");
    page.number(u64::from(limits.max_fs).saturating_mul(8));
    page.put(", and at most ");
    let held = u64::from(limits.max_dpb_mbs) / size.max(1);
    page.number(held.min(MAX_FRAMES));
    page.put(" reference frames of this size, at level ");
    put_level(page, &set);
    page.put("; found ");
    page.number(set.width);
    page.put(" by ");
    page.number(set.height);
    page.put(" macroblocks, which are ");
    page.number(size);
    page.put(", and ");
    page.number(set.max_num_ref_frames);
    page.put(" reference frames");
}

/// Adds what slice_qp_delta may be (7.4.3).
fn put_qp(page: &mut Page, survey: &Survey) {
    let Some(slice) = survey.slice else {
        return;
    };
    let Some(id) = slice.pic_parameter_set_id else {
        return;
    };
    let Some(set) = survey.sets.picture_set(id) else {
        return;
    };
    let pic_init_qp = set.pic_init_qp_minus26.saturating_add(MIDDLE_QP);
    page.signed(pic_init_qp.saturating_neg());
    page.put(" to ");
    page.signed(MAX_QP.saturating_sub(pic_init_qp));
    page.put(", so that the quantisation parameter lies in 0 to 51");
}

/// Adds what a value of the element at the bit may be (7.4).
fn put_range(page: &mut Page, finding: &Finding) {
    let Some(name) = finding.element_name() else {
        return;
    };
    if let Some(range) = range_of(name) {
        page.put(range);
    }
}

/// Adds what the tools of the profile allow of the element at the bit (A.2.1.1).
fn put_tool_range(page: &mut Page, finding: &Finding) {
    if let Some(name) = finding.element_name() {
        page.put(tool_range_of(name));
    }
}

/// Adds the buffering that a set allows (E.2.1).
fn put_buffering(page: &mut Page, survey: &Survey) {
    if let Some(set) = survey.sequence() {
        page.put("max_num_reorder_frames at most max_dec_frame_buffering, and that at least ");
        page.number(set.max_num_ref_frames);
        page.put(", the number of reference frames, and at most what the level holds");
    }
}

/// Whether no target judges the stream: another profile than Main, or Main with CABAC or fields.
fn suits_no_target(finding: &Finding) -> bool {
    match finding.reason {
        Some(Reason::OtherProfile(declared)) => {
            !declared.is_main() || declared.has_fields() || declared.cabac == Some(true)
        }
        _ => false,
    }
}

/// Adds the profiles that are judged (A.2). The other target stands there where it may judge the stream.
fn put_profiles(page: &mut Page, finding: &Finding) {
    page.put("profile_idc 66; or 77 or 88 with constraint_set0_flag 1");
    if !suits_no_target(finding) {
        page.put("; the target main-ip takes 77 with any flags");
    }
}

/// Adds the address of the macroblock that comes next (7.4.3).
fn put_first(page: &mut Page, survey: &Survey) {
    page.number(survey.coded);
    page.put(", the address after the last macroblock of the picture; 0 where a picture begins");
}

/// Adds how many macroblocks a picture has, and how many came (7.4.1).
fn put_complete(page: &mut Page, survey: &Survey) {
    if let Some(set) = survey.sequence() {
        page.number(set.width.saturating_mul(set.height));
        page.put(" macroblocks a picture; ");
        page.number(survey.coded);
        page.put(" came");
    }
}

/// What a rule allows, where the rule alone says it.
fn fixed_text(rule: Rule) -> &'static str {
    match rule {
        Rule::IdrPicId => "another idr_pic_id than that of the IDR picture before",
        Rule::SliceType =>
            "I in an IDR picture and where no reference frame is held; after slice_type 5 or 7 that type in all slices of the picture",
        Rule::Crop => "cropping that leaves at least two samples in each direction",
        Rule::NoSet => "the id of a set that stands before the slice",
        Rule::CodeWord => "a word of the element's code, within the unit",
        Rule::ResidualWord => "a word of the element's code, within the unit",
        Rule::BlockSize => "as many coefficients and zeros as the block has places",
        Rule::NoReference => "an index of a picture that the reference list holds",
        Rule::IntraMode => "a mode whose neighbouring samples are available",
        Rule::TransformRange => "values of the transform that fit 16 bits with their sign",
        Rule::FirstPicture => "a slice of an IDR picture: nal_unit_type 5",
        Rule::SetChanged => "the sequence parameter set of the last IDR picture, unchanged",
        Rule::MarkDiffers => "the marking elements of the picture's first slice",
        _ => "",
    }
}

/// Adds what a rule allows where it was broken; nothing where the rule says it better.
pub fn put_allowed(page: &mut Page, rule: Rule, survey: &Survey, finding: &Finding) {
    match rule {
        Rule::Profile => put_profiles(page, finding),
        Rule::FrameNum => put_frame_num(page, survey),
        Rule::VectorRange => put_vector_range(page, survey),
        Rule::FrameSize => put_frame_size(page, survey),
        Rule::Qp => put_qp(page, survey),
        Rule::Range => put_range(page, finding),
        Rule::Tool => put_tool_range(page, finding),
        Rule::Vui => put_buffering(page, survey),
        Rule::FirstMb => put_first(page, survey),
        Rule::Incomplete => put_complete(page, survey),
        _ => page.put(fixed_text(rule)),
    }
}
