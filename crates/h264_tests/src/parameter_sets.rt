//! Parameter sets of pictures of one macroblock.
#![tactic(auto)]

ghost use Rattle.std.specs.Prelude.{◌≡◌, ◌≤◌, true};
ghost use Rattle.h264_sps.specs.Usable.{has_count_lengths, is_accepted};

use h264_pps::Pps;
use h264_sps::count_type::CountType;
use h264_sps::sps::{ConstraintSetFlags, FrameSize, Sps};

/// A way to count, with no more bits than a set may give.
fn counted(count_type: CountType) -> CountType
    ensures { has_count_lengths result ≡ true }
{
    match count_type {
        CountType::Lsb {
            log2_max_pic_order_cnt_lsb,
        } => CountType::Lsb {
            log2_max_pic_order_cnt_lsb: log2_max_pic_order_cnt_lsb.min(16),
        },
        CountType::Cycle { .. } => count_type,
        CountType::DecodingOrder => count_type,
    }
}

/// A sequence parameter set of level 1 with a frame of one macroblock and frame_num of 4 bits.
pub fn sps(seq_parameter_set_id: u32, max_num_ref_frames: u32, count_type: CountType) -> Sps
    requires { max_num_ref_frames ≤ 16 }
    ensures id { result.seq_parameter_set_id ≡ seq_parameter_set_id }
    ensures accepted { is_accepted result ≡ true }
{
    Sps {
        profile_idc: 66,
        constraint_set_flags: ConstraintSetFlags {
            set0: true,
            set1: true,
            set2: false,
            set3: false,
            set4: false,
            set5: false,
        },
        reserved_zero_2bits: 0,
        level_idc: 10,
        seq_parameter_set_id,
        log2_max_frame_num: 4,
        count_type: counted(count_type),
        max_num_ref_frames,
        gaps_in_frame_num_value_allowed_flag: false,
        frame_size: FrameSize {
            width: 1,
            height: 1,
        },
        direct_8x8_inference_flag: false,
        frame_cropping: None,
        vui: None,
    }
}

/// A picture parameter set without what is optional.
pub fn pps(pic_parameter_set_id: u32, seq_parameter_set_id: u32) -> Pps
    ensures id { result.pic_parameter_set_id ≡ pic_parameter_set_id }
    ensures names { result.seq_parameter_set_id ≡ seq_parameter_set_id }
{
    Pps {
        pic_parameter_set_id,
        seq_parameter_set_id,
        bottom_field_pic_order_in_frame_present_flag: false,
        num_ref_idx_l0_default_active_minus1: 0,
        num_ref_idx_l1_default_active_minus1: 0,
        weighted_pred_flag: false,
        weighted_bipred_idc: 0,
        pic_init_qp_minus26: 0,
        pic_init_qs_minus26: 0,
        chroma_qp_index_offset: 0,
        deblocking_filter_control_present_flag: false,
        constrained_intra_pred_flag: false,
    }
}
