//! What the parameter sets say of the elements of a slice header.
#![tactic(auto)]

ghost use Rattle.std.specs.Prelude.{◌≡◌, ◌≤◌, IfSome, IfNone, Some, None, true};
ghost use Rattle.h264_header.specs.Layout.{sets_of, layout_of, count_elements_of};
ghost use Rattle.h264_sps.specs.Usable.{has_lengths, is_usable};

use h264_pps::Pps;
use h264_sets::Sets;
use h264_sps::count_type::CountType;
use h264_sps::sps::Sps;

/// Which elements of the picture order count stand in a header.
#[derive(Clone, Copy)]
pub(crate) enum CountElements {
    /// pic_order_cnt_lsb, of this many bits.
    Lsb { length: u32 },
    /// delta_pic_order_cnt.
    Deltas,
    /// None, and delta_pic_order_cnt is 0.
    ZeroDeltas,
    /// None.
    DecodingOrder,
}

/// What a header's elements depend on.
#[derive(Clone, Copy)]
pub(crate) struct Layout {
    /// log2 of MaxFrameNum: 4 to 16 bits.
    pub(crate) frame_num_length: u32,
    pub(crate) count: CountElements,
    /// bottom_field_pic_order_in_frame_present_flag.
    pub(crate) has_bottom: bool,
    /// num_ref_idx_l0_default_active_minus1.
    pub(crate) default_active_minus1: u32,
    /// weighted_pred_flag.
    pub(crate) has_weights: bool,
    /// deblocking_filter_control_present_flag.
    pub(crate) has_deblocking_control: bool,
}

/// The elements of a way to count.
fn count_elements(count_type: &CountType) -> CountElements
    ensures { result ≡ count_elements_of count_type.now }
{
    match count_type {
        CountType::Lsb {
            log2_max_pic_order_cnt_lsb,
        } => CountElements::Lsb {
            length: *log2_max_pic_order_cnt_lsb,
        },
        CountType::Cycle {
            delta_pic_order_always_zero_flag,
            ..
        } => {
            if *delta_pic_order_always_zero_flag {
                CountElements::ZeroDeltas
            } else {
                CountElements::Deltas
            }
        }
        CountType::DecodingOrder => CountElements::DecodingOrder,
    }
}

/// What a picture parameter set and its sequence parameter set say.
pub(crate) fn layout_of(pps: &Pps, sps: &Sps) -> Layout
    ensures { result ≡ layout_of (pps.now, sps.now) }
{
    Layout {
        frame_num_length: sps.log2_max_frame_num,
        count: count_elements(&sps.count_type),
        has_bottom: pps.bottom_field_pic_order_in_frame_present_flag,
        default_active_minus1: pps.num_ref_idx_l0_default_active_minus1,
        has_weights: pps.weighted_pred_flag,
        has_deblocking_control: pps.deblocking_filter_control_present_flag,
    }
}

/// The picture parameter set of this pic_parameter_set_id and the sequence parameter set that it names, if both are there.
pub fn named_sets<'a>(sets: &'a Sets, pic_parameter_set_id: u32) -> Option<(&'a Pps, &'a Sps)>
    requires { pic_parameter_set_id ≤ 255 }
    ensures some { IfSome result (λ named. sets_of sets.now pic_parameter_set_id ≡ Some (named.0.now, named.1.now)) }
    ensures none { IfNone result (sets_of sets.now pic_parameter_set_id ≡ None) }
    ensures lengths { IfSome result (λ named. has_lengths named.1.now ≡ true) }
    ensures usable { IfSome result (λ named. is_usable named.1.now ≡ true) }
{
    let pps = sets.pps(pic_parameter_set_id)?;
    let sps = sets.sps(pps.seq_parameter_set_id)?;
    Some((pps, sps))
}
