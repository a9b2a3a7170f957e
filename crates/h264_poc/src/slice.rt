//! A picture as its counts see it, by the header of its first slice (8.2.1).
#![tactic(auto)]

ghost use Rattle.std.specs.Prelude.{◌≡◌, true};
ghost use Rattle.h264_sps.specs.Usable.{has_lengths, has_count_lengths};
ghost use Rattle.h264_poc.specs.OfSlice.{order_of, picture_of};

use crate::picture::{Cycle, Order, Picture};
use h264_header::{Header, PicOrderCnt};
use h264_marking::resets;
use h264_sps::count_type::CountType;
use h264_sps::sps::Sps;

/// What the picture order count of a slice's picture comes from.
fn order_of(count_type: &CountType, elements: PicOrderCnt) -> Order<'_>
    requires { has_count_lengths count_type.now ≡ true }
    ensures { result ≡ order_of count_type.now elements }
{
    match (count_type, elements) {
        (
            CountType::Lsb {
                log2_max_pic_order_cnt_lsb,
            },
            PicOrderCnt::Lsb {
                pic_order_cnt_lsb,
                delta_pic_order_cnt_bottom,
            },
        ) => Order::Lsb {
            max_pic_order_cnt_lsb: 1 << *log2_max_pic_order_cnt_lsb,
            pic_order_cnt_lsb,
            delta_pic_order_cnt_bottom,
        },
        (
            CountType::Cycle {
                offset_for_non_ref_pic,
                offset_for_top_to_bottom_field,
                cycle,
                ..
            },
            PicOrderCnt::Deltas { top, bottom },
        ) => Order::Cycle {
            offset_for_non_ref_pic: *offset_for_non_ref_pic,
            offset_for_top_to_bottom_field: *offset_for_top_to_bottom_field,
            cycle: Cycle::new(&cycle.offset_for_ref_frame, cycle.length),
            delta_top: top,
            delta_bottom: bottom,
        },
        _ => Order::DecodingOrder,
    }
}

/// The picture that a slice begins.
pub fn picture_of<'a>(sps: &'a Sps, header: &Header) -> Picture<'a>
    requires { has_lengths sps.now ≡ true }
    ensures { result ≡ picture_of sps.now header.now }
{
    Picture {
        idr: header.idr_pic_id.is_some(),
        reference: header.nal_ref_idc != 0,
        resets: resets(&header.marking),
        frame_num: header.frame_num.value,
        max_frame_num: 1 << sps.log2_max_frame_num,
        order: order_of(&sps.count_type, header.pic_order_cnt),
    }
}
