//! How pictures are counted (7.3.2.1.1, 8.2.1).
#![tactic(auto)]

ghost use Rattle.std.specs.Prelude.{◌≡◌, ℕ, ◌+◌, ◌-◌, ◌<◌, ◌≤◌, ◌^◌, []};
ghost use Rattle.h264_base.specs.Call.{HasRoom, span};
ghost use Rattle.h264_base.specs.Meets.{Meets, Is};
ghost use Rattle.h264_base.specs.declared.element_name.ElementName.TheVariants.{OffsetForRefFrame};
ghost use Rattle.h264_bits.specs.Forms.{signed, repeated};
ghost use Rattle.h264_sps.specs.Counting.{cycle_of, lsb_type, cycle_type, counting};

use h264_base::{ElementName, Elements, Stop};
use h264_bits::Bits;
use h264_bits::forms::{flag_value, se_value, ue_up_to};

/// The offsets of a cycle of reference frames: `length` of them, and 0 after them.
#[derive(Clone, Copy, PartialEq)]
pub struct Cycle {
    pub offset_for_ref_frame: [i32; 255],
    pub length: u32,
}

/// pic_order_cnt_type, with the elements that go with it.
#[derive(Clone, Copy, PartialEq)]
pub enum CountType {
    /// Type 0: counts come from pic_order_cnt_lsb.
    Lsb {
        /// log2 of MaxPicOrderCntLsb: 4 to 16.
        log2_max_pic_order_cnt_lsb: u32,
    },
    /// Type 1: counts come from frame_num and a cycle of offsets.
    Cycle {
        delta_pic_order_always_zero_flag: bool,
        offset_for_non_ref_pic: i32,
        offset_for_top_to_bottom_field: i32,
        cycle: Cycle,
    },
    /// Type 2: counts follow the decoding order.
    DecodingOrder,
}

/// The offsets of a cycle of this length.
fn read_cycle<S: Elements>(length: u32, bits: &mut Bits, sink: &mut S) -> Result<Cycle, Stop>
    requires few { length ≤ 255 }
    requires room { HasRoom S.failures sink.old }
    ensures { Meets (span S.took S.failures sink.old sink.new) (λ x l. x ≡ cycle_of l) (repeated (signed OffsetForRefFrame) [] length)
        bits.old bits.new result }
{
    let mut offset_for_ref_frame = [0i32; 255];
    for i in 0..length as usize {
        let offset = se_value(bits, ElementName::OffsetForRefFrame, sink)?;
        offset_for_ref_frame[i] = offset;
    }
    Ok(Cycle {
        offset_for_ref_frame,
        length,
    })
}

/// The elements of type 0.
fn read_lsb_type<S: Elements>(bits: &mut Bits, sink: &mut S) -> Result<CountType, Stop>
    requires { HasRoom S.failures sink.old }
    ensures { Meets (span S.took S.failures sink.old sink.new) (Is (λ x. x)) lsb_type bits.old bits.new result }
{
    let log2_minus4 = ue_up_to(bits, ElementName::Log2MaxPicOrderCntLsbMinus4, 12, sink)?;
    Ok(CountType::Lsb {
        log2_max_pic_order_cnt_lsb: log2_minus4 + 4,
    })
}

/// The elements of type 1.
fn read_cycle_type<S: Elements>(bits: &mut Bits, sink: &mut S) -> Result<CountType, Stop>
    requires { HasRoom S.failures sink.old }
    ensures { Meets (span S.took S.failures sink.old sink.new) (Is (λ x. x)) cycle_type bits.old bits.new result }
{
    let always_zero = flag_value(bits, ElementName::DeltaPicOrderAlwaysZeroFlag, sink)?;
    let non_ref = se_value(bits, ElementName::OffsetForNonRefPic, sink)?;
    let bottom = se_value(bits, ElementName::OffsetForTopToBottomField, sink)?;
    let count = ue_up_to(bits, ElementName::NumRefFramesInPicOrderCntCycle, 255, sink)?;
    let cycle = read_cycle(count, bits, sink)?;
    Ok(CountType::Cycle {
        delta_pic_order_always_zero_flag: always_zero,
        offset_for_non_ref_pic: non_ref,
        offset_for_top_to_bottom_field: bottom,
        cycle,
    })
}

/// pic_order_cnt_type, and what goes with it.
pub(crate) fn read_count_type<S: Elements>(bits: &mut Bits, sink: &mut S) -> Result<CountType, Stop>
    requires { HasRoom S.failures sink.old }
    ensures { Meets (span S.took S.failures sink.old sink.new) (Is (λ x. x)) counting bits.old bits.new result }
{
    let kind = ue_up_to(bits, ElementName::PicOrderCntType, 2, sink)?;
    match kind {
        0 => read_lsb_type(bits, sink),
        1 => read_cycle_type(bits, sink),
        _ => Ok(CountType::DecodingOrder),
    }
}
