//! What a picture's counts depend on.
#![tactic(auto)]

use std::marker::Model;

/// The offsets of a cycle of reference frames: offset_for_ref_frame for each of num_ref_frames_in_pic_order_cnt_cycle.
#[derive(Drop)]
pub struct Cycle<'a> {
    offsets: &'a [i32],
}

impl<'a> Model for Cycle<'a> {
    ghost use Rattle.std.specs.Prelude.{List, ℤ, length, ◌≤◌};

    ghost Value = { List ℤ };

    ghost view = { λ c. c.offsets.now };

    ghost invariant = { λ c. length c.offsets.now ≤ 255 };
}

impl<'a> Cycle<'a> {
    ghost use Rattle.std.specs.Prelude.{◌≡◌, ◌≤◌, length, take};

    /// The first `length` of these offsets, or all where there are no more.
    pub fn new(offset_for_ref_frame: &'a [i32; 255], length: u32) -> Cycle<'a>
        ensures { result ≡ take length offset_for_ref_frame.now }
    {
        Cycle {
            offsets: &offset_for_ref_frame[..(length as usize).min(255)],
        }
    }

    /// The offsets, at most 255.
    pub fn offsets(&self) -> &'a [i32]
        ensures value { result.now ≡ self.now }
        ensures short { length self.now ≤ 255 }
    {
        self.offsets
    }
}

/// pic_order_cnt_type, with what goes with it in the sequence parameter set and in the slice headers.
#[derive(Drop)]
pub enum Order<'a> {
    /// Type 0.
    Lsb {
        /// MaxPicOrderCntLsb.
        max_pic_order_cnt_lsb: u32,
        pic_order_cnt_lsb: u32,
        /// 0 where it is not there.
        delta_pic_order_cnt_bottom: i32,
    },
    /// Type 1.
    Cycle {
        offset_for_non_ref_pic: i32,
        offset_for_top_to_bottom_field: i32,
        cycle: Cycle<'a>,
        /// delta_pic_order_cnt[0], 0 where it is not there.
        delta_top: i32,
        /// delta_pic_order_cnt[1], 0 where it is not there.
        delta_bottom: i32,
    },
    /// Type 2.
    DecodingOrder,
}

/// A picture, as counting sees it.
#[derive(Drop)]
pub struct Picture<'a> {
    /// IdrPicFlag.
    pub idr: bool,
    /// nal_ref_idc is not 0.
    pub reference: bool,
    /// Its marking has memory_management_control_operation 5.
    pub resets: bool,
    pub frame_num: u32,
    /// MaxFrameNum.
    pub max_frame_num: u32,
    pub order: Order<'a>,
}

/// TopFieldOrderCnt and BottomFieldOrderCnt of a frame, before operation 5 resets them.
#[derive(Clone, Copy, Debug, PartialEq, Eq)]
pub struct Count {
    pub top: i32,
    pub bottom: i32,
}
