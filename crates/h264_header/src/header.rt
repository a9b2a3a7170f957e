//! What a slice header holds.
#![tactic(auto)]

use arrayvec::ArrayVec;
use h264_base::{SliceType, Weight, Weights};
use h264_bits::Found;

/// What the header of a unit says of the slice in it.
#[derive(Clone, Copy)]
pub struct SliceUnit {
    /// IdrPicFlag: nal_unit_type is 5, and not 1.
    pub idr_pic_flag: bool,
    /// 0 to 3; 0 where the picture is no reference.
    pub nal_ref_idc: u32,
}

/// The elements of the picture order count, by pic_order_cnt_type. A delta that is not there is 0.
#[derive(Clone, Copy)]
pub enum PicOrderCnt {
    /// Type 0.
    Lsb {
        /// Below MaxPicOrderCntLsb.
        pic_order_cnt_lsb: u32,
        delta_pic_order_cnt_bottom: i32,
    },
    /// Type 1: delta_pic_order_cnt[0] and delta_pic_order_cnt[1].
    Deltas {
        top: i32,
        bottom: i32,
    },
    /// Type 2, which has none.
    DecodingOrder,
}

/// A command that changes the reference picture list: modification_of_pic_nums_idc with its operand (7.4.3.1).
#[derive(Clone, Copy)]
pub enum Modification {
    /// 0.
    Subtract {
        /// Below MaxFrameNum.
        abs_diff_pic_num_minus1: u32,
    },
    /// 1.
    Add {
        /// Below MaxFrameNum.
        abs_diff_pic_num_minus1: u32,
    },
    /// 2.
    LongTerm {
        long_term_pic_num: u32,
    },
}

/// A modification, and where it stands.
#[derive(Clone, Copy)]
pub struct PicNumModification {
    /// The stream bit of modification_of_pic_nums_idc.
    pub bit: u64,
    pub modification: Modification,
}

/// What an unused place of a list of modifications holds.
impl Default for PicNumModification {
    ghost use Rattle.std.specs.Prelude.{◌≡◌};
    ghost use Rattle.h264_header.specs.declared.header.Modification.TheVariants.{LongTerm};

    ghost is_default = { λ m. m ≡ record { bit = 0; modification = LongTerm 0 } };

    fn default() -> Self {
        PicNumModification {
            bit: 0,
            modification: Modification::LongTerm {
                long_term_pic_num: 0,
            },
        }
    }
}

/// The weights of a reference index, as a table of weights keeps them.
#[derive(Clone, Copy)]
pub struct IndexWeights {
    pub weights: Weights,
}

/// What an unused place of a table of weights holds for a plane.
const UNUSED_WEIGHT: Weight = Weight {
    log2_weight_denom: 0,
    weight: 1,
    offset: 0,
};

/// What an unused place of a table of weights holds.
impl Default for IndexWeights {
    ghost use Rattle.std.specs.Prelude.{◌≡◌};
    ghost use Rattle.h264_header.specs.PredWeightTable.{inferred_weight};

    ghost is_default = { λ e. e ≡ record { weights = record { luma = inferred_weight 0; cb = inferred_weight 0; cr = inferred_weight 0 } } };

    fn default() -> Self {
        IndexWeights {
            weights: Weights {
                luma: UNUSED_WEIGHT,
                cb: UNUSED_WEIGHT,
                cr: UNUSED_WEIGHT,
            },
        }
    }
}

/// The weights of each reference index of a P slice, from index 0 on (7.3.3.2); those that the header does not have are inferred (7.4.3.2).
#[derive(Drop)]
pub struct PredWeightTable {
    /// As many as the slice's list has active places, 1 to 16.
    pub entries: ArrayVec<IndexWeights, 16>,
}

/// What a P slice says of its reference picture list, and of prediction from the pictures in it.
#[derive(Drop)]
pub struct RefPicList0 {
    /// num_ref_idx_l0_active_minus1 + 1, the slice's own or the picture parameter set's: 1 to 16 places.
    pub num_ref_idx_l0_active: u32,
    /// At most as many as there are places.
    pub modifications: ArrayVec<PicNumModification, 16>,
    /// The weights of each place; there where weighted_pred_flag is 1.
    pub pred_weight_table: Option<PredWeightTable>,
}

/// The type of a slice, with what only slices of that type have (7.4.3).
#[derive(Drop)]
pub enum SliceKind {
    P(RefPicList0),
    I,
}

impl SliceKind {
    ghost use Rattle.std.specs.Prelude.{◌≡◌};
    ghost use Rattle.h264_header.specs.Header.{slice_type_of};

    /// The type alone (7.4.3).
    pub fn slice_type(&self) -> SliceType
        ensures { result ≡ slice_type_of self.now }
    {
        match self {
            SliceKind::I => SliceType::I,
            SliceKind::P(_) => SliceType::P,
        }
    }
}

/// memory_management_control_operation with its operands (7.4.3.3).
#[derive(Clone, Copy, Default, PartialEq, Eq)]
pub enum Operation {
    /// 1: a short-term picture becomes unused.
    UnmarkShortTerm {
        difference_of_pic_nums_minus1: u32,
    },
    /// 2: a long-term picture becomes unused.
    UnmarkLongTerm {
        long_term_pic_num: u32,
    },
    /// 3: a short-term picture becomes a long-term one.
    MakeLongTerm {
        difference_of_pic_nums_minus1: u32,
        long_term_frame_idx: u32,
    },
    /// 4: there are long-term indices up to this number, less 1.
    LimitLongTerm {
        max_long_term_frame_idx_plus1: u32,
    },
    /// 5: all pictures become unused.
    #[default]
    UnmarkAll,
    /// 6: the current picture becomes a long-term one.
    MakeCurrentLongTerm {
        long_term_frame_idx: u32,
    },
}

/// A marking operation, and where it stands.
#[derive(Clone, Copy, Default, PartialEq, Eq)]
pub struct MarkingOperation {
    /// The stream bit of memory_management_control_operation.
    pub bit: u64,
    pub operation: Operation,
}

/// dec_ref_pic_marking() (7.3.3.3).
#[derive(PartialEq, Eq, Drop)]
pub enum Marking {
    /// Of an IDR picture.
    Idr {
        no_output_of_prior_pics_flag: bool,
        long_term_reference_flag: bool,
    },
    /// adaptive_ref_pic_marking_mode_flag is 0.
    SlidingWindow,
    /// adaptive_ref_pic_marking_mode_flag is 1: operations in order, of which 4, 5 and 6 come at most once each.
    Adaptive(ArrayVec<MarkingOperation, 36>),
}

/// The offsets of the deblocking filter's tables, halved (7.4.3).
#[derive(Clone, Copy)]
pub struct FilterOffsets {
    /// -6 to 6.
    pub slice_alpha_c0_offset_div2: i32,
    /// -6 to 6.
    pub slice_beta_offset_div2: i32,
}

/// disable_deblocking_filter_idc, with the offsets (7.4.3).
#[derive(Clone, Copy)]
pub enum Deblocking {
    /// 0, also where it is not there: all edges are filtered.
    AllEdges(FilterOffsets),
    /// 1: none is.
    Off,
    /// 2: those between slices are not.
    WithinSlice(FilterOffsets),
}

/// The elements of a slice header by which a picture begins with a slice, or not (7.4.1.2.4).
#[derive(Clone, Copy)]
pub struct PictureElements {
    /// 0 to 3, of the slice's unit.
    pub nal_ref_idc: u32,
    /// 0 to 255.
    pub pic_parameter_set_id: u32,
    /// Below MaxFrameNum.
    pub frame_num: u32,
    /// There exactly in IDR pictures.
    pub idr_pic_id: Option<Found<u32>>,
    pub pic_order_cnt: PicOrderCnt,
}

/// A slice header.
#[derive(Drop)]
pub struct Header {
    /// nal_ref_idc of the slice's unit.
    pub nal_ref_idc: u32,
    pub first_mb_in_slice: Found<u32>,
    /// The bit is that of slice_type.
    pub kind: Found<SliceKind>,
    /// slice_type is 5 or 7: all slices of the picture have the type.
    pub same_type_in_picture: bool,
    /// 0 to 255.
    pub pic_parameter_set_id: Found<u32>,
    /// Below MaxFrameNum.
    pub frame_num: Found<u32>,
    /// 0 to 65535; there exactly in IDR pictures.
    pub idr_pic_id: Option<Found<u32>>,
    pub pic_order_cnt: PicOrderCnt,
    /// There where nal_ref_idc is not 0. The bit is that of the first marking element: of an IDR picture
    /// no_output_of_prior_pics_flag, else adaptive_ref_pic_marking_mode_flag.
    pub marking: Option<Found<Marking>>,
    pub slice_qp_delta: Found<i32>,
    pub deblocking: Deblocking,
}

impl Header {
    ghost use Rattle.std.specs.Prelude.{◌≡◌};
    ghost use Rattle.h264_header.specs.Header.{unread_header};

    /// A place for a header, before one is read into it: no element is there, and every number is 0.
    pub fn unread() -> Header
        ensures { result ≡ unread_header }
    {
        let nothing = Found { bit: 0, value: 0 };
        Header {
            nal_ref_idc: 0,
            first_mb_in_slice: nothing,
            kind: Found {
                bit: 0,
                value: SliceKind::I,
            },
            same_type_in_picture: false,
            pic_parameter_set_id: nothing,
            frame_num: nothing,
            idr_pic_id: None,
            pic_order_cnt: PicOrderCnt::DecodingOrder,
            marking: None,
            slice_qp_delta: Found { bit: 0, value: 0 },
            deblocking: Deblocking::Off,
        }
    }
}
