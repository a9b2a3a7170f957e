//! Reference frames, and their marking, with MaxFrameNum 16.
#![tactic(auto)]

use arrayvec::ArrayVec;
use h264_base::Stop;
use h264_bits::Found;
use h264_header::{Marking, MarkingOperation, Operation};
use h264_marking::{Held, Numbering, ReferenceFrame, Term};

/// The bit of each marking.
pub const MARKING: u64 = 50;

/// The bit of its first operation; the others follow by one.
pub const FIRST: u64 = 60;

/// A frame of a table, by the frame_num of its picture; the picture's number is 100 more.
#[derive(Clone, Copy)]
pub enum Frame {
    Short(u32),
    /// With LongTermFrameIdx.
    Long(u32, u32),
    /// Of a gap, without a picture.
    Missing(u32),
    /// A short-term frame that has FrameNum 0 since operation 5.
    Reset(u32),
    /// Such a frame with LongTermFrameIdx.
    ResetLong(u32, u32),
}

use Frame::{Long, Missing, Reset, ResetLong, Short};

/// A marking operation of a table, with its operands.
#[derive(Clone, Copy)]
pub enum Op {
    UnmarkShort(u32),
    UnmarkLong(u32),
    MakeLong(u32, u32),
    Limit(u32),
    UnmarkAll,
    MakeCurrentLong(u32),
}

use Op::{Limit, MakeCurrentLong, MakeLong, UnmarkAll, UnmarkLong, UnmarkShort};

pub fn at(frame_num: u32, max_num_ref_frames: u32) -> Numbering {
    Numbering {
        frame_num,
        max_frame_num: 16,
        max_num_ref_frames,
    }
}

/// The number of the picture with this frame_num.
fn picture(frame_num: u32) -> u64 {
    frame_num as u64 + 100
}

fn held_frame(picture: Option<u64>, frame_num: u32, term: Term) -> ReferenceFrame {
    ReferenceFrame {
        picture,
        frame_num,
        term,
    }
}

fn long_term(long_term_frame_idx: u32) -> Term {
    Term::Long {
        long_term_frame_idx,
    }
}

pub fn frame_of(frame: Frame) -> ReferenceFrame {
    match frame {
        Short(n) => held_frame(Some(picture(n)), n, Term::Short),
        Long(n, index) => held_frame(Some(picture(n)), n, long_term(index)),
        Missing(n) => held_frame(None, n, Term::Short),
        Reset(n) => held_frame(Some(picture(n)), 0, Term::Short),
        ResetLong(n, index) => held_frame(Some(picture(n)), 0, long_term(index)),
    }
}

fn operation_of(op: Op) -> Operation {
    match op {
        UnmarkShort(difference_of_pic_nums_minus1) => Operation::UnmarkShortTerm {
            difference_of_pic_nums_minus1,
        },
        UnmarkLong(long_term_pic_num) => Operation::UnmarkLongTerm { long_term_pic_num },
        MakeLong(difference_of_pic_nums_minus1, long_term_frame_idx) => Operation::MakeLongTerm {
            difference_of_pic_nums_minus1,
            long_term_frame_idx,
        },
        Limit(max_long_term_frame_idx_plus1) => Operation::LimitLongTerm {
            max_long_term_frame_idx_plus1,
        },
        UnmarkAll => Operation::UnmarkAll,
        MakeCurrentLong(long_term_frame_idx) => Operation::MakeCurrentLongTerm {
            long_term_frame_idx,
        },
    }
}

fn mark(held: &mut Held, current: Numbering, value: Marking) -> Result<(), Stop> {
    let marking = Found {
        bit: MARKING,
        value,
    };
    held.mark(&current, picture(current.frame_num), &marking)
}

pub fn slide(held: &mut Held, current: Numbering) -> Result<(), Stop> {
    mark(held, current, Marking::SlidingWindow)
}

pub fn idr(held: &mut Held, max_num_ref_frames: u32, long_term: bool) -> Result<(), Stop> {
    let value = Marking::Idr {
        no_output_of_prior_pics_flag: false,
        long_term_reference_flag: long_term,
    };
    mark(held, at(0, max_num_ref_frames), value)
}

pub fn operate(held: &mut Held, current: Numbering, ops: &[Op]) -> Result<(), Stop> {
    let mut marking = ArrayVec::new();
    let mut bit = FIRST;
    for op in ops {
        let _full = marking.try_push(MarkingOperation {
            bit,
            operation: operation_of(*op),
        });
        bit = bit.saturating_add(1);
    }
    mark(held, current, Marking::Adaptive(marking))
}

/// An IDR picture, and the sliding window up to this picture.
pub fn begin(held: &mut Held, current: Numbering) -> Result<(), Stop> {
    let places = current.max_num_ref_frames;
    *held = Held::new();
    idr(held, places, false)?;
    for next in 1..=current.frame_num {
        slide(held, at(next, places))?;
    }
    Ok(())
}
