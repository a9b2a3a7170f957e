//! What no clause says: markings worked by hand from 8.2.5, with MaxFrameNum 16.
#![tactic(auto)]

use crate::references::Frame::{Long, Missing, Reset, ResetLong, Short};
use crate::references::Op::{Limit, MakeCurrentLong, MakeLong, UnmarkAll, UnmarkLong, UnmarkShort};
use crate::references::{FIRST, Frame, MARKING, Op, at, begin, frame_of, idr, operate, slide};
use arrayvec::ArrayVec;
use h264_base::{Rule, Stop};
use h264_marking::{Held, Numbering, ReferenceFrame, laws};
use std::process::Abort;

/// The bit of a gap.
const GAP: u64 = 7;

/// What is done to the frames that are held.
#[derive(Clone, Copy)]
enum Step {
    /// From nothing, an IDR picture and the sliding window up to this frame_num.
    Begin,
    /// From nothing, an IDR picture whose frame is a long-term one.
    BeginLong,
    /// From nothing, frames 0 and 1 with the indices 0 and 1, and frame 2; there are three indices.
    TwoLong,
    Idr,
    IdrLong,
    Slide,
    Fill,
    /// So many numbers after this frame_num, where the frames of numbers up to it take all places.
    Skip(u32),
    Operate(&'static [Op]),
}

use Step::{Begin, BeginLong, Fill, Idr, IdrLong, Operate, Skip, Slide, TwoLong};

/// A step with frame_num and max_num_ref_frames, its answer, and the frames that are held then.
type Row = (Step, u32, u32, Result<(), Stop>, &'static [Frame]);

const DONE: Result<(), Stop> = Ok(());

/// The first operation is refused, and nothing changes.
const FIRST_REFUSED: Result<(), Stop> = Err(Stop::No {
    bit: FIRST,
    rule: Rule::MarkCommand,
});

/// The second one is.
const SECOND_REFUSED: Result<(), Stop> = Err(Stop::No {
    bit: FIRST + 1,
    rule: Rule::MarkCommand,
});

/// The marking is refused as a whole.
const ALL_REFUSED: Result<(), Stop> = Err(Stop::No {
    bit: MARKING,
    rule: Rule::MarkCommand,
});

const UNFILLED: Result<(), Stop> = Err(Stop::No {
    bit: GAP,
    rule: Rule::FrameNum,
});

fn frames_of(frames: &[Frame]) -> ArrayVec<ReferenceFrame, 16> {
    let mut all = ArrayVec::new();
    for frame in frames {
        let _full = all.try_push(frame_of(*frame));
    }
    all
}

fn two_long(held: &mut Held) -> Result<(), Stop> {
    begin(held, at(1, 4))?;
    operate(held, at(2, 4), &[Limit(3), MakeLong(1, 0), MakeLong(0, 1)])
}

fn skip(held: &mut Held, current: Numbering, count: u32) -> Result<(), Stop> {
    if current.max_frame_num == 0 || !held.is_steady(&current, current.frame_num) {
        return UNFILLED;
    }
    held.skip(&current, current.frame_num, count);
    Ok(())
}

fn take(held: &mut Held, step: Step, current: Numbering) -> Result<(), Stop> {
    match step {
        Begin => begin(held, current),
        BeginLong => {
            *held = Held::new();
            idr(held, current.max_num_ref_frames, true)
        }
        TwoLong => two_long(held),
        Idr => idr(held, current.max_num_ref_frames, false),
        IdrLong => idr(held, current.max_num_ref_frames, true),
        Slide => slide(held, current),
        Fill => held.fill_gap(&current, GAP),
        Skip(count) => skip(held, current, count),
        Operate(ops) => operate(held, current, ops),
    }
}

/// Takes the steps, one after another.
fn rows_hold(rt: &impl Abort, rows: &[Row]) {
    let mut held = Held::new();
    for (i, (step, frame_num, places, answer, frames)) in rows.iter().enumerate() {
        let found = take(&mut held, *step, at(*frame_num, *places));
        assert_eq!(rt; found, *answer, "row {i}");
        assert_eq!(rt; held.frames(), frames_of(frames).as_slice(), "row {i}");
    }
}

/// An IDR picture's frame alone is held: a short-term one, or one with index 0, which is then the only index.
const IDR_PICTURES: [Row; 6] = [
    (Begin, 3, 4, DONE, &[Short(0), Short(1), Short(2), Short(3)]),
    (IdrLong, 0, 4, DONE, &[Long(0, 0)]),
    (
        Operate(&[MakeCurrentLong(1)]),
        1,
        4,
        FIRST_REFUSED,
        &[Long(0, 0)],
    ),
    (TwoLong, 2, 4, DONE, &[Long(0, 0), Long(1, 1), Short(2)]),
    (Idr, 0, 4, DONE, &[Short(0)]),
    (
        Operate(&[MakeCurrentLong(0)]),
        1,
        4,
        FIRST_REFUSED,
        &[Short(0)],
    ),
];

const WINDOW: [Row; 9] = [
    (Begin, 2, 3, DONE, &[Short(0), Short(1), Short(2)]),
    // The least FrameNumWrap goes: at frame_num 1 those of 14, 15 and 0 are -2, -1 and 0.
    (Begin, 15, 3, DONE, &[Short(13), Short(14), Short(15)]),
    (Slide, 0, 3, DONE, &[Short(14), Short(15), Short(0)]),
    (Slide, 1, 3, DONE, &[Short(15), Short(0), Short(1)]),
    // max_num_ref_frames 0 leaves one place, and long-term frames do not slide.
    (Begin, 1, 0, DONE, &[Short(1)]),
    (BeginLong, 0, 1, DONE, &[Long(0, 0)]),
    (Slide, 1, 1, ALL_REFUSED, &[Long(0, 0)]),
    // Where more frames are held than there are places, one that goes does not make room.
    (Begin, 3, 4, DONE, &[Short(0), Short(1), Short(2), Short(3)]),
    (
        Slide,
        4,
        2,
        ALL_REFUSED,
        &[Short(0), Short(1), Short(2), Short(3)],
    ),
];

const GAPS: [Row; 13] = [
    // The frames of missing numbers join by the window, also where frame_num wraps.
    (Begin, 2, 4, DONE, &[Short(0), Short(1), Short(2)]),
    (
        Fill,
        3,
        4,
        DONE,
        &[Short(0), Short(1), Short(2), Missing(3)],
    ),
    (
        Fill,
        4,
        4,
        DONE,
        &[Short(1), Short(2), Missing(3), Missing(4)],
    ),
    (Begin, 15, 2, DONE, &[Short(14), Short(15)]),
    (Fill, 0, 2, DONE, &[Short(15), Missing(0)]),
    (Fill, 1, 2, DONE, &[Missing(0), Missing(1)]),
    // In one place also that of the number that goes.
    (Begin, 1, 1, DONE, &[Short(1)]),
    (Fill, 1, 1, DONE, &[Missing(1)]),
    // A number that a short-term frame has, also once the window has slid.
    (Begin, 2, 4, DONE, &[Short(0), Short(1), Short(2)]),
    (Fill, 1, 4, UNFILLED, &[Short(0), Short(1), Short(2)]),
    (Fill, 1, 3, UNFILLED, &[Short(0), Short(1), Short(2)]),
    // Places that long-term frames take.
    (BeginLong, 0, 1, DONE, &[Long(0, 0)]),
    (Fill, 1, 1, UNFILLED, &[Long(0, 0)]),
];

/// Numbers that are skipped: all places but those of long-term frames have to be those of missing numbers.
const SKIPPED: [Row; 8] = [
    (Begin, 2, 2, DONE, &[Short(1), Short(2)]),
    (Fill, 3, 2, DONE, &[Short(2), Missing(3)]),
    (Skip(9), 3, 2, UNFILLED, &[Short(2), Missing(3)]),
    (Fill, 4, 2, DONE, &[Missing(3), Missing(4)]),
    (Skip(9), 4, 3, UNFILLED, &[Missing(3), Missing(4)]),
    (Skip(14), 4, 2, DONE, &[Missing(1), Missing(2)]),
    (Skip(1), 3, 2, UNFILLED, &[Missing(1), Missing(2)]),
    (Fill, 3, 2, DONE, &[Missing(2), Missing(3)]),
];

/// Operation 1.
const UNMARKED_SHORT: [Row; 9] = [
    // picNumX is 4 - 2 of frame 2, and 0 - 2 of frame 14 once frame_num has wrapped.
    (Begin, 3, 4, DONE, &[Short(0), Short(1), Short(2), Short(3)]),
    (
        Operate(&[UnmarkShort(1)]),
        4,
        4,
        DONE,
        &[Short(0), Short(1), Short(3), Short(4)],
    ),
    (Begin, 15, 3, DONE, &[Short(13), Short(14), Short(15)]),
    (
        Operate(&[UnmarkShort(1)]),
        0,
        3,
        DONE,
        &[Short(13), Short(15), Short(0)],
    ),
    // No frame has -1; the second operation finds what the first has left; frame 1 has an index.
    (Begin, 2, 4, DONE, &[Short(0), Short(1), Short(2)]),
    (
        Operate(&[UnmarkShort(3)]),
        3,
        4,
        FIRST_REFUSED,
        &[Short(0), Short(1), Short(2)],
    ),
    (
        Operate(&[UnmarkShort(0), UnmarkShort(0)]),
        3,
        4,
        SECOND_REFUSED,
        &[Short(0), Short(1), Short(2)],
    ),
    (TwoLong, 2, 4, DONE, &[Long(0, 0), Long(1, 1), Short(2)]),
    (
        Operate(&[UnmarkShort(1)]),
        3,
        4,
        FIRST_REFUSED,
        &[Long(0, 0), Long(1, 1), Short(2)],
    ),
];

/// Operation 2.
const UNMARKED_LONG: [Row; 4] = [
    // The frame with index 0 goes; none has index 2.
    (TwoLong, 2, 4, DONE, &[Long(0, 0), Long(1, 1), Short(2)]),
    (
        Operate(&[UnmarkLong(2)]),
        3,
        4,
        FIRST_REFUSED,
        &[Long(0, 0), Long(1, 1), Short(2)],
    ),
    (TwoLong, 2, 4, DONE, &[Long(0, 0), Long(1, 1), Short(2)]),
    (
        Operate(&[UnmarkLong(0)]),
        3,
        4,
        DONE,
        &[Long(1, 1), Short(2), Short(3)],
    ),
];

/// Operation 3.
const MADE_LONG: [Row; 11] = [
    // Frame 2 gets a free index, or that of frame 1, which is then unused.
    (TwoLong, 2, 4, DONE, &[Long(0, 0), Long(1, 1), Short(2)]),
    (
        Operate(&[MakeLong(0, 2)]),
        3,
        4,
        DONE,
        &[Long(0, 0), Long(1, 1), Long(2, 2), Short(3)],
    ),
    (TwoLong, 2, 4, DONE, &[Long(0, 0), Long(1, 1), Short(2)]),
    (
        Operate(&[MakeLong(0, 1)]),
        3,
        4,
        DONE,
        &[Long(0, 0), Long(2, 1), Short(3)],
    ),
    // There are the indices 0 to 2; no frame has PicNum 1; the frame of a gap does not exist; without operation 4 there is no index.
    (TwoLong, 2, 4, DONE, &[Long(0, 0), Long(1, 1), Short(2)]),
    (
        Operate(&[MakeLong(0, 3)]),
        3,
        4,
        FIRST_REFUSED,
        &[Long(0, 0), Long(1, 1), Short(2)],
    ),
    (
        Operate(&[MakeLong(1, 2)]),
        3,
        4,
        FIRST_REFUSED,
        &[Long(0, 0), Long(1, 1), Short(2)],
    ),
    (
        Fill,
        3,
        4,
        DONE,
        &[Long(0, 0), Long(1, 1), Short(2), Missing(3)],
    ),
    (
        Operate(&[MakeLong(0, 2)]),
        4,
        4,
        FIRST_REFUSED,
        &[Long(0, 0), Long(1, 1), Short(2), Missing(3)],
    ),
    (Begin, 1, 4, DONE, &[Short(0), Short(1)]),
    (
        Operate(&[MakeLong(0, 0)]),
        2,
        4,
        FIRST_REFUSED,
        &[Short(0), Short(1)],
    ),
];

/// Operation 4.
const LIMITED: [Row; 8] = [
    // One index leaves frame 0, and none leaves no long-term frame and no index.
    (TwoLong, 2, 4, DONE, &[Long(0, 0), Long(1, 1), Short(2)]),
    (
        Operate(&[Limit(1)]),
        3,
        4,
        DONE,
        &[Long(0, 0), Short(2), Short(3)],
    ),
    (
        Operate(&[Limit(0)]),
        4,
        4,
        DONE,
        &[Short(2), Short(3), Short(4)],
    ),
    (
        Operate(&[MakeCurrentLong(0)]),
        5,
        4,
        FIRST_REFUSED,
        &[Short(2), Short(3), Short(4)],
    ),
    // Four are as many as there may be.
    (TwoLong, 2, 4, DONE, &[Long(0, 0), Long(1, 1), Short(2)]),
    (
        Operate(&[Limit(4), MakeLong(0, 3)]),
        3,
        4,
        DONE,
        &[Long(0, 0), Long(1, 1), Long(2, 3), Short(3)],
    ),
    (TwoLong, 2, 4, DONE, &[Long(0, 0), Long(1, 1), Short(2)]),
    (
        Operate(&[Limit(5)]),
        3,
        4,
        FIRST_REFUSED,
        &[Long(0, 0), Long(1, 1), Short(2)],
    ),
];

/// Operation 5: the picture has frame_num 0 then, and there is no index before operation 4.
const UNMARKED_ALL: [Row; 6] = [
    (TwoLong, 2, 4, DONE, &[Long(0, 0), Long(1, 1), Short(2)]),
    (Operate(&[UnmarkAll]), 3, 4, DONE, &[Reset(3)]),
    (TwoLong, 2, 4, DONE, &[Long(0, 0), Long(1, 1), Short(2)]),
    (
        Operate(&[UnmarkAll, Limit(1), MakeCurrentLong(0)]),
        3,
        4,
        DONE,
        &[ResetLong(3, 0)],
    ),
    (TwoLong, 2, 4, DONE, &[Long(0, 0), Long(1, 1), Short(2)]),
    (
        Operate(&[UnmarkAll, MakeCurrentLong(0)]),
        3,
        4,
        SECOND_REFUSED,
        &[Long(0, 0), Long(1, 1), Short(2)],
    ),
];

/// Operation 6.
const MADE_CURRENT_LONG: [Row; 12] = [
    // Frame 3 gets a free index, or that of frame 1; there is no index 3.
    (TwoLong, 2, 4, DONE, &[Long(0, 0), Long(1, 1), Short(2)]),
    (
        Operate(&[MakeCurrentLong(2)]),
        3,
        4,
        DONE,
        &[Long(0, 0), Long(1, 1), Short(2), Long(3, 2)],
    ),
    (TwoLong, 2, 4, DONE, &[Long(0, 0), Long(1, 1), Short(2)]),
    (
        Operate(&[MakeCurrentLong(1)]),
        3,
        4,
        DONE,
        &[Long(0, 0), Short(2), Long(3, 1)],
    ),
    (TwoLong, 2, 4, DONE, &[Long(0, 0), Long(1, 1), Short(2)]),
    (
        Operate(&[MakeCurrentLong(3)]),
        3,
        4,
        FIRST_REFUSED,
        &[Long(0, 0), Long(1, 1), Short(2)],
    ),
    // No other operation takes the index, or the marking, from the picture's own frame.
    (
        Operate(&[MakeCurrentLong(1), UnmarkLong(1)]),
        3,
        4,
        SECOND_REFUSED,
        &[Long(0, 0), Long(1, 1), Short(2)],
    ),
    (
        Operate(&[MakeCurrentLong(1), MakeLong(0, 1)]),
        3,
        4,
        SECOND_REFUSED,
        &[Long(0, 0), Long(1, 1), Short(2)],
    ),
    (
        Operate(&[MakeCurrentLong(1), Limit(1)]),
        3,
        4,
        SECOND_REFUSED,
        &[Long(0, 0), Long(1, 1), Short(2)],
    ),
    (
        Operate(&[MakeCurrentLong(1), UnmarkAll]),
        3,
        4,
        SECOND_REFUSED,
        &[Long(0, 0), Long(1, 1), Short(2)],
    ),
    (TwoLong, 2, 4, DONE, &[Long(0, 0), Long(1, 1), Short(2)]),
    (
        Operate(&[MakeCurrentLong(1), Limit(2)]),
        3,
        4,
        DONE,
        &[Long(0, 0), Short(2), Long(3, 1)],
    ),
];

/// Operations make room, or the marking is refused as a whole.
const ROOM: [Row; 4] = [
    (Begin, 3, 4, DONE, &[Short(0), Short(1), Short(2), Short(3)]),
    (
        Operate(&[]),
        4,
        4,
        ALL_REFUSED,
        &[Short(0), Short(1), Short(2), Short(3)],
    ),
    (
        Operate(&[Limit(2), MakeLong(0, 0)]),
        4,
        4,
        ALL_REFUSED,
        &[Short(0), Short(1), Short(2), Short(3)],
    ),
    (
        Operate(&[Limit(2), MakeLong(0, 0), MakeLong(1, 0)]),
        4,
        4,
        DONE,
        &[Short(0), Short(1), Long(2, 0), Short(4)],
    ),
];

#[test]
fn idr_window_and_gaps(rt: HostRuntime) {
    rows_hold(&rt, &IDR_PICTURES);
    rows_hold(&rt, &WINDOW);
    rows_hold(&rt, &GAPS);
    rows_hold(&rt, &SKIPPED);
    laws::unused_numbers();
}

fn operations_1_and_2(rt: &impl Abort) {
    rows_hold(rt, &UNMARKED_SHORT);
    rows_hold(rt, &UNMARKED_LONG);
}

fn operations_3_and_4(rt: &impl Abort) {
    rows_hold(rt, &MADE_LONG);
    rows_hold(rt, &LIMITED);
}

fn operations_5_and_6(rt: &impl Abort) {
    rows_hold(rt, &UNMARKED_ALL);
    rows_hold(rt, &MADE_CURRENT_LONG);
    rows_hold(rt, &ROOM);
}

#[test]
fn operations(rt: HostRuntime) {
    operations_1_and_2(&rt);
    operations_3_and_4(&rt);
    operations_5_and_6(&rt);
}
