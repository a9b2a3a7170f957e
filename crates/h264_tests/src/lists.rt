//! What no clause says: lists worked by hand from 8.2.4.1, 8.2.4.2.1 and 8.2.4.3, where MaxFrameNum is 16.
#![tactic(auto)]

use crate::references::Frame::{Long, Missing, Short};
use crate::references::Op::{Limit, MakeCurrentLong, MakeLong};
use crate::references::{Frame, at, begin, frame_of, operate, slide};
use arrayvec::ArrayVec;
use h264_base::{Rule, Stop};
use h264_header::{Modification, PicNumModification, RefPicList0};
use h264_lists::build;
use h264_lists::slot::RefSlot;
use h264_marking::{Held, Numbering};
use std::process::Abort;
use std::test::Fail;

/// A modification of a table.
#[derive(Clone, Copy)]
enum Command {
    /// Command 0 with abs_diff_pic_num_minus1, at bit 40.
    Subtract(u32),
    /// Command 1 with abs_diff_pic_num_minus1, at bit 50.
    Add(u32),
    /// Command 2 with long_term_pic_num, at bit 60.
    LongTerm(u32),
}

use Command::{Add, LongTerm, Subtract};

/// The frames of a list, after which its places have no picture, or the bit of the modification that is refused.
type Answer = Result<&'static [Frame], u64>;

/// The number of places, the modifications, and the list.
type Built = (u32, &'static [Command], Answer);

/// The held frames, and the same.
type Row = (&'static [Frame], u32, &'static [Command], Answer);

/// The slots of a list: these frames, and from there on up to so many places none.
fn slots_of(frames: &[Frame], places: u32) -> ArrayVec<RefSlot, 16> {
    let mut slots = ArrayVec::new();
    for k in 0..places as usize {
        let slot = match frames.get(k) {
            Some(frame) => RefSlot::Held(frame_of(*frame)),
            None => RefSlot::NoPicture,
        };
        let _full = slots.try_push(slot);
    }
    slots
}

/// Marks a frame, which then comes last.
fn hold(held: &mut Held, frame: Frame) -> Result<(), Stop> {
    match frame {
        Short(n) => slide(held, at(n, 16)),
        Long(n, index) => operate(held, at(n, 16), &[Limit(16), MakeCurrentLong(index)]),
        Missing(n) => held.fill_gap(&at(n, 16), 0),
        _ => Err(Stop::Read),
    }
}

/// These frames, each by its marking.
fn held_of(frames: &[Frame]) -> Result<Held, Stop> {
    let mut held = Held::new();
    for frame in frames {
        hold(&mut held, *frame)?;
    }
    Ok(held)
}

fn modification_of(command: Command) -> PicNumModification {
    match command {
        Subtract(abs_diff_pic_num_minus1) => PicNumModification {
            bit: 40,
            modification: Modification::Subtract {
                abs_diff_pic_num_minus1,
            },
        },
        Add(abs_diff_pic_num_minus1) => PicNumModification {
            bit: 50,
            modification: Modification::Add {
                abs_diff_pic_num_minus1,
            },
        },
        LongTerm(long_term_pic_num) => PicNumModification {
            bit: 60,
            modification: Modification::LongTerm { long_term_pic_num },
        },
    }
}

/// A list of so many places, with these modifications.
fn list(places: u32, commands: &[Command]) -> RefPicList0 {
    let mut modifications = ArrayVec::new();
    for command in commands {
        let _full = modifications.try_push(modification_of(*command));
    }
    RefPicList0 {
        num_ref_idx_l0_active: places,
        modifications,
        pred_weight_table: None,
    }
}

fn answer_of(answer: Answer, places: u32) -> Result<ArrayVec<RefSlot, 16>, Stop> {
    match answer {
        Ok(frames) => Ok(slots_of(frames, places)),
        Err(bit) => Err(Stop::No {
            bit,
            rule: Rule::ListCommand,
        }),
    }
}

/// Builds a list of each of these, where the current frame_num is 3.
fn rows_give(rt: &impl Abort, rows: &[Row]) -> Result<(), Stop> {
    for (i, (held, places, commands, answer)) in rows.iter().enumerate() {
        let found = build(&held_of(held)?, &at(3, 16), &list(*places, commands));
        assert_eq!(rt; found, answer_of(*answer, *places), "row {i}");
    }
    Ok(())
}

/// Builds these lists of what is held.
fn held_gives(rt: &impl Abort, held: &Held, current: &Numbering, rows: &[Built]) {
    for (i, (places, commands, answer)) in rows.iter().enumerate() {
        let found = build(held, current, &list(*places, commands));
        assert_eq!(rt; found, answer_of(*answer, *places), "row {i}");
    }
}

const MIXED: &[Frame] = &[
    Short(14),
    Short(3),
    Long(3, 2),
    Short(15),
    Short(1),
    Long(3, 0),
    Short(2),
];

/// At frame_num 3 the frames 14 and 15 have PicNum -2 and -1, and frame 3 has PicNum 3.
const INITIAL: [Row; 4] = [
    (
        MIXED,
        7,
        &[],
        Ok(&[
            Short(3),
            Short(2),
            Short(1),
            Short(15),
            Short(14),
            Long(3, 0),
            Long(3, 2),
        ]),
    ),
    (
        MIXED,
        4,
        &[],
        Ok(&[Short(3), Short(2), Short(1), Short(15)]),
    ),
    (
        MIXED,
        9,
        &[],
        Ok(&[
            Short(3),
            Short(2),
            Short(1),
            Short(15),
            Short(14),
            Long(3, 0),
            Long(3, 2),
        ]),
    ),
    (&[], 2, &[], Ok(&[])),
];

/// Frames of PicNum -2, -1, 0, 1 and 2.
const HELD: &[Frame] = &[Short(14), Short(15), Short(0), Short(1), Short(2)];

const SUBTRACTED: [Row; 3] = [
    // From 3: 3 - 2 = 1; 3 - 3 = 0; 3 - 4 = -1, which wraps to 15, and that is above 3: PicNum -1.
    (
        HELD,
        5,
        &[Subtract(1)],
        Ok(&[Short(1), Short(2), Short(0), Short(15), Short(14)]),
    ),
    (
        HELD,
        5,
        &[Subtract(2)],
        Ok(&[Short(0), Short(2), Short(1), Short(15), Short(14)]),
    ),
    (
        HELD,
        5,
        &[Subtract(3)],
        Ok(&[Short(15), Short(2), Short(1), Short(0), Short(14)]),
    ),
];

const ADDED: [Row; 3] = [
    // From 3: 3 + 12 = 15, PicNum -1; 3 + 13 = 16, which wraps to 0; 3 + 14 = 17, which wraps to 1.
    (
        HELD,
        5,
        &[Add(11)],
        Ok(&[Short(15), Short(2), Short(1), Short(0), Short(14)]),
    ),
    (
        HELD,
        5,
        &[Add(12)],
        Ok(&[Short(0), Short(2), Short(1), Short(15), Short(14)]),
    ),
    (
        HELD,
        5,
        &[Add(13)],
        Ok(&[Short(1), Short(2), Short(0), Short(15), Short(14)]),
    ),
];

const IN_TURN: [Row; 6] = [
    // The predictor goes on: 3 - 2 = 1, and 1 - 2 = -1, which is 15; then 15 + 1 = 16, which is 0.
    (
        HELD,
        5,
        &[Subtract(1), Subtract(1), Add(0)],
        Ok(&[Short(1), Short(15), Short(0), Short(2), Short(14)]),
    ),
    // A long-term command leaves it.
    (
        &[Short(1), Long(3, 4), Short(2), Long(3, 2)],
        4,
        &[Subtract(0), LongTerm(4), Subtract(0)],
        Ok(&[Short(2), Long(3, 4), Short(1), Long(3, 2)]),
    ),
    // A frame that is named at index 0 and at index 1 stands in both: 3 - 1 = 2, and 2 - 16 = -14, which wraps to 2.
    (
        HELD,
        4,
        &[Subtract(0), Subtract(15)],
        Ok(&[Short(2), Short(2), Short(1), Short(0)]),
    ),
    // A frame that the cut list does not hold comes in, and the last place goes.
    (HELD, 2, &[Subtract(4)], Ok(&[Short(14), Short(2)])),
    // A place without a picture comes last.
    (
        &[Short(1), Short(2), Long(3, 0)],
        5,
        &[LongTerm(0)],
        Ok(&[Long(3, 0), Short(2), Short(1)]),
    ),
    // The frame of a gap has no picture, and may be named.
    (
        &[Missing(1), Short(2)],
        2,
        &[Subtract(1)],
        Ok(&[Missing(1), Short(2)]),
    ),
];

const SOME: &[Frame] = &[Short(1), Short(2), Long(3, 1)];

/// The first modification that names no held frame is refused at its bit.
const ABSENT: [Row; 3] = [
    (SOME, 4, &[Subtract(2)], Err(40)),
    (SOME, 4, &[LongTerm(2)], Err(60)),
    (SOME, 4, &[Subtract(0), Add(0), LongTerm(2)], Err(50)),
];

/// Where nothing is held no place has a picture.
const NOTHING: [Built; 2] = [(2, &[], Ok(&[])), (1, &[LongTerm(0)], Err(60))];

/// Frame 0, which gets the only long-term index where frame_num is 2, picNumX being 2 - 2, the frames 1 and 2, and that of the missing frame_num 3.
fn marked() -> Result<Held, Stop> {
    let mut held = Held::new();
    begin(&mut held, at(1, 16))?;
    operate(&mut held, at(2, 16), &[Limit(1), MakeLong(1, 0)])?;
    held.fill_gap(&at(3, 16), 0)?;
    Ok(held)
}

/// From 4 on command 0 names 4 - 2.
const MARKED: [Built; 3] = [
    (5, &[], Ok(&[Missing(3), Short(2), Short(1), Long(0, 0)])),
    (2, &[], Ok(&[Missing(3), Short(2)])),
    (
        5,
        &[LongTerm(0), Subtract(1)],
        Ok(&[Long(0, 0), Short(2), Missing(3), Short(1)]),
    ),
];

/// Frames 13 to 15 in three places.
fn wrapped() -> Result<Held, Stop> {
    let mut held = Held::new();
    begin(&mut held, at(15, 3))?;
    Ok(held)
}

/// At frame_num 0 they have PicNum -3 to -1, and command 0 names 0 - 3; frame 12 has gone.
const WRAPPED: [Built; 3] = [
    (3, &[], Ok(&[Short(15), Short(14), Short(13)])),
    (3, &[Subtract(2)], Ok(&[Short(13), Short(15), Short(14)])),
    (3, &[Subtract(3)], Err(40)),
];

#[test]
fn lists_of_frames(rt: HostRuntime) -> Result<(), Fail> {
    for rows in [INITIAL.as_slice(), &SUBTRACTED, &ADDED, &IN_TURN, &ABSENT] {
        rows_give(&rt, rows)?;
    }
    Ok(())
}

#[test]
fn lists_after_markings(rt: HostRuntime) -> Result<(), Fail> {
    held_gives(&rt, &Held::new(), &at(3, 16), &NOTHING);
    held_gives(&rt, &marked()?, &at(4, 16), &MARKED);
    held_gives(&rt, &wrapped()?, &at(0, 16), &WRAPPED);
    Ok(())
}
