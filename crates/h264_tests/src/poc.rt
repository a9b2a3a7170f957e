//! What no clause says: counts worked by hand from the equations of 8.2.1.
#![tactic(auto)]

use h264_base::{Rule, Stop};
use h264_poc::{Count, Counts, Cycle, Order, Picture};
use std::process::Abort;

/// A picture of type 0 with MaxPicOrderCntLsb 16.
fn lsb(idr: bool, reference: bool, lsb: u32, delta_bottom: i32) -> Picture<'static> {
    Picture {
        idr,
        reference,
        resets: false,
        frame_num: 0,
        max_frame_num: 16,
        order: Order::Lsb {
            max_pic_order_cnt_lsb: 16,
            pic_order_cnt_lsb: lsb,
            delta_pic_order_cnt_bottom: delta_bottom,
        },
    }
}

/// Three offsets, and no more.
fn three(offsets: [i32; 3]) -> [i32; 255] {
    let mut offset_for_ref_frame = [0; 255];
    offset_for_ref_frame[0] = offsets[0];
    offset_for_ref_frame[1] = offsets[1];
    offset_for_ref_frame[2] = offsets[2];
    offset_for_ref_frame
}

/// A picture of type 1 with MaxFrameNum 16 and these offsets; delta_pic_order_cnt is 0 and -1.
fn cycle(
    idr: bool,
    reference: bool,
    frame_num: u32,
    offsets: &[i32; 255],
    length: u32,
) -> Picture<'_> {
    Picture {
        idr,
        reference,
        resets: false,
        frame_num,
        max_frame_num: 16,
        order: Order::Cycle {
            offset_for_non_ref_pic: -3,
            offset_for_top_to_bottom_field: 5,
            cycle: Cycle::new(offsets, length),
            delta_top: 0,
            delta_bottom: -1,
        },
    }
}

/// A picture of type 2 with MaxFrameNum 16.
fn ordered(idr: bool, reference: bool, frame_num: u32) -> Picture<'static> {
    Picture {
        idr,
        reference,
        resets: false,
        frame_num,
        max_frame_num: 16,
        order: Order::DecodingOrder,
    }
}

/// A picture with its counts, or none where it is refused.
type Row<'a> = (Picture<'a>, Option<(i32, i32)>);

/// The bit where a picture is refused.
const BIT: u64 = 7;

/// Stops unless these pictures have these counts, from the first one on. One that is refused changes nothing.
fn expect(rt: &impl Abort, rows: &[Row<'_>]) {
    let mut counts = Counts::new();
    for (i, (picture, expected)) in rows.iter().enumerate() {
        let expected = match expected {
            Some((top, bottom)) => Ok(Count {
                top: *top,
                bottom: *bottom,
            }),
            None => Err(Stop::No {
                bit: BIT,
                rule: Rule::Count,
            }),
        };
        assert_eq!(rt; counts.next(picture, BIT), expected, "row {i}");
    }
}

/// The lsb wraps upwards (12, then 2 with Msb 16), downwards (2, then 14 with Msb 0), and upwards by exactly a half.
fn lsb_wraps(rt: &impl Abort) {
    let rows = [
        (lsb(true, true, 0, 0), Some((0, 0))),
        (lsb(false, true, 6, 1), Some((6, 7))),
        (lsb(false, true, 12, -2), Some((12, 10))),
        (lsb(false, true, 2, 0), Some((18, 18))),
        (lsb(false, false, 14, 0), Some((14, 14))),
        (lsb(false, true, 14, 0), Some((14, 14))),
        (lsb(false, true, 6, 0), Some((22, 22))),
        (lsb(false, true, 14, 0), Some((30, 30))),
        (lsb(true, true, 9, 0), Some((-7, -7))),
        (lsb(true, true, 8, 0), Some((8, 8))),
    ];
    expect(rt, &rows);
}

/// A picture of type 0 with operation 5.
fn reset(lsb_of_it: u32, delta_bottom: i32) -> Picture<'static> {
    let mut picture = lsb(false, true, lsb_of_it, delta_bottom);
    picture.resets = true;
    picture
}

/// After operation 5 the Msb before is 0, and the lsb before is what is left of the top count: 24 - 18 = 6, and -4 + 16 = 12.
fn lsb_after_a_reset(rt: &impl Abort) {
    let rows = [
        (lsb(true, true, 0, 0), Some((0, 0))),
        (lsb(false, true, 8, 0), Some((8, 8))),
        (lsb(false, true, 0, 0), Some((16, 16))),
        (reset(8, -6), Some((24, 18))),
        (lsb(false, true, 14, 0), Some((14, 14))),
    ];
    expect(rt, &rows);
    let rows = [
        (lsb(true, true, 0, 0), Some((0, 0))),
        (reset(12, -12), Some((-4, -16))),
        (lsb(false, true, 2, 0), Some((18, 18))),
    ];
    expect(rt, &rows);
}

/// Offsets 2, 3 and 4, of which a whole cycle adds 9; a non-reference picture is counted one frame earlier, and 3 less.
fn cycle_of_three(rt: &impl Abort) {
    let offsets = three([2, 3, 4]);
    let rows = [
        (cycle(true, true, 0, &offsets, 3), Some((0, 4))),
        (cycle(false, true, 1, &offsets, 3), Some((2, 6))),
        (cycle(false, true, 2, &offsets, 3), Some((5, 9))),
        (cycle(false, false, 3, &offsets, 3), Some((2, 6))),
        (cycle(false, true, 3, &offsets, 3), Some((9, 13))),
        (cycle(false, true, 4, &offsets, 3), Some((11, 15))),
        (cycle(false, false, 5, &offsets, 3), Some((8, 12))),
        (cycle(false, true, 15, &offsets, 3), Some((45, 49))),
        (cycle(false, true, 0, &offsets, 3), Some((47, 51))),
    ];
    expect(rt, &rows);
}

/// Without a cycle only the deltas and offset_for_non_ref_pic count.
fn cycle_of_none(rt: &impl Abort) {
    let offsets = three([2, 3, 4]);
    let rows = [
        (cycle(true, true, 0, &offsets, 0), Some((0, 4))),
        (cycle(false, true, 1, &offsets, 0), Some((0, 4))),
        (cycle(false, false, 2, &offsets, 0), Some((-3, 1))),
        (cycle(false, true, 2, &offsets, 0), Some((0, 4))),
    ];
    expect(rt, &rows);
}

/// Twice the frame number, one less for a non-reference picture; frame_num wraps, and operation 5 starts anew.
fn decoding_order(rt: &impl Abort) {
    let mut reset = ordered(false, true, 1);
    reset.resets = true;
    let rows = [
        (ordered(true, true, 0), Some((0, 0))),
        (ordered(false, true, 1), Some((2, 2))),
        (ordered(false, false, 2), Some((3, 3))),
        (ordered(false, true, 2), Some((4, 4))),
        (ordered(false, true, 15), Some((30, 30))),
        (ordered(false, true, 0), Some((32, 32))),
        (reset, Some((34, 34))),
        (ordered(false, true, 1), Some((2, 2))),
        (ordered(true, true, 0), Some((0, 0))),
    ];
    expect(rt, &rows);
}

/// A second non-reference picture of type 2 is refused, and nothing has changed then.
fn two_non_reference_pictures(rt: &impl Abort) {
    let rows = [
        (ordered(true, true, 0), Some((0, 0))),
        (ordered(false, false, 1), Some((1, 1))),
        (ordered(false, false, 2), None),
        (ordered(false, true, 1), Some((2, 2))),
    ];
    expect(rt, &rows);
}

/// A cycle of one offset 2^30: counts of 2^30, and then 2^31, which is one too many. Then one whose bottom count is the greatest, and one more.
fn past_the_range(rt: &impl Abort) {
    let offsets = three([1 << 30, 0, 0]);
    let rows = [
        (cycle(true, true, 0, &offsets, 1), Some((0, 4))),
        (
            cycle(false, true, 1, &offsets, 1),
            Some((1 << 30, (1 << 30) + 4)),
        ),
        (cycle(false, true, 2, &offsets, 1), None),
    ];
    expect(rt, &rows);
    let edge = three([i32::MAX - 4, 0, 0]);
    let beyond = three([i32::MAX - 3, 0, 0]);
    let rows = [
        (cycle(true, true, 0, &edge, 1), Some((0, 4))),
        (
            cycle(false, true, 1, &edge, 1),
            Some((i32::MAX - 4, i32::MAX)),
        ),
        (cycle(false, true, 1, &beyond, 1), None),
    ];
    expect(rt, &rows);
}

#[test]
fn pictures_have_their_counts(rt: HostRuntime) {
    lsb_wraps(&rt);
    lsb_after_a_reset(&rt);
    cycle_of_three(&rt);
    cycle_of_none(&rt);
    decoding_order(&rt);
    two_non_reference_pictures(&rt);
    past_the_range(&rt);
}
