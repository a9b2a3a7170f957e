use crate::cases::each;
use h264_scale::{TransformRange, dc2, dc16, residual4, residual4_with_dc};

#[test]
fn blocks(rt: HostRuntime) {
    each(&rt, &ONE_LEVEL, is_block);
    assert!(rt; rows_come_first());
    each(&rt, &BEHIND_A_DC, is_block_with_dc);
    each(&rt, &LUMA_DC, are_luma_dcs);
    each(&rt, &CHROMA_DC, are_chroma_dcs);
    each(&rt, &EXTREMES, is_refused);
}

/// What a block of 16 gives.
type Answer = Result<[i16; 16], TransformRange>;

/// What the DCs of chroma give.
type ChromaAnswer = Result<[i16; 4], TransformRange>;

/// The levels with one of them not 0.
fn one_level(place: usize, level: i16) -> [i16; 16] {
    let mut levels = [0; 16];
    if place < 16 {
        levels[place] = level;
    }
    levels
}

/// 13 << 4 at the second place: a row of 208, 104, -104, -208, rounded.
const ROW: [i16; 16] = [3, 2, -2, -3, 3, 2, -2, -3, 3, 2, -2, -3, 3, 2, -2, -3];

const COLUMN: [i16; 16] = [3, 3, 3, 3, 2, 2, 2, 2, -2, -2, -2, -2, -3, -3, -3, -3];

/// The place in the scan and the level, QP, and the residual.
const ONE_LEVEL: [(usize, i16, u8, Answer); 9] = [
    // At QP 28 the DC is scaled by 16 << 4, and each entry is (256 + 32) >> 6.
    (0, 1, 28, Ok([4; 16])),
    (1, 1, 24, Ok(ROW)),
    (2, 1, 24, Ok(COLUMN)),
    // At QP 51 a DC is scaled by 14 << 8, at QP 1 by 11: 11 * 2976 is 32736, to which 32 can't be added.
    (0, 9, 51, Ok([504; 16])),
    (0, 10, 51, Err(TransformRange)),
    (0, 2975, 1, Ok([511; 16])),
    (0, 2976, 1, Err(TransformRange)),
    (0, -2978, 1, Ok([-512; 16])),
    (0, -2979, 1, Err(TransformRange)),
];

fn is_block((place, level, qp, residual): &(usize, i16, u8, Answer)) -> bool {
    *qp <= 51 && residual4(&one_level(*place, *level), *qp) == *residual
}

// At QP 1 three entries of -126, at (0, 1), (1, 0) and (1, 1). The rows become -126, -63, 63, 126 and -252, -189, -63, 0, and in the
// second column half of -189 is -95. With the columns first entries of the second and the third row would be others.
fn rows_come_first() -> bool {
    let levels = [0, -9, -9, 0, -7, 0, 0, 0, 0, 0, 0, 0, 0, 0, 0, 0];
    let residual = [-6, -4, 0, 2, -4, -2, 0, 2, 0, 1, 1, 2, 2, 2, 2, 2];
    residual4(&levels, 1) == Ok(residual)
}

/// The DC, the 15 levels after it, QP, and the residual.
const BEHIND_A_DC: [(i16, [i16; 15], u8, Answer); 9] = [
    // A macroblock of one Intra 16x16 level.
    (884, [0; 15], 26, Ok([14; 16])),
    (43, [0; 15], 0, Ok([1; 16])),
    // The second place of the scan is the first of the 15 levels.
    (
        0,
        [1, 0, 0, 0, 0, 0, 0, 0, 0, 0, 0, 0, 0, 0, 0],
        24,
        Ok(ROW),
    ),
    (i16::MIN, [i16::MAX; 15], 0, Err(TransformRange)),
    (i16::MIN, [i16::MAX; 15], 51, Err(TransformRange)),
    (i16::MIN, [0; 15], 0, Ok([-512; 16])),
    (i16::MIN, [0; 15], 51, Ok([-512; 16])),
    (i16::MAX, [0; 15], 0, Err(TransformRange)),
    (i16::MAX, [0; 15], 51, Err(TransformRange)),
];

fn is_block_with_dc((dc, levels, qp, residual): &(i16, [i16; 15], u8, Answer)) -> bool {
    *qp <= 51 && residual4_with_dc(*dc, levels, *qp) == *residual
}

/// The place in the scan and the level of one Intra 16x16 DC, QP, and the DCs of the blocks.
const LUMA_DC: [(usize, i16, u8, Answer); 6] = [
    // 17 at QP 26 makes 884, at QP 0 43.
    (0, 17, 26, Ok([884; 16])),
    (0, 17, 0, Ok([43; 16])),
    (
        1,
        4,
        0,
        Ok([
            10, 10, -10, -10, 10, 10, -10, -10, 10, 10, -10, -10, 10, 10, -10, -10,
        ]),
    ),
    // The last place of the scan changes sign in each column and each row.
    (
        15,
        4,
        0,
        Ok([
            10, -10, 10, -10, -10, 10, -10, 10, 10, -10, 10, -10, -10, 10, -10, 10,
        ]),
    ),
    (0, 13106, 0, Ok([32765; 16])),
    (0, 13107, 0, Err(TransformRange)),
];

fn are_luma_dcs((place, level, qp, dcs): &(usize, i16, u8, Answer)) -> bool {
    *qp <= 51 && dc16(&one_level(*place, *level), *qp) == *dcs
}

/// The levels of chroma DC, QP, and the DCs of the blocks.
const CHROMA_DC: [([i16; 4], u8, ChromaAnswer); 6] = [
    ([1, 0, 0, 0], 30, Ok([160; 4])),
    ([0, 1, 0, 0], 30, Ok([160, -160, 160, -160])),
    ([0, 0, 1, 0], 30, Ok([160, 160, -160, -160])),
    // At QP 1, 176 / 32 is 5.5, rounded down on both sides of 0.
    ([0, 0, 0, 1], 1, Ok([5, -6, -6, 5])),
    ([i16::MIN; 4], 0, Err(TransformRange)),
    ([i16::MIN; 4], 51, Err(TransformRange)),
];

fn are_chroma_dcs((levels, qp, dcs): &([i16; 4], u8, ChromaAnswer)) -> bool {
    *qp <= 51 && dc2(levels, *qp) == *dcs
}

/// Places, levels and QPs of which each leaves the range.
const EXTREMES: [(usize, i16, u8); 12] = [
    (0, i16::MAX, 0),
    (5, i16::MAX, 0),
    (15, i16::MAX, 0),
    (0, i16::MAX, 51),
    (5, i16::MAX, 51),
    (15, i16::MAX, 51),
    (0, i16::MIN, 0),
    (5, i16::MIN, 0),
    (15, i16::MIN, 0),
    (0, i16::MIN, 51),
    (5, i16::MIN, 51),
    (15, i16::MIN, 51),
];

fn is_refused((place, level, qp): &(usize, i16, u8)) -> bool {
    let levels = one_level(*place, *level);
    *qp <= 51 && residual4(&levels, *qp).is_err() && dc16(&levels, *qp).is_err()
}
