use crate::cases::each;
use h264_intra::{
    Intra4x4PredMode, Intra16x16PredMode, IntraChromaPredMode, Neighbours4, Neighbours16,
    NeighboursChroma, Sides, Sides4, predict_chroma, predict4, predict16,
};

#[test]
fn luma(rt: HostRuntime) {
    each(&rt, &BLOCKS_4X4, is_block_4x4);
    assert!(rt; luma16_directions());
    each(&rt, &LUMA_DC, is_luma_dc);
    assert!(rt; luma16_plane());
    assert!(rt; luma16_plane_is_clipped());
}

#[test]
fn chroma(rt: HostRuntime) {
    each(&rt, &CHROMA_DC, are_chroma_dcs);
    assert!(rt; chroma_directions_and_plane());
}

#[test]
fn modes(rt: HostRuntime) {
    assert!(rt; modes_have_numbers());
    assert!(rt; modes_are_possible());
    assert!(rt; modes_are_impossible());
}

fn modes_have_numbers() -> bool {
    Intra4x4PredMode::of_number(5) == Intra4x4PredMode::VerticalRight
        && Intra16x16PredMode::of_number(2) == Intra16x16PredMode::Dc
        && IntraChromaPredMode::of_number(2) == IntraChromaPredMode::Vertical
        && Intra4x4PredMode::HorizontalUp.number() == 8
        && Intra16x16PredMode::Plane.number() == 3
        && IntraChromaPredMode::Dc.number() == 0
}

const ABOVE_ALONE: Sides4 = Sides4 {
    left: false,
    above: true,
    above_right: false,
    corner: false,
};

const LEFT_AND_ABOVE: Sides = Sides {
    left: true,
    above: true,
    corner: false,
};

fn modes_are_possible() -> bool {
    Intra4x4PredMode::DiagonalDownLeft.is_possible(ABOVE_ALONE)
        && Intra16x16PredMode::Horizontal.is_possible(LEFT_AND_ABOVE)
        && IntraChromaPredMode::Dc.is_possible(LEFT_AND_ABOVE)
}

fn modes_are_impossible() -> bool {
    !Intra4x4PredMode::HorizontalUp.is_possible(ABOVE_ALONE)
        && !Intra16x16PredMode::Plane.is_possible(LEFT_AND_ABOVE)
        && !IntraChromaPredMode::Plane.is_possible(LEFT_AND_ABOVE)
}

/// Each side there: L0 to L3, A0 to A7 and M.
const ALL_ROUND: Neighbours4 = Neighbours4 {
    left: Some([12, 25, 36, 49]),
    above: Some([10, 20, 31, 40]),
    above_right: Some([53, 60, 72, 80]),
    corner: Some(5),
};

const NO_SIDE: Neighbours4 = Neighbours4 {
    left: None,
    above: None,
    above_right: None,
    corner: None,
};

const LEFT: Neighbours4 = Neighbours4 {
    left: Some([12, 25, 36, 49]),
    above: None,
    above_right: None,
    corner: None,
};

const ABOVE: Neighbours4 = Neighbours4 {
    left: None,
    above: Some([10, 20, 31, 40]),
    above_right: None,
    corner: None,
};

/// Modes of 4x4 blocks, what is around, and the samples.
const BLOCKS_4X4: [(Intra4x4PredMode, Neighbours4, [u8; 16]); 14] = [
    // Each row is A0 to A3.
    (
        Intra4x4PredMode::Vertical,
        ALL_ROUND,
        [
            10, 20, 31, 40, 10, 20, 31, 40, 10, 20, 31, 40, 10, 20, 31, 40,
        ],
    ),
    // Each column is L0 to L3.
    (
        Intra4x4PredMode::Horizontal,
        ALL_ROUND,
        [
            12, 12, 12, 12, 25, 25, 25, 25, 36, 36, 36, 36, 49, 49, 49, 49,
        ],
    ),
    // (101 + 122 + 4) >> 3 is 28.
    (Intra4x4PredMode::Dc, ALL_ROUND, [28; 16]),
    // (10 + 2 * 20 + 31 + 2) >> 2 is 20, and (72 + 3 * 80 + 2) >> 2 is 78.
    (
        Intra4x4PredMode::DiagonalDownLeft,
        ALL_ROUND,
        [
            20, 31, 41, 52, 31, 41, 52, 61, 41, 52, 61, 71, 52, 61, 71, 78,
        ],
    ),
    // (12 + 2 * 5 + 10 + 2) >> 2 is 8 on the diagonal, (25 + 2 * 12 + 5 + 2) >> 2 is 14 below it.
    (
        Intra4x4PredMode::DiagonalDownRight,
        ALL_ROUND,
        [8, 11, 20, 31, 14, 8, 11, 20, 25, 14, 8, 11, 37, 25, 14, 8],
    ),
    // (5 + 10 + 1) >> 1 is 8 at (0, 0) and at (1, 2), (25 + 2 * 12 + 5 + 2) >> 2 is 14 at (0, 2).
    (
        Intra4x4PredMode::VerticalRight,
        ALL_ROUND,
        [8, 15, 26, 36, 8, 11, 20, 31, 14, 8, 15, 26, 25, 8, 11, 20],
    ),
    // (5 + 12 + 1) >> 1 is 9 at (0, 0) and at (2, 1), (20 + 2 * 10 + 5 + 2) >> 2 is 11 at (2, 0).
    (
        Intra4x4PredMode::HorizontalDown,
        ALL_ROUND,
        [9, 8, 11, 20, 19, 14, 9, 8, 31, 25, 19, 14, 43, 37, 31, 25],
    ),
    // (10 + 20 + 1) >> 1 is 15 at (0, 0), (10 + 2 * 20 + 31 + 2) >> 2 is 20 at (0, 1).
    (
        Intra4x4PredMode::VerticalLeft,
        ALL_ROUND,
        [
            15, 26, 36, 47, 20, 31, 41, 52, 26, 36, 47, 57, 31, 41, 52, 61,
        ],
    ),
    // (12 + 25 + 1) >> 1 is 19 at (0, 0), (36 + 3 * 49 + 2) >> 2 is 46 at (3, 1), then 49.
    (
        Intra4x4PredMode::HorizontalUp,
        ALL_ROUND,
        [
            19, 25, 31, 37, 31, 37, 43, 46, 43, 46, 49, 49, 49, 49, 49, 49,
        ],
    ),
    // A3, 40, stands for A4 to A7.
    (
        Intra4x4PredMode::DiagonalDownLeft,
        ABOVE,
        [
            20, 31, 38, 40, 31, 38, 40, 40, 38, 40, 40, 40, 40, 40, 40, 40,
        ],
    ),
    (
        Intra4x4PredMode::VerticalLeft,
        ABOVE,
        [
            15, 26, 36, 40, 20, 31, 38, 40, 26, 36, 40, 40, 31, 38, 40, 40,
        ],
    ),
    // (122 + 2) >> 2 is 31, (101 + 2) >> 2 is 25.
    (Intra4x4PredMode::Dc, LEFT, [31; 16]),
    (Intra4x4PredMode::Dc, NO_SIDE, [128; 16]),
    (Intra4x4PredMode::Dc, ABOVE, [25; 16]),
];

fn is_block_4x4((mode, neighbours, block): &(Intra4x4PredMode, Neighbours4, [u8; 16])) -> bool {
    predict4(*mode, neighbours) == *block
}

/// 4, 8, 12, .. on both sides: the plane through them is 4 * (x + 1) + 4 * (y + 1).
const RAMP: [u8; 16] = [4, 8, 12, 16, 20, 24, 28, 32, 36, 40, 44, 48, 52, 56, 60, 64];

fn luma16_directions() -> bool {
    let n = Neighbours16 {
        left: Some([9; 16]),
        above: Some(RAMP),
        corner: None,
    };
    let rows = [RAMP; 16];
    predict16(Intra16x16PredMode::Vertical, &n).as_slice() == rows.as_flattened()
        && predict16(Intra16x16PredMode::Horizontal, &n) == [9; 256]
}

/// The left column and the row above where they are there, and the DC of them.
const LUMA_DC: [(Option<[u8; 16]>, Option<[u8; 16]>, u8); 4] = [
    // (16 * 10 + 16 * 21 + 16) >> 5 is 16.
    (Some([10; 16]), Some([21; 16]), 16),
    (Some([10; 16]), None, 10),
    (None, None, 128),
    (None, Some([21; 16]), 21),
];

fn is_luma_dc((left, above, sample): &(Option<[u8; 16]>, Option<[u8; 16]>, u8)) -> bool {
    let n = Neighbours16 {
        left: *left,
        above: *above,
        corner: None,
    };
    predict16(Intra16x16PredMode::Dc, &n) == [*sample; 256]
}

// H and V are 8 * 204, b and c are 128, a is 16 * 128.
fn luma16_plane() -> bool {
    let n = Neighbours16 {
        left: Some(RAMP),
        above: Some(RAMP),
        corner: Some(0),
    };
    let plane = predict16(Intra16x16PredMode::Plane, &n);
    for k in 0..256 {
        if usize::from(plane[k]) != 4 * (k % 16 + k / 16) + 8 {
            return false;
        }
    }
    true
}

// H and V are -255 * 36, b and c are -717, a is 0: 314 at (0, 0), (-717 * 8 + 717 * 7 + 16) >> 5 at (15, 0).
fn luma16_plane_is_clipped() -> bool {
    let side = [
        255, 255, 255, 255, 255, 255, 255, 255, 0, 0, 0, 0, 0, 0, 0, 0,
    ];
    let n = Neighbours16 {
        left: Some(side),
        above: Some(side),
        corner: Some(255),
    };
    let plane = predict16(Intra16x16PredMode::Plane, &n);
    plane[0] == 255 && plane[7] == 157 && plane[15] == 0 && plane[255] == 0
}

/// The samples at the corners of the four blocks of a chroma plane.
fn of_blocks(c: [u8; 64]) -> [u8; 4] {
    [c[0], c[7], c[56], c[63]]
}

const CHROMA_LEFT: [u8; 8] = [30, 30, 30, 30, 50, 50, 50, 50];

const CHROMA_ABOVE: [u8; 8] = [10, 10, 10, 10, 20, 20, 20, 20];

/// The left column and the row above where they are there, and the DC of each block.
const CHROMA_DC: [(Option<[u8; 8]>, Option<[u8; 8]>, [u8; 4]); 4] = [
    // (40 + 120 + 4) >> 3 is 20, (80 + 200 + 4) >> 3 is 35.
    (Some(CHROMA_LEFT), Some(CHROMA_ABOVE), [20, 20, 50, 35]),
    (Some(CHROMA_LEFT), None, [30, 30, 50, 50]),
    (None, None, [128, 128, 128, 128]),
    (None, Some(CHROMA_ABOVE), [10, 20, 10, 20]),
];

fn are_chroma_dcs((left, above, samples): &(Option<[u8; 8]>, Option<[u8; 8]>, [u8; 4])) -> bool {
    let n = NeighboursChroma {
        left: *left,
        above: *above,
        corner: None,
    };
    of_blocks(predict_chroma(IntraChromaPredMode::Dc, &n)) == *samples
}

// H and V are 8 * 30, b and c are 128, a is 16 * 64.
fn chroma_directions_and_plane() -> bool {
    let ramp = [4, 8, 12, 16, 20, 24, 28, 32];
    let n = NeighboursChroma {
        left: Some(ramp),
        above: Some(ramp),
        corner: Some(0),
    };
    let vertical = predict_chroma(IntraChromaPredMode::Vertical, &n);
    let horizontal = predict_chroma(IntraChromaPredMode::Horizontal, &n);
    let plane = predict_chroma(IntraChromaPredMode::Plane, &n);
    for k in 0..64 {
        let (x, y) = (k % 8, k / 8);
        let directions = usize::from(vertical[k]) == 4 * x + 4
            && usize::from(horizontal[k]) == 4 * y + 4;
        if !directions || usize::from(plane[k]) != 4 * (x + y) + 8 {
            return false;
        }
    }
    true
}
