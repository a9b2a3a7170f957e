//! What no clause says: a picture two macroblocks wide, with its neighbours by hand.
#![tactic(auto)]

use crate::macroblocks::{INTRA, parts_of};
use h264_intra::Intra4x4PredMode;
use h264_near::block::{column, number, row};
use h264_near::{Contexts, Motion, Near, Skipped, Vector};
use std::test::Fail;

/// A macroblock whose luma blocks have as many coefficients as their numbers say, and its chroma blocks three each.
fn macroblock(intra: bool, motion: Option<Motion>) -> Contexts {
    Contexts {
        intra,
        totals: [0, 1, 2, 3, 4, 5, 6, 7, 8, 9, 10, 11, 12, 13, 14, 15],
        chroma_totals: [3; 8],
        modes: [Intra4x4PredMode::Horizontal; 16],
        motions: [motion; 16],
        ..INTRA
    }
}

const MOVED: Motion = Motion {
    ref_idx: 1,
    picture: 7,
    vector: Vector { x: 4, y: -8 },
};

const VERTICAL: Intra4x4PredMode = Intra4x4PredMode::Vertical;

const DC: Intra4x4PredMode = Intra4x4PredMode::Dc;

const UP: Intra4x4PredMode = Intra4x4PredMode::HorizontalUp;

#[test]
fn numbers(rt: HostRuntime) {
    assert!(rt; column(6) == 2 && row(6) == 1 && number(2, 1) == 6);
    assert!(rt; column(13) == 3 && row(13) == 2 && number(3, 2) == 13);
}

#[test]
fn pictures(rt: HostRuntime) -> Result<(), Fail> {
    let mut near = Near::new(rt.alloc(), 2)?;
    assert!(rt; near.width() == 2 && nothing_is_around(&near));
    near.push(&macroblock(true, None));
    assert!(rt; the_left_is_there(&near));
    near.push(&macroblock(false, Some(MOVED)));
    assert!(rt; the_row_above_is_there(&near) && neighbours_above(&near));
    near.push(&macroblock(true, None));
    assert!(rt; all_sides_are_there(&near));
    near.clear();
    assert!(rt; nothing_is_around(&near));
    Ok(())
}

/// Whether the motion to the left of the first block is `MOVED`, with no coefficients.
fn is_skipped_beside(near: &Near) -> bool {
    near.nc(0, &[9; 16], 0) == 0
        && near.mode(0, false, &[UP; 16], 2) == DC
        && is_moved(near.neighbour(0, &[None; 16], 0, 1))
}

/// Whether a neighbour is there, and moves as `MOVED` does.
fn is_moved(neighbour: Option<Option<Motion>>) -> bool {
    parts_of(neighbour.unwrap_or(None)) == Some((1, 7, 4, -8))
}

/// The neighbours of a skipped macroblock find its motion in it, and no coefficients.
#[test]
fn a_skipped_macroblock_beside(rt: HostRuntime) -> Result<(), Fail> {
    let mut near = Near::new(rt.alloc(), 2)?;
    near.push_skipped(&Skipped {
        slice: 0,
        qp: 30,
        motion: MOVED,
    });
    assert!(rt; is_skipped_beside(&near));
    Ok(())
}

/// The slice, the coefficients of each block of the macroblock itself, a block, and its nC.
fn have_ncs(near: &Near, rows: &[(u32, u8, usize, u8)]) -> bool {
    for (slice, totals, b, expected) in rows {
        if *b >= 16 || near.nc(*slice, &[*totals; 16], *b) != *expected {
            return false;
        }
    }
    true
}

/// constrained_intra_pred_flag, the mode of each block of the macroblock itself, a block, and the mode that is predicted.
fn have_modes(near: &Near, rows: &[(bool, Intra4x4PredMode, usize, Intra4x4PredMode)]) -> bool {
    for (constrained, modes, b, expected) in rows {
        if *b >= 16 || near.mode(0, *constrained, &[*modes; 16], *b) != *expected {
            return false;
        }
    }
    true
}

// Blocks of the macroblock itself are there.
fn nothing_is_around(near: &Near) -> bool {
    let samples = near.samples(0, false, &[VERTICAL; 16], 0);
    let edges = near.left_edge().is_some() || near.above_edge().is_some();
    !samples.above
        && !samples.left
        && !samples.corner
        && !edges
        && have_ncs(near, &[(0, 0, 0, 0), (0, 6, 3, 6)])
        && have_modes(near, &[(false, VERTICAL, 0, DC), (false, UP, 3, UP)])
}

// Block 5 stands to the left of block 0, block 13 to the left of block 8. Nothing stands above, so the mode is DC; nor is a
// macroblock of another slice to the left.
fn the_left_is_there(near: &Near) -> bool {
    have_ncs(near, &[(0, 0, 0, 5), (0, 9, 8, 11), (1, 0, 0, 0)])
        && have_modes(near, &[(false, VERTICAL, 0, DC)])
        && near.chroma_nc(0, &[0; 8], 0) == 3
        && matches!(near.neighbour(0, &[None; 16], 0, 1), Some(None))
}

// Above block 0 stands block 10, above block 5 block 15. The inter macroblock above and to the right is no side under
// constrained_intra_pred_flag.
fn the_row_above_is_there(near: &Near) -> bool {
    have_ncs(near, &[(0, 0, 0, 10), (0, 8, 5, 12)])
        && near.left_edge().is_none()
        && near.above_edge().is_some()
        && near.above_right(0, false)
        && !near.above_right(0, true)
}

fn neighbours_above(near: &Near) -> bool {
    matches!(near.neighbour(0, &[None; 16], 1, 0), Some(None))
        && matches!(near.neighbour(0, &[None; 16], 5, 0), Some(Some(_)))
        && near.neighbour(0, &[None; 16], 0, 0).is_none()
}

fn all_sides_are_there(near: &Near) -> bool {
    let samples = near.samples(0, true, &[VERTICAL; 16], 0);
    let modes = [
        (false, VERTICAL, 0, Intra4x4PredMode::Horizontal),
        (true, VERTICAL, 0, DC),
    ];
    !samples.above
        && samples.left
        && samples.corner
        && have_ncs(near, &[(0, 0, 0, 8)])
        && have_modes(near, &modes)
        && !near.above_right(0, false)
        && is_moved(near.neighbour(0, &[None; 16], 1, 0))
}
