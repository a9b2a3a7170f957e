//! What no clause says: vectors by hand.
#![tactic(auto)]

use crate::macroblocks::{inter, motion, parts_of, slice};
use h264_base::SliceType;
use h264_near::{Contexts, Near, Vector};
use h264_vectors::{
    Direction, Part, PredictedPart, Surroundings, VectorDifference, derive, has_picture, motion_of,
    predicted_vector, skip_vector, vector_fits,
};
use std::test::Fail;

/// An inter macroblock all of whose blocks have this reference and vector.
fn macroblock(ref_idx: u8, x: i16, y: i16) -> Contexts {
    inter(motion(ref_idx, 7, x, y))
}

/// The predicted vector of a macroblock of one part.
fn whole(near: &Near, direction: Direction, ref_idx: u8) -> (i16, i16) {
    let part = Part {
        x: 0,
        y: 0,
        wide: 4,
        high: 4,
        direction,
    };
    let v = predicted_vector(near, 0, &[None; 16], part, ref_idx);
    (v.x, v.y)
}

#[test]
fn vectors(rt: HostRuntime) -> Result<(), Fail> {
    let mut near = Near::new(rt.alloc(), 3)?;
    assert!(rt; parts(&near) && whole(&near, Direction::Median, 0) == (0, 0));
    near.push(&macroblock(0, 12, 0));
    // Where only the left one is there, its vector is taken, whatever its reference.
    assert!(rt; whole(&near, Direction::Median, 1) == (12, 0));
    near.push(&macroblock(1, 4, -4));
    near.push(&macroblock(0, -8, 8));
    near.push(&macroblock(0, 2, 2));
    assert!(rt; all_sides_move(&near));
    near.push(&macroblock(0, 0, 0));
    // The left one stands still.
    assert!(rt; skipped(&near) == (0, 0));
    Ok(())
}

#[test]
fn pictures_and_limits(rt: HostRuntime) {
    assert!(rt; pictures() && limits());
}

/// The vector of a skipped macroblock.
fn skipped(near: &Near) -> (i16, i16) {
    let v = skip_vector(near, 0);
    (v.x, v.y)
}

/// A is (2, 2) with reference 0, B (4, -4) with 1, C (-8, 8) with 0: the median, or the only one with the reference.
fn all_sides_move(near: &Near) -> bool {
    whole(near, Direction::Median, 0) == (2, 2)
        && whole(near, Direction::Median, 1) == (4, -4)
        && whole(near, Direction::FromC, 0) == (-8, 8)
        && whole(near, Direction::FromA, 1) == (4, -4)
        && whole(near, Direction::FromB, 1) == (4, -4)
        && skipped(near) == (2, 2)
}

/// The lower half of a macroblock, by its left neighbour.
const LOWER: PredictedPart = PredictedPart {
    place: Part {
        x: 0,
        y: 2,
        wide: 4,
        high: 2,
        direction: Direction::FromA,
    },
    ref_idx: 0,
};

fn parts(near: &Near) -> bool {
    let slice = slice(SliceType::P, 2, [Some(7), None]);
    let around = Surroundings {
        near,
        slice: &slice,
    };
    let mut motions = [None; 16];
    let fits = VectorDifference {
        across: 5,
        down: 255,
    };
    let is_derived = derive(around, LOWER, fits, true, &mut motions)
        && motions[7].is_none()
        && parts_of(motions[8]) == Some((0, 7, 5, 255));
    let too_far = VectorDifference {
        across: 0,
        down: 256,
    };
    is_derived && !derive(around, LOWER, too_far, true, &mut motions)
}

fn pictures() -> bool {
    let slice = slice(SliceType::P, 2, [Some(7), None]);
    has_picture(&slice, 0)
        && !has_picture(&slice, 1)
        && !has_picture(&slice, 16)
        && motion_of(&slice, 0, Vector { x: 1, y: 2 }).picture == 7
}

fn limits() -> bool {
    vector_fits(256, Vector { x: -8192, y: -256 }) && !vector_fits(256, Vector { x: 8191, y: 256 })
}
