//! Predicted vectors (8.4.1.1, 8.4.1.3).
#![tactic(auto)]

ghost use Rattle.std.specs.Prelude.{◌≡◌, ℕ, suc, ◌+◌, ◌<◌, ◌≤◌, List, [], Option};
ghost use Rattle.h264_near.specs.Coded.{CodedMacroblock};
ghost use Rattle.h264_near.specs.Keeps.{Keeps};
ghost use Rattle.h264_vectors.specs.Vectors as syntax;

use crate::part::{Direction, Part};
use h264_near::{Motion, Near, Vector};

#[inline]
fn lesser(a: i16, b: i16) -> i16
    ensures { result ≡ syntax.lesser a b }
{
    if a <= b { a } else { b }
}

#[inline]
fn greater(a: i16, b: i16) -> i16
    ensures { result ≡ syntax.greater a b }
{
    if a <= b { b } else { a }
}

#[tactic(auto, unfolding(crate::specs::Vectors::median))]
#[inline]
fn median(a: i16, b: i16, c: i16) -> i16
    ensures { result ≡ syntax.median a b c }
{
    greater(lesser(a, b), lesser(greater(a, b), c))
}

#[inline]
fn vector_of(neighbour: Option<Option<Motion>>) -> Vector
    ensures { result ≡ syntax.vector_of neighbour }
{
    match neighbour {
        None => Vector { x: 0, y: 0 },
        Some(None) => Vector { x: 0, y: 0 },
        Some(Some(motion)) => motion.vector,
    }
}

#[inline]
fn refers(ref_idx: u8, neighbour: Option<Option<Motion>>) -> bool
    ensures { result ≡ syntax.refers ref_idx neighbour }
{
    match neighbour {
        None => false,
        Some(None) => false,
        Some(Some(motion)) => motion.ref_idx == ref_idx,
    }
}

#[tactic(auto, unfolding(crate::specs::Vectors::chosen))]
#[inline]
fn chosen(in_a: bool, in_b: bool, in_c: bool, a: Vector, b: Vector, c: Vector) -> Vector
    ensures { result ≡ syntax.chosen in_a in_b in_c a b c }
{
    match (in_a, in_b, in_c) {
        (true, false, false) => a,
        (false, true, false) => b,
        (false, false, true) => c,
        _ => Vector {
            x: median(a.x, b.x, c.x),
            y: median(a.y, b.y, c.y),
        },
    }
}

#[inline]
fn instead(c: Option<Option<Motion>>, d: Option<Option<Motion>>) -> Option<Option<Motion>>
    ensures { result ≡ syntax.instead c d }
{
    match c {
        None => d,
        Some(c) => Some(c),
    }
}

#[tactic(auto, unfolding(crate::specs::Vectors::by_median))]
#[inline]
fn by_median(
    ref_idx: u8,
    a: Option<Option<Motion>>,
    b: Option<Option<Motion>>,
    c: Option<Option<Motion>>,
) -> Vector
    ensures { result ≡ syntax.by_median ref_idx a b c }
{
    if let (Some(a), None, None) = (a, b, c) {
        return vector_of(Some(a));
    }
    chosen(
        refers(ref_idx, a),
        refers(ref_idx, b),
        refers(ref_idx, c),
        vector_of(a),
        vector_of(b),
        vector_of(c),
    )
}

#[inline]
fn preferred(
    direction: Direction,
    a: Option<Option<Motion>>,
    b: Option<Option<Motion>>,
    c: Option<Option<Motion>>,
) -> Option<Option<Motion>>
    ensures { result ≡ syntax.preferred direction a b c }
{
    match direction {
        Direction::Median => None,
        Direction::FromA => a,
        Direction::FromB => b,
        Direction::FromC => c,
    }
}

#[tactic(auto, unfolding(crate::specs::Vectors::by_direction))]
#[inline]
fn by_direction(
    direction: Direction,
    ref_idx: u8,
    a: Option<Option<Motion>>,
    b: Option<Option<Motion>>,
    c: Option<Option<Motion>>,
) -> Vector
    ensures { result ≡ syntax.by_direction direction ref_idx a b c }
{
    let first = preferred(direction, a, b, c);
    if refers(ref_idx, first) {
        return vector_of(first);
    }
    by_median(ref_idx, a, b, c)
}

/// The predicted vector of a part that begins at the first block of its macroblock and is as wide: all that it looks at stands around the macroblock.
#[inline(always)]
fn vector_of_whole(
    near: &Near,
    slice: u32,
    motions: &[Option<Motion>; 16],
    direction: Direction,
    ref_idx: u8,
) -> Vector
    ensures { (width : ℕ) (picture : List CodedMacroblock) → Keeps width picture near.now →
        result ≡ syntax.predicted_vector width picture slice motions.now (syntax.whole direction) ref_idx }
{
    let a = near.neighbour(slice, motions, 0, 1);
    let b = near.neighbour(slice, motions, 1, 0);
    let c = near.neighbour(slice, motions, 5, 0);
    let d = near.neighbour(slice, motions, 0, 0);
    let beyond = instead(c, d);
    by_direction(direction, ref_idx, a, b, beyond)
}

/// The predicted vector of a part of this refIdxL0 (8.4.1.3). `motions` has those of the blocks of its macroblock that are derived.
pub fn predicted_vector(
    near: &Near,
    slice: u32,
    motions: &[Option<Motion>; 16],
    part: Part,
    ref_idx: u8,
) -> Vector
    requires columns { part.x + part.wide ≤ 4 }
    requires rows { part.y < 4 }
    ensures { (width : ℕ) (picture : List CodedMacroblock) → Keeps width picture near.now →
        result ≡ syntax.predicted_vector width picture slice motions.now part ref_idx }
{
    let Part {
        x,
        y,
        wide,
        direction,
        ..
    } = part;
    if (x, y, wide) == (0, 0, 4) {
        return vector_of_whole(near, slice, motions, direction, ref_idx);
    }
    let a = near.neighbour(slice, motions, x, y + 1);
    let b = near.neighbour(slice, motions, x + 1, y);
    let c = near.neighbour(slice, motions, x + wide + 1, y);
    let d = near.neighbour(slice, motions, x, y);
    by_direction(direction, ref_idx, a, b, instead(c, d))
}

/// Whether a neighbour lets a skipped macroblock stand still.
#[inline]
fn keeps_still(neighbour: Option<Option<Motion>>) -> bool
    ensures { result ≡ syntax.keeps_still neighbour }
{
    match neighbour {
        None => true,
        Some(None) => false,
        Some(Some(motion)) => motion.ref_idx == 0 && (motion.vector.x == 0 && motion.vector.y == 0),
    }
}

/// The vector of a skipped macroblock.
#[tactic(auto, unfolding(crate::specs::Vectors::skip_vector))]
pub fn skip_vector(near: &Near, slice: u32) -> Vector
    ensures { (width : ℕ) (picture : List CodedMacroblock) → Keeps width picture near.now → result ≡ syntax.skip_vector width picture slice }
{
    let a = near.neighbour(slice, &[None; 16], 0, 1);
    if keeps_still(a) {
        return Vector { x: 0, y: 0 };
    }
    let b = near.neighbour(slice, &[None; 16], 1, 0);
    if keeps_still(b) {
        return Vector { x: 0, y: 0 };
    }
    vector_of_whole(near, slice, &[None; 16], Direction::Median, 0)
}
