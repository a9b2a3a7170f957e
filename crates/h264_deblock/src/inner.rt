ghost use Rattle.std.specs.Prelude.{◌≡◌, ℕ, ◌+◌, ◌*◌, ◌<◌, ◌≤◌, slice_index, true, false};
ghost use Rattle.h264_plane.specs.Samples.{at, look, size_along, size_across};
ghost use Rattle.h264_deblock.specs.Line.{Strong, filtered as filtered_of};
ghost use Rattle.h264_deblock.specs.Edge.{taps};
ghost use Rattle.h264_deblock.specs.Limits.{Suits};
ghost use Rattle.h264_deblock.specs.Level.{filter_by};
ghost use Rattle.h264_deblock.specs.Inner.{inner_of, limits_at, HasInner, SameInner, AreBeside, AreNearest, AreNearestWritten};

use crate::columns::{columns_of, pair_in_turn};
use crate::lanes::{all, chosen, joined, plus};
use crate::limits::{LineLimits, Mix};
use crate::line::{below_four, moved, shifts_by, weak, within};
use h264_plane::{Plane, sixteen};
use std::simd::prelude::*;

/// The samples that the filter of an edge of chroma reads, of 8 lines of Cb and then of 8 lines of Cr.
#[derive(Clone, Copy)]
pub struct Inner {
    pub p1: u8x16,
    pub p0: u8x16,
    pub q0: u8x16,
    pub q1: u8x16,
}

/// The samples that it writes, of 8 lines.
#[derive(Clone, Copy)]
pub struct Nearest {
    pub p0: [u8; 8],
    pub q0: [u8; 8],
}

/// The lines of a vertical edge whose first q0 stands at column `x` of row `y`.
#[inline(always)]
fn read_columns(cb: &Plane, cr: &Plane, x: usize, y: usize) -> Inner
    requires small { (x < 65536) × (y < 65536) }
    requires before { 4 ≤ x }
    requires cb_after { x + 4 ≤ cb.now.width }
    requires cr_after { x + 4 ≤ cr.now.width }
    requires cb_rows { y + 8 ≤ cb.now.height }
    requires cr_rows { y + 8 ≤ cr.now.height }
    ensures cb { HasInner true cb.now y x result }
    ensures cr { (n : ℕ) → n < 8 → SameInner (inner_of result (8 + n)) (taps (look true cr.now (y + n)) x) }
{
    let samples = columns_of(cb, y, cr, y, x - 4);
    Inner {
        p1: sixteen(&samples, 32),
        p0: sixteen(&samples, 48),
        q0: sixteen(&samples, 64),
        q1: sixteen(&samples, 80),
    }
}

/// Eight samples of a row of each of two planes.
#[inline(always)]
fn read_pair(cb: &Plane, cr: &Plane, x: usize, y: usize) -> u8x16
    requires small { x < 65536 }
    requires cb_columns { x + 8 ≤ cb.now.width }
    requires cr_columns { x + 8 ≤ cr.now.width }
    requires cb_row { y < cb.now.height }
    requires cr_row { y < cr.now.height }
    ensures cb { (n : ℕ) → n < 8 → slice_index result n ≡ at cb.now (x + n) y }
    ensures cr { (n : ℕ) → n < 8 → slice_index result (8 + n) ≡ at cr.now (x + n) y }
{
    joined(cb.row(y), x, cr.row(y), x)
}

/// The lines of a horizontal edge whose first q0 stands at column `x` of row `y`.
#[inline(always)]
fn read_rows(cb: &Plane, cr: &Plane, x: usize, y: usize) -> Inner
    requires small { (x < 65536) × (y < 65536) }
    requires cb_columns { x + 8 ≤ cb.now.width }
    requires cr_columns { x + 8 ≤ cr.now.width }
    requires before { 4 ≤ y }
    requires cb_after { y + 4 ≤ cb.now.height }
    requires cr_after { y + 4 ≤ cr.now.height }
    ensures cb { HasInner false cb.now x y result }
    ensures cr { (n : ℕ) → n < 8 → SameInner (inner_of result (8 + n)) (taps (look false cr.now (x + n)) y) }
{
    Inner {
        p1: read_pair(cb, cr, x, y - 2),
        p0: read_pair(cb, cr, x, y - 1),
        q0: read_pair(cb, cr, x, y),
        q1: read_pair(cb, cr, x, y + 1),
    }
}

/// The lines of an edge of both planes of chroma.
#[inline(always)]
pub fn read_inner<const VERTICAL: bool>(
    cb: &Plane,
    cr: &Plane,
    along: usize,
    across: usize,
) -> Inner
    requires small { (along < 65536) × (across < 65536) }
    requires cb_along { along + 8 ≤ size_along VERTICAL cb.now }
    requires cr_along { along + 8 ≤ size_along VERTICAL cr.now }
    requires before { 4 ≤ across }
    requires cb_after { across + 4 ≤ size_across VERTICAL cb.now }
    requires cr_after { across + 4 ≤ size_across VERTICAL cr.now }
    ensures cb { HasInner VERTICAL cb.now along across result }
    ensures cr { (n : ℕ) → n < 8 → SameInner (inner_of result (8 + n)) (taps (look VERTICAL cr.now (along + n)) across) }
{
    if VERTICAL {
        read_columns(cb, cr, across, along)
    } else {
        read_rows(cb, cr, along, across)
    }
}

/// The samples next to the edge after its filter, of 16 lines.
#[derive(Clone, Copy)]
struct Pairs {
    p0: u8x16,
    q0: u8x16,
}

/// The samples after the filter of bS 1, 2 or 3, by tC0. Lines of another number stay.
#[inline(always)]
fn normal(r: &Inner, k: &LineLimits) -> Pairs
    ensures { AreBeside result (λ n. filtered_of true
        (record { alpha = k.now.alpha; beta = k.now.beta; filter = filter_by (slice_index k.now.numbers n) }) (inner_of r.now n)) }
{
    let on = below_four(within(r, k.alpha, k.beta), &k.numbers);
    let t = chosen(on, u8x16::from_array(k.numbers), all(0));
    let s = shifts_by(r, plus(t, on));
    Pairs {
        p0: moved(r.p0, s.up, s.down),
        q0: moved(r.q0, s.down, s.up),
    }
}

/// The samples after the filter of bS 4.
#[inline(always)]
fn strong(r: &Inner, k: &LineLimits) -> Pairs
    ensures { AreBeside result
        (λ n. filtered_of true (record { alpha = k.now.alpha; beta = k.now.beta; filter = Strong }) (inner_of r.now n)) }
{
    let on = within(r, k.alpha, k.beta);
    Pairs {
        p0: chosen(on, weak(r.p1, r.p0, r.q1), r.p0),
        q0: chosen(on, weak(r.q1, r.q0, r.p1), r.q0),
    }
}

/// The samples after the filter of an edge. Where each of its bS is 4, or none, they take the steps of one kind alone.
#[inline(always)]
fn filtered(r: &Inner, k: &LineLimits, mix: Mix) -> Pairs
    requires { (n : ℕ) → n < 16 → Suits mix (slice_index k.now.numbers n) }
    ensures { AreBeside result (λ n. filtered_of true (limits_at k.now n) (inner_of r.now n)) }
{
    match mix {
        Mix::NoFour => normal(r, k),
        Mix::AllFour => strong(r, k),
    }
}

/// The samples of the first eight lines.
#[inline(always)]
fn first_eight(v: u8x16) -> [u8; 8]
    ensures { (n : ℕ) → n < 8 → slice_index result n ≡ slice_index v n }
{
    v.swizzle([0, 1, 2, 3, 4, 5, 6, 7]).to_array()
}

/// The samples of the last eight lines.
#[inline(always)]
fn last_eight(v: u8x16) -> [u8; 8]
    ensures { (n : ℕ) → n < 8 → slice_index result n ≡ slice_index v (8 + n) }
{
    v.swizzle([8, 9, 10, 11, 12, 13, 14, 15]).to_array()
}

/// The nearest samples of the lines of Cb, and of those of Cr, after the filter of an edge.
#[inline(always)]
pub fn filtered_pair(r: &Inner, k: &LineLimits, mix: Mix) -> (Nearest, Nearest)
    requires { (n : ℕ) → n < 16 → Suits mix (slice_index k.now.numbers n) }
    ensures cb { AreNearest result.0 (λ n. filtered_of true (limits_at k.now n) (inner_of r.now n)) }
    ensures cr { AreNearest result.1 (λ n. filtered_of true (limits_at k.now (8 + n)) (inner_of r.now (8 + n))) }
{
    let after = filtered(r, k, mix);
    let cb = Nearest {
        p0: first_eight(after.p0),
        q0: first_eight(after.q0),
    };
    let cr = Nearest {
        p0: last_eight(after.p0),
        q0: last_eight(after.q0),
    };
    (cb, cr)
}

/// Writes the sample on each side of the lines of a vertical edge.
#[inline(always)]
fn write_columns(plane: &mut Plane, x: usize, y: usize, r: &Nearest)
    requires small { (x < 65536) × (y < 65536) }
    requires before { 4 ≤ x }
    requires following { x + 4 ≤ plane.old.width }
    requires rows { y + 8 ≤ plane.old.height }
    ensures { AreNearestWritten true plane.old plane.new y x r.now }
{
    plane.put_block::<2, 8>(x - 1, y, &pair_in_turn(&r.p0, 0, &r.q0, 0));
}

/// Writes the row on each side of a horizontal edge.
#[inline(always)]
fn write_rows(plane: &mut Plane, x: usize, y: usize, r: &Nearest)
    requires small { (x < 65536) × (y < 65536) }
    requires columns { x + 8 ≤ plane.old.width }
    requires before { 4 ≤ y }
    requires following { y + 4 ≤ plane.old.height }
    ensures { AreNearestWritten false plane.old plane.new x y r.now }
{
    plane.put_run(x, y - 1, &r.p0);
    plane.put_run(x, y, &r.q0);
}

/// Writes the sample on each side of the lines of an edge of chroma.
#[inline(always)]
pub fn write_nearest<const VERTICAL: bool>(
    plane: &mut Plane,
    along: usize,
    across: usize,
    r: &Nearest,
)
    requires small { (along < 65536) × (across < 65536) }
    requires along { along + 8 ≤ size_along VERTICAL plane.old }
    requires before { 4 ≤ across }
    requires following { across + 4 ≤ size_across VERTICAL plane.old }
    ensures { AreNearestWritten VERTICAL plane.old plane.new along across r.now }
{
    if VERTICAL {
        write_columns(plane, across, along, r);
    } else {
        write_rows(plane, along, across, r);
    }
}
