//! The filter of the lines of an edge of luma, sixteen at once (8.7.2.3, 8.7.2.4).
#![tactic(auto)]

ghost use Rattle.std.specs.Prelude.{◌≡◌, ◌⊎◌, ℕ, ◌+◌, ◌<◌, ◌&&◌, Bool, true, false, slice_index, get_or, nat_lt, pos, neg_ℤ, ◌+ℤ◌};
ghost use Rattle.std.specs.Int.{abs_diff};
ghost use Rattle.h264_deblock.specs.Line.{Strong, filtered, is_within_limits, is_flat, number, clip3, bend};
ghost use Rattle.h264_deblock.specs.Limits.{Suits};
ghost use Rattle.h264_deblock.specs.Inner.{limits_at};
ghost use Rattle.h264_deblock.specs.Rows.{line_of, sign, IsFiltered, side_by, side_of};
ghost use Rattle.h264_deblock.specs.Level.{filter_by};

use crate::lanes::{
    above, all, are_zero, average, average_down, chosen, eighth, fourth, greatest, least, near,
    outer_eighth, plus, three, topped,
};
use crate::limits::{LineLimits, Mix, OFF};
use crate::line::{below_four, moved, shifts_by, weak, within};
use crate::rows::Rows;
use std::simd::prelude::*;

/// The three samples of one side that a filter changes, the nearest to the edge first.
#[derive(Clone, Copy)]
pub struct Side {
    pub x0: u8x16,
    pub x1: u8x16,
    pub x2: u8x16,
}

/// 1 in the lines of which `on` has a 1 and ap is below beta, else 0.
#[inline(always)]
fn flat(r: &Rows, on: u8x16, beta: u8) -> u8x16
    ensures { (n : ℕ) → n < 16 → (o : Bool) → get_or on n 0 ≡ sign o →
        get_or result n 0 ≡ sign (o && nat_lt (abs_diff (slice_index r.now.p2 n) (slice_index r.now.p0 n)) beta) }
{
    least(on, near(r.p2, r.p0, beta))
}

/// p1 where bS is below 4, moved by no more than so much (8.7.2.3).
#[inline(always)]
fn bent(r: &Rows, most: u8x16) -> u8x16
    ensures { (n : ℕ) → n < 16 → slice_index result n ≡ number (pos (line_of r.now n).p1
        +ℤ clip3 (neg_ℤ (pos (get_or most n 0))) (pos (get_or most n 0)) (bend (line_of r.now n))) }
{
    let edge = average(r.p0, r.q0);
    let middle = average_down(r.p2, edge);
    least(greatest(middle, above(r.p1, most)), topped(r.p1, most))
}

/// The lines after the filter of bS 1, 2 or 3, by tC0. Lines of another number stay.
#[inline(always)]
fn normal(r: &Rows, k: &LineLimits) -> Rows
    ensures { (n : ℕ) → n < 16 → line_of result n
        ≡ filtered false (record { alpha = k.now.alpha; beta = k.now.beta; filter = filter_by (slice_index k.now.numbers n) }) (line_of r.now n) }
{
    let inner = r.inner();
    let turned = r.turned();
    let on = below_four(within(&inner, k.alpha, k.beta), &k.numbers);
    let t = chosen(on, u8x16::from_array(k.numbers), all(0));
    let p = flat(r, on, k.beta);
    let q = flat(&turned, on, k.beta);
    let s = shifts_by(&inner, plus(plus(t, p), q));
    Rows {
        p3: r.p3,
        p2: r.p2,
        p1: bent(r, chosen(p, t, all(0))),
        p0: moved(r.p0, s.up, s.down),
        q0: moved(r.q0, s.down, s.up),
        q1: bent(&turned, chosen(q, t, all(0))),
        q2: r.q2,
        q3: r.q3,
    }
}

/// The side of p where bS is 4, by the lines that are filtered, and those by the stronger filter.
#[inline(always)]
fn side_of_four(r: &Rows, on: u8x16, smooth: u8x16) -> Side
    ensures { (n : ℕ) → n < 16 → (o s : Bool) → get_or on n 0 ≡ sign o → get_or smooth n 0 ≡ sign s →
        side_of result n ≡ side_by o s (line_of r.now n) }
{
    let inner = three(r.p1, r.p0, r.q0);
    let x0 = chosen(on, weak(r.p1, r.p0, r.q1), r.p0);
    Side {
        x0: chosen(smooth, eighth(r.p2, inner, r.q1), x0),
        x1: chosen(smooth, fourth(r.p2, inner), r.p1),
        x2: chosen(smooth, outer_eighth(r.p3, r.p2, inner), r.p2),
    }
}

/// The lines after the filter of bS 4.
#[inline(always)]
fn strong(r: &Rows, k: &LineLimits) -> Rows
    ensures { (n : ℕ) → n < 16 → line_of result n
        ≡ filtered false (record { alpha = k.now.alpha; beta = k.now.beta; filter = Strong }) (line_of r.now n) }
{
    let turned = r.turned();
    let on = within(&r.inner(), k.alpha, k.beta);
    let close = near(r.p0, r.q0, (k.alpha >> 2) + 2);
    let smooth_p = least(flat(r, on, k.beta), close);
    let smooth_q = least(flat(&turned, on, k.beta), close);
    let Side {
        x0: p0,
        x1: p1,
        x2: p2,
    } = side_of_four(r, on, smooth_p);
    let Side {
        x0: q0,
        x1: q1,
        x2: q2,
    } = side_of_four(&turned, on, smooth_q);
    Rows {
        p3: r.p3,
        p2,
        p1,
        p0,
        q0,
        q1,
        q2,
        q3: r.q3,
    }
}

/// The lines of an edge of luma after its filter. Where each bS of the edge is 4, or none, they take the steps of one kind alone.
#[inline(always)]
pub fn filtered_rows(r: &Rows, k: &LineLimits, mix: Mix) -> Rows
    requires { (n : ℕ) → n < 16 → Suits mix (slice_index k.now.numbers n) }
    ensures { IsFiltered r.now result (limits_at k.now) }
{
    match mix {
        Mix::NoFour => normal(r, k),
        Mix::AllFour => strong(r, k),
    }
}

/// Lines of luma that ask for their filter have a number above 0: those within the limits whose bS is not 0.
#[inline(always)]
fn asking(within: u8x16, numbers: u8x16) -> u8x16
    ensures { (n : ℕ) → n < 16 → (w : Bool) → get_or within n 0 ≡ sign w → get_or result n 0 ≡ 0 → (w ≡ false) ⊎ (get_or numbers n 0 ≡ 255) }
{
    least(within, above(all(OFF), numbers))
}

/// Whether no line of an edge of luma asks for its filter: bS is 0, or its samples are not within the thresholds (8.7.2.2).
#[inline(always)]
pub fn are_quiet(r: &Rows, k: &LineLimits) -> bool
    ensures quiet { result ≡ true → IsFiltered r.now r.now (limits_at k.now) }
{
    let within = within(&r.inner(), k.alpha, k.beta);
    are_zero(asking(within, u8x16::from_array(k.numbers)))
}
