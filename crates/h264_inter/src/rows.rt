ghost use Rattle.std.specs.Prelude.{◌≡◌, ℕ, ◌+◌, ◌<◌, ◌≤◌, length, get_or, ℤ, pos, ◌+ℤ◌};
ghost use Rattle.h264_inter.specs.Luma.{six};
ghost use Rattle.h264_plane.specs.Samples.{Samples, at};
ghost use Rattle.h264_inter.specs.Rows.{IsRow, IsHeld, LastFive, AllSix, LastFiveOfBoth, AllSixOfBoth, rows_at};

use crate::lanes::{load, plus, taps8};
use crate::lines::Lines;
use crate::window::{Window, Windows};
use std::simd::prelude::*;

/// Eight raised values of the filter over six columns of row `y + r`.
#[inline(always)]
fn across8(p: &Lines<'_>, x: usize, y: usize, r: usize) -> u16x8
    requires small { (x ≤ 16392) × (y ≤ 16400) × (r ≤ 32) }
    requires columns { x + 13 ≤ p.now.width }
    requires row { y + r < p.now.height }
    ensures each { (k : ℕ) → k < 8 → pos (get_or result k 0) ≡ six (λ i. pos (at p.now (x + k + i) (y + r))) +ℤ pos 2550 }
    ensures small { (k : ℕ) → k < 8 → get_or result k 0 ≤ 13260 }
{
    taps8(
        load(p, x, 0, y, r),
        load(p, x, 1, y, r),
        load(p, x, 2, y, r),
        load(p, x, 3, y, r),
        load(p, x, 4, y, r),
        load(p, x, 5, y, r),
    )
}

/// Eight values of row `y + r`: raised ones of the filter over six columns (`ACROSS`), or samples from column `x + c` on.
#[inline(always)]
fn row8<const ACROSS: bool>(p: &Lines<'_>, x: usize, c: usize, y: usize, r: usize) -> u16x8
    requires small { (x ≤ 16392) × (y ≤ 16400) × (c ≤ 5) × (r ≤ 32) }
    requires columns { x + 13 ≤ p.now.width }
    requires row { y + r < p.now.height }
    ensures { IsRow ACROSS p.now (rows_at x c y) r result }
{
    if ACROSS {
        across8(p, x, y, r)
    } else {
        load(p, x, c, y, r)
    }
}

/// A row as a window holds it: values across as they are, samples added to those of the row below.
#[inline(always)]
fn held<const ACROSS: bool>(row: u16x8, below: u16x8) -> u16x8
    ensures { (p : Samples) (x c y r : ℕ) → IsRow ACROSS p (rows_at x c y) r row → IsRow ACROSS p (rows_at x c y) (r + 1) below →
        IsHeld ACROSS p (rows_at x c y) r result }
{
    if ACROSS { row } else { plus(row, below) }
}

/// A window whose last five rows are those from row `y` on.
#[inline(always)]
fn first_rows<const ACROSS: bool>(p: &Lines<'_>, x: usize, c: usize, y: usize) -> Window
    requires small { (x ≤ 16392) × (y ≤ 16400) × (c ≤ 5) }
    requires columns { x + 13 ≤ p.now.width }
    requires rows { y + 5 ≤ p.now.height }
    ensures { LastFive ACROSS p.now (rows_at x c y) result }
{
    let f = row8::<ACROSS>(p, x, c, y, 0);
    let g = row8::<ACROSS>(p, x, c, y, 1);
    let h = row8::<ACROSS>(p, x, c, y, 2);
    let i = row8::<ACROSS>(p, x, c, y, 3);
    let j = row8::<ACROSS>(p, x, c, y, 4);
    Window {
        e: f,
        f: held::<ACROSS>(f, g),
        g: held::<ACROSS>(g, h),
        h: held::<ACROSS>(h, i),
        i: held::<ACROSS>(i, j),
        j,
    }
}

/// The window one row further down, whose six rows are those from row `y` on: one is read, the others are moved.
#[inline(always)]
fn next_row<const ACROSS: bool>(w: Window, p: &Lines<'_>, x: usize, c: usize, y: usize) -> Window
    requires small { (x ≤ 16392) × (y ≤ 16400) × (c ≤ 5) }
    requires columns { x + 13 ≤ p.now.width }
    requires rows { y + 6 ≤ p.now.height }
    requires above { LastFive ACROSS p.now (rows_at x c y) w }
    ensures { AllSix ACROSS p.now (rows_at x c y) result }
{
    let j = row8::<ACROSS>(p, x, c, y, 5);
    Window {
        e: w.f,
        f: w.g,
        g: w.h,
        h: w.i,
        i: held::<ACROSS>(w.j, j),
        j,
    }
}

/// The windows of a block of `W` columns, before its first row.
#[inline(always)]
pub fn first_windows<const ACROSS: bool, const W: usize>(
    p: &Lines<'_>,
    x: usize,
    c: usize,
    y: usize,
) -> Windows
    requires small { (x ≤ 16384) × (y ≤ 16400) × (c ≤ 5) }
    requires columns { x + 13 ≤ p.now.width }
    requires more_columns { 8 < W → x + 21 ≤ p.now.width }
    requires rows { y + 5 ≤ p.now.height }
    ensures { LastFiveOfBoth ACROSS W p.now (rows_at x c y) result }
{
    let left = first_rows::<ACROSS>(p, x, c, y);
    if W > 8 {
        let right = first_rows::<ACROSS>(p, x + 8, c, y);
        Windows { left, right }
    } else {
        Windows { left, right: left }
    }
}

/// The windows of a block of `W` columns at row `y`, from those of the row above.
#[inline(always)]
pub fn next_windows<const ACROSS: bool, const W: usize>(
    w: Windows,
    p: &Lines<'_>,
    x: usize,
    c: usize,
    y: usize,
) -> Windows
    requires small { (x ≤ 16384) × (y ≤ 16400) × (c ≤ 5) }
    requires columns { x + 13 ≤ p.now.width }
    requires more_columns { 8 < W → x + 21 ≤ p.now.width }
    requires rows { y + 6 ≤ p.now.height }
    requires above { LastFiveOfBoth ACROSS W p.now (rows_at x c y) w }
    ensures { AllSixOfBoth ACROSS W p.now (rows_at x c y) result }
{
    let left = next_row::<ACROSS>(w.left, p, x, c, y);
    if W > 8 {
        let right = next_row::<ACROSS>(w.right, p, x + 8, c, y);
        Windows { left, right }
    } else {
        Windows { left, right: left }
    }
}
