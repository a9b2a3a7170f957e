ghost use Rattle.std.specs.Prelude.{◌≡◌, ◌≢◌, ◌⊎◌, ℕ, ◌+◌, ◌*◌, ◌-◌, ◌<◌, ◌≤◌, true, false, length, get_or, slice_index, ℤ, pos, ◌+ℤ◌, ◌-ℤ◌};
ghost use Rattle.h264_plane.specs.Samples.{Samples, at};
ghost use Rattle.h264_inter.specs.Reference.{HasBlock};
ghost use Rattle.h264_inter.specs.Luma.{six, half as half_of, central as central_of, middle, quarter};
ghost use Rattle.h264_inter.specs.Rows.{AllSix, AreSixTaps, LastFiveOfBoth, AllSixOfBoth, AreUpTo, partner as partner_of, rows_at};

use crate::lanes::{
    beside, between8, bytes, central8, half8, joined, load, load16, mean8, mean16, plus, raised,
    riffled, times,
};
use crate::lines::Lines;
use crate::pairs::{SixTaps, difference_and, pair_sums, sum_rounded};
use crate::rows::{first_windows, next_windows};
use crate::window::{Window, Windows};
use h264_plane::{eight, sixteen};
use std::simd::prelude::*;

/// `W` samples of row `y` from column `x` on, by value, so that they are read before any is written.
#[inline(always)]
fn whole_row<const W: usize>(p: &Lines<'_>, x: usize, y: usize) -> [u8; W]
    requires small { (W ≤ 16) × (x ≤ 16384) }
    requires columns { x + W ≤ p.now.width }
    requires row { y < p.now.height }
    ensures { (u : ℕ) → u < W → slice_index result u ≡ at p.now (x + u) y }
{
    let mut samples = [0; W];
    samples.copy_from_slice(&p.row(y)[x..x + W]);
    samples
}

/// Writes them. Eight and sixteen are read and stored as one vector, which the compiler does not make of a copy in every loop.
#[inline(always)]
fn put_whole_row<const W: usize>(p: &Lines<'_>, x: usize, y: usize, out: &mut [u8])
    requires small { (W ≤ 16) × (x ≤ 16384) }
    requires columns { x + W ≤ p.now.width }
    requires row { y < p.now.height }
    requires whole { length out.old ≡ W }
    ensures whole { length out.new ≡ W }
    ensures each { (u : ℕ) → u < W → slice_index out.new u ≡ at p.now (x + u) y }
{
    if W == 16 {
        put_row::<W>(sixteen(p.row(y), x).to_array(), out);
    } else if W == 8 {
        eight(p.row(y), x).copy_to_slice(out);
    } else {
        let row = whole_row::<W>(p, x, y);
        out.copy_from_slice(&row);
    }
}

/// The whole samples of a block.
#[inline(always)]
pub fn whole_block<const W: usize, const H: usize>(p: Lines<'_>, x: usize, y: usize, out: &mut [u8])
    requires size { (W ≤ 16) × (H ≤ 16) }
    requires small { (x ≤ 16384) × (y ≤ 16384) }
    requires columns { x + W ≤ p.width }
    requires rows { y + H ≤ p.height }
    requires whole { length out.old ≡ W * H }
    ensures { HasBlock W H out.new (λ u v. at p.entry (x + u) (y + v)) }
{
    for v in 0..H {
        put_whole_row::<W>(&p, x, y + v, &mut out[W * v..W * v + W]);
    }
}

/// Eight samples between two columns of row `y + r`.
#[inline(always)]
fn b8(p: &Lines<'_>, x: usize, y: usize, r: usize) -> u16x8
    requires small { (x ≤ 16392) × (y ≤ 16400) × (r ≤ 32) }
    requires columns { x + 13 ≤ p.now.width }
    requires row { y + r < p.now.height }
    ensures each { (k : ℕ) → k < 8 → get_or result k 0 ≡ half_of (six (λ i. pos (at p.now (x + k + i) (y + r)))) }
    ensures small { (k : ℕ) → k < 8 → get_or result k 0 < 256 }
{
    between8(
        load(p, x, 0, y, r),
        load(p, x, 1, y, r),
        load(p, x, 2, y, r),
        load(p, x, 3, y, r),
        load(p, x, 4, y, r),
        load(p, x, 5, y, r),
    )
}

/// The column, of the six, of the samples between two rows that a place is made of: that of m where it is nearer than that of h.
#[inline(always)]
fn partner<const X: usize>() -> usize
    ensures value { result ≡ partner_of X }
    ensures bound { result ≤ 3 }
{
    if X == 3 { 3 } else { 2 }
}

/// Eight samples between two rows of a window. Over the sums of each two rows the six taps are 1, -6, 26, -6 and 1. 26 is 32 less 6, and a 32nd of 32
/// sums is the sum itself.
#[inline(always)]
fn h8(w: Window) -> u16x8
    requires sums { AreUpTo 510 w }
    ensures each { (p : Samples) (x c y : ℕ) → AllSix false p (rows_at x c y) w → (k : ℕ) → k < 8 →
        get_or result k 0 ≡ half_of (six (λ i. pos (at p (x + k + c) (y + i)))) }
    ensures small { (k : ℕ) → k < 8 → get_or result k 0 < 256 }
{
    let outer = raised(plus(w.e, w.i), 16);
    let inner = times(plus(plus(w.f, w.g), w.h), 6);
    difference_and(outer, inner, w.g)
}

/// Eight samples j, of a window of values across.
#[inline(always)]
fn j8(w: Window) -> u16x8
    requires across { AreUpTo 13260 w }
    ensures each { (p : Samples) (x c y : ℕ) → AllSix true p (rows_at x c y) w → (k : ℕ) → k < 8 →
        get_or result k 0 ≡ central_of (middle (λ i j. at p (x + k + i) (y + j))) }
    ensures small { (k : ℕ) → k < 8 → get_or result k 0 < 256 }
{
    central8(w.e, w.f, w.g, w.h, w.i, w.j)
}

/// Eight samples between two columns of row `y + r`, every other one from column `x + c` on.
#[inline(always)]
fn every_other(p: &Lines<'_>, x: usize, c: usize, y: usize, r: usize, taps: &SixTaps) -> u16x8
    requires small { (x ≤ 16384) × (c ≤ 1) × (y ≤ 16400) × (r ≤ 32) }
    requires columns { x + c + 20 ≤ p.now.width }
    requires row { y + r < p.now.height }
    requires taps { AreSixTaps taps.now }
    ensures each { (k : ℕ) → k < 8 → get_or result k 0 ≡ half_of (six (λ i. pos (at p.now (x + (2 * k + c) + i) (y + r)))) }
    ensures small { (k : ℕ) → k < 8 → get_or result k 0 < 256 }
{
    let first = pair_sums::<1, -5>(load16(p, x, c, y, r), taps.first);
    let middle = pair_sums::<20, 20>(load16(p, x, c + 2, y, r), taps.middle);
    let last = pair_sums::<-5, 1>(load16(p, x, c + 4, y, r), taps.last);
    sum_rounded(first, middle, last)
}

/// Sixteen samples between two columns of row `y + r`: those in even places and those in odd ones are made by themselves.
#[inline(always)]
fn b16(p: &Lines<'_>, x: usize, y: usize, r: usize, taps: &SixTaps) -> u8x16
    requires small { (x ≤ 16384) × (y ≤ 16400) × (r ≤ 32) }
    requires columns { x + 21 ≤ p.now.width }
    requires row { y + r < p.now.height }
    requires taps { AreSixTaps taps.now }
    ensures { (u : ℕ) → u < 16 → get_or result u 0 ≡ half_of (six (λ i. pos (at p.now (x + u + i) (y + r)))) }
{
    let even = every_other(p, x, 0, y, r, taps);
    let odd = every_other(p, x, 1, y, r, taps);
    riffled(beside(even, odd))
}

/// Samples of row `y + r` for a row of a block, from column `x + c` on.
#[inline(always)]
fn samples_row<const W: usize>(p: &Lines<'_>, x: usize, c: usize, y: usize, r: usize) -> [u8; 16]
    requires size { W ≤ 16 }
    requires small { (x ≤ 16384) × (y ≤ 16400) × (c ≤ 5) × (r ≤ 32) }
    requires columns { x + 13 ≤ p.now.width }
    requires more_columns { 8 < W → x + 21 ≤ p.now.width }
    requires row { y + r < p.now.height }
    ensures { (u : ℕ) → u < W → slice_index result u ≡ at p.now (x + u + c) (y + r) }
{
    if W > 8 {
        load16(p, x, c, y, r).to_array()
    } else {
        let few = load(p, x, c, y, r);
        beside(few, few).to_array()
    }
}

/// Samples between two columns of row `y + r` for a row of a block.
#[inline(always)]
fn across_row<const W: usize>(
    p: &Lines<'_>,
    x: usize,
    y: usize,
    r: usize,
    taps: &SixTaps,
) -> [u8; 16]
    requires size { W ≤ 16 }
    requires taps { AreSixTaps taps.now }
    requires small { (x ≤ 16384) × (y ≤ 16400) × (r ≤ 32) }
    requires columns { x + 13 ≤ p.now.width }
    requires more_columns { 8 < W → x + 21 ≤ p.now.width }
    requires row { y + r < p.now.height }
    ensures { (u : ℕ) → u < W → slice_index result u ≡ half_of (six (λ i. pos (at p.now (x + u + i) (y + r)))) }
{
    if W > 8 {
        b16(p, x, y, r, taps).to_array()
    } else {
        let few = b8(p, x, y, r);
        beside(few, few).to_array()
    }
}

/// Samples between two rows of windows for a row of a block.
#[inline(always)]
fn down_row<const W: usize>(w: Windows) -> [u8; 16]
    requires size { W ≤ 16 }
    requires left { AreUpTo 510 w.left }
    requires right { 8 < W → AreUpTo 510 w.right }
    ensures { (p : Samples) (x c y : ℕ) → AllSixOfBoth false W p (rows_at x c y) w → (u : ℕ) → u < W →
        slice_index result u ≡ half_of (six (λ i. pos (at p (x + u + c) (y + i)))) }
{
    let lo = h8(w.left);
    if W > 8 {
        beside(lo, h8(w.right)).to_array()
    } else {
        beside(lo, lo).to_array()
    }
}

/// Writes a row of a block of `W` columns. Eight and sixteen samples are stored as one vector, wherever they stand.
#[inline(always)]
pub fn put_row<const W: usize>(row: [u8; 16], out: &mut [u8])
    requires size { W ≤ 16 }
    requires whole { length out.old ≡ W }
    ensures whole { length out.new ≡ W }
    ensures each { (u : ℕ) → u < W → slice_index out.new u ≡ slice_index row u }
{
    if W == 16 {
        u8x16::from_array(row).copy_to_slice(out);
    } else if W == 8 {
        u8x8::from_slice(&row).copy_to_slice(out);
    } else {
        out.copy_from_slice(&row[..W]);
    }
}

/// A row of a block at a quarter place without j. Blocks of less than eight columns get more.
#[tactic(auto, unfolding(crate::specs::Luma::quarter, crate::specs::Luma::across))]
#[inline(always)]
fn side_row<const W: usize, const X: usize, const Y: usize>(
    w: Windows,
    p: &Lines<'_>,
    x: usize,
    c: usize,
    y: usize,
    taps: &SixTaps,
) -> [u8; 16]
    requires size { W ≤ 16 }
    requires taps { AreSixTaps taps.now }
    requires small { (x ≤ 16384) × (y ≤ 16400) }
    requires columns { x + 13 ≤ p.now.width }
    requires more_columns { 8 < W → x + 21 ≤ p.now.width }
    requires rows { y + 6 ≤ p.now.height }
    requires parts { (X < 4) × (Y < 4) }
    requires no_j { (X ≢ 2) ⊎ (Y ≡ 0) }
    requires nor_j { (Y ≢ 2) ⊎ (X ≡ 0) }
    requires column { c ≡ partner_of X }
    requires windows { AllSixOfBoth false W p.now (rows_at x c y) w }
    ensures { (u : ℕ) → u < W → slice_index result u ≡ quarter X Y (λ i j. at p.now (x + u + i) (y + j)) }
{
    if Y == 0 {
        if X == 0 {
            samples_row::<W>(p, x, 2, y, 2)
        } else {
            let b = across_row::<W>(p, x, y, 2, taps);
            if X == 1 {
                mean16(samples_row::<W>(p, x, 2, y, 2), b)
            } else if X == 2 {
                b
            } else {
                mean16(samples_row::<W>(p, x, 3, y, 2), b)
            }
        }
    } else {
        let h = down_row::<W>(w);
        if X == 0 {
            if Y == 1 {
                mean16(samples_row::<W>(p, x, 2, y, 2), h)
            } else if Y == 2 {
                h
            } else {
                mean16(samples_row::<W>(p, x, 2, y, 3), h)
            }
        } else if Y == 1 {
            mean16(across_row::<W>(p, x, y, 2, taps), h)
        } else {
            let s = across_row::<W>(p, x, y, 3, taps);
            if X == 1 { mean16(h, s) } else { mean16(s, h) }
        }
    }
}

/// Where the rows begin that a block is made of: the column and the row of the first of the six.
#[derive(Clone, Copy)]
struct Corner {
    x: usize,
    y: usize,
}

/// Writes row `v` of a block at a quarter place without j, whose rows above are there, and gives the windows of that row.
#[inline(always)]
fn side_line<const W: usize, const H: usize, const X: usize, const Y: usize>(
    windows: Windows,
    p: &Lines<'_>,
    corner: Corner,
    v: usize,
    taps: &SixTaps,
    out: &mut [u8],
) -> Windows
    requires size { (W ≤ 16) × (H ≤ 16) }
    requires taps { AreSixTaps taps.now }
    requires small { (corner.x ≤ 16384) × (corner.y ≤ 16384) }
    requires columns { corner.x + 13 ≤ p.now.width }
    requires more_columns { 8 < W → corner.x + 21 ≤ p.now.width }
    requires rows { corner.y + H + 5 ≤ p.now.height }
    requires row { v < H }
    requires whole { length out.old ≡ W * H }
    requires parts { (X < 4) × (Y < 4) }
    requires no_j { (X ≢ 2) ⊎ (Y ≡ 0) }
    requires nor_j { (Y ≢ 2) ⊎ (X ≡ 0) }
    requires windows { LastFiveOfBoth false W p.now (rows_at corner.x (partner_of X) (corner.y + v)) windows }
    requires above { HasBlock W v out.old (λ u v. quarter X Y (λ i j. at p.now (corner.x + u + i) (corner.y + v + j))) }
    ensures windows { LastFiveOfBoth false W p.now (rows_at corner.x (partner_of X) (corner.y + (v + 1))) result }
    ensures rows { HasBlock W (v + 1) out.new (λ u v. quarter X Y (λ i j. at p.now (corner.x + u + i) (corner.y + v + j))) }
{
    let Corner { x, y } = corner;
    let c = partner::<X>();
    let windows = next_windows::<false, W>(windows, p, x, c, y + v);
    let row = side_row::<W, X, Y>(windows, p, x, c, y + v, taps);
    put_row::<W>(row, &mut out[W * v..W * v + W]);
    windows
}

/// The samples of a block at quarter places without j, two rows at a time, so that few of a window's rows have to be moved. It is not
/// inlined, so that the taps remain what is lent to it.
#[inline(never)]
fn side_block<const W: usize, const H: usize, const X: usize, const Y: usize>(
    p: Lines<'_>,
    x: usize,
    y: usize,
    taps: &SixTaps,
    out: &mut [u8],
)
    requires size { (W ≤ 16) × (H ≤ 16) }
    requires taps { AreSixTaps taps.now }
    requires small { (x ≤ 16384) × (y ≤ 16384) }
    requires columns { x + 13 ≤ p.width }
    requires more_columns { 8 < W → x + 21 ≤ p.width }
    requires rows { y + H + 5 ≤ p.height }
    requires whole { length out.old ≡ W * H }
    requires parts { (X < 4) × (Y < 4) }
    requires no_j { (X ≢ 2) ⊎ (Y ≡ 0) }
    requires nor_j { (Y ≢ 2) ⊎ (X ≡ 0) }
    ensures { HasBlock W H out.new (λ u v. quarter X Y (λ i j. at p.entry (x + u + i) (y + v + j))) }
{
    let corner = Corner { x, y };
    let mut windows = first_windows::<false, W>(&p, x, partner::<X>(), y);
    for n in 0..H / 2 {
        windows = side_line::<W, H, X, Y>(windows, &p, corner, 2 * n, taps, out);
        windows = side_line::<W, H, X, Y>(windows, &p, corner, 2 * n + 1, taps, out);
    }
    if H % 2 == 1 {
        let _ = side_line::<W, H, X, Y>(windows, &p, corner, H - 1, taps, out);
    }
}

/// Eight samples of a quarter place with j, of a window of values across and one of samples.
#[inline(always)]
fn middle8<const X: usize, const Y: usize>(across: Window, samples: Window) -> [u8; 8]
    requires parts { (X < 4) × (Y < 4) }
    requires with_j { (X ≡ 2) ⊎ (Y ≡ 2) }
    requires not_at_0 { (0 < X) × (0 < Y) }
    requires across { AreUpTo 13260 across }
    requires samples { AreUpTo 510 samples }
    ensures { (p : Samples) (x c y : ℕ) → c ≡ partner_of X → AllSix true p (rows_at x c y) across → AllSix false p (rows_at x c y) samples → (k : ℕ) → k < 8 →
        slice_index result k ≡ quarter X Y (λ i j. at p (x + k + i) (y + j)) }
{
    let j = j8(across);
    if X == 1 {
        bytes(mean8(h8(samples), j))
    } else if X == 3 {
        bytes(mean8(j, h8(samples)))
    } else if Y == 1 {
        bytes(mean8(half8(across.g), j))
    } else if Y == 2 {
        bytes(j)
    } else {
        bytes(mean8(j, half8(across.h)))
    }
}

/// A row of a block at a quarter place with j. Blocks of less than eight columns get more.
#[inline(always)]
fn middle_row<const W: usize, const X: usize, const Y: usize>(
    across: Windows,
    samples: Windows,
) -> [u8; 16]
    requires size { W ≤ 16 }
    requires parts { (X < 4) × (Y < 4) }
    requires with_j { (X ≡ 2) ⊎ (Y ≡ 2) }
    requires not_at_0 { (0 < X) × (0 < Y) }
    requires left { AreUpTo 13260 across.left × AreUpTo 510 samples.left }
    requires right { 8 < W → AreUpTo 13260 across.right × AreUpTo 510 samples.right }
    ensures { (p : Samples) (x c y : ℕ) → c ≡ partner_of X → AllSixOfBoth true W p (rows_at x c y) across →
        AllSixOfBoth false W p (rows_at x c y) samples → (u : ℕ) → u < W → slice_index result u ≡ quarter X Y (λ i j. at p (x + u + i) (y + j)) }
{
    let lo = middle8::<X, Y>(across.left, samples.left);
    if W > 8 {
        joined(lo, middle8::<X, Y>(across.right, samples.right))
    } else {
        joined(lo, lo)
    }
}

/// Writes row `v` of a block at a quarter place with j, whose rows above are there, and gives the windows of that row.
#[inline(always)]
fn middle_line<const W: usize, const H: usize, const X: usize, const Y: usize>(
    across: Windows,
    samples: Windows,
    p: &Lines<'_>,
    corner: Corner,
    v: usize,
    out: &mut [u8],
) -> (Windows, Windows)
    requires size { (W ≤ 16) × (H ≤ 16) }
    requires small { (corner.x ≤ 16384) × (corner.y ≤ 16384) }
    requires columns { corner.x + 13 ≤ p.now.width }
    requires more_columns { 8 < W → corner.x + 21 ≤ p.now.width }
    requires rows { corner.y + H + 5 ≤ p.now.height }
    requires row { v < H }
    requires whole { length out.old ≡ W * H }
    requires parts { (X < 4) × (Y < 4) }
    requires with_j { (X ≡ 2) ⊎ (Y ≡ 2) }
    requires not_at_0 { (0 < X) × (0 < Y) }
    requires across { LastFiveOfBoth true W p.now (rows_at corner.x (partner_of X) (corner.y + v)) across }
    requires samples { LastFiveOfBoth false W p.now (rows_at corner.x (partner_of X) (corner.y + v)) samples }
    requires above { HasBlock W v out.old (λ u v. quarter X Y (λ i j. at p.now (corner.x + u + i) (corner.y + v + j))) }
    ensures across { LastFiveOfBoth true W p.now (rows_at corner.x (partner_of X) (corner.y + (v + 1))) result.0 }
    ensures samples { LastFiveOfBoth false W p.now (rows_at corner.x (partner_of X) (corner.y + (v + 1))) result.1 }
    ensures rows { HasBlock W (v + 1) out.new (λ u v. quarter X Y (λ i j. at p.now (corner.x + u + i) (corner.y + v + j))) }
{
    let Corner { x, y } = corner;
    let c = partner::<X>();
    let across = next_windows::<true, W>(across, p, x, c, y + v);
    let samples = next_windows::<false, W>(samples, p, x, c, y + v);
    let row = middle_row::<W, X, Y>(across, samples);
    out[W * v..W * v + W].copy_from_slice(&row[..W]);
    (across, samples)
}

/// The samples of a block at quarter places with j. It is not inlined, since the compiler would then call its parts instead.
#[inline(never)]
fn middle_block<const W: usize, const H: usize, const X: usize, const Y: usize>(
    p: Lines<'_>,
    x: usize,
    y: usize,
    out: &mut [u8],
)
    requires size { (W ≤ 16) × (H ≤ 16) }
    requires small { (x ≤ 16376) × (y ≤ 16384) }
    requires columns { x + 13 ≤ p.width }
    requires more_columns { 8 < W → x + 21 ≤ p.width }
    requires rows { y + H + 5 ≤ p.height }
    requires whole { length out.old ≡ W * H }
    requires parts { (X < 4) × (Y < 4) }
    requires with_j { (X ≡ 2) ⊎ (Y ≡ 2) }
    requires not_at_0 { (0 < X) × (0 < Y) }
    ensures { HasBlock W H out.new (λ u v. quarter X Y (λ i j. at p.entry (x + u + i) (y + v + j))) }
{
    let corner = Corner { x, y };
    let mut across = first_windows::<true, W>(&p, x, partner::<X>(), y);
    let mut samples = first_windows::<false, W>(&p, x, partner::<X>(), y);
    for v in 0..H {
        (across, samples) = middle_line::<W, H, X, Y>(across, samples, &p, corner, v, out);
    }
}

/// Such a block, two rows at a time. Few of a window's rows have to be moved then, and blocks of more than eight columns are made faster.
#[inline(never)]
fn middle_block_in_pairs<const W: usize, const H: usize, const X: usize, const Y: usize>(
    p: Lines<'_>,
    x: usize,
    y: usize,
    out: &mut [u8],
)
    requires size { (W ≤ 16) × (H ≤ 16) }
    requires small { (x ≤ 16376) × (y ≤ 16384) }
    requires columns { x + 13 ≤ p.width }
    requires more_columns { 8 < W → x + 21 ≤ p.width }
    requires rows { y + H + 5 ≤ p.height }
    requires whole { length out.old ≡ W * H }
    requires parts { (X < 4) × (Y < 4) }
    requires with_j { (X ≡ 2) ⊎ (Y ≡ 2) }
    requires not_at_0 { (0 < X) × (0 < Y) }
    ensures { HasBlock W H out.new (λ u v. quarter X Y (λ i j. at p.entry (x + u + i) (y + v + j))) }
{
    let corner = Corner { x, y };
    let mut across = first_windows::<true, W>(&p, x, partner::<X>(), y);
    let mut samples = first_windows::<false, W>(&p, x, partner::<X>(), y);
    for n in 0..H / 2 {
        let v = 2 * n;
        (across, samples) = middle_line::<W, H, X, Y>(across, samples, &p, corner, v, out);
        (across, samples) = middle_line::<W, H, X, Y>(across, samples, &p, corner, v + 1, out);
    }
    if H % 2 == 1 {
        let _ = middle_line::<W, H, X, Y>(across, samples, &p, corner, H - 1, out);
    }
}

/// The samples of a block at one quarter place.
#[inline(always)]
fn block<const W: usize, const H: usize, const X: usize, const Y: usize>(
    p: Lines<'_>,
    left: usize,
    top: usize,
    out: &mut [u8],
)
    requires size { (W ≤ 16) × (H ≤ 16) }
    requires small { (left ≤ 16376) × (top ≤ 16384) }
    requires columns { left + 13 ≤ p.width }
    requires more_columns { 8 < W → left + 21 ≤ p.width }
    requires rows { top + H + 5 ≤ p.height }
    requires whole { length out.old ≡ W * H }
    requires parts { (X < 4) × (Y < 4) }
    ensures { HasBlock W H out.new (λ u v. quarter X Y (λ i j. at p.entry (left + u + i) (top + v + j))) }
{
    if X == 0 || Y == 0 || (X != 2 && Y != 2) {
        side_block::<W, H, X, Y>(p, left, top, &SixTaps::new(), out);
    } else if W > 8 {
        middle_block_in_pairs::<W, H, X, Y>(p, left, top, out);
    } else {
        middle_block::<W, H, X, Y>(p, left, top, out);
    }
}

/// The samples of a block at the quarter places of one part across.
#[inline(always)]
fn column<const W: usize, const H: usize, const X: usize>(
    p: Lines<'_>,
    left: usize,
    top: usize,
    y: usize,
    out: &mut [u8],
)
    requires size { (W ≤ 16) × (H ≤ 16) }
    requires small { (left ≤ 16376) × (top ≤ 16384) }
    requires columns { left + 13 ≤ p.width }
    requires more_columns { 8 < W → left + 21 ≤ p.width }
    requires rows { top + H + 5 ≤ p.height }
    requires whole { length out.old ≡ W * H }
    requires parts { (X < 4) × (y < 4) }
    ensures { HasBlock W H out.new (λ u v. quarter X y (λ i j. at p.entry (left + u + i) (top + v + j))) }
{
    match y {
        0 => block::<W, H, X, 0>(p, left, top, out),
        1 => block::<W, H, X, 1>(p, left, top, out),
        2 => block::<W, H, X, 2>(p, left, top, out),
        _ => block::<W, H, X, 3>(p, left, top, out),
    }
}

/// The samples of a block at quarter places.
#[inline(always)]
pub fn place<const W: usize, const H: usize>(
    p: Lines<'_>,
    left: usize,
    top: usize,
    x: usize,
    y: usize,
    out: &mut [u8],
)
    requires size { (W ≤ 16) × (H ≤ 16) }
    requires small { (left ≤ 16376) × (top ≤ 16384) }
    requires columns { left + 13 ≤ p.width }
    requires more_columns { 8 < W → left + 21 ≤ p.width }
    requires rows { top + H + 5 ≤ p.height }
    requires whole { length out.old ≡ W * H }
    requires parts { (x < 4) × (y < 4) }
    ensures { HasBlock W H out.new (λ u v. quarter x y (λ i j. at p.entry (left + u + i) (top + v + j))) }
{
    match x {
        0 => column::<W, H, 0>(p, left, top, y, out),
        1 => column::<W, H, 1>(p, left, top, y, out),
        2 => column::<W, H, 2>(p, left, top, y, out),
        _ => column::<W, H, 3>(p, left, top, y, out),
    }
}
