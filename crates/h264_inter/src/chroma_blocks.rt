ghost use Rattle.std.specs.Prelude.{◌≡◌, ℕ, ◌+◌, ◌*◌, ◌-◌, ◌/◌, ◌<◌, ◌≤◌, length, get_or, slice_index};
ghost use Rattle.h264_plane.specs.Samples.{Samples, at};
ghost use Rattle.h264_inter.specs.Reference.{HasBlock};
ghost use Rattle.h264_inter.specs.Chroma.{weighted, eighth, AreWeights};
ghost use Rattle.h264_inter.specs.Rows.{IsPair, ArePairs, AreBytes};

use crate::lanes::{bytes, joined, load, part64, plus, raised, times};
use crate::lines::Lines;
use crate::luma_blocks::{put_row, whole_block};
use crate::window::{Pair, Pairs};

/// The weights of the four whole samples around a place, in 64ths.
#[derive(Clone, Copy)]
pub struct Weights {
    pub a: u16,
    pub b: u16,
    pub c: u16,
    pub d: u16,
}

/// The weights of a place, by its eighths.
#[inline(always)]
pub fn weights_at(x: u16, y: u16) -> Weights
    requires { (x < 8) × (y < 8) }
    ensures each { AreWeights x y result.a result.b result.c result.d }
    ensures whole { result.a + result.b + result.c + result.d ≡ 64 }
{
    Weights {
        a: (8 - x) * (8 - y),
        b: x * (8 - y),
        c: (8 - x) * y,
        d: x * y,
    }
}

/// Eight samples of row `y + r` from column `x` on, and those from the next one on.
#[inline(always)]
fn pair(p: &Lines<'_>, x: usize, y: usize, r: usize) -> Pair
    requires small { (x ≤ 16384) × (y ≤ 16400) × (r ≤ 1) }
    requires columns { x + 9 ≤ p.now.width }
    requires row { y + r < p.now.height }
    ensures { IsPair p.now x y r result }
{
    Pair {
        a: load(p, x, 0, y, r),
        b: load(p, x, 1, y, r),
    }
}

/// These samples for a block of `W` columns.
#[inline(always)]
fn pairs<const W: usize>(p: &Lines<'_>, x: usize, y: usize, r: usize) -> Pairs
    requires small { (x ≤ 16376) × (y ≤ 16400) × (r ≤ 1) }
    requires columns { x + 9 ≤ p.now.width }
    requires more_columns { 8 < W → x + 17 ≤ p.now.width }
    requires row { y + r < p.now.height }
    ensures { ArePairs W p.now x y r result }
{
    let left = pair(p, x, y, r);
    if W > 8 {
        let right = pair(p, x + 8, y, r);
        Pairs { left, right }
    } else {
        Pairs { left, right: left }
    }
}

/// Eight weighted means, of the samples of two rows.
#[inline(always)]
fn means8(w: Weights, upper: Pair, lower: Pair) -> [u8; 8]
    requires weights { w.a + w.b + w.c + w.d ≡ 64 }
    requires bytes { AreBytes upper × AreBytes lower }
    ensures { (p : Samples) (x y : ℕ) → IsPair p x y 0 upper → IsPair p x y 1 lower → (k : ℕ) → k < 8 →
        slice_index result k ≡ weighted w.a w.b w.c w.d (λ i j. at p (x + k + i) (y + j)) }
{
    let upper = plus(times(upper.a, w.a), times(upper.b, w.b));
    let lower = plus(times(lower.a, w.c), times(lower.b, w.d));
    bytes(part64(raised(plus(upper, lower), 32)))
}

/// A row of a block. Blocks of less than eight columns get more.
#[inline(always)]
fn row<const W: usize>(w: Weights, upper: Pairs, lower: Pairs) -> [u8; 16]
    requires size { W ≤ 16 }
    requires weights { w.a + w.b + w.c + w.d ≡ 64 }
    requires left { AreBytes upper.left × AreBytes lower.left }
    requires right { 8 < W → AreBytes upper.right × AreBytes lower.right }
    ensures { (p : Samples) (x y : ℕ) → ArePairs W p x y 0 upper → ArePairs W p x y 1 lower → (u : ℕ) → u < W →
        slice_index result u ≡ weighted w.a w.b w.c w.d (λ i j. at p (x + u + i) (y + j)) }
{
    let lo = means8(w, upper.left, lower.left);
    if W > 8 {
        joined(lo, means8(w, upper.right, lower.right))
    } else {
        joined(lo, lo)
    }
}

/// The samples of a block at the eighths of a vector, each a weighted mean.
#[inline(always)]
fn weighted_block<const W: usize, const H: usize>(
    p: Lines<'_>,
    left: usize,
    top: usize,
    x: usize,
    y: usize,
    out: &mut [u8],
)
    requires size { (W ≤ 16) × (H ≤ 16) }
    requires small { (left ≤ 16376) × (top ≤ 16384) }
    requires columns { left + 9 ≤ p.width }
    requires more_columns { 8 < W → left + 17 ≤ p.width }
    requires rows { top + H + 1 ≤ p.height }
    requires whole { length out.old ≡ W * H }
    requires parts { (x < 8) × (y < 8) }
    ensures { HasBlock W H out.new (λ u v. eighth x y (λ i j. at p.entry (left + u + i) (top + v + j))) }
{
    let w = weights_at(x as u16, y as u16);
    let mut upper = pairs::<W>(&p, left, top, 0);
    for v in 0..H {
        let lower = pairs::<W>(&p, left, top + v, 1);
        let row = row::<W>(w, upper, lower);
        put_row::<W>(row, &mut out[W * v..W * v + W]);
        upper = lower;
    }
}

/// The samples of a block at the eighths of a vector.
#[inline(always)]
pub fn block<const W: usize, const H: usize>(
    p: Lines<'_>,
    left: usize,
    top: usize,
    x: usize,
    y: usize,
    out: &mut [u8],
)
    requires size { (W ≤ 16) × (H ≤ 16) }
    requires small { (left ≤ 16376) × (top ≤ 16384) }
    requires columns { left + 9 ≤ p.width }
    requires more_columns { 8 < W → left + 17 ≤ p.width }
    requires rows { top + H + 1 ≤ p.height }
    requires whole { length out.old ≡ W * H }
    requires parts { (x < 8) × (y < 8) }
    ensures { HasBlock W H out.new (λ u v. eighth x y (λ i j. at p.entry (left + u + i) (top + v + j))) }
{
    if x == 0 {
        if y == 0 {
            whole_block::<W, H>(p, left, top, out);
            return;
        }
    }
    weighted_block::<W, H>(p, left, top, x, y, out);
}
