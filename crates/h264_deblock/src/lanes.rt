//! A sample, or a number, of each of sixteen lines, and sums of these lane by lane.
#![tactic(auto)]

ghost use Rattle.std.specs.Prelude.{◌≡◌, ℕ, ◌+◌, ◌-◌, ◌*◌, ◌/◌, ◌%◌, ◌<◌, ◌≤◌, Bool, true, slice_index, length, nat_lt, if◌then◌else◌, get_or, min, max};
ghost use Rattle.std.specs.Int.{abs_diff};
ghost use Rattle.h264_deblock.specs.Rows.{sign};

use h264_plane::{beside, eight, narrow, widened};
use std::simd::prelude::*;

/// Eight samples of a slice from a place on, and then eight of another.
#[inline(always)]
pub fn joined(a: &[u8], i: usize, b: &[u8], j: usize) -> u8x16
    requires first { i + 8 ≤ length a.now }
    requires second { j + 8 ≤ length b.now }
    ensures first { (n : ℕ) → n < 8 → slice_index result n ≡ slice_index a.now (i + n) }
    ensures second { (n : ℕ) → n < 8 → slice_index result (8 + n) ≡ slice_index b.now (j + n) }
{
    beside(eight(a, i), eight(b, j))
}

/// A number in each lane.
#[inline(always)]
pub fn all(number: u8) -> u8x16
    ensures { (n : ℕ) → n < 16 → get_or result n 0 ≡ number }
{
    u8x16::splat(number)
}

/// How far `a` lies above `b`, or 0.
#[inline(always)]
pub fn above(a: u8x16, b: u8x16) -> u8x16
    ensures { (n : ℕ) → n < 16 → get_or result n 0 ≡ get_or a n 0 - get_or b n 0 }
{
    a.saturating_sub(b)
}

/// The sum, or 255 where it is more.
#[inline(always)]
pub fn topped(a: u8x16, b: u8x16) -> u8x16
    ensures { (n : ℕ) → n < 16 → get_or result n 0 ≡ min (get_or a n 0 + get_or b n 0) 255 }
{
    a.saturating_add(b)
}

/// The lesser one.
#[inline(always)]
pub fn least(a: u8x16, b: u8x16) -> u8x16
    ensures { (n : ℕ) → n < 16 → get_or result n 0 ≡ min (get_or a n 0) (get_or b n 0) }
{
    a.simd_min(b)
}

/// The greater one.
#[inline(always)]
pub fn greatest(a: u8x16, b: u8x16) -> u8x16
    ensures { (n : ℕ) → n < 16 → get_or result n 0 ≡ max (get_or a n 0) (get_or b n 0) }
{
    a.simd_max(b)
}

/// How far two samples lie apart.
#[inline(always)]
pub fn distance(a: u8x16, b: u8x16) -> u8x16
    ensures { (n : ℕ) → n < 16 → get_or result n 0 ≡ abs_diff (get_or a n 0) (get_or b n 0) }
{
    topped(above(a, b), above(b, a))
}

/// The sum, modulo 256.
#[inline(always)]
pub fn plus(a: u8x16, b: u8x16) -> u8x16
    ensures { (n : ℕ) → n < 16 → get_or result n 0 ≡ (get_or a n 0 + get_or b n 0) % 256 }
{
    a + b
}

/// 1 where just one of two numbers is odd, else 0.
#[inline(always)]
pub fn parity(a: u8x16, b: u8x16) -> u8x16
    ensures { (n : ℕ) → n < 16 → get_or result n 0 ≡ (get_or a n 0 + get_or b n 0) % 256 % 2 }
{
    (a + b) % u8x16::splat(2)
}

/// 255 where there is a 1, and 0 where there is a 0.
#[inline(always)]
fn negated(a: u8x16) -> u8x16
    ensures { (n : ℕ) → n < 16 → get_or result n 0 ≡ (256 - get_or a n 0) % 256 }
{
    u8x16::splat(0) - a
}

/// 255 where `on` is above 0, and 0 where it is 0.
#[inline(always)]
fn filled(on: u8x16) -> u8x16
    ensures { (n : ℕ) → n < 16 → get_or result n 0 ≡ if nat_lt 0 (get_or on n 0) then 255 else 0 }
{
    negated(least(on, all(1)))
}

/// The lane of `a` where `on` is above 0, and that of `b` where it is 0.
#[inline(always)]
pub fn chosen(on: u8x16, a: u8x16, b: u8x16) -> u8x16
    ensures { (n : ℕ) → n < 16 → get_or result n 0 ≡ if nat_lt 0 (get_or on n 0) then get_or a n 0 else get_or b n 0 }
{
    let on = filled(on);
    let off = above(all(255), on);
    greatest(least(a, on), least(b, off))
}

/// The samples of `a` where `four` has a 1, else those of `b`.
#[inline(always)]
pub fn either(four: u8x16, a: u8x16, b: u8x16) -> u8x16
    ensures { (n : ℕ) → n < 16 → (f : Bool) → get_or four n 0 ≡ sign f →
        get_or result n 0 ≡ if f then get_or a n 0 else get_or b n 0 }
{
    chosen(four, a, b)
}

/// 1 where two samples lie less than this limit apart, else 0.
#[inline(always)]
pub fn near(a: u8x16, b: u8x16, limit: u8) -> u8x16
    ensures { (n : ℕ) → n < 16 → get_or result n 0 ≡ sign (nat_lt (abs_diff (get_or a n 0) (get_or b n 0)) limit) }
{
    least(above(all(limit), distance(a, b)), all(1))
}

#[inline(always)]
fn sum(a: u16x16, b: u16x16) -> u16x16
    ensures { (n : ℕ) → n < 16 → get_or result n 0 ≡ (get_or a n 0 + get_or b n 0) % 65536 }
{
    a + b
}

#[inline(always)]
fn halves(a: u16x16) -> u16x16
    ensures { (n : ℕ) → n < 16 → get_or result n 0 ≡ (get_or a n 0 + 1) % 65536 / 2 }
{
    (a + u16x16::splat(1)) >> u16x16::splat(1)
}

#[inline(always)]
fn fourths(a: u16x16) -> u16x16
    ensures { (n : ℕ) → n < 16 → get_or result n 0 ≡ (get_or a n 0 + 2) % 65536 / 4 }
{
    (a + u16x16::splat(2)) >> u16x16::splat(2)
}

#[inline(always)]
fn eighths(a: u16x16) -> u16x16
    ensures { (n : ℕ) → n < 16 → get_or result n 0 ≡ (get_or a n 0 + 4) % 65536 / 8 }
{
    (a + u16x16::splat(4)) >> u16x16::splat(3)
}

/// Half of a sum, rounded up.
#[inline(always)]
pub fn average(a: u8x16, b: u8x16) -> u8x16
    ensures { (n : ℕ) → n < 16 → get_or result n 0 ≡ (get_or a n 0 + get_or b n 0 + 1) / 2 }
{
    narrow(halves(sum(widened(a), widened(b))))
}

/// Half of a sum, rounded down.
#[inline(always)]
pub fn average_down(a: u8x16, b: u8x16) -> u8x16
    ensures { (n : ℕ) → n < 16 → get_or result n 0 ≡ (get_or a n 0 + get_or b n 0) / 2 }
{
    above(average(a, b), parity(a, b))
}

/// The sums of three samples.
#[inline(always)]
pub fn three(a: u8x16, b: u8x16, c: u8x16) -> u16x16
    ensures sum { (n : ℕ) → n < 16 → get_or result n 0 ≡ get_or a n 0 + get_or b n 0 + get_or c n 0 }
    ensures small { (n : ℕ) → n < 16 → get_or result n 0 ≤ 765 }
{
    sum(sum(widened(a), widened(b)), widened(c))
}

/// An eighth of a sample, twice a sum of three, and a sample.
#[inline(always)]
pub fn eighth(a: u8x16, inner: u16x16, b: u8x16) -> u8x16
    requires { (n : ℕ) → n < 16 → get_or inner n 0 ≤ 765 }
    ensures { (n : ℕ) → n < 16 → get_or result n 0 ≡ (get_or a n 0 + 2 * get_or inner n 0 + get_or b n 0 + 4) / 8 }
{
    let outer = sum(widened(a), widened(b));
    narrow(eighths(sum(outer, sum(inner, inner))))
}

/// A fourth of a sample and a sum of three.
#[inline(always)]
pub fn fourth(a: u8x16, inner: u16x16) -> u8x16
    requires { (n : ℕ) → n < 16 → get_or inner n 0 ≤ 765 }
    ensures { (n : ℕ) → n < 16 → get_or result n 0 ≡ (get_or a n 0 + get_or inner n 0 + 2) / 4 }
{
    narrow(fourths(sum(widened(a), inner)))
}

/// An eighth of twice a sample, three times another, and a sum of three.
#[inline(always)]
pub fn outer_eighth(a: u8x16, b: u8x16, inner: u16x16) -> u8x16
    requires { (n : ℕ) → n < 16 → get_or inner n 0 ≤ 765 }
    ensures { (n : ℕ) → n < 16 → get_or result n 0 ≡ (2 * get_or a n 0 + 3 * get_or b n 0 + get_or inner n 0 + 4) / 8 }
{
    let both = sum(widened(a), widened(b));
    narrow(eighths(sum(sum(both, both), sum(widened(b), inner))))
}

/// Whether each lane is 0.
#[inline(always)]
pub fn are_zero(a: u8x16) -> bool
    ensures { result ≡ true → (n : ℕ) → n < 16 → get_or a n 0 ≡ 0 }
{
    a.simd_ne(u8x16::splat(0)).to_bitmask() == 0
}
