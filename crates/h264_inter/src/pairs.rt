ghost use Rattle.std.specs.Prelude.{◌≡◌, ℕ, ◌+◌, ◌*◌, ◌<◌, ◌≤◌, get_or, ℤ, pos, ◌+ℤ◌, ◌-ℤ◌, ◌*ℤ◌, unsigned_abs, FitsSigned};
ghost use Rattle.std.specs.Int.{w8, int_shr};
ghost use Rattle.h264_plane.specs.Clip.{clip1};
ghost use Rattle.h264_inter.specs.Rows.{AreSixTaps};

use std::simd::prelude::*;

/// What the six taps weigh, two by two, each pair of weights eight times. It is lent to who filters and no constant, since LLVM then
/// multiplies sixteen bytes by sixteen weights and adds the products two by two in one instruction.
#[derive(Clone, Copy)]
pub struct SixTaps {
    pub first: i8x16,
    pub middle: i8x16,
    pub last: i8x16,
}

impl SixTaps {
    #[inline(always)]
    pub fn new() -> SixTaps
        ensures { AreSixTaps result }
    {
        let first = [1, -5, 1, -5, 1, -5, 1, -5, 1, -5, 1, -5, 1, -5, 1, -5];
        let last = [-5, 1, -5, 1, -5, 1, -5, 1, -5, 1, -5, 1, -5, 1, -5, 1];
        SixTaps {
            first: i8x16::from_array(first),
            middle: i8x16::splat(20),
            last: i8x16::from_array(last),
        }
    }
}

/// The samples of a row in even places.
#[inline(always)]
fn even_samples(v: u8x16) -> u8x8
    ensures { (k : ℕ) → k < 8 → get_or result k 0 ≡ get_or v (2 * k) 0 }
{
    v.swizzle([0, 2, 4, 6, 8, 10, 12, 14])
}

/// Those in odd places.
#[inline(always)]
fn odd_samples(v: u8x16) -> u8x8
    ensures { (k : ℕ) → k < 8 → get_or result k 0 ≡ get_or v (2 * k + 1) 0 }
{
    v.swizzle([1, 3, 5, 7, 9, 11, 13, 15])
}

#[inline(always)]
fn even_weights(w: i8x16) -> i8x8
    ensures { (k : ℕ) → k < 8 → FitsSigned w8 (get_or w (2 * k) (pos 0)) → get_or result k (pos 0) ≡ get_or w (2 * k) (pos 0) }
{
    w.swizzle([0, 2, 4, 6, 8, 10, 12, 14])
}

#[inline(always)]
fn odd_weights(w: i8x16) -> i8x8
    ensures { (k : ℕ) → k < 8 → FitsSigned w8 (get_or w (2 * k + 1) (pos 0)) → get_or result k (pos 0) ≡ get_or w (2 * k + 1) (pos 0) }
{
    w.swizzle([1, 3, 5, 7, 9, 11, 13, 15])
}

/// Eight samples, each by its weight, and eight others by theirs, added. The limits of 16 bits change nothing: they are those of the instruction.
#[inline(always)]
fn weighted(a: u8x8, b: u8x8, first: i8x8, second: i8x8) -> i16x8
    requires first { (k : ℕ) → k < 8 → unsigned_abs (get_or first k (pos 0)) ≤ 64 }
    requires second { (k : ℕ) → k < 8 → unsigned_abs (get_or second k (pos 0)) ≤ 64 }
    ensures { (k : ℕ) → k < 8 → get_or result k (pos 0) ≡ pos (get_or a k 0) *ℤ get_or first k (pos 0) +ℤ pos (get_or b k 0) *ℤ get_or second k (pos 0) }
{
    let sum = a.cast::<i32>() * first.cast::<i32>() + b.cast::<i32>() * second.cast::<i32>();
    sum.simd_max(i32x8::splat(-32768))
        .simd_min(i32x8::splat(32767))
        .cast::<i16>()
}

/// The sums of a sample in an even place by `P` and the one beside it by `Q`.
#[inline(always)]
pub fn pair_sums<const P: i8, const Q: i8>(v: u8x16, w: i8x16) -> i16x8
    requires small { (unsigned_abs P ≤ 64) × (unsigned_abs Q ≤ 64) }
    requires even { (k : ℕ) → k < 8 → get_or w (2 * k) (pos 0) ≡ P }
    requires odd { (k : ℕ) → k < 8 → get_or w (2 * k + 1) (pos 0) ≡ Q }
    ensures each { (k : ℕ) → k < 8 → get_or result k (pos 0) ≡ pos (get_or v (2 * k) 0) *ℤ P +ℤ pos (get_or v (2 * k + 1) 0) *ℤ Q }
    ensures size { (k : ℕ) → k < 8 → unsigned_abs (get_or result k (pos 0)) ≤ 255 * (unsigned_abs P + unsigned_abs Q) }
{
    weighted(
        even_samples(v),
        odd_samples(v),
        even_weights(w),
        odd_weights(w),
    )
}

/// A 32nd of the sums of three numbers, rounded, as samples.
#[inline(always)]
pub fn sum_rounded(a: i16x8, b: i16x8, c: i16x8) -> u16x8
    requires a { (k : ℕ) → k < 8 → unsigned_abs (get_or a k (pos 0)) ≤ 10200 }
    requires b { (k : ℕ) → k < 8 → unsigned_abs (get_or b k (pos 0)) ≤ 10200 }
    requires c { (k : ℕ) → k < 8 → unsigned_abs (get_or c k (pos 0)) ≤ 10200 }
    ensures { (k : ℕ) → k < 8 → get_or result k 0 ≡ clip1 (int_shr (get_or a k (pos 0) +ℤ get_or b k (pos 0) +ℤ get_or c k (pos 0) +ℤ pos 16) 5) }
{
    let parts = (a + b + c + i16x8::splat(16)) >> i16x8::splat(5);
    parts
        .simd_max(i16x8::splat(0))
        .simd_min(i16x8::splat(255))
        .cast::<u16>()
}

/// A 32nd of the differences of two numbers and a third one, added, as samples.
#[inline(always)]
pub fn difference_and(a: u16x8, b: u16x8, more: u16x8) -> u16x8
    requires a { (k : ℕ) → k < 8 → get_or a k 0 ≤ 16383 }
    requires b { (k : ℕ) → k < 8 → get_or b k 0 ≤ 16383 }
    requires more { (k : ℕ) → k < 8 → get_or more k 0 ≤ 16383 }
    ensures { (k : ℕ) → k < 8 → get_or result k 0 ≡ clip1 (int_shr (pos (get_or a k 0) -ℤ pos (get_or b k 0)) 5 +ℤ pos (get_or more k 0)) }
{
    let parts = (a.cast::<i16>() - b.cast::<i16>()) >> i16x8::splat(5);
    let sums = parts + more.cast::<i16>();
    sums.simd_max(i16x8::splat(0))
        .simd_min(i16x8::splat(255))
        .cast::<u16>()
}
