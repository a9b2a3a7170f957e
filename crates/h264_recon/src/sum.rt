ghost use Rattle.std.specs.Prelude.{◌≡◌, ◌⊎◌, ℕ, ◌+◌, ◌*◌, ◌<◌, ◌≤◌, slice_index, get_or, length, pos, ◌+ℤ◌};
ghost use Rattle.h264_plane.specs.Clip.{clip1 as clip1_of, IsIn};
ghost use Rattle.h264_scale.specs.Residual.{AreIn};
ghost use Rattle.h264_recon.specs.Residuals.{IsBlockAdded};

use crate::run::put_run;
use std::simd::prelude::*;

/// Four samples of a slice, from a place on.
#[inline(always)]
fn four(samples: &[u8], place: usize) -> u8x4
    requires { place + 4 ≤ length samples.now }
    ensures { (n : ℕ) → n < 4 → get_or result n 0 ≡ slice_index samples.now (place + n) }
{
    u8x4::from_slice(&samples[place..])
}

/// Two fours of samples side by side.
#[inline(always)]
fn beside(a: u8x4, b: u8x4) -> u8x8
    ensures first { (n : ℕ) → n < 4 → get_or result n 0 ≡ get_or a n 0 }
    ensures second { (n : ℕ) → n < 4 → get_or result (4 + n) 0 ≡ get_or b n 0 }
{
    a.shuffle::<8>(b, [0, 1, 2, 3, 4, 5, 6, 7])
}

/// Constructed samples (8.5.14), from predicted ones and their residual.
#[inline(always)]
fn constructed(predicted: u8x8, residual: i16x8) -> u8x8
    requires small { (k : ℕ) → k < 8 → IsIn 512 (get_or residual k (pos 0)) }
    ensures { (k : ℕ) → k < 8 → get_or result k 0 ≡ clip1_of (pos (get_or predicted k 0) +ℤ get_or residual k (pos 0)) }
{
    let sums = predicted.cast::<i16>() + residual;
    sums.simd_max(i16x8::splat(0))
        .simd_min(i16x8::splat(255))
        .cast::<u8>()
}

/// Adds eight numbers to two rows of four predicted samples.
#[inline(always)]
fn add_rows(samples: &mut [u8], first: usize, second: usize, residual: &[i16])
    requires apart { first + 4 ≤ second }
    requires within { second + 4 ≤ length samples.old }
    requires eight { length residual.now ≡ 8 }
    requires small { (k : ℕ) → k < 8 → IsIn 512 (get_or residual.now k (pos 0)) }
    ensures size { length samples.new ≡ length samples.old }
    ensures first { (i : ℕ) → i < 4 →
        slice_index samples.new (first + i) ≡ clip1_of (pos (slice_index samples.old (first + i)) +ℤ get_or residual.now i (pos 0)) }
    ensures second { (i : ℕ) → i < 4 →
        slice_index samples.new (second + i) ≡ clip1_of (pos (slice_index samples.old (second + i)) +ℤ get_or residual.now (4 + i) (pos 0)) }
    ensures kept { (k : ℕ) → (k < first) ⊎ (first + 4 ≤ k) → (k < second) ⊎ (second + 4 ≤ k) → slice_index samples.new k ≡ slice_index samples.old k }
{
    let rows = beside(four(samples, first), four(samples, second));
    let rows = constructed(rows, i16x8::from_slice(residual)).to_array();
    put_run::<4>(samples, first, &rows[0..4]);
    put_run::<4>(samples, second, &rows[4..8]);
}

/// Adds the residual of a block to its predicted samples, of which the first stands at this place, and each row so many after the one above it.
#[inline(always)]
fn add_block(samples: &mut [u8], place: usize, across: usize, residual: &[i16; 16])
    requires wide { 4 ≤ across }
    requires within { place + 3 * across + 4 ≤ length samples.old }
    requires small { AreIn 512 residual.now }
    ensures size { length samples.new ≡ length samples.old }
    ensures here { (i j : ℕ) → i < 4 → j < 4 → slice_index samples.new (place + across * j + i) ≡ clip1_of (pos (slice_index samples.old
        (place + across * j + i)) +ℤ get_or residual.now (4 * j + i) (pos 0)) }
    ensures kept { (k : ℕ) → ((j : ℕ) → j < 4 → (k < place + across * j) ⊎ (place + across * j + 4 ≤ k)) →
        slice_index samples.new k ≡ slice_index samples.old k }
{
    add_rows(samples, place, place + across, &residual[0..8]);
    add_rows(
        samples,
        place + 2 * across,
        place + 3 * across,
        &residual[8..16],
    );
}

/// Adds the residual of the block at column `x` and row `y` of blocks to the predicted samples of luma.
#[inline(always)]
pub fn add16(samples: &mut [u8; 256], x: usize, y: usize, residual: &[i16; 16])
    requires place { (x < 4) × (y < 4) }
    requires small { AreIn 512 residual.now }
    ensures { IsBlockAdded 16 samples.old samples.new x y (λ j i. get_or residual.now (4 * j + i) (pos 0)) }
{
    add_block(samples, 64 * y + 4 * x, 16, residual);
}

/// And to those of a chroma plane.
#[inline(always)]
pub fn add8(samples: &mut [u8; 64], x: usize, y: usize, residual: &[i16; 16])
    requires place { (x < 2) × (y < 2) }
    requires small { AreIn 512 residual.now }
    ensures { IsBlockAdded 8 samples.old samples.new x y (λ j i. get_or residual.now (4 * j + i) (pos 0)) }
{
    add_block(samples, 32 * y + 4 * x, 8, residual);
}

/// A constructed sample that has no residual.
#[inline(always)]
fn alone(predicted: u8) -> u8
    ensures clipped { result ≡ clip1_of (pos predicted +ℤ pos 0) }
    ensures same { result ≡ predicted }
{
    predicted
}

/// Predicted samples without a residual stay as they are.
#[inline(always)]
pub fn add_nothing<const N: usize>(samples: &mut [u8; N])
    ensures clipped { (k : ℕ) → k < N → slice_index samples.new k ≡ clip1_of (pos (slice_index samples.old k) +ℤ pos 0) }
    ensures same { (k : ℕ) → k < N → slice_index samples.new k ≡ slice_index samples.old k }
{
    for k in 0..N {
        samples[k] = alone(samples[k]);
    }
}
