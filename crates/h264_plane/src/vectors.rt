//! Samples as vectors.
#![tactic(auto)]

ghost use Rattle.std.specs.Prelude.{◌≡◌, ℕ, ◌+◌, ◌<◌, ◌≤◌, length, slice_index, get_or};

use std::simd::prelude::*;

/// Eight samples of a slice, from a place on.
#[inline(always)]
pub fn eight(samples: &[u8], place: usize) -> u8x8
    requires { place + 8 ≤ length samples.now }
    ensures { (k : ℕ) → k < 8 → get_or result k 0 ≡ slice_index samples.now (place + k) }
{
    u8x8::from_slice(&samples[place..])
}

/// Sixteen samples of a slice, from a place on.
#[inline(always)]
pub fn sixteen(samples: &[u8], place: usize) -> u8x16
    requires { place + 16 ≤ length samples.now }
    ensures { (k : ℕ) → k < 16 → get_or result k 0 ≡ slice_index samples.now (place + k) }
{
    u8x16::from_slice(&samples[place..])
}

/// Two eights of samples side by side.
#[inline(always)]
pub fn beside(a: u8x8, b: u8x8) -> u8x16
    ensures first { (k : ℕ) → k < 8 → get_or result k 0 ≡ get_or a k 0 }
    ensures second { (k : ℕ) → k < 8 → get_or result (8 + k) 0 ≡ get_or b k 0 }
{
    a.shuffle(b, [0, 1, 2, 3, 4, 5, 6, 7, 8, 9, 10, 11, 12, 13, 14, 15])
}

/// Samples as numbers of 16 bits.
#[inline(always)]
pub fn widened(a: u8x16) -> u16x16
    ensures same { result ≡ a }
    ensures small { (k : ℕ) → k < 16 → get_or result k 0 < 256 }
{
    a.cast::<u16>()
}

/// And back.
#[inline(always)]
pub fn narrow(a: u16x16) -> u8x16
    requires { (k : ℕ) → k < 16 → get_or a k 0 < 256 }
    ensures { result ≡ a }
{
    a.cast::<u8>()
}
