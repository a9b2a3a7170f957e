//! Weighted sample prediction in explicit mode (8.4.2.3.2).
#![tactic(auto)]

ghost use Rattle.std.specs.Prelude.{◌≡◌, ◌↔◌, ◌+◌, ◌^◌, ◌≤◌, length, IsTrue, pos, ◌*ℤ◌, unsigned_abs};
ghost use Rattle.h264_plane.specs.Clip.{clip1};
ghost use Rattle.h264_inter.specs.Weighted.{weighted as weighted_of, scaled as scaled_of, IsPlain, IsInRange, AreWeighted};

use h264_base::Weight;

/// 2 to the power of a denominator.
#[inline(always)]
fn power(log2_weight_denom: u8) -> i16
    requires { log2_weight_denom ≤ 7 }
    ensures { result ≡ pos (2 ^ log2_weight_denom) }
{
    1 << log2_weight_denom
}

/// Whether a weight leaves each sample as it is: 2 to the power of its denominator, with offset 0.
#[inline(always)]
pub fn is_plain(weight: Weight) -> bool
    requires { IsInRange weight }
    ensures { IsTrue result ↔ IsPlain weight }
{
    weight.weight == power(weight.log2_weight_denom) && weight.offset == 0
}

#[inline(always)]
fn product(sample: u8, weight: i16) -> i16
    requires { unsigned_abs weight ≤ 128 }
    ensures value { result ≡ pos sample *ℤ weight }
    ensures size { unsigned_abs result ≤ 32640 }
{
    i16::from(sample) * weight
}

/// A product, shifted right by logWD bits and rounded.
#[inline(always)]
fn scaled(product: i16, log2_weight_denom: u8) -> i16
    requires denominator { log2_weight_denom ≤ 7 }
    requires size { unsigned_abs product ≤ 32640 }
    ensures value { result ≡ scaled_of log2_weight_denom product }
    ensures size { unsigned_abs result ≤ 32640 }
{
    (product + (power(log2_weight_denom) >> 1)) >> log2_weight_denom
}

#[inline(always)]
fn clipped(value: i16) -> u8
    ensures { result ≡ clip1 value }
{
    value.clamp(0, 255) as u8
}

/// The weighted sample of a predicted one. Each number on the way is one of 16 bits, so that eight samples are weighted at once.
#[inline(always)]
fn weighted(sample: u8, weight: Weight) -> u8
    requires { IsInRange weight }
    ensures { result ≡ weighted_of weight sample }
{
    let product = product(sample, weight.weight);
    clipped(scaled(product, weight.log2_weight_denom) + weight.offset)
}

/// Weighs `N` predicted samples from a place on (8.4.2.3.2). A weight that leaves them as they are takes one test.
#[inline(always)]
pub fn weigh<const N: usize>(samples: &mut [u8], start: usize, weight: Weight)
    requires range { IsInRange weight }
    requires within { start + N ≤ length samples.old }
    ensures { AreWeighted N start weight samples.old samples.new }
{
    if is_plain(weight) {
        return;
    }
    for k in 0..N {
        samples[start + k] = weighted(samples[start + k], weight);
    }
}
