//! The thresholds of the deblocking filter (8.7.2.2).
#![tactic(auto)]

ghost use Rattle.std.specs.Prelude.{◌≡◌, ◌≤◌, slice_index};
ghost use Rattle.h264_tables.specs.Thresholds.{alpha_rows, beta_rows, tc0_rows};

/// The strength bS of an edge that is filtered, where it is below 4.
#[derive(Clone, Copy, Debug, PartialEq, Eq)]
pub enum Strength {
    /// bS is 1.
    One,
    /// bS is 2.
    Two,
    /// bS is 3.
    Three,
}

const ALPHA: [u8; 52] = [
    0, 0, 0, 0, 0, 0, 0, 0, 0, 0, 0, 0, 0, 0, 0, 0, 4, 4, 5, 6, 7, 8, 9, 10, 12, 13, 15, 17, 20,
    22, 25, 28, 32, 36, 40, 45, 50, 56, 63, 71, 80, 90, 101, 113, 127, 144, 162, 182, 203, 226,
    255, 255,
];

const BETA: [u8; 52] = [
    0, 0, 0, 0, 0, 0, 0, 0, 0, 0, 0, 0, 0, 0, 0, 0, 2, 2, 2, 3, 3, 3, 3, 4, 4, 4, 6, 6, 7, 7, 8, 8,
    9, 9, 10, 10, 11, 11, 12, 12, 13, 13, 14, 14, 15, 15, 16, 16, 17, 17, 18, 18,
];

const TC0_ONE: [u8; 52] = [
    0, 0, 0, 0, 0, 0, 0, 0, 0, 0, 0, 0, 0, 0, 0, 0, 0, 0, 0, 0, 0, 0, 0, 1, 1, 1, 1, 1, 1, 1, 1, 1,
    1, 2, 2, 2, 2, 3, 3, 3, 4, 4, 4, 5, 6, 6, 7, 8, 9, 10, 11, 13,
];

const TC0_TWO: [u8; 52] = [
    0, 0, 0, 0, 0, 0, 0, 0, 0, 0, 0, 0, 0, 0, 0, 0, 0, 0, 0, 0, 0, 1, 1, 1, 1, 1, 1, 1, 1, 1, 1, 2,
    2, 2, 2, 3, 3, 3, 4, 4, 5, 5, 6, 7, 8, 8, 10, 11, 12, 13, 15, 17,
];

const TC0_THREE: [u8; 52] = [
    0, 0, 0, 0, 0, 0, 0, 0, 0, 0, 0, 0, 0, 0, 0, 0, 0, 1, 1, 1, 1, 1, 1, 1, 1, 1, 1, 2, 2, 2, 2, 3,
    3, 3, 4, 4, 4, 5, 6, 6, 7, 8, 9, 10, 11, 13, 14, 16, 18, 20, 23, 25,
];

/// The threshold alpha for samples of 8 bits, by indexA (8.7.2.2, Table 8-16).
#[tactic(auto, unfolding(crate::specs::Thresholds::alpha_rows))]
#[inline]
pub fn alpha(index_a: u8) -> u8
    requires { index_a ≤ 51 }
    ensures { result ≡ slice_index alpha_rows index_a }
{
    ALPHA[index_a as usize]
}

/// The threshold beta for samples of 8 bits, by indexB (8.7.2.2, Table 8-16).
#[tactic(auto, unfolding(crate::specs::Thresholds::beta_rows))]
#[inline]
pub fn beta(index_b: u8) -> u8
    requires { index_b ≤ 51 }
    ensures value { result ≡ slice_index beta_rows index_b }
    ensures small { result ≤ 18 }
{
    BETA[index_b as usize]
}

/// tC0 for samples of 8 bits, by indexA and bS (8.7.2.3, Table 8-17).
#[tactic(auto, unfolding(crate::specs::Thresholds::tc0_rows))]
#[inline]
pub fn tc0(index_a: u8, strength: Strength) -> u8
    requires { index_a ≤ 51 }
    ensures value { result ≡ slice_index (tc0_rows strength) index_a }
    ensures small { result ≤ 25 }
{
    let index = index_a as usize;
    match strength {
        Strength::One => TC0_ONE[index],
        Strength::Two => TC0_TWO[index],
        Strength::Three => TC0_THREE[index],
    }
}
