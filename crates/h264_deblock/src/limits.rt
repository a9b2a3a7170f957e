ghost use Rattle.std.specs.Prelude.{◌≡◌, ◌≢◌, ℕ, ◌<◌, ◌≤◌, List, slice_index, get_or, true};
ghost use Rattle.h264_deblock.specs.Edge.{filter_of, limits};
ghost use Rattle.h264_deblock.specs.Level.{any_filter, parameters, names, IsWord, IsLevel, AreBelow};
ghost use Rattle.h264_deblock.specs.Inner.{limits_at};
ghost use Rattle.h264_deblock.specs.Limits.{IsIdle, Suits, quarter};
ghost use Rattle.h264_deblock.specs.declared.edge_parameters.BoundaryStrength.{BoundaryStrength as Bs};
ghost use Rattle.h264_deblock.specs.declared.edge_parameters.EdgeParameters.{EdgeParameters as Parameters};
ghost use Rattle.h264_deblock.specs.declared.limits.Mix.TheVariants.{NoFour, AllFour};

use crate::edge_parameters::{BoundaryStrength, index};
use crate::named::{FOUR, Word};
use crate::slice_filter::SliceFilter;
use h264_tables::{Strength, alpha, beta, tc0};
use std::simd::prelude::*;

/// What the filter of 16 lines depends on beside the samples.
#[derive(Clone, Copy)]
pub struct LineLimits {
    pub alpha: u8,
    pub beta: u8,
    /// By line tC0, or `STRONG` where bS is 4, and `OFF` where it is 0.
    pub numbers: [u8; 16],
}

/// The number of the filter of a line with bS 4.
pub const STRONG: u8 = 254;

/// The number of the filter of a line with bS 0.
pub const OFF: u8 = 255;

/// What edges between two quantisation parameters have in common (8.7.2.2): their thresholds, and a filter for each bS below 4.
#[derive(Clone, Copy)]
pub struct Level {
    pub alpha: u8,
    pub beta: u8,
    /// tC0 of bS 1, 2 and 3, after 255 for bS 0, by which no line is filtered.
    pub numbers: [u8; 4],
}

/// Whether all bS of an edge are 4, or none of them: a coded picture has no others.
#[derive(Clone, Copy)]
pub enum Mix {
    NoFour,
    AllFour,
}

/// A filter's number.
#[tactic(auto, unfolding(crate::specs::Level::filter_by, crate::specs::Level::any_filter))]
#[inline(always)]
fn number(index_a: u8, strength: BoundaryStrength) -> u8
    requires { index_a ≤ 51 }
    ensures { any_filter result ≡ filter_of index_a strength }
{
    match strength {
        BoundaryStrength::Zero => OFF,
        BoundaryStrength::BelowFour(strength) => tc0(index_a, strength),
        BoundaryStrength::Four => STRONG,
    }
}

/// The numbers of the quarters of an edge by line.
#[tactic(auto, using(crate::proofs::Turns::by_fours, crate::proofs::Turns::by_pairs))]
#[inline(always)]
fn spread<const CHROMA: bool>(quarters: [u8; 4]) -> [u8; 16]
    ensures { (n : ℕ) → n < 16 → slice_index result n ≡ slice_index quarters (quarter CHROMA n) }
{
    let quarters = u8x4::from_array(quarters);
    if CHROMA {
        return quarters
            .swizzle([0, 0, 1, 1, 2, 2, 3, 3, 0, 0, 1, 1, 2, 2, 3, 3])
            .to_array();
    }
    quarters
        .swizzle([0, 0, 0, 0, 1, 1, 1, 1, 2, 2, 2, 2, 3, 3, 3, 3])
        .to_array()
}

/// What edges between two quantisation parameters, qPp and qPq, have in common, where a slice with this filter holds q0 (8.7.2.2).
#[inline(always)]
pub fn level_of(qp_p: u8, qp_q: u8, filter: &SliceFilter) -> Level
    ensures here { (strengths : List Bs) → IsLevel result (parameters qp_p qp_q filter.now strengths) }
    ensures below { AreBelow result.numbers }
{
    let by_a = index(qp_p, qp_q, filter.filter_offset_a);
    let by_b = index(qp_p, qp_q, filter.filter_offset_b);
    Level {
        alpha: alpha(by_a),
        beta: beta(by_b),
        numbers: [
            number(by_a, BoundaryStrength::Zero),
            number(by_a, BoundaryStrength::BelowFour(Strength::One)),
            number(by_a, BoundaryStrength::BelowFour(Strength::Two)),
            number(by_a, BoundaryStrength::BelowFour(Strength::Three)),
        ],
    }
}

/// Whether alpha or beta is 0, so that none of the lines of such edges is filtered.
#[inline(always)]
pub fn is_idle_at(level: &Level) -> bool
    ensures { result ≡ true → (e : Parameters) → IsLevel level.now e → IsIdle e }
{
    level.alpha == 0 || level.beta == 0
}

/// The numbers of the filters of an edge's lines, where no bS is 4.
#[inline(always)]
fn numbers_below<const CHROMA: bool>(level: &Level, word: &Word) -> [u8; 16]
    requires { (k : ℕ) → k < 4 → get_or word.now k 0 < 4 }
    ensures { (n : ℕ) → n < 16 → slice_index result n ≡ slice_index level.now.numbers (get_or word.now (quarter CHROMA n) 0) }
{
    spread::<CHROMA>([
        level.numbers[word[0] as usize],
        level.numbers[word[1] as usize],
        level.numbers[word[2] as usize],
        level.numbers[word[3] as usize],
    ])
}

/// What the filter of an edge's lines depends on, by what the edge has in common with others, and its strengths.
#[inline(always)]
pub fn limits_at_level<const CHROMA: bool>(level: &Level, word: &Word) -> LineLimits
    requires word { IsWord word.now }
    requires below { AreBelow level.now.numbers }
    ensures here { (e : Parameters) → IsLevel level.now e → names word.now ≡ e.strengths → (n : ℕ) → n < 16 →
        limits_at result n ≡ limits e (quarter CHROMA n) }
    ensures all { get_or word.now 0 0 ≡ 4 → (n : ℕ) → n < 16 → Suits AllFour (slice_index result.numbers n) }
    ensures none { get_or word.now 0 0 ≢ 4 → (n : ℕ) → n < 16 → Suits NoFour (slice_index result.numbers n) }
{
    if word[0] == FOUR {
        return LineLimits {
            alpha: level.alpha,
            beta: level.beta,
            numbers: [STRONG; 16],
        };
    }
    LineLimits {
        alpha: level.alpha,
        beta: level.beta,
        numbers: numbers_below::<CHROMA>(level, word),
    }
}
