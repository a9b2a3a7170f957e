//! Weighted samples of a macroblock (8.4.2.3), those of each 4x4 place by the weights of its reference index.
#![tactic(auto)]

ghost use Rattle.std.specs.Prelude.{◌≡◌, ℕ, ◌+◌, ◌<◌, ◌≤◌, IsTrue, List, length, replicate, get_or, Option, Some, None};
ghost use Rattle.h264_base.specs.declared.weight.Weights.{Weights};
ghost use Rattle.std.specs.Option.{ForSome};
ghost use Rattle.h264_plane.specs.declared.frame.Component.TheVariants.{Y};
ghost use Rattle.h264_recon.specs.Lines.{chroma_plane};
ghost use Rattle.h264_recon.specs.Placed.{placed_weights, weights_by, weights_of_blocks, weights_in};
ghost use Rattle.h264_recon.specs.Weights.{index_weights, weight_of, AreInRange, EachInRange};
ghost use Rattle.h264_recon.specs.Weighing.{index_of, AreOfOneIndex, IsRunWeighted, ArePlacesWeighted, AreAllWeighted};

use crate::macroblock::Weighting;
use crate::store::Samples;
use crate::weights::SliceWeights;
use h264_base::{Weight, Weights};
use h264_inter::weigh;
use h264_near::Motion as Derived;
use h264_near::block::number;
use h264_plane::Component;

/// The weights of what a block is predicted from.
#[inline(always)]
fn of_motion(weights: &[Option<Weights>; 16], motion: Option<Derived>) -> Option<Weights>
    requires { EachInRange weights.now }
    ensures here { result ≡ index_weights weights.now motion }
    ensures in_range { ForSome result AreInRange }
{
    match motion {
        None => None,
        Some(m) => {
            let n = usize::from(m.ref_idx);
            if n < 16 { weights[n] } else { None }
        }
    }
}

/// Whether two blocks have one reference index.
#[inline(always)]
fn is_of_one_index(a: Option<Derived>, b: Option<Derived>) -> bool
    ensures { IsTrue result → index_of b ≡ index_of a }
{
    match (a, b) {
        (Some(a), Some(b)) => a.ref_idx == b.ref_idx,
        (Some(_), None) => false,
        (None, Some(_)) => false,
        (None, None) => true,
    }
}

/// Whether all blocks have.
fn are_of_one_index(motions: &[Option<Derived>; 16]) -> bool
    ensures { AreOfOneIndex result motions.now }
{
    let first = motions[0];
    for n in 1..16 {
        if !is_of_one_index(first, motions[n]) {
            return false;
        }
    }
    true
}

impl<'a> Weighting<'a> {
    /// What weighs the predicted samples of a macroblock of a slice with these weights, where its blocks are predicted from these motions.
    #[inline]
    pub fn new(weights: &'a SliceWeights, motions: &'a [Option<Derived>; 16]) -> Weighting<'a>
        ensures weights { result.weights.now ≡ weights.now }
        ensures motions { result.motions.now ≡ motions.now }
        ensures places { weights_in result ≡ placed_weights (weights_by weights.now) motions.now }
    {
        Weighting {
            weights,
            motions,
            whole: false,
        }
    }
}

/// The weights of each place, row by row.
fn of_places(
    weights: &[Option<Weights>; 16],
    motions: &[Option<Derived>; 16],
) -> [Option<Weights>; 16]
    requires { EachInRange weights.now }
    ensures here { result ≡ placed_weights weights.now motions.now }
    ensures in_range { (k : ℕ) → k < 16 → ForSome (get_or result k None) AreInRange }
{
    let mut each = [None; 16];
    for k in 0..16 {
        each[k] = of_motion(weights, motions[number(k % 4, k / 4)]);
    }
    each
}

/// The weight of a plane.
#[inline(always)]
fn of_plane(weights: Weights, plane: Component) -> Weight
    ensures { result ≡ weight_of plane weights }
{
    match plane {
        Component::Y => weights.luma,
        Component::Cb => weights.cb,
        Component::Cr => weights.cr,
    }
}

/// Weighs `N` samples of a plane from a place on, where there are weights.
#[inline(always)]
fn weigh_run<const N: usize>(
    samples: &mut [u8],
    start: usize,
    weights: Option<Weights>,
    plane: Component,
)
    requires range { ForSome weights AreInRange }
    requires within { start + N ≤ length samples.old }
    ensures { IsRunWeighted N start plane weights samples.old samples.new }
{
    match weights {
        None => {}
        Some(weights) => weigh::<N>(samples, start, of_plane(weights, plane)),
    }
}

/// Weighs the predicted luma samples of a macroblock by runs of four, each of one place.
#[inline(never)]
fn weigh_luma_runs(weights: &[Option<Weights>; 16], out: &mut [u8; 256])
    requires { (k : ℕ) → k < 16 → ForSome (get_or weights.now k None) AreInRange }
    ensures { ArePlacesWeighted 16 Y (λ k. get_or weights.now k None) out.old out.new }
{
    for r in 0..64 {
        weigh_run::<4>(out, 4 * r, weights[4 * (r / 16) + r % 4], Component::Y);
    }
}

/// A chroma plane.
#[inline(always)]
fn chroma_component<const CR: bool>() -> Component
    ensures { result ≡ chroma_plane CR }
{
    if CR { Component::Cr } else { Component::Cb }
}

/// Weighs the predicted samples of a chroma plane of a macroblock by runs of two, each of one place.
#[inline(never)]
fn weigh_chroma_runs<const CR: bool>(weights: &[Option<Weights>; 16], out: &mut [u8; 64])
    requires { (k : ℕ) → k < 16 → ForSome (get_or weights.now k None) AreInRange }
    ensures { ArePlacesWeighted 8 (chroma_plane CR) (λ k. get_or weights.now k None) out.old out.new }
{
    let plane = chroma_component::<CR>();
    for r in 0..32 {
        weigh_run::<2>(out, 2 * r, weights[4 * (r / 8) + r % 4], plane);
    }
}

/// Weighs the predicted samples of a macroblock, all by the same weights.
#[inline(always)]
fn weigh_whole(weights: Option<Weights>, own: &mut Samples)
    requires { ForSome weights AreInRange }
    ensures { (list : List (Option Weights)) → ((k : ℕ) → k < 16 → weights ≡ get_or list k None) → AreAllWeighted list own.old own.new }
{
    weigh_run::<256>(&mut own.y, 0, weights, Component::Y);
    weigh_run::<64>(&mut own.cb, 0, weights, Component::Cb);
    weigh_run::<64>(&mut own.cr, 0, weights, Component::Cr);
}

/// Weighs them by the weights of each place, row by row.
fn weigh_places(weights: &[Option<Weights>; 16], own: &mut Samples)
    requires { (k : ℕ) → k < 16 → ForSome (get_or weights.now k None) AreInRange }
    ensures { AreAllWeighted weights.now own.old own.new }
{
    weigh_luma_runs(weights, &mut own.y);
    weigh_chroma_runs::<false>(weights, &mut own.cb);
    weigh_chroma_runs::<true>(weights, &mut own.cr);
}

/// Weighs them by the weights of these motions, of which the first may stand for all. A function of its own, so that macroblocks of other slices do not
/// pay for it.
#[inline(never)]
fn weigh_by(
    weights: &[Option<Weights>; 16],
    motions: &[Option<Derived>; 16],
    whole: bool,
    own: &mut Samples,
)
    requires { EachInRange weights.now }
    ensures { AreAllWeighted (weights_of_blocks weights.now whole motions.now) own.old own.new }
{
    if whole {
        weigh_whole(of_motion(weights, motions[0]), own);
        return;
    }
    if are_of_one_index(motions) {
        weigh_whole(of_motion(weights, motions[0]), own);
        return;
    }
    weigh_places(&of_places(weights, motions), own);
}

/// Weighs them by the weights of one motion. A function of its own, likewise.
#[inline(never)]
fn weigh_one(weights: &[Option<Weights>; 16], motion: Derived, own: &mut Samples)
    requires { EachInRange weights.now }
    ensures { AreAllWeighted (replicate 16 (index_weights weights.now (Some motion))) own.old own.new }
{
    weigh_whole(of_motion(weights, Some(motion)), own);
}

/// Weighs the predicted samples of a skipped macroblock of a slice with these weights, all of whose blocks are predicted from one motion.
#[inline(always)]
pub fn weigh_skipped(weights: &SliceWeights, motion: Derived, own: &mut Samples)
    ensures { AreAllWeighted (replicate 16 (index_weights (weights_by weights.now) (Some motion))) own.old own.new }
{
    match &weights.by_index {
        None => {}
        Some(weights) => weigh_one(weights, motion, own),
    }
}

/// Weighs the predicted samples of a macroblock.
#[inline(always)]
pub fn weigh_all(weighting: Weighting, own: &mut Samples)
    ensures { AreAllWeighted (weights_in weighting.entry) own.old own.new }
{
    match &weighting.weights.by_index {
        None => {}
        Some(weights) => weigh_by(weights, weighting.motions, weighting.whole, own),
    }
}
