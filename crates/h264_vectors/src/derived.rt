//! References and vectors of the blocks of a macroblock, part by part (8.4.1).
#![tactic(auto)]

ghost use Rattle.std.specs.Prelude.{◌≡◌, ℕ, ◌+◌, ◌<◌, ◌≤◌, Bool, true, IsTrue, List, [], ◌∷◌};
ghost use Rattle.h264_near.specs.Coded.{CodedMacroblock};
ghost use Rattle.h264_near.specs.Keeps.{Keeps};
ghost use Rattle.h264_vectors.specs.Derived as derived;
ghost use Rattle.h264_vectors.specs.Derived.{Derived};
ghost use Rattle.h264_vectors.specs.Agrees.{Agrees, Usable, IsWhole, IsOfQuarters, IsQuarterFilled, StayAlike, places_with};

use crate::part::{Part, PredictedPart, VectorDifference};
use crate::predicted::predicted_vector;
use crate::range::moved;
use crate::slice::{Surroundings, motion_of};
use h264_near::Motion;
use h264_near::block::{column, row};

/// Whether k lies from `from` on in so many places.
#[inline(always)]
fn lies(from: usize, size: usize, k: usize) -> bool
    requires { from + size ≤ 4 }
    ensures { result ≡ derived.lies from size k }
{
    if k < from {
        return false;
    }
    k < from + size
}

/// What a block is predicted from after a part is derived.
#[inline(always)]
fn after_part(part: Part, n: usize, motion: Motion, old: Option<Motion>) -> Option<Motion>
    requires columns { part.x + part.wide ≤ 4 }
    requires rows { part.y + part.high ≤ 4 }
    requires block { n < 16 }
    ensures { result ≡ derived.in_part part n motion old }
{
    if !lies(part.x, part.wide, column(n)) {
        return old;
    }
    if !lies(part.y, part.high, row(n)) {
        return old;
    }
    Some(motion)
}

/// Whether a part is the whole macroblock.
#[inline(always)]
fn is_whole(part: Part) -> bool
    requires columns { part.x + part.wide ≤ 4 }
    requires rows { part.y + part.high ≤ 4 }
    ensures { IsTrue result → IsWhole part }
{
    if part.wide == 4 {
        return part.high == 4;
    }
    false
}

/// Whether a part is made of whole 8x8 blocks.
#[inline(always)]
fn is_of_quarters(part: Part) -> bool
    ensures { result ≡ true → IsOfQuarters part }
{
    part.x % 2 == 0 && part.wide % 2 == 0 && part.y % 2 == 0 && part.high % 2 == 0
}

/// Keeps what the blocks of an 8x8 block are predicted from, if it lies in a part that is made of such blocks.
#[inline(always)]
fn fill_quarter(motions: &mut [Option<Motion>; 16], part: Part, q: usize, motion: Motion)
    requires columns { part.x + part.wide ≤ 4 }
    requires rows { part.y + part.high ≤ 4 }
    requires whole { IsOfQuarters part }
    requires quarter { q < 4 }
    ensures { IsQuarterFilled motions.old motions.new part q motion }
{
    if !lies(part.x, part.wide, q % 2 * 2) {
        return;
    }
    if !lies(part.y, part.high, q / 2 * 2) {
        return;
    }
    motions[4 * q] = Some(motion);
    motions[4 * q + 1] = Some(motion);
    motions[4 * q + 2] = Some(motion);
    motions[4 * q + 3] = Some(motion);
}

/// Keeps what the blocks of a part are predicted from that is made of whole 8x8 blocks.
#[inline(always)]
fn fill_quarters(motions: &mut [Option<Motion>; 16], part: Part, motion: Motion)
    requires columns { part.x + part.wide ≤ 4 }
    requires rows { part.y + part.high ≤ 4 }
    requires whole { IsOfQuarters part }
    ensures { motions.new ≡ derived.with_part motions.old part motion }
{
    fill_quarter(motions, part, 0, motion);
    fill_quarter(motions, part, 1, motion);
    fill_quarter(motions, part, 2, motion);
    fill_quarter(motions, part, 3, motion);
}

/// Keeps what the blocks of a part are predicted from.
#[inline]
fn fill(motions: &mut [Option<Motion>; 16], part: Part, motion: Motion)
    requires columns { part.x + part.wide ≤ 4 }
    requires rows { part.y + part.high ≤ 4 }
    ensures { motions.new ≡ derived.with_part motions.old part motion }
{
    if is_whole(part) {
        *motions = [Some(motion); 16];
        return;
    }
    if is_of_quarters(part) {
        fill_quarters(motions, part, motion);
        return;
    }
    *motions = [
        after_part(part, 0, motion, motions[0]),
        after_part(part, 1, motion, motions[1]),
        after_part(part, 2, motion, motions[2]),
        after_part(part, 3, motion, motions[3]),
        after_part(part, 4, motion, motions[4]),
        after_part(part, 5, motion, motions[5]),
        after_part(part, 6, motion, motions[6]),
        after_part(part, 7, motion, motions[7]),
        after_part(part, 8, motion, motions[8]),
        after_part(part, 9, motion, motions[9]),
        after_part(part, 10, motion, motions[10]),
        after_part(part, 11, motion, motions[11]),
        after_part(part, 12, motion, motions[12]),
        after_part(part, 13, motion, motions[13]),
        after_part(part, 14, motion, motions[14]),
        after_part(part, 15, motion, motions[15]),
    ];
}

/// Derives what a part is predicted from, by mvd_l0: whether all vectors up to it lie in their range. Once one does not,
/// `motions` stay as they are.
pub fn derive(
    around: Surroundings,
    part: PredictedPart,
    mvd: VectorDifference,
    fits: bool,
    motions: &mut [Option<Motion>; 16],
) -> bool
    requires columns { part.place.x + part.place.wide ≤ 4 }
    requires rows { part.place.y + part.place.high ≤ 4 }
    requires high { 0 < part.place.high }
    requires index { part.ref_idx < 16 }
    requires usable { Usable around.slice.now }
    ensures agrees { (width : ℕ) (picture : List CodedMacroblock) (places : List Bool) (d : Derived) → Keeps width picture around.entry.near.now →
        Agrees fits motions.old places d → Agrees result motions.new (places_with places part.place)
        (derived.derive width around.entry.slice.now picture d part mvd) }
    ensures alike { StayAlike (part.place ∷ []) motions.old motions.new }
{
    if !fits {
        return false;
    }
    let Surroundings { near, slice } = around;
    let PredictedPart { place, ref_idx } = part;
    let predicted = predicted_vector(near, slice.number, motions, place, ref_idx as u8);
    match moved(slice.vector_limit, predicted, mvd.across, mvd.down) {
        None => false,
        Some(vector) => {
            fill(motions, place, motion_of(slice, ref_idx, vector));
            true
        }
    }
}
