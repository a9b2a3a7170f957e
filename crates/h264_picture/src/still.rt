//! Runs of skipped macroblocks that stand still, where no samples are made: all of a row at once.
#![tactic(auto)]

ghost use Rattle.std.specs.Prelude.{◌≡◌, ℕ, ◌+◌, ◌<◌, ◌≤◌, None, Some, true};
ghost use Rattle.h264_near.specs.Skips.{IsSkipped};

use crate::sequence::Sequence;
use crate::slice::Slice;
use h264_mbsyntax::{Standing, is_repeated};
use h264_near::Vector;
use h264_vectors::vector_fits;

/// What of a run was passed.
#[derive(Clone, Copy)]
pub(crate) struct Passed {
    /// How many macroblocks.
    pub(crate) count: u32,
    /// How slice data stand after them.
    pub(crate) standing: Standing,
}

/// The vector of a macroblock that stands still.
const STILL: Vector = Vector { x: 0, y: 0 };

impl Sequence {
    ghost use Rattle.std.specs.Prelude.{◌-◌, Option, List};
    ghost use Rattle.h264_near.specs.Coded.{CodedMacroblock};
    ghost use Rattle.h264_mbsyntax.specs.Still.{StandStill, with_still};
    ghost use Rattle.h264_picture.specs.Holds.{IsWithin, KeepsPlace, RefersOn};
    ghost use Rattle.h264_picture.specs.Making.{Making, Reads};
    ghost use Rattle.h264_picture.specs.Still.{IsRepeated, Passes};

    /// How many macroblocks of the rest of a run are skipped as the one before them is, but for the last of its row; none where samples are made.
    #[inline]
    fn repeated(&self, slice: &Slice, more: u32) -> u32
        ensures few { result ≤ more }
        ensures row { self.now.picture.position.column + result < self.now.across }
        ensures alike { 0 < result → IsRepeated slice.now.context self.now }
    {
        if self.canvas.is_some() {
            return 0;
        }
        let Some(skipped) = self.picture.near.skipped_before() else {
            return 0;
        };
        let context = &slice.context;
        if !is_repeated(context, skipped, self.mb.qp) {
            return 0;
        }
        if !vector_fits(context.vector_limit, STILL) {
            return 0;
        }
        more.min((self.across - 1 - self.picture.position.column) as u32)
    }

    /// Passes those: how many they are.
    #[inline]
    fn pass_still(&mut self, slice: &Slice, more: u32) -> u32
        requires left { self.old.picture.next + more ≤ self.old.size }
        ensures few { result ≤ more }
        ensures still { (width size : ℕ) (making : Option Making) (picture : List CodedMacroblock) → Reads width size making slice.now picture self.old →
            StandStill width slice.now.context picture result }
        ensures reads { (width size : ℕ) (making : Option Making) (picture : List CodedMacroblock) → Reads width size making slice.now picture self.old →
            Reads width size making slice.now (with_still slice.now.context picture result) self.new }
        ensures next { self.new.picture.next ≡ self.old.picture.next + result }
        ensures size { self.new.size ≡ self.old.size }
        ensures same { KeepsPlace self.old self.new }
        ensures mb { self.new.mb ≡ self.old.mb }
    {
        let count = self.repeated(slice, more);
        if count == 0 {
            return 0;
        }
        self.picture.near.push_repeated(count);
        self.picture.next += count;
        self.picture.position.column += count as usize;
        count
    }

    /// Passes the macroblocks that go with the last one, where so many are left in the picture.
    #[inline]
    pub(crate) fn pass(&mut self, slice: &Slice, standing: Standing, left: u32) -> Passed
        requires left { self.old.picture.next + left ≤ self.old.size }
        requires within { IsWithin left standing }
        ensures few { result.count ≤ left }
        ensures within { IsWithin (left - result.count) result.standing }
        ensures refers { RefersOn slice.now.context standing → RefersOn slice.now.context result.standing }
        ensures passes { (width size : ℕ) (making : Option Making) (picture : List CodedMacroblock) → Reads width size making slice.now picture self.old →
            Passes width slice.now.context picture standing result }
        ensures reads { (width size : ℕ) (making : Option Making) (picture : List CodedMacroblock) → Reads width size making slice.now picture self.old →
            Reads width size making slice.now (with_still slice.now.context picture result.count) self.new }
        ensures next { self.new.picture.next ≡ self.old.picture.next + result.count }
        ensures size { self.new.size ≡ self.old.size }
        ensures same { KeepsPlace self.old self.new }
        ensures mb { self.new.mb ≡ self.old.mb }
    {
        match standing {
            Standing::Next => Passed { count: 0, standing },
            Standing::Skipping { bit, more } => {
                let count = self.pass_still(slice, more);
                Passed {
                    count,
                    standing: Standing::Skipping {
                        bit,
                        more: more - count,
                    },
                }
            }
        }
    }
}
