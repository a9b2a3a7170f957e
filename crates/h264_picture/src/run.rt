//! Slice data (7.3.4): one macroblock after another.
#![tactic(auto)]

use crate::sequence::Sequence;
use crate::slice::Slice;
use h264_base::{Elements, Stop};
use h264_bits::Bits;
use h264_mbsyntax::Standing;

impl Sequence {
    ghost use Rattle.std.specs.Prelude.{◌≡◌, ℕ, ◌+◌, ◌-◌, ◌<◌, ◌≤◌, ◌^◌, Option, List, OnOk};
    ghost use Rattle.h264_base.specs.Call.{HasRoom, span};
    ghost use Rattle.h264_base.specs.Meets.{Meets};
    ghost use Rattle.h264_near.specs.Coded.{CodedMacroblock};
    ghost use Rattle.h264_mbsyntax.specs.declared.slice.Standing.TheVariants as standings;
    ghost use Rattle.h264_mbsyntax.specs.Slice as syntax;
    ghost use Rattle.h264_picture.specs.Levels.{transform_fits};
    ghost use Rattle.h264_picture.specs.Holds.{KeepsPlace};
    ghost use Rattle.h264_picture.specs.Making.{Making, HoldsMade, Reads};
    ghost use Rattle.h264_picture.specs.Sound.{ArePlacesIn};

    /// Reads macroblocks to the end of the slice data; so many are left in the picture.
    pub(crate) fn read_macroblocks<S: Elements>(
        &mut self,
        bits: &mut Bits,
        slice: &Slice,
        left: u32,
        sink: &mut S,
    ) -> Result<(), Stop>
        requires qp { self.old.mb.qp ≤ 51 }
        requires left { self.old.picture.next + left ≤ self.old.size }
        requires places { ArePlacesIn self.old.canvas slice.now.places }
        requires room { HasRoom S.failures sink.old }
        ensures meets { (width size : ℕ) (making : Option Making) (picture : List CodedMacroblock) →
            Reads width size making slice.now picture self.old → Meets (span S.took S.failures sink.old sink.new)
            (λ _ after. HoldsMade width size making after self.new) (syntax.macroblocks (transform_fits slice.now.context) width slice.now.context left
            standings.Next picture) bits.old bits.new result }
        ensures quiet { OnOk result (S.failures sink.new ≡ S.failures sink.old) }
        ensures same { KeepsPlace self.old self.new }
    {
        let mut standing = Standing::Next;
        let mut turn = 0;
        while turn < left {
            match self.read_next(bits, slice, left - turn, standing, sink)? {
                None => {
                    return Ok(());
                }
                Some(next) => {
                    let passed = self.pass(slice, next, left - turn - 1);
                    standing = passed.standing;
                    turn += 1 + passed.count;
                }
            }
        }
        let _end = self.read_next(bits, slice, 0, standing, sink)?;
        Ok(())
    }
}
