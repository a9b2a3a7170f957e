//! The samples of a macroblock: construction (8.3, 8.4.2, 8.5) and, after it, the deblocking filter (8.7).
#![tactic(auto)]

ghost use Rattle.std.specs.Prelude.{◌≡◌, ℕ, ◌+◌, ◌*◌, ◌<◌, true, IsTrue, List, length};
ghost use Rattle.h264_near.specs.Coded.{CodedMacroblock};
ghost use Rattle.h264_near.specs.Keeps.{Keeps};
ghost use Rattle.h264_near.specs.Skips.{IsSkipped};
ghost use Rattle.h264_deblock.specs.Steps.{MovesBy};
ghost use Rattle.h264_mbsyntax.specs.Holds.{HoldsMacroblock};
ghost use Rattle.h264_mbsyntax.specs.Possible.{IsPossible};
ghost use Rattle.h264_recon.specs.Constructed.{coded as coded_as};
ghost use Rattle.h264_recon.specs.Given.{given as given_of, slice_settings};
ghost use Rattle.h264_recon.specs.Levels.{levels_of};
ghost use Rattle.h264_recon.specs.Placed.{ArePlaced, PointsInto, weights_by};
ghost use Rattle.h264_recon.specs.Predicted.{prediction_in};
ghost use Rattle.h264_recon.specs.ReadLevels.{is_pcm, is_of_samples};

use crate::in_place::{Finish, go_on, go_on_skipped};
use crate::sequence::Sequence;
use crate::slice::Slice;
use h264_deblock::{Coded, CodedSkip};
use h264_mbsyntax::Macroblock as Read;
use h264_near::{Near, Partition, Skipped};
use h264_recon::{
    Available, Macroblock, Position, ReadLevels, SliceReferences, given, partition_of,
    residual_fits,
};
use h264_vectors::SliceContext;

/// The sides that intra prediction may use, in a row of so many macroblocks: to the right of the last one there is none.
#[inline]
fn within_row(available: Available, across: usize, column: usize) -> Available
    requires { column < 1024 }
    ensures same { (IsTrue available.above_right → column + 1 < across) → result ≡ available }
    ensures none { IsTrue result.above_right → column + 1 < across }
{
    if column + 1 < across {
        return available;
    }
    Available {
        left: available.left,
        above: available.above,
        above_right: false,
        corner: available.corner,
    }
}

/// What constructs a macroblock that was read, at a position, where so many stand in a row.
#[inline]
fn given_within<'a>(
    read: &'a Read,
    near: &Near,
    slice: &SliceContext,
    references: &SliceReferences<'a>,
    across: usize,
    position: Position,
) -> Macroblock<'a>
    requires small { position.column < 1024 }
    ensures points { PointsInto references.now.places.now (prediction_in result.prediction) }
    ensures more { IsTrue result.available.above_right → position.column + 1 < across }
    ensures kind { is_of_samples (prediction_in result.prediction) ≡ is_pcm read.now.kind }
    ensures given { (width : ℕ) (picture : List CodedMacroblock) (place : ℕ → ℕ) (coded : CodedMacroblock) → across ≡ width →
        Keeps width picture near.now → length picture ≡ position.row * width + position.column → position.column < width →
        HoldsMacroblock read.now coded → coded.slice ≡ slice.now.number → IsPossible width slice.now picture coded.prediction →
        length slice.now.references ≡ 16 → ArePlaced slice.now references.now.places.now place →
        coded_as result (levels_of slice.now.chroma_qp_index_offset coded) ≡ given_of width picture place
        (slice_settings (weights_by references.now.weights.now) slice.now.constrained_intra slice.now.chroma_qp_index_offset) coded }
{
    let mut m = given(read, near, slice, references, position);
    m.available = within_row(m.available, across, position.column);
    m
}

/// How a macroblock that was read is partitioned, if it is an inter macroblock.
#[inline(always)]
fn partition(read: &Read) -> Option<Partition>
    ensures { (coded : CodedMacroblock) → HoldsMacroblock read.now coded → MovesBy result read.now.contexts.motions }
{
    partition_of(read)
}

impl Sequence {
    ghost use Rattle.std.specs.Prelude.{◌≤◌, Option, [], ◌∷◌, ◌++◌, true, false};
    ghost use Rattle.h264_picture.specs.Holds.{KeepsPlace, KeepsSyntax, HoldsIn};
    ghost use Rattle.h264_picture.specs.Making.{Making, HasSamples, MakesIn};
    ghost use Rattle.h264_picture.specs.Levels.{transform_fits, AreNone};
    ghost use Rattle.h264_picture.specs.Sound.{ArePlacesIn};

    /// Makes the samples of the macroblock that was read in its place, if each value of its transform is in range. Where no samples are made it
    /// judges the range alone.
    #[inline(never)]
    pub(crate) fn make_read(&mut self, slice: &Slice) -> bool
        requires next { self.old.picture.next < self.old.size }
        requires qp { self.old.mb.qp ≤ 51 }
        requires places { ArePlacesIn self.old.canvas slice.now.places }
        ensures same { KeepsPlace self.old self.new }
        ensures syntax { KeepsSyntax self.old self.new }
        ensures range { (coded : CodedMacroblock) → HoldsMacroblock self.old.mb coded → result ≡ transform_fits slice.now.context coded }
        ensures samples { result ≡ true → (width size : ℕ) (making : Option Making) (picture : List CodedMacroblock) (coded : CodedMacroblock) →
            HoldsIn width size picture self.old → HasSamples making picture self.old → MakesIn making slice.now →
            HoldsMacroblock self.old.mb coded → coded.slice ≡ slice.now.context.number → IsPossible width slice.now.context picture coded.prediction →
            HasSamples making (picture ++ coded ∷ []) self.new }
    {
        let offset = slice.context.chroma_qp_index_offset;
        let Some(canvas) = &mut self.canvas else {
            return residual_fits(&ReadLevels::new(&self.mb, offset));
        };
        let (read, near) = (&self.mb, &self.picture.near);
        let references = SliceReferences {
            places: &slice.places,
            weights: &slice.weights,
        };
        let position = self.picture.position;
        let m = given_within(
            read,
            near,
            &slice.context,
            &references,
            self.across,
            position,
        );
        let coded = Coded {
            near,
            own: &read.contexts,
            partition: partition(read),
            filter: &slice.filter,
        };
        let finish = Finish {
            levels: ReadLevels::new(read, offset),
            coded,
        };
        let (frame, pool) = (&mut canvas.frames.frame, &canvas.frames.pool);
        go_on(&mut canvas.lines, frame, &m, &finish, pool, position).is_ok()
    }

    /// Makes the samples of a skipped macroblock in its place, where samples are made.
    pub(crate) fn make_skipped(&mut self, slice: &Slice, skipped: &Skipped)
        requires next { self.old.picture.next < self.old.size }
        requires places { ArePlacesIn self.old.canvas slice.now.places }
        ensures same { KeepsPlace self.old self.new }
        ensures syntax { KeepsSyntax self.old self.new }
        ensures samples { (width size : ℕ) (making : Option Making) (picture : List CodedMacroblock) (coded : CodedMacroblock) →
            HoldsIn width size picture self.old → HasSamples making picture self.old → MakesIn making slice.now →
            IsSkipped skipped.now coded → coded.slice ≡ slice.now.context.number → IsPossible width slice.now.context picture coded.prediction →
            AreNone (levels_of slice.now.context.chroma_qp_index_offset coded) → HasSamples making (picture ++ coded ∷ []) self.new }
    {
        let Some(canvas) = &mut self.canvas else {
            return;
        };
        let references = SliceReferences {
            places: &slice.places,
            weights: &slice.weights,
        };
        let position = self.picture.position;
        let coded = CodedSkip {
            near: &self.picture.near,
            own: skipped,
            filter: &slice.filter,
        };
        let (frame, pool) = (&mut canvas.frames.frame, &canvas.frames.pool);
        go_on_skipped(
            &mut canvas.lines,
            frame,
            &coded,
            &references,
            pool,
            position,
        );
    }
}
