//! The next macroblock of a slice (7.3.4).
#![tactic(auto)]

ghost use Rattle.std.specs.Prelude.{◌≡◌, ◌+◌, ◌*◌, ◌<◌, ◌≤◌, ◌==◌, ◌||◌};
ghost use Rattle.h264_base.specs.Call.{HasRoom, IsQuiet, span};
ghost use Rattle.h264_vectors.specs.Derived.{has_picture as has_picture_of};

use crate::sequence::Sequence;
use crate::slice::Slice;
use h264_base::{ElementName, Elements, Rule, SliceType, Stop};
use h264_bits::{Bits, check, look, read_ue};
use h264_mbsyntax::{Standing, read_macroblock, skip_macroblock};
use h264_near::Skipped;
use h264_recon::Position;
use h264_vectors::{SliceContext, has_picture, skip_vector, vector_fits};

/// Whether a run of skipped macroblocks has its picture.
#[inline]
fn has_reference(slice: &SliceContext, run: u32) -> bool
    ensures { result ≡ (run == 0 || has_picture_of slice.now 0) }
{
    if run == 0 {
        return true;
    }
    has_picture(slice, 0)
}

/// The position of the macroblock after one, where so many stand in a row.
#[inline]
fn position_after(across: usize, position: Position) -> Position
    requires column { position.column < across }
    requires small { (across ≤ 1024) × (position.row ≤ 1024) }
    ensures column { result.column < across }
    ensures next { result.row * across + result.column ≡ position.row * across + position.column + 1 }
{
    let Position { column, row } = position;
    if column + 1 < across {
        return Position {
            column: column + 1,
            row,
        };
    }
    Position {
        column: 0,
        row: row + 1,
    }
}

/// What is left of a run of skipped macroblocks.
#[derive(Clone, Copy)]
struct Skips {
    /// The stream bit of its mb_skip_run.
    bit: u64,
    /// How many follow the next one.
    more: u32,
}

impl Sequence {
    ghost use Rattle.std.specs.Prelude.{◌≡◌, ℕ, ◌+◌, ◌-◌, ◌<◌, ◌≤◌, ◌^◌, Option, List, [], ◌∷◌, ◌++◌, length, OnOk, IfOk, true};
    ghost use Rattle.h264_base.specs.Meets.{Meets};
    ghost use Rattle.h264_near.specs.Coded.{CodedMacroblock};
    ghost use Rattle.h264_near.specs.Skips.{IsSkipped};
    ghost use Rattle.h264_mbsyntax.specs.declared.slice.Standing.TheVariants as standings;
    ghost use Rattle.h264_mbsyntax.specs.Holds.{HoldsMacroblock};
    ghost use Rattle.h264_mbsyntax.specs.Slice as syntax;
    ghost use Rattle.h264_picture.specs.Levels.{transform_fits};
    ghost use Rattle.h264_picture.specs.Holds.{HoldsIn, IsWithin, Moves, KeepsPlace, RefersOn, RefersIf};
    ghost use Rattle.h264_picture.specs.Making.{Making, HasSamples, MakesIn, Reads};
    ghost use Rattle.h264_picture.specs.Sound.{ArePlacesIn};
    ghost use Rattle.h264_picture.specs.declared.slice.Slice.{Slice as SliceView};

    /// The next macroblock is the one after it.
    #[inline(always)]
    fn step_on(&mut self)
        requires { self.old.picture.next < self.old.size }
        ensures next { self.new.picture.next ≡ self.old.picture.next + 1 }
        ensures near { self.new.picture.near ≡ self.old.picture.near }
        ensures mb { self.new.mb ≡ self.old.mb }
        ensures size { self.new.size ≡ self.old.size }
        ensures same { KeepsPlace self.old self.new }
        ensures samples { (making : Option Making) (picture : List CodedMacroblock) → HasSamples making picture self.old → HasSamples making picture self.new }
    {
        self.picture.next += 1;
        self.picture.position = position_after(self.across, self.picture.position);
    }

    /// The macroblock in its place becomes the last one of the picture.
    #[inline]
    fn keep(&mut self)
        requires { self.old.picture.next < self.old.size }
        ensures reads { (width size : ℕ) (making : Option Making) (slice : SliceView) (picture : List CodedMacroblock) (coded : CodedMacroblock) →
            HoldsIn width size picture self.old → slice.context.number ≤ length picture → HoldsMacroblock self.old.mb coded →
            coded.slice ≡ slice.context.number → HasSamples making (picture ++ coded ∷ []) self.old → MakesIn making slice →
            Reads width size making slice (picture ++ coded ∷ []) self.new }
        ensures next { self.new.picture.next ≡ self.old.picture.next + 1 }
        ensures size { self.new.size ≡ self.old.size }
        ensures same { KeepsPlace self.old self.new }
        ensures mb { self.new.mb ≡ self.old.mb }
    {
        self.picture.near.push(&self.mb.contexts);
        self.step_on();
    }

    /// A skipped macroblock becomes the last one of the picture.
    #[inline]
    fn keep_skipped(&mut self, skipped: &Skipped)
        requires { self.old.picture.next < self.old.size }
        ensures reads { (width size : ℕ) (making : Option Making) (slice : SliceView) (picture : List CodedMacroblock) (coded : CodedMacroblock) →
            HoldsIn width size picture self.old → slice.context.number ≤ length picture → IsSkipped skipped.now coded →
            skipped.now.qp ≡ self.old.mb.qp → coded.slice ≡ slice.context.number →
            HasSamples making (picture ++ coded ∷ []) self.old → MakesIn making slice →
            Reads width size making slice (picture ++ coded ∷ []) self.new }
        ensures next { self.new.picture.next ≡ self.old.picture.next + 1 }
        ensures size { self.new.size ≡ self.old.size }
        ensures same { KeepsPlace self.old self.new }
        ensures mb { self.new.mb ≡ self.old.mb }
    {
        self.picture.near.push_skipped(skipped);
        self.step_on();
    }

    /// Reads a macroblock that is not skipped.
    fn read_unskipped<S: Elements>(
        &mut self,
        bits: &mut Bits,
        slice: &Slice,
        left: u32,
        sink: &mut S,
    ) -> Result<Option<Standing>, Stop>
        requires qp { self.old.mb.qp ≤ 51 }
        requires left { self.old.picture.next + left ≤ self.old.size }
        requires places { ArePlacesIn self.old.canvas slice.now.places }
        requires room { HasRoom S.failures sink.old }
        ensures meets { (width size : ℕ) (making : Option Making) (picture : List CodedMacroblock) →
            Reads width size making slice.now picture self.old → Meets (span S.took S.failures sink.old sink.new)
            (syntax.Goes (λ p. Reads width size making slice.now p self.new) picture)
            (syntax.unskipped (transform_fits slice.now.context) width slice.now.context left picture) bits.old bits.new result }
        ensures quiet { OnOk result (IsQuiet S.failures sink.old sink.new) }
        ensures within { OnOk result (self.new.mb.qp ≤ 51) }
        ensures moves { IfOk result (Moves left self.old.picture.next self.new.picture.next) }
        ensures size { self.new.size ≡ self.old.size }
        ensures same { KeepsPlace self.old self.new }
        ensures refers { IfOk result (RefersIf slice.now.context) }
    {
        let ahead = look(bits, sink);
        check(0 < left, Rule::MbPast, ahead.bit)?;
        let qp = self.mb.qp;
        let bit = read_macroblock(
            bits,
            &self.picture.near,
            &slice.context,
            qp,
            &mut self.mb,
            sink,
        )?;
        let fits = self.make_read(slice);
        check(fits, Rule::TransformRange, bit)?;
        self.keep();
        Ok(Some(Standing::Next))
    }

    /// Derives the next macroblock of a run of skipped ones.
    fn skip<S: Elements>(
        &mut self,
        bits: &Bits,
        slice: &Slice,
        skips: Skips,
        left: u32,
        sink: &S,
    ) -> Result<Option<Standing>, Stop>
        requires qp { self.old.mb.qp ≤ 51 }
        requires some { skips.more < left }
        requires refers { has_picture_of slice.now.context 0 ≡ true }
        requires left { self.old.picture.next + left ≤ self.old.size }
        requires places { ArePlacesIn self.old.canvas slice.now.places }
        ensures meets { (width size : ℕ) (making : Option Making) (picture : List CodedMacroblock) →
            Reads width size making slice.now picture self.old → Meets (span S.took S.failures sink.now sink.now)
            (syntax.Goes (λ p. Reads width size making slice.now p self.new) picture) (syntax.skip width slice.now.context picture skips.bit skips.more)
            bits.now bits.now result }
        ensures within { OnOk result (self.new.mb.qp ≤ 51) }
        ensures moves { IfOk result (Moves left self.old.picture.next self.new.picture.next) }
        ensures size { self.new.size ≡ self.old.size }
        ensures same { KeepsPlace self.old self.new }
        ensures refers { IfOk result (RefersIf slice.now.context) }
    {
        let context = &slice.context;
        let vector = skip_vector(&self.picture.near, context.number);
        let fits = vector_fits(context.vector_limit, vector);
        check(fits, Rule::VectorRange, skips.bit)?;
        let skipped = skip_macroblock(context, vector, self.mb.qp);
        self.make_skipped(slice, &skipped);
        self.keep_skipped(&skipped);
        Ok(Some(Standing::Skipping {
            bit: skips.bit,
            more: skips.more,
        }))
    }

    /// Reads mb_skip_run, and the first macroblock of it or the one after it.
    fn read_run<S: Elements>(
        &mut self,
        bits: &mut Bits,
        slice: &Slice,
        left: u32,
        sink: &mut S,
    ) -> Result<Option<Standing>, Stop>
        requires qp { self.old.mb.qp ≤ 51 }
        requires left { self.old.picture.next + left ≤ self.old.size }
        requires places { ArePlacesIn self.old.canvas slice.now.places }
        requires room { HasRoom S.failures sink.old }
        ensures meets { (width size : ℕ) (making : Option Making) (picture : List CodedMacroblock) →
            Reads width size making slice.now picture self.old → Meets (span S.took S.failures sink.old sink.new)
            (syntax.Goes (λ p. Reads width size making slice.now p self.new) picture)
            (syntax.run_of_skips (transform_fits slice.now.context) width slice.now.context left picture) bits.old bits.new result }
        ensures quiet { OnOk result (IsQuiet S.failures sink.old sink.new) }
        ensures within { OnOk result (self.new.mb.qp ≤ 51) }
        ensures moves { IfOk result (Moves left self.old.picture.next self.new.picture.next) }
        ensures size { self.new.size ≡ self.old.size }
        ensures same { KeepsPlace self.old self.new }
        ensures refers { IfOk result (RefersIf slice.now.context) }
    {
        let run = read_ue(bits, ElementName::MbSkipRun, sink)?;
        check(run.value <= left, Rule::Range, run.bit)?;
        check(
            has_reference(&slice.context, run.value),
            Rule::NoReference,
            run.bit,
        )?;
        if run.value == 0 {
            return self.read_unskipped(bits, slice, left, sink);
        }
        let skips = Skips {
            bit: run.bit,
            more: run.value - 1,
        };
        self.skip(bits, slice, skips, left, sink)
    }

    /// Reads the next macroblock, if there is one.
    fn read_at_next<S: Elements>(
        &mut self,
        bits: &mut Bits,
        slice: &Slice,
        left: u32,
        sink: &mut S,
    ) -> Result<Option<Standing>, Stop>
        requires qp { self.old.mb.qp ≤ 51 }
        requires left { self.old.picture.next + left ≤ self.old.size }
        requires places { ArePlacesIn self.old.canvas slice.now.places }
        requires room { HasRoom S.failures sink.old }
        ensures meets { (width size : ℕ) (making : Option Making) (picture : List CodedMacroblock) →
            Reads width size making slice.now picture self.old → Meets (span S.took S.failures sink.old sink.new)
            (syntax.Goes (λ p. Reads width size making slice.now p self.new) picture)
            (syntax.next (transform_fits slice.now.context) width slice.now.context left picture standings.Next) bits.old bits.new result }
        ensures quiet { OnOk result (IsQuiet S.failures sink.old sink.new) }
        ensures within { OnOk result (self.new.mb.qp ≤ 51) }
        ensures moves { IfOk result (Moves left self.old.picture.next self.new.picture.next) }
        ensures size { self.new.size ≡ self.old.size }
        ensures same { KeepsPlace self.old self.new }
        ensures refers { IfOk result (RefersIf slice.now.context) }
    {
        let ahead = look(bits, sink);
        if !ahead.follows {
            return Ok(None);
        }
        match slice.context.slice_type {
            SliceType::I => self.read_unskipped(bits, slice, left, sink),
            SliceType::P => self.read_run(bits, slice, left, sink),
        }
    }

    /// Reads the macroblock after a run of skipped ones, if there is one.
    fn read_after_skips<S: Elements>(
        &mut self,
        bits: &mut Bits,
        slice: &Slice,
        bit: u64,
        left: u32,
        sink: &mut S,
    ) -> Result<Option<Standing>, Stop>
        requires qp { self.old.mb.qp ≤ 51 }
        requires left { self.old.picture.next + left ≤ self.old.size }
        requires places { ArePlacesIn self.old.canvas slice.now.places }
        requires room { HasRoom S.failures sink.old }
        ensures meets { (width size : ℕ) (making : Option Making) (picture : List CodedMacroblock) →
            Reads width size making slice.now picture self.old → Meets (span S.took S.failures sink.old sink.new)
            (syntax.Goes (λ p. Reads width size making slice.now p self.new) picture)
            (syntax.next (transform_fits slice.now.context) width slice.now.context left picture (standings.Skipping bit 0)) bits.old bits.new result }
        ensures quiet { OnOk result (IsQuiet S.failures sink.old sink.new) }
        ensures within { OnOk result (self.new.mb.qp ≤ 51) }
        ensures moves { IfOk result (Moves left self.old.picture.next self.new.picture.next) }
        ensures size { self.new.size ≡ self.old.size }
        ensures same { KeepsPlace self.old self.new }
        ensures refers { IfOk result (RefersIf slice.now.context) }
    {
        let ahead = look(bits, sink);
        if !ahead.follows {
            return Ok(None);
        }
        self.read_unskipped(bits, slice, left, sink)
    }

    /// Goes on by how slice data stand.
    #[inline(always)]
    pub(crate) fn read_next<S: Elements>(
        &mut self,
        bits: &mut Bits,
        slice: &Slice,
        left: u32,
        standing: Standing,
        sink: &mut S,
    ) -> Result<Option<Standing>, Stop>
        requires qp { self.old.mb.qp ≤ 51 }
        requires left { self.old.picture.next + left ≤ self.old.size }
        requires standing { IsWithin left standing }
        requires refers { RefersOn slice.now.context standing }
        requires places { ArePlacesIn self.old.canvas slice.now.places }
        requires room { HasRoom S.failures sink.old }
        ensures meets { (width size : ℕ) (making : Option Making) (picture : List CodedMacroblock) →
            Reads width size making slice.now picture self.old → Meets (span S.took S.failures sink.old sink.new)
            (syntax.Goes (λ p. Reads width size making slice.now p self.new) picture)
            (syntax.next (transform_fits slice.now.context) width slice.now.context left picture standing) bits.old bits.new result }
        ensures quiet { OnOk result (IsQuiet S.failures sink.old sink.new) }
        ensures within { OnOk result (self.new.mb.qp ≤ 51) }
        ensures moves { IfOk result (Moves left self.old.picture.next self.new.picture.next) }
        ensures size { self.new.size ≡ self.old.size }
        ensures same { KeepsPlace self.old self.new }
        ensures refers { IfOk result (RefersIf slice.now.context) }
    {
        match standing {
            Standing::Next => self.read_at_next(bits, slice, left, sink),
            Standing::Skipping { bit, more } => {
                if more == 0 {
                    return self.read_after_skips(bits, slice, bit, left, sink);
                }
                let skips = Skips {
                    bit,
                    more: more - 1,
                };
                self.skip(bits, slice, skips, left, sink)
            }
        }
    }
}
