//! What the pictures of a sequence are decoded with.
#![tactic(auto)]

ghost use Rattle.std.specs.Prelude.{◌<◌, ◌≤◌};
ghost use Rattle.h264_base.specs.Call.{HasRoom, IsQuiet, span};
ghost use Rattle.h264_picture.specs.Sound.{IsSound, HasCanvas};

use crate::buffer::buffer_size;
use crate::canvas::Canvas;
use crate::picture::Picture;
use crate::places::places_in;
use crate::purpose::Purpose;
use crate::samples::SliceSamples;
use crate::slice::Slice;
use h264_base::{Elements, Rule, Stop};
use h264_bits::{Bits, check, look};
use h264_mbsyntax::Macroblock;
use h264_near::Near;
use h264_recon::Position;
use h264_sps::sps::Sps;
use h264_vectors::SliceContext;
use std::alloc::{AllocError, Global};

/// All memory of a sequence, and the picture that is decoded.
#[derive(Drop)]
pub struct Sequence {
    /// The memory of samples, where they are made.
    pub(crate) canvas: Option<Canvas>,
    /// How many places its pictures have: those of the picture buffer, and one for the picture that is decoded.
    pub(crate) places: usize,
    /// How many macroblocks a picture has in a row.
    pub(crate) across: usize,
    /// How many macroblocks a picture has in a column.
    pub(crate) down: usize,
    /// How many macroblocks a picture has.
    pub(crate) size: u32,
    pub(crate) picture: Picture,
    /// The last macroblock. The next one is read into the same place, so that none takes or clears some 2 KB of its own.
    pub(crate) mb: Macroblock,

    ghost within: { picture.next ≤ size },
    ghost room: { (1 < places) × (places ≤ 17) },
    ghost sound: { IsSound across down size picture },
    ghost drawn: { HasCanvas across down places canvas },
}

/// Where the first macroblock of a picture stands.
const FIRST: Position = Position { column: 0, row: 0 };

impl Sequence {
    ghost use Rattle.std.specs.Prelude.{◌≡◌, ◌≢◌, ℕ, ◌-◌, ◌+◌, ◌*◌, ◌<◌, ◌≤◌, ◌^◌, Option, Some, List, [], length, true, is_some, OnOk, IfOk};
    ghost use Rattle.h264_base.specs.Meets.{Meets};
    ghost use Rattle.h264_near.specs.Coded.{CodedMacroblock};
    ghost use Rattle.h264_vectors.specs.Agrees.{Usable};
    ghost use Rattle.h264_mbsyntax.specs.Slice.{slice_data};
    ghost use Rattle.h264_picture.specs.Levels.{transform_fits};
    ghost use Rattle.h264_picture.specs.Buffer.{buffer_size as buffer_size_of};
    ghost use Rattle.h264_picture.specs.Lent.{KeepsLent, IsBegun, lent_in, frames_in, written_place};
    ghost use Rattle.h264_picture.specs.Places.{IsFrameOf, HasBegunIn};
    ghost use Rattle.h264_picture.specs.Purposes.{makes_frames};
    ghost use Rattle.h264_picture.specs.Holds.{ServesIn, HoldsIn, KeepsPlace};
    ghost use Rattle.h264_sps.specs.Usable.{is_frame_size};
    ghost use Rattle.h264_picture.specs.Making.{Making, HasSamples, HoldsMade, MakesWith, IsMadeOf, setting_of, beginning_at};

    /// Takes all memory of a sequence whose pictures are decoded for this: contexts, and where frames are asked for that of samples.
    pub(crate) fn new(alloc: Global, purpose: Purpose, sps: &Sps) -> Result<Sequence, AllocError>
        requires { is_frame_size sps.now.frame_size ≡ true }
        ensures serves { IfOk result (ServesIn sps.now.frame_size.width (sps.now.frame_size.width * sps.now.frame_size.height)) }
        ensures size { IfOk result (λ s. (s.across ≡ sps.now.frame_size.width) × (s.down ≡ sps.now.frame_size.height)) }
        ensures places { IfOk result (λ s. s.places ≡ buffer_size_of sps.now + 1) }
        ensures canvas { IfOk result (λ s. is_some s.canvas ≡ makes_frames purpose) }
    {
        let across = sps.frame_size.width as usize;
        let down = sps.frame_size.height as usize;
        let places = buffer_size(sps) + 1;
        let near = Near::new(alloc, across)?;
        let canvas = match purpose {
            Purpose::Frames => Some(Canvas::new(alloc, places, across, down)?),
            Purpose::Verdict => None,
        };
        Ok(Sequence {
            canvas,
            places,
            across,
            down,
            size: sps.frame_size.width * sps.frame_size.height,
            picture: Picture {
                near,
                next: 0,
                position: FIRST,
            },
            mb: Macroblock::none(),
        })
    }

    /// Begins a picture at a place, in the frame there if frames are made.
    pub(crate) fn begin(&mut self, place: usize)
        requires { place < self.old.places }
        ensures holds { (width size : ℕ) → ServesIn width size self.old → HoldsIn width size [] self.new }
        ensures samples { is_some self.old.canvas ≡ true → (making : Making) → HasSamples (Some making) [] self.new }
        ensures canvas { is_some self.new.canvas ≡ is_some self.old.canvas }
        ensures begun { (base : ℕ) → HasBegunIn base (base + place) self.new.canvas }
        ensures places { self.new.places ≡ self.old.places }
        ensures size { (self.new.across ≡ self.old.across) × (self.new.down ≡ self.old.down) }
        ensures none { lent_in (frames_in self.new.canvas) place ≡ None }
        ensures others { (k : ℕ) → k ≢ place → lent_in (frames_in self.old.canvas) k ≢ None →
            lent_in (frames_in self.new.canvas) k ≡ lent_in (frames_in self.old.canvas) k }
    {
        self.picture.near.clear();
        self.picture.next = 0;
        self.picture.position = FIRST;
        match &mut self.canvas {
            None => {}
            Some(canvas) => canvas.frames.begin(place),
        }
    }

    /// The picture has ended.
    pub(crate) fn end(&mut self)
        ensures frames { KeepsLent (frames_in self.old.canvas) (frames_in self.new.canvas) }
        ensures canvas { is_some self.new.canvas ≡ is_some self.old.canvas }
        ensures places { self.new.places ≡ self.old.places }
        ensures size { (self.new.across ≡ self.old.across) × (self.new.down ≡ self.old.down) }
        ensures ended { is_some self.old.canvas ≡ true →
            IsFrameOf self.old.across self.old.down (lent_in (frames_in self.new.canvas) (written_place self.old.canvas)) }
        ensures decoded { (width size : ℕ) (making : Making) (picture : List CodedMacroblock) → HoldsMade width size (Some making) picture self.old →
            length picture ≡ size → IsMadeOf (setting_of self.old) making picture (lent_in (frames_in self.new.canvas) (written_place self.old.canvas)) }
        ensures serves { (width size : ℕ) → ServesIn width size self.old → ServesIn width size self.new }
        ensures holds { (width size : ℕ) (picture : List CodedMacroblock) → HoldsIn width size picture self.old → ServesIn width size self.new }
    {
        match &mut self.canvas {
            None => {}
            Some(canvas) => canvas.frames.end(),
        }
    }

    /// Reads the slice data of a slice, which begins with the next macroblock, whatever its number is. The places of its frames begin with `base`.
    pub(crate) fn slice<S: Elements>(
        &mut self,
        bits: &mut Bits,
        context: &SliceContext,
        samples: &SliceSamples,
        base: usize,
        sink: &mut S,
    ) -> Result<(), Stop>
        requires usable { Usable context.now }
        requires qp { context.now.qp ≤ 51 }
        requires room { HasRoom S.failures sink.old }
        ensures meets { (width size : ℕ) (making : Option Making) (picture : List CodedMacroblock) → HoldsMade width size making picture self.old →
            MakesWith making (beginning_at self.old.picture.next context.now) samples.now base self.old →
            Meets (span S.took S.failures sink.old sink.new) (λ _ after. HoldsMade width size making after self.new)
            (slice_data (transform_fits context.now) width size (beginning_at self.old.picture.next context.now) picture) bits.old bits.new result }
        ensures quiet { OnOk result (IsQuiet S.failures sink.old sink.new) }
        ensures frames { IsBegun self.old.canvas → KeepsLent (frames_in self.old.canvas) (frames_in self.new.canvas) }
        ensures same { KeepsPlace self.old self.new }
    {
        let ahead = look(bits, sink);
        check(ahead.follows, Rule::SliceEmpty, ahead.bit)?;
        self.mb.qp = context.qp;
        let mut slice = Slice {
            context: *context,
            places: places_in(&self.canvas, &samples.places, base),
            filter: samples.filter,
            weights: samples.weights,
        };
        slice.context.number = self.picture.next;
        let left = self.size - self.picture.next;
        self.read_macroblocks(bits, &slice, left, sink)
    }
}
