//! The place in which pictures are decoded.
#![tactic(auto)]

ghost use Rattle.std.specs.Prelude.{◌≡◌, ◌%◌, ◌≤◌};
ghost use Rattle.h264_base.specs.Call.{HasRoom, IsQuiet, span};
ghost use Rattle.std.specs.Option.{option_and_then};
ghost use Rattle.h264_picture.specs.declared.sequence.Sequence.{Sequence as SequenceModel};
ghost use Rattle.h264_picture.specs.Lent.{frames_in};
ghost use Rattle.h264_picture.specs.Purposes.{IsFor};

use crate::frames::{Frames, PLACES};
use crate::purpose::Purpose;
use crate::samples::SliceSamples;
use crate::sequence::Sequence;
use h264_base::{Elements, Stop};
use h264_bits::Bits;
use h264_plane::{Frame, FrameStore};
use h264_sps::sps::Sps;
use h264_vectors::SliceContext;
use std::alloc::Global;
use std::mem;

/// The place in which pictures are decoded, one after another.
///
/// The pictures of a sequence have the places from 0 on or from 17 on, by turns, so that a place names the same picture until those of its
/// sequence are released. Where frames are made, each place has one; where the verdict alone is asked for, none has.
#[derive(Drop)]
pub struct Work {
    /// What its pictures are decoded for.
    pub(crate) purpose: Purpose,
    /// The first place of the active sequence: 0 or 17.
    pub(crate) base: usize,
    pub(crate) active: Option<Sequence>,
    /// The frames of the sequence before it, until they are released.
    pub(crate) older: Option<Frames>,

    ghost within: { (base ≤ 17) × (base % 17 ≡ 0) },
    ghost made: { IsFor purpose active older },
}

/// The frames of a sequence, if it has them.
fn frames_of(active: Option<Sequence>) -> Option<Frames>
    ensures { result ≡ option_and_then (λ (s : SequenceModel). frames_in s.canvas) active }
{
    let canvas = active?.canvas?;
    Some(canvas.frames)
}

impl Work {
    ghost use Rattle.std.specs.Prelude.{◌≢◌, ℕ, ◌+◌, ◌-◌, ◌*◌, ◌==◌, ◌<◌, ◌^◌, List, [], length, true, false, None, Some, OnOk, IfOk, IfErr, IsErrOf};
    ghost use Rattle.h264_base.specs.Meets.{Meets, Answers};
    ghost use Rattle.h264_near.specs.Coded.{CodedMacroblock};
    ghost use Rattle.h264_vectors.specs.Agrees.{Usable};
    ghost use Rattle.h264_mbsyntax.specs.Slice.{slice_data};
    ghost use Rattle.h264_picture.specs.Buffer.{buffer_size};
    ghost use Rattle.h264_picture.specs.Levels.{transform_fits};
    ghost use Rattle.h264_picture.specs.Holds.{Serves, HoldsMacroblocks};
    ghost use Rattle.h264_sps.specs.Usable.{is_frame_size};
    ghost use Rattle.h264_picture.specs.Making.{Making, HoldsSamples, IsSliceOf, IsDecodedIn};
    ghost use Rattle.h264_picture.specs.Places.{first_place, is_active_place, places as places_of, lent, IsReleased, HasBegun, HasSize, KeepsOthers};
    ghost use Rattle.h264_picture.specs.Places.{purpose_of, MakesFrames, KeepsFrames, IsFrameOf};

    /// A place for no pictures yet, which will be decoded for this. It has no allocator.
    pub fn new(purpose: Purpose) -> Work
        ensures purpose { purpose_of result ≡ purpose }
        ensures none { (p : ℕ) → lent result p ≡ None }
        ensures released { IsReleased result }
    {
        Work {
            purpose,
            base: 0,
            active: None,
            older: None,
        }
    }

    /// Takes all memory of the pictures of a sequence: contexts, and where frames are made lines and a frame more than its picture buffer holds. The
    /// frames that there were keep their places until they are released; those that were not released before go. Memory: it was refused, and all is
    /// as before.
    pub fn activate(&mut self, alloc: Global, sps: &Sps) -> Result<(), Stop>
        requires { is_frame_size sps.now.frame_size ≡ true }
        ensures serves { OnOk result (Serves sps.now.frame_size.width (sps.now.frame_size.width * sps.now.frame_size.height) self.new) }
        ensures places { OnOk result (places_of self.new ≡ buffer_size sps.now + 1) }
        ensures size { OnOk result (HasSize sps.now.frame_size.width sps.now.frame_size.height self.new) }
        ensures kept { OnOk result (IsReleased self.old → KeepsFrames self.old self.new) }
        ensures older { OnOk result (IsReleased self.old → (p : ℕ) → lent self.old p ≢ None → is_active_place (first_place self.new) p ≡ false) }
        ensures err { IfErr result (λ e. (e ≡ Stop.Memory) × (self.new ≡ self.old)) }
        ensures purpose { purpose_of self.new ≡ purpose_of self.old }
    {
        let Ok(sequence) = Sequence::new(alloc, self.purpose, sps) else {
            return Err(Stop::Memory);
        };
        self.older = frames_of(mem::replace(&mut self.active, Some(sequence)));
        self.base = PLACES - self.base;
        Ok(())
    }

    /// Lets go of the frames of the sequence before the active one.
    pub fn release(&mut self)
        ensures released { IsReleased self.new }
        ensures kept { (p : ℕ) → is_active_place (first_place self.old) p ≡ true → lent self.new p ≡ lent self.old p }
        ensures first { first_place self.new ≡ first_place self.old }
        ensures places { places_of self.new ≡ places_of self.old }
        ensures size { (width height : ℕ) → HasSize width height self.old → HasSize width height self.new }
        ensures begun { (place : ℕ) → HasBegun place self.old → HasBegun place self.new }
        ensures serves { (width size : ℕ) → Serves width size self.old → Serves width size self.new }
        ensures holds { (width size : ℕ) (picture : List CodedMacroblock) → HoldsMacroblocks width size picture self.old →
            HoldsMacroblocks width size picture self.new }
        ensures samples { (width size : ℕ) (making : Making) (picture : List CodedMacroblock) → HoldsSamples width size making picture self.old →
            HoldsSamples width size making picture self.new }
        ensures purpose { purpose_of self.new ≡ purpose_of self.old }
    {
        self.older = None;
    }

    /// What its pictures are decoded for.
    pub fn purpose(&self) -> Purpose
        ensures { result ≡ purpose_of self.now }
    {
        self.purpose
    }

    /// The first place of the active sequence.
    pub fn first_place(&self) -> usize
        ensures value { result ≡ first_place self.now }
        ensures bound { result ≤ 17 }
    {
        self.base
    }

    /// How many places it has; none before the first.
    pub fn places(&self) -> usize
        ensures value { result ≡ places_of self.now }
        ensures bound { result ≤ 17 }
    {
        match &self.active {
            None => 0,
            Some(sequence) => sequence.places,
        }
    }

    /// Begins a picture at this place: holds no macroblock. Its frame, if frames are made, is not lent until the picture's end.
    pub fn begin(&mut self, place: usize)
        requires from { first_place self.old ≤ place }
        requires to { place < first_place self.old + places_of self.old }
        ensures holds { (width size : ℕ) → Serves width size self.old → HoldsMacroblocks width size [] self.new }
        ensures samples { MakesFrames self.old → (width size : ℕ) (making : Making) → Serves width size self.old →
            HoldsSamples width size making [] self.new }
        ensures begun { HasBegun place self.new }
        ensures none { lent self.new place ≡ None }
        ensures kept { KeepsOthers place self.old self.new }
        ensures first { first_place self.new ≡ first_place self.old }
        ensures places { places_of self.new ≡ places_of self.old }
        ensures size { (width height : ℕ) → HasSize width height self.old → HasSize width height self.new }
        ensures released { IsReleased self.old → IsReleased self.new }
        ensures purpose { purpose_of self.new ≡ purpose_of self.old }
    {
        let k = place - self.base;
        match &mut self.active {
            None => {}
            Some(sequence) => sequence.begin(k),
        }
    }

    /// Ends the picture: its frame, if frames are made, is lent again. That of a whole picture is the decoded picture (8).
    pub fn end(&mut self)
        ensures kept { KeepsFrames self.old self.new }
        ensures ended { MakesFrames self.old → (width height place : ℕ) → HasSize width height self.old → HasBegun place self.old →
            IsFrameOf width height (lent self.new place) }
        ensures decoded { (width size place : ℕ) (making : Making) (picture : List CodedMacroblock) → HoldsSamples width size making picture self.old →
            length picture ≡ size → HasBegun place self.old → IsDecodedIn self.old making picture (lent self.new place) }
        ensures holds { (width size : ℕ) (picture : List CodedMacroblock) → HoldsMacroblocks width size picture self.old → Serves width size self.new }
        ensures serves { (width size : ℕ) → Serves width size self.old → Serves width size self.new }
        ensures first { first_place self.new ≡ first_place self.old }
        ensures places { places_of self.new ≡ places_of self.old }
        ensures size { (width height : ℕ) → HasSize width height self.old → HasSize width height self.new }
        ensures released { IsReleased self.old → IsReleased self.new }
        ensures purpose { purpose_of self.new ≡ purpose_of self.old }
    {
        match &mut self.active {
            None => {}
            Some(sequence) => sequence.end(),
        }
    }

    /// The address of the next macroblock of the picture, which is how many it holds.
    pub fn next_mb(&self) -> u32
        ensures { (width size : ℕ) (picture : List CodedMacroblock) → HoldsMacroblocks width size picture self.now → result ≡ length picture }
    {
        match &self.active {
            None => 0,
            Some(sequence) => sequence.picture.next,
        }
    }

    /// Whether it holds all macroblocks of the picture.
    pub fn is_whole(&self) -> bool
        ensures { (width size : ℕ) (picture : List CodedMacroblock) → HoldsMacroblocks width size picture self.now → result ≡ (length picture == size) }
    {
        match &self.active {
            None => false,
            Some(sequence) => sequence.picture.next == sequence.size,
        }
    }

    /// Reads the slice data of a slice from this bit on, after the macroblocks that it holds (7.3.4). A slice of another number is read as if it
    /// began with the next macroblock.
    ///
    /// Ok: the elements that the sink was told are the one derivation of the slice data, with every rule met, and the work holds
    /// the picture with the slice's macroblocks, and with their samples where it held those of the macroblocks before. No: the first rule
    /// that they break, at its stream bit. Write: the sink failed. After an Err the reader may have moved, and nothing is said of what the
    /// work holds; but no frame changes other than that of the picture that is begun. Allocates nothing.
    pub fn slice<S: Elements>(
        &mut self,
        bits: &mut Bits,
        slice: &SliceContext,
        samples: &SliceSamples,
        sink: &mut S,
    ) -> Result<(), Stop>
        requires active { 0 < places_of self.old }
        requires usable { Usable slice.now }
        requires qp { slice.now.qp ≤ 51 }
        requires room { HasRoom S.failures sink.old }
        ensures answers { (width size : ℕ) (picture : List CodedMacroblock) → HoldsMacroblocks width size picture self.old → slice.now.number ≡ length picture →
            Answers (span S.took S.failures sink.old sink.new) (λ _ after. HoldsMacroblocks width size after self.new)
            (slice_data (transform_fits slice.now) width size slice.now picture) bits.old bits.new result }
        ensures meets { (width size : ℕ) (picture : List CodedMacroblock) → HoldsMacroblocks width size picture self.old → slice.now.number ≡ length picture →
            Meets (span S.took S.failures sink.old sink.new) (λ _ after. HoldsMacroblocks width size after self.new)
            (slice_data (transform_fits slice.now) width size slice.now picture) bits.old bits.new result }
        ensures samples { (width size : ℕ) (making : Making) (picture : List CodedMacroblock) → HoldsSamples width size making picture self.old →
            slice.now.number ≡ length picture → IsSliceOf making slice.now samples.now self.old →
            Meets (span S.took S.failures sink.old sink.new) (λ _ after. HoldsSamples width size making after self.new)
            (slice_data (transform_fits slice.now) width size slice.now picture) bits.old bits.new result }
        ensures no_memory { (width size : ℕ) (picture : List CodedMacroblock) → HoldsMacroblocks width size picture self.old →
            IsErrOf result Stop.Memory → ⊥ }
        ensures quiet { OnOk result (IsQuiet S.failures sink.old sink.new) }
        ensures kept { (place : ℕ) → HasBegun place self.old → KeepsFrames self.old self.new }
        ensures begun { (place : ℕ) → HasBegun place self.old → HasBegun place self.new }
        ensures first { first_place self.new ≡ first_place self.old }
        ensures places { places_of self.new ≡ places_of self.old }
        ensures size { (width height : ℕ) → HasSize width height self.old → HasSize width height self.new }
        ensures released { IsReleased self.old → IsReleased self.new }
        ensures purpose { purpose_of self.new ≡ purpose_of self.old }
    {
        let base = self.base;
        match &mut self.active {
            None => unreachable!(),
            Some(sequence) => sequence.slice(bits, slice, samples, base, sink),
        }
    }
}

impl FrameStore for Work {
    ghost use Rattle.h264_picture.specs.Places.{lent as lent_by_work};

    ghost lent = { lent_by_work };

    fn frame(&self, place: usize) -> Option<&Frame> {
        if self.base <= place && place - self.base < PLACES {
            let canvas = self.active.as_ref()?.canvas.as_ref()?;
            return canvas.frames.frame(place - self.base);
        }
        self.older.as_ref()?.frame(place - (PLACES - self.base))
    }
}
