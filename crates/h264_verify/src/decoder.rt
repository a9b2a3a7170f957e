//! The frames of a stream's pictures: where they are decoded, and when they are written.
#![tactic(auto)]

ghost use Rattle.std.specs.Prelude.{◌≡◌};
ghost use Rattle.h264_verify.specs.Telling.{Family, IsFamilyFor};
ghost use Rattle.h264_base.specs.Call.{HasRoom, IsQuiet, span};
ghost use Rattle.h264_verify.specs.Memory.{format_of};

use h264_base::{Elements, Stop};
use h264_bits::Bits;
use h264_dpb::{Ended, FrameSink, Output};
use h264_header::Header;
use h264_marking::Held;
use h264_picture::{PLACES, Purpose, Work, buffer_size, slice_samples};
use h264_pps::Pps;
use h264_sps::sps::{FrameSize, Sps};
use h264_vectors::SliceContext;
use std::alloc::Global;

/// What the frames of a sequence have in common.
#[derive(Clone, Copy, PartialEq)]
pub struct Format {
    /// Their size.
    pub size: FrameSize,
    /// How many of them the picture buffer holds: 1 to 16.
    pub frames: usize,
}

/// The place in which the pictures of a stream are decoded, and the buffer in which their frames wait.
#[derive(Drop)]
pub struct Decoder {
    /// The macroblocks of the newest picture, and the frames.
    pub work: Work,
    /// The frames that wait, and the order in which they are written.
    pub output: Output,
    /// What the work has room for.
    pub format: Option<Format>,
    /// Where the newest picture is decoded.
    pub place: usize,
}

/// The format of a sequence's frames.
fn format_of(sps: &Sps) -> Format
    ensures { result ≡ format_of sps.now }
{
    Format {
        size: sps.frame_size,
        frames: buffer_size(sps),
    }
}

impl Decoder {
    ghost use Rattle.std.specs.Prelude.{◌≡◌, ℕ, ◌+◌, ◌-◌, ◌<◌, ◌≤◌, ◌^◌, ◌⊎◌, true, false, [], ◌∷◌, List, Some, None, length, get_or, Ok, OnOk, IfErr, IsErrOf};
    ghost use Rattle.h264_verify.specs.declared.state.Depth.TheVariants as depths;
    ghost use Rattle.h264_plane.specs.declared.frame.Frame.{Frame};
    ghost use Rattle.h264_sps.specs.Usable.{is_usable};
    ghost use Rattle.h264_near.specs.Coded.{CodedMacroblock};
    ghost use Rattle.h264_vectors.specs.Agrees.{Usable};
    ghost use Rattle.h264_mbsyntax.specs.Slice.{slice_data};
    ghost use Rattle.h264_picture.specs.Levels.{transform_fits};
    ghost use Rattle.h264_picture.specs.Filter.{slice_filter};
    ghost use Rattle.h264_picture.specs.Weights.{slice_weights};
    ghost use Rattle.h264_picture.specs.Places.{lent, first_place, places as places_of, purpose_of, MakesFrames, is_active_place, IsReleased};
    ghost use Rattle.h264_picture.specs.Places.{KeepsFrames as KeepsLent};
    ghost use Rattle.h264_verify.specs.declared.decoder.Format.{Format as FormatView};
    ghost use Rattle.h264_dpb.specs.Bumping.{missing_in};
    ghost use Rattle.h264_dpb.specs.Turns.{Turn, turn_then, names, empties, missing_turn, last_turn, stays};
    ghost use Rattle.h264_dpb.specs.Kept.{KeepsBuffer, size_of, is_occupied};
    ghost use Rattle.h264_verify.specs.Telling.{with_frames, frame_span};
    ghost use Rattle.h264_verify.specs.Outcome.{Plays};
    ghost use Rattle.h264_verify.specs.Pictures.{CodedSlice, CodedPicture, held_after, last_slice, picture_size};
    ghost use Rattle.h264_verify.specs.Lists.{context_in};
    ghost use Rattle.h264_verify.specs.Decoding.{number_of};
    ghost use Rattle.h264_verify.specs.Buffering.{ended_picture, told_frames, end_frames};
    ghost use Rattle.h264_verify.specs.Keeping.{HasFormat, IsSized, AreOlder, EntersSome, IsRoomFor, KeepsOutput, FillsFrames};
    ghost use Rattle.h264_verify.specs.Memory.{format_of};
    ghost use Rattle.h264_verify.specs.Keeping.{KeepsFrames, FillsSome, KeepsSomeEnd, EntersFrames, BegunFrames, HoldsBegun, IsNear};
    ghost use Rattle.h264_verify.specs.Keeping.{HasPlace, HasFreePlace, SlicesSome};
    ghost use Rattle.h264_verify.specs.CourseOutcome.{outcome_of, structure_from};
    ghost use Rattle.h264_verify.specs.Framing.{EndsFrames, ReadsSlice, closing};

    /// Before the first picture, of pictures that are decoded for this. It takes no memory.
    pub fn new(purpose: Purpose) -> Decoder
        ensures { (frames : Family) → IsFamilyFor purpose frames → KeepsFrames frames false false [] result }
    {
        Decoder {
            work: Work::new(purpose),
            output: Output::new(),
            format: None,
            place: 0,
        }
    }

    /// Room for the pictures of a sequence; another format comes with an IDR picture alone, and takes memory. Memory: it was refused.
    #[tactic(auto, using(crate::proofs::samples::ReadsData::usable_size))]
    fn activate(&mut self, alloc: Global, sps: &Sps) -> Result<(), Stop>
        requires { is_usable sps.now ≡ true }
        ensures room { HasFormat self.old.format self.old.work → OnOk result (IsRoomFor (format_of sps.now) self.new.work) }
        ensures format { OnOk result (self.new.format ≡ Some (format_of sps.now)) }
        ensures kept { IsReleased self.old.work → OnOk result (KeepsLent self.old.work self.new.work) }
        ensures others { self.old.format ≡ Some (format_of sps.now) → OnOk result (self.new ≡ self.old) }
        ensures stands { self.old.format ≡ Some (format_of sps.now) → result ≡ Ok tt }
        ensures output { self.new.output ≡ self.old.output }
        ensures sized { IsReleased self.old.work → IsSized self.old.format self.old.output →
            OnOk result (IsSized self.new.format self.new.output ⊎ AreOlder self.old.work self.new.work) }
        ensures err { IfErr result (λ e. e ≡ Stop.Memory) }
        ensures purpose { purpose_of self.new.work ≡ purpose_of self.old.work }
    {
        let format = format_of(sps);
        if self.format == Some(format) {
            return Ok(());
        }
        self.work.activate(alloc, sps)?;
        self.format = Some(format);
        Ok(())
    }

    /// Begins a picture at a place where no frame of the buffer stands (C.4.4), with the places of its sequence where it is the first of one.
    ///
    /// Err: Memory alone, where a growth was refused; never where the format stands.
    pub fn begin(&mut self, alloc: Global, sps: &Sps) -> Result<(), Stop>
        requires usable { is_usable sps.now ≡ true }
        requires kept { EntersSome self.old }
        ensures begins { (frames : Family) (slice : CodedSlice) (pictures : List CodedPicture) → slice.sps ≡ sps.now →
            EntersFrames frames slice pictures self.old → OnOk result (BegunFrames frames slice pictures self.new) }
        ensures stands { self.old.format ≡ Some (format_of sps.now) → result ≡ Ok tt }
        ensures err { IfErr result (λ e. e ≡ Stop.Memory) }
    {
        self.activate(alloc, sps)?;
        let place = self.free_place();
        self.work.begin(place);
        self.place = place;
        Ok(())
    }

    /// A place of the sequence at which no frame of the buffer stands; where no frames are made, the first one.
    fn free_place(&self) -> usize
        requires some { 0 < places_of self.now.work }
        requires room { MakesFrames self.now.work → HasFreePlace self.now }
        ensures from { first_place self.now.work ≤ result }
        ensures to { result < first_place self.now.work + places_of self.now.work }
        ensures near { result < first_place self.now.work + 17 }
        ensures free { MakesFrames self.now.work → is_occupied result self.now.output ≡ false }
    {
        let first = self.work.first_place();
        match self.work.purpose() {
            Purpose::Verdict => first,
            Purpose::Frames => {
                let Some(place) = self.output.free_place(first, self.work.places()) else {
                    unreachable!()
                };
                place
            }
        }
    }

    /// The place of a reference picture: one of the sequence's.
    fn place_of(&self, picture: u64) -> u8
        requires { HasPlace self.now picture }
        ensures { IsNear self.now picture result }
    {
        let first = self.work.first_place();
        let Some(place) = self.output.place_of(picture) else {
            unreachable!()
        };
        prove!(place < first + PLACES);
        place as u8
    }

    /// The places of reference pictures by refIdxL0; 0 where there is none.
    fn frame_places(&self, references: &[Option<u64>; 16]) -> [u8; 16]
        requires { (k n : ℕ) → k < 16 → get_or references.now k None ≡ Some n → HasPlace self.now n }
        ensures { (k n : ℕ) → k < 16 → get_or references.now k None ≡ Some n → IsNear self.now n (get_or result k 0) }
    {
        let mut places = [0u8; 16];
        for k in 0..16 {
            if let Some(picture) = references[k] {
                places[k] = self.place_of(picture);
            }
        }
        places
    }

    /// These places, where frames are made.
    fn places(&self, references: &[Option<u64>; 16]) -> [u8; 16]
        requires { MakesFrames self.now.work → (k n : ℕ) → k < 16 → get_or references.now k None ≡ Some n → HasPlace self.now n }
        ensures { MakesFrames self.now.work → (k n : ℕ) → k < 16 → get_or references.now k None ≡ Some n → IsNear self.now n (get_or result k 0) }
    {
        match self.work.purpose() {
            Purpose::Verdict => [0; 16],
            Purpose::Frames => self.frame_places(references),
        }
    }

    /// Reads the slice data of a slice of the picture that was begun, whose reference pictures have places (7.3.4, 8.3 to 8.7). Takes no memory.
    ///
    /// Err: the first rule of slice data that is not met, at its element's bit, or Write where the sink failed.
    pub fn slice<S: Elements>(
        &mut self,
        bits: &mut Bits,
        slice: &SliceContext,
        pps: &Pps,
        header: &Header,
        sink: &mut S,
    ) -> Result<(), Stop>
        requires usable { Usable slice.now }
        requires qp { slice.now.qp ≤ 51 }
        requires room { HasRoom S.failures sink.old }
        requires kept { SlicesSome slice.now.number slice.now.references self.old }
        ensures reads { (frames : Family) (p : CodedPicture) (ps : List CodedPicture) (slices : List CodedSlice) (s : CodedSlice)
            (macroblocks : List CodedMacroblock) (t : Turn) → slice.now ≡ context_in (p ∷ ps) s →
            slice_filter pps.now header.now ≡ slice_filter s.pps s.header → slice_weights header.now ≡ slice_weights s.header →
            number_of s ≡ length macroblocks → s.pps ≡ p.first.pps → KeepsOutput frames t (length ps) self.old →
            HoldsBegun frames p ps slices macroblocks self.old →
            ReadsSlice (frame_span S.took S.failures frames sink.old sink.new)
            (structure_from (slice_data (transform_fits slice.now) p.first.sps.frame_size.width (picture_size p.first.sps) slice.now macroblocks)
            bits.old.body bits.old.at)
            (λ ms. HoldsBegun frames p ps (s ∷ slices) ms self.new × KeepsOutput frames t (length ps) self.new) result }
        ensures no_memory { IsErrOf result Stop.Memory → ⊥ }
        ensures kept { OnOk result (IsQuiet S.failures sink.old sink.new) }
    {
        let places = self.places(&slice.references);
        self.work
            .slice(bits, slice, &slice_samples(pps, header, places), sink)
    }

    /// Lets go of the frames of the sequence before, after a picture that emptied the buffer.
    fn settle(&mut self, picture: &Ended)
        ensures released { empties picture.now ≡ true → IsReleased self.new.work }
        ensures stays { empties picture.now ≡ false → self.new ≡ self.old }
        ensures kept { (p : ℕ) → is_active_place (first_place self.old.work) p ≡ true → lent self.new.work p ≡ lent self.old.work p }
        ensures room { (f : FormatView) → IsRoomFor f self.old.work → IsRoomFor f self.new.work }
        ensures others { self.new ≡ record self.old { work = self.new.work } }
        ensures purpose { purpose_of self.new.work ≡ purpose_of self.old.work }
    {
        if picture.idr || picture.resets {
            self.work.release();
        }
    }

    /// The end of the picture that was begun, once it is marked and these frames are held: it is decoded, frames make way for it, and it takes its
    /// place in the picture buffer (C.4.4, C.4.5.1 to C.4.5.3).
    ///
    /// Err: Write alone, where the sink failed.
    pub fn end<S: FrameSink>(
        &mut self,
        picture: &Ended,
        held: &Held,
        sink: &mut S,
    ) -> Result<(), Stop>
        requires room { HasRoom S.failures sink.old }
        requires few { picture.now.picture < 2 ^ 62 }
        requires kept { KeepsSomeEnd picture.now held.now self.old }
        ensures ends { (frames : Family) (p : CodedPicture) (ps : List CodedPicture) → picture.now ≡ ended_picture p ps →
            held.now ≡ held_after (p ∷ ps) → length (last_slice p).macroblocks ≡ picture_size p.first.sps →
            KeepsFrames frames true false (p ∷ ps) self.old →
            EndsFrames depths.Full (frame_span S.took S.failures frames sink.old sink.new) (closing true true (p ∷ ps))
            (outcome_of (end_frames depths.Full (p ∷ ps))) (Some self.new) result }
        ensures format { self.new.format ≡ self.old.format }
        ensures kept { OnOk result (IsQuiet S.failures sink.old sink.new) }
        ensures no_memory { IfErr result (λ e. e ≡ Stop.Write) }
    {
        self.work.end();
        self.output.make_way(picture, &self.work, sink)?;
        self.settle(picture);
        self.output
            .store(picture, self.place, held, &self.work, sink)
    }

    /// The frame of a missing frame_num, where these frames are held with it. Write: the sink failed.
    pub(crate) fn miss<S: FrameSink>(&mut self, held: &Held, sink: &mut S) -> Result<(), Stop>
        requires room { HasRoom S.failures sink.old }
        requires missing { 0 < missing_in (names held.now) }
        requires few { length held.now.frames ≤ size_of self.old.output }
        requires kept { FillsSome self.old }
        ensures plays { (frames : Family) (t : Turn) (next : ℕ) → FillsFrames frames t next self.old →
            Plays (with_frames frames (span S.took S.failures sink.old sink.new)) (λ x. x)
            (outcome_of (told_frames depths.Full (missing_turn held.now t.buffer).written)) result }
        ensures keeps { (frames : Family) (t : Turn) (next : ℕ) → FillsFrames frames t next self.old →
            OnOk result (FillsFrames frames (turn_then t (missing_turn held.now)) next self.new) }
        ensures sized { size_of self.new.output ≡ size_of self.old.output }
        ensures format { self.new.format ≡ self.old.format }
        ensures kept { OnOk result (IsQuiet S.failures sink.old sink.new) }
        ensures no_memory { IfErr result (λ e. e ≡ Stop.Write) }
    {
        self.output.miss(held, &self.work, sink)
    }

    /// Whether the frame of one more missing frame_num, where these frames are held with it, writes nothing and leaves the buffer as it is.
    pub(crate) fn buffer_stays(&self, held: &Held) -> bool
        ensures { result ≡ true → (frames : Family) (t : Turn) (next : ℕ) → FillsFrames frames t next self.now →
            missing_turn held.now t.buffer ≡ stays t.buffer }
    {
        self.output.is_steady(held)
    }

    /// The end of the input: all frames that wait are written (C.4.5.3). Write: the sink failed.
    pub fn finish<S: FrameSink>(&mut self, sink: &mut S) -> Result<(), Stop>
        requires room { HasRoom S.failures sink.old }
        requires kept { FillsSome self.old }
        ensures plays { (frames : Family) (t : Turn) (next : ℕ) → FillsFrames frames t next self.old →
            Plays (with_frames frames (span S.took S.failures sink.old sink.new)) (λ x. x)
            (outcome_of (told_frames depths.Full (last_turn t.buffer).written)) result }
        ensures written { (frames : Family) (t : Turn) (next : ℕ) → FillsFrames frames t next self.old →
            OnOk result (KeepsBuffer (last_turn t.buffer).buffer (length t.written + length (last_turn t.buffer).written) self.new.output) }
        ensures others { self.new ≡ record self.old { output = self.new.output } }
        ensures no_memory { IfErr result (λ e. e ≡ Stop.Write) }
    {
        self.output.finish(&self.work, sink)
    }
}
