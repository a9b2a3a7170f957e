//! The buffer of a stream.
#![tactic(auto)]

ghost use Rattle.std.specs.Prelude.{◌≡◌, ◌≤◌, ℕ, map, length};
ghost use Rattle.h264_base.specs.Call.{HasRoom, span};
ghost use Rattle.std.specs.List.{count_by};
ghost use Rattle.h264_dpb.specs.Turns.{empties};
ghost use Rattle.h264_dpb.specs.declared.entry.Kind.TheVariants as kinds;
ghost use Rattle.h264_dpb.specs.Kept.{waiting_in, kind_of, placed_at};

use crate::ended::Ended;
use crate::format::whole;
use crate::places::place_at;
use crate::{Buffer, Entry, FrameOut, Kind, Picture, Placed};
use arrayvec::ArrayVec;
use h264_base::Stop;
use h264_marking::{Held, ReferenceFrame};
use h264_plane::FrameStore;

/// The decoded picture buffer of a stream.
#[derive(Drop)]
pub struct Output {
    buffer: Buffer,
    /// How many frames were written.
    frames: u64,
}

/// How many frames wait for output.
fn waiting(entries: &[Entry<Placed>]) -> u64
    ensures { result ≡ waiting_in entries.now }
{
    entries.iter().filter(|entry| entry.waiting).count() as u64
}

/// The numbers of the pictures that are held, and none for each frame that does not exist.
fn names(frames: &[ReferenceFrame]) -> ArrayVec<Option<u64>, 16>
    requires { length frames.now ≤ 16 }
    ensures { result.items ≡ map (λ f. f.picture) frames.now }
{
    let mut names = ArrayVec::new();
    for frame in frames {
        names.push(frame.picture);
    }
    names
}

/// What is stored of a picture.
fn kind_of(reference: bool) -> Kind
    ensures { result ≡ kind_of reference }
{
    if reference {
        Kind::Reference
    } else {
        Kind::Other
    }
}

/// Whether the buffer is emptied before a picture is stored.
fn empties(picture: &Ended) -> bool
    ensures { result ≡ empties picture.now }
{
    picture.idr || picture.resets
}

/// What is stored of a picture whose frame is at this place.
fn stored_at<'a>(picture: &Ended, place: usize, held: &'a [Option<u64>]) -> Picture<'a>
    ensures kind { result.kind ≡ kind_of picture.now.reference }
    ensures of { result.of ≡ placed_at picture.now place }
    ensures count { result.count ≡ picture.now.count }
    ensures held { result.held.now ≡ held.now }
{
    Picture {
        kind: kind_of(picture.reference),
        of: Placed {
            picture: picture.picture,
            place,
            rectangle: picture.rectangle,
        },
        count: picture.count,
        held,
    }
}

/// What is stored of the frame of a missing number.
fn missing(held: &[Option<u64>]) -> Picture<'_>
    ensures kind { result.kind ≡ kinds.Missing }
    ensures held { result.held.now ≡ held.now }
{
    Picture {
        kind: Kind::Missing,
        of: Placed {
            picture: 0,
            place: 0,
            rectangle: whole(),
        },
        count: 0,
        held,
    }
}

impl Output {
    ghost use Rattle.std.specs.Prelude.{◌≡◌, ℕ, ◌+◌, ◌-◌, ◌*◌, ◌<◌, ◌≤◌, ◌^◌, Bool, true, false, IsTrue, not, is_some, length, [], Some, OnOk, IfOk};
    ghost use Rattle.std.specs.Prelude.{IfSome, if◌then◌else◌};
    ghost use Rattle.h264_plane.specs.declared.frame.Frame.{Frame};
    ghost use Rattle.h264_dpb.specs.Bumping.{flushed, is_held, missing_in};
    ghost use Rattle.h264_dpb.specs.Buffered.{Buffered, AreReady, Steps, HasRoomBy, IsShownBy, StaysWithin, places_taken, stored_by, missing_by};
    ghost use Rattle.h264_dpb.specs.Shown.{is_shown};
    ghost use Rattle.h264_dpb.specs.Writing.{Writes, LendsNone};
    ghost use Rattle.h264_dpb.specs.Turns.{Shown, no_buffer, names, empties, flush_turn, way_turn, store_turn, missing_turn, last_turn, stays};
    ghost use Rattle.h264_dpb.specs.Kept.{KeepsBuffer, HasFrames, IsOrdered, IsReady, IsEmpty, IsAtPlace, is_occupied, place_of, size_of, placed_at};
    ghost use Rattle.h264_dpb.specs.Kept.{shown_calls, waiting_in};

    /// Before the first picture.
    pub fn new() -> Output
        ensures keeps { KeepsBuffer no_buffer 0 result }
        ensures ordered { (next : ℕ) → IsOrdered next result }
        ensures frames { (frames : ℕ → Frame) (lent : _) → HasFrames frames lent result }
        ensures ready { (lent : _) → IsReady lent result }
    {
        Output {
            buffer: Buffer::new(),
            frames: 0,
        }
    }

    /// How many frames were written.
    pub fn frames(&self) -> u64
        ensures { (b : Buffered Shown) (written : ℕ) → KeepsBuffer b written self.now → result ≡ written }
    {
        self.frames
    }

    /// How many of the buffer's places are taken: by frames that wait for output or are used for reference, and by those of missing numbers (C.4.2).
    pub fn places_taken(&self) -> usize
        ensures { (b : Buffered Shown) (written next : ℕ) → KeepsBuffer b written self.now → IsOrdered next self.now → result ≡ places_taken b }
    {
        self.buffer.places_taken()
    }

    /// The place of the picture with this number, if its frame is in the buffer.
    pub fn place_of(&self, picture: u64) -> Option<usize>
        ensures value { result ≡ place_of self.now picture }
        ensures frames { (frames : ℕ → Frame) (lent : _) → HasFrames frames lent self.now → IfSome result (λ place. lent place ≡ Some (frames picture)) }
        ensures early { (next : ℕ) → IsOrdered next self.now → IfSome result (λ place. picture < next) }
        ensures taken { IfSome result (λ place. is_occupied place self.now ≡ true) }
    {
        place_at(self.buffer.entries(), picture)
    }

    /// The first of `count` places from `first` on at which no frame stands, if there is one.
    pub fn free_place(&self, first: usize, count: usize) -> Option<usize>
        requires small { first + count < 2 ^ 32 }
        ensures free { IfSome result (λ place. (first ≤ place) × (place < first + count) × (is_occupied place self.now ≡ false)) }
        ensures lowest { IfSome result (λ place. (lower : ℕ) → first ≤ lower → lower < place → is_occupied lower self.now ≡ true) }
        ensures some { (next : ℕ) → IsOrdered next self.now → size_of self.now < count → IsTrue (is_some result) }
        ensures first { is_occupied first self.now ≡ false → 0 < count → IsTrue (is_some result) }
    {
        self.buffer.free_place(first, count)
    }

    /// Empties the buffer, which has this size then.
    fn flush<F: FrameStore, S: FrameOut>(
        &mut self,
        write: bool,
        size: usize,
        store: &F,
        sink: &mut S,
    ) -> Result<(), Stop>
        requires room { HasRoom S.failures sink.old }
        requires ready { AreReady (F.lent store.now) self.old.buffer.entries }
        requires some { 0 < size }
        requires few { size ≤ 16 }
        requires counted { self.old.frames + waiting_in self.old.buffer.entries < 2 ^ 63 }
        ensures writes { (frames : ℕ → Frame) (b : Buffered Shown) (written : ℕ) → KeepsBuffer b written self.old →
            HasFrames frames (F.lent store.now) self.old → Writes S.took S.failures
            (shown_calls frames (flush_turn write size b).written) sink.old sink.new result }
        ensures passes { LendsNone (F.lent store.now) → Writes S.took S.failures [] sink.old sink.new result }
        ensures keeps { (b : Buffered Shown) (written : ℕ) → KeepsBuffer b written self.old →
            OnOk result (KeepsBuffer (flush_turn write size b).buffer (written + length (flush_turn write size b).written) self.new) }
        ensures emptied { OnOk result (self.new.buffer ≡ record { entries = []; missing = 0; size = size }) }
        ensures frames { OnOk result (self.new.frames ≤ self.old.frames + waiting_in self.old.buffer.entries) }
    {
        let before = waiting(self.buffer.entries());
        self.buffer.flush(store, write, size, sink)?;
        if write {
            self.frames += before;
        }
        Ok(())
    }

    /// Stores a picture that may wait, or the frame of a missing number, which does not.
    fn put<F: FrameStore, S: FrameOut>(
        &mut self,
        picture: &Picture,
        joins: u64,
        store: &F,
        sink: &mut S,
    ) -> Result<(), Stop>
        requires room { HasRoom S.failures sink.old }
        requires ready { AreReady (F.lent store.now) self.old.buffer.entries }
        requires own { IsShownBy picture.now.kind (F.lent store.now) picture.now }
        requires few { HasRoomBy picture.now.kind picture.now self.old.buffer }
        requires joins { joins ≤ 1 }
        requires counted { self.old.frames + waiting_in self.old.buffer.entries < 2 ^ 63 }
        ensures steps { Steps (span S.took S.failures sink.old sink.new) (F.lent store.now)
            (stored_by picture.now.kind picture.now self.old.buffer) self.new.buffer.entries result }
        ensures missing { OnOk result (self.new.buffer.missing ≡ missing_by picture.now.kind picture.now self.old.buffer) }
        ensures size { self.new.buffer.size ≡ self.old.buffer.size }
        ensures within { StaysWithin self.old.buffer → OnOk result (StaysWithin self.new.buffer) }
        ensures ready { OnOk result (AreReady (F.lent store.now) self.new.buffer.entries) }
        ensures frames { OnOk result (self.new.frames ≡ self.old.frames +
            (waiting_in self.old.buffer.entries + joins - waiting_in self.new.buffer.entries)) }
    {
        let before = waiting(self.buffer.entries());
        self.buffer.store(store, picture, sink)?;
        let after = waiting(self.buffer.entries());
        self.frames += (before + joins).saturating_sub(after);
        Ok(())
    }

    /// An IDR picture and operation 5 empty the buffer, before they are stored (C.4.4, C.4.5.3).
    ///
    /// Write: the sink failed, and nothing is said of the places.
    pub fn make_way<F: FrameStore, S: FrameOut>(
        &mut self,
        picture: &Ended,
        store: &F,
        sink: &mut S,
    ) -> Result<(), Stop>
        requires room { HasRoom S.failures sink.old }
        requires ordered { IsOrdered picture.now.picture self.old }
        requires early { picture.now.picture < 2 ^ 62 }
        requires size { (0 < picture.now.size) × (picture.now.size ≤ 16) }
        requires ready { IsReady (F.lent store.now) self.old }
        ensures writes { (frames : ℕ → Frame) (b : Buffered Shown) (written : ℕ) → KeepsBuffer b written self.old →
            HasFrames frames (F.lent store.now) self.old → Writes S.took S.failures
            (shown_calls frames (way_turn picture.now b).written) sink.old sink.new result }
        ensures passes { LendsNone (F.lent store.now) → Writes S.took S.failures [] sink.old sink.new result }
        ensures keeps { (b : Buffered Shown) (written : ℕ) → KeepsBuffer b written self.old →
            OnOk result (KeepsBuffer (way_turn picture.now b).buffer (written + length (way_turn picture.now b).written) self.new) }
        ensures ordered { OnOk result (IsOrdered picture.now.picture self.new) }
        ensures others { empties picture.now ≡ false → OnOk result (self.new ≡ self.old) }
        ensures emptied { empties picture.now ≡ true → OnOk result (IsEmpty self.new) }
        ensures ready { OnOk result (IsReady (F.lent store.now) self.new) }
        ensures frames { (frames : ℕ → Frame) → HasFrames frames (F.lent store.now) self.old → OnOk result (HasFrames frames (F.lent store.now) self.new) }
    {
        if empties(picture) {
            return self.flush(!picture.drops, picture.size, store, sink);
        }
        Ok(())
    }

    /// Takes a picture whose frame is at this place, once it is marked and these frames are held.
    ///
    /// Write: the sink failed, and nothing is said of the places.
    pub fn store<F: FrameStore, S: FrameOut>(
        &mut self,
        picture: &Ended,
        place: usize,
        held: &Held,
        store: &F,
        sink: &mut S,
    ) -> Result<(), Stop>
        requires room { HasRoom S.failures sink.old }
        requires ordered { IsOrdered picture.now.picture self.old }
        requires early { picture.now.picture < 2 ^ 62 }
        requires ready { IsReady (F.lent store.now) self.old }
        requires own { IsTrue (is_shown (F.lent store.now) (placed_at picture.now place)) }
        requires marked { picture.now.reference ≡ true → is_held (names held.now) picture.now.picture ≡ true }
        requires few { length held.now.frames ≤ size_of self.old }
        ensures writes { (frames : ℕ → Frame) (b : Buffered Shown) (written : ℕ) → KeepsBuffer b written self.old →
            HasFrames frames (F.lent store.now) self.old → IsAtPlace frames (F.lent store.now) (placed_at picture.now place) →
            Writes S.took S.failures (shown_calls frames (store_turn picture.now held.now b).written) sink.old sink.new result }
        ensures passes { LendsNone (F.lent store.now) → Writes S.took S.failures [] sink.old sink.new result }
        ensures keeps { (b : Buffered Shown) (written : ℕ) → KeepsBuffer b written self.old →
            OnOk result (KeepsBuffer (store_turn picture.now held.now b).buffer (written + length (store_turn picture.now held.now b).written) self.new) }
        ensures frames { (frames : ℕ → Frame) → HasFrames frames (F.lent store.now) self.old →
            IsAtPlace frames (F.lent store.now) (placed_at picture.now place) → OnOk result (HasFrames frames (F.lent store.now) self.new) }
        ensures ordered { OnOk result (IsOrdered (picture.now.picture + 1) self.new) }
        ensures ready { OnOk result (IsReady (F.lent store.now) self.new) }
    {
        let names = names(held.frames());
        let stored = stored_at(picture, place, names.as_slice());
        self.put(&stored, 1, store, sink)
    }

    /// The frame of a missing frame_num takes a place, where these frames are held with it.
    ///
    /// Write: the sink failed, and nothing is said of the places.
    pub fn miss<F: FrameStore, S: FrameOut>(
        &mut self,
        held: &Held,
        store: &F,
        sink: &mut S,
    ) -> Result<(), Stop>
        requires room { HasRoom S.failures sink.old }
        requires ordered { (next : ℕ) × (next < 2 ^ 62) × IsOrdered next self.old }
        requires ready { IsReady (F.lent store.now) self.old }
        requires missing { 0 < missing_in (names held.now) }
        requires few { length held.now.frames ≤ size_of self.old }
        ensures size { size_of self.new ≡ size_of self.old }
        ensures writes { (frames : ℕ → Frame) (b : Buffered Shown) (written : ℕ) → KeepsBuffer b written self.old →
            HasFrames frames (F.lent store.now) self.old → Writes S.took S.failures
            (shown_calls frames (missing_turn held.now b).written) sink.old sink.new result }
        ensures passes { LendsNone (F.lent store.now) → Writes S.took S.failures [] sink.old sink.new result }
        ensures keeps { (b : Buffered Shown) (written : ℕ) → KeepsBuffer b written self.old →
            OnOk result (KeepsBuffer (missing_turn held.now b).buffer (written + length (missing_turn held.now b).written) self.new) }
        ensures frames { (frames : ℕ → Frame) → HasFrames frames (F.lent store.now) self.old → OnOk result (HasFrames frames (F.lent store.now) self.new) }
        ensures ordered { (next : ℕ) → IsOrdered next self.old → OnOk result (IsOrdered next self.new) }
        ensures ready { OnOk result (IsReady (F.lent store.now) self.new) }
    {
        let names = names(held.frames());
        let stored = missing(names.as_slice());
        self.put(&stored, 0, store, sink)
    }

    /// Whether one more frame of a missing frame_num, where these frames are held with it, writes nothing and leaves the buffer as it is.
    pub fn is_steady(&self, held: &Held) -> bool
        ensures { result ≡ true → (b : Buffered Shown) (written : ℕ) → KeepsBuffer b written self.now → missing_turn held.now b ≡ stays b }
    {
        let names = names(held.frames());
        self.buffer.is_steady(names.as_slice())
    }

    /// The end of the input: all frames that wait are written.
    ///
    /// Write: the sink failed, and nothing is said of the places.
    pub fn finish<F: FrameStore, S: FrameOut>(
        &mut self,
        store: &F,
        sink: &mut S,
    ) -> Result<(), Stop>
        requires room { HasRoom S.failures sink.old }
        requires ordered { (next : ℕ) × (next < 2 ^ 62) × IsOrdered next self.old }
        requires ready { IsReady (F.lent store.now) self.old }
        ensures writes { (frames : ℕ → Frame) (b : Buffered Shown) (written : ℕ) → KeepsBuffer b written self.old →
            HasFrames frames (F.lent store.now) self.old → Writes S.took S.failures (shown_calls frames (last_turn b).written) sink.old sink.new result }
        ensures passes { LendsNone (F.lent store.now) → Writes S.took S.failures [] sink.old sink.new result }
        ensures keeps { (b : Buffered Shown) (written : ℕ) → KeepsBuffer b written self.old →
            OnOk result (KeepsBuffer (last_turn b).buffer (written + length (last_turn b).written) self.new) }
    {
        self.flush(true, 1, store, sink)
    }
}
