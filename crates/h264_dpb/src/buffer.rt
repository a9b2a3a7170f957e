use crate::bumping::{all_marked, empty, missing_in, store};
use crate::entry::{Entry, Picture, Placed};
use crate::places::free_place;
use crate::sink::FrameOut;
use arrayvec::ArrayVec;
use h264_base::Stop;
use h264_plane::FrameStore;
use std::marker::Model;

/// The frames that wait for output or are used for reference, in decoding order.
#[derive(Drop)]
pub struct Buffer {
    entries: ArrayVec<Entry<Placed>, 16>,
    /// How many frames that do not exist take places.
    missing: usize,
    /// How many places there are.
    size: usize,
}

impl Model for Buffer {
    ghost use Rattle.std.specs.Prelude.{◌≤◌};
    ghost use Rattle.h264_dpb.specs.declared.entry.Placed.{Placed};
    ghost use Rattle.h264_dpb.specs.Buffered.{Buffered};

    ghost Value = { Buffered Placed };

    ghost view = { λ b. record { entries = b.entries.items; missing = b.missing; size = b.size } };

    ghost invariant = { λ b. b.size ≤ 16 };
}

impl Buffer {
    ghost use Rattle.std.specs.Prelude.{◌≡◌, ℕ, ◌+◌, ◌-◌, ◌<◌, ◌≤◌, ◌^◌, IsTrue, true, false, is_some, length, [], OnOk, IfSome};
    ghost use Rattle.h264_base.specs.Call.{HasRoom, span};
    ghost use Rattle.h264_dpb.specs.Numbered.{is_taken};
    ghost use Rattle.h264_dpb.specs.Bumping.{flushed};
    ghost use Rattle.h264_dpb.specs.Buffered.{AreReady, Steps, HasRoomBy, StaysWithin, places_taken, stored_by, missing_by, IsShownBy};
    ghost use Rattle.h264_dpb.specs.Steady.{is_steady};

    /// A buffer of one place, which is free.
    pub fn new() -> Buffer
        ensures { result ≡ record { entries = []; missing = 0; size = 1 } }
    {
        Buffer {
            entries: ArrayVec::new(),
            missing: 0,
            size: 1,
        }
    }

    /// The frames in decoding order.
    pub fn entries(&self) -> &[Entry<Placed>]
        ensures { result.now ≡ self.now.entries }
    {
        self.entries.as_slice()
    }

    /// How many places are taken: by frames, and by those that do not exist.
    pub fn places_taken(&self) -> usize
        ensures { StaysWithin self.now → result ≡ places_taken self.now }
    {
        self.entries.len().saturating_add(self.missing)
    }

    /// The first of `count` places from `first` on at which no frame of the buffer stands. Where the buffer has fewer frames than there are places,
    /// there is one.
    pub fn free_place(&self, first: usize, count: usize) -> Option<usize>
        requires small { first + count < 2 ^ 32 }
        ensures free { IfSome result (λ place. (first ≤ place) × (place < first + count) × (is_taken self.now.entries place ≡ false)) }
        ensures lowest { IfSome result (λ place. (lower : ℕ) → first ≤ lower → lower < place → is_taken self.now.entries lower ≡ true) }
        ensures some { length self.now.entries < count → IsTrue (is_some result) }
        ensures first { is_taken self.now.entries first ≡ false → 0 < count → IsTrue (is_some result) }
    {
        free_place(self.entries.as_slice(), first, count)
    }

    /// Takes a picture that has ended and is marked, or the frame of a missing frame_num, and writes what has to leave first.
    ///
    /// Write: the sink failed, and nothing is said of the places.
    pub fn store<F: FrameStore, S: FrameOut>(
        &mut self,
        frames: &F,
        picture: &Picture,
        sink: &mut S,
    ) -> Result<(), Stop>
        requires room { HasRoom S.failures sink.old }
        requires ready { AreReady (F.lent frames.now) self.old.entries }
        requires own { IsShownBy picture.now.kind (F.lent frames.now) picture.now }
        requires few { HasRoomBy picture.now.kind picture.now self.old }
        ensures steps { Steps (span S.took S.failures sink.old sink.new) (F.lent frames.now)
            (stored_by picture.now.kind picture.now self.old) self.new.entries result }
        ensures missing { OnOk result (self.new.missing ≡ missing_by picture.now.kind picture.now self.old) }
        ensures size { self.new.size ≡ self.old.size }
        ensures within { StaysWithin self.old → OnOk result (StaysWithin self.new) }
        ensures ready { OnOk result (AreReady (F.lent frames.now) self.new.entries) }
    {
        let (size, missing) = (self.size, self.missing);
        self.missing = store(size, missing, picture, &mut self.entries, frames, sink)?;
        Ok(())
    }

    /// Whether one more frame of a missing frame_num, where these are held with it, leaves the buffer as it is.
    pub fn is_steady(&self, held: &[Option<u64>]) -> bool
        ensures { result ≡ is_steady held.now self.now }
    {
        let missing = missing_in(held);
        self.missing == missing
            && self.entries.len() < self.size.saturating_sub(missing.saturating_sub(1))
            && all_marked(held, self.entries.as_slice())
    }

    /// Writes all that waits, or drops it, and empties the buffer, which has `size` places then.
    ///
    /// Write: the sink failed, and nothing is said of the places.
    pub fn flush<F: FrameStore, S: FrameOut>(
        &mut self,
        frames: &F,
        write: bool,
        size: usize,
        sink: &mut S,
    ) -> Result<(), Stop>
        requires room { HasRoom S.failures sink.old }
        requires ready { AreReady (F.lent frames.now) self.old.entries }
        requires some { 0 < size }
        requires few { size ≤ 16 }
        ensures steps { Steps (span S.took S.failures sink.old sink.new) (F.lent frames.now) (flushed write self.old.entries) self.new.entries result }
        ensures emptied { OnOk result (self.new ≡ record { entries = []; missing = 0; size = size }) }
    {
        empty(write, &mut self.entries, frames, sink)?;
        self.missing = 0;
        self.size = size;
        Ok(())
    }
}
