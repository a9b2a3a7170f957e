//! The frames of a sequence by place, one of which is written while the others are read.
#![tactic(auto)]

ghost use Rattle.std.specs.Prelude.{◌≡◌, ◌≢◌, ℕ, ◌%◌, ◌<◌, ◌≤◌, true, false, Some, None, length, IfOk};
ghost use Rattle.std.specs.Option.{option_copied};

use h264_plane::{Frame, MAX_SIDE, Pool};
use std::alloc::{AllocError, Global};
use std::mem;

/// How many places the frames of a sequence have at most: sixteen of the picture buffer, and one for the picture that is decoded.
pub const PLACES: usize = 17;

/// The frames of a sequence by place.
#[derive(Drop)]
pub struct Frames {
    /// All but one, in whose place stands a frame of no samples.
    pub(crate) pool: Pool,
    /// The place of that one, which was moved out to be written.
    pub(crate) place: usize,
    pub(crate) frame: Frame,
    /// Whether a picture is decoded into it: until the picture's end it is not lent.
    pub(crate) begun: bool,

    ghost within: { (place < length pool) × (length pool ≤ 17) },
}

impl Frames {
    ghost use Rattle.h264_picture.specs.Lent.{AreFrames, KeepsLent, frame_within, lent_within};

    /// So many frames of zeros, of `width` times `height` luma samples, with all the memory that they will need.
    pub(crate) fn new(
        alloc: Global,
        count: usize,
        width: usize,
        height: usize,
    ) -> Result<Frames, AllocError>
        requires some { 0 < count }
        requires few { count ≤ 17 }
        requires wide { width ≤ MAX_SIDE }
        requires tall { height ≤ MAX_SIDE }
        requires columns { width % 16 ≡ 0 }
        requires rows { height % 16 ≡ 0 }
        ensures count { IfOk result (λ f. length f.pool ≡ count) }
        ensures first { IfOk result (λ f. f.place ≡ 0) }
        ensures size { IfOk result (λ f. AreFrames width height f) }
    {
        let mut pool = Pool::new(alloc, count, width, height)?;
        let frame = pool.take(0);
        Ok(Frames {
            pool,
            place: 0,
            frame,
            begun: false,
        })
    }

    /// A picture begins in the frame at this place, which is moved out, as the one that was is put back.
    pub(crate) fn begin(&mut self, place: usize)
        requires { place < length self.old.pool }
        ensures count { length self.new.pool ≡ length self.old.pool }
        ensures place { self.new.place ≡ place }
        ensures begun { self.new.begun ≡ true }
        ensures frames { (k : ℕ) → k < length self.old.pool → frame_within self.new k ≡ frame_within self.old k }
        ensures size { (width height : ℕ) → AreFrames width height self.old → AreFrames width height self.new }
        ensures none { lent_within self.new place ≡ None }
        ensures others { (k : ℕ) → k ≢ place → lent_within self.old k ≢ None → lent_within self.new k ≡ lent_within self.old k }
    {
        let none = self.pool.take(self.place);
        let frame = mem::replace(&mut self.frame, none);
        self.pool.put_back(self.place, frame);
        self.frame = self.pool.take(place);
        self.place = place;
        self.begun = true;
    }

    /// The picture has ended.
    pub(crate) fn end(&mut self)
        ensures count { length self.new.pool ≡ length self.old.pool }
        ensures place { self.new.place ≡ self.old.place }
        ensures kept { KeepsLent (Some self.old) (Some self.new) }
        ensures size { (width height : ℕ) → AreFrames width height self.old → AreFrames width height self.new }
        ensures lent { lent_within self.new self.old.place ≡ Some self.old.frame }
        ensures ended { lent_within self.new self.old.place ≡ Some (frame_within self.old self.old.place) }
    {
        self.begun = false;
    }

    /// The frame at a place, if one is lent there.
    pub(crate) fn frame(&self, place: usize) -> Option<&Frame>
        ensures { option_copied result ≡ lent_within self.now place }
    {
        if place >= self.pool.len() {
            return None;
        }
        if place != self.place {
            return Some(self.pool.frame(place));
        }
        if self.begun {
            return None;
        }
        Some(&self.frame)
    }
}
