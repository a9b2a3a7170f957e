ghost use Rattle.std.specs.Prelude.{◌≡◌, ◌↔◌, IsTrue, [], ℕ, ◌%◌, ◌<◌, ◌≤◌, List, length, slice_set, IfOk};
ghost use Rattle.std.specs.Borrow.{sem};
ghost use Rattle.h264_plane.specs.Samples.{IsBlank};
ghost use Rattle.h264_plane.specs.Lending.{LendsFrame};
ghost use Rattle.h264_plane.specs.Frames.{plane_of, no_frame, frame_at, IsFrame, KeepsOtherFrames};

use crate::frame::Frame;
use crate::plane::MAX_SIDE;
use std::alloc::{AllocError, Global};
use std::marker::Model;
use std::mem;

/// Frames by place, with all the memory that they will need.
///
/// To write one frame while others are read, as inter prediction does, `take` the one that is written out of its place,
/// read the others by `frame`, and `put_back` the first: it is moved, not copied, and `others` of both calls
/// says that no other frame changes.
#[derive(Drop)]
pub struct Pool {
    frames: Vec<Frame>,
}

impl Model for Pool {
    ghost use Rattle.std.specs.Prelude.{List};
    ghost use Rattle.h264_plane.specs.declared.frame.Frame.{Frame};

    ghost Value = { List Frame };

    ghost view = { λ p. p.frames.items };
}

impl Pool {
    /// `n` frames of zeros, of `width` times `height` luma samples, with all the memory that they will need.
    pub fn new(alloc: Global, n: usize, width: usize, height: usize) -> Result<Pool, AllocError>
        requires wide { width ≤ MAX_SIDE }
        requires tall { height ≤ MAX_SIDE }
        requires columns { width % 16 ≡ 0 }
        requires rows { height % 16 ≡ 0 }
        ensures count { IfOk result (λ p. length p ≡ n) }
        ensures size { IfOk result (λ p. (k : ℕ) → k < n → IsFrame (frame_at p k) width height) }
        ensures blank { IfOk result (λ p. (k : ℕ) → k < n → (c : _) → IsBlank (plane_of c (frame_at p k))) }
    {
        let mut frames = Vec::with_capacity(alloc, n)?;
        for _ in 0..n {
            frames.push(Frame::new(alloc, width, height)?)?;
        }
        Ok(Pool { frames })
    }

    /// A pool without frames, which takes no memory.
    pub fn none(alloc: Global) -> Pool
        ensures { result ≡ [] }
    {
        Pool {
            frames: Vec::new(alloc),
        }
    }

    /// How many frames there are.
    pub fn len(&self) -> usize
        ensures { result ≡ length self.now }
    {
        self.frames.len()
    }

    /// Whether it has no frame.
    pub fn is_empty(&self) -> bool
        ensures { IsTrue result ↔ (self.now ≡ []) }
    {
        self.frames.is_empty()
    }

    /// The frame at a place.
    #[inline(always)]
    pub fn frame(&self, place: usize) -> &Frame
        requires { place < length self.now }
        ensures { result.now ≡ frame_at self.now place }
    {
        &self.frames[place]
    }

    /// The frame at a place, to be written. The others stay as they are.
    #[inline(always)]
    pub fn frame_mut(&mut self, place: usize) -> &mut Frame
        requires { place < length self.old }
        ensures* writes_back { sem 𝓛 (LendsFrame place self.entry result) }
        ensures value { result.now ≡ frame_at self.old place }
    {
        &mut self.frames[place]
    }

    /// Moves the frame out of its place, without copying its samples, and leaves a frame of no samples there.
    pub fn take(&mut self, place: usize) -> Frame
        requires { place < length self.old }
        ensures frame { result ≡ frame_at self.old place }
        ensures left { self.new ≡ slice_set self.old place no_frame }
        ensures others { KeepsOtherFrames self.old self.new place }
    {
        let none = Frame::none(*self.frames.allocator());
        let slot = &mut self.frames[place];
        mem::replace(slot, none)
    }

    /// Moves a frame into a place, without copying its samples, and lets go of the one that stood there.
    pub fn put_back(&mut self, place: usize, frame: Frame)
        requires { place < length self.old }
        ensures put { self.new ≡ slice_set self.old place frame }
        ensures others { KeepsOtherFrames self.old self.new place }
    {
        self.frames[place] = frame;
    }
}
