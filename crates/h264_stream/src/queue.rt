//! Frames that wait to be taken.
#![tactic(auto)]

ghost use Rattle.std.specs.Prelude.{◌≡◌, ℕ, ◌+◌, ◌-◌, ◌*◌, ◌/◌, ◌<◌, ◌≤◌, ◌^◌, ◌⊎◌, [], ◌∷◌, ◌++◌, IsTrue, IfOk, OnOk, OnErr, IfSome, IfNone};
ghost use Rattle.h264_dpb.specs.Shown.{fits, width_in, height_in};
ghost use Rattle.h264_lines.specs.Frames.{shown_bytes};

use h264_dpb::Rectangle;
use h264_lines::rows::{height, part_at, part_count, width};
use h264_plane::Frame;
use std::alloc::{AllocError, Global};
use std::collections::VecDeque;
use std::mem;

/// What is shown of a frame.
#[derive(Drop)]
pub struct ShownFrame {
    /// Its picture order count.
    pub count: i32,
    /// Luma samples in a row. A row of Cb or Cr has half as many.
    pub width: usize,
    /// Luma samples in a column. A column of Cb or Cr has half as many.
    pub height: usize,
    /// The rows of Y, then of Cb, then of Cr, a byte a sample.
    pub samples: Vec<u8>,
}

/// The samples that are shown of a frame, in the memory of this vector, whose items are let go. Err: memory was refused.
fn samples_of(kept: Vec<u8>, frame: &Frame, rectangle: Rectangle) -> Result<Vec<u8>, AllocError>
    requires { IsTrue (fits rectangle frame.now) }
    ensures { IfOk result (λ samples. samples.items ≡ shown_bytes frame.now rectangle) }
{
    let luma = width(frame, rectangle) * height(frame, rectangle);
    let mut samples = kept;
    samples.clear();
    samples.reserve_exact(luma + luma / 2)?;
    for k in 0..part_count(frame, rectangle) {
        samples.extend_from_slice(part_at(frame, rectangle, k))?;
    }
    Ok(samples)
}

/// The frames of a stream that wait to be taken, in the order of output.
#[derive(Drop)]
pub struct FrameQueue {
    alloc: Global,
    waiting: VecDeque<ShownFrame>,
    /// How many frames were taken from it.
    handed_out: u64,
    /// The vectors of frames that were given back, for the memory in them.
    spare: Vec<Vec<u8>>,
}

impl FrameQueue {
    ghost use Rattle.std.specs.Prelude.{vec_len, vec_capacity};
    ghost use Rattle.h264_dpb.specs.Shown.{frame_call};
    ghost use Rattle.h264_stream.specs.Queue.{told_of_frame};

    /// A queue of no frames, from which none was taken.
    pub fn new(alloc: Global) -> FrameQueue
        ensures waiting { result.waiting.items ≡ [] }
        ensures handed_out { result.handed_out ≡ 0 }
    {
        FrameQueue {
            alloc,
            waiting: VecDeque::new(alloc),
            handed_out: 0,
            spare: Vec::new(alloc),
        }
    }

    /// Hands over all that it has, and is empty then, as if new.
    pub(crate) fn take_all(&mut self) -> FrameQueue
        ensures { result ≡ self.old }
    {
        let none = FrameQueue::new(self.alloc);
        mem::replace(self, none)
    }

    /// The next frame in the order of output. None where none waits, or where 2^64 - 1 were taken.
    pub fn take_frame(&mut self) -> Option<ShownFrame>
        ensures first { IfSome result (λ frame. self.old.waiting.items ≡ frame ∷ self.new.waiting.items) }
        ensures counted { IfSome result (λ frame. self.new.handed_out ≡ self.old.handed_out + 1) }
        ensures none { IfNone result ((self.old.waiting.items ≡ []) ⊎ (self.old.handed_out ≡ 2 ^ 64 - 1)) }
        ensures kept { IfNone result ((self.new.waiting.items ≡ self.old.waiting.items) × (self.new.handed_out ≡ self.old.handed_out)) }
    {
        let handed_out = self.handed_out.checked_add(1)?;
        let frame = self.waiting.pop_front()?;
        self.handed_out = handed_out;
        Some(frame)
    }

    /// Takes a frame back that was taken. A later frame is made in its memory. Where memory is refused to the list of what is kept, it is freed.
    pub fn give_back(&mut self, frame: ShownFrame)
        ensures waiting { self.new.waiting.items ≡ self.old.waiting.items }
        ensures handed_out { self.new.handed_out ≡ self.old.handed_out }
        // Its vector is kept, as the last one; or the list of those that are kept was full, and stays.
        ensures spare { (self.new.spare.items ≡ self.old.spare.items ++ frame.samples ∷ [])
            ⊎ ((vec_capacity self.old.spare ≤ vec_len self.old.spare) × (self.new.spare.items ≡ self.old.spare.items)) }
    {
        match self.spare.push(frame.samples) {
            Ok(()) => {}
            Err(refused) => drop(refused.value),
        }
    }

    /// Adds a frame at the end. Err: memory was refused, and nothing was added.
    pub(crate) fn add(
        &mut self,
        count: i32,
        frame: &Frame,
        rectangle: Rectangle,
    ) -> Result<(), AllocError>
        requires { IsTrue (fits rectangle frame.now) }
        ensures added { IfOk result (λ _. (shown : _) × (told_of_frame shown ≡ frame_call count frame.now rectangle)
            × (self.new.waiting.items ≡ self.old.waiting.items ++ shown ∷ [])) }
        ensures kept { OnErr result (self.new.waiting.items ≡ self.old.waiting.items) }
        ensures handed_out { self.new.handed_out ≡ self.old.handed_out }
    {
        let kept = match self.spare.pop() {
            Some(kept) => kept,
            None => Vec::new(self.alloc),
        };
        let shown = ShownFrame {
            count,
            width: width(frame, rectangle),
            height: height(frame, rectangle),
            samples: samples_of(kept, frame, rectangle)?,
        };
        self.waiting.push_back(shown)?;
        Ok(())
    }
}
