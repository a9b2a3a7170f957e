//! A sink that puts frames into a queue.
#![tactic(auto)]

ghost use Rattle.std.specs.Prelude.{◌≡◌, ◌+◌, ◌-◌, ◌<◌, ◌^◌, [], OnOk, OnErr};

use crate::notes::Notes;
use crate::queue::FrameQueue;
use h264_base::{ElementName, Elements, Failed, SliceType};
use h264_dpb::{FrameOut, Rectangle};
use h264_plane::Frame;
use h264_verify::{FrameSink, NalUnitType};
use std::marker::{Brand, PhantomData};

/// For proofs alone: how a queue stood before a sink filled it.
pub trait Before {
    ghost use Rattle.std.specs.Prelude.{ℕ, List};
    ghost use Rattle.h264_base.specs.Call.{Call};

    /// How many frames were handed out.
    ghost handed_out: { ℕ };

    /// The frames that waited.
    ghost waiting: { List Call };
}

impl Before for Brand {
    ghost use Rattle.std.specs.Prelude.{[]};

    ghost handed_out = { 0 };

    ghost waiting = { [] };
}

/// Puts each frame of a stream into a queue, and notes what is noted of the rest. A call fails where memory is refused; its frame is not in the queue then.
#[derive(Drop)]
pub(crate) struct Filling<K: Before> {
    queue: FrameQueue,
    notes: Notes,
    /// How many calls failed.
    failures: u64,
    before: PhantomData<K>,
}

impl<K: Before> Filling<K> {
    /// A sink that was told nothing, with no failure.
    pub(crate) fn new(queue: FrameQueue, notes: Notes) -> Filling<K>
        ensures queue { result.queue ≡ queue }
        ensures failures { result.failures ≡ 0 }
    {
        Filling {
            queue,
            notes,
            failures: 0,
            before: PhantomData,
        }
    }

    /// Gives the queue and the notes back.
    pub(crate) fn into_parts(self) -> (FrameQueue, Notes)
        ensures { result.0 ≡ self.queue }
    {
        let Filling { queue, notes, .. } = self;
        (queue, notes)
    }

    /// Counts a failure.
    fn fail(&mut self) -> Result<(), Failed>
        requires { self.old.failures < 2 ^ 64 - 1 }
        ensures err { OnOk result ⊥ }
        ensures others { self.new ≡ record self.old { failures = self.old.failures + 1 } }
    {
        self.failures += 1;
        Err(Failed)
    }
}

impl<K: Before> Elements for Filling<K> {
    ghost use Rattle.h264_stream.specs.Queue.{IsFilled};

    ghost took = { λ s calls. IsFilled K.handed_out K.waiting s.queue.handed_out s.queue.waiting.items calls };

    ghost failures = { λ s. s.failures };

    fn element(&mut self, name: ElementName, bit: u64, value: i64) -> Result<(), Failed> {
        if !self.notes.note_element(name, bit, value) {
            return self.fail();
        }
        Ok(())
    }
}

impl<K: Before> FrameOut for Filling<K> {
    fn frame(&mut self, count: i32, frame: &Frame, rectangle: Rectangle) -> Result<(), Failed> {
        match self.queue.add(count, frame, rectangle) {
            Ok(()) => {
                self.notes.note_frame();
                Ok(())
            }
            Err(_) => self.fail(),
        }
    }
}

impl<K: Before> FrameSink for Filling<K> {
    fn unit(
        &mut self,
        byte: u64,
        nal_unit_type: NalUnitType,
        nal_ref_idc: u8,
        length: u64,
    ) -> Result<(), Failed> {
        self.notes
            .note_unit(byte, nal_unit_type, nal_ref_idc, length);
        if self.notes.is_short() {
            return self.fail();
        }
        Ok(())
    }

    fn slice(
        &mut self,
        _byte: u64,
        _first_mb_in_slice: u32,
        _slice_type: SliceType,
        _frame_num: u32,
        _count: i32,
    ) -> Result<(), Failed> {
        Ok(())
    }
}
