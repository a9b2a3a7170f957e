//! A sink that writes samples.
#![tactic(auto)]

ghost use Rattle.std.specs.Prelude.{◌≡◌, ◌+◌, ◌-◌, ◌<◌, ◌^◌, false, OnOk, OnErr};

use crate::device::Device;
use crate::frames::send_frame;
use crate::sheet::{Pen, Sheet};
use h264_base::{ElementName, Elements, Failed, SliceType};
use h264_dpb::{FrameOut, FrameSink, Rectangle};
use h264_plane::Frame;
use h264_units::NalUnitType;
use std::marker::PhantomData;

/// Writes what is shown of each frame of a stream, in the order of output: the rows of Y, then of Cb, then of Cr, a byte a sample.
///
/// A writer that tells its bytes holds, after what it held, those of the frames taken, in order. Where the device fails within a frame, the frame is
/// taken, and the writer holds a part of it, which is not the whole. Then each call fails, and nothing more is written.
#[derive(Drop)]
pub struct YuvSink<'a, W: Device, K: Sheet> {
    pen: Pen<'a, W>,
    sheet: PhantomData<K>,
    /// How many calls failed.
    pub failures: u64,
    /// Whether the device failed within the newest frame.
    broke_off: bool,
}

impl<'a, W: Device, K: Sheet> YuvSink<'a, W, K> {
    /// A sink that was told nothing, with no failure.
    pub fn new(pen: Pen<'a, W>) -> YuvSink<'a, W, K>
        ensures quiet { result.failures ≡ 0 }
        ensures whole { result.broke_off ≡ false }
        ensures same_reference { result.pen.out.ghost_name ≡ pen.entry.out.ghost_name }
        ensures unwritten { result.pen.out.now ≡ pen.entry.out.now }
    {
        YuvSink {
            pen,
            sheet: PhantomData,
            failures: 0,
            broke_off: false,
        }
    }

    /// Whether the device failed within the newest frame.
    pub fn broke_off(&self) -> bool
        ensures { result ≡ self.now.broke_off }
    {
        self.broke_off
    }

    /// Counts a failure after a frame that broke off, at which nothing is written.
    fn fail(&mut self) -> Result<(), Failed>
        requires { self.old.failures < 2 ^ 64 - 1 }
        ensures err { OnOk result ⊥ }
        ensures others { self.new ≡ record self.old { failures = self.old.failures + 1 } }
    {
        self.failures += 1;
        Err(Failed)
    }

    /// Gives the pen back.
    pub fn into_pen(self) -> Pen<'a, W>
        ensures same_reference { result.out.ghost_name ≡ self.entry.pen.out.ghost_name }
        ensures kept { result.out.now ≡ self.entry.pen.out.now }
    {
        let YuvSink { pen, .. } = self;
        pen
    }
}

impl<'a, W: Device, K: Sheet> Elements for YuvSink<'a, W, K> {
    ghost use Rattle.h264_lines.specs.Sent.{lent};
    ghost use Rattle.h264_lines.specs.Told.{TookFrames};

    ghost took = { λ s calls. TookFrames (lent K.name K.start K.was_failed) s.broke_off
        (lent s.pen.out.ghost_name (W.contents s.pen.out.now) (W.has_failed s.pen.out.now)) calls };

    ghost failures = { λ s. s.failures };

    fn element(&mut self, _name: ElementName, _bit: u64, _value: i64) -> Result<(), Failed> {
        if self.broke_off {
            return self.fail();
        }
        Ok(())
    }
}

impl<'a, W: Device, K: Sheet> FrameOut for YuvSink<'a, W, K> {
    fn frame(&mut self, _count: i32, frame: &Frame, rectangle: Rectangle) -> Result<(), Failed> {
        if self.broke_off {
            return self.fail();
        }
        match send_frame(self.pen.out, frame, rectangle) {
            Ok(()) => Ok(()),
            Err(Failed) => {
                self.broke_off = true;
                Ok(())
            }
        }
    }
}

impl<'a, W: Device, K: Sheet> FrameSink for YuvSink<'a, W, K> {
    fn unit(
        &mut self,
        _byte: u64,
        _nal_unit_type: NalUnitType,
        _nal_ref_idc: u8,
        _length: u64,
    ) -> Result<(), Failed> {
        if self.broke_off {
            return self.fail();
        }
        Ok(())
    }

    fn slice(
        &mut self,
        _byte: u64,
        _first_mb_in_slice: u32,
        _slice_type: SliceType,
        _frame_num: u32,
        _count: i32,
    ) -> Result<(), Failed> {
        if self.broke_off {
            return self.fail();
        }
        Ok(())
    }
}
