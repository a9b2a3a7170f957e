//! A sink that keeps the last elements.
#![tactic(auto)]

ghost use Rattle.std.specs.Prelude.{◌≡◌, [], IfOk};

use crate::trail::Trail;
use h264_base::{ElementName, Elements, Failed, SliceType};
use h264_dpb::{FrameOut, FrameSink, Rectangle};
use h264_plane::Frame;
use h264_units::NalUnitType;
use std::alloc::{AllocError, Global};

/// Keeps the last 16 syntax elements of a stream, and passes over all else. It never fails.
#[derive(Drop)]
pub struct TrailSink {
    trail: Trail,
}

impl TrailSink {
    /// A sink that was told nothing. AllocError: there is no memory for 16 elements.
    pub fn new(alloc: Global) -> Result<TrailSink, AllocError>
        ensures { IfOk result (λ s. s.trail ≡ []) }
    {
        Ok(TrailSink {
            trail: Trail::new(alloc)?,
        })
    }

    /// The last 16 elements that it was told.
    pub fn trail(&self) -> &Trail
        ensures { result.now ≡ self.now.trail }
    {
        &self.trail
    }
}

impl Elements for TrailSink {
    ghost use Rattle.std.specs.Prelude.{◌≡◌};
    ghost use Rattle.circular_buffer.specs.Buffer.{keep_last};
    ghost use Rattle.h264_lines.specs.Told.{elements_of};

    ghost took = { λ s calls. s.trail ≡ keep_last 16 (elements_of calls) };

    ghost failures = { λ _. 0 };

    fn element(&mut self, name: ElementName, bit: u64, value: i64) -> Result<(), Failed> {
        self.trail.note(name, bit, value);
        Ok(())
    }
}

impl FrameOut for TrailSink {
    fn frame(&mut self, _count: i32, _frame: &Frame, _rectangle: Rectangle) -> Result<(), Failed> {
        Ok(())
    }
}

impl FrameSink for TrailSink {
    fn unit(
        &mut self,
        _byte: u64,
        _nal_unit_type: NalUnitType,
        _nal_ref_idc: u8,
        _length: u64,
    ) -> Result<(), Failed> {
        Ok(())
    }

    fn slice(
        &mut self,
        _byte: u64,
        _first_mb_in_slice: u32,
        _slice_type: SliceType,
        _frame_num: u32,
        _count: i32,
    ) -> Result<(), Failed> {
        Ok(())
    }
}
