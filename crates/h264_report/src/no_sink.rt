//! A sink that keeps nothing.
#![tactic(auto)]

use h264_base::{ElementName, Elements, Failed, SliceType};
use h264_dpb::{FrameOut, Rectangle};
use h264_plane::Frame;
use h264_verify::{FrameSink, NalUnitType};

/// Passes over all that it is told, so that a judgement costs nothing beside its answer. It never fails.
#[derive(Drop)]
pub struct NoSink;

impl Elements for NoSink {
    ghost took = { λ _ _. Unit {0} };

    ghost failures = { λ _. 0 };

    #[inline(always)]
    fn element(&mut self, _name: ElementName, _bit: u64, _value: i64) -> Result<(), Failed> {
        Ok(())
    }
}

impl FrameOut for NoSink {
    #[inline(always)]
    fn frame(&mut self, _count: i32, _frame: &Frame, _rectangle: Rectangle) -> Result<(), Failed> {
        Ok(())
    }
}

impl FrameSink for NoSink {
    #[inline(always)]
    fn unit(
        &mut self,
        _byte: u64,
        _nal_unit_type: NalUnitType,
        _nal_ref_idc: u8,
        _length: u64,
    ) -> Result<(), Failed> {
        Ok(())
    }

    #[inline(always)]
    fn slice(
        &mut self,
        _byte: u64,
        _first_mb_in_slice: u32,
        _slice_type: SliceType,
        _frame_num: u32,
        _count: i32,
    ) -> Result<(), Failed> {
        Ok(())
    }
}
