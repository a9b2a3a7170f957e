//! A stream of two IDR pictures in pieces, judged by a sink of its own.
#![tactic(auto)]

use h264_base::{ElementName, Elements, Failed, Mode, SliceType, Target};
use h264_dpb::{FrameOut, Rectangle};
use h264_plane::Frame;
use h264_verify::running::run_pieces;
use h264_verify::{FrameSink, NalUnitType, Summary, laws};
use std::process::Abort;
use std::test::Fail;

/// Two parameter sets, and two IDR pictures of one macroblock with different idr_pic_id.
const STREAM: &[u8] = &[
    0x00, 0x00, 0x00, 0x01, 0x67, 0x42, 0xC0, 0x0A, 0xDA, 0x71, 0x00, 0x00, 0x00, 0x01, 0x68, 0xCE,
    0x38, 0x80, 0x00, 0x00, 0x01, 0x65, 0x88, 0x84, 0x93, 0xC0, 0x00, 0x00, 0x01, 0x65, 0x88, 0x82,
    0x24, 0xF0,
];

/// Counts what it is told.
#[derive(Drop)]
struct Counter {
    units: u32,
    slices: u32,
    elements: u32,
    frames: u32,
}

impl Elements for Counter {
    ghost took = { λ _ _. Unit {0} };

    ghost failures = { λ _. 0 };

    fn element(&mut self, _name: ElementName, _bit: u64, _value: i64) -> Result<(), Failed> {
        self.elements = self.elements.saturating_add(1);
        Ok(())
    }
}

impl FrameOut for Counter {
    fn frame(&mut self, _count: i32, _frame: &Frame, _rectangle: Rectangle) -> Result<(), Failed> {
        self.frames = self.frames.saturating_add(1);
        Ok(())
    }
}

impl FrameSink for Counter {
    fn unit(
        &mut self,
        _byte: u64,
        _nal_unit_type: NalUnitType,
        _nal_ref_idc: u8,
        _length: u64,
    ) -> Result<(), Failed> {
        self.units = self.units.saturating_add(1);
        Ok(())
    }

    fn slice(
        &mut self,
        _byte: u64,
        _first_mb_in_slice: u32,
        _slice_type: SliceType,
        _frame_num: u32,
        _count: i32,
    ) -> Result<(), Failed> {
        self.slices = self.slices.saturating_add(1);
        Ok(())
    }
}

fn nothing_told() -> Counter {
    Counter {
        units: 0,
        slices: 0,
        elements: 0,
        frames: 0,
    }
}

const SUMMARY: Summary = Summary {
    units: 4,
    pictures: 2,
    frames: 0,
};

/// The headers of a stream that comes in these pieces: elements are 20 of the sequence parameter set, 15 of the picture parameter set, 8 of each slice header.
fn headers_of_pieces(rt: &(impl Abort + AllocGlobal), pieces: &[Vec<u8>]) -> Result<(), Fail> {
    let mut sink = nothing_told();
    let summary = run_pieces(
        rt.alloc(),
        pieces,
        &mut sink,
        Mode::Headers,
        Target::Baseline,
    )?;
    assert_eq!(rt; summary, SUMMARY);
    assert_eq!(rt;
        (sink.units, sink.slices, sink.elements, sink.frames),
        (4, 2, 51, 0)
    );
    Ok(())
}

#[test]
fn pieces(rt: HostRuntime) -> Result<(), Fail> {
    laws::one_verdict();
    laws::some_verdict();
    laws::baseline_is_main_ip();
    let front = Vec::from_slice(rt.alloc(), &STREAM[..15])?;
    let rest = Vec::from_slice(rt.alloc(), &STREAM[15..])?;
    headers_of_pieces(&rt, &[front, rest])
}
