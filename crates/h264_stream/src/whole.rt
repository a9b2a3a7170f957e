//! A whole stream in memory, of which only the verdict is asked.
#![tactic(auto)]

ghost use Rattle.std.specs.Prelude.{◌≡◌, [], IsErrOf};
ghost use Rattle.h264_base.specs.declared.stop.Stop.{Stop};
ghost use Rattle.h264_verify.specs.Account.{Account};
ghost use Rattle.h264_verify.specs.Units.{terms_of};
ghost use Rattle.h264_stream.specs.Whole.{without_frames};

use h264_base::{ElementName, Elements, Failed, Mode, SliceType, Stop, Target};
use h264_dpb::{FrameOut, Rectangle};
use h264_plane::Frame;
use h264_verify::{FrameSink, NalUnitType, Session, Summary};
use std::alloc::Global;

/// Passes over all that it is told.
#[derive(Drop)]
struct NoSink;

impl Elements for NoSink {
    ghost took = { λ _ _. Unit {0} };

    ghost failures = { λ _. 0 };

    fn element(&mut self, _name: ElementName, _bit: u64, _value: i64) -> Result<(), Failed> {
        Ok(())
    }
}

impl FrameOut for NoSink {
    fn frame(&mut self, _count: i32, _frame: &Frame, _rectangle: Rectangle) -> Result<(), Failed> {
        Ok(())
    }
}

impl FrameSink for NoSink {
    fn unit(
        &mut self,
        _byte: u64,
        _nal_unit_type: NalUnitType,
        _nal_ref_idc: u8,
        _length: u64,
    ) -> Result<(), Failed> {
        Ok(())
    }

    fn slice(
        &mut self,
        _byte: u64,
        _first_mb_in_slice: u32,
        _slice_type: SliceType,
        _frame_num: u32,
        _count: i32,
    ) -> Result<(), Failed> {
        Ok(())
    }
}

/// The mode that judges as far as this one, and makes no frames.
fn without_frames(mode: Mode) -> Mode
    ensures { result ≡ without_frames mode }
{
    match mode {
        Mode::Units => Mode::Units,
        Mode::Headers => Mode::Headers,
        Mode::Verdict => Mode::Verdict,
        Mode::Full => Mode::Verdict,
    }
}

/// The verdict on a stream, judged so far and for this target; or Memory, where it was refused. It is never Read or Write. No frames are made.
pub fn judge_bytes(alloc: Global, bytes: &[u8], mode: Mode, target: Target) -> Result<Summary, Stop>
    ensures verdict { Account (terms_of (without_frames mode) target) bytes.now result }
    ensures no_read { IsErrOf result Stop.Read → ⊥ }
    ensures no_write { IsErrOf result Stop.Write → ⊥ }
{
    let mut session = match Session::new(alloc, without_frames(mode), target) {
        Ok(session) => session,
        Err(stop) => return Err(stop),
    };
    let mut sink = NoSink;
    match session.feed(bytes, &mut sink) {
        Ok(()) => session.finish(&mut sink),
        Err(stop) => Err(stop),
    }
}
