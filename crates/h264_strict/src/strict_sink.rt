//! A sink whose calls are judged by the further rules.
#![tactic(auto)]

ghost use Rattle.std.specs.Prelude.{◌≡◌, []};
ghost use Rattle.h264_strict.specs.Strict.{TookStrict};

use crate::strict::Strict;
use h264_base::{ElementName, Elements, Failed, SliceType};
use h264_dpb::{FrameOut, FrameSink, Rectangle};
use h264_plane::Frame;
use h264_units::NalUnitType;

/// Hands each call to the sink inside, whose answer it gives, and judges the further rules over the calls that it took.
#[derive(Drop)]
pub struct StrictSink<S: FrameSink + Drop> {
    pub sink: S,
    pub strict: Strict,
}

impl<S: FrameSink + Drop> StrictSink<S> {
    /// A sink round this one, before the first call.
    pub fn new(sink: S) -> StrictSink<S>
        ensures sink { result.sink ≡ sink }
        ensures strict { TookStrict result.strict [] }
    {
        StrictSink {
            sink,
            strict: Strict::new(),
        }
    }
}

impl<S: FrameSink + Drop> Elements for StrictSink<S> {
    ghost use Rattle.h264_strict.specs.Strict.{TookStrict};

    ghost took = { λ s calls. S.took s.sink calls × TookStrict s.strict calls };

    ghost failures = { λ s. S.failures s.sink };

    fn element(&mut self, name: ElementName, bit: u64, value: i64) -> Result<(), Failed> {
        self.sink.element(name, bit, value)?;
        self.strict.note_element(name, bit, value);
        Ok(())
    }
}

impl<S: FrameSink + Drop> FrameOut for StrictSink<S> {
    fn frame(&mut self, count: i32, frame: &Frame, rectangle: Rectangle) -> Result<(), Failed> {
        self.sink.frame(count, frame, rectangle)
    }
}

impl<S: FrameSink + Drop> FrameSink for StrictSink<S> {
    fn unit(
        &mut self,
        byte: u64,
        nal_unit_type: NalUnitType,
        nal_ref_idc: u8,
        length: u64,
    ) -> Result<(), Failed> {
        self.sink.unit(byte, nal_unit_type, nal_ref_idc, length)?;
        self.strict
            .note_unit(byte, nal_unit_type, nal_ref_idc, length);
        Ok(())
    }

    fn slice(
        &mut self,
        byte: u64,
        first_mb_in_slice: u32,
        slice_type: SliceType,
        frame_num: u32,
        count: i32,
    ) -> Result<(), Failed> {
        self.sink
            .slice(byte, first_mb_in_slice, slice_type, frame_num, count)?;
        self.strict
            .note_slice(byte, first_mb_in_slice, frame_num, count);
        Ok(())
    }

    fn note_places_taken(&mut self, places: usize) {
        self.sink.note_places_taken(places);
    }
}
