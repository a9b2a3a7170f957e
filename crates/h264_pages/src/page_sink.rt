//! A sink that keeps pictures of frames for a page.
#![tactic(auto)]

ghost use Rattle.std.specs.Prelude.{◌≡◌};

use crate::pages::album::Album;
use h264_base::{ElementName, Elements, Failed, SliceType};
use h264_dpb::{FrameOut, FrameSink, Rectangle};
use h264_plane::Frame;
use h264_units::NalUnitType;

/// Keeps pictures of the first and the last frames, and hands each call to the sink inside, whose answer it gives.
#[derive(Drop)]
pub struct PageSink<S: FrameSink + Drop> {
    pub sink: S,
    pub album: Album,
}

impl<S: FrameSink + Drop> Elements for PageSink<S> {
    ghost took = { λ s calls. S.took s.sink calls };

    ghost failures = { λ s. S.failures s.sink };

    fn element(&mut self, name: ElementName, bit: u64, value: i64) -> Result<(), Failed> {
        self.sink.element(name, bit, value)
    }
}

impl<S: FrameSink + Drop> FrameOut for PageSink<S> {
    fn frame(&mut self, count: i32, frame: &Frame, rectangle: Rectangle) -> Result<(), Failed> {
        self.album.take(frame, rectangle);
        self.sink.frame(count, frame, rectangle)
    }
}

impl<S: FrameSink + Drop> FrameSink for PageSink<S> {
    fn unit(
        &mut self,
        byte: u64,
        nal_unit_type: NalUnitType,
        nal_ref_idc: u8,
        length: u64,
    ) -> Result<(), Failed> {
        self.sink.unit(byte, nal_unit_type, nal_ref_idc, length)
    }

    fn slice(
        &mut self,
        byte: u64,
        first_mb_in_slice: u32,
        slice_type: SliceType,
        frame_num: u32,
        count: i32,
    ) -> Result<(), Failed> {
        self.sink
            .slice(byte, first_mb_in_slice, slice_type, frame_num, count)
    }

    fn note_places_taken(&mut self, places: usize) {
        self.sink.note_places_taken(places);
    }
}
