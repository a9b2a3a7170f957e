//! A sink whose calls are surveyed.
#![tactic(auto)]

ghost use Rattle.std.specs.Prelude.{◌≡◌, false, []};
ghost use Rattle.h264_base.specs.Call.{Tells, IsQuiet};
ghost use Rattle.h264_pages.specs.SurveyedPictures.{places_after};
ghost use Rattle.h264_pages.specs.SurveyedCalls.{TookSurveyed};

use crate::survey::meter::Meter;
use crate::survey::notes::Survey;
use h264_base::{ElementName, Elements, Failed, SliceType};
use h264_dpb::{FrameOut, FrameSink, Rectangle};
use h264_plane::Frame;
use h264_units::NalUnitType;

/// Hands each call to the sink inside, whose answer it gives, and notes it in a survey unless it was refused.
#[derive(Drop)]
pub struct Surveyed<S: FrameSink + Drop, M: Meter + Drop> {
    pub sink: S,
    pub survey: Survey,
    pub meter: M,
}

impl<S: FrameSink + Drop, M: Meter + Drop> Elements for Surveyed<S, M> {
    ghost took = { TookSurveyed S.took };

    ghost failures = { λ s. S.failures s.sink };

    fn element(&mut self, name: ElementName, bit: u64, value: i64) -> Result<(), Failed> {
        self.sink.element(name, bit, value)?;
        self.survey.note_element(name, bit, value);
        Ok(())
    }
}

impl<S: FrameSink + Drop, M: Meter + Drop> FrameOut for Surveyed<S, M> {
    fn frame(&mut self, count: i32, frame: &Frame, rectangle: Rectangle) -> Result<(), Failed> {
        self.sink.frame(count, frame, rectangle)?;
        self.survey.note_frame();
        Ok(())
    }
}

impl<S: FrameSink + Drop, M: Meter + Drop> FrameSink for Surveyed<S, M> {
    fn unit(
        &mut self,
        byte: u64,
        nal_unit_type: NalUnitType,
        nal_ref_idc: u8,
        length: u64,
    ) -> Result<(), Failed> {
        self.meter.note(byte, self.survey.picture_count());
        self.sink.unit(byte, nal_unit_type, nal_ref_idc, length)?;
        self.survey
            .note_unit(byte, nal_unit_type, nal_ref_idc, length);
        Ok(())
    }

    fn slice(
        &mut self,
        byte: u64,
        first_mb_in_slice: u32,
        slice_type: SliceType,
        frame_num: u32,
        count: i32,
    ) -> Result<(), Failed> {
        self.sink
            .slice(byte, first_mb_in_slice, slice_type, frame_num, count)
    }

    fn note_places_taken(&mut self, places: usize)
        ensures same { Tells (TookSurveyed S.took) self.old self.new [] }
        ensures quiet { IsQuiet S.failures self.old.sink self.new.sink }
        ensures places { self.new.survey.pictures.is_short ≡ false → self.new.survey.pictures.places_taken.items ≡
            places_after places self.old.survey.pictures.list.items self.old.survey.pictures.places_taken.items }
    {
        self.survey.note_places_taken(places as u64);
        self.sink.note_places_taken(places);
    }
}
