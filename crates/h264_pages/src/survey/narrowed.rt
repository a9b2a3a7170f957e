//! A sink that is told one picture or one macroblock alone.
#![tactic(auto)]

ghost use Rattle.std.specs.Prelude.{◌≡◌, ℕ, ◌+◌, ◌-◌, ◌<◌, ◌^◌, OnOk, OnErr};
ghost use Rattle.std.specs.Prelude.{[], false, None};
ghost use Rattle.h264_base.specs.Call.{HasRoom, IsQuiet, Tells};
ghost use Rattle.h264_lines.specs.Chosen.{held, pending_call, is_chosen, TookChosen, after_element, at_first};
ghost use Rattle.h264_pages.specs.Surveyed.{HasSurveyed};

use crate::survey::notes::Survey;
use h264_base::{ElementName, Elements, Failed, SliceType};
use h264_dpb::{FrameOut, FrameSink, Rectangle};
use h264_lines::choice::Choice;
use h264_lines::lines::UnitCall;
use h264_lines::reading::Reading;
use h264_lines::sheet::Sheet;
use h264_plane::Frame;
use h264_units::NalUnitType;
use std::marker::PhantomData;

/// Hands to the sink inside what is chosen of the elements, each unit of them before the first, and no frames; and notes each call in a survey unless it was
/// refused. Once the sink inside failed, each call fails, and it is told nothing more.
#[derive(Drop)]
pub struct Narrowed<S: FrameSink + Drop, K: Sheet> {
    pub sink: S,
    sheet: PhantomData<K>,
    pub survey: Survey,
    pub reading: Reading,
    pub choice: Choice,
    /// The unit whose elements come, until the first is handed on.
    pub pending: Option<UnitCall>,
    /// Whether the sink inside has failed.
    pub broke_off: bool,
    /// How many calls failed since then.
    pub failures: u64,
}

impl<S: FrameSink + Drop, K: Sheet> Narrowed<S, K> {
    /// A sink that was told nothing, round this one.
    pub fn new(sink: S, survey: Survey, choice: Choice) -> Narrowed<S, K>
        ensures quiet { result.failures + S.failures result.sink ≡ S.failures sink }
        ensures sink { result.sink ≡ sink }
        ensures survey { result.survey ≡ survey }
        ensures choice { result.choice ≡ choice }
        ensures reading { result.reading ≡ at_first.reading }
        ensures pending { result.pending ≡ None }
        ensures whole { result.broke_off ≡ false }
        ensures took { S.took sink [] → TookChosen S.took result.choice result.broke_off
            (record { reading = result.reading; pending = pending_call result.pending }) result.sink [] }
    {
        Narrowed {
            sink,
            sheet: PhantomData,
            survey,
            reading: Reading::new(),
            choice,
            pending: None,
            broke_off: false,
            failures: 0,
        }
    }

    /// Counts a call that fails since the sink inside has failed.
    fn fail(&mut self) -> Result<(), Failed>
        requires { self.old.failures < 2 ^ 64 - 1 }
        ensures err { OnOk result ⊥ }
        ensures others { self.new ≡ record self.old { failures = self.old.failures + 1 } }
    {
        self.failures += 1;
        Err(Failed)
    }
}

/// Hands a unit to a sink, where there is one.
fn put_pending<S: FrameSink>(sink: &mut S, pending: Option<UnitCall>) -> Result<(), Failed>
    requires { HasRoom S.failures sink.old }
    ensures ok { OnOk result (Tells S.took sink.old sink.new (held (pending_call pending))) }
    ensures kept { OnOk result (IsQuiet S.failures sink.old sink.new) }
    ensures refused { OnErr result (Tells S.took sink.old sink.new []) }
    ensures failed { OnErr result (S.failures sink.new ≡ S.failures sink.old + 1) }
{
    match pending {
        Some(unit) => sink.unit(unit.byte, unit.nal_unit_type, unit.nal_ref_idc, unit.length),
        None => Ok(()),
    }
}

impl<S: FrameSink + Drop, K: Sheet> Elements for Narrowed<S, K> {
    ghost took = { λ s calls. (s.choice ≡ K.choice) × TookChosen S.took s.choice s.broke_off
        (record { reading = s.reading; pending = pending_call s.pending }) s.sink calls × HasSurveyed s.survey calls };

    ghost failures = { λ s. s.failures + S.failures s.sink };

    fn element(&mut self, name: ElementName, bit: u64, value: i64) -> Result<(), Failed> {
        if self.broke_off {
            return self.fail();
        }
        self.reading.note_element(name, value);
        if !self.choice.is_chosen(self.reading) {
            self.survey.note_element(name, bit, value);
            return Ok(());
        }
        match put_pending(&mut self.sink, self.pending) {
            Ok(()) => {}
            Err(Failed) => {
                self.broke_off = true;
                return Err(Failed);
            }
        }
        self.pending = None;
        match self.sink.element(name, bit, value) {
            Ok(()) => {
                self.survey.note_element(name, bit, value);
                Ok(())
            }
            Err(Failed) => {
                self.broke_off = true;
                Err(Failed)
            }
        }
    }
}

impl<S: FrameSink + Drop, K: Sheet> FrameOut for Narrowed<S, K> {
    fn frame(&mut self, _count: i32, _frame: &Frame, _rectangle: Rectangle) -> Result<(), Failed> {
        if self.broke_off {
            return self.fail();
        }
        self.survey.note_frame();
        Ok(())
    }
}

impl<S: FrameSink + Drop, K: Sheet> FrameSink for Narrowed<S, K> {
    fn unit(
        &mut self,
        byte: u64,
        nal_unit_type: NalUnitType,
        nal_ref_idc: u8,
        length: u64,
    ) -> Result<(), Failed> {
        if self.broke_off {
            return self.fail();
        }
        self.survey
            .note_unit(byte, nal_unit_type, nal_ref_idc, length);
        self.reading.note_unit();
        self.pending = Some(UnitCall {
            byte,
            nal_unit_type,
            nal_ref_idc,
            length,
        });
        Ok(())
    }

    fn slice(
        &mut self,
        byte: u64,
        first_mb_in_slice: u32,
        slice_type: SliceType,
        frame_num: u32,
        count: i32,
    ) -> Result<(), Failed> {
        if self.broke_off {
            return self.fail();
        }
        if self.pending.is_some() {
            return Ok(());
        }
        if !self.choice.is_chosen(self.reading) {
            return Ok(());
        }
        match self
            .sink
            .slice(byte, first_mb_in_slice, slice_type, frame_num, count)
        {
            Ok(()) => Ok(()),
            Err(Failed) => {
                self.broke_off = true;
                Err(Failed)
            }
        }
    }
}
