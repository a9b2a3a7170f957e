//! A sink that writes lines.
#![tactic(auto)]

ghost use Rattle.std.specs.Prelude.{◌≡◌, ℕ, ◌+◌, ◌-◌, ◌<◌, ◌^◌, ◌||◌, false, nat_lt, List, OnOk, OnErr, string_bytes};
ghost use Rattle.h264_lines.specs.Objects.{opening_of};
ghost use Rattle.h264_lines.specs.Sent.{SendsOrBreaksOff, IsBlamed};
ghost use Rattle.h264_lines.specs.Told.{ended};

use crate::device::Device;
use crate::form::Form;
use crate::lines::{FrameCall, SliceCall, UnitCall};
use crate::listing::Listing;
use crate::objects::{put_element, put_frame, put_slice, put_unit};
use crate::send::send;
use crate::sheet::{Pen, Sheet};
use h264_base::{ElementName, Elements, Failed, SliceType};
use h264_dpb::{FrameOut, FrameSink, Rectangle};
use h264_plane::Frame;
use h264_units::NalUnitType;
use std::alloc::{AllocError, Global};
use std::marker::PhantomData;

/// Writes a line for each unit, slice, element or frame of a stream, as the listing says, and passes over all else. By its form a line is a text or an
/// object of JSON.
///
/// A writer that tells its bytes holds, after what it held, the lines of the calls taken, in order. Where the device fails within a line, its call is
/// taken, and the writer holds a part of the line, which is not the whole. Where memory is wanting for a line, its call fails, and nothing is written
/// of it. Then each call fails, and nothing more is written.
#[derive(Drop)]
pub struct LineSink<'a, 'b, W: Device, K: Sheet> {
    alloc: Global,
    pen: Pen<'a, W>,
    sheet: PhantomData<K>,
    form: Form<'b>,
    listing: Listing,
    /// How many calls failed.
    pub failures: u64,
    /// Whether the device failed within the newest line.
    broke_off: bool,
    /// How many frames were told.
    frames: u64,
    /// The newest line, in whose memory the next one is made.
    line: String,
}

impl<'a, 'b, W: Device, K: Sheet> LineSink<'a, 'b, W, K> {
    /// A sink that was told nothing, with no failure.
    pub fn new(
        alloc: Global,
        listing: Listing,
        form: Form<'b>,
        pen: Pen<'a, W>,
    ) -> LineSink<'a, 'b, W, K>
        ensures quiet { result.failures ≡ 0 }
        ensures same_reference { result.pen.out.ghost_name ≡ pen.entry.out.ghost_name }
        ensures unwritten { result.pen.out.now ≡ pen.entry.out.now }
        ensures form { result.form ≡ form.entry }
        ensures listing { result.listing ≡ listing }
        ensures frames { result.frames ≡ 0 }
        ensures whole { result.broke_off ≡ false }
    {
        LineSink {
            alloc,
            pen,
            sheet: PhantomData,
            form,
            listing,
            failures: 0,
            broke_off: false,
            frames: 0,
            line: String::new(alloc),
        }
    }

    /// Whether the device failed within the newest line. Where it did not, a call that failed did so for want of memory.
    pub fn broke_off(&self) -> bool
        ensures { result ≡ self.now.broke_off }
    {
        self.broke_off
    }

    /// Whether no more lines are written.
    fn is_stopped(&self) -> bool
        ensures stopped { result ≡ (self.now.broke_off || nat_lt 0 self.now.failures) }
        ensures whole { result ≡ false → self.now.broke_off ≡ false }
    {
        self.broke_off || self.failures > 0
    }

    /// Gives the pen back.
    pub fn into_pen(self) -> Pen<'a, W>
        ensures same_reference { result.out.ghost_name ≡ self.entry.pen.out.ghost_name }
        ensures kept { result.out.now ≡ self.entry.pen.out.now }
    {
        let LineSink { pen, .. } = self;
        pen
    }

    /// Counts a failure, at which nothing is written.
    fn fail(&mut self) -> Result<(), Failed>
        requires { self.old.failures < 2 ^ 64 - 1 }
        ensures err { OnOk result ⊥ }
        ensures others { self.new ≡ record self.old { failures = self.old.failures + 1 } }
    {
        self.failures += 1;
        Err(Failed)
    }

    /// Writes the line that was made, and its end, where there was memory for them.
    fn put_line(&mut self, made: Result<(), AllocError>) -> Result<(), Failed>
        requires whole { self.old.broke_off ≡ false }
        requires room { self.old.failures < 2 ^ 64 - 1 }
        ensures kept { OnOk result (self.new.failures ≡ self.old.failures) }
        ensures failed { OnErr result (self.new.failures ≡ self.old.failures + 1) }
        ensures form { self.new.form ≡ self.old.form }
        ensures listing { self.new.listing ≡ self.old.listing }
        ensures frames { self.new.frames ≡ self.old.frames }
        ensures same_reference { self.new.pen.out.ghost_name ≡ self.old.pen.out.ghost_name }
        ensures ok { (text : List ℕ) → OnOk made (string_bytes self.old.line ≡ text) →
            OnOk result (SendsOrBreaksOff self.new.broke_off (W.contents self.old.pen.out.now) (W.contents self.new.pen.out.now) (ended text)) }
        ensures blamed { OnOk result (IsBlamed self.new.broke_off (W.has_failed self.old.pen.out.now) (W.has_failed self.new.pen.out.now)) }
        ensures unsent { OnErr result ((self.new.broke_off ≡ self.old.broke_off) × (self.new.pen.out.now ≡ self.old.pen.out.now)) }
    {
        if made.is_err() || self.line.push('\n').is_err() {
            return self.fail();
        }
        match send(self.pen.out, self.line.as_bytes()) {
            Ok(()) => Ok(()),
            Err(Failed) => {
                self.broke_off = true;
                Ok(())
            }
        }
    }
}

impl<'a, 'b, W: Device, K: Sheet> LineSink<'a, 'b, W, K> {
    ghost use Rattle.std.specs.Prelude.{◌≡◌, ℕ, ◌+◌, ◌-◌, ◌<◌, ◌^◌, false, List, [], ◌∷◌, ◌++◌, IsTrue, OnOk, OnErr};
    ghost use Rattle.h264_base.specs.Call.{Call, OfUnit, OfSlice, OfElement};
    ghost use Rattle.h264_dpb.specs.Shown.{fits, frame_call};
    ghost use Rattle.h264_lines.specs.Objects.{unit_in, slice_in};
    ghost use Rattle.h264_units.specs.UnitTypes.{type_number};
    ghost use Rattle.h264_lines.specs.Sent.{LentWriter};
    ghost use Rattle.h264_lines.specs.Told.{HoldsLines, line_state, line_of, counted};
    ghost use Rattle.h264_lines.specs.declared.listing.Listing.TheVariants as listings;

    /// Writes the line of a unit.
    fn put_unit(
        &mut self,
        byte: u64,
        nal_unit_type: NalUnitType,
        nal_ref_idc: u8,
        length: u64,
    ) -> Result<(), Failed>
        requires line { (n : ℕ) → line_of (opening_of self.old.form) self.old.listing n (OfUnit byte (type_number nal_unit_type) nal_ref_idc length) ≡ ended
            (unit_in (opening_of self.old.form) byte (type_number nal_unit_type) nal_ref_idc length) }
        requires uncounted { counted self.old.listing (OfUnit byte (type_number nal_unit_type) nal_ref_idc length) ≡ 0 }
        requires whole { self.old.broke_off ≡ false }
        requires room { self.old.failures < 2 ^ 64 - 1 }
        ensures form { self.new.form ≡ self.old.form }
        ensures listing { self.new.listing ≡ self.old.listing }
        ensures same_reference { self.new.pen.out.ghost_name ≡ self.old.pen.out.ghost_name }
        ensures ok { (start : LentWriter) (before : List Call) → HoldsLines start (line_state W.contents W.has_failed self.old) before →
            OnOk result (HoldsLines start (line_state W.contents W.has_failed self.new)
            (before ++ OfUnit byte (type_number nal_unit_type) nal_ref_idc length ∷ [])) }
        ensures refused { (start : LentWriter) (before : List Call) → HoldsLines start (line_state W.contents W.has_failed self.old) before →
            OnErr result (HoldsLines start (line_state W.contents W.has_failed self.new) before) }
        ensures kept { OnOk result (self.new.failures ≡ self.old.failures) }
        ensures failed { OnErr result (self.new.failures ≡ self.old.failures + 1) }
    {
        let unit = UnitCall {
            byte,
            nal_unit_type,
            nal_ref_idc,
            length,
        };
        let made = put_unit(&mut self.line, self.form, unit);
        self.put_line(made)
    }

    /// Writes the line of a slice.
    fn put_slice(
        &mut self,
        byte: u64,
        first_mb_in_slice: u32,
        slice_type: SliceType,
        frame_num: u32,
        count: i32,
    ) -> Result<(), Failed>
        requires line { (n : ℕ) → line_of (opening_of self.old.form) self.old.listing n (OfSlice byte first_mb_in_slice slice_type frame_num count) ≡ ended
            (slice_in (opening_of self.old.form) byte first_mb_in_slice slice_type frame_num count) }
        requires uncounted { counted self.old.listing (OfSlice byte first_mb_in_slice slice_type frame_num count) ≡ 0 }
        requires whole { self.old.broke_off ≡ false }
        requires room { self.old.failures < 2 ^ 64 - 1 }
        ensures form { self.new.form ≡ self.old.form }
        ensures listing { self.new.listing ≡ self.old.listing }
        ensures same_reference { self.new.pen.out.ghost_name ≡ self.old.pen.out.ghost_name }
        ensures ok { (start : LentWriter) (before : List Call) → HoldsLines start (line_state W.contents W.has_failed self.old) before →
            OnOk result (HoldsLines start (line_state W.contents W.has_failed self.new)
            (before ++ OfSlice byte first_mb_in_slice slice_type frame_num count ∷ [])) }
        ensures refused { (start : LentWriter) (before : List Call) → HoldsLines start (line_state W.contents W.has_failed self.old) before →
            OnErr result (HoldsLines start (line_state W.contents W.has_failed self.new) before) }
        ensures kept { OnOk result (self.new.failures ≡ self.old.failures) }
        ensures failed { OnErr result (self.new.failures ≡ self.old.failures + 1) }
    {
        let slice = SliceCall {
            byte,
            first_mb_in_slice,
            slice_type,
            frame_num,
        };
        let made = put_slice(&mut self.line, self.form, slice, count);
        self.put_line(made)
    }

    /// Writes the line of an element.
    fn put_element(&mut self, name: ElementName, bit: u64, value: i64) -> Result<(), Failed>
        requires listing { self.old.listing ≡ listings.Elements }
        requires whole { self.old.broke_off ≡ false }
        requires room { self.old.failures < 2 ^ 64 - 1 }
        ensures form { self.new.form ≡ self.old.form }
        ensures listing { self.new.listing ≡ self.old.listing }
        ensures same_reference { self.new.pen.out.ghost_name ≡ self.old.pen.out.ghost_name }
        ensures ok { (start : LentWriter) (before : List Call) → HoldsLines start (line_state W.contents W.has_failed self.old) before →
            OnOk result (HoldsLines start (line_state W.contents W.has_failed self.new) (before ++ OfElement name bit value ∷ [])) }
        ensures refused { (start : LentWriter) (before : List Call) → HoldsLines start (line_state W.contents W.has_failed self.old) before →
            OnErr result (HoldsLines start (line_state W.contents W.has_failed self.new) before) }
        ensures kept { OnOk result (self.new.failures ≡ self.old.failures) }
        ensures failed { OnErr result (self.new.failures ≡ self.old.failures + 1) }
    {
        let made = put_element(&mut self.line, self.form, name, bit, value);
        self.put_line(made)
    }

    /// Writes the line of a frame, if its index can be counted.
    fn put_frame(&mut self, count: i32, frame: &Frame, rectangle: Rectangle) -> Result<(), Failed>
        requires listing { self.old.listing ≡ listings.Frames }
        requires inside { IsTrue (fits rectangle frame.now) }
        requires whole { self.old.broke_off ≡ false }
        requires room { self.old.failures < 2 ^ 64 - 1 }
        ensures form { self.new.form ≡ self.old.form }
        ensures listing { self.new.listing ≡ self.old.listing }
        ensures same_reference { self.new.pen.out.ghost_name ≡ self.old.pen.out.ghost_name }
        ensures ok { (start : LentWriter) (before : List Call) → HoldsLines start (line_state W.contents W.has_failed self.old) before →
            OnOk result (HoldsLines start (line_state W.contents W.has_failed self.new) (before ++ frame_call count frame.now rectangle ∷ [])) }
        ensures refused { (start : LentWriter) (before : List Call) → HoldsLines start (line_state W.contents W.has_failed self.old) before →
            OnErr result (HoldsLines start (line_state W.contents W.has_failed self.new) before) }
        ensures kept { OnOk result (self.new.failures ≡ self.old.failures) }
        ensures failed { OnErr result (self.new.failures ≡ self.old.failures + 1) }
    {
        if self.frames == u64::MAX {
            return self.fail();
        }
        let call = FrameCall {
            index: self.frames,
            frame,
            rectangle,
        };
        let made = put_frame(self.alloc, &mut self.line, self.form, call, count);
        match self.put_line(made) {
            Ok(()) => {
                self.frames += 1;
                Ok(())
            }
            Err(Failed) => Err(Failed),
        }
    }
}

impl<'a, 'b, W: Device, K: Sheet> Elements for LineSink<'a, 'b, W, K> {
    ghost use Rattle.h264_lines.specs.Sent.{lent};
    ghost use Rattle.h264_lines.specs.Told.{TookLines, line_state};

    ghost took = { λ s calls. TookLines (lent K.name K.start K.was_failed) K.opening K.listing (line_state W.contents W.has_failed s) calls };

    ghost failures = { λ s. s.failures };

    fn element(&mut self, name: ElementName, bit: u64, value: i64) -> Result<(), Failed> {
        if self.is_stopped() {
            return self.fail();
        }
        match self.listing {
            Listing::Elements => self.put_element(name, bit, value),
            Listing::Nothing => Ok(()),
            Listing::Units => Ok(()),
            Listing::Slices => Ok(()),
            Listing::Frames => Ok(()),
        }
    }
}

impl<'a, 'b, W: Device, K: Sheet> FrameOut for LineSink<'a, 'b, W, K> {
    fn frame(&mut self, count: i32, frame: &Frame, rectangle: Rectangle) -> Result<(), Failed> {
        if self.is_stopped() {
            return self.fail();
        }
        match self.listing {
            Listing::Frames => self.put_frame(count, frame, rectangle),
            Listing::Nothing => Ok(()),
            Listing::Units => Ok(()),
            Listing::Slices => Ok(()),
            Listing::Elements => Ok(()),
        }
    }
}

impl<'a, 'b, W: Device, K: Sheet> FrameSink for LineSink<'a, 'b, W, K> {
    fn unit(
        &mut self,
        byte: u64,
        nal_unit_type: NalUnitType,
        nal_ref_idc: u8,
        length: u64,
    ) -> Result<(), Failed> {
        if self.is_stopped() {
            return self.fail();
        }
        match self.listing {
            Listing::Units => self.put_unit(byte, nal_unit_type, nal_ref_idc, length),
            Listing::Elements => self.put_unit(byte, nal_unit_type, nal_ref_idc, length),
            Listing::Nothing => Ok(()),
            Listing::Slices => Ok(()),
            Listing::Frames => Ok(()),
        }
    }

    fn slice(
        &mut self,
        byte: u64,
        first_mb_in_slice: u32,
        slice_type: SliceType,
        frame_num: u32,
        count: i32,
    ) -> Result<(), Failed> {
        if self.is_stopped() {
            return self.fail();
        }
        match self.listing {
            Listing::Slices => {
                self.put_slice(byte, first_mb_in_slice, slice_type, frame_num, count)
            }
            Listing::Elements => {
                self.put_slice(byte, first_mb_in_slice, slice_type, frame_num, count)
            }
            Listing::Nothing => Ok(()),
            Listing::Units => Ok(()),
            Listing::Frames => Ok(()),
        }
    }
}
