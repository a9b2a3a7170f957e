//! A sink that writes YUV4MPEG2.
#![tactic(auto)]

ghost use Rattle.std.specs.Prelude.{◌≡◌, ◌+◌, ◌-◌, ◌<◌, ◌++◌, ◌^◌, ◌||◌, IsTrue, true, false, nat_lt, None, Some, OnOk, OnErr, string_bytes};
ghost use Rattle.h264_dpb.specs.Shown.{fits, width_in, height_in};
ghost use Rattle.h264_lines.specs.Frames.{shown_bytes};
ghost use Rattle.h264_lines.specs.Sent.{Sends, SendsFront, SendsOrBreaksOff, IsBlamed};
ghost use Rattle.h264_lines.specs.Told.{ended};
ghost use Rattle.h264_lines.specs.Y4m.{aspect_text, head_text, framed};

use crate::device::Device;
use crate::frames::send_frame;
use crate::head::{Aspect, Head};
use crate::rows::{height, width};
use crate::send::send;
use crate::sheet::{Pen, Sheet};
use h264_base::{ElementName, Elements, Failed, SliceType};
use h264_dpb::{FrameOut, FrameSink, Rectangle};
use h264_plane::Frame;
use h264_units::NalUnitType;
use std::alloc::{AllocError, Global};
use std::marker::PhantomData;

/// Frames a second of a stream without timing.
const USUAL_RATE: u64 = 25;

/// What the last sequence parameter set says of how its pictures are shown; zeros where it says nothing.
#[derive(Clone, Copy, Default)]
struct Showing {
    num_units_in_tick: u64,
    time_scale: u64,
    aspect_ratio_idc: u64,
    sar_width: u64,
    sar_height: u64,
}

impl Showing {
    /// Notes an element.
    fn note(&mut self, name: ElementName, value: u64) {
        match name {
            ElementName::ProfileIdc => *self = Showing::default(),
            ElementName::NumUnitsInTick => self.num_units_in_tick = value,
            ElementName::TimeScale => self.time_scale = value,
            ElementName::AspectRatioIdc => self.aspect_ratio_idc = value,
            ElementName::SarWidth => self.sar_width = value,
            ElementName::SarHeight => self.sar_height = value,
            _ => {}
        }
    }

    /// So many frames in so many seconds.
    fn rate(self) -> (u64, u64) {
        if self.num_units_in_tick == 0 || self.time_scale == 0 {
            return (USUAL_RATE, 1);
        }
        (self.time_scale, self.num_units_in_tick.saturating_mul(2))
    }

    /// The shape of a sample, where it is given.
    fn aspect(self) -> Option<Aspect> {
        Aspect::of(self.aspect_ratio_idc, self.sar_width, self.sar_height)
    }
}

/// Writes YUV4MPEG2: a header with size, rate and shape of a sample before the first frame; for each frame the line FRAME, and the samples as `YuvSink`
/// writes them.
///
/// A writer that tells its bytes holds, after what it held, the header and the frames taken, in order. Where the device fails within a frame or the
/// header before it, the frame is taken, and the writer holds a part of them, which is not the whole. A frame of another size than the first one fails,
/// since no second header is possible, and so does the first one where memory is wanting for the header. Nothing is written of them. Then each call
/// fails, and nothing more is written.
#[derive(Drop)]
pub struct Y4mSink<'a, W: Device, K: Sheet> {
    pen: Pen<'a, W>,
    sheet: PhantomData<K>,
    line: String,
    showing: Showing,
    /// The header, once the first frame was taken.
    head: Option<Head>,
    /// The header that a frame of another size would have.
    other: Option<Head>,
    /// How many calls failed.
    pub failures: u64,
    /// Whether the device failed within the newest frame or the header before it.
    broke_off: bool,
}

/// Adds the shape of a sample to a header, where it is known. AllocError where there is no memory for it; a part of it may have been added.
fn put_aspect(line: &mut String, aspect: Option<Aspect>) -> Result<(), AllocError>
    ensures { OnOk result (string_bytes line.new ≡ string_bytes line.old ++ aspect_text aspect) }
{
    if let Some(Aspect { width, height }) = aspect {
        write!(line, " A{width}:{height}")?;
    }
    Ok(())
}

/// Makes a line that of a header. AllocError where there is no memory for it; the line is then a part of it.
fn head_line(line: &mut String, head: Head) -> Result<(), AllocError>
    ensures { OnOk result (string_bytes line.new ≡ head_text head) }
{
    let width = head.width;
    let height = head.height;
    let frames = head.frames;
    let seconds = head.seconds;
    line.clear();
    write!(line, "YUV4MPEG2 W{width} H{height} F{frames}:{seconds} Ip")?;
    put_aspect(line, head.aspect)?;
    line.push_str(" C420")
}

/// Writes the line FRAME and what is shown of a frame.
///
/// Failed: the device failed, and it was sent a part of them, which is not the whole.
fn send_framed<W: Device>(out: &mut W, frame: &Frame, rectangle: Rectangle) -> Result<(), Failed>
    requires { IsTrue (fits rectangle frame.now) }
    ensures ok { OnOk result (Sends (W.contents out.old) (W.contents out.new) (framed (shown_bytes frame.now rectangle))) }
    ensures front { OnErr result (SendsFront (W.contents out.old) (W.contents out.new) (framed (shown_bytes frame.now rectangle))) }
    ensures quiet { OnOk result (W.has_failed out.new ≡ W.has_failed out.old) }
    ensures failed { OnErr result (W.has_failed out.new ≡ true) }
{
    match send(out, b"FRAME\n") {
        Ok(()) => send_frame(out, frame, rectangle),
        Err(Failed) => Err(Failed),
    }
}

/// Writes a line with its end, and a frame with its line.
///
/// Failed: the device failed, and it was sent a part of them, which is not the whole.
fn send_first<W: Device>(
    out: &mut W,
    line: &str,
    frame: &Frame,
    rectangle: Rectangle,
) -> Result<(), Failed>
    requires { IsTrue (fits rectangle frame.now) }
    ensures ok { OnOk result (Sends (W.contents out.old) (W.contents out.new) (ended line.now ++ framed (shown_bytes frame.now rectangle))) }
    ensures front { OnErr result (SendsFront (W.contents out.old) (W.contents out.new) (ended line.now ++ framed (shown_bytes frame.now rectangle))) }
    ensures quiet { OnOk result (W.has_failed out.new ≡ W.has_failed out.old) }
    ensures failed { OnErr result (W.has_failed out.new ≡ true) }
{
    match send_line(out, line) {
        Ok(()) => send_framed(out, frame, rectangle),
        Err(Failed) => Err(Failed),
    }
}

/// Writes a line with its end.
///
/// Failed: the device failed, and it was sent a part of them, which is not the whole.
fn send_line<W: Device>(out: &mut W, line: &str) -> Result<(), Failed>
    ensures ok { OnOk result (Sends (W.contents out.old) (W.contents out.new) (ended line.now)) }
    ensures front { OnErr result (SendsFront (W.contents out.old) (W.contents out.new) (ended line.now)) }
    ensures quiet { OnOk result (W.has_failed out.new ≡ W.has_failed out.old) }
    ensures failed { OnErr result (W.has_failed out.new ≡ true) }
{
    match send(out, line.as_bytes()) {
        Ok(()) => send(out, b"\n"),
        Err(Failed) => Err(Failed),
    }
}

impl<'a, W: Device, K: Sheet> Y4mSink<'a, W, K> {
    /// A sink that was told nothing, with no failure.
    pub fn new(alloc: Global, pen: Pen<'a, W>) -> Y4mSink<'a, W, K>
        ensures quiet { result.failures ≡ 0 }
        ensures whole { result.broke_off ≡ false }
        ensures same_reference { result.pen.out.ghost_name ≡ pen.entry.out.ghost_name }
        ensures unwritten { result.pen.out.now ≡ pen.entry.out.now }
        ensures headless { result.head ≡ None }
    {
        Y4mSink {
            pen,
            sheet: PhantomData,
            line: String::new(alloc),
            showing: Showing::default(),
            head: None,
            other: None,
            failures: 0,
            broke_off: false,
        }
    }

    /// The header of the first frame, and that of a frame of another size, which was refused.
    pub fn changed_size(&self) -> Option<(Head, Head)> {
        match (self.head, self.other) {
            (Some(head), Some(other)) => Some((head, other)),
            _ => None,
        }
    }

    /// Whether the newest frame could not be written: the device failed, or the frame has another size. Where it could, a call that failed did so for
    /// want of memory.
    pub fn broke_off(&self) -> bool {
        self.broke_off || self.other.is_some()
    }

    /// Gives the pen back.
    pub fn into_pen(self) -> Pen<'a, W>
        ensures same_reference { result.out.ghost_name ≡ self.entry.pen.out.ghost_name }
        ensures kept { result.out.now ≡ self.entry.pen.out.now }
    {
        let Y4mSink { pen, .. } = self;
        pen
    }

    /// Whether no more is written.
    fn is_stopped(&self) -> bool
        ensures stopped { result ≡ (self.now.broke_off || nat_lt 0 self.now.failures) }
        ensures whole { result ≡ false → self.now.broke_off ≡ false }
    {
        self.broke_off || self.failures > 0
    }

    /// Counts a failure, at which nothing is written.
    fn fail(&mut self) -> Result<(), Failed>
        requires { self.old.failures < 2 ^ 64 - 1 }
        ensures err { OnOk result ⊥ }
        ensures others { self.new ≡ record self.old { failures = self.old.failures + 1 } }
    {
        self.failures += 1;
        Err(Failed)
    }

    /// The header of a frame, with the rate and the shape of a sample that are known now.
    fn head_for(&self, frame: &Frame, rectangle: Rectangle) -> Head
        requires { IsTrue (fits rectangle frame.now) }
        ensures width { result.width ≡ width_in rectangle frame.now }
        ensures height { result.height ≡ height_in rectangle frame.now }
    {
        let (frames, seconds) = self.showing.rate();
        Head {
            width: width(frame, rectangle),
            height: height(frame, rectangle),
            frames,
            seconds,
            aspect: self.showing.aspect(),
        }
    }

    /// Writes the first frame, after its header.
    ///
    /// Failed: there is no memory for the header, and nothing is written.
    fn put_first(&mut self, head: Head, frame: &Frame, rectangle: Rectangle) -> Result<(), Failed>
        requires inside { IsTrue (fits rectangle frame.now) }
        requires whole { self.old.broke_off ≡ false }
        requires room { self.old.failures < 2 ^ 64 - 1 }
        ensures same_reference { self.new.pen.out.ghost_name ≡ self.old.pen.out.ghost_name }
        ensures kept { OnOk result (self.new.failures ≡ self.old.failures) }
        ensures failed { OnErr result (self.new.failures ≡ self.old.failures + 1) }
        ensures headed { OnOk result (self.new.head ≡ Some head) }
        ensures ok { OnOk result (SendsOrBreaksOff self.new.broke_off (W.contents self.old.pen.out.now) (W.contents self.new.pen.out.now)
            (ended (head_text head) ++ framed (shown_bytes frame.now rectangle))) }
        ensures blamed { OnOk result (IsBlamed self.new.broke_off (W.has_failed self.old.pen.out.now) (W.has_failed self.new.pen.out.now)) }
        ensures unsent { OnErr result ((self.new.head ≡ self.old.head) × (self.new.broke_off ≡ self.old.broke_off)
            × (self.new.pen.out.now ≡ self.old.pen.out.now)) }
    {
        if head_line(&mut self.line, head).is_err() {
            return self.fail();
        }
        self.head = Some(head);
        match send_first(self.pen.out, self.line.as_str(), frame, rectangle) {
            Ok(()) => Ok(()),
            Err(Failed) => {
                self.broke_off = true;
                Ok(())
            }
        }
    }
}

impl<'a, W: Device, K: Sheet> Elements for Y4mSink<'a, W, K> {
    ghost use Rattle.h264_lines.specs.Sent.{lent};
    ghost use Rattle.h264_lines.specs.Y4m.{TookY4m};

    ghost took = { λ s calls. TookY4m (lent K.name K.start K.was_failed) s.head s.broke_off
        (lent s.pen.out.ghost_name (W.contents s.pen.out.now) (W.has_failed s.pen.out.now)) calls };

    ghost failures = { λ s. s.failures };

    fn element(&mut self, name: ElementName, _bit: u64, value: i64) -> Result<(), Failed> {
        if self.is_stopped() {
            return self.fail();
        }
        let value = u64::try_from(value).unwrap_or(0);
        self.showing.note(name, value);
        Ok(())
    }
}

impl<'a, W: Device, K: Sheet> FrameOut for Y4mSink<'a, W, K> {
    fn frame(&mut self, _count: i32, frame: &Frame, rectangle: Rectangle) -> Result<(), Failed> {
        if self.is_stopped() {
            return self.fail();
        }
        let head = self.head_for(frame, rectangle);
        let Some(first) = self.head else {
            return self.put_first(head, frame, rectangle);
        };
        if !first.has_size_of(head) {
            self.other = Some(head);
            return self.fail();
        }
        match send_framed(self.pen.out, frame, rectangle) {
            Ok(()) => Ok(()),
            Err(Failed) => {
                self.broke_off = true;
                Ok(())
            }
        }
    }
}

impl<'a, W: Device, K: Sheet> FrameSink for Y4mSink<'a, W, K> {
    fn unit(
        &mut self,
        _byte: u64,
        _nal_unit_type: NalUnitType,
        _nal_ref_idc: u8,
        _length: u64,
    ) -> Result<(), Failed> {
        if self.is_stopped() {
            return self.fail();
        }
        Ok(())
    }

    fn slice(
        &mut self,
        _byte: u64,
        _first_mb_in_slice: u32,
        _slice_type: SliceType,
        _frame_num: u32,
        _count: i32,
    ) -> Result<(), Failed> {
        if self.is_stopped() {
            return self.fail();
        }
        Ok(())
    }
}
