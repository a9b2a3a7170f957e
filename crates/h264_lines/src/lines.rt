//! The texts of the lines.
#![tactic(auto)]

ghost use Rattle.std.specs.Prelude.{◌≡◌, ◌++◌, IfOk, IsTrue, OnOk, string_bytes};
ghost use Rattle.h264_dpb.specs.Shown.{fits, width_in, height_in};
ghost use Rattle.h264_lines.specs.Frames.{shown_bytes};
ghost use Rattle.h264_units.specs.UnitTypes.{type_number};
ghost use Rattle.h264_lines.specs.Lines.{unit_text, type_text, slice_text, frame_text, element_text, yes_text, no_text, outside_text, verdict_text};

use crate::frames::digest;
use crate::rows::{height, width};
use h264_base::{ElementName, Feature, Mode, Rule, SliceType, Stop, Summary};
use h264_dpb::Rectangle;
use h264_plane::Frame;
use h264_units::NalUnitType;
use std::alloc::{AllocError, Global};

/// A unit: the byte of the input where it begins, its nal_unit_type and nal_ref_idc, and its length in bytes.
#[derive(Clone, Copy)]
pub struct UnitCall {
    pub byte: u64,
    pub nal_unit_type: NalUnitType,
    pub nal_ref_idc: u8,
    pub length: u64,
}

/// A slice: the byte of the input where its unit begins, first_mb_in_slice, its type, and frame_num.
#[derive(Clone, Copy)]
pub struct SliceCall {
    pub byte: u64,
    pub first_mb_in_slice: u32,
    pub slice_type: SliceType,
    pub frame_num: u32,
}

/// A frame that is output: its index in the order of output, its samples, and what is shown of them.
#[derive(Clone, Copy)]
pub struct FrameCall<'a> {
    pub index: u64,
    pub frame: &'a Frame,
    pub rectangle: Rectangle,
}

/// Makes a line that of a unit, with this text before it. AllocError where there is no memory for it; the line is then a part of it.
pub fn unit_line(line: &mut String, prefix: &str, unit: UnitCall) -> Result<(), AllocError>
    ensures { OnOk result (string_bytes line.new ≡ prefix.now ++ unit_text unit.byte (type_number unit.nal_unit_type) unit.nal_ref_idc unit.length) }
{
    let UnitCall {
        byte,
        nal_unit_type,
        nal_ref_idc,
        length,
    } = unit;
    let number = nal_unit_type.number();
    line.clear();
    write!(
        line,
        "{prefix}unit {byte} type {number} ref {nal_ref_idc} bytes {length}"
    )?;
    Ok(())
}

/// The letter of a slice's type.
pub(crate) fn type_text(slice_type: SliceType) -> &'static str
    ensures { result.now ≡ type_text slice_type }
{
    match slice_type {
        SliceType::P => "P",
        SliceType::I => "I",
    }
}

/// Makes a line that of a slice and the picture order count of its frame, with this text before it. AllocError where there is no memory for it; the
/// line is then a part of it.
pub fn slice_line(
    line: &mut String,
    prefix: &str,
    slice: SliceCall,
    count: i32,
) -> Result<(), AllocError>
    ensures { OnOk result (string_bytes line.new ≡ prefix.now ++ slice_text slice.byte slice.first_mb_in_slice slice.slice_type slice.frame_num count) }
{
    let SliceCall {
        byte,
        first_mb_in_slice,
        slice_type,
        frame_num,
    } = slice;
    let kind = type_text(slice_type);
    line.clear();
    write!(
        line,
        "{prefix}slice {byte} mb {first_mb_in_slice} type {kind} frame {frame_num} count {count}"
    )?;
    Ok(())
}

/// Makes a line that of a frame, with this text before it: its index in the order of output, its picture order count, the size of what is shown of it in
/// luma samples, and the MD5 digest of the samples that are shown, the rows of Y, then of Cb, then of Cr. AllocError where there is no memory for it;
/// the line is then a part of it.
pub fn frame_line(
    alloc: Global,
    line: &mut String,
    prefix: &str,
    call: FrameCall<'_>,
    count: i32,
) -> Result<(), AllocError>
    requires { IsTrue (fits call.rectangle call.frame.now) }
    ensures { OnOk result (string_bytes line.new ≡ prefix.now ++ frame_text call.entry.index count
        (width_in call.entry.rectangle call.entry.frame.now) (height_in call.entry.rectangle call.entry.frame.now)
        (shown_bytes call.entry.frame.now call.entry.rectangle)) }
{
    let FrameCall {
        index,
        frame,
        rectangle,
    } = call;
    let width = width(frame, rectangle);
    let height = height(frame, rectangle);
    let digits = hex::encode(alloc, digest(frame, rectangle))?;
    let digits = digits.as_str();
    line.clear();
    write!(
        line,
        "{prefix}frame {index} count {count} {width}x{height} md5 {digits}"
    )?;
    Ok(())
}

/// Makes a line that of a syntax element, with this text before it: its name, the stream bit where it begins, and its value. AllocError where there is
/// no memory for it; the line is then a part of it.
pub fn element_line(
    line: &mut String,
    prefix: &str,
    name: ElementName,
    bit: u64,
    value: i64,
) -> Result<(), AllocError>
    ensures { OnOk result (string_bytes line.new ≡ prefix.now ++ element_text name bit value) }
{
    let name = name.text();
    line.clear();
    write!(line, "{prefix}element {name} bit {bit} value {value}")?;
    Ok(())
}

/// The last line of a yes. AllocError: there is no memory for it.
fn yes_line(alloc: Global, mode: Mode, summary: Summary) -> Result<String, AllocError>
    ensures { IfOk result (λ s. string_bytes s ≡ yes_text mode summary) }
{
    let units = summary.units;
    let pictures = summary.pictures;
    let frames = summary.frames;
    match mode {
        Mode::Units => format!(in alloc; "yes: units {units}"),
        Mode::Headers => format!(in alloc; "yes: units {units} pictures {pictures}"),
        Mode::Verdict | Mode::Full => {
            format!(in alloc; "yes: units {units} pictures {pictures} frames {frames}")
        }
    }
}

/// The last line of a no. AllocError: there is no memory for it.
fn no_line(alloc: Global, bit: u64, rule: Rule) -> Result<String, AllocError>
    ensures { IfOk result (λ s. string_bytes s ≡ no_text bit rule) }
{
    let label = rule.label();
    let clause = rule.clause();
    format!(in alloc; "no: bit {bit}: {label} (clause {clause})")
}

/// The last line of an outside. AllocError: there is no memory for it.
fn outside_line(alloc: Global, bit: u64, feature: Feature) -> Result<String, AllocError>
    ensures { IfOk result (λ s. string_bytes s ≡ outside_text bit feature) }
{
    let text = feature.text();
    format!(in alloc; "outside: bit {bit}: {text}")
}

/// A line that is this text. AllocError: there is no memory for it.
fn plain_line(alloc: Global, text: &str) -> Result<String, AllocError>
    ensures { IfOk result (λ s. string_bytes s ≡ text.now) }
{
    format!(in alloc; "{text}")
}

/// The last line, without its end: the verdict on a stream that was judged in this mode. AllocError: there is no memory for it.
pub fn verdict_line(
    alloc: Global,
    mode: Mode,
    verdict: Result<Summary, Stop>,
) -> Result<String, AllocError>
    ensures { IfOk result (λ s. string_bytes s ≡ verdict_text mode verdict) }
{
    match verdict {
        Ok(summary) => yes_line(alloc, mode, summary),
        Err(Stop::No { bit, rule }) => no_line(alloc, bit, rule),
        Err(Stop::Outside { bit, feature }) => outside_line(alloc, bit, feature),
        Err(Stop::Memory) => plain_line(alloc, "memory"),
        Err(Stop::Read) => plain_line(alloc, "read failed"),
        Err(Stop::Write) => plain_line(alloc, "write failed"),
    }
}
