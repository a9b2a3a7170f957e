//! What is written of a call: a line, or an object of JSON.
#![tactic(auto)]

ghost use Rattle.std.specs.Prelude.{◌≡◌, IsTrue, OnOk, string_bytes};
ghost use Rattle.h264_dpb.specs.Shown.{fits, width_in, height_in};
ghost use Rattle.h264_lines.specs.Frames.{shown_bytes};
ghost use Rattle.h264_units.specs.UnitTypes.{type_number};
ghost use Rattle.h264_lines.specs.Objects.{unit_object, slice_object, element_object, frame_object, opening_of, unit_in, slice_in, element_in, frame_in};

use crate::form::Form;
use crate::frames::digest;
use crate::lines::{
    FrameCall, SliceCall, UnitCall, element_line, frame_line, slice_line, type_text, unit_line,
};
use crate::rows::{height, width};
use h264_base::ElementName;
use std::alloc::{AllocError, Global};

/// Makes a text the object of a unit. AllocError where there is no memory for it; the text is then a part of it.
fn put_unit_object(text: &mut String, head: &str, unit: UnitCall) -> Result<(), AllocError>
    ensures { OnOk result (string_bytes text.new ≡ unit_object head.now unit.byte (type_number unit.nal_unit_type) unit.nal_ref_idc unit.length) }
{
    let UnitCall {
        byte,
        nal_unit_type,
        nal_ref_idc,
        length,
    } = unit;
    let number = nal_unit_type.number();
    text.clear();
    write!(
        text,
        "{head},\"kind\":\"unit\",\"byte\":{byte},\"nal_unit_type\":{number},\"nal_ref_idc\":{nal_ref_idc},\"bytes\":{length}}}"
    )?;
    Ok(())
}

/// Makes a text what is written of a unit. AllocError where there is no memory for it; the text is then a part of it.
pub fn put_unit(text: &mut String, form: Form<'_>, unit: UnitCall) -> Result<(), AllocError>
    ensures { OnOk result (string_bytes text.new ≡ unit_in (opening_of form.entry) unit.byte (type_number unit.nal_unit_type) unit.nal_ref_idc unit.length) }
{
    match form {
        Form::Lines(prefix) => unit_line(text, prefix, unit),
        Form::Objects(head) => put_unit_object(text, head, unit),
    }
}

/// Makes a text the object of a slice, with the picture order count of its frame. AllocError where there is no memory for it; the text is then a part of it.
fn put_slice_object(
    text: &mut String,
    head: &str,
    slice: SliceCall,
    count: i32,
) -> Result<(), AllocError>
    ensures { OnOk result (string_bytes text.new ≡ slice_object head.now slice.byte slice.first_mb_in_slice slice.slice_type slice.frame_num
        count) }
{
    let SliceCall {
        byte,
        first_mb_in_slice: first,
        slice_type,
        frame_num,
    } = slice;
    let kind = type_text(slice_type);
    text.clear();
    write!(
        text,
        "{head},\"kind\":\"slice\",\"byte\":{byte},\"first_mb_in_slice\":{first},\"slice_type\":\"{kind}\",\"frame_num\":{frame_num},\"count\":{count}}}"
    )?;
    Ok(())
}

/// Makes a text what is written of a slice, with the picture order count of its frame. AllocError where there is no memory for it; the text is then a
/// part of it.
pub fn put_slice(
    text: &mut String,
    form: Form<'_>,
    slice: SliceCall,
    count: i32,
) -> Result<(), AllocError>
    ensures { OnOk result (string_bytes text.new ≡ slice_in (opening_of form.entry) slice.byte slice.first_mb_in_slice slice.slice_type slice.frame_num
        count) }
{
    match form {
        Form::Lines(prefix) => slice_line(text, prefix, slice, count),
        Form::Objects(head) => put_slice_object(text, head, slice, count),
    }
}

/// Makes a text the object of a syntax element. AllocError where there is no memory for it; the text is then a part of it.
fn put_element_object(
    text: &mut String,
    head: &str,
    name: ElementName,
    bit: u64,
    value: i64,
) -> Result<(), AllocError>
    ensures { OnOk result (string_bytes text.new ≡ element_object head.now name bit value) }
{
    let name = name.text();
    text.clear();
    write!(
        text,
        "{head},\"kind\":\"element\",\"name\":\"{name}\",\"bit\":{bit},\"value\":{value}}}"
    )?;
    Ok(())
}

/// Makes a text what is written of a syntax element. AllocError where there is no memory for it; the text is then a part of it.
pub fn put_element(
    text: &mut String,
    form: Form<'_>,
    name: ElementName,
    bit: u64,
    value: i64,
) -> Result<(), AllocError>
    ensures { OnOk result (string_bytes text.new ≡ element_in (opening_of form.entry) name bit value) }
{
    match form {
        Form::Lines(prefix) => element_line(text, prefix, name, bit, value),
        Form::Objects(head) => put_element_object(text, head, name, bit, value),
    }
}

/// Makes a text the object of a frame, with its picture order count. AllocError where there is no memory for it; the text is then a part of it.
fn put_frame_object(
    alloc: Global,
    text: &mut String,
    head: &str,
    call: FrameCall<'_>,
    count: i32,
) -> Result<(), AllocError>
    requires { IsTrue (fits call.rectangle call.frame.now) }
    ensures { OnOk result (string_bytes text.new ≡ frame_object head.now call.entry.index count
        (width_in call.entry.rectangle call.entry.frame.now) (height_in call.entry.rectangle call.entry.frame.now)
        (shown_bytes call.entry.frame.now call.entry.rectangle)) }
{
    let FrameCall {
        index,
        frame,
        rectangle,
    } = call;
    let width = width(frame, rectangle);
    let height = height(frame, rectangle);
    let digits = hex::encode(alloc, digest(frame, rectangle))?;
    let digits = digits.as_str();
    text.clear();
    write!(
        text,
        "{head},\"kind\":\"frame\",\"index\":{index},\"count\":{count},\"width\":{width},\"height\":{height},\"md5\":\"{digits}\"}}"
    )?;
    Ok(())
}

/// Makes a text what is written of a frame, with its picture order count. AllocError where there is no memory for it; the text is then a part of it.
pub fn put_frame(
    alloc: Global,
    text: &mut String,
    form: Form<'_>,
    call: FrameCall<'_>,
    count: i32,
) -> Result<(), AllocError>
    requires { IsTrue (fits call.rectangle call.frame.now) }
    ensures { OnOk result (string_bytes text.new ≡ frame_in (opening_of form.entry) call.entry.index count
        (width_in call.entry.rectangle call.entry.frame.now) (height_in call.entry.rectangle call.entry.frame.now)
        (shown_bytes call.entry.frame.now call.entry.rectangle)) }
{
    match form {
        Form::Lines(prefix) => frame_line(alloc, text, prefix, call, count),
        Form::Objects(head) => put_frame_object(alloc, text, head, call, count),
    }
}
