//! What no clause says: each mb_type and each sub_mb_type, by hand from tables 7-11, 7-13 and 7-17.
#![tactic(auto)]

ghost use Rattle.std.specs.Prelude.{◌≤◌};
ghost use Rattle.h264_vectors.specs.Agrees.{Usable};

use crate::macroblocks::{INTRA, parts_of, slice};
use crate::sinks::Heard;
use crate::streams::{rbsp_of_bits, rbsp_of_bytes, write};
use h264_base::{Rule, SliceType, Stop};
use h264_bits::Bits;
use h264_intra::Intra4x4PredMode;
use h264_mbsyntax::{Kind, Macroblock, read_macroblock, skip_macroblock};
use h264_near::{Near, Vector};
use h264_rbsp::Rbsp;
use h264_vectors::SliceContext;
use h264_write::Writer;
use std::alloc::{AllocError, Global};
use std::process::Abort;
use std::test::Fail;

/// A slice with so many reference pictures.
fn slice_of(slice_type: SliceType, active: u32) -> SliceContext
    ensures { Usable result }
{
    slice(slice_type, active, [Some(5), Some(6)])
}

/// The contexts of a picture two macroblocks wide before its last macroblock, round which all sides are there.
fn near(alloc: Global) -> Result<Near, AllocError> {
    let mut near = Near::new(alloc, 2)?;
    near.push(&INTRA);
    near.push(&INTRA);
    near.push(&INTRA);
    Ok(near)
}

/// Reads a macroblock into `mb`, where QP_Y,PRED is 26: whether only the trailing bits follow.
fn read(rbsp: &Rbsp, near: &Near, slice: &SliceContext, mb: &mut Macroblock) -> Result<bool, Stop>
    requires { Usable slice.now }
{
    let mut bits = Bits::new(rbsp);
    let _bit = read_macroblock(&mut bits, near, slice, 26, mb, &mut Heard::nothing())?;
    Ok(bits.trailing().is_ok())
}

/// Reads a macroblock that was written, and sees that nothing else is there.
fn read_written(
    rt: &(impl Abort + AllocGlobal),
    slice: &SliceContext,
    writer: &mut Writer,
    mb: &mut Macroblock,
) -> Result<(), Fail>
    requires { Usable slice.now }
{
    writer.trailing()?;
    let rbsp = rbsp_of_bytes(rt.alloc(), &writer.bytes(rt.alloc())?)?;
    assert!(rt; read(&rbsp, &near(rt.alloc())?, slice, mb)?);
    Ok(())
}

/// Reads a macroblock from a text.
fn read_text(
    rt: &(impl Abort + AllocGlobal),
    slice: &SliceContext,
    text: &str,
    mb: &mut Macroblock,
) -> Result<(), Fail>
    requires { Usable slice.now }
{
    let rbsp = rbsp_of_bits(rt.alloc(), text, true)?;
    assert!(rt; read(&rbsp, &near(rt.alloc())?, slice, mb)?);
    Ok(())
}

/// Writes this so many times.
fn write_each(writer: &mut Writer, digits: &str, count: u32) -> Result<(), AllocError> {
    for _turn in 0..count {
        write(writer, digits)?;
    }
    Ok(())
}

/// Writes what follows mb_type of an Intra 16x16 macroblock without coefficients, by table 7-11.
fn write_intra16x16(writer: &mut Writer, t: u32) -> Result<(), AllocError>
    requires { 1 ≤ t }
{
    // intra_chroma_pred_mode, mb_qp_delta and the DC block
    write(writer, "1 1 1")?;
    if t >= 13 {
        write_each(writer, "1", 16)?;
    }
    let chroma = (t - 1) / 4 % 3;
    if chroma > 0 {
        write(writer, "01 01")?;
    }
    if chroma == 2 {
        write_each(writer, "1", 8)?;
    }
    Ok(())
}

#[test]
fn intra_types(rt: HostRuntime) -> Result<(), Fail> {
    each_intra16x16(&rt, SliceType::I, 0)?;
    each_intra16x16(&rt, SliceType::P, 5)?;
    predicted_modes(&rt)?;
    a_mode_of_its_own(&rt)?;
    samples(&rt)
}

fn each_intra16x16(
    rt: &(impl Abort + AllocGlobal),
    slice_type: SliceType,
    first: u32,
) -> Result<(), Fail>
    requires { first ≤ 5 }
{
    let mut mb = Macroblock::none();
    for t in 1..25 {
        let mut writer = Writer::new(rt.alloc());
        writer.ue(first + t)?;
        write_intra16x16(&mut writer, t)?;
        read_written(rt, &slice_of(slice_type, 1), &mut writer, &mut mb)?;
        match mb.kind {
            Kind::Intra16x16 { mode } => assert_eq!(rt; u32::from(mode.number()), (t - 1) % 4),
            _ => assert!(rt; false, "type {t}"),
        }
    }
    Ok(())
}

/// Sixteen predicted modes, and codeNum 3 of coded_block_pattern: nothing is coded.
fn predicted_modes(rt: &(impl Abort + AllocGlobal)) -> Result<(), Fail> {
    let mut mb = Macroblock::none();
    let i = slice_of(SliceType::I, 1);
    read_text(rt, &i, "1 1111111111111111 1 00100", &mut mb)?;
    assert!(rt; matches!(mb.kind, Kind::Intra4x4));
    assert_eq!(rt;
        (mb.contexts.modes, mb.qp),
        ([Intra4x4PredMode::Dc; 16], 26)
    );
    Ok(())
}

/// A first mode of its own, 1; codeNum 0: all is coded; mb_qp_delta -26.
fn a_mode_of_its_own(rt: &(impl Abort + AllocGlobal)) -> Result<(), Fail> {
    let mut mb = Macroblock::none();
    let i = slice_of(SliceType::I, 1);
    let text = "1 0001 111111111111111 1 1 00000110101 1111111111111111 01 01 11111111";
    read_text(rt, &i, text, &mut mb)?;
    let modes = mb.contexts.modes;
    let across = Intra4x4PredMode::Horizontal;
    assert_eq!(rt; (modes[0], modes[1], mb.qp), (across, across, 0));
    Ok(())
}

fn samples(rt: &(impl Abort + AllocGlobal)) -> Result<(), Fail> {
    let mut mb = Macroblock::none();
    let mut writer = Writer::new(rt.alloc());
    write(&mut writer, "000011010 0000000 00010001")?;
    write_each(&mut writer, "01010101", 383)?;
    read_written(rt, &slice_of(SliceType::I, 1), &mut writer, &mut mb)?;
    assert!(rt; matches!(mb.kind, Kind::Pcm));
    assert_eq!(rt; (mb.pcm[0], mb.pcm[383], mb.qp), (0x11, 0x55, 26));
    assert_eq!(rt; mb.contexts.totals, [16; 16]);
    Ok(())
}

#[test]
fn inter_types(rt: HostRuntime) -> Result<(), Fail> {
    parts(&rt)?;
    refused(&rt)?;
    skipped(&rt);
    Ok(())
}

/// Inter macroblocks of slices with so many active references: a block, and its ref_idx, picture and vector.
const PARTS: [(u32, &str, usize, (u8, u64, i16, i16)); 10] = [
    // 16x16 by (1, -1); coded_block_pattern 16, of which only the DC blocks stand there.
    (1, "1 010 011 010 1 01 01", 15, (0, 5, 1, -1)),
    // 16x8: (1, 0), and from it (1, 1) below.
    (1, "010 010 1 1 010 1", 7, (0, 5, 1, 0)),
    (1, "010 010 1 1 010 1", 8, (0, 5, 1, 1)),
    // 8x16: (1, 0) and, from C or by the median, (0, 1).
    (1, "011 010 1 011 010 1", 1, (0, 5, 1, 0)),
    (1, "011 010 1 011 010 1", 4, (0, 5, 0, 1)),
    // 8x8, 8x4, 4x8 and 4x4.
    (
        1,
        "00100 1 010 011 00100 11 1111 1111 11111111 1",
        15,
        (0, 5, 0, 0),
    ),
    // All references 0, whatever is active.
    (2, "00101 1 1 1 1 11 11 11 11 1", 15, (0, 5, 0, 0)),
    // te(v) of two: one bit, inverted. Of three: ue(v).
    (2, "1 0 11 1", 0, (1, 6, 0, 0)),
    (3, "010 010 1 11 11 1", 0, (1, 6, 0, 0)),
    (3, "010 010 1 11 11 1", 8, (0, 5, 0, 0)),
];

fn parts(rt: &(impl Abort + AllocGlobal)) -> Result<(), Fail> {
    let mut mb = Macroblock::none();
    for (active, text, block, expected) in &PARTS {
        read_text(rt, &slice_of(SliceType::P, *active), text, &mut mb)?;
        assert!(rt; matches!(mb.kind, Kind::Inter { partition: _ }), "{text}");
        assert_eq!(rt;
            parts_of(mb.contexts.motions[*block & 15]),
            Some(*expected),
            "block {block} of {text}"
        );
    }
    Ok(())
}

/// The third place of the list has no picture.
fn refused(rt: &(impl Abort + AllocGlobal)) -> Result<(), Fail> {
    let mut mb = Macroblock::none();
    let rbsp = rbsp_of_bits(rt.alloc(), "1 011", true)?;
    let found = read(
        &rbsp,
        &near(rt.alloc())?,
        &slice_of(SliceType::P, 3),
        &mut mb,
    );
    let expected = Err(Stop::No {
        bit: 33,
        rule: Rule::NoReference,
    });
    assert_eq!(rt; found, expected);
    Ok(())
}

fn skipped(rt: &impl Abort) {
    let m = skip_macroblock(&slice_of(SliceType::P, 1), Vector { x: 3, y: -3 }, 30);
    assert_eq!(rt; parts_of(Some(m.motion)), Some((0, 5, 3, -3)));
    assert_eq!(rt; m.qp, 30);
}
