//! Streams of one unit, and the RBSP of it.
#![tactic(auto)]

use h264_base::Stop;
use h264_rbsp::{Rbsp, check_emulation};
use h264_units::{NalUnit, Splitter};
use h264_write::{Writer, unit};
use std::alloc::{AllocError, Global};

/// The unit of a stream that has one, which comes in two pieces.
fn unit_in(alloc: Global, head: &[u8], rest: &[u8]) -> Result<NalUnit, Stop> {
    let mut splitter = Splitter::new(alloc);
    splitter.push(head)?;
    splitter.push(rest)?;
    if !splitter.waiting() {
        splitter.finish()?;
    }
    splitter.take_unit().ok_or(Stop::Read)
}

/// The unit of these bytes, after the start code that an input begins with.
pub fn unit_of(alloc: Global, body: &[u8]) -> Result<NalUnit, Stop> {
    unit_in(alloc, &[0, 0, 1], body)
}

/// The RBSP of the unit of a stream that has one.
pub fn rbsp_in(alloc: Global, stream: &[u8]) -> Result<Rbsp, Stop> {
    Rbsp::of(alloc, &unit_in(alloc, &[], stream)?)
}

/// The RBSP of the unit of these bytes, which break no rule of emulation prevention.
pub fn rbsp_of(alloc: Global, body: &[u8]) -> Result<Rbsp, Stop> {
    let unit = unit_of(alloc, body)?;
    check_emulation(&unit)?;
    Rbsp::of(alloc, &unit)
}

/// These bytes as the RBSP of a unit. The last one is not 0.
pub fn rbsp_of_bytes(alloc: Global, bytes: &[u8]) -> Result<Rbsp, Stop> {
    if bytes.is_empty() || bytes[bytes.len() - 1] == 0 {
        return Err(Stop::Read);
    }
    let Ok(body) = unit(alloc, 0x65, bytes) else {
        return Err(Stop::Memory);
    };
    rbsp_of(alloc, &body)
}

/// Writes bits, given as 0 and 1 with spaces between them.
pub fn write(writer: &mut Writer, digits: &str) -> Result<(), AllocError> {
    for digit in digits.as_bytes() {
        if *digit != b' ' {
            writer.u(1, u32::from(*digit == b'1'))?;
        }
    }
    Ok(())
}

/// The bytes of these bits, with a stop bit after them if that is asked for, and zeros up to the next byte.
fn bytes_of(alloc: Global, digits: &str, closed: bool) -> Result<Vec<u8>, AllocError> {
    let mut writer = Writer::new(alloc);
    write(&mut writer, digits)?;
    if closed {
        writer.trailing()?;
    }
    writer.bytes(alloc)
}

/// The RBSP of these bits, likewise. Its first bit is bit 32 of the stream.
pub fn rbsp_of_bits(alloc: Global, digits: &str, closed: bool) -> Result<Rbsp, Stop> {
    let Ok(bytes) = bytes_of(alloc, digits, closed) else {
        return Err(Stop::Memory);
    };
    rbsp_of_bytes(alloc, &bytes)
}
