//! Small inputs, whole and cut in every way.

ghost use Rattle.std.specs.Prelude.{◌<◌};

use h264_base::Stop;
use h264_units::{NalUnit, Splitter, laws};
use std::alloc::{AllocError, Global};
use std::fmt::Write;
use std::test::Fail;

/// Takes the unit that waits, if one does, and tells its place and its bytes.
fn tell(splitter: &mut Splitter, told: &mut String) -> Result<(), AllocError> {
    if let Some(unit) = splitter.take_unit() {
        write!(told, "{}:", unit.from())?;
        for byte in unit.body() {
            write!(told, "{byte:02X}")?;
        }
        write!(told, " ")?;
    }
    Ok(())
}

/// Pushes a piece, and takes the units in it.
fn push(splitter: &mut Splitter, piece: &[u8], told: &mut String) -> Result<(), Stop> {
    let mut rest = piece;
    for _ in 0..=piece.len() {
        if rest.is_empty() {
            break;
        }
        let taken = splitter.push(rest)?;
        rest = rest.get(taken..).unwrap_or(&[]);
        tell(splitter, told).map_err(|_| Stop::Memory)?;
    }
    Ok(())
}

/// Pushes a first piece, then pieces of a size, and ends the input: how many bytes it had.
fn run(
    splitter: &mut Splitter,
    first: &[u8],
    rest: &[u8],
    size: usize,
    told: &mut String,
) -> Result<u64, Stop>
    requires { 0 < size }
{
    push(splitter, first, told)?;
    for piece in rest.chunks(size) {
        push(splitter, piece, told)?;
    }
    if !splitter.waiting() {
        splitter.finish()?;
    }
    tell(splitter, told).map_err(|_| Stop::Memory)?;
    Ok(splitter.length())
}

/// Each unit's place and bytes, and how the input ends, where it comes in a first piece and then in pieces of a size.
fn split(alloc: Global, bytes: &[u8], first: usize, size: usize) -> Result<String, AllocError>
    requires { 0 < size }
{
    let mut splitter = Splitter::new(alloc);
    let mut told = String::new(alloc);
    let (head, tail) = bytes.split_at(first.min(bytes.len()));
    match run(&mut splitter, head, tail, size, &mut told) {
        Ok(length) => write!(told, "end {length}")?,
        Err(Stop::No { bit, rule }) => write!(told, "{} {bit}", rule.label())?,
        Err(stop) => write!(told, "{stop}")?,
    }
    Ok(told)
}

/// Inputs, each with its units and how it ends. The longest has 26 bytes.
const INPUTS: [(&[u8], &str); 17] = [
    (b"", "end 0"),
    (
        b"\0\0\0\x01\x67\x42\xC0\x0A\xDA\x71\0\0\0\x01\x68\xCE\x38\x80\0\0\x01\x65\x88\x84\x93\xC0",
        "4:6742C00ADA71 14:68CE3880 21:65888493C0 end 26",
    ),
    (b"\0\0\0\0", "end 4"),
    (b"\0\0\x02", "ByteStream 16"),
    (b"\x01", "ByteStream 0"),
    (b"\0\x01", "ByteStream 8"),
    (b"\0\0\x01", "EmptyUnit 24"),
    (b"\0\0\0\x01\0\0", "EmptyUnit 32"),
    (b"\0\0\x01\0\0\0", "EmptyUnit 24"),
    (b"\0\0\x01\0\0\x01\x42", "EmptyUnit 24"),
    (b"\0\0\x01\x65", "3:65 end 4"),
    (b"\0\0\x01\x65\0\0", "3:65 end 6"),
    (b"\0\0\x01\x65\0\0\0\0\0", "3:65 end 9"),
    (b"\0\0\x01\x65\0\0\0\x07", "3:65 ByteStream 56"),
    (b"\0\0\x01\x41\0\0\x01\x42", "3:41 7:42 end 8"),
    (b"\0\0\x01\x09\x10\0\0\x03\0", "3:0910000003 end 9"),
    (
        b"\0\0\x01\0\0\x02\0\x01\0\0\x01\x09",
        "3:0000020001 11:09 end 12",
    ),
];

#[test]
fn splits_in_every_way(rt: HostRuntime) -> Result<(), Fail> {
    for (bytes, expected) in &INPUTS {
        for first in 0..27 {
            for size in 1..28 {
                let told = split(rt.alloc(), bytes, first, size)?;
                assert!(rt; told.as_str() == *expected, "first {first}, size {size}");
            }
        }
    }
    Ok(())
}

fn repeats_a_stop(alloc: Global) -> bool {
    let mut splitter = Splitter::new(alloc);
    let stop = splitter.push(b"\0\0\x02");
    let again = splitter.push(b"\0\0\x01\x65");
    stop.is_err()
        && again == stop
        && !splitter.waiting()
        && splitter.take_unit().is_none()
        && splitter.finish().is_err()
        && splitter.length() == 0
}

/// Whether this is the unit 65 at byte 3.
fn is_first(unit: Option<NalUnit>) -> bool {
    match unit {
        Some(unit) => unit.from() == 3 && unit.body() == b"\x65".as_slice(),
        None => false,
    }
}

/// Where the growth is refused (`--fail-alloc 1`), the same push succeeds once there is memory.
fn goes_on_after_want_of_memory(alloc: Global) -> bool {
    let mut splitter = Splitter::new(alloc);
    let mut taken = splitter.push(b"\0\0\x01\x65\0\0\x01");
    if taken == Err(Stop::Memory) {
        taken = splitter.push(b"\0\0\x01\x65\0\0\x01");
    }
    taken == Ok(7) && is_first(splitter.take_unit()) && splitter.length() == 7
}

fn states_its_laws() {
    laws::one_split();
    laws::some_split();
    laws::all_units();
    laws::judged_stream();
    laws::longest_part();
}

#[test]
fn stops_memory_and_laws(rt: HostRuntime) {
    assert!(rt; repeats_a_stop(rt.alloc()));
    assert!(rt; goes_on_after_want_of_memory(rt.alloc()));
    states_its_laws();
}
