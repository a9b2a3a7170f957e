//! What the program answers with each read and each write failing, and where each takes one byte.
#![tactic(auto)]

use crate::tests::{Devices, WELL, Written, answer, begins_with, ends_with};
use std::process::Abort;
use std::test::Fail;

const COMMANDS: [&str; 5] = ["units", "headers", "check", "frames", "decode"];

/// Streams in hexadecimal digits.
const STREAMS: [&str; 7] = [
    // One frame.
    "000000016742c00ada710000000168ce388000000165888493c0",
    // The second frame is a skipped macroblock.
    "000000016742c00ada710000000168ce388000000165888493c0000001619a22a0",
    // The second picture leaves a gap in frame_num, which `units` does not look at, and `headers` refuses.
    "000000016742c00ada710000000168ce388000000165888493c0000001619a42a0",
    // One frame of two macroblocks.
    "000000016742c00ada2c400000000168ce388000000165888493931438",
    // Two such frames, the second with a vector.
    "000000016742c00ada2c400000000168ce388000000165888493931438000001619a238080d4",
    // Two pictures, the second with operations 4, 3 and 2.
    "000000016742c00ada710000000168ce388000000165888493c0000001619a24a89bea",
    PCM,
];

/// A picture of one I_PCM macroblock: its samples stand before the last byte.
const PCM: &str =
    "000000016742c00ada710000000168ce388000000165888486800102030405060708090a0b0c0d0e0f101112131415161718191a1b1c1d1e1f2021222324252627\
    28292a2b2c2d2e2f303132333435363738393a3b3c3d3e3f404142434445464748494a4b4c4d4e4f505152535455565758595a5b5c5d5e5f606162636465666768696a6b6c6d\
    6e6f707172737475767778797a7b7c7d7e7f808182838485868788898a8b8c8d8e8f909192939495969798999a9b9c9d9e9fa0a1a2a3a4a5a6a7a8a9aaabacadaeafb0b1b2b3\
    b4b5b6b7b8b9babbbcbdbebfc0c1c2c3c4c5c6c7c8c9cacbcccdcecfd0d1d2d3d4d5d6d7d8d9dadbdcdddedfe0e1e2e3e4e5e6e7e8e9eaebecedeeeff0f1f2f3f4f5f6f7f8f9\
    fafbfcfdfeff0102030405060708090a0b0c0d0e0f101112131415161718191a1b1c1d1e1f202122232425262728292a2b2c2d2e2f303132333435363738393a3b3c3d3e3f40\
    4142434445464748494a4b4c4d4e4f505152535455565758595a5b5c5d5e5f606162636465666768696a6b6c6d6e6f707172737475767778797a7b7c7d7e7f808180";

/// Whether a line says what failed, and what was written before is a front of the whole answer.
fn is_told(some: &Written, all: &Written, line: &[u8]) -> bool {
    let (out, whole) = (some.out.as_slice(), all.out.as_slice());
    if begins_with(some.err.as_slice(), line) {
        return begins_with(whole, out);
    }
    ends_with(out, line) && begins_with(whole, before_end(out, line))
}

/// Bytes without so many at their end.
fn before_end<'a>(bytes: &'a [u8], end: &[u8]) -> &'a [u8] {
    let (front, _) = bytes.split_at(bytes.len().saturating_sub(end.len()));
    front
}

/// Whichever read fails, that is told, and what was written before is a front of the whole answer.
fn each_read_fails(
    rt: &(impl Abort + AllocGlobal),
    words: &[&str],
    bytes: &[u8],
    all: &Written,
) -> Result<(), Fail> {
    for failing_read in 0..=bytes.len() {
        let devices = Devices {
            read_size: 1,
            failing_read,
            ..WELL
        };
        let some = answer(rt.alloc(), words, bytes, devices)?;
        assert_eq!(rt; some.status, 4);
        assert!(rt; is_told(&some, all, b"read failed\n"));
    }
    Ok(())
}

/// Whichever write fails, the status tells it, the verdict does not stand in its place, and where there is still a line to write it is told too;
/// else a front of the answer stands there. The last line is written in two parts; `check` writes its elements at once.
fn each_write_fails(
    rt: &(impl Abort + AllocGlobal),
    words: &[&str],
    bytes: &[u8],
    all: &Written,
) -> Result<(), Fail> {
    for failing_write in 0..all.writes {
        let devices = Devices {
            failing_write,
            ..WELL
        };
        let some = answer(rt.alloc(), words, bytes, devices)?;
        assert_eq!(rt; some.status, 4);
        assert!(rt; some.out.as_slice() != all.out.as_slice());
        let told = is_told(&some, all, b"write failed\n");
        assert!(rt; told || begins_with(all.out.as_slice(), some.out.as_slice()));
        let is_last = all.writes <= failing_write.saturating_add(2);
        assert!(rt; told || is_last || begins_with(all.out.as_slice(), b"element "));
    }
    Ok(())
}

/// Where each write takes one byte, the same bytes are written; whichever fails, a front of them stands there, or that and a line that tells it.
fn byte_by_byte(
    rt: &(impl Abort + AllocGlobal),
    words: &[&str],
    bytes: &[u8],
    all: &Written,
) -> Result<(), Fail> {
    for failing_write in 0..=all.out.len() {
        let devices = Devices {
            write_size: 1,
            failing_write,
            ..WELL
        };
        let some = answer(rt.alloc(), words, bytes, devices)?;
        let same = some.out.as_slice() == all.out.as_slice();
        assert_eq!(rt; same, failing_write == all.out.len());
        assert!(rt; same || some.status == 4);
        let told = is_told(&some, all, b"write failed\n");
        assert!(rt; told || begins_with(all.out.as_slice(), some.out.as_slice()));
    }
    Ok(())
}

/// Whichever write of the verdict of `decode` fails, the samples stand there, and the status tells it.
fn each_error_fails(
    rt: &(impl Abort + AllocGlobal),
    bytes: &[u8],
    samples: &[u8],
) -> Result<(), Fail> {
    for failing_error in 0..2usize {
        let devices = Devices {
            failing_error,
            ..WELL
        };
        let some = answer(rt.alloc(), &DECODE, bytes, devices)?;
        assert_eq!(rt; some.status, 4);
        assert_eq!(rt; some.out.as_slice(), samples);
    }
    Ok(())
}

const DECODE: [&str; 3] = ["h264v", "decode", "stream"];

/// A frame is written with its samples, a plane at a time.
fn samples(rt: &(impl Abort + AllocGlobal), bytes: &[u8]) -> Result<(), Fail> {
    let all = answer(rt.alloc(), &DECODE, bytes, WELL)?;
    assert_eq!(rt; all.out.len(), 384);
    assert!(rt; ends_with(before_end(bytes, &[0x80]), all.out.as_slice()));
    assert_eq!(rt;
        all.err.as_slice(),
        b"yes: units 3 pictures 1 frames 1\n".as_slice()
    );
    assert_eq!(rt; all.writes, 3);
    each_error_fails(rt, bytes, all.out.as_slice())
}

/// Each device fails in turn.
fn each_fails(
    rt: &(impl Abort + AllocGlobal),
    words: &[&str],
    bytes: &[u8],
    all: &Written,
) -> Result<(), Fail> {
    each_read_fails(rt, words, bytes, all)?;
    each_write_fails(rt, words, bytes, all)?;
    byte_by_byte(rt, words, bytes, all)
}

/// So they do for each command.
fn each_command(rt: &(impl Abort + AllocGlobal), bytes: &[u8]) -> Result<(), Fail> {
    for command in COMMANDS {
        let words = ["h264v", command, "stream"];
        let all = answer(rt.alloc(), &words, bytes, WELL)?;
        each_fails(rt, &words, bytes, &all)?;
    }
    Ok(())
}

#[test]
fn devices(rt: HostRuntime) -> Result<(), Fail> {
    for stream in STREAMS {
        let bytes = hex::decode(rt.alloc(), stream)?;
        each_command(&rt, bytes.as_slice())?;
    }
    let bytes = hex::decode(rt.alloc(), PCM)?;
    samples(&rt, bytes.as_slice())
}
