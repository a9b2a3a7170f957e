//! What `check` answers of a file that can be read again: it is judged once, and once more where it breaks a rule.
#![tactic(auto)]

use crate::asking::{ONE, text_of};
use crate::check_tests::{RULES, SLICE_DATA};
use crate::tests::{Case, Devices, WELL, answer};
use std::process::Abort;
use std::test::Fail;

const CHECK: [&str; 3] = ["h264v", "check", "stream"];

/// The same with options that the words alone don't have.
const EXPLAINED: [&str; 4] = ["h264v", "check", "--explain", "stream"];

/// A stream that breaks a rule: one frame, without its last byte.
pub const BROKEN: &str = "000000016742c00ada710000000168ce388000000165888493";

/// A stream that can be opened so often.
fn opened_at_most(openings: usize) -> Devices {
    Devices {
        openings: Some(openings),
        ..WELL
    }
}

/// That a stream that can be read again has the answer of one that can't be.
fn check_same(rt: &(impl Abort + AllocGlobal), words: &[&str], cases: &[Case]) -> Result<(), Fail> {
    for case in cases {
        let stream = hex::decode(rt.alloc(), case.stream)?;
        let once = answer(rt.alloc(), words, stream.as_slice(), WELL)?;
        let again = answer(rt.alloc(), words, stream.as_slice(), opened_at_most(2))?;
        assert_eq!(rt; again.out.as_slice(), once.out.as_slice(), "{}", case.name);
        assert_eq!(rt; again.err.as_slice(), once.err.as_slice(), "{}", case.name);
        assert_eq!(rt; again.status, case.status, "{}", case.name);
    }
    Ok(())
}

#[test]
fn answers_are_those_of_one_reading(rt: HostRuntime) -> Result<(), Fail> {
    check_same(&rt, &CHECK, &SLICE_DATA)?;
    check_same(&rt, &CHECK, &RULES)?;
    check_same(&rt, &EXPLAINED, &RULES)
}

/// Words, a stream, how often it can be opened, and what is written then.
struct Reading {
    words: &'static [&'static str],
    stream: &'static str,
    openings: usize,
    out: &'static str,
    err: &'static str,
    status: u8,
}

/// What a file can't be opened for.
const NOT_FOUND: &str = "h264v: stream: entity not found\n";

/// A yes takes one reading, and a no of which no elements are told. Another no takes two.
const READINGS: [Reading; 6] = [
    Reading {
        words: &["h264v", "check", "stream"],
        stream: ONE,
        openings: 1,
        out: "yes: units 3 pictures 1 frames 1\n",
        err: "",
        status: 0,
    },
    Reading {
        words: &["h264v", "check", "--strict", "--quiet", "stream"],
        stream: ONE,
        openings: 1,
        out: "",
        err: "",
        status: 0,
    },
    Reading {
        words: &["h264v", "check", "--brief", "stream"],
        stream: BROKEN,
        openings: 1,
        out: "no: bit 200: ResidualWord (clause 9.2)\n",
        err: "",
        status: 1,
    },
    Reading {
        words: &["h264v", "check", "stream"],
        stream: BROKEN,
        openings: 1,
        out: "read failed\n",
        err: NOT_FOUND,
        status: 4,
    },
    Reading {
        words: &["h264v", "check", "--explain", "stream"],
        stream: BROKEN,
        openings: 1,
        out: "read failed\n",
        err: NOT_FOUND,
        status: 4,
    },
    Reading {
        words: &["h264v", "check", "stream", "stream"],
        stream: ONE,
        openings: 2,
        out: "stream: yes: units 3 pictures 1 frames 1\nstream: yes: units 3 pictures 1 frames 1\n\
total: files 2 yes 2 no 0 outside 0 memory 0 failed 0\n",
        err: "",
        status: 0,
    },
];

/// That this is written then.
fn check_reading(rt: &(impl Abort + AllocGlobal), reading: &Reading) -> Result<(), Fail> {
    let stream = hex::decode(rt.alloc(), reading.stream)?;
    let devices = opened_at_most(reading.openings);
    let all = answer(rt.alloc(), reading.words, stream.as_slice(), devices)?;
    let out = text_of(all.out)?;
    let err = text_of(all.err)?;
    assert_eq!(rt; out.as_str(), reading.out);
    assert_eq!(rt; err.as_str(), reading.err);
    assert_eq!(rt; all.status, reading.status);
    Ok(())
}

/// That each of these is.
fn check_readings(rt: &(impl Abort + AllocGlobal), readings: &[Reading]) -> Result<(), Fail> {
    for reading in readings {
        check_reading(rt, reading)?;
    }
    Ok(())
}

#[test]
fn readings(rt: HostRuntime) -> Result<(), Fail> {
    check_readings(&rt, &READINGS)
}

/// That a read of the second reading that fails is told, and not the rule that the first one found broken.
fn check_failing(rt: &(impl Abort + AllocGlobal), words: &[&str]) -> Result<(), Fail> {
    let stream = hex::decode(rt.alloc(), BROKEN)?;
    for failing_read in 0..=stream.len() {
        let devices = Devices {
            read_size: 1,
            failing_opening: 1,
            failing_read,
            ..opened_at_most(2)
        };
        let all = answer(rt.alloc(), words, stream.as_slice(), devices)?;
        assert_eq!(rt; all.out.as_slice(), b"read failed\n".as_slice());
        assert_eq!(rt; all.status, 4);
    }
    Ok(())
}

#[test]
fn second_reading_fails(rt: HostRuntime) -> Result<(), Fail> {
    check_failing(&rt, &CHECK)?;
    check_failing(&rt, &EXPLAINED)
}
