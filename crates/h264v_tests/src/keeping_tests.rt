//! What `check` answers of an input that can be read once, and of which so many bytes are kept in memory and in a store: the same as where none are.
#![tactic(auto)]

use crate::asking::ONE;
use crate::lasting_tests::BROKEN;
use crate::stores::{ALL, NOTHING, Storing};
use crate::tests::{Devices, WELL, Written, answer};
use std::alloc::Global;
use std::test::Fail;

/// Words that judge an input once, and an input twice.
const WORDS: [&[&str]; 2] = [
    &["h264v", "check", "--explain", "--strict", "stream"],
    &["h264v", "check", "stream", "stream"],
];

/// How many bytes are kept in memory at most: the front of a unit, two units and a part of the third, and all.
const BOUNDS: [usize; 3] = [1, 22, 1000];

/// Stores that take all, nothing and some bytes, and that refuse the first put and a later one.
const STORINGS: [Storing; 5] = [
    ALL,
    NOTHING,
    Storing { most: 3, ..ALL },
    Storing {
        refused_put: 0,
        ..ALL
    },
    Storing {
        refused_put: 2,
        ..ALL
    },
];

/// Whether the same was written, with the same status.
fn is_same(one: &Written, other: &Written) -> bool {
    one.out.as_slice() == other.out.as_slice()
        && one.err.as_slice() == other.err.as_slice()
        && one.status == other.status
}

/// Whether the words have the same answer by such devices, however many bytes are kept, and whatever store takes the others.
fn is_as_unkept(
    alloc: Global,
    words: &[&str],
    stream: &[u8],
    devices: Devices,
) -> Result<bool, Fail> {
    let unkept = answer(alloc, words, stream, devices)?;
    for most in BOUNDS {
        for storing in STORINGS {
            let keeping = Devices {
                most_kept: Some(most),
                storing,
                ..devices
            };
            let kept = answer(alloc, words, stream, keeping)?;
            if !is_same(&kept, &unkept) {
                return Ok(false);
            }
        }
    }
    Ok(true)
}

/// Whether they have, whichever read of a byte fails, up to one after that which finds the end.
fn is_as_unkept_by_each_read(alloc: Global, words: &[&str], stream: &[u8]) -> Result<bool, Fail> {
    for failing_read in 0..=stream.len().saturating_add(1) {
        let devices = Devices {
            read_size: 1,
            failing_read,
            ..WELL
        };
        if !is_as_unkept(alloc, words, stream, devices)? {
            return Ok(false);
        }
    }
    Ok(true)
}

#[test]
fn each_read_of_a_kept_input_fails(rt: HostRuntime) -> Result<(), Fail> {
    let stream = hex::decode(rt.alloc(), BROKEN)?;
    for words in WORDS {
        let is_same = is_as_unkept_by_each_read(rt.alloc(), words, stream.as_slice())?;
        assert!(rt; is_same);
    }
    Ok(())
}

#[test]
fn answers_are_those_of_an_input_that_is_not_kept(rt: HostRuntime) -> Result<(), Fail> {
    for digits in [ONE, BROKEN] {
        let stream = hex::decode(rt.alloc(), digits)?;
        for words in WORDS {
            let is_same = is_as_unkept(rt.alloc(), words, stream.as_slice(), WELL)?;
            assert!(rt; is_same, "{digits}");
        }
    }
    Ok(())
}

/// Stores whose first read or a later one fails, or which end before they gave all.
const UNREADABLE: [Storing; 4] = [
    Storing {
        failing_read: 0,
        ..ALL
    },
    Storing {
        failing_read: 2,
        ..ALL
    },
    Storing {
        ending_read: 0,
        ..ALL
    },
    Storing {
        ending_read: 2,
        ..ALL
    },
];

/// What is written of a stream, of which the first byte is kept in memory and each other one by a put of its own.
fn stored(alloc: Global, digits: &str, storing: Storing) -> Result<Written, Fail> {
    let stream = hex::decode(alloc, digits)?;
    let devices = Devices {
        most_kept: Some(1),
        read_size: 1,
        storing,
        ..WELL
    };
    answer(
        alloc,
        &["h264v", "check", "stream"],
        stream.as_slice(),
        devices,
    )
}

#[test]
fn store_that_cannot_be_read(rt: HostRuntime) -> Result<(), Fail> {
    for storing in UNREADABLE {
        let broken = stored(rt.alloc(), BROKEN, storing)?;
        assert_eq!(rt; broken.out.as_slice(), b"read failed\n".as_slice());
        assert_eq!(rt; broken.status, 4);
        // A yes takes one reading, and none of the store.
        let legal = stored(rt.alloc(), ONE, storing)?;
        assert_eq!(rt;
            legal.out.as_slice(),
            b"yes: units 3 pictures 1 frames 1\n".as_slice()
        );
        assert_eq!(rt; legal.status, 0);
    }
    Ok(())
}
