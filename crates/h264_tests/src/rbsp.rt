//! Units whose RBSP and places are worked out by hand.

use crate::streams::unit_of;
use h264_base::{Rule, Stop};
use h264_rbsp::{Rbsp, check_emulation, laws};
use h264_units::NalUnit;
use std::alloc::Global;
use std::test::Fail;

/// Bytes of units, and the bit of what breaks the rules of emulation prevention.
const EMULATIONS: [(&[u8], Option<u64>); 12] = [
    (b"\x65", None),
    (b"\x65\0\x02\0\x03\x04", None),
    (b"\x65\0\0\x04\x03", None),
    (b"\x65\0\0\x03\x03\0\0\x03\0\x01", None),
    (b"\x65\0\0\x03\0\0\x03\x01\0\0\x03\x02", None),
    (b"\0\0\x02", Some(40)),
    (b"\x65\0\0\x02\0\0\x02", Some(48)),
    (b"\x06\x05\0\0\x03\x04\x80", Some(64)),
    (b"\x65\0\0\x03", Some(48)),
    (b"\x65\0\0\x03\0\0\x03", Some(72)),
    (b"\x65\0\0\x03\0\0\x03\xFF", Some(80)),
    (b"\x65\0\0\x03\0\0\x04\x65\x65\x65\0\0\x02", Some(120)),
];

/// Whether a unit breaks the rules there, or nowhere.
fn is_judged(unit: &NalUnit, expected: Option<u64>) -> bool {
    match (check_emulation(unit), expected) {
        (Err(Stop::No { bit, rule }), Some(expected)) => {
            rule == Rule::Emulation && bit == expected
        }
        (Ok(()), None) => true,
        _ => false,
    }
}

#[test]
fn checks_emulation(rt: HostRuntime) -> Result<(), Fail> {
    for (i, (bytes, expected)) in EMULATIONS.iter().enumerate() {
        let unit = unit_of(rt.alloc(), bytes)?;
        assert!(rt; is_judged(&unit, *expected), "case {i}");
    }
    Ok(())
}

/// Bits of an RBSP, and the bits of the stream where they stand.
const PLACES: [(usize, u64); 9] = [
    (0, 32),
    (15, 47),
    (16, 56),
    (47, 87),
    (48, 96),
    (63, 111),
    (64, 120),
    (71, 127),
    (72, 128),
];

/// Whether each bit stands there.
fn are_placed(rbsp: &Rbsp, places: &[(usize, u64)]) -> bool {
    let end = rbsp.bytes().len().saturating_mul(8);
    for (bit, expected) in places {
        if *bit > end || rbsp.stream_bit(*bit) != *expected {
            return false;
        }
    }
    true
}

fn drops_between_bytes(alloc: Global) -> Result<bool, Stop> {
    let unit = unit_of(alloc, b"\x65\0\0\x03\x01\x02\0\0\x03\0\0\x03\x80")?;
    // Where growth is refused (`--fail-alloc 2`), a second try succeeds once there is memory.
    let made = match Rbsp::of(alloc, &unit) {
        Err(Stop::Memory) => Rbsp::of(alloc, &unit),
        made => made,
    };
    let rbsp = made?;
    let dropped = rbsp.bytes() == b"\0\0\x01\x02\0\0\0\0\x80".as_slice();
    Ok(dropped && are_placed(&rbsp, &PLACES))
}

/// Twenty times 0, 0 and 3 between 65 and 1.
fn twenty_dropped() -> [u8; 62] {
    let mut bytes = [0; 62];
    bytes[0] = 0x65;
    bytes[61] = 1;
    for k in 0..20 {
        bytes[3 * k + 3] = 3;
    }
    bytes
}

fn drops_many(alloc: Global) -> Result<bool, Stop> {
    let rbsp = Rbsp::of(alloc, &unit_of(alloc, &twenty_dropped())?)?;
    let places = [(159, 263), (320, 512), (328, 520)];
    Ok(rbsp.bytes().len() == 41 && are_placed(&rbsp, &places))
}

fn a_header_alone_has_no_bytes(alloc: Global) -> Result<bool, Stop> {
    let rbsp = Rbsp::of(alloc, &unit_of(alloc, b"\x09")?)?;
    Ok(rbsp.bytes().is_empty() && rbsp.stream_bit(0) == 32)
}

fn states_its_laws() {
    laws::placed_bytes();
    laws::checked_bytes();
}

#[test]
fn drops_and_places(rt: HostRuntime) -> Result<(), Fail> {
    assert!(rt; drops_between_bytes(rt.alloc())?);
    assert!(rt; drops_many(rt.alloc())?);
    assert!(rt; a_header_alone_has_no_bytes(rt.alloc())?);
    states_its_laws();
    Ok(())
}
