//! What no clause says: blocks worked by hand from the standard's tables, and blocks and words from elsewhere.
#![tactic(auto)]

ghost use Rattle.std.specs.Prelude.{◌≤◌};

use crate::cases::each;
use crate::sinks::{Heard, Told};
use crate::streams::{rbsp_in, rbsp_of_bits};
use h264_base::{ElementName, Rule, Stop};
use h264_bits::Bits;
use h264_cavlc::{Levels, block};
use std::alloc::Global;
use std::test::Fail;

#[test]
fn blocks(rt: HostRuntime) -> Result<(), Fail> {
    let alloc = rt.alloc();
    each(&rt, &PUBLISHED, |case| stands(alloc, case));
    each(&rt, &EMPTY, |case| stands(alloc, case));
    each(&rt, &OF_SUFFIX_LENGTH_0, |case| is_single(alloc, case));
    each(&rt, &LEVELS, |case| stands(alloc, case));
    each(&rt, &ZEROS, |case| stands(alloc, case));
    Ok(())
}

#[test]
fn smaller_blocks(rt: HostRuntime) -> Result<(), Fail> {
    let alloc = rt.alloc();
    assert!(rt; a_full_block_of_15(alloc));
    each(&rt, &CHROMA_DC, |case| is_chroma_dc(alloc, case));
    Ok(())
}

#[test]
fn sinks(rt: HostRuntime) -> Result<(), Fail> {
    let rbsp = rbsp_of_bits(rt.alloc(), "000010001110010111101101", false)?;
    assert!(rt; each_element_is_told(&mut Bits::new(&rbsp)));
    assert!(rt; a_sink_fails(&mut Bits::new(&rbsp)));
    Ok(())
}

#[test]
fn faults(rt: HostRuntime) -> Result<(), Fail> {
    let alloc = rt.alloc();
    each(&rt, &REFUSED, |case| is_refused(alloc, case));
    each(&rt, &REFUSED_OF_15, |case| is_refused_of_15(alloc, case));
    Ok(())
}

#[test]
fn slice_data(rt: HostRuntime) -> Result<(), Fail> {
    let prefix = rbsp_in(rt.alloc(), A_PREFIX_OF_16_ZEROS)?;
    assert!(rt; is_refused_after_its_prefix(&mut Bits::new(&prefix)));
    let level = rbsp_in(rt.alloc(), A_LEVEL_OF_17)?;
    assert!(rt; is_level_of_17(&mut Bits::new(&level)));
    let full = rbsp_in(rt.alloc(), SIXTEEN_COEFFICIENTS_OF_15)?;
    assert!(rt; has_too_many(&mut Bits::new(&full)));
    Ok(())
}

/// The block that these bits begin with, and the stream bit after it.
fn block_in<const N: usize>(alloc: Global, nc: u8, text: &str) -> Result<(Levels<N>, u64), Stop>
    requires { N ≤ 16 }
{
    let rbsp = rbsp_of_bits(alloc, text, false)?;
    let mut bits = Bits::new(&rbsp);
    let levels = block::<N, Heard>(&mut bits, nc, &mut Heard::nothing())?;
    Ok((levels, bits.stream_bit()))
}

/// Levels by place, with how many are not 0.
fn levels_of<const N: usize>(by_place: [i16; N]) -> Levels<N> {
    let mut total = 0u8;
    for level in &by_place {
        if *level != 0 {
            total = total.wrapping_add(1);
        }
    }
    Levels { by_place, total }
}

/// A block with one level, at the lowest place.
fn single(level: i16) -> Levels<16> {
    let mut by_place = [0; 16];
    by_place[0] = level;
    Levels { by_place, total: 1 }
}

fn no<T>(bit: u64, rule: Rule) -> Result<T, Stop> {
    Err(Stop::No { bit, rule })
}

/// A block of 16 in bits, its levels by place, and the stream bit after it.
struct Case {
    nc: u8,
    text: &'static str,
    by_place: [i16; 16],
    end: u64,
}

/// Whether a block has these levels and ends there.
fn stands(alloc: Global, case: &Case) -> bool {
    block_in::<16>(alloc, case.nc, case.text) == Ok((levels_of(case.by_place), case.end))
}

/// The three blocks that are worked in I. Richardson's text on CAVLC.
const PUBLISHED: [Case; 3] = [
    Case {
        nc: 0,
        text: "000010001110010111101101",
        by_place: [0, 3, 0, 1, -1, -1, 0, 1, 0, 0, 0, 0, 0, 0, 0, 0],
        end: 56,
    },
    Case {
        nc: 0,
        text: "000000011010001001000010111001100 1",
        by_place: [-2, 4, 3, -3, 0, 0, -1, 0, 0, 0, 0, 0, 0, 0, 0, 0],
        end: 65,
    },
    Case {
        nc: 0,
        text: "0001110001110010",
        by_place: [0, 0, 0, 1, 0, 1, 0, 0, 0, -1, 0, 0, 0, 0, 0, 0],
        end: 48,
    },
];

/// No coefficients, by the table of each nC.
const EMPTY: [Case; 4] = [
    Case {
        nc: 1,
        text: "1",
        by_place: [0; 16],
        end: 33,
    },
    Case {
        nc: 3,
        text: "11",
        by_place: [0; 16],
        end: 34,
    },
    Case {
        nc: 7,
        text: "1111",
        by_place: [0; 16],
        end: 36,
    },
    Case {
        nc: 16,
        text: "000011 1",
        by_place: [0; 16],
        end: 38,
    },
];

/// One level after no trailing one, of suffixLength 0: coeff_token 000101, the level, total_zeros 1.
const OF_SUFFIX_LENGTH_0: [(&str, i16, u64); 7] = [
    ("000101 1 1", 2, 40),
    ("000101 01 1 1", -2, 41),
    ("000101 00000000000001 1 1", -8, 53),
    ("000101 000000000000001 0000 1 1", 9, 58),
    ("000101 000000000000001 1111 1 1", -16, 58),
    ("000101 0000000000000001 111111111110 1 1", 2064, 67),
    ("000101 0000000000000001 111111111111 1 1", -2064, 67),
];

fn is_single(alloc: Global, (text, level, end): &(&str, i16, u64)) -> bool {
    block_in::<16>(alloc, 0, text) == Ok((single(*level), *end))
}

const LEVELS: [Case; 4] = [
    // After three trailing ones a level may be 1: coeff_token 000011 has 4 coefficients and 3 ones, total_zeros 00011 no zeros.
    Case {
        nc: 0,
        text: "000011 000 1 00011 1",
        by_place: [1, 1, 1, 1, 0, 0, 0, 0, 0, 0, 0, 0, 0, 0, 0, 0],
        end: 47,
    },
    Case {
        nc: 0,
        text: "000011 000 000000000000001 0001 00011 1",
        by_place: [-8, 1, 1, 1, 0, 0, 0, 0, 0, 0, 0, 0, 0, 0, 0, 0],
        end: 65,
    },
    // suffixLength from 1 to 6, and at 6 the greatest levelCode, 960 + 4095.
    Case {
        nc: 8,
        text: "111100 001 0 01 01 0001 00 0001 000 01 0110 0001 0000 0001 00001 0001 000110 0000000000000001 111111111111 1000000 1000000 1000000 1000000 \
            1000000 1000000 1000000 1",
        by_place: [1, 1, 1, 1, 1, 1, 1, -2528, 100, -49, 25, 12, 13, 7, -3, 4],
        end: 169,
    },
    // More than ten levels with fewer than three ones begin with suffixLength 1: 11 levels, of which the first has levelCode 30 + 3 + 2.
    Case {
        nc: 8,
        text: "101000 0000000000000001 000000000011 100 100 100 100 100 100 100 100 100 100 011 000 1",
        by_place: [1, 1, 1, 1, 1, 1, 1, 1, 1, 1, 0, 0, 0, 0, 0, -18],
        end: 102,
    },
];

/// As many zeros as there may be: 15 below one level, and 7 between two.
const ZEROS: [Case; 2] = [
    Case {
        nc: 0,
        text: "01 1 000000001 1",
        by_place: [0, 0, 0, 0, 0, 0, 0, 0, 0, 0, 0, 0, 0, 0, 0, -1],
        end: 44,
    },
    Case {
        nc: 0,
        text: "001 00 0011 0001 1",
        by_place: [1, 0, 0, 0, 0, 0, 0, 0, 1, 0, 0, 0, 0, 0, 0, 0],
        end: 45,
    },
];

/// Blocks of 16 that are refused: nC, bits, the bit and the rule.
const REFUSED: [(u8, &str, u64, Rule); 7] = [
    // two coefficients and 7 zeros, of which the first has a run of 8
    (0, "001 00 0011 00001 1", 41, Rule::BlockSize),
    // coeff_token: sixteen zeros
    (0, "00000000 00000000 1", 32, Rule::ResidualWord),
    // the sign after three coefficients with one 1
    (0, "00000110", 40, Rule::ResidualWord),
    // level_prefix after two coefficients without a 1
    (0, "00000111", 40, Rule::ResidualWord),
    // level_suffix of 12 bits, of which two are there
    (0, "000101 0000000000000001 00", 54, Rule::ResidualWord),
    // total_zeros after one coefficient
    (8, "000001 1 0", 39, Rule::ResidualWord),
    // run_before of two coefficients with 11 zeros
    (8, "000110 11 000011 00", 46, Rule::ResidualWord),
];

fn is_refused(alloc: Global, (nc, text, bit, rule): &(u8, &str, u64, Rule)) -> bool {
    block_in::<16>(alloc, *nc, text) == no(*bit, *rule)
}

/// Blocks of 15 that are refused: 16 coefficients, with three ones; one coefficient and 15 zeros.
const REFUSED_OF_15: [(u8, &str, u64); 2] = [(8, "111111 000 1", 32), (0, "01 0 000000001 1", 35)];

fn is_refused_of_15(alloc: Global, (nc, text, bit): &(u8, &str, u64)) -> bool {
    block_in::<15>(alloc, *nc, text) == no(*bit, Rule::BlockSize)
}

fn a_full_block_of_15(alloc: Global) -> bool {
    let text = "111011 010 1 10 10 10 10 10 10 10 10 10 10 10 1";
    let by_place = [1, 1, 1, 1, 1, 1, 1, 1, 1, 1, 1, 1, 1, -1, 1];
    block_in::<15>(alloc, 9, text) == Ok((levels_of(by_place), 64))
}

/// Blocks of chroma DC: bits, levels, the stream bit after them.
const CHROMA_DC: [(&str, [i16; 4], u64); 5] = [
    ("01 1", [0, 0, 0, 0], 34),
    ("1 0 000 1", [0, 0, 0, 1], 37),
    ("001 01 01 0 1", [-1, 0, 1, 0], 40),
    ("000101 010 0 0 1", [1, -1, 0, 1], 43),
    ("0000000 110 0001 1", [-2, 1, -1, -1], 46),
];

fn is_chroma_dc(alloc: Global, (text, by_place, end): &(&str, [i16; 4], u64)) -> bool {
    block_in::<4>(alloc, 16, text) == Ok((levels_of(*by_place), *end))
}

/// The elements of the first published block: name, bit and value.
const ELEMENTS: [(ElementName, u64, i64); 12] = [
    (ElementName::CoeffToken, 32, 23),
    (ElementName::TrailingOnesSignFlag, 39, 0),
    (ElementName::TrailingOnesSignFlag, 40, 1),
    (ElementName::TrailingOnesSignFlag, 41, 1),
    (ElementName::LevelPrefix, 42, 0),
    (ElementName::LevelPrefix, 43, 2),
    (ElementName::LevelSuffix, 46, 0),
    (ElementName::TotalZeros, 47, 3),
    (ElementName::RunBefore, 50, 1),
    (ElementName::RunBefore, 52, 0),
    (ElementName::RunBefore, 53, 0),
    (ElementName::RunBefore, 54, 1),
];

fn each_element_is_told(bits: &mut Bits) -> bool {
    let mut sink = Told::taking(16);
    block::<16, Told>(bits, 1, &mut sink).is_ok() && sink.elements() == ELEMENTS.as_slice()
}

fn a_sink_fails(bits: &mut Bits) -> bool {
    let mut sink = Told::taking(0);
    block::<16, Told>(bits, 0, &mut sink) == Err(Stop::Write) && sink.failed == 1
}

// The slice data of three pictures of one macroblock, after their headers.

const A_PREFIX_OF_16_ZEROS: &[u8] = &[0, 0, 1, 0x65, 0x88, 0x84, 0x93, 0x14, 0, 3, 0x80];

const A_LEVEL_OF_17: &[u8] = &[0, 0, 1, 0x65, 0x88, 0x84, 0x93, 0x14, 0, 4, 0, 0x30];

const SIXTEEN_COEFFICIENTS_OF_15: &[u8] = &[0, 0, 1, 0x65, 0x88, 0x84, 0x84, 0x38, 0, 0x24];

fn is_refused_after_its_prefix(bits: &mut Bits) -> bool {
    let _header = bits.u::<24>();
    block::<16, Heard>(bits, 0, &mut Heard::nothing()) == no(62, Rule::ResidualWord)
}

fn is_level_of_17(bits: &mut Bits) -> bool {
    let _header = bits.u::<24>();
    block::<16, Heard>(bits, 0, &mut Heard::nothing()) == Ok(single(17)) && !bits.more()
}

fn has_too_many(bits: &mut Bits) -> bool {
    let _header = bits.u::<29>();
    block::<15, Heard>(bits, 0, &mut Heard::nothing()) == no(61, Rule::BlockSize)
}
