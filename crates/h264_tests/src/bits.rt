//! What no clause says: code words and places worked by hand.
#![tactic(auto)]

use crate::sinks::Heard;
use crate::streams::rbsp_in;
use h264_base::{ElementName, Rule, Stop};
use h264_bits::{
    Bits, Found, NoWord, look, read_bits, read_se, read_te, read_trailing, read_u, read_ue,
    read_word,
};
use h264_rbsp::Rbsp;
use h264_tables::Table;
use std::test::Fail;

/// How an element is read.
#[derive(Clone, Copy)]
enum Form {
    /// u(n).
    Fixed(u32),
    /// ue(v).
    Unsigned,
    /// se(v).
    Signed,
    /// te(v) of a range.
    Truncated(u32),
    /// A word of a table.
    Word(Table),
}

use Form::{Fixed, Signed, Truncated, Unsigned, Word};

/// An element with its value, or the rule that is broken there, and its place.
type Row = (Form, Result<i64, Rule>, u64);

/// A stream, its elements, and the place after them.
type Case = (&'static [u8], &'static [Row], u64);

/// The value and the place of the element that stands there.
fn read(bits: &mut Bits, form: Form, sink: &mut Heard) -> Result<(i64, u64), Stop> {
    let name = ElementName::LevelIdc;
    match form {
        Fixed(width) => {
            let found = read_bits(bits, name, width.min(32), sink)?;
            Ok((i64::from(found.value), found.bit))
        }
        Unsigned => {
            let found = read_ue(bits, name, sink)?;
            Ok((i64::from(found.value), found.bit))
        }
        Signed => {
            let found = read_se(bits, name, sink)?;
            Ok((i64::from(found.value), found.bit))
        }
        Truncated(range) => {
            let found = read_te(bits, name, range.max(1), sink)?;
            Ok((i64::from(found.value), found.bit))
        }
        Word(table) => {
            let found = read_word(bits, Rule::ResidualWord, name, table, sink)?;
            Ok((i64::from(found.value), found.bit))
        }
    }
}

/// What is to be answered of an element.
fn answer(value: Result<i64, Rule>, bit: u64) -> Result<(i64, u64), Stop> {
    match value {
        Ok(value) => Ok((value, bit)),
        Err(rule) => Err(Stop::No { bit, rule }),
    }
}

/// Whether an element is the one of a row, which the sink is told if it is there.
fn is_read(bits: &mut Bits, (form, value, bit): &Row, sink: &mut Heard) -> bool {
    let told = sink.count;
    if read(bits, *form, sink) != answer(*value, *bit) {
        return false;
    }
    match value {
        Ok(value) => {
            sink.count == told.wrapping_add(1) && sink.bit == *bit && sink.value == *value
        }
        Err(_) => sink.count == told,
    }
}

/// Whether the elements of an RBSP are these, and end at this place.
fn are_read(rbsp: &Rbsp, rows: &[Row], end: u64) -> bool {
    let mut bits = Bits::new(rbsp);
    let mut sink = Heard::nothing();
    for row in rows {
        if !is_read(&mut bits, row, &mut sink) {
            return false;
        }
    }
    bits.stream_bit() == end
}

/// The sequence parameter set of one macroblock at level 1: its unit begins at byte 4, its RBSP at bit 40.
const SET: &[u8] = &[0, 0, 0, 1, 0x67, 0x42, 0xC0, 0x0A, 0xDA, 0x71];

/// Its fields up to level_idc, and the numbers after them.
const SET_ELEMENTS: &[Row] = &[
    (Fixed(8), Ok(66), 40),
    (Fixed(1), Ok(1), 48),
    (Fixed(1), Ok(1), 49),
    (Fixed(4), Ok(0), 50),
    (Fixed(2), Ok(0), 54),
    (Fixed(8), Ok(10), 56),
    (Unsigned, Ok(0), 64),
    (Unsigned, Ok(0), 65),
    (Unsigned, Ok(2), 66),
    (Unsigned, Ok(1), 69),
];

/// 1, 010, 011, 00100, 00101, 0001000, and a 1 after them.
const GOLOMB: &[u8] = &[
    0,
    0,
    1,
    0x67,
    0b1010_0110,
    0b0100_0010,
    0b1000_1000,
    0b1000_0000,
];

const GOLOMB_UNSIGNED: &[Row] = &[
    (Unsigned, Ok(0), 32),
    (Unsigned, Ok(1), 33),
    (Unsigned, Ok(2), 36),
    (Unsigned, Ok(3), 39),
    (Unsigned, Ok(4), 44),
    (Unsigned, Ok(7), 49),
];

const GOLOMB_SIGNED: &[Row] = &[
    (Signed, Ok(0), 32),
    (Signed, Ok(1), 33),
    (Signed, Ok(-1), 36),
    (Signed, Ok(2), 39),
    (Signed, Ok(-2), 44),
    (Signed, Ok(4), 49),
];

const GOLOMB_TRUNCATED: &[Row] = &[(Truncated(2), Ok(0), 32), (Truncated(2), Ok(1), 33)];

/// 31 zeros and 32 ones; emulation prevention put in the 03.
const LONGEST: &[u8] = &[0, 0, 1, 0x67, 0, 0, 3, 0, 1, 0xFF, 0xFF, 0xFF, 0xFF];

/// 32 zeros and 40 ones.
const TOO_LONG: &[u8] = &[0, 0, 1, 0x67, 0, 0, 3, 0, 0, 0xFF, 0xFF, 0xFF, 0xFF, 0xFF];

/// One zero more is no word; but there are fields of 32 and of 31 bits.
const TOO_LONG_ELEMENTS: &[Row] = &[
    (Unsigned, Err(Rule::CodeWord), 32),
    (Signed, Err(Rule::CodeWord), 32),
    (Fixed(32), Ok(0), 32),
    (Fixed(31), Ok(2147483647), 72),
];

/// coeff_token 00011, run_before 001, two inverted bits, total_zeros 110, and 000.
const WORDS: &[u8] = &[0, 0, 1, 0x65, 0b0001_1001, 0b0111_0000];

const TABLE_WORDS: &[Row] = &[
    (Word(Table::CoeffTokenNc0), Ok(15), 32),
    (Word(Table::RunBefore4), Ok(3), 37),
    (Word(Table::InvertedBit), Ok(1), 40),
    (Word(Table::InvertedBit), Ok(0), 41),
    (Word(Table::TotalZeros2), Ok(1), 42),
    (Word(Table::LevelPrefix), Err(Rule::ResidualWord), 45),
    (Word(Table::CoeffTokenNc0), Err(Rule::ResidualWord), 45),
];

/// Each 03 after 00 00 is dropped, so that the bits after it stand one byte further on.
const DROPPED: &[u8] = &[0, 0, 1, 0x65, 0xAA, 0, 0, 3, 1, 0, 0, 3, 1, 0x80];

const DROPPED_FIELDS: &[Row] = &[
    (Fixed(8), Ok(170), 32),
    (Fixed(8), Ok(0), 40),
    (Fixed(8), Ok(0), 48),
    (Fixed(8), Ok(1), 64),
    (Fixed(8), Ok(0), 72),
    (Fixed(8), Ok(0), 80),
    (Fixed(8), Ok(1), 96),
];

const CASES: [Case; 9] = [
    (SET, SET_ELEMENTS, 72),
    (GOLOMB, GOLOMB_UNSIGNED, 56),
    (GOLOMB, GOLOMB_SIGNED, 56),
    (GOLOMB, GOLOMB_TRUNCATED, 36),
    (LONGEST, &[(Unsigned, Ok(4294967294), 32)], 103),
    (LONGEST, &[(Signed, Ok(-2147483647), 32)], 103),
    (TOO_LONG, TOO_LONG_ELEMENTS, 103),
    (WORDS, TABLE_WORDS, 45),
    (DROPPED, DROPPED_FIELDS, 104),
];

#[test]
fn elements(rt: HostRuntime) -> Result<(), Fail> {
    for (i, (stream, rows, end)) in CASES.iter().enumerate() {
        let rbsp = rbsp_in(rt.alloc(), stream)?;
        assert!(rt; are_read(&rbsp, rows, *end), "case {i}");
    }
    Ok(())
}

#[test]
fn ends(rt: HostRuntime) -> Result<(), Fail> {
    let golomb = rbsp_in(rt.alloc(), GOLOMB)?;
    assert!(rt; words_end(&mut Bits::new(&golomb)));
    let set = rbsp_in(rt.alloc(), SET)?;
    assert!(rt; a_set_ends(&mut Bits::new(&set))?);
    Ok(())
}

/// No more data follow the words of `GOLOMB`.
fn words_end(bits: &mut Bits) -> bool {
    bits.u::<24>() == Ok(0b1010_0110_0100_0010_1000_1000) && !bits.more()
}

/// Seven bits of `SET` follow its first 32, and then its trailing bits.
fn a_set_ends(bits: &mut Bits) -> Result<bool, Stop> {
    let mut sink = Heard::nothing();
    let _first = bits.u::<32>();
    let rest = read_u::<7, Heard>(bits, ElementName::LevelSuffix, &mut sink)?;
    let ahead = look(bits, &sink);
    read_trailing(bits, &sink)?;
    Ok(
        rest == Found { bit: 72, value: 56 }
            && ahead.bit == 79
            && !ahead.follows
            && bits.stream_bit() == 80
            && bits.ue() == Err(NoWord),
    )
}
