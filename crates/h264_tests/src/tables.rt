//! Rows and values from the standard's tables, and each call once.
#![tactic(auto)]

use crate::cases::each;
use h264_tables::{
    Entry, Limits, Strength, Table, alpha, beta, chroma_qp, code_word, limits, lookup, tc0,
};
use std::process::Abort;

/// Each table, and how many rows it has.
const TABLES: [(Table, usize); 34] = [
    (Table::CoeffTokenNc0, 62),
    (Table::CoeffTokenNc2, 62),
    (Table::CoeffTokenNc4, 62),
    (Table::CoeffTokenNc8, 62),
    (Table::CoeffTokenChromaDc, 14),
    (Table::TotalZeros1, 16),
    (Table::TotalZeros2, 15),
    (Table::TotalZeros3, 14),
    (Table::TotalZeros4, 13),
    (Table::TotalZeros5, 12),
    (Table::TotalZeros6, 11),
    (Table::TotalZeros7, 10),
    (Table::TotalZeros8, 9),
    (Table::TotalZeros9, 8),
    (Table::TotalZeros10, 7),
    (Table::TotalZeros11, 6),
    (Table::TotalZeros12, 5),
    (Table::TotalZeros13, 4),
    (Table::TotalZeros14, 3),
    (Table::TotalZeros15, 2),
    (Table::TotalZerosChromaDc1, 4),
    (Table::TotalZerosChromaDc2, 3),
    (Table::TotalZerosChromaDc3, 2),
    (Table::RunBefore1, 2),
    (Table::RunBefore2, 3),
    (Table::RunBefore3, 4),
    (Table::RunBefore4, 5),
    (Table::RunBefore5, 6),
    (Table::RunBefore6, 7),
    (Table::RunBefore7, 15),
    (Table::CodedBlockPatternIntra, 48),
    (Table::CodedBlockPatternInter, 48),
    (Table::InvertedBit, 2),
    (Table::LevelPrefix, 16),
];

/// The bits of a text of 0s and 1s, with 0s after them up to 16.
fn bits(text: &str) -> u16 {
    let mut all = 0u32;
    let mut left = 16u32;
    for byte in text.as_bytes() {
        left = left.saturating_sub(1);
        if *byte == b'1' {
            all |= 1u32 << (left & 15);
        }
    }
    (all & 0xffff) as u16
}

/// Whether the word of a row is found, with 0s after it and with 1s.
fn row_is_found(table: Table, i: usize) -> bool {
    let Some(word) = code_word(table, i) else {
        return false;
    };
    let unused = 16u32.saturating_sub(u32::from(word.length));
    let with_0s = ((u32::from(word.bits) << unused) & 0xffff) as u16;
    let with_1s = with_0s | (0xffffu32 >> (16 - unused) & 0xffff) as u16;
    let found = Some(Entry {
        length: word.length,
        value: word.value,
    });
    lookup(table, with_0s) == found && lookup(table, with_1s) == found
}

fn each_row_is_found(rt: &impl Abort) {
    for (table, rows) in &TABLES {
        for i in 0..*rows {
            assert!(rt; row_is_found(*table, i), "row {i} of {table:?}");
        }
        assert!(rt; code_word(*table, *rows).is_none(), "{table:?} ends");
    }
}

/// Words of the standard with their values.
const WORDS: [(Table, &str, u8); 30] = [
    (Table::CoeffTokenNc0, "1", 0),
    (Table::CoeffTokenNc0, "00011", 15),
    (Table::CoeffTokenNc0, "0000000000001000", 67),
    (Table::CoeffTokenNc2, "11", 0),
    (Table::CoeffTokenNc2, "0101", 15),
    (Table::CoeffTokenNc0, "000000000000001", 53),
    (Table::CoeffTokenNc2, "0000000000001", 63),
    (Table::CoeffTokenNc4, "1111", 0),
    (Table::CoeffTokenNc4, "0000000001", 64),
    (Table::CoeffTokenNc8, "000011", 0),
    (Table::CoeffTokenNc8, "000000", 4),
    (Table::CoeffTokenNc8, "111111", 67),
    (Table::CoeffTokenChromaDc, "01", 0),
    (Table::CoeffTokenChromaDc, "0000000", 19),
    (Table::TotalZeros1, "000000001", 15),
    (Table::TotalZeros4, "00011", 0),
    (Table::TotalZeros11, "1", 4),
    (Table::TotalZeros15, "0", 0),
    (Table::TotalZerosChromaDc1, "000", 3),
    (Table::TotalZerosChromaDc3, "0", 1),
    (Table::RunBefore1, "0", 1),
    (Table::RunBefore6, "000", 1),
    (Table::RunBefore6, "100", 6),
    (Table::RunBefore7, "00000000001", 14),
    (Table::CodedBlockPatternIntra, "1", 47),
    (Table::CodedBlockPatternIntra, "00000110000", 41),
    (Table::CodedBlockPatternInter, "1", 0),
    (Table::CodedBlockPatternInter, "00110", 8),
    (Table::InvertedBit, "0", 1),
    (Table::LevelPrefix, "0000000000000001", 15),
];

fn is_word((table, text, value): &(Table, &str, u8)) -> bool {
    let length = (text.len() & 0xff) as u8;
    matches!(lookup(*table, bits(text)), Some(entry) if entry.length == length && entry.value == *value)
}

/// Bits that begin with no word.
const NO_WORDS: [(Table, &str); 11] = [
    (Table::CoeffTokenNc0, "0000000000000001"),
    (Table::CoeffTokenNc0, "0000000000000000"),
    (Table::CoeffTokenNc2, "0000000000000"),
    (Table::CoeffTokenNc4, "0000000000"),
    (Table::CoeffTokenNc8, "000010"),
    (Table::CoeffTokenNc8, "000111"),
    (Table::TotalZeros1, "000000000"),
    (Table::RunBefore7, "00000000000"),
    (Table::CodedBlockPatternIntra, "00000110001"),
    (Table::CodedBlockPatternInter, "00000111111"),
    (Table::LevelPrefix, "0000000000000000"),
];

fn is_no_word((table, text): &(Table, &str)) -> bool {
    lookup(*table, bits(text)).is_none()
}

/// nC, and the table of coeff_token.
const COEFF_TOKENS: [(u8, Table); 4] = [
    (1, Table::CoeffTokenNc0),
    (2, Table::CoeffTokenNc2),
    (7, Table::CoeffTokenNc4),
    (8, Table::CoeffTokenNc8),
];

fn is_chosen((nc, table): &(u8, Table)) -> bool {
    Table::coeff_token(*nc) == *table
}

fn other_tables_are_chosen() -> bool {
    Table::total_zeros(1) == Table::TotalZeros1
        && Table::total_zeros(15) == Table::TotalZeros15
        && Table::total_zeros_chroma_dc(3) == Table::TotalZerosChromaDc3
        && Table::run_before(6) == Table::RunBefore6
        && Table::run_before(14) == Table::RunBefore7
}

/// level_idc and constraint_set3_flag, and MaxFS, MaxDpbMbs and the limit of vectors.
const LIMITS: [(u8, bool, u32, u32, u32); 10] = [
    (9, false, 99, 396, 64),
    (10, false, 99, 396, 64),
    (10, true, 99, 396, 64),
    (11, false, 396, 900, 128),
    (11, true, 99, 396, 64),
    (12, true, 396, 2376, 128),
    (21, false, 792, 4752, 256),
    (30, false, 1620, 8100, 256),
    (40, false, 8192, 32768, 512),
    (52, false, 36864, 184320, 512),
];

/// level_idc of what is no level up to 5.2.
const NO_LEVELS: [u8; 9] = [0, 8, 14, 53, 60, 61, 62, 99, 255];

fn has_limits(
    (level_idc, set3, max_fs, max_dpb_mbs, max_vector): &(u8, bool, u32, u32, u32),
) -> bool {
    let expected = Limits {
        max_fs: *max_fs,
        max_dpb_mbs: *max_dpb_mbs,
        max_vector: *max_vector,
    };
    limits(*level_idc, *set3) == Some(expected)
}

fn is_no_level(level_idc: &u8) -> bool {
    limits(*level_idc, true).is_none()
}

/// qPI before its offset, the offset, and QPC.
const CHROMA: [(u8, i8, u8); 8] = [
    (0, -12, 0),
    (26, 0, 26),
    (29, 0, 29),
    (29, 1, 29),
    (34, 0, 32),
    (51, 0, 39),
    (51, 12, 39),
    (40, -10, 29),
];

fn is_chroma_qp((qp, offset, expected): &(u8, i8, u8)) -> bool {
    chroma_qp(*qp, *offset) == *expected
}

/// indexA or indexB, alpha and beta.
const THRESHOLDS: [(u8, u8, u8); 7] = [
    (0, 0, 0),
    (15, 0, 0),
    (16, 4, 2),
    (26, 15, 6),
    (34, 40, 10),
    (49, 226, 17),
    (51, 255, 18),
];

fn are_thresholds((index, a, b): &(u8, u8, u8)) -> bool {
    *index <= 51 && alpha(*index) == *a && beta(*index) == *b
}

/// indexA, and tC0 where bS is 1, 2 and 3.
const CLIPS: [(u8, u8, u8, u8); 6] = [
    (16, 0, 0, 0),
    (17, 0, 0, 1),
    (23, 1, 1, 1),
    (36, 2, 3, 4),
    (37, 3, 3, 5),
    (51, 13, 17, 25),
];

fn are_clips((index, one, two, three): &(u8, u8, u8, u8)) -> bool {
    *index <= 51
        && tc0(*index, Strength::One) == *one
        && tc0(*index, Strength::Two) == *two
        && tc0(*index, Strength::Three) == *three
}

#[test]
fn code_words(rt: HostRuntime) {
    each_row_is_found(&rt);
    each(&rt, &WORDS, is_word);
    each(&rt, &NO_WORDS, is_no_word);
}

#[test]
fn choices(rt: HostRuntime) {
    each(&rt, &COEFF_TOKENS, is_chosen);
    assert!(rt; other_tables_are_chosen());
}

#[test]
fn values(rt: HostRuntime) {
    each(&rt, &LIMITS, has_limits);
    each(&rt, &NO_LEVELS, is_no_level);
    each(&rt, &CHROMA, is_chroma_qp);
    each(&rt, &THRESHOLDS, are_thresholds);
    each(&rt, &CLIPS, are_clips);
}
