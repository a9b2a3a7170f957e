//! What no clause says: words and units worked by hand, and what is written read back.
#![tactic(auto)]

ghost use Rattle.std.specs.Prelude.{◌<◌, ◌≤◌};

use crate::sinks::Heard;
use crate::streams::{rbsp_of, rbsp_of_bytes};
use h264_base::Stop;
use h264_bits::Bits;
use h264_cavlc::block;
use h264_tables::Table;
use h264_write::{WriteError, Writer, unit};
use std::alloc::{AllocError, Global};
use std::test::Fail;

/// Whether these bytes are written.
fn are_written(alloc: Global, writer: &Writer, bytes: &[u8]) -> Result<bool, AllocError> {
    Ok(writer.bytes(alloc)?.as_slice() == bytes)
}

/// 1, 010, 011, 00100, and 010, 011.
fn write_numbers_by_hand(writer: &mut Writer) -> Result<(), AllocError> {
    for number in 0..4 {
        writer.ue(number)?;
    }
    writer.se(1)?;
    writer.se(-1)
}

/// 101, 1, 0.
fn write_bits_by_hand(writer: &mut Writer) -> Result<(), AllocError> {
    writer.u(3, 5)?;
    writer.te(1, 0)?;
    writer.te(1, 1)
}

fn words_by_hand(alloc: Global) -> Result<bool, AllocError> {
    let mut writer = Writer::new(alloc);
    write_numbers_by_hand(&mut writer)?;
    write_bits_by_hand(&mut writer)?;
    writer.trailing()?;
    let written = are_written(alloc, &writer, &[0xA6, 0x44, 0xED])?;
    writer.trailing()?;
    Ok(written && are_written(alloc, &writer, &[0xA6, 0x44, 0xED, 0x80])?)
}

/// 31 zeros and 32 ones, and the trailing 1.
fn the_longest_unsigned(alloc: Global) -> Result<bool, AllocError> {
    let mut writer = Writer::new(alloc);
    writer.ue(4294967294)?;
    writer.trailing()?;
    are_written(alloc, &writer, &[0, 0, 0, 1, 0xFF, 0xFF, 0xFF, 0xFF])
}

/// 31 zeros, 32 ones, then 1, 30 zeros, 1, and one 0 more.
fn the_longest_signed(alloc: Global) -> Result<bool, AllocError> {
    let mut writer = Writer::new(alloc);
    writer.se(-2147483647)?;
    writer.u(32, 2147483649)?;
    let bytes = [0, 0, 0, 1, 0xFF, 0xFF, 0xFF, 0xFF, 0, 0, 0, 2];
    are_written(alloc, &writer, &bytes)
}

fn a_unit_by_hand(alloc: Global) -> Result<bool, Fail> {
    let bytes = [0, 0, 0, 1, 0, 0, 3, 0, 0, 4];
    let body = unit(alloc, 0x65, &bytes)?;
    let rbsp = rbsp_of(alloc, &body)?;
    let escaped = [0x65, 0, 0, 3, 0, 1, 0, 0, 3, 3, 0, 0, 4];
    Ok(body.as_slice() == escaped.as_slice() && rbsp.bytes() == bytes.as_slice())
}

/// The first block that is worked in I. Richardson's text on CAVLC: each table, and the value of its word.
const PUBLISHED: [(Table, u8); 12] = [
    (Table::CoeffTokenNc0, 23),
    (Table::InvertedBit, 1),
    (Table::InvertedBit, 0),
    (Table::InvertedBit, 0),
    (Table::LevelPrefix, 0),
    (Table::LevelPrefix, 2),
    (Table::InvertedBit, 1),
    (Table::TotalZeros5, 3),
    (Table::RunBefore3, 1),
    (Table::RunBefore2, 0),
    (Table::RunBefore2, 0),
    (Table::RunBefore2, 1),
];

/// Whether each word is written.
fn words_are_written(writer: &mut Writer, words: &[(Table, u8)]) -> bool {
    for (table, value) in words {
        if writer.word(*table, *value) != Ok(()) {
            return false;
        }
    }
    true
}

fn a_published_block_is_written(alloc: Global) -> Result<bool, AllocError> {
    let mut writer = Writer::new(alloc);
    let written = words_are_written(&mut writer, &PUBLISHED);
    Ok(written && are_written(alloc, &writer, &[0x08, 0xE5, 0xED])?)
}

fn a_published_block_is_read(alloc: Global) -> Result<bool, Stop> {
    let rbsp = rbsp_of_bytes(alloc, &[0x08, 0xE5, 0xED])?;
    let levels = block::<16, Heard>(&mut Bits::new(&rbsp), 0, &mut Heard::nothing())?;
    Ok(levels.by_place == [0, 3, 0, 1, -1, -1, 0, 1, 0, 0, 0, 0, 0, 0, 0, 0])
}

/// Values of which a table has a word, or none.
const LAST_VALUES: [(Table, u8, Result<(), WriteError>); 4] = [
    (Table::TotalZeros15, 1, Ok(())),
    (Table::TotalZeros15, 2, Err(WriteError::NoWord)),
    (Table::CoeffTokenChromaDc, 20, Err(WriteError::NoWord)),
    (Table::CoeffTokenChromaDc, 19, Ok(())),
];

/// Whether each value is written, or refused for want of a word.
fn are_answered(writer: &mut Writer) -> bool {
    for (table, value, answer) in &LAST_VALUES {
        if writer.word(*table, *value) != *answer {
            return false;
        }
    }
    true
}

fn values_without_a_word(alloc: Global) -> Result<bool, AllocError> {
    let mut writer = Writer::new(alloc);
    let answered = are_answered(&mut writer);
    Ok(answered && are_written(alloc, &writer, &[0x80])?)
}

/// A number that looks random, from the one before.
fn next(seed: u32) -> u32 {
    seed.wrapping_mul(1_664_525).wrapping_add(1_013_904_223)
}

/// Writes a number below 65536 in three ways.
fn write_numbers(writer: &mut Writer, number: u32) -> Result<(), Fail>
    requires { number < 65536 }
{
    writer.u(16, number)?;
    writer.ue(number)?;
    writer.se(number as i32 - 30000)?;
    Ok(())
}

/// Writes words with values from a number.
fn write_words(writer: &mut Writer, number: u32) -> Result<(), Fail> {
    writer.te(1, number % 2)?;
    writer.te(5, number % 6)?;
    writer.word(Table::CodedBlockPatternIntra, (number % 48) as u8)?;
    writer.word(Table::LevelPrefix, (number % 16) as u8)?;
    Ok(())
}

/// Whether the number stands there in three ways.
fn numbers_stand(bits: &mut Bits, number: u32) -> bool
    requires { number < 65536 }
{
    bits.u::<16>() == Ok(number)
        && bits.ue() == Ok(number)
        && bits.se() == Ok(number as i32 - 30000)
}

/// Whether the words stand there.
fn words_stand(bits: &mut Bits, number: u32) -> bool {
    bits.te(1) == Ok(number % 2)
        && bits.te(5) == Ok(number % 6)
        && bits.word(Table::CodedBlockPatternIntra) == Ok((number % 48) as u8)
        && bits.word(Table::LevelPrefix) == Ok((number % 16) as u8)
}

/// 300 elements of each kind, with numbers that look random.
fn elements_written(alloc: Global) -> Result<Vec<u8>, Fail> {
    let mut writer = Writer::new(alloc);
    let mut seed = 264;
    for _ in 0..300 {
        seed = next(seed);
        write_numbers(&mut writer, seed / 65536)?;
        write_words(&mut writer, seed / 65536)?;
    }
    writer.trailing()?;
    Ok(writer.bytes(alloc)?)
}

/// Whether those elements stand there, and nothing else.
fn elements_stand(bits: &mut Bits) -> bool {
    let mut seed = 264;
    for _ in 0..300 {
        seed = next(seed);
        if !numbers_stand(bits, seed / 65536) || !words_stand(bits, seed / 65536) {
            return false;
        }
    }
    bits.trailing() == Ok(())
}

fn elements_read_back(alloc: Global) -> Result<bool, Fail> {
    let bytes = elements_written(alloc)?;
    let rbsp = rbsp_of_bytes(alloc, &bytes)?;
    Ok(rbsp.bytes() == bytes.as_slice() && elements_stand(&mut Bits::new(&rbsp)))
}

/// Writes the last `n` bits of a number.
fn write_bits(writer: &mut Writer, n: u32, number: u32) -> Result<(), Fail>
    requires { n ≤ 32 }
{
    for i in 0..n {
        writer.u(1, (number >> (n - 1 - i)) % 2)?;
    }
    Ok(())
}

/// level_prefix of a levelCode, and level_suffix with its length before it (9.2.2.1).
fn level_words(code: u32, suffix_length: u32) -> (u8, u32, u32)
    ensures { result.1 ≤ 32 }
{
    let length = suffix_length.min(6);
    let prefix = code >> length;
    if length == 0 && code >= 14 && code < 30 {
        (14, 4, code - 14)
    } else if length == 0 && code >= 30 {
        (15, 12, code - 30)
    } else if prefix < 15 {
        (prefix as u8, length, code)
    } else {
        (15, 12, code.wrapping_sub(15 << length))
    }
}

fn write_level_code(writer: &mut Writer, code: u32, suffix_length: u32) -> Result<(), Fail> {
    let (prefix, length, suffix) = level_words(code, suffix_length);
    writer.word(Table::LevelPrefix, prefix)?;
    write_bits(writer, length, suffix)
}

/// levelCode of a level.
fn level_code(level: i16, never_one: bool) -> u32 {
    let doubled = u32::from(level.unsigned_abs()).wrapping_mul(2);
    let code = doubled.wrapping_sub(if level > 0 { 2 } else { 1 });
    if never_one {
        code.wrapping_sub(2)
    } else {
        code
    }
}

/// Writes the levels, from the highest place down, of which the first `ones` are trailing ones.
fn write_levels(writer: &mut Writer, levels: &[(u8, i16)], ones: usize) -> Result<(), Fail> {
    let mut suffix_length = u32::from(levels.len() > 10 && ones < 3);
    for (k, (_place, level)) in levels.iter().enumerate() {
        if k < ones {
            writer.u(1, u32::from(*level < 0))?;
        } else {
            let never_one = k == ones && ones < 3;
            write_level_code(writer, level_code(*level, never_one), suffix_length)?;
            let length = suffix_length.max(1).min(6);
            let raised = u32::from(level.unsigned_abs()) > 3 << (length - 1);
            suffix_length = if raised { length + 1 } else { length };
        }
    }
    Ok(())
}

/// Writes total_zeros and the runs of levels with their places, from the highest down.
fn write_zeros(writer: &mut Writer, levels: &[(u8, i16)], total: u8) -> Result<(), Fail> {
    let Some((highest, _level)) = levels.first() else {
        return Ok(());
    };
    let mut left = highest.wrapping_add(1).wrapping_sub(total);
    if total > 0 && total < 16 {
        writer.word(Table::total_zeros(total), left)?;
    }
    let mut above = *highest;
    for (k, (place, _level)) in levels.iter().enumerate() {
        if k > 0 && left > 0 {
            let run = above.wrapping_sub(*place).wrapping_sub(1);
            writer.word(Table::run_before(left), run)?;
            left = left.wrapping_sub(run);
        }
        above = *place;
    }
    Ok(())
}

/// The levels of a block with their places, from the highest down.
fn levels_of(alloc: Global, by_place: &[i16; 16]) -> Result<Vec<(u8, i16)>, AllocError> {
    let mut levels = Vec::new(alloc);
    for k in 0..16 {
        let place = 15 - k;
        if by_place[place] != 0 {
            levels.push((place as u8, by_place[place]))?;
        }
    }
    Ok(levels)
}

/// How many of the first levels are trailing ones.
fn ones_of(levels: &[(u8, i16)]) -> u8 {
    let mut ones = 0u8;
    for (_place, level) in levels {
        if ones == 3 || level.unsigned_abs() != 1 {
            return ones;
        }
        ones = ones.wrapping_add(1);
    }
    ones
}

/// Writes a block of 16 (7.3.5.3.2).
fn write_block(
    alloc: Global,
    writer: &mut Writer,
    nc: u8,
    by_place: &[i16; 16],
) -> Result<(), Fail> {
    let levels = levels_of(alloc, by_place)?;
    let total = (levels.len() & 31) as u8;
    let ones = ones_of(&levels);
    writer.word(Table::coeff_token(nc), total.wrapping_mul(4) | ones)?;
    write_levels(writer, &levels, usize::from(ones))?;
    write_zeros(writer, &levels, total)
}

/// A block of levels up to `most` that looks random: each is 0 unless its number is a multiple of `rare`.
fn random_block(seed: u32, rare: u32, most: u32) -> [i16; 16]
    requires rare { 0 < rare }
    requires most { 0 < most }
    requires small { most < 3000 }
{
    let mut by_place = [0; 16];
    let mut number = seed;
    for level in by_place.iter_mut() {
        number = next(number);
        if number / 65536 % rare == 0 {
            let magnitude = (number / 256 % most) as i16;
            *level = if number / 128 % 2 == 0 {
                magnitude
            } else {
                -magnitude
            };
        }
    }
    by_place
}

/// The rarity and the greatest level of block `i`.
fn shape_of(i: u32) -> (u32, u32)
    ensures rare { 0 < result.0 }
    ensures most { 0 < result.1 }
    ensures small { result.1 < 3000 }
{
    (
        i % 4 + 1,
        if i % 3 == 0 {
            2
        } else if i % 3 == 1 {
            40
        } else {
            2000
        },
    )
}

/// Block `i`, which looks random.
fn block_of(i: u32) -> [i16; 16] {
    let (rare, most) = shape_of(i);
    random_block(i, rare, most)
}

fn blocks_written(alloc: Global) -> Result<Vec<u8>, Fail> {
    let mut writer = Writer::new(alloc);
    for i in 0..200u32 {
        write_block(alloc, &mut writer, (i % 10) as u8, &block_of(i))?;
    }
    writer.trailing()?;
    Ok(writer.bytes(alloc)?)
}

/// Whether those blocks stand there, and nothing else.
fn blocks_stand(bits: &mut Bits) -> Result<bool, Stop> {
    for i in 0..200u32 {
        let levels = block::<16, Heard>(bits, (i % 10) as u8, &mut Heard::nothing())?;
        if levels.by_place != block_of(i) {
            return Ok(false);
        }
    }
    Ok(bits.trailing() == Ok(()))
}

fn blocks_read_back(alloc: Global) -> Result<bool, Fail> {
    let rbsp = rbsp_of_bytes(alloc, &blocks_written(alloc)?)?;
    Ok(blocks_stand(&mut Bits::new(&rbsp))?)
}

#[test]
fn written_by_hand(rt: HostRuntime) -> Result<(), Fail> {
    assert!(rt; words_by_hand(rt.alloc())?);
    assert!(rt; the_longest_unsigned(rt.alloc())?);
    assert!(rt; the_longest_signed(rt.alloc())?);
    assert!(rt; a_unit_by_hand(rt.alloc())?);
    Ok(())
}

#[test]
fn words_of_tables(rt: HostRuntime) -> Result<(), Fail> {
    assert!(rt; a_published_block_is_written(rt.alloc())?);
    assert!(rt; a_published_block_is_read(rt.alloc())?);
    assert!(rt; values_without_a_word(rt.alloc())?);
    Ok(())
}

#[test]
fn read_back(rt: HostRuntime) -> Result<(), Fail> {
    assert!(rt; elements_read_back(rt.alloc())?);
    assert!(rt; blocks_read_back(rt.alloc())?);
    Ok(())
}
