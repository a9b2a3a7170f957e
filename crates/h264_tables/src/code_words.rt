//! The rows of the tables of code words.
#![tactic(auto)]

ghost use Rattle.std.specs.Prelude.{◌≡◌, ◌≤◌, length, slice_get};
ghost use Rattle.std.specs.Option.{option_map};
ghost use Rattle.h264_tables.specs.CodeWord.{word_of};
ghost use Rattle.h264_tables.specs.Columns.{rows_from};
ghost use Rattle.h264_tables.specs.Table.{rows_of};

use crate::table::Table;
use crate::{
    coded_block_pattern, coeff_token, inverted_bit, level_prefix, run_before, total_zeros,
};

/// A code word: its length, the number that its bits spell, the first the highest, and what it stands for.
#[derive(Clone, Copy, Debug, PartialEq, Eq)]
pub struct CodeWord {
    pub length: u8,
    pub bits: u16,
    pub value: u8,
}

/// Row `i` of a table that is given by its columns.
fn row_at(lengths: &[u8], bits: &[u16], values: &[u8], i: usize) -> Option<CodeWord>
    requires spelled { length bits.now ≡ length lengths.now }
    requires valued { length lengths.now ≤ length values.now }
    ensures { result ≡ option_map word_of (slice_get (rows_from lengths.now bits.now values.now) i) }
{
    if i >= lengths.len() {
        return None;
    }
    Some(CodeWord {
        length: lengths[i],
        bits: bits[i],
        value: values[i],
    })
}

/// Row `i` of the table, as the standard lists them, from 0; None past the last.
pub fn code_word(table: Table, i: usize) -> Option<CodeWord>
    ensures { result ≡ option_map word_of (slice_get (rows_of table) i) }
{
    match table {
        Table::CoeffTokenNc0 => row_at(
            &coeff_token::NC0_LENGTHS,
            &coeff_token::NC0_BITS,
            &coeff_token::VALUES,
            i,
        ),
        Table::CoeffTokenNc2 => row_at(
            &coeff_token::NC2_LENGTHS,
            &coeff_token::NC2_BITS,
            &coeff_token::VALUES,
            i,
        ),
        Table::CoeffTokenNc4 => row_at(
            &coeff_token::NC4_LENGTHS,
            &coeff_token::NC4_BITS,
            &coeff_token::VALUES,
            i,
        ),
        Table::CoeffTokenNc8 => row_at(
            &coeff_token::NC8_LENGTHS,
            &coeff_token::NC8_BITS,
            &coeff_token::VALUES,
            i,
        ),
        Table::CoeffTokenChromaDc => row_at(
            &coeff_token::CHROMA_DC_LENGTHS,
            &coeff_token::CHROMA_DC_BITS,
            &coeff_token::VALUES,
            i,
        ),
        Table::TotalZeros1 => row_at(
            &total_zeros::INDEX_1_LENGTHS,
            &total_zeros::INDEX_1_BITS,
            &total_zeros::VALUES,
            i,
        ),
        Table::TotalZeros2 => row_at(
            &total_zeros::INDEX_2_LENGTHS,
            &total_zeros::INDEX_2_BITS,
            &total_zeros::VALUES,
            i,
        ),
        Table::TotalZeros3 => row_at(
            &total_zeros::INDEX_3_LENGTHS,
            &total_zeros::INDEX_3_BITS,
            &total_zeros::VALUES,
            i,
        ),
        Table::TotalZeros4 => row_at(
            &total_zeros::INDEX_4_LENGTHS,
            &total_zeros::INDEX_4_BITS,
            &total_zeros::VALUES,
            i,
        ),
        Table::TotalZeros5 => row_at(
            &total_zeros::INDEX_5_LENGTHS,
            &total_zeros::INDEX_5_BITS,
            &total_zeros::VALUES,
            i,
        ),
        Table::TotalZeros6 => row_at(
            &total_zeros::INDEX_6_LENGTHS,
            &total_zeros::INDEX_6_BITS,
            &total_zeros::VALUES,
            i,
        ),
        Table::TotalZeros7 => row_at(
            &total_zeros::INDEX_7_LENGTHS,
            &total_zeros::INDEX_7_BITS,
            &total_zeros::VALUES,
            i,
        ),
        Table::TotalZeros8 => row_at(
            &total_zeros::INDEX_8_LENGTHS,
            &total_zeros::INDEX_8_BITS,
            &total_zeros::VALUES,
            i,
        ),
        Table::TotalZeros9 => row_at(
            &total_zeros::INDEX_9_LENGTHS,
            &total_zeros::INDEX_9_BITS,
            &total_zeros::VALUES,
            i,
        ),
        Table::TotalZeros10 => row_at(
            &total_zeros::INDEX_10_LENGTHS,
            &total_zeros::INDEX_10_BITS,
            &total_zeros::VALUES,
            i,
        ),
        Table::TotalZeros11 => row_at(
            &total_zeros::INDEX_11_LENGTHS,
            &total_zeros::INDEX_11_BITS,
            &total_zeros::VALUES,
            i,
        ),
        Table::TotalZeros12 => row_at(
            &total_zeros::INDEX_12_LENGTHS,
            &total_zeros::INDEX_12_BITS,
            &total_zeros::VALUES,
            i,
        ),
        Table::TotalZeros13 => row_at(
            &total_zeros::INDEX_13_LENGTHS,
            &total_zeros::INDEX_13_BITS,
            &total_zeros::VALUES,
            i,
        ),
        Table::TotalZeros14 => row_at(
            &total_zeros::INDEX_14_LENGTHS,
            &total_zeros::INDEX_14_BITS,
            &total_zeros::VALUES,
            i,
        ),
        Table::TotalZeros15 => row_at(
            &total_zeros::INDEX_15_LENGTHS,
            &total_zeros::INDEX_15_BITS,
            &total_zeros::VALUES,
            i,
        ),
        Table::TotalZerosChromaDc1 => row_at(
            &total_zeros::CHROMA_DC_1_LENGTHS,
            &total_zeros::CHROMA_DC_1_BITS,
            &total_zeros::VALUES,
            i,
        ),
        Table::TotalZerosChromaDc2 => row_at(
            &total_zeros::CHROMA_DC_2_LENGTHS,
            &total_zeros::CHROMA_DC_2_BITS,
            &total_zeros::VALUES,
            i,
        ),
        Table::TotalZerosChromaDc3 => row_at(
            &total_zeros::CHROMA_DC_3_LENGTHS,
            &total_zeros::CHROMA_DC_3_BITS,
            &total_zeros::VALUES,
            i,
        ),
        Table::RunBefore1 => row_at(
            &run_before::LEFT_1_LENGTHS,
            &run_before::LEFT_1_BITS,
            &run_before::VALUES,
            i,
        ),
        Table::RunBefore2 => row_at(
            &run_before::LEFT_2_LENGTHS,
            &run_before::LEFT_2_BITS,
            &run_before::VALUES,
            i,
        ),
        Table::RunBefore3 => row_at(
            &run_before::LEFT_3_LENGTHS,
            &run_before::LEFT_3_BITS,
            &run_before::VALUES,
            i,
        ),
        Table::RunBefore4 => row_at(
            &run_before::LEFT_4_LENGTHS,
            &run_before::LEFT_4_BITS,
            &run_before::VALUES,
            i,
        ),
        Table::RunBefore5 => row_at(
            &run_before::LEFT_5_LENGTHS,
            &run_before::LEFT_5_BITS,
            &run_before::VALUES,
            i,
        ),
        Table::RunBefore6 => row_at(
            &run_before::LEFT_6_LENGTHS,
            &run_before::LEFT_6_BITS,
            &run_before::VALUES,
            i,
        ),
        Table::RunBefore7 => row_at(
            &run_before::LEFT_7_LENGTHS,
            &run_before::LEFT_7_BITS,
            &run_before::VALUES,
            i,
        ),
        Table::CodedBlockPatternIntra => row_at(
            &coded_block_pattern::LENGTHS,
            &coded_block_pattern::BITS,
            &coded_block_pattern::INTRA_PATTERNS,
            i,
        ),
        Table::CodedBlockPatternInter => row_at(
            &coded_block_pattern::LENGTHS,
            &coded_block_pattern::BITS,
            &coded_block_pattern::INTER_PATTERNS,
            i,
        ),
        Table::InvertedBit => row_at(
            &inverted_bit::ROW_LENGTHS,
            &inverted_bit::ROW_BITS,
            &inverted_bit::VALUES,
            i,
        ),
        Table::LevelPrefix => row_at(
            &level_prefix::ROW_LENGTHS,
            &level_prefix::ROW_BITS,
            &level_prefix::VALUES,
            i,
        ),
    }
}
