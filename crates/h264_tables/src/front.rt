//! The code word that some bits begin with.
#![tactic(auto)]

ghost use Rattle.std.specs.Prelude.{◌≡◌, ◌≤◌, IfSome};
ghost use Rattle.std.specs.Option.{option_map};
ghost use Rattle.h264_tables.specs.Front.{front_of, found_of};
ghost use Rattle.h264_tables.specs.Entry.{entry_of};
ghost use Rattle.h264_tables.specs.Greatest.{greatest_value};
ghost use Rattle.h264_tables.specs.Table.{rows_of};

use crate::coded_block_pattern::{
    coded_block_pattern_inter_entry, coded_block_pattern_intra_entry,
};
use crate::coeff_token::{
    coeff_token_chroma_dc_entry, coeff_token_nc0_entry, coeff_token_nc2_entry,
    coeff_token_nc4_entry, coeff_token_nc8_entry,
};
use crate::inverted_bit::inverted_bit_entry;
use crate::level_prefix::level_prefix_entry;
use crate::run_before::{
    run_before_1_entry, run_before_2_entry, run_before_3_entry, run_before_4_entry,
    run_before_5_entry, run_before_6_entry, run_before_7_entry,
};
use crate::table::Table;
use crate::total_zeros::{
    total_zeros_1_entry, total_zeros_2_entry, total_zeros_3_entry, total_zeros_4_entry,
    total_zeros_5_entry, total_zeros_6_entry, total_zeros_7_entry, total_zeros_8_entry,
    total_zeros_9_entry, total_zeros_10_entry, total_zeros_11_entry, total_zeros_12_entry,
    total_zeros_13_entry, total_zeros_14_entry, total_zeros_15_entry,
    total_zeros_chroma_dc_1_entry, total_zeros_chroma_dc_2_entry, total_zeros_chroma_dc_3_entry,
};

/// A code word that was found.
#[derive(Clone, Copy, Debug, PartialEq, Eq)]
pub struct Entry {
    /// How many bits it has, 1 to 16.
    pub length: u8,
    /// What it stands for.
    pub value: u8,
}

/// The length and the value of the word that 16 bits begin with, or 0 and 0.
#[inline(always)]
fn found(table: Table, bits: u16) -> (u8, u8)
    ensures { result ≡ found_of (front_of 16 (rows_of table) bits) }
{
    match table {
        Table::CoeffTokenNc0 => coeff_token_nc0_entry(bits),
        Table::CoeffTokenNc2 => coeff_token_nc2_entry(bits),
        Table::CoeffTokenNc4 => coeff_token_nc4_entry(bits),
        Table::CoeffTokenNc8 => coeff_token_nc8_entry(bits),
        Table::CoeffTokenChromaDc => coeff_token_chroma_dc_entry(bits),
        Table::TotalZeros1 => total_zeros_1_entry(bits),
        Table::TotalZeros2 => total_zeros_2_entry(bits),
        Table::TotalZeros3 => total_zeros_3_entry(bits),
        Table::TotalZeros4 => total_zeros_4_entry(bits),
        Table::TotalZeros5 => total_zeros_5_entry(bits),
        Table::TotalZeros6 => total_zeros_6_entry(bits),
        Table::TotalZeros7 => total_zeros_7_entry(bits),
        Table::TotalZeros8 => total_zeros_8_entry(bits),
        Table::TotalZeros9 => total_zeros_9_entry(bits),
        Table::TotalZeros10 => total_zeros_10_entry(bits),
        Table::TotalZeros11 => total_zeros_11_entry(bits),
        Table::TotalZeros12 => total_zeros_12_entry(bits),
        Table::TotalZeros13 => total_zeros_13_entry(bits),
        Table::TotalZeros14 => total_zeros_14_entry(bits),
        Table::TotalZeros15 => total_zeros_15_entry(bits),
        Table::TotalZerosChromaDc1 => total_zeros_chroma_dc_1_entry(bits),
        Table::TotalZerosChromaDc2 => total_zeros_chroma_dc_2_entry(bits),
        Table::TotalZerosChromaDc3 => total_zeros_chroma_dc_3_entry(bits),
        Table::RunBefore1 => run_before_1_entry(bits),
        Table::RunBefore2 => run_before_2_entry(bits),
        Table::RunBefore3 => run_before_3_entry(bits),
        Table::RunBefore4 => run_before_4_entry(bits),
        Table::RunBefore5 => run_before_5_entry(bits),
        Table::RunBefore6 => run_before_6_entry(bits),
        Table::RunBefore7 => run_before_7_entry(bits),
        Table::CodedBlockPatternIntra => coded_block_pattern_intra_entry(bits),
        Table::CodedBlockPatternInter => coded_block_pattern_inter_entry(bits),
        Table::InvertedBit => inverted_bit_entry(bits),
        Table::LevelPrefix => level_prefix_entry(bits),
    }
}

/// The word of the table that 16 bits begin with, the first of them the highest. None where they begin with no word of it.
#[inline(always)]
pub fn lookup(table: Table, bits: u16) -> Option<Entry>
    ensures word { result ≡ option_map entry_of (front_of 16 (rows_of table) bits) }
    ensures small { IfSome result (λ e. e.value ≤ greatest_value table) }
{
    let (length, value) = found(table, bits);
    if length == 0 {
        None
    } else {
        Some(Entry { length, value })
    }
}
