//! The tables of code words.
#![tactic(auto)]

/// A table of code words (9.1, 9.2).
#[derive(Clone, Copy, Debug, PartialEq, Eq)]
pub enum Table {
    /// coeff_token where nC is 0 or 1 (Table 9-5). Its value is 4 * TotalCoeff + TrailingOnes.
    CoeffTokenNc0,
    /// coeff_token where nC is 2 or 3.
    CoeffTokenNc2,
    /// coeff_token where nC is 4 to 7.
    CoeffTokenNc4,
    /// coeff_token where nC is 8 or more.
    CoeffTokenNc8,
    /// coeff_token of a chroma DC block, where nC is -1.
    CoeffTokenChromaDc,
    /// total_zeros where tzVlcIndex, which is TotalCoeff, is 1 (Tables 9-7, 9-8).
    TotalZeros1,
    /// total_zeros where tzVlcIndex is 2, and so on up to 15.
    TotalZeros2,
    TotalZeros3,
    TotalZeros4,
    TotalZeros5,
    TotalZeros6,
    TotalZeros7,
    TotalZeros8,
    TotalZeros9,
    TotalZeros10,
    TotalZeros11,
    TotalZeros12,
    TotalZeros13,
    TotalZeros14,
    TotalZeros15,
    /// total_zeros of a chroma DC block where tzVlcIndex is 1 (Table 9-9).
    TotalZerosChromaDc1,
    /// total_zeros of a chroma DC block where tzVlcIndex is 2.
    TotalZerosChromaDc2,
    /// total_zeros of a chroma DC block where tzVlcIndex is 3.
    TotalZerosChromaDc3,
    /// run_before where zerosLeft is 1 (Table 9-10).
    RunBefore1,
    /// run_before where zerosLeft is 2, and so on up to 6.
    RunBefore2,
    RunBefore3,
    RunBefore4,
    RunBefore5,
    RunBefore6,
    /// run_before where zerosLeft is above 6.
    RunBefore7,
    /// coded_block_pattern where the prediction is Intra_4x4 (Table 9-4). Its value is the luma pattern, and 16 times the chroma pattern.
    CodedBlockPatternIntra,
    /// coded_block_pattern where the prediction is Inter.
    CodedBlockPatternInter,
    /// te(v) of an element with the range 0 to 1: the inverted bit (9.1).
    InvertedBit,
    /// level_prefix: so many zeros and a 1, at most 15 zeros (9.2.2.1).
    LevelPrefix,
}

impl Table {
    ghost use Rattle.std.specs.Prelude.{◌≡◌, ◌-◌, ◌<◌, ◌≤◌, min, slice_get};
    ghost use Rattle.h264_tables.specs.Choice.{coeff_token_by, total_zeros_tables, chroma_dc_tables, run_before_tables};

    /// The table of coeff_token by nC, but for chroma DC blocks (Table 9-5).
    #[inline]
    pub fn coeff_token(nc: u8) -> Table
        ensures { result ≡ coeff_token_by nc }
    {
        match nc {
            0 | 1 => Table::CoeffTokenNc0,
            2 | 3 => Table::CoeffTokenNc2,
            4..=7 => Table::CoeffTokenNc4,
            _ => Table::CoeffTokenNc8,
        }
    }

    /// The table of total_zeros by tzVlcIndex, which is TotalCoeff and lies in 1 to 15 (Tables 9-7, 9-8).
    #[tactic(auto, unfolding(crate::specs::Choice::total_zeros_tables))]
    #[inline]
    pub fn total_zeros(index: u8) -> Table
        requires some { 0 < index }
        requires few { index ≤ 15 }
        ensures { slice_get total_zeros_tables (index - 1) ≡ Some result }
    {
        match index {
            1 => Table::TotalZeros1,
            2 => Table::TotalZeros2,
            3 => Table::TotalZeros3,
            4 => Table::TotalZeros4,
            5 => Table::TotalZeros5,
            6 => Table::TotalZeros6,
            7 => Table::TotalZeros7,
            8 => Table::TotalZeros8,
            9 => Table::TotalZeros9,
            10 => Table::TotalZeros10,
            11 => Table::TotalZeros11,
            12 => Table::TotalZeros12,
            13 => Table::TotalZeros13,
            14 => Table::TotalZeros14,
            _ => Table::TotalZeros15,
        }
    }

    /// The table of total_zeros of a chroma DC block by tzVlcIndex, which is TotalCoeff and lies in 1 to 3 (Table 9-9).
    #[tactic(auto, unfolding(crate::specs::Choice::chroma_dc_tables))]
    #[inline]
    pub fn total_zeros_chroma_dc(index: u8) -> Table
        requires some { 0 < index }
        requires few { index ≤ 3 }
        ensures { slice_get chroma_dc_tables (index - 1) ≡ Some result }
    {
        match index {
            1 => Table::TotalZerosChromaDc1,
            2 => Table::TotalZerosChromaDc2,
            _ => Table::TotalZerosChromaDc3,
        }
    }

    /// The table of run_before by zerosLeft, which is not 0 (Table 9-10).
    #[tactic(auto, unfolding(crate::specs::Choice::run_before_tables))]
    #[inline]
    pub fn run_before(zeros_left: u8) -> Table
        requires { 0 < zeros_left }
        ensures { slice_get run_before_tables (min zeros_left 7 - 1) ≡ Some result }
    {
        match zeros_left {
            1 => Table::RunBefore1,
            2 => Table::RunBefore2,
            3 => Table::RunBefore3,
            4 => Table::RunBefore4,
            5 => Table::RunBefore5,
            6 => Table::RunBefore6,
            _ => Table::RunBefore7,
        }
    }
}
