//! total_zeros (9.2.3, Tables 9-7, 9-8 and 9-9).
#![tactic(auto)]

ghost use Rattle.std.specs.Prelude.{◌≡◌};
ghost use Rattle.h264_tables.specs.Front.{front_of, found_of};
ghost use Rattle.h264_tables.specs.TotalZeros.{total_zeros_1, total_zeros_2, total_zeros_3, total_zeros_4, total_zeros_5, total_zeros_6};
ghost use Rattle.h264_tables.specs.TotalZeros.{total_zeros_7, total_zeros_8, total_zeros_9, total_zeros_10, total_zeros_11, total_zeros_12};
ghost use Rattle.h264_tables.specs.TotalZeros.{total_zeros_13, total_zeros_14, total_zeros_15, total_zeros_chroma_dc_1, total_zeros_chroma_dc_2};
ghost use Rattle.h264_tables.specs.TotalZeros.{total_zeros_chroma_dc_3};

/// The value of each row; a table has as many of them as rows.
pub const VALUES: [u8; 16] = [0, 1, 2, 3, 4, 5, 6, 7, 8, 9, 10, 11, 12, 13, 14, 15];

// Where tzVlcIndex is 1: the rows, and the entries.

pub const INDEX_1_LENGTHS: [u8; 16] = [1, 3, 3, 4, 4, 5, 5, 6, 6, 7, 7, 8, 8, 9, 9, 9];

pub const INDEX_1_BITS: [u16; 16] = [1, 3, 2, 3, 2, 3, 2, 3, 2, 3, 2, 3, 2, 3, 2, 1];

const INDEX_1_ENTRY_LENGTHS: [u8; 18] = [0, 9, 9, 9, 8, 8, 7, 7, 6, 6, 5, 5, 4, 4, 3, 3, 1, 1];

const INDEX_1_ENTRY_VALUES: [u8; 18] = [0, 15, 14, 13, 12, 11, 10, 9, 8, 7, 6, 5, 4, 3, 2, 1, 0, 0];

/// The length and the value of the word that 16 bits begin with, or 0 and 0.
#[inline]
pub fn total_zeros_1_entry(bits: u16) -> (u8, u8)
    ensures { result ≡ found_of (front_of 16 total_zeros_1 bits) }
{
    entry!(bits, 7, 30, 2, INDEX_1_ENTRY_LENGTHS, INDEX_1_ENTRY_VALUES)
}

// Where tzVlcIndex is 2: the rows, and the entries.

pub const INDEX_2_LENGTHS: [u8; 15] = [3, 3, 3, 3, 3, 4, 4, 4, 4, 5, 5, 6, 6, 6, 6];

pub const INDEX_2_BITS: [u16; 15] = [7, 6, 5, 4, 3, 5, 4, 3, 2, 3, 2, 3, 2, 1, 0];

const INDEX_2_ENTRY_LENGTHS: [u8; 20] = [
    6, 6, 6, 6, 5, 5, 5, 5, 4, 4, 4, 4, 4, 4, 3, 3, 3, 3, 3, 3,
];

const INDEX_2_ENTRY_VALUES: [u8; 20] = [
    14, 13, 12, 11, 10, 10, 9, 9, 8, 8, 7, 7, 6, 5, 4, 4, 3, 2, 1, 0,
];

/// The length and the value of the word that 16 bits begin with, or 0 and 0.
#[inline]
pub fn total_zeros_2_entry(bits: u16) -> (u8, u8)
    ensures { result ≡ found_of (front_of 16 total_zeros_2 bits) }
{
    entry!(bits, 10, 29, 4, INDEX_2_ENTRY_LENGTHS, INDEX_2_ENTRY_VALUES)
}

// Where tzVlcIndex is 3: the rows, and the entries.

pub const INDEX_3_LENGTHS: [u8; 14] = [4, 3, 3, 3, 4, 4, 3, 3, 4, 5, 5, 6, 5, 6];

pub const INDEX_3_BITS: [u16; 14] = [5, 7, 6, 5, 4, 3, 4, 3, 2, 3, 2, 1, 1, 0];

const INDEX_3_ENTRY_LENGTHS: [u8; 20] = [
    6, 6, 5, 5, 5, 5, 5, 5, 4, 4, 4, 4, 4, 4, 3, 3, 3, 3, 3, 3,
];

const INDEX_3_ENTRY_VALUES: [u8; 20] = [
    13, 11, 12, 12, 10, 10, 9, 9, 8, 8, 5, 5, 4, 0, 7, 7, 6, 3, 2, 1,
];

/// The length and the value of the word that 16 bits begin with, or 0 and 0.
#[inline]
pub fn total_zeros_3_entry(bits: u16) -> (u8, u8)
    ensures { result ≡ found_of (front_of 16 total_zeros_3 bits) }
{
    entry!(bits, 10, 29, 4, INDEX_3_ENTRY_LENGTHS, INDEX_3_ENTRY_VALUES)
}

// Where tzVlcIndex is 4: the rows, and the entries.

pub const INDEX_4_LENGTHS: [u8; 13] = [5, 3, 4, 4, 3, 3, 3, 4, 3, 4, 5, 5, 5];

pub const INDEX_4_BITS: [u16; 13] = [3, 7, 5, 4, 6, 5, 4, 3, 3, 2, 2, 1, 0];

const INDEX_4_ENTRY_LENGTHS: [u8; 16] = [5, 5, 5, 5, 4, 4, 4, 4, 4, 4, 3, 3, 3, 3, 3, 3];

const INDEX_4_ENTRY_VALUES: [u8; 16] = [12, 11, 10, 0, 9, 9, 7, 7, 3, 2, 8, 8, 6, 5, 4, 1];

/// The length and the value of the word that 16 bits begin with, or 0 and 0.
#[inline]
pub fn total_zeros_4_entry(bits: u16) -> (u8, u8)
    ensures { result ≡ found_of (front_of 16 total_zeros_4 bits) }
{
    entry!(bits, 11, 29, 4, INDEX_4_ENTRY_LENGTHS, INDEX_4_ENTRY_VALUES)
}

// Where tzVlcIndex is 5: the rows, and the entries.

pub const INDEX_5_LENGTHS: [u8; 12] = [4, 4, 4, 3, 3, 3, 3, 3, 4, 5, 4, 5];

pub const INDEX_5_BITS: [u16; 12] = [5, 4, 3, 7, 6, 5, 4, 3, 2, 1, 1, 0];

const INDEX_5_ENTRY_LENGTHS: [u8; 16] = [5, 5, 4, 4, 4, 4, 4, 4, 4, 4, 3, 3, 3, 3, 3, 3];

const INDEX_5_ENTRY_VALUES: [u8; 16] = [11, 9, 10, 10, 8, 8, 2, 2, 1, 0, 7, 7, 6, 5, 4, 3];

/// The length and the value of the word that 16 bits begin with, or 0 and 0.
#[inline]
pub fn total_zeros_5_entry(bits: u16) -> (u8, u8)
    ensures { result ≡ found_of (front_of 16 total_zeros_5 bits) }
{
    entry!(bits, 11, 29, 4, INDEX_5_ENTRY_LENGTHS, INDEX_5_ENTRY_VALUES)
}

// Where tzVlcIndex is 6: the rows, and the entries.

pub const INDEX_6_LENGTHS: [u8; 11] = [6, 5, 3, 3, 3, 3, 3, 3, 4, 3, 6];

pub const INDEX_6_BITS: [u16; 11] = [1, 1, 7, 6, 5, 4, 3, 2, 1, 1, 0];

const INDEX_6_ENTRY_LENGTHS: [u8; 20] = [
    6, 6, 5, 5, 4, 4, 4, 4, 3, 3, 3, 3, 3, 3, 3, 3, 3, 3, 3, 3,
];

const INDEX_6_ENTRY_VALUES: [u8; 20] = [
    10, 0, 1, 1, 8, 8, 8, 8, 9, 9, 9, 9, 7, 7, 6, 6, 5, 4, 3, 2,
];

/// The length and the value of the word that 16 bits begin with, or 0 and 0.
#[inline]
pub fn total_zeros_6_entry(bits: u16) -> (u8, u8)
    ensures { result ≡ found_of (front_of 16 total_zeros_6 bits) }
{
    entry!(bits, 10, 29, 4, INDEX_6_ENTRY_LENGTHS, INDEX_6_ENTRY_VALUES)
}

// Where tzVlcIndex is 7: the rows, and the entries.

pub const INDEX_7_LENGTHS: [u8; 10] = [6, 5, 3, 3, 3, 2, 3, 4, 3, 6];

pub const INDEX_7_BITS: [u16; 10] = [1, 1, 5, 4, 3, 3, 2, 1, 1, 0];

const INDEX_7_ENTRY_LENGTHS: [u8; 20] = [
    6, 6, 5, 5, 4, 4, 4, 4, 3, 3, 3, 3, 3, 3, 3, 3, 3, 3, 2, 2,
];

const INDEX_7_ENTRY_VALUES: [u8; 20] = [9, 0, 1, 1, 7, 7, 7, 7, 8, 8, 8, 8, 6, 6, 4, 4, 3, 2, 5, 5];

/// The length and the value of the word that 16 bits begin with, or 0 and 0.
#[inline]
pub fn total_zeros_7_entry(bits: u16) -> (u8, u8)
    ensures { result ≡ found_of (front_of 16 total_zeros_7 bits) }
{
    entry!(bits, 10, 29, 4, INDEX_7_ENTRY_LENGTHS, INDEX_7_ENTRY_VALUES)
}

// Where tzVlcIndex is 8: the rows, and the entries.

pub const INDEX_8_LENGTHS: [u8; 9] = [6, 4, 5, 3, 2, 2, 3, 3, 6];

pub const INDEX_8_BITS: [u16; 9] = [1, 1, 1, 3, 3, 2, 2, 1, 0];

const INDEX_8_ENTRY_LENGTHS: [u8; 12] = [6, 6, 5, 5, 4, 4, 3, 3, 3, 3, 2, 2];

const INDEX_8_ENTRY_VALUES: [u8; 12] = [8, 0, 2, 2, 1, 1, 7, 7, 6, 3, 5, 4];

/// The length and the value of the word that 16 bits begin with, or 0 and 0.
#[inline]
pub fn total_zeros_8_entry(bits: u16) -> (u8, u8)
    ensures { result ≡ found_of (front_of 16 total_zeros_8 bits) }
{
    entry!(bits, 10, 30, 2, INDEX_8_ENTRY_LENGTHS, INDEX_8_ENTRY_VALUES)
}

// Where tzVlcIndex is 9: the rows, and the entries.

pub const INDEX_9_LENGTHS: [u8; 8] = [6, 6, 4, 2, 2, 3, 2, 5];

pub const INDEX_9_BITS: [u16; 8] = [1, 0, 1, 3, 2, 1, 1, 1];

const INDEX_9_ENTRY_LENGTHS: [u8; 12] = [6, 6, 5, 5, 4, 4, 3, 3, 2, 2, 2, 2];

const INDEX_9_ENTRY_VALUES: [u8; 12] = [1, 0, 7, 7, 2, 2, 5, 5, 6, 6, 4, 3];

/// The length and the value of the word that 16 bits begin with, or 0 and 0.
#[inline]
pub fn total_zeros_9_entry(bits: u16) -> (u8, u8)
    ensures { result ≡ found_of (front_of 16 total_zeros_9 bits) }
{
    entry!(bits, 10, 30, 2, INDEX_9_ENTRY_LENGTHS, INDEX_9_ENTRY_VALUES)
}

// Where tzVlcIndex is 10: the rows, and the entries.

pub const INDEX_10_LENGTHS: [u8; 7] = [5, 5, 3, 2, 2, 2, 4];

pub const INDEX_10_BITS: [u16; 7] = [1, 0, 1, 3, 2, 1, 1];

const INDEX_10_ENTRY_LENGTHS: [u8; 10] = [5, 5, 4, 4, 3, 3, 2, 2, 2, 2];

const INDEX_10_ENTRY_VALUES: [u8; 10] = [1, 0, 6, 6, 2, 2, 5, 5, 4, 3];

/// The length and the value of the word that 16 bits begin with, or 0 and 0.
#[inline]
pub fn total_zeros_10_entry(bits: u16) -> (u8, u8)
    ensures { result ≡ found_of (front_of 16 total_zeros_10 bits) }
{
    entry!(
        bits,
        11,
        30,
        2,
        INDEX_10_ENTRY_LENGTHS,
        INDEX_10_ENTRY_VALUES
    )
}

// Where tzVlcIndex is 11: the rows, and the entries.

pub const INDEX_11_LENGTHS: [u8; 6] = [4, 4, 3, 3, 1, 3];

pub const INDEX_11_BITS: [u16; 6] = [0, 1, 1, 2, 1, 3];

const INDEX_11_ENTRY_LENGTHS: [u8; 8] = [4, 4, 3, 3, 3, 3, 1, 1];

const INDEX_11_ENTRY_VALUES: [u8; 8] = [0, 1, 2, 2, 3, 5, 4, 4];

/// The length and the value of the word that 16 bits begin with, or 0 and 0.
#[inline]
pub fn total_zeros_11_entry(bits: u16) -> (u8, u8)
    ensures { result ≡ found_of (front_of 16 total_zeros_11 bits) }
{
    entry!(
        bits,
        12,
        30,
        2,
        INDEX_11_ENTRY_LENGTHS,
        INDEX_11_ENTRY_VALUES
    )
}

// Where tzVlcIndex is 12: the rows, and the entries.

pub const INDEX_12_LENGTHS: [u8; 5] = [4, 4, 2, 1, 3];

pub const INDEX_12_BITS: [u16; 5] = [0, 1, 1, 1, 1];

const INDEX_12_ENTRY_LENGTHS: [u8; 5] = [4, 4, 3, 2, 1];

const INDEX_12_ENTRY_VALUES: [u8; 5] = [0, 1, 4, 2, 3];

/// The length and the value of the word that 16 bits begin with, or 0 and 0.
#[inline]
pub fn total_zeros_12_entry(bits: u16) -> (u8, u8)
    ensures { result ≡ found_of (front_of 16 total_zeros_12 bits) }
{
    entry!(
        bits,
        12,
        31,
        1,
        INDEX_12_ENTRY_LENGTHS,
        INDEX_12_ENTRY_VALUES
    )
}

// Where tzVlcIndex is 13: the rows, and the entries.

pub const INDEX_13_LENGTHS: [u8; 4] = [3, 3, 1, 2];

pub const INDEX_13_BITS: [u16; 4] = [0, 1, 1, 1];

const INDEX_13_ENTRY_LENGTHS: [u8; 4] = [3, 3, 2, 1];

const INDEX_13_ENTRY_VALUES: [u8; 4] = [0, 1, 3, 2];

/// The length and the value of the word that 16 bits begin with, or 0 and 0.
#[inline]
pub fn total_zeros_13_entry(bits: u16) -> (u8, u8)
    ensures { result ≡ found_of (front_of 16 total_zeros_13 bits) }
{
    entry!(
        bits,
        13,
        31,
        1,
        INDEX_13_ENTRY_LENGTHS,
        INDEX_13_ENTRY_VALUES
    )
}

// Where tzVlcIndex is 14: the rows, and the entries.

pub const INDEX_14_LENGTHS: [u8; 3] = [2, 2, 1];

pub const INDEX_14_BITS: [u16; 3] = [0, 1, 1];

const INDEX_14_ENTRY_LENGTHS: [u8; 3] = [2, 2, 1];

const INDEX_14_ENTRY_VALUES: [u8; 3] = [0, 1, 2];

/// The length and the value of the word that 16 bits begin with, or 0 and 0.
#[inline]
pub fn total_zeros_14_entry(bits: u16) -> (u8, u8)
    ensures { result ≡ found_of (front_of 16 total_zeros_14 bits) }
{
    entry!(
        bits,
        14,
        31,
        1,
        INDEX_14_ENTRY_LENGTHS,
        INDEX_14_ENTRY_VALUES
    )
}

// Where tzVlcIndex is 15: the rows, and the entries.

pub const INDEX_15_LENGTHS: [u8; 2] = [1, 1];

pub const INDEX_15_BITS: [u16; 2] = [0, 1];

const INDEX_15_ENTRY_LENGTHS: [u8; 2] = [1, 1];

const INDEX_15_ENTRY_VALUES: [u8; 2] = [0, 1];

/// The length and the value of the word that 16 bits begin with, or 0 and 0.
#[inline]
pub fn total_zeros_15_entry(bits: u16) -> (u8, u8)
    ensures { result ≡ found_of (front_of 16 total_zeros_15 bits) }
{
    entry!(
        bits,
        15,
        31,
        1,
        INDEX_15_ENTRY_LENGTHS,
        INDEX_15_ENTRY_VALUES
    )
}

// Of chroma DC, where tzVlcIndex is 1: the rows, and the entries.

pub const CHROMA_DC_1_LENGTHS: [u8; 4] = [1, 2, 3, 3];

pub const CHROMA_DC_1_BITS: [u16; 4] = [1, 1, 1, 0];

const CHROMA_DC_1_ENTRY_LENGTHS: [u8; 4] = [3, 3, 2, 1];

const CHROMA_DC_1_ENTRY_VALUES: [u8; 4] = [3, 2, 1, 0];

/// The length and the value of the word that 16 bits begin with, or 0 and 0.
#[inline]
pub fn total_zeros_chroma_dc_1_entry(bits: u16) -> (u8, u8)
    ensures { result ≡ found_of (front_of 16 total_zeros_chroma_dc_1 bits) }
{
    entry!(
        bits,
        13,
        31,
        1,
        CHROMA_DC_1_ENTRY_LENGTHS,
        CHROMA_DC_1_ENTRY_VALUES
    )
}

// Of chroma DC, where tzVlcIndex is 2: the rows, and the entries.

pub const CHROMA_DC_2_LENGTHS: [u8; 3] = [1, 2, 2];

pub const CHROMA_DC_2_BITS: [u16; 3] = [1, 1, 0];

const CHROMA_DC_2_ENTRY_LENGTHS: [u8; 3] = [2, 2, 1];

const CHROMA_DC_2_ENTRY_VALUES: [u8; 3] = [2, 1, 0];

/// The length and the value of the word that 16 bits begin with, or 0 and 0.
#[inline]
pub fn total_zeros_chroma_dc_2_entry(bits: u16) -> (u8, u8)
    ensures { result ≡ found_of (front_of 16 total_zeros_chroma_dc_2 bits) }
{
    entry!(
        bits,
        14,
        31,
        1,
        CHROMA_DC_2_ENTRY_LENGTHS,
        CHROMA_DC_2_ENTRY_VALUES
    )
}

// Of chroma DC, where tzVlcIndex is 3: the rows, and the entries.

pub const CHROMA_DC_3_LENGTHS: [u8; 2] = [1, 1];

pub const CHROMA_DC_3_BITS: [u16; 2] = [1, 0];

const CHROMA_DC_3_ENTRY_LENGTHS: [u8; 2] = [1, 1];

const CHROMA_DC_3_ENTRY_VALUES: [u8; 2] = [1, 0];

/// The length and the value of the word that 16 bits begin with, or 0 and 0.
#[inline]
pub fn total_zeros_chroma_dc_3_entry(bits: u16) -> (u8, u8)
    ensures { result ≡ found_of (front_of 16 total_zeros_chroma_dc_3 bits) }
{
    entry!(
        bits,
        15,
        31,
        1,
        CHROMA_DC_3_ENTRY_LENGTHS,
        CHROMA_DC_3_ENTRY_VALUES
    )
}
