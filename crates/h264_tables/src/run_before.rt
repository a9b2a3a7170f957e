//! run_before (9.2.3, Table 9-10).
#![tactic(auto)]

ghost use Rattle.std.specs.Prelude.{◌≡◌};
ghost use Rattle.h264_tables.specs.Front.{front_of, found_of};
ghost use Rattle.h264_tables.specs.RunBefore.{run_before_1, run_before_2, run_before_3, run_before_4, run_before_5, run_before_6, run_before_7};

/// The value of each row; a table has as many of them as rows.
pub const VALUES: [u8; 15] = [0, 1, 2, 3, 4, 5, 6, 7, 8, 9, 10, 11, 12, 13, 14];

// Where zerosLeft is 1: the rows, and the entries.

pub const LEFT_1_LENGTHS: [u8; 2] = [1, 1];

pub const LEFT_1_BITS: [u16; 2] = [1, 0];

const LEFT_1_ENTRY_LENGTHS: [u8; 2] = [1, 1];

const LEFT_1_ENTRY_VALUES: [u8; 2] = [1, 0];

/// The length and the value of the word that 16 bits begin with, or 0 and 0.
#[inline]
pub fn run_before_1_entry(bits: u16) -> (u8, u8)
    ensures { result ≡ found_of (front_of 16 run_before_1 bits) }
{
    entry!(bits, 15, 31, 1, LEFT_1_ENTRY_LENGTHS, LEFT_1_ENTRY_VALUES)
}

// Where zerosLeft is 2: the rows, and the entries.

pub const LEFT_2_LENGTHS: [u8; 3] = [1, 2, 2];

pub const LEFT_2_BITS: [u16; 3] = [1, 1, 0];

const LEFT_2_ENTRY_LENGTHS: [u8; 3] = [2, 2, 1];

const LEFT_2_ENTRY_VALUES: [u8; 3] = [2, 1, 0];

/// The length and the value of the word that 16 bits begin with, or 0 and 0.
#[inline]
pub fn run_before_2_entry(bits: u16) -> (u8, u8)
    ensures { result ≡ found_of (front_of 16 run_before_2 bits) }
{
    entry!(bits, 14, 31, 1, LEFT_2_ENTRY_LENGTHS, LEFT_2_ENTRY_VALUES)
}

// Where zerosLeft is 3: the rows, and the entries.

pub const LEFT_3_LENGTHS: [u8; 4] = [2, 2, 2, 2];

pub const LEFT_3_BITS: [u16; 4] = [3, 2, 1, 0];

const LEFT_3_ENTRY_LENGTHS: [u8; 4] = [2, 2, 2, 2];

const LEFT_3_ENTRY_VALUES: [u8; 4] = [3, 2, 1, 0];

/// The length and the value of the word that 16 bits begin with, or 0 and 0.
#[inline]
pub fn run_before_3_entry(bits: u16) -> (u8, u8)
    ensures { result ≡ found_of (front_of 16 run_before_3 bits) }
{
    entry!(bits, 14, 30, 2, LEFT_3_ENTRY_LENGTHS, LEFT_3_ENTRY_VALUES)
}

// Where zerosLeft is 4: the rows, and the entries.

pub const LEFT_4_LENGTHS: [u8; 5] = [2, 2, 2, 3, 3];

pub const LEFT_4_BITS: [u16; 5] = [3, 2, 1, 1, 0];

const LEFT_4_ENTRY_LENGTHS: [u8; 6] = [3, 3, 2, 2, 2, 2];

const LEFT_4_ENTRY_VALUES: [u8; 6] = [4, 3, 2, 2, 1, 0];

/// The length and the value of the word that 16 bits begin with, or 0 and 0.
#[inline]
pub fn run_before_4_entry(bits: u16) -> (u8, u8)
    ensures { result ≡ found_of (front_of 16 run_before_4 bits) }
{
    entry!(bits, 13, 30, 2, LEFT_4_ENTRY_LENGTHS, LEFT_4_ENTRY_VALUES)
}

// Where zerosLeft is 5: the rows, and the entries.

pub const LEFT_5_LENGTHS: [u8; 6] = [2, 2, 3, 3, 3, 3];

pub const LEFT_5_BITS: [u16; 6] = [3, 2, 3, 2, 1, 0];

const LEFT_5_ENTRY_LENGTHS: [u8; 6] = [3, 3, 3, 3, 2, 2];

const LEFT_5_ENTRY_VALUES: [u8; 6] = [5, 4, 3, 2, 1, 0];

/// The length and the value of the word that 16 bits begin with, or 0 and 0.
#[inline]
pub fn run_before_5_entry(bits: u16) -> (u8, u8)
    ensures { result ≡ found_of (front_of 16 run_before_5 bits) }
{
    entry!(bits, 13, 30, 2, LEFT_5_ENTRY_LENGTHS, LEFT_5_ENTRY_VALUES)
}

// Where zerosLeft is 6: the rows, and the entries.

pub const LEFT_6_LENGTHS: [u8; 7] = [2, 3, 3, 3, 3, 3, 3];

pub const LEFT_6_BITS: [u16; 7] = [3, 0, 1, 3, 2, 5, 4];

const LEFT_6_ENTRY_LENGTHS: [u8; 8] = [3, 3, 3, 3, 3, 3, 2, 2];

const LEFT_6_ENTRY_VALUES: [u8; 8] = [1, 2, 4, 3, 6, 5, 0, 0];

/// The length and the value of the word that 16 bits begin with, or 0 and 0.
#[inline]
pub fn run_before_6_entry(bits: u16) -> (u8, u8)
    ensures { result ≡ found_of (front_of 16 run_before_6 bits) }
{
    entry!(bits, 13, 29, 4, LEFT_6_ENTRY_LENGTHS, LEFT_6_ENTRY_VALUES)
}

// Where zerosLeft is above 6: the rows, and the entries.

pub const LEFT_7_LENGTHS: [u8; 15] = [3, 3, 3, 3, 3, 3, 3, 4, 5, 6, 7, 8, 9, 10, 11];

pub const LEFT_7_BITS: [u16; 15] = [7, 6, 5, 4, 3, 2, 1, 1, 1, 1, 1, 1, 1, 1, 1];

const LEFT_7_ENTRY_LENGTHS: [u8; 40] = [
    0, 11, 10, 10, 9, 9, 9, 9, 8, 8, 8, 8, 7, 7, 7, 7, 6, 6, 6, 6, 5, 5, 5, 5, 4, 4, 4, 4, 3, 3, 3,
    3, 3, 3, 3, 3, 3, 3, 3, 3,
];

const LEFT_7_ENTRY_VALUES: [u8; 40] = [
    0, 14, 13, 13, 12, 12, 12, 12, 11, 11, 11, 11, 10, 10, 10, 10, 9, 9, 9, 9, 8, 8, 8, 8, 7, 7, 7,
    7, 6, 6, 6, 6, 5, 5, 4, 4, 3, 2, 1, 0,
];

/// The length and the value of the word that 16 bits begin with, or 0 and 0.
#[inline]
pub fn run_before_7_entry(bits: u16) -> (u8, u8)
    ensures { result ≡ found_of (front_of 16 run_before_7 bits) }
{
    entry!(bits, 5, 29, 4, LEFT_7_ENTRY_LENGTHS, LEFT_7_ENTRY_VALUES)
}
