//! te(v) of an element with the range 0 to 1 (9.1).
#![tactic(auto)]

ghost use Rattle.std.specs.Prelude.{◌≡◌};
ghost use Rattle.h264_tables.specs.Front.{front_of, found_of};
ghost use Rattle.h264_tables.specs.InvertedBit.{inverted_bit};

/// The value of each row; a table has as many of them as rows.
pub const VALUES: [u8; 2] = [0, 1];

// The rows, and the entries.

pub const ROW_LENGTHS: [u8; 2] = [1, 1];

pub const ROW_BITS: [u16; 2] = [1, 0];

const ENTRY_LENGTHS: [u8; 2] = [1, 1];

const ENTRY_VALUES: [u8; 2] = [1, 0];

/// The length and the value of the word that 16 bits begin with, or 0 and 0.
#[inline]
pub fn inverted_bit_entry(bits: u16) -> (u8, u8)
    ensures { result ≡ found_of (front_of 16 inverted_bit bits) }
{
    entry!(bits, 15, 31, 1, ENTRY_LENGTHS, ENTRY_VALUES)
}
