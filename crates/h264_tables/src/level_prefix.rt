//! level_prefix (9.2.2.1).
#![tactic(auto)]

ghost use Rattle.std.specs.Prelude.{◌≡◌};
ghost use Rattle.h264_tables.specs.Front.{front_of, found_of};
ghost use Rattle.h264_tables.specs.LevelPrefix.{level_prefix};

/// The value of each row; a table has as many of them as rows.
pub const VALUES: [u8; 16] = [0, 1, 2, 3, 4, 5, 6, 7, 8, 9, 10, 11, 12, 13, 14, 15];

// The rows.

pub const ROW_LENGTHS: [u8; 16] = [1, 2, 3, 4, 5, 6, 7, 8, 9, 10, 11, 12, 13, 14, 15, 16];

pub const ROW_BITS: [u16; 16] = [1, 1, 1, 1, 1, 1, 1, 1, 1, 1, 1, 1, 1, 1, 1, 1];

/// The length and the value of the word that 16 bits begin with, or 0 and 0.
#[inline]
pub fn level_prefix_entry(bits: u16) -> (u8, u8)
    ensures { result ≡ found_of (front_of 16 level_prefix bits) }
{
    if bits == 0 {
        return (0, 0);
    }
    let zeros = bits.leading_zeros() as u8;
    (zeros + 1, zeros)
}
