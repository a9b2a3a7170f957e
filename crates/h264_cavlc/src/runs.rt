//! The words of run_before (Table 9-10), looked up without a choice among its tables.
#![tactic(auto)]

ghost use Rattle.std.specs.Prelude.{◌≡◌, ◌≢◌, ◌<◌, ◌≤◌};
ghost use Rattle.h264_tables.specs.Front.{front_of, found_of};
ghost use Rattle.h264_tables.specs.Table.{rows_of};
ghost use Rattle.h264_cavlc.specs.Zeros.{run_before_table};

/// The length of the word that three bits begin with, by zerosLeft and by the bits. Where no zeros are left no word is coded: it has no bits.
/// From 7 on a word has more bits where all three are 0: its length is `LONG` here.
const WORD_LENGTHS: [u8; 128] = [
    0, 0, 0, 0, 0, 0, 0, 0, 1, 1, 1, 1, 1, 1, 1, 1, 2, 2, 2, 2, 1, 1, 1, 1, 2, 2, 2, 2, 2, 2, 2, 2,
    3, 3, 2, 2, 2, 2, 2, 2, 3, 3, 3, 3, 2, 2, 2, 2, 3, 3, 3, 3, 3, 3, 2, 2, 16, 3, 3, 3, 3, 3, 3,
    3, 16, 3, 3, 3, 3, 3, 3, 3, 16, 3, 3, 3, 3, 3, 3, 3, 16, 3, 3, 3, 3, 3, 3, 3, 16, 3, 3, 3, 3,
    3, 3, 3, 16, 3, 3, 3, 3, 3, 3, 3, 16, 3, 3, 3, 3, 3, 3, 3, 16, 3, 3, 3, 3, 3, 3, 3, 16, 3, 3,
    3, 3, 3, 3, 3,
];

/// What it stands for.
const WORD_VALUES: [u8; 128] = [
    0, 0, 0, 0, 0, 0, 0, 0, 1, 1, 1, 1, 0, 0, 0, 0, 2, 2, 1, 1, 0, 0, 0, 0, 3, 3, 2, 2, 1, 1, 0, 0,
    4, 3, 2, 2, 1, 1, 0, 0, 5, 4, 3, 2, 1, 1, 0, 0, 1, 2, 4, 3, 6, 5, 0, 0, 0, 6, 5, 4, 3, 2, 1, 0,
    0, 6, 5, 4, 3, 2, 1, 0, 0, 6, 5, 4, 3, 2, 1, 0, 0, 6, 5, 4, 3, 2, 1, 0, 0, 6, 5, 4, 3, 2, 1, 0,
    0, 6, 5, 4, 3, 2, 1, 0, 0, 6, 5, 4, 3, 2, 1, 0, 0, 6, 5, 4, 3, 2, 1, 0, 0, 6, 5, 4, 3, 2, 1, 0,
];

/// The length in the place of one of more than three bits.
pub(crate) const LONG: u8 = 16;

/// The length and the value of the word that 16 bits begin with, where so many zeros are left; 0 and 0 where none are. The length of one of more than
/// three bits is `LONG`.
#[inline(always)]
pub(crate) fn short_run_word(zeros_left: u8, bits: u16) -> (u8, u8)
    requires few { zeros_left ≤ 15 }
    ensures none { zeros_left ≡ 0 → result ≡ (0, 0) }
    ensures word { 0 < zeros_left → result.0 ≢ 16 → (0 < result.0) × (result ≡ found_of (front_of 16 (rows_of (run_before_table zeros_left)) bits)) }
    ensures long { result.0 ≡ 16 → 6 < zeros_left }
    ensures small { result.1 ≤ zeros_left }
{
    let entry = 8 * usize::from(zeros_left) + usize::from(bits >> 13);
    (WORD_LENGTHS[entry], WORD_VALUES[entry])
}
