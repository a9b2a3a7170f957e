//! The strengths bS of an edge as numbers in a word.
#![tactic(auto)]

ghost use Rattle.std.specs.Prelude.{◌≡◌, true};
ghost use Rattle.h264_deblock.specs.Words.{zeros};

/// The strengths bS of the quarters of an edge's lines as numbers, 0 to 4, from the first line on (8.7.2.1). Where one of them is 4, all are.
pub type Word = [u8; 4];

/// bS of the edge between two macroblocks of which one is intra. Inside an intra macroblock it is 3.
pub(crate) const FOUR: u8 = 4;

/// Whether each bS is 0: no sample changes by that edge.
#[inline(always)]
pub(crate) fn is_zero(word: &Word) -> bool
    ensures { result ≡ true → word.now ≡ zeros }
{
    u32::from_le_bytes(*word) == 0
}
