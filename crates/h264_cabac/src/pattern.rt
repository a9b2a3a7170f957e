//! coded_block_pattern (9.3.2.6, 9.3.3.1.1.4).
//!
//! NoWord: the bits end before, or no bin string begins with the bins that were decoded. After a NoWord the decoder is of no use.
#![tactic(auto)]

ghost use Rattle.std.specs.Prelude.{◌≡◌, ◌<◌, ◌≤◌, IfOk};
ghost use Rattle.h264_cabac.specs.Pattern.{chroma_part, luma_part, pattern_index};
ghost use Rattle.h264_cabac.specs.Given.{Gives};

use crate::decoder::Decoder;
use h264_bits::NoWord;

/// Of the 8x8 luma blocks beside a macroblock, which are there, are not of I_PCM, and have no coefficients by their pattern (condTermFlagN).
#[derive(Clone, Copy, Debug, PartialEq, Eq)]
pub struct Uncoded {
    /// The one to the left of block 0.
    pub left_upper: bool,
    /// The one to the left of block 2.
    pub left_lower: bool,
    /// The one above block 0.
    pub above_left: bool,
    /// The one above block 1.
    pub above_right: bool,
}

/// The ctxIdx of a bin of the luma part.
fn pattern_index(left: bool, above: bool) -> usize
    ensures value { result ≡ pattern_index left above }
    ensures small { result ≤ 76 }
{
    73 + left as usize + 2 * above as usize
}

/// The luma part of coded_block_pattern: bit k tells of 8x8 block k.
pub fn read_luma_part(decoder: &mut Decoder, beside: Uncoded) -> Result<u8, NoWord>
    ensures value { Gives (luma_part beside) decoder.old decoder.new result }
    ensures small { IfOk result (λ v. v ≤ 15) }
{
    let a = decoder.regular(pattern_index(beside.left_upper, beside.above_left))?;
    let b = decoder.regular(pattern_index(!a, beside.above_right))?;
    let c = decoder.regular(pattern_index(beside.left_lower, !a))?;
    let d = decoder.regular(pattern_index(!c, !b))?;
    Ok(a as u8 + 2 * b as u8 + 4 * c as u8 + 8 * d as u8)
}

/// The chroma part of coded_block_pattern, from 0 to 2, by ctxIdxInc of its first bin, and of its second without the 4 that is added.
pub fn read_chroma_part(decoder: &mut Decoder, first: usize, second: usize) -> Result<u8, NoWord>
    requires first { first ≤ 3 }
    requires second { second ≤ 3 }
    ensures value { Gives (chroma_part first second) decoder.old decoder.new result }
    ensures small { IfOk result (λ v. v ≤ 2) }
{
    if !decoder.regular(77 + first)? {
        return Ok(0);
    }
    let all = decoder.regular(81 + second)?;
    Ok(1 + all as u8)
}
