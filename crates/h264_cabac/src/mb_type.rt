//! mb_type in I and P slices (Tables 9-36 and 9-37).
//!
//! NoWord: the bits end before, or no bin string begins with the bins that were decoded. After a NoWord the decoder is of no use.
#![tactic(auto)]

ghost use Rattle.std.specs.Prelude.{◌≡◌, ◌<◌, ◌≤◌, IfOk};
ghost use Rattle.h264_cabac.specs.Elements.{chroma_pattern, intra_16x16, intra_in_p, mb_type_i, mb_type_p, not_nxn};
ghost use Rattle.h264_cabac.specs.Given.{Gives};

use crate::decoder::Decoder;
use h264_bits::NoWord;

/// The ctxIdx of the bins of mb_type behind I_PCM (Table 9-39).
#[derive(Clone, Copy)]
struct IntraIndices {
    luma: usize,
    chroma: usize,
    more_chroma: usize,
    high: usize,
    low: usize,
    ghost known: { (luma < 436) × (chroma < 436) × (more_chroma < 436) × (high < 436) × (low < 436) },
}

const IN_I_SLICES: IntraIndices = IntraIndices {
    luma: 6,
    chroma: 7,
    more_chroma: 8,
    high: 9,
    low: 10,
};

const IN_P_SLICES: IntraIndices = IntraIndices {
    luma: 18,
    chroma: 19,
    more_chroma: 19,
    high: 20,
    low: 20,
};

/// Reads the chroma pattern of an Intra 16x16 macroblock, from 0 to 2 (Table 9-36).
fn read_chroma_pattern(decoder: &mut Decoder, at: IntraIndices) -> Result<u8, NoWord>
    ensures value { Gives (chroma_pattern at.chroma at.more_chroma) decoder.old decoder.new result }
    ensures small { IfOk result (λ v. v ≤ 2) }
{
    if !decoder.regular(at.chroma)? {
        return Ok(0);
    }
    let all = decoder.regular(at.more_chroma)?;
    Ok(1 + all as u8)
}

/// Reads mb_type of an Intra 16x16 macroblock, from 1 to 24 (Table 9-36).
fn read_intra_16x16(decoder: &mut Decoder, at: IntraIndices) -> Result<u8, NoWord>
    ensures value { Gives (intra_16x16 at.luma at.chroma at.more_chroma at.high at.low) decoder.old decoder.new result }
    ensures small { IfOk result (λ v. v ≤ 24) }
{
    let luma = decoder.regular(at.luma)?;
    let chroma = read_chroma_pattern(decoder, at)?;
    let high = decoder.regular(at.high)?;
    let low = decoder.regular(at.low)?;
    Ok(1 + 12 * luma as u8 + 4 * chroma + 2 * high as u8 + low as u8)
}

/// Reads mb_type of an intra macroblock that is not I_NxN: 25 for I_PCM, or that of Intra 16x16 (Table 9-36).
fn read_not_nxn(decoder: &mut Decoder, at: IntraIndices) -> Result<u8, NoWord>
    ensures value { Gives (not_nxn at.luma at.chroma at.more_chroma at.high at.low) decoder.old decoder.new result }
    ensures small { IfOk result (λ v. v ≤ 25) }
{
    if decoder.terminate()? {
        return Ok(25);
    }
    let mb_type = read_intra_16x16(decoder, at)?;
    Ok(mb_type)
}

/// mb_type in I slices: 0 to 25 (Tables 7-11 and 9-36), by ctxIdxInc of its first bin.
pub fn read_mb_type_i(decoder: &mut Decoder, increment: usize) -> Result<u8, NoWord>
    requires { increment ≤ 2 }
    ensures value { Gives (mb_type_i increment) decoder.old decoder.new result }
    ensures small { IfOk result (λ v. v ≤ 25) }
{
    if !decoder.regular(3 + increment)? {
        return Ok(0);
    }
    let mb_type = read_not_nxn(decoder, IN_I_SLICES)?;
    Ok(mb_type)
}

/// Reads mb_type of an intra macroblock in a P slice, without the 5 that is added (Table 9-37).
fn read_intra_in_p(decoder: &mut Decoder) -> Result<u8, NoWord>
    ensures value { Gives intra_in_p decoder.old decoder.new result }
    ensures small { IfOk result (λ v. v ≤ 25) }
{
    if !decoder.regular(17)? {
        return Ok(0);
    }
    let mb_type = read_not_nxn(decoder, IN_P_SLICES)?;
    Ok(mb_type)
}

/// mb_type in P slices: 0 to 3, and from 5 on those of intra macroblocks (Tables 7-13 and 9-37).
pub fn read_mb_type_p(decoder: &mut Decoder) -> Result<u8, NoWord>
    ensures value { Gives mb_type_p decoder.old decoder.new result }
    ensures small { IfOk result (λ v. v ≤ 30) }
{
    if decoder.regular(14)? {
        let mb_type = read_intra_in_p(decoder)?;
        return Ok(5 + mb_type);
    }
    if decoder.regular(15)? {
        return if decoder.regular(17)? { Ok(1) } else { Ok(2) };
    }
    if decoder.regular(16)? { Ok(3) } else { Ok(0) }
}
