//! The syntax elements of macroblocks, each from its bins (9.3.2, 9.3.3.1).
//!
//! Which ctxIdxInc the first bin of an element has follows from the macroblocks beside it (9.3.3.1.1), and is given by the caller.
//! NoWord: the bits end before, or no bin string begins with the bins that were decoded. After a NoWord the decoder is of no use.
#![tactic(auto)]

ghost use Rattle.std.specs.Prelude.{◌≡◌, ◌<◌, ◌≤◌, ◌^◌, IfOk};
ghost use Rattle.h264_cabac.specs.Elements.{coeff_abs_level_minus1, first_of, intra_chroma_pred_mode, mb_qp_delta, mvd, ref_idx, rem_intra_pred_mode};
ghost use Rattle.h264_cabac.specs.Elements.{sub_mb_type};
ghost use Rattle.h264_base.specs.Word.{signed};
ghost use Rattle.h264_cabac.specs.Given.{Gives};

use crate::bins::{read_golomb, read_sign, read_truncated, read_unary};
use crate::decoder::Decoder;
use h264_bits::NoWord;

/// sub_mb_type in P slices (Tables 7-17 and 9-38): 0 for 8x8, 1 for 8x4, 2 for 4x8, 3 for 4x4.
pub fn read_sub_mb_type(decoder: &mut Decoder) -> Result<u8, NoWord>
    ensures value { Gives sub_mb_type decoder.old decoder.new result }
    ensures small { IfOk result (λ v. v ≤ 3) }
{
    if decoder.regular(21)? {
        return Ok(0);
    }
    if !decoder.regular(22)? {
        return Ok(1);
    }
    if decoder.regular(23)? { Ok(2) } else { Ok(3) }
}

/// rem_intra4x4_pred_mode or rem_intra8x8_pred_mode: 0 to 7 (9.3.2.4).
pub fn read_rem_intra_pred_mode(decoder: &mut Decoder) -> Result<u8, NoWord>
    ensures value { Gives rem_intra_pred_mode decoder.old decoder.new result }
    ensures small { IfOk result (λ v. v ≤ 7) }
{
    let a = decoder.regular(69)?;
    let b = decoder.regular(69)?;
    let c = decoder.regular(69)?;
    Ok(a as u8 + 2 * b as u8 + 4 * c as u8)
}

/// ref_idx_l0: 0 to 52, by ctxIdxInc of its first bin. A value that is no index of the list is no error here.
pub fn read_ref_idx(decoder: &mut Decoder, increment: usize) -> Result<u32, NoWord>
    requires { increment ≤ 3 }
    ensures value { Gives (ref_idx increment) decoder.old decoder.new result }
    ensures small { IfOk result (λ v. v ≤ 52) }
{
    let value = read_unary(decoder, [54 + increment, 58, 59, 59, 59])?;
    Ok(value)
}

/// The value that a number of ones stands for: 0, 1, -1, 2, -2 and so on (9.3.2.7).
fn signed(k: u32) -> i32
    requires { k ≤ 52 }
    ensures { result ≡ signed k }
{
    if k % 2 == 0 {
        -((k / 2) as i32)
    } else {
        (k / 2 + 1) as i32
    }
}

/// mb_qp_delta, by ctxIdxInc of its first bin: -26 to 26 (9.3.2.7).
pub fn read_mb_qp_delta(decoder: &mut Decoder, increment: usize) -> Result<i32, NoWord>
    requires { increment ≤ 1 }
    ensures { Gives (mb_qp_delta increment) decoder.old decoder.new result }
{
    let k = read_unary(decoder, [60 + increment, 62, 63, 63, 63])?;
    Ok(signed(k))
}

/// intra_chroma_pred_mode, by ctxIdxInc of its first bin: 0 to 3.
pub fn read_intra_chroma_pred_mode(decoder: &mut Decoder, increment: usize) -> Result<u32, NoWord>
    requires { increment ≤ 2 }
    ensures value { Gives (intra_chroma_pred_mode increment) decoder.old decoder.new result }
    ensures small { IfOk result (λ v. v ≤ 3) }
{
    let value = read_truncated(decoder, [64 + increment, 67, 67, 67, 67], 3)?;
    Ok(value)
}

/// The direction of a component of a motion vector difference.
#[derive(Clone, Copy, Debug, PartialEq, Eq)]
pub enum Direction {
    /// The first component.
    Across,
    /// The second component.
    Down,
}

/// Reads mvd_l0 with the contexts from ctxIdx `first` on.
fn read_mvd_from(decoder: &mut Decoder, first: usize, increment: usize) -> Result<i32, NoWord>
    requires first { first ≤ 47 }
    requires increment { increment ≤ 2 }
    ensures { Gives (mvd first increment) decoder.old decoder.new result }
{
    let indices = [
        first + increment,
        first + 3,
        first + 4,
        first + 5,
        first + 6,
    ];
    let size = read_golomb(decoder, indices, 9, 3)?;
    read_sign(decoder, size)
}

/// mvd_l0, by ctxIdxInc of its first bin (9.3.2.3). A value outside its range is no error here.
pub fn read_mvd(
    decoder: &mut Decoder,
    direction: Direction,
    increment: usize,
) -> Result<i32, NoWord>
    requires { increment ≤ 2 }
    ensures { Gives (mvd (first_of direction) increment) decoder.old decoder.new result }
{
    match direction {
        Direction::Across => read_mvd_from(decoder, 40, increment),
        Direction::Down => read_mvd_from(decoder, 47, increment),
    }
}

/// coeff_abs_level_minus1 (9.3.2.3), by the ctxIdx of its first bin and of the others. A value outside its range is no error here.
pub fn read_coeff_abs_level_minus1(
    decoder: &mut Decoder,
    first: usize,
    others: usize,
) -> Result<u32, NoWord>
    requires first { first < 436 }
    requires others { others < 436 }
    ensures value { Gives (coeff_abs_level_minus1 first others) decoder.old decoder.new result }
    ensures small { IfOk result (λ v. v < 2 ^ 22) }
{
    let value = read_golomb(decoder, [first, others, others, others, others], 14, 0)?;
    Ok(value)
}
