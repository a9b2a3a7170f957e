//! Numbers from bins (9.3.2).
//!
//! NoWord: the bits end before, or no bin string begins with the bins that were decoded. After a NoWord the decoder is of no use.
#![tactic(auto)]

ghost use Rattle.std.specs.Prelude.{◌≡◌, ◌<◌, ◌≤◌, ◌^◌, All, IfOk};
ghost use Rattle.h264_cabac.specs.Elements.{golomb_from, number_from, truncated, unary, with_sign, with_suffix};
ghost use Rattle.h264_cabac.specs.Given.{Gives};

use crate::decoder::Decoder;
use h264_bits::NoWord;

/// U has no more ones than this, since no value of an element that is so binarized is greater.
const MOST_ONES: u32 = 52;

/// So many bins by bypass are decoded at once.
const AT_ONCE: u32 = 8;

/// The suffix of UEGk has no more ones than this.
const MOST_SUFFIX_ONES: u32 = 16;

/// Reads U (9.3.2.1): a number of ones, with the ctxIdx of each bin.
pub(crate) fn read_unary(decoder: &mut Decoder, indices: [usize; 5]) -> Result<u32, NoWord>
    requires { All (λ index. index < 436) indices }
    ensures value { Gives (unary indices) decoder.old decoder.new result }
    ensures small { IfOk result (λ v. v ≤ 52) }
{
    for k in 0..MOST_ONES + 1 {
        let index = indices[(k as usize).min(4)];
        if !decoder.regular(index)? {
            return Ok(k);
        }
    }
    Err(NoWord)
}

/// Reads TU (9.3.2.2): a number of at most cMax ones, with the ctxIdx of each bin.
pub(crate) fn read_truncated(
    decoder: &mut Decoder,
    indices: [usize; 5],
    c_max: u32,
) -> Result<u32, NoWord>
    requires { All (λ index. index < 436) indices }
    ensures value { Gives (truncated indices c_max) decoder.old decoder.new result }
    ensures small { IfOk result (λ v. v ≤ c_max) }
{
    for k in 0..c_max {
        let index = indices[(k as usize).min(4)];
        if !decoder.regular(index)? {
            return Ok(k);
        }
    }
    Ok(c_max)
}

/// Reads a number of `n` bins by bypass, one after another.
fn read_long_number(decoder: &mut Decoder, n: u32) -> Result<u32, NoWord>
    requires { n ≤ 20 }
    ensures value { Gives (number_from n 0) decoder.old decoder.new result }
    ensures small { IfOk result (λ v. v < 2 ^ n) }
{
    let mut number = 0u32;
    for _i in 0..n {
        number = 2 * number + decoder.bypass()? as u32;
    }
    Ok(number)
}

/// Reads a number of `n` bins by bypass, the highest first.
pub(crate) fn read_number(decoder: &mut Decoder, n: u32) -> Result<u32, NoWord>
    requires { n ≤ 20 }
    ensures value { Gives (number_from n 0) decoder.old decoder.new result }
    ensures small { IfOk result (λ v. v < 2 ^ n) }
{
    if n <= AT_ONCE {
        return decoder.bypass_number(n);
    }
    read_long_number(decoder, n)
}

/// Reads the suffix of UEGk after a prefix of cMax ones (9.3.2.3).
pub(crate) fn read_suffix(decoder: &mut Decoder, first: u32, c_max: u32) -> Result<u32, NoWord>
    requires first { first ≤ 3 }
    requires c_max { c_max ≤ 14 }
    ensures value { Gives (golomb_from 17 first c_max) decoder.old decoder.new result }
    ensures small { IfOk result (λ v. v < 2 ^ 22) }
{
    let mut sum = c_max;
    for ones in 0..MOST_SUFFIX_ONES + 1 {
        let k = first + ones;
        if !decoder.bypass()? {
            let number = read_number(decoder, k)?;
            return Ok(sum + number);
        }
        sum += 1 << k;
    }
    Err(NoWord)
}

/// Reads UEGk without a sign (9.3.2.3).
pub(crate) fn read_golomb(
    decoder: &mut Decoder,
    indices: [usize; 5],
    c_max: u32,
    first: u32,
) -> Result<u32, NoWord>
    requires known { All (λ index. index < 436) indices }
    requires first { first ≤ 3 }
    requires c_max { c_max ≤ 14 }
    ensures value { Gives (with_suffix indices c_max first) decoder.old decoder.new result }
    ensures small { IfOk result (λ v. v < 2 ^ 22) }
{
    let prefix = read_truncated(decoder, indices, c_max)?;
    if prefix < c_max {
        return Ok(prefix);
    }
    let size = read_suffix(decoder, first, c_max)?;
    Ok(size)
}

/// Reads the sign of a number of this size, where it is not 0.
pub(crate) fn read_sign(decoder: &mut Decoder, size: u32) -> Result<i32, NoWord>
    requires { size < 2 ^ 22 }
    ensures { Gives (with_sign size) decoder.old decoder.new result }
{
    if size == 0 {
        return Ok(0);
    }
    if decoder.bypass()? {
        Ok(-(size as i32))
    } else {
        Ok(size as i32)
    }
}
