//! Residual blocks (7.3.5.3.2).
#![tactic(auto)]

ghost use Rattle.std.specs.Prelude.{◌≡◌, ℕ, ℤ, ◌-◌, ◌*◌, ◌<◌, ◌≤◌, ◌^◌, [], ◌∷◌, IfOk, OnOk, length, take, replicate, pos};
ghost use Rattle.h264_base.specs.Call.{HasRoom, IsQuiet, span};
ghost use Rattle.h264_base.specs.Meets.{Meets, Is, Answers};
ghost use Rattle.h264_cavlc.specs.Block.{nonzero_count, all_levels, coefficients as coefficients_form, residual_block};

use crate::level::{read_level, read_more_levels};
use crate::token::{Token, read_token, read_trailing_one, read_trailing_ones};
use crate::zeros::{read_places, read_total_zeros};
use h264_base::{Elements, Stop};
use h264_bits::Bits;

/// The levels of a residual block of `N` coefficients.
#[derive(Clone, Copy, Debug, PartialEq, Eq)]
pub struct Levels<const N: usize> {
    /// The level at each place of the scan, the lowest frequency first. A block of 15 begins at the second place of a 4x4 block's scan.
    pub by_place: [i16; N],
    /// How many of them are not 0: TotalCoeff.
    pub total: u8,
}

/// Reads the levels, the first at the highest place, into the first places of `levels`.
#[inline(always)]
fn read_levels<S: Elements>(
    bits: &mut Bits,
    token: Token,
    levels: &mut [i16; 16],
    sink: &mut S,
) -> Result<(), Stop>
    requires few { token.total ≤ 16 }
    requires within { token.ones ≤ token.total }
    requires ones { token.ones ≤ 3 }
    requires room { HasRoom S.failures sink.old }
    ensures { Meets (span S.took S.failures sink.old sink.new) (λ _ l. l ≡ take token.total levels.new) (all_levels token) bits.old bits.new result }
{
    read_trailing_ones(bits, usize::from(token.ones), levels, sink)?;
    read_more_levels(bits, token, levels, sink)?;
    Ok(())
}

/// Reads the level of a block that has no other.
#[inline(always)]
fn read_only_level<S: Elements>(bits: &mut Bits, token: Token, sink: &mut S) -> Result<i16, Stop>
    requires one { token.total ≡ 1 }
    requires within { token.ones ≤ token.total }
    requires room { HasRoom S.failures sink.old }
    ensures { Meets (span S.took S.failures sink.old sink.new) (λ x l. l ≡ x ∷ []) (all_levels token) bits.old bits.new result }
{
    if token.ones == 1 {
        read_trailing_one(bits, sink)
    } else {
        read_level(bits, 0, true, sink)
    }
}

/// What follows the token of a block of one coefficient: no run is coded.
#[inline(always)]
fn read_one<const N: usize, S: Elements>(
    bits: &mut Bits,
    token: Token,
    by_place: &mut [i16; N],
    sink: &mut S,
) -> Result<(), Stop>
    requires one { token.total ≡ 1 }
    requires fits { token.total ≤ N }
    requires few { N ≤ 16 }
    requires within { token.ones ≤ token.total }
    requires room { HasRoom S.failures sink.old }
    ensures meets { Meets (span S.took S.failures sink.old sink.new) (Is (λ _. record { by_place = by_place.new; total = token.total }))
        (coefficients_form N token) bits.old bits.new result }
    ensures nonzero { OnOk result (nonzero_count by_place.new ≡ token.total) }
    ensures inside { bits.old.at ≤ 8 * length bits.old.body.bytes → OnOk result (bits.new.at ≤ 8 * length bits.new.body.bytes) }
    ensures quiet { OnOk result (IsQuiet S.failures sink.old sink.new) }
{
    let level = read_only_level(bits, token, sink)?;
    let zeros = read_total_zeros(bits, N, token.total, sink)?;
    let empty = [0i16; N];
    *by_place = empty;
    by_place[usize::from(zeros)] = level;
    Ok(())
}

/// What follows the token of a block of any number of coefficients but none.
#[inline(always)]
fn read_several<const N: usize, S: Elements>(
    bits: &mut Bits,
    token: Token,
    by_place: &mut [i16; N],
    sink: &mut S,
) -> Result<(), Stop>
    requires some { 0 < token.total }
    requires fits { token.total ≤ N }
    requires few { N ≤ 16 }
    requires within { token.ones ≤ token.total }
    requires ones { token.ones ≤ 3 }
    requires room { HasRoom S.failures sink.old }
    ensures meets { Meets (span S.took S.failures sink.old sink.new) (Is (λ _. record { by_place = by_place.new; total = token.total }))
        (coefficients_form N token) bits.old bits.new result }
    ensures nonzero { OnOk result (nonzero_count by_place.new ≡ token.total) }
    ensures inside { bits.old.at ≤ 8 * length bits.old.body.bytes → OnOk result (bits.new.at ≤ 8 * length bits.new.body.bytes) }
    ensures quiet { OnOk result (IsQuiet S.failures sink.old sink.new) }
{
    let mut levels = [0i16; 16];
    read_levels(bits, token, &mut levels, sink)?;
    let zeros = read_total_zeros(bits, N, token.total, sink)?;
    read_places::<N, S>(bits, &levels, token.total, zeros, by_place, sink)?;
    Ok(())
}

/// What follows the token of a block that has coefficients.
#[inline(always)]
fn read_coefficients<const N: usize, S: Elements>(
    bits: &mut Bits,
    token: Token,
    by_place: &mut [i16; N],
    sink: &mut S,
) -> Result<(), Stop>
    requires some { 0 < token.total }
    requires fits { token.total ≤ N }
    requires few { N ≤ 16 }
    requires within { token.ones ≤ token.total }
    requires ones { token.ones ≤ 3 }
    requires room { HasRoom S.failures sink.old }
    ensures meets { Meets (span S.took S.failures sink.old sink.new) (Is (λ _. record { by_place = by_place.new; total = token.total }))
        (coefficients_form N token) bits.old bits.new result }
    ensures nonzero { OnOk result (nonzero_count by_place.new ≡ token.total) }
    ensures inside { bits.old.at ≤ 8 * length bits.old.body.bytes → OnOk result (bits.new.at ≤ 8 * length bits.new.body.bytes) }
    ensures quiet { OnOk result (IsQuiet S.failures sink.old sink.new) }
{
    if token.total == 1 {
        read_one::<N, S>(bits, token, by_place, sink)
    } else {
        bits.load_ahead();
        read_several::<N, S>(bits, token, by_place, sink)
    }
}

/// Reads a block, as `block_into` does.
#[inline(always)]
fn read_block<const N: usize, S: Elements>(
    bits: &mut Bits,
    nc: u8,
    by_place: &mut [i16; N],
    sink: &mut S,
) -> Result<u8, Stop>
    requires size { N ≤ 16 }
    requires room { HasRoom S.failures sink.old }
    ensures meets { Meets (span S.took S.failures sink.old sink.new) (Is (λ total. record { by_place = by_place.new; total = total })) (residual_block N nc)
        bits.old bits.new result }
    ensures total { IfOk result (λ total. total ≤ N) }
    ensures nonzero { IfOk result (λ total. nonzero_count by_place.new ≡ total) }
    ensures none { IfOk result (λ total. total ≡ 0 → by_place.new ≡ replicate N (pos 0)) }
    ensures inside { OnOk result (bits.new.at ≤ 8 * length bits.new.body.bytes) }
    ensures quiet { OnOk result (IsQuiet S.failures sink.old sink.new) }
{
    let token = read_token(bits, N, nc, sink)?;
    if token.total == 0 {
        let none = [0i16; N];
        *by_place = none;
        return Ok(0);
    }
    read_coefficients::<N, S>(bits, token, by_place, sink)?;
    Ok(token.total)
}

/// Reads a residual block of `N` coefficients: 16, 15 or 4. A block of 4 is chroma DC, and has the table of these whatever `nc` is;
/// for the others `nc` is nC. A block without coefficients costs one look into a table.
///
/// Ok: how many levels are not 0; `by_place` has the level at each place of the scan, whatever it had before, and the elements that
/// the sink was told are the block's one derivation, with every rule met.
/// No: the first rule that it breaks, ResidualWord or BlockSize, at its element's stream bit. Write: the sink failed.
/// After an Err the reader may have moved and some levels may be written. A reader that no reference leads to, as `again` gives one, is read faster.
#[inline(always)]
pub fn block_into<const N: usize, S: Elements>(
    bits: &mut Bits,
    nc: u8,
    by_place: &mut [i16; N],
    sink: &mut S,
) -> Result<u8, Stop>
    requires size { N ≤ 16 }
    requires room { HasRoom S.failures sink.old }
    ensures answers { Answers (span S.took S.failures sink.old sink.new) (Is (λ total. record { by_place = by_place.new; total = total }))
        (residual_block N nc) bits.old bits.new result }
    ensures meets { Meets (span S.took S.failures sink.old sink.new) (Is (λ total. record { by_place = by_place.new; total = total })) (residual_block N nc)
        bits.old bits.new result }
    ensures total { IfOk result (λ total. total ≤ N) }
    ensures nonzero { IfOk result (λ total. nonzero_count by_place.new ≡ total) }
    ensures none { IfOk result (λ total. total ≡ 0 → by_place.new ≡ replicate N (pos 0)) }
    ensures inside { OnOk result (bits.new.at ≤ 8 * length bits.new.body.bytes) }
    ensures quiet { OnOk result (IsQuiet S.failures sink.old sink.new) }
{
    read_block::<N, S>(bits, nc, by_place, sink)
}

/// Reads a block as `block_into` does, and answers its levels.
pub fn block<const N: usize, S: Elements>(
    bits: &mut Bits,
    nc: u8,
    sink: &mut S,
) -> Result<Levels<N>, Stop>
    requires size { N ≤ 16 }
    requires room { HasRoom S.failures sink.old }
    ensures answers { Answers (span S.took S.failures sink.old sink.new) (Is (λ b. record { by_place = b.by_place; total = b.total })) (residual_block N nc)
        bits.old bits.new result }
    ensures meets { Meets (span S.took S.failures sink.old sink.new) (Is (λ b. record { by_place = b.by_place; total = b.total })) (residual_block N nc)
        bits.old bits.new result }
    ensures total { IfOk result (λ b. b.total ≤ N) }
    ensures nonzero { IfOk result (λ b. nonzero_count b.by_place ≡ b.total) }
    ensures none { IfOk result (λ b. b.total ≡ 0 → b.by_place ≡ replicate N (pos 0)) }
    ensures inside { OnOk result (bits.new.at ≤ 8 * length bits.new.body.bytes) }
    ensures quiet { OnOk result (IsQuiet S.failures sink.old sink.new) }
{
    let mut by_place = [0; N];
    let total = block_into::<N, S>(bits, nc, &mut by_place, sink)?;
    Ok(Levels { by_place, total })
}
