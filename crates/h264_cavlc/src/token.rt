//! coeff_token and the trailing ones (9.2.1, 9.2.2).
#![tactic(auto)]

ghost use Rattle.std.specs.Prelude.{◌≡◌, ℕ, ℤ, pos, ◌+◌, ◌-◌, ◌*◌, ◌/◌, ◌%◌, ◌<◌, ◌≤◌, ◌^◌, [], IfOk, OnOk, length, take, get_or};
ghost use Rattle.h264_base.specs.Call.{HasRoom, IsQuiet, span};
ghost use Rattle.h264_base.specs.Meets.{Meets, Is};
ghost use Rattle.h264_base.specs.Word.{Fixed, Reads};
ghost use Rattle.h264_bits.specs.Forms.{repeated};
ghost use Rattle.h264_bits.specs.Stretch.{AreTogether};
ghost use Rattle.h264_cavlc.specs.Token as syntax;

use crate::token_words::{coeff_token_table, coeff_token_word};
use h264_base::{ElementName, Elements, Rule, Stop};
use h264_bits::{
    Bits, SeenWord, check, read_entry, read_held_entry, read_residual_bits, tell_ahead,
};

/// What coeff_token says.
#[derive(Clone, Copy, Debug, PartialEq, Eq)]
pub struct Token {
    /// TotalCoeff: how many coefficients are not 0.
    pub total: u8,
    /// TrailingOnes: how many of them, the first ones, are 1 or -1 with a sign alone. At most 3.
    pub ones: u8,
}

/// Reads coeff_token, as `read_token`, wherever its word stands.
#[cold]
#[inline(never)]
fn read_any_token<S: Elements>(
    bits: &mut Bits,
    size: usize,
    nc: u8,
    sink: &mut S,
) -> Result<Token, Stop>
    requires { HasRoom S.failures sink.old }
    ensures meets { Meets (span S.took S.failures sink.old sink.new) (Is (λ x. x)) (syntax.coeff_token size nc) bits.old bits.new result }
    ensures fits { IfOk result (λ t. t.total ≤ size) }
    ensures few { IfOk result (λ t. t.ones ≤ 3) }
    ensures within { IfOk result (λ t. t.ones ≤ t.total) }
    ensures inside { OnOk result (bits.new.at ≤ 8 * length bits.new.body.bytes) }
{
    let table = coeff_token_table(size, nc);
    let entry = coeff_token_word(size, nc, bits.next_16());
    let word = SeenWord { table, entry };
    let name = ElementName::CoeffToken;
    let found = read_entry(bits, Rule::ResidualWord, name, word, sink)?;
    let total = found.value / 4;
    check(usize::from(total) <= size, Rule::BlockSize, found.bit)?;
    Ok(Token {
        total,
        ones: found.value % 4,
    })
}

/// Reads coeff_token of a block of `size` coefficients.
#[inline(always)]
pub(crate) fn read_token<S: Elements>(
    bits: &mut Bits,
    size: usize,
    nc: u8,
    sink: &mut S,
) -> Result<Token, Stop>
    requires { HasRoom S.failures sink.old }
    ensures meets { Meets (span S.took S.failures sink.old sink.new) (Is (λ x. x)) (syntax.coeff_token size nc) bits.old bits.new result }
    ensures fits { IfOk result (λ t. t.total ≤ size) }
    ensures few { IfOk result (λ t. t.ones ≤ 3) }
    ensures within { IfOk result (λ t. t.ones ≤ t.total) }
    ensures inside { OnOk result (bits.new.at ≤ 8 * length bits.new.body.bytes) }
{
    if let Some(front) = bits.held(16) {
        if let Some(entry) = coeff_token_word(size, nc, front as u16) {
            let total = entry.value / 4;
            if usize::from(total) <= size {
                let table = coeff_token_table(size, nc);
                read_held_entry(bits, ElementName::CoeffToken, table, entry, sink)?;
                return Ok(Token {
                    total,
                    ones: entry.value % 4,
                });
            }
        }
    }
    let mut own = bits.again();
    let token = read_any_token(&mut own, size, nc, sink)?;
    *bits = own;
    Ok(token)
}

/// Reads the sign of a trailing one, as `read_trailing_one`, wherever it stands.
#[cold]
#[inline(never)]
fn read_any_one<S: Elements>(bits: &mut Bits, sink: &mut S) -> Result<i16, Stop>
    requires { HasRoom S.failures sink.old }
    ensures { Meets (span S.took S.failures sink.old sink.new) (Is (λ x. x)) syntax.trailing_one bits.old bits.new result }
{
    let sign = read_residual_bits(bits, ElementName::TrailingOnesSignFlag, 1, sink)?;
    Ok(if sign.value == 0 { 1 } else { -1 })
}

/// Reads the trailing ones, as `read_trailing_ones`, one by one.
#[cold]
#[inline(never)]
fn read_each_one<S: Elements>(
    bits: &mut Bits,
    ones: usize,
    levels: &mut [i16; 16],
    sink: &mut S,
) -> Result<(), Stop>
    requires few { ones ≤ 16 }
    requires room { HasRoom S.failures sink.old }
    ensures { Meets (span S.took S.failures sink.old sink.new) (λ _ l. l ≡ take ones levels.new) (repeated syntax.trailing_one [] ones)
        bits.old bits.new result }
{
    for k in 0..ones {
        let one = read_any_one(bits, sink)?;
        levels[k] = one;
    }
    Ok(())
}
/// How many trailing ones there are at most.
const MOST_ONES: u32 = 3;

/// The sign of trailing one `k` of three that were seen.
#[inline(always)]
fn sign_of(signs: u64, k: u32) -> u32
    requires few { signs < 2 ^ 3 }
    requires one { k < 3 }
    ensures { result ≡ signs / 2 ^ (2 - k) % 2 }
{
    (signs >> (MOST_ONES - 1 - k) & 1) as u32
}

/// The level of a trailing one with this sign.
#[inline(always)]
fn one_of(sign: u32) -> i16
    ensures { result ≡ syntax.one_of sign }
{
    if sign == 0 { 1 } else { -1 }
}

/// Puts the levels of three trailing ones to the first places, by their signs.
#[inline(always)]
fn put_ones(signs: u64, levels: &mut [i16; 16])
    requires { signs < 2 ^ 3 }
    ensures { (k : ℕ) → k < 3 → get_or levels.new k (pos 0) ≡ syntax.one_of (signs / 2 ^ (2 - k) % 2) }
{
    levels[0] = one_of(sign_of(signs, 0));
    levels[1] = one_of(sign_of(signs, 1));
    levels[2] = one_of(sign_of(signs, 2));
}

/// Tells the sink the sign of trailing one `k`, before any of them is passed.
#[inline(always)]
fn tell_one<S: Elements>(bits: &Bits, k: u32, sign: u32, sink: &mut S) -> Result<(), Stop>
    requires together { AreTogether bits.now.body bits.now.at (k + 1) }
    requires room { HasRoom S.failures sink.old }
    ensures meets { Reads (Fixed 1) bits.now.body.bytes (bits.now.at + k) (pos sign) (bits.now.at + k + 1) →
        Meets (span S.took S.failures sink.old sink.new) (Is (λ _. syntax.one_of sign)) syntax.trailing_one
        (record { body = bits.now.body; at = bits.now.at + k }) (record { body = bits.now.body; at = bits.now.at + (k + 1) }) result }
    ensures quiet { OnOk result (IsQuiet S.failures sink.old sink.new) }
{
    tell_ahead(bits, k, 1, ElementName::TrailingOnesSignFlag, sign, sink)?;
    Ok(())
}

/// Reads the sign of a trailing one: its level.
#[inline(always)]
pub(crate) fn read_trailing_one<S: Elements>(bits: &mut Bits, sink: &mut S) -> Result<i16, Stop>
    requires { HasRoom S.failures sink.old }
    ensures { Meets (span S.took S.failures sink.old sink.new) (Is (λ x. x)) syntax.trailing_one bits.old bits.new result }
{
    if let Some(front) = bits.held(1) {
        let sign = front as u32;
        tell_one(bits, 0, sign, sink)?;
        bits.pass_by(1);
        return Ok(one_of(sign));
    }
    let mut own = bits.again();
    let one = read_any_one(&mut own, sink)?;
    *bits = own;
    Ok(one)
}

/// Reads the trailing ones into the first places of `levels`.
#[inline(always)]
pub(crate) fn read_trailing_ones<S: Elements>(
    bits: &mut Bits,
    ones: usize,
    levels: &mut [i16; 16],
    sink: &mut S,
) -> Result<(), Stop>
    requires few { ones ≤ 3 }
    requires room { HasRoom S.failures sink.old }
    ensures { Meets (span S.took S.failures sink.old sink.new) (λ _ l. l ≡ take ones levels.new) (repeated syntax.trailing_one [] ones)
        bits.old bits.new result }
{
    let Some(signs) = bits.held(MOST_ONES) else {
        let mut own = bits.again();
        read_each_one(&mut own, ones, levels, sink)?;
        *bits = own;
        return Ok(());
    };
    put_ones(signs, levels);
    for k in 0..ones as u32 {
        tell_one(bits, k, sign_of(signs, k), sink)?;
    }
    bits.pass_by(ones as u32);
    Ok(())
}
