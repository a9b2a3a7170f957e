//! The levels that are no trailing ones (9.2.2, 9.2.2.1).
#![tactic(auto)]

ghost use Rattle.std.specs.Prelude.{◌≡◌, ℕ, ℤ, pos, ◌+◌, ◌-◌, ◌*◌, ◌<◌, ◌≤◌, ◌^◌, List, length, IfOk, IfSome, take};
ghost use Rattle.h264_base.specs.Call.{HasRoom, span};
ghost use Rattle.h264_base.specs.Meets.{Meets, Is};
ghost use Rattle.h264_base.specs.Word.{Fixed, Words, Reads};
ghost use Rattle.h264_bits.specs.Peek.{peek_at};
ghost use Rattle.h264_bits.specs.Stretch.{AreTogether};
ghost use Rattle.h264_tables.specs.declared.table.Table.TheVariants as table;
ghost use Rattle.h264_tables.specs.Table.{code_table};
ghost use Rattle.h264_cavlc.specs.Level as syntax;

use crate::token::Token;
use h264_base::{ElementName, Elements, Rule, Stop};
use h264_bits::{Bits, read_residual_bits, read_word, tell_ahead};
use h264_tables::{Table, lookup};

/// suffixLength of the first level.
#[tactic(auto, unfolding(crate::specs::Level::first_suffix_length))]
#[inline(always)]
fn first_suffix_length(token: Token) -> u32
    ensures length { result ≡ syntax.first_suffix_length token }
    ensures short { result ≤ 6 }
{
    if token.total > 10 && token.ones < 3 {
        1
    } else {
        0
    }
}

/// The greatest size of a level after which suffixLength stays as it is, by suffixLength; it is 1 then where it was 0. A suffixLength of 6 always stays.
const GREATEST: [u16; 7] = [3, 3, 6, 12, 24, 48, u16::MAX];

/// suffixLength of the level after this one.
#[inline(always)]
fn next_suffix_length(suffix_length: u32, level: i16) -> u32
    requires { suffix_length ≤ 6 }
    ensures length { result ≡ syntax.next_suffix_length suffix_length level }
    ensures some { 0 < result }
    ensures short { result ≤ 6 }
{
    let used = suffix_length.max(1);
    if level.unsigned_abs() > GREATEST[suffix_length as usize] {
        used + 1
    } else {
        used
    }
}

/// How many bits level_suffix has.
#[tactic(auto, unfolding(crate::specs::Level::suffix_size))]
#[inline(always)]
fn suffix_size(prefix: u32, suffix_length: u32) -> u32
    requires { suffix_length ≤ 6 }
    ensures size { result ≡ syntax.suffix_size prefix suffix_length }
    ensures few { result ≤ 12 }
{
    if prefix == 14 && suffix_length == 0 {
        4
    } else if prefix == 15 {
        12
    } else {
        suffix_length
    }
}

/// levelCode.
#[tactic(auto, unfolding(crate::specs::Level::level_code))]
#[inline(always)]
fn level_code(prefix: u32, suffix_length: u32, suffix: u32, never_one: bool) -> u32
    requires prefix { prefix ≤ 15 }
    requires length { suffix_length ≤ 6 }
    requires suffix { suffix < 4096 }
    ensures code { result ≡ syntax.level_code prefix suffix_length suffix never_one }
    ensures small { result < 8192 }
{
    let escape = if prefix == 15 && suffix_length == 0 {
        15
    } else {
        0
    };
    let raised = if never_one { 2 } else { 0 };
    (prefix << suffix_length) + suffix + escape + raised
}

/// The level that levelCode stands for.
#[tactic(auto, unfolding(crate::specs::Level::level_value))]
#[inline(always)]
fn level_value(code: u32) -> i16
    requires { code < 8192 }
    ensures { result ≡ syntax.level_value code }
{
    let size = (code / 2 + 1) as i16;
    if code % 2 == 0 { size } else { -size }
}

/// Reads level_suffix of `size` bits.
#[inline(always)]
fn read_level_suffix<S: Elements>(bits: &mut Bits, size: u32, sink: &mut S) -> Result<u32, Stop>
    requires few { size ≤ 12 }
    requires room { HasRoom S.failures sink.old }
    ensures meets { Meets (span S.took S.failures sink.old sink.new) (Is (λ x. x)) (syntax.level_suffix size) bits.old bits.new result }
    ensures small { IfOk result (λ v. v < 4096) }
{
    if size == 0 {
        return Ok(0);
    }
    let suffix = read_residual_bits(bits, ElementName::LevelSuffix, size, sink)?;
    Ok(suffix.value)
}

/// Reads a level, as `read_level`, element by element.
#[cold]
#[inline(never)]
fn read_any_level<S: Elements>(
    bits: &mut Bits,
    suffix_length: u32,
    never_one: bool,
    sink: &mut S,
) -> Result<i16, Stop>
    requires length { suffix_length ≤ 6 }
    requires room { HasRoom S.failures sink.old }
    ensures { Meets (span S.took S.failures sink.old sink.new) (Is (λ x. x)) (syntax.level suffix_length never_one) bits.old bits.new result }
{
    let found = read_word(
        bits,
        Rule::ResidualWord,
        ElementName::LevelPrefix,
        Table::LevelPrefix,
        sink,
    )?;
    let prefix = u32::from(found.value);
    let size = suffix_size(prefix, suffix_length);
    let suffix = read_level_suffix(bits, size, sink)?;
    let code = level_code(prefix, suffix_length, suffix, never_one);
    Ok(level_value(code))
}

/// How long level_prefix of a short level is at most: below 14, so that level_suffix has suffixLength bits.
const SHORT_PREFIX: u8 = 14;

/// As many bits as a short level has at most.
const SHORT: u32 = 20;

/// What the elements of a level say.
#[derive(Clone, Copy)]
struct Parts {
    prefix: u32,
    /// How many bits level_prefix has.
    length: u32,
    suffix: u32,
}

/// The short level that `SHORT` bits begin with. None where they begin with another, or with none.
#[inline(always)]
fn short_level(bits: u64, suffix_length: u32) -> Option<Parts>
    requires few { bits < 2 ^ 20 }
    requires length { suffix_length ≤ 6 }
    ensures prefix { (bytes : List ℕ) (i : ℕ) → bits ≡ peek_at 20 bytes i → i + 20 ≤ 8 * length bytes →
        IfSome result (λ p. Reads (Words (code_table table.LevelPrefix)) bytes i (pos p.prefix) (i + p.length)) }
    ensures suffix { (bytes : List ℕ) (i : ℕ) → bits ≡ peek_at 20 bytes i → i + 20 ≤ 8 * length bytes →
        IfSome result (λ p. Reads (Fixed suffix_length) bytes (i + p.length) (pos p.suffix) (i + p.length + suffix_length)) }
    ensures short { IfSome result (λ p. p.prefix < 14) }
    ensures inside { IfSome result (λ p. p.length ≤ 14) }
    ensures small { IfSome result (λ p. p.suffix < 2 ^ suffix_length) }
{
    let word = lookup(Table::LevelPrefix, (bits >> (SHORT - 16)) as u16)?;
    if word.value >= SHORT_PREFIX || word.length > SHORT_PREFIX {
        return None;
    }
    let length = u32::from(word.length);
    let rest = bits >> (SHORT - (length + suffix_length));
    Some(Parts {
        prefix: u32::from(word.value),
        length,
        suffix: (rest % (1 << suffix_length)) as u32,
    })
}

/// Tells the sink level_suffix of `size` bits that begins `before` bits after the one that is read next.
#[inline(always)]
fn tell_level_suffix<S: Elements>(
    bits: &Bits,
    before: u32,
    size: u32,
    suffix: u32,
    sink: &mut S,
) -> Result<(), Stop>
    requires together { AreTogether bits.now.body bits.now.at (before + size) }
    requires small { suffix < 2 ^ size }
    requires room { HasRoom S.failures sink.old }
    ensures { Reads (Fixed size) bits.now.body.bytes (bits.now.at + before) (pos suffix) (bits.now.at + before + size) →
        Meets (span S.took S.failures sink.old sink.new) (Is (λ _. suffix)) (syntax.level_suffix size)
        (record { body = bits.now.body; at = bits.now.at + before }) (record { body = bits.now.body; at = bits.now.at + before + size }) result }
{
    if size == 0 {
        return Ok(());
    }
    tell_ahead(bits, before, size, ElementName::LevelSuffix, suffix, sink)?;
    Ok(())
}

/// Reads a level.
#[inline(always)]
pub(crate) fn read_level<S: Elements>(
    bits: &mut Bits,
    suffix_length: u32,
    never_one: bool,
    sink: &mut S,
) -> Result<i16, Stop>
    requires length { suffix_length ≤ 6 }
    requires room { HasRoom S.failures sink.old }
    ensures { Meets (span S.took S.failures sink.old sink.new) (Is (λ x. x)) (syntax.level suffix_length never_one) bits.old bits.new result }
{
    if let Some(front) = bits.held(SHORT) {
        if let Some(parts) = short_level(front, suffix_length) {
            let Parts {
                prefix,
                length,
                suffix,
            } = parts;
            tell_ahead(bits, 0, length, ElementName::LevelPrefix, prefix, sink)?;
            tell_level_suffix(bits, length, suffix_length, suffix, sink)?;
            bits.pass_by(length + suffix_length);
            let code = level_code(prefix, suffix_length, suffix, never_one);
            return Ok(level_value(code));
        }
    }
    let mut own = bits.again();
    let level = read_any_level(&mut own, suffix_length, never_one, sink)?;
    *bits = own;
    Ok(level)
}

/// Whether the first level after so many trailing ones can't be 1 or -1.
#[tactic(auto, unfolding(crate::specs::Level::is_never_one))]
#[inline(always)]
fn is_never_one(ones: u8) -> bool
    ensures { result ≡ syntax.is_never_one ones ones }
{
    ones < 3
}

/// Reads the levels after the trailing ones.
#[inline(always)]
pub(crate) fn read_more_levels<S: Elements>(
    bits: &mut Bits,
    token: Token,
    levels: &mut [i16; 16],
    sink: &mut S,
) -> Result<(), Stop>
    requires few { token.total ≤ 16 }
    requires within { token.ones ≤ token.total }
    requires room { HasRoom S.failures sink.old }
    ensures { Meets (span S.took S.failures sink.old sink.new) (λ _ l. l ≡ take token.total levels.new)
        (syntax.more_levels token.ones (take token.ones levels.old) (syntax.first_suffix_length token) (token.total - token.ones)) bits.old bits.new result }
{
    if token.ones == token.total {
        return Ok(());
    }
    let first_length = first_suffix_length(token);
    let never_one = is_never_one(token.ones);
    let first = read_level(bits, first_length, never_one, sink)?;
    levels[usize::from(token.ones)] = first;
    let mut suffix_length = next_suffix_length(first_length, first);
    for k in token.ones + 1..token.total {
        // It is 1 or more already; the maximum shows the compiler that there is a suffix.
        let used = suffix_length.max(1);
        let level = read_level(bits, used, false, sink)?;
        levels[usize::from(k)] = level;
        suffix_length = next_suffix_length(used, level);
    }
    Ok(())
}
