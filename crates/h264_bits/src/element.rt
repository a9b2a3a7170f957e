//! Syntax elements, each read and told to a sink (7.2, 7.3).
#![tactic(auto)]

ghost use Rattle.std.specs.Prelude.{◌≡◌, ℕ, ℤ, pos, neg_ℤ, ◌+◌, ◌-◌, ◌<◌, ◌≤◌, ◌≤ℤ◌, ◌^◌, length, OnOk, IfOk, IfSome, Option, Some, Ok, true, false};
ghost use Rattle.h264_base.specs.Call.{HasRoom, IsQuiet, span};
ghost use Rattle.h264_base.specs.Word.{Code, Fixed, Unsigned, Signed, Words, Reads};
ghost use Rattle.h264_base.specs.Grammar.{Done, read_word as word_form, element, residual_element, more, align, raw_bytes, trailing};
ghost use Rattle.h264_base.specs.Meets.{Meets, Is, Checks};
ghost use Rattle.std.specs.Option.{option_map};
ghost use Rattle.h264_bits.specs.Peek.{peek_at};
ghost use Rattle.h264_bits.specs.Seen.{seen_unsigned, seen_signed, seen_flag, seen_ahead};
ghost use Rattle.h264_bits.specs.Stretch.{AreTogether};
ghost use Rattle.h264_bits.specs.Supports.{Supports};
ghost use Rattle.h264_bits.specs.Truncated.{truncated};
ghost use Rattle.h264_tables.specs.Greatest.{greatest_value};
ghost use Rattle.h264_tables.specs.Entry.{entry_of};
ghost use Rattle.h264_tables.specs.Front.{front_of};
ghost use Rattle.h264_tables.specs.Table.{code_table, rows_of};

use crate::bits::{Bits, NoWord};
use h264_base::{ElementName, Elements, Feature, Rule, Stop};
use h264_tables::{Entry, Table};

/// An element that was read.
#[derive(Clone, Copy, Debug, PartialEq, Eq)]
pub struct Found<T> {
    /// The stream bit of its first bit.
    pub bit: u64,
    /// Its value.
    pub value: T,
}

/// A word of a table of code words, as it was looked up in the next 16 bits.
#[derive(Clone, Copy)]
pub struct SeenWord {
    pub table: Table,
    /// What the table says of the word; nothing where none of its words stands there.
    pub entry: Option<Entry>,
}

/// Whether more data follow.
#[derive(Clone, Copy, Debug, PartialEq, Eq)]
pub struct Ahead {
    /// The stream bit that is next.
    pub bit: u64,
    /// more_rbsp_data().
    pub follows: bool,
}

/// Names a rule at a stream bit where it does not hold.
#[inline(always)]
pub fn check(holds: bool, rule: Rule, bit: u64) -> Result<(), Stop>
    ensures { Checks rule bit holds result }
{
    if holds {
        Ok(())
    } else {
        Err(Stop::No { bit, rule })
    }
}

/// Names a feature at a stream bit where what is judged does not reach.
#[inline]
pub fn support(holds: bool, feature: Feature, bit: u64) -> Result<(), Stop>
    ensures { Supports feature bit holds result }
{
    if holds {
        Ok(())
    } else {
        Err(Stop::Outside { bit, feature })
    }
}

/// Reads an element in u(`n`), and names the rule where its word is missing.
#[inline(always)]
fn read_fixed<S: Elements>(
    bits: &mut Bits,
    rule: Rule,
    name: ElementName,
    n: u32,
    sink: &mut S,
) -> Result<Found<u32>, Stop>
    requires width { n ≤ 32 }
    requires room { HasRoom S.failures sink.old }
    ensures meets { Meets (span S.took S.failures sink.old sink.new) (Is seen_unsigned) (word_form rule name (Fixed n)) bits.old bits.new result }
    ensures small { IfOk result (λ f. f.value < 2 ^ n) }
    ensures quiet { OnOk result (IsQuiet S.failures sink.old sink.new) }
{
    let bit = bits.stream_bit();
    let Ok(value) = bits.u_width(n) else {
        return Err(Stop::No { bit, rule });
    };
    match sink.element(name, bit, value as i64) {
        Ok(()) => Ok(Found { bit, value }),
        Err(_) => Err(Stop::Write),
    }
}

/// Reads an element in u(`n`). A missing word is CodeWord.
#[inline]
pub fn read_bits<S: Elements>(
    bits: &mut Bits,
    name: ElementName,
    n: u32,
    sink: &mut S,
) -> Result<Found<u32>, Stop>
    requires width { n ≤ 32 }
    requires room { HasRoom S.failures sink.old }
    ensures meets { Meets (span S.took S.failures sink.old sink.new) (Is seen_unsigned) (element name (Fixed n)) bits.old bits.new result }
    ensures small { IfOk result (λ f. f.value < 2 ^ n) }
    ensures quiet { OnOk result (IsQuiet S.failures sink.old sink.new) }
{
    read_fixed(bits, Rule::CodeWord, name, n, sink)
}

/// Reads an element of a residual block in u(`n`). A missing word is ResidualWord.
#[inline(always)]
pub fn read_residual_bits<S: Elements>(
    bits: &mut Bits,
    name: ElementName,
    n: u32,
    sink: &mut S,
) -> Result<Found<u32>, Stop>
    requires width { n ≤ 32 }
    requires room { HasRoom S.failures sink.old }
    ensures meets { Meets (span S.took S.failures sink.old sink.new) (Is seen_unsigned) (residual_element name (Fixed n)) bits.old bits.new result }
    ensures small { IfOk result (λ f. f.value < 2 ^ n) }
    ensures quiet { OnOk result (IsQuiet S.failures sink.old sink.new) }
{
    read_fixed(bits, Rule::ResidualWord, name, n, sink)
}

/// Reads an element in u(`N`). A missing word is CodeWord.
#[inline]
pub fn read_u<const N: u32, S: Elements>(
    bits: &mut Bits,
    name: ElementName,
    sink: &mut S,
) -> Result<Found<u32>, Stop>
    requires width { N ≤ 32 }
    requires room { HasRoom S.failures sink.old }
    ensures meets { Meets (span S.took S.failures sink.old sink.new) (Is seen_unsigned) (element name (Fixed N)) bits.old bits.new result }
    ensures small { IfOk result (λ f. f.value < 2 ^ N) }
    ensures quiet { OnOk result (IsQuiet S.failures sink.old sink.new) }
{
    read_bits(bits, name, N, sink)
}

/// Reads an element in u(1) as a flag. A missing word is CodeWord.
#[inline]
pub fn read_flag<S: Elements>(
    bits: &mut Bits,
    name: ElementName,
    sink: &mut S,
) -> Result<Found<bool>, Stop>
    requires room { HasRoom S.failures sink.old }
    ensures meets { Meets (span S.took S.failures sink.old sink.new) (Is seen_flag) (element name (Fixed 1)) bits.old bits.new result }
    ensures quiet { OnOk result (IsQuiet S.failures sink.old sink.new) }
{
    let bit = bits.stream_bit();
    let Ok(value) = bits.u::<1>() else {
        return Err(Stop::No {
            bit,
            rule: Rule::CodeWord,
        });
    };
    match sink.element(name, bit, value as i64) {
        Ok(()) => Ok(Found {
            bit,
            value: value == 1,
        }),
        Err(_) => Err(Stop::Write),
    }
}

/// Reads an element in ue(v). A missing word is CodeWord.
#[inline]
pub fn read_ue<S: Elements>(
    bits: &mut Bits,
    name: ElementName,
    sink: &mut S,
) -> Result<Found<u32>, Stop>
    requires room { HasRoom S.failures sink.old }
    ensures meets { Meets (span S.took S.failures sink.old sink.new) (Is seen_unsigned) (element name Unsigned) bits.old bits.new result }
    ensures small { IfOk result (λ f. f.value < 2 ^ 32 - 1) }
    ensures quiet { OnOk result (IsQuiet S.failures sink.old sink.new) }
{
    let bit = bits.stream_bit();
    let Ok(value) = bits.ue() else {
        return Err(Stop::No {
            bit,
            rule: Rule::CodeWord,
        });
    };
    match sink.element(name, bit, value as i64) {
        Ok(()) => Ok(Found { bit, value }),
        Err(_) => Err(Stop::Write),
    }
}

/// Reads an element in se(v). A missing word is CodeWord.
#[inline]
pub fn read_se<S: Elements>(
    bits: &mut Bits,
    name: ElementName,
    sink: &mut S,
) -> Result<Found<i32>, Stop>
    requires room { HasRoom S.failures sink.old }
    ensures meets { Meets (span S.took S.failures sink.old sink.new) (Is seen_signed) (element name Signed) bits.old bits.new result }
    ensures low { IfOk result (λ f. neg_ℤ (pos (2 ^ 31 - 1)) ≤ℤ f.value) }
    ensures high { IfOk result (λ f. f.value ≤ℤ pos (2 ^ 31 - 1)) }
    ensures quiet { OnOk result (IsQuiet S.failures sink.old sink.new) }
{
    let bit = bits.stream_bit();
    let Ok(value) = bits.se() else {
        return Err(Stop::No {
            bit,
            rule: Rule::CodeWord,
        });
    };
    match sink.element(name, bit, value as i64) {
        Ok(()) => Ok(Found { bit, value }),
        Err(_) => Err(Stop::Write),
    }
}

/// Reads an element in te(v) that lies in 0 to `range`. A missing word is CodeWord; a value above `range` is no error here.
#[inline]
pub fn read_te<S: Elements>(
    bits: &mut Bits,
    name: ElementName,
    range: u32,
    sink: &mut S,
) -> Result<Found<u32>, Stop>
    requires some { 0 < range }
    requires room { HasRoom S.failures sink.old }
    ensures meets { Meets (span S.took S.failures sink.old sink.new) (Is seen_unsigned) (element name (truncated range)) bits.old bits.new result }
    ensures small { IfOk result (λ f. f.value < 2 ^ 32 - 1) }
    ensures quiet { OnOk result (IsQuiet S.failures sink.old sink.new) }
{
    let bit = bits.stream_bit();
    let Ok(value) = bits.te(range) else {
        return Err(Stop::No {
            bit,
            rule: Rule::CodeWord,
        });
    };
    match sink.element(name, bit, value as i64) {
        Ok(()) => Ok(Found { bit, value }),
        Err(_) => Err(Stop::Write),
    }
}

/// Reads an element by a table of words: me(v) with CodeWord for a missing word, ce(v) of a residual block with ResidualWord.
/// What it tells the sink and gives is the word's value.
#[inline(always)]
pub fn read_word<S: Elements>(
    bits: &mut Bits,
    rule: Rule,
    name: ElementName,
    table: Table,
    sink: &mut S,
) -> Result<Found<u8>, Stop>
    requires room { HasRoom S.failures sink.old }
    ensures meets { Meets (span S.took S.failures sink.old sink.new) (Is seen_unsigned) (word_form rule name (Words (code_table table)))
        bits.old bits.new result }
    ensures small { IfOk result (λ f. f.value ≤ greatest_value table) }
    ensures quiet { OnOk result (IsQuiet S.failures sink.old sink.new) }
{
    let bit = bits.stream_bit();
    let Ok(value) = bits.word(table) else {
        return Err(Stop::No { bit, rule });
    };
    match sink.element(name, bit, value as i64) {
        Ok(()) => Ok(Found { bit, value }),
        Err(_) => Err(Stop::Write),
    }
}

/// Reads an element by a table of words, as `read_word`, of which the word was looked up in the next 16 bits.
#[inline(always)]
pub fn read_entry<S: Elements>(
    bits: &mut Bits,
    rule: Rule,
    name: ElementName,
    word: SeenWord,
    sink: &mut S,
) -> Result<Found<u8>, Stop>
    requires word { word.entry ≡ option_map entry_of (front_of 16 (rows_of word.table) (peek_at 16 bits.old.body.bytes bits.old.at)) }
    requires known { IfSome word.entry (λ e. e.value ≤ greatest_value word.table) }
    requires room { HasRoom S.failures sink.old }
    ensures meets { Meets (span S.took S.failures sink.old sink.new) (Is seen_unsigned) (word_form rule name (Words (code_table word.table)))
        bits.old bits.new result }
    ensures small { IfOk result (λ f. f.value ≤ greatest_value word.table) }
    ensures quiet { OnOk result (IsQuiet S.failures sink.old sink.new) }
{
    let bit = bits.stream_bit();
    let Ok(value) = bits.entry(word.table, word.entry) else {
        return Err(Stop::No { bit, rule });
    };
    match sink.element(name, bit, value as i64) {
        Ok(()) => Ok(Found { bit, value }),
        Err(_) => Err(Stop::Write),
    }
}

/// Reads an element by a table of words, as `read_entry`, where one is coded. Where none is, its entry is one of no bits and of value 0, nothing is told,
/// and the value is 0: for a sink that forgets what it is told no choice is left. So run_before is read (7.3.5.3.2, 9.2.3).
/// No: one is coded and no whole word stands there, the rule at its first stream bit. Write: the sink failed.
#[inline(always)]
pub fn read_entry_if<S: Elements>(
    bits: &mut Bits,
    coded: bool,
    rule: Rule,
    name: ElementName,
    word: SeenWord,
    sink: &mut S,
) -> Result<Found<u8>, Stop>
    requires word { coded ≡ true → word.entry ≡ option_map entry_of (front_of 16 (rows_of word.table) (peek_at 16 bits.old.body.bytes bits.old.at)) }
    requires known { coded ≡ true → IfSome word.entry (λ e. e.value ≤ greatest_value word.table) }
    requires nothing { coded ≡ false → word.entry ≡ Some (record { length = 0; value = 0 }) }
    requires room { HasRoom S.failures sink.old }
    ensures meets { coded ≡ true → Meets (span S.took S.failures sink.old sink.new) (Is seen_unsigned) (word_form rule name (Words (code_table word.table)))
        bits.old bits.new result }
    ensures nothing { coded ≡ false → Meets (span S.took S.failures sink.old sink.new) (Is (λ f. f.value)) (Done 0) bits.old bits.new result }
    ensures small { coded ≡ true → IfOk result (λ f. f.value ≤ greatest_value word.table) }
    ensures zero { coded ≡ false → IfOk result (λ f. f.value ≡ 0) }
    ensures quiet { OnOk result (IsQuiet S.failures sink.old sink.new) }
{
    let bit = bits.stream_bit();
    let Ok(value) = bits.entry_if(coded, word.table, word.entry) else {
        return Err(Stop::No { bit, rule });
    };
    if coded {
        let Ok(()) = sink.element(name, bit, value as i64) else {
            return Err(Stop::Write);
        };
    }
    Ok(Found { bit, value })
}

/// Tells the sink an element that was seen ahead: it has `length` bits and begins `before` bits after the one that is read next. No bit is passed.
/// Write: the sink failed.
#[inline(always)]
pub fn tell_ahead<S: Elements>(
    bits: &Bits,
    before: u32,
    length: u32,
    name: ElementName,
    value: u32,
    sink: &mut S,
) -> Result<Found<u32>, Stop>
    requires together { AreTogether bits.now.body bits.now.at (before + length) }
    requires room { HasRoom S.failures sink.old }
    ensures meets { (rule : Rule) (code : Code) → Reads code bits.now.body.bytes (bits.now.at + before) (pos value) (bits.now.at + before + length) →
        Meets (span S.took S.failures sink.old sink.new) (Is seen_unsigned) (word_form rule name code)
        (record { body = bits.now.body; at = bits.now.at + before }) (record { body = bits.now.body; at = bits.now.at + before + length }) result }
    ensures value { IfOk result (λ f. f.value ≡ value) }
    ensures quiet { OnOk result (IsQuiet S.failures sink.old sink.new) }
{
    let bit = bits.stream_bit() + before as u64;
    match sink.element(name, bit, value as i64) {
        Ok(()) => Ok(Found { bit, value }),
        Err(_) => Err(Stop::Write),
    }
}

/// Reads an element by a table of words, as `read_entry`, whose word was looked up in the next 16 bits, of which none is missing. Write: the sink failed.
#[inline(always)]
pub fn read_held_entry<S: Elements>(
    bits: &mut Bits,
    name: ElementName,
    table: Table,
    entry: Entry,
    sink: &mut S,
) -> Result<Found<u32>, Stop>
    requires word { Some entry ≡ option_map entry_of (front_of 16 (rows_of table) (peek_at 16 bits.old.body.bytes bits.old.at)) }
    requires together { AreTogether bits.old.body bits.old.at 16 }
    requires room { HasRoom S.failures sink.old }
    ensures meets { (rule : Rule) → Meets (span S.took S.failures sink.old sink.new) (Is seen_unsigned) (word_form rule name (Words (code_table table)))
        bits.old bits.new result }
    ensures value { IfOk result (λ f. f.value ≡ entry.value) }
    ensures quiet { OnOk result (IsQuiet S.failures sink.old sink.new) }
{
    let length = entry.length as u32;
    let found = tell_ahead(bits, 0, length, name, entry.value as u32, sink)?;
    bits.pass_by(length);
    Ok(found)
}

/// Takes `n` bytes, as those of a PCM macroblock, which the sink is not told. The bit that is next is the first of a byte.
/// Missing bytes are CodeWord at the first bit after the unit.
pub fn read_bytes<'a, S: Elements>(
    bits: &mut Bits<'a>,
    n: usize,
    sink: &S,
) -> Result<&'a [u8], Stop>
    requires { n ≤ 2 ^ 28 }
    ensures meets { Meets (span S.took S.failures sink.now sink.now) (Is (λ s. s.now)) (raw_bytes n) bits.old bits.new result }
    ensures count { IfOk result (λ s. length s.now ≡ n) }
{
    match bits.bytes(n) {
        Ok(bytes) => Ok(bytes),
        Err(NoWord) => Err(Stop::No {
            bit: bits.last_bit(),
            rule: Rule::CodeWord,
        }),
    }
}

/// Looks whether more data follow; nothing is read or told.
#[inline]
pub fn look<S: Elements>(bits: &Bits, sink: &S) -> Ahead
    ensures { Meets (span S.took S.failures sink.now sink.now) (Is seen_ahead) more bits.now bits.now (Ok result) }
{
    Ahead {
        bit: bits.stream_bit(),
        follows: bits.more(),
    }
}

/// Reads the zero bits up to the next byte, which the sink is not told. A 1 among them is CodeWord at that bit.
pub fn read_align<S: Elements>(bits: &mut Bits, sink: &S) -> Result<(), Stop>
    ensures { Meets (span S.took S.failures sink.now sink.now) (Is (λ x. x)) align bits.old bits.new result }
{
    if let Some(bit) = bits.first_set() {
        return Err(Stop::No {
            bit,
            rule: Rule::CodeWord,
        });
    }
    bits.to_byte();
    Ok(())
}

/// Reads the trailing bits, which end the RBSP and which the sink is not told. Where they do not stand there it is Trailing.
pub fn read_trailing<S: Elements>(bits: &mut Bits, sink: &S) -> Result<(), Stop>
    ensures { Meets (span S.took S.failures sink.now sink.now) (Is (λ x. x)) trailing bits.old bits.new result }
{
    let bit = bits.stream_bit();
    match bits.trailing() {
        Ok(()) => Ok(()),
        Err(NoWord) => Err(Stop::No {
            bit,
            rule: Rule::Trailing,
        }),
    }
}
