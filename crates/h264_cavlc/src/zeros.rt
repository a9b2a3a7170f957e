//! total_zeros and run_before (9.2.3), and where the levels stand (9.2.4).
#![tactic(auto)]

ghost use Rattle.std.specs.Prelude.{◌≡◌, ℕ, ℤ, ◌+◌, ◌-◌, ◌<◌, ◌≤◌, ◌^◌, [], IfOk, Some, take};
ghost use Rattle.std.specs.Option.{option_map};
ghost use Rattle.h264_base.specs.Call.{HasRoom, span};
ghost use Rattle.h264_base.specs.Meets.{Meets, Is};
ghost use Rattle.h264_bits.specs.Peek.{peek_at};
ghost use Rattle.h264_bits.specs.Stretch.{AreTogether};
ghost use Rattle.h264_tables.specs.Entry.{entry_of};
ghost use Rattle.h264_tables.specs.Front.{front_of};
ghost use Rattle.h264_tables.specs.Table.{rows_of};
ghost use Rattle.h264_cavlc.specs.Zeros as syntax;
ghost use Rattle.h264_cavlc.specs.Place.{by_place as standing};

use crate::runs::{LONG, short_run_word};
use crate::totals::{total_zeros_table, total_zeros_word};
use h264_base::{ElementName, Elements, Rule, Stop};
use h264_bits::{
    Bits, SeenWord, check, read_entry, read_entry_if, read_held_entry, read_word, tell_ahead,
};
use h264_tables::{Entry, Table};

/// Reads total_zeros, as `read_total_zeros`, wherever its word stands.
#[cold]
#[inline(never)]
fn read_any_total_zeros<S: Elements>(
    bits: &mut Bits,
    size: usize,
    total: u8,
    sink: &mut S,
) -> Result<u8, Stop>
    requires some { 0 < total }
    requires fits { total ≤ size }
    requires few { size ≤ 16 }
    requires room { HasRoom S.failures sink.old }
    ensures meets { Meets (span S.took S.failures sink.old sink.new) (Is (λ x. x)) (syntax.total_zeros size total) bits.old bits.new result }
    ensures fits { IfOk result (λ z. total + z ≤ size) }
{
    if usize::from(total) >= size {
        return Ok(0);
    }
    let table = total_zeros_table(size, total);
    let entry = total_zeros_word(size, total, bits.next_16());
    let word = SeenWord { table, entry };
    let name = ElementName::TotalZeros;
    let found = read_entry(bits, Rule::ResidualWord, name, word, sink)?;
    let zeros = found.value;
    check(
        usize::from(total) + usize::from(zeros) <= size,
        Rule::BlockSize,
        found.bit,
    )?;
    Ok(zeros)
}

/// Reads total_zeros of a block that has `total` coefficients.
#[inline(always)]
pub(crate) fn read_total_zeros<S: Elements>(
    bits: &mut Bits,
    size: usize,
    total: u8,
    sink: &mut S,
) -> Result<u8, Stop>
    requires some { 0 < total }
    requires fits { total ≤ size }
    requires few { size ≤ 16 }
    requires room { HasRoom S.failures sink.old }
    ensures meets { Meets (span S.took S.failures sink.old sink.new) (Is (λ x. x)) (syntax.total_zeros size total) bits.old bits.new result }
    ensures fits { IfOk result (λ z. total + z ≤ size) }
{
    if usize::from(total) >= size {
        return Ok(0);
    }
    if let Some(front) = bits.held(16) {
        if let Some(entry) = total_zeros_word(size, total, front as u16) {
            if usize::from(total) + usize::from(entry.value) <= size {
                let table = total_zeros_table(size, total);
                read_held_entry(bits, ElementName::TotalZeros, table, entry, sink)?;
                return Ok(entry.value);
            }
        }
    }
    let mut own = bits.again();
    let zeros = read_any_total_zeros(&mut own, size, total, sink)?;
    *bits = own;
    Ok(zeros)
}

/// The table of run_before, where one is coded.
#[tactic(auto, unfolding(crate::specs::Zeros::run_before_table))]
#[inline(always)]
fn run_before_table(zeros_left: u8) -> Table
    ensures { 0 < zeros_left → result ≡ syntax.run_before_table zeros_left }
{
    Table::run_before(zeros_left.max(1))
}

/// Reads run_before where more than six zeros are left, of a word of any length.
#[inline(always)]
fn read_long_run_before<S: Elements>(
    bits: &mut Bits,
    zeros_left: u8,
    sink: &mut S,
) -> Result<u8, Stop>
    requires many { 6 < zeros_left }
    requires room { HasRoom S.failures sink.old }
    ensures meets { Meets (span S.took S.failures sink.old sink.new) (Is (λ x. x)) (syntax.run_before zeros_left) bits.old bits.new result }
    ensures within { IfOk result (λ r. r ≤ zeros_left) }
{
    let found = read_word(
        bits,
        Rule::ResidualWord,
        ElementName::RunBefore,
        Table::RunBefore7,
        sink,
    )?;
    check(found.value <= zeros_left, Rule::BlockSize, found.bit)?;
    Ok(found.value)
}

/// Reads run_before, as `read_run_before`, wherever its word stands.
#[cold]
#[inline(never)]
fn read_any_run_before<S: Elements>(
    bits: &mut Bits,
    zeros_left: u8,
    sink: &mut S,
) -> Result<u8, Stop>
    requires few { zeros_left ≤ 15 }
    requires room { HasRoom S.failures sink.old }
    ensures meets { Meets (span S.took S.failures sink.old sink.new) (Is (λ x. x)) (syntax.run_before zeros_left) bits.old bits.new result }
    ensures within { IfOk result (λ r. r ≤ zeros_left) }
{
    let table = run_before_table(zeros_left);
    let (length, value) = short_run_word(zeros_left, bits.next_16());
    if length == LONG {
        return read_long_run_before(bits, zeros_left, sink);
    }
    let word = SeenWord {
        table,
        entry: Some(Entry { length, value }),
    };
    let found = read_entry_if(
        bits,
        zeros_left > 0,
        Rule::ResidualWord,
        ElementName::RunBefore,
        word,
        sink,
    )?;
    let run = found.value;
    check(run <= zeros_left, Rule::BlockSize, found.bit)?;
    Ok(run)
}

/// Tells the sink run_before, if one is coded, before its word is passed.
#[inline(always)]
fn tell_run_before<S: Elements>(
    bits: &Bits,
    zeros_left: u8,
    word: Entry,
    sink: &mut S,
) -> Result<(), Stop>
    requires word { 0 < zeros_left →
        Some word ≡ option_map entry_of (front_of 16 (rows_of (syntax.run_before_table zeros_left)) (peek_at 16 bits.now.body.bytes bits.now.at)) }
    requires none { zeros_left ≡ 0 → word.length ≡ 0 }
    requires few { word.value ≤ zeros_left }
    requires short { word.length ≤ 16 }
    requires together { AreTogether bits.now.body bits.now.at 16 }
    requires room { HasRoom S.failures sink.old }
    ensures { Meets (span S.took S.failures sink.old sink.new) (Is (λ _. word.value)) (syntax.run_before zeros_left) bits.now
        (record { body = bits.now.body; at = bits.now.at + word.length }) result }
{
    if zeros_left > 0 {
        let length = u32::from(word.length);
        let value = u32::from(word.value);
        tell_ahead(bits, 0, length, ElementName::RunBefore, value, sink)?;
    }
    Ok(())
}

/// Reads run_before. Where no zeros are left none is coded, and a word of no bits stands for it: a choice there would often be predicted wrongly.
#[inline(always)]
fn read_run_before<S: Elements>(bits: &mut Bits, zeros_left: u8, sink: &mut S) -> Result<u8, Stop>
    requires few { zeros_left ≤ 15 }
    requires room { HasRoom S.failures sink.old }
    ensures meets { Meets (span S.took S.failures sink.old sink.new) (Is (λ x. x)) (syntax.run_before zeros_left) bits.old bits.new result }
    ensures within { IfOk result (λ r. r ≤ zeros_left) }
{
    if let Some(front) = bits.held(16) {
        let (length, value) = short_run_word(zeros_left, front as u16);
        if length != LONG {
            tell_run_before(bits, zeros_left, Entry { length, value }, sink)?;
            bits.pass_by(u32::from(length));
            return Ok(value);
        }
    }
    let mut own = bits.again();
    let run = read_any_run_before(&mut own, zeros_left, sink)?;
    *bits = own;
    Ok(run)
}

/// Reads the runs, and puts the first `total` of `levels` to their places, and 0 to all others.
#[inline(always)]
pub(crate) fn read_places<const N: usize, S: Elements>(
    bits: &mut Bits,
    levels: &[i16; 16],
    total: u8,
    zeros: u8,
    by_place: &mut [i16; N],
    sink: &mut S,
) -> Result<(), Stop>
    requires some { 0 < total }
    requires few { N ≤ 16 }
    requires fits { total + zeros ≤ N }
    requires room { HasRoom S.failures sink.old }
    ensures { Meets (span S.took S.failures sink.old sink.new) (λ _ runs. by_place.new ≡ standing N (take total levels.now) zeros runs)
        (syntax.runs_before [] zeros (total - 1)) bits.old bits.new result }
{
    let none = [0i16; N];
    *by_place = none;
    let mut left = zeros;
    let last = usize::from(total - 1);
    let mut place = last + usize::from(zeros);
    for k in 0..last {
        by_place[place] = levels[k];
        let run = read_run_before(bits, left, sink)?;
        left -= run;
        place -= 1 + usize::from(run);
    }
    by_place[place] = levels[last];
    Ok(())
}
