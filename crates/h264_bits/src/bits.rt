//! The bits of an RBSP, read one code word after another.
#![tactic(auto)]

ghost use Rattle.std.specs.Prelude.{◌≡◌, ℕ, ℤ, pos, neg_ℤ, ◌+◌, ◌-◌, ◌*◌, ◌<◌, ◌≤◌, ◌≤ℤ◌, ◌^◌, length, OnOk, OnErr, IfOk, IfSome, Option, Some, None};
ghost use Rattle.std.specs.Prelude.{Ok, true, false};
ghost use Rattle.std.specs.Option.{option_map};
ghost use Rattle.h264_base.specs.Body.{Body, place};
ghost use Rattle.h264_base.specs.Word.{Fixed, Unsigned, Signed, Words, Reads, no_zero_at, padding};
ghost use Rattle.h264_base.specs.Grammar.{HasMore, IsClosed, IsPadded, bytes_at};
ghost use Rattle.h264_base.specs.Meets.{Reader};
ghost use Rattle.h264_bits.specs.Peek.{IsLastOne, peek_at};
ghost use Rattle.h264_bits.specs.Stretch.{IsStretch, AreTogether};
ghost use Rattle.h264_bits.specs.Taken.{HasNoWord};
ghost use Rattle.h264_bits.specs.Truncated.{truncated};
ghost use Rattle.h264_bits.specs.Upcoming.{IsUpcoming};
ghost use Rattle.h264_tables.specs.Greatest.{greatest_value};
ghost use Rattle.h264_tables.specs.Entry.{entry_of};
ghost use Rattle.h264_tables.specs.Front.{front_of};
ghost use Rattle.h264_tables.specs.Table.{code_table, rows_of};

use crate::codes::{SHORT, first_set, golomb, last_one, short_golomb};
use crate::stretch::{Stretch, stretch_after, stretch_from};
use crate::window::{Upcoming, first_of, following, loaded, none_upcoming};
use h264_rbsp::Rbsp;
use h264_tables::{Entry, Table, lookup};
use std::marker::Model;

/// No word of the code stands there, or the RBSP ends in it.
#[derive(Clone, Copy, Debug, PartialEq, Eq)]
pub struct NoWord;

/// An RBSP, and the bit of it that is read next: bit 0 is the highest of its first byte.
#[derive(Drop)]
pub struct Bits<'a> {
    rbsp: &'a Rbsp,
    bytes: &'a [u8],
    last_one: usize,
    at: usize,
    stretch: Stretch,
    upcoming: Upcoming,
}

impl<'a> Model for Bits<'a> {
    ghost Value = { Reader };

    ghost view = { λ r. record { body = r.rbsp.now; at = r.at } };

    ghost invariant = { λ r. (r.bytes.now ≡ r.rbsp.now.bytes) × (r.at ≤ 8 * length r.bytes.now) × (length r.bytes.now ≤ 2 ^ 28)
        × IsLastOne r.bytes.now r.last_one × IsStretch r.rbsp.now r.at r.stretch × IsUpcoming r.bytes.now r.at r.upcoming
        × (r.at + r.upcoming.count ≤ r.stretch.last) };
}

impl<'a> Bits<'a> {
    /// All bits of an RBSP, from its first.
    pub fn new(rbsp: &'a Rbsp) -> Bits<'a>
        ensures { result ≡ record { body = rbsp.now; at = 0 } }
    {
        let bytes = rbsp.bytes();
        let last_one = last_one(bytes);
        Bits {
            rbsp,
            bytes,
            last_one,
            at: 0,
            stretch: stretch_from(rbsp, 0),
            upcoming: none_upcoming(),
        }
    }

    /// A reader of the same RBSP at the same bit. One that no reference leads to is read faster.
    #[inline(always)]
    pub fn again(&self) -> Bits<'a>
        ensures { result ≡ self.now }
    {
        Bits {
            rbsp: self.rbsp,
            bytes: self.bytes,
            last_one: self.last_one,
            at: self.at,
            stretch: self.stretch,
            upcoming: self.upcoming,
        }
    }

    /// The stream bit of the bit that is read next; at the end that of the first bit after the unit.
    #[inline(always)]
    pub fn stream_bit(&self) -> u64
        ensures { result ≡ place self.now.body self.now.at }
    {
        self.at as u64 + self.stretch.shift
    }

    /// The next `n` bits as a number, with zeros past the end of the RBSP.
    #[inline(always)]
    fn next_bits(&mut self, n: u32) -> u64
        requires { n ≤ 57 }
        ensures value { result ≡ peek_at n self.old.body.bytes self.old.at }
        ensures kept { self.new ≡ self.old }
    {
        if self.upcoming.count < n {
            self.upcoming = loaded(self.bytes, self.at, self.stretch.last);
        }
        first_of(self.upcoming, n)
    }

    /// The next `n` bits as a number, where so many are left that stand together in the stream. None says nothing of them. No bit is passed.
    #[inline(always)]
    pub fn held(&mut self, n: u32) -> Option<u64>
        requires { n ≤ 57 }
        ensures value { IfSome result (λ v. v ≡ peek_at n self.old.body.bytes self.old.at) }
        ensures small { IfSome result (λ v. v < 2 ^ n) }
        ensures together { IfSome result (λ v. AreTogether self.old.body self.old.at n) }
        ensures kept { self.new ≡ self.old }
    {
        let bits = self.next_bits(n);
        if self.upcoming.count < n {
            return None;
        }
        Some(bits)
    }

    /// The next `n` bits as a number, as `held`, where they are loaded already.
    #[inline(always)]
    fn ready(&self, n: u32) -> Option<u64>
        requires { n ≤ 57 }
        ensures value { IfSome result (λ v. v ≡ peek_at n self.now.body.bytes self.now.at) }
        ensures small { IfSome result (λ v. v < 2 ^ n) }
        ensures together { IfSome result (λ v. AreTogether self.now.body self.now.at n) }
    {
        if self.upcoming.count < n {
            return None;
        }
        Some(first_of(self.upcoming, n))
    }

    /// Loads the bits that come next, as many as one load gives. It changes nothing that is read; the elements that follow then seldom need a load of
    /// their own, whose place is predicted wrongly.
    #[inline(always)]
    pub fn load_ahead(&mut self)
        ensures { self.new ≡ self.old }
    {
        self.upcoming = loaded(self.bytes, self.at, self.stretch.last);
    }

    /// Passes `n` bits, and none where fewer are left.
    #[inline(always)]
    fn advance(&mut self, n: u32) -> Result<(), NoWord>
        requires { n < 64 }
        ensures fits { OnOk result (n ≤ 8 * length self.old.body.bytes - self.old.at) }
        ensures end { OnOk result (self.new ≡ record { body = self.old.body; at = self.old.at + n }) }
        ensures none { OnErr result (8 * length self.old.body.bytes - self.old.at < n) }
        ensures kept { OnErr result (self.new ≡ self.old) }
    {
        if n <= self.upcoming.count {
            self.upcoming = following(self.upcoming, n);
            self.at += n as usize;
            return Ok(());
        }
        let Some(stretch) = stretch_after(self.rbsp, self.at, n) else {
            return Err(NoWord);
        };
        self.upcoming = none_upcoming();
        self.stretch = stretch;
        self.at += n as usize;
        Ok(())
    }

    /// Passes the bits before bit `next`.
    #[inline(always)]
    fn pass(&mut self, next: usize)
        requires forward { self.old.at ≤ next }
        requires inside { next ≤ 8 * length self.old.body.bytes }
        ensures { self.new ≡ record { body = self.old.body; at = next } }
    {
        let n = next - self.at;
        if n < self.upcoming.count as usize {
            self.upcoming = following(self.upcoming, n as u32);
        } else {
            self.upcoming = none_upcoming();
            if next > self.stretch.last {
                self.stretch = stretch_from(self.rbsp, next);
            }
        }
        self.at = next;
    }

    /// Passes `n` bits, of which none is missing.
    #[inline(always)]
    pub fn pass_by(&mut self, n: u32)
        requires few { n < 64 }
        requires inside { self.old.at + n ≤ 8 * length self.old.body.bytes }
        ensures { self.new ≡ record { body = self.old.body; at = self.old.at + n } }
    {
        if n > self.upcoming.count {
            return self.pass(self.at + n as usize);
        }
        self.upcoming = following(self.upcoming, n);
        self.at += n as usize;
    }

    /// The stream bit of the first bit after the unit.
    pub(crate) fn last_bit(&self) -> u64
        ensures { result ≡ place self.now.body (8 * length self.now.body.bytes) }
    {
        self.rbsp.stream_bit(8 * self.bytes.len())
    }

    /// more_rbsp_data(): false where the rest is a 1 followed by 0s only (7.2).
    #[inline]
    pub fn more(&self) -> bool
        ensures { HasMore self.now.body.bytes self.now.at result }
    {
        self.at != self.last_one
    }

    /// Reads u(n): `n` bits as a number, the first the highest (7.2).
    #[inline(always)]
    pub fn u_width(&mut self, n: u32) -> Result<u32, NoWord>
        requires { n ≤ 32 }
        ensures word { IfOk result (λ v. Reads (Fixed n) self.old.body.bytes self.old.at (pos v) self.new.at) }
        ensures body { self.new.body ≡ self.old.body }
        ensures small { IfOk result (λ v. v < 2 ^ n) }
        ensures none { OnErr result (HasNoWord (Fixed n) self.old.body.bytes self.old.at) }
        ensures kept { OnErr result (self.new ≡ self.old) }
    {
        let value = self.next_bits(n) as u32;
        match self.advance(n) {
            Ok(()) => Ok(value),
            Err(NoWord) => Err(NoWord),
        }
    }

    /// Reads u(N), as `u_width`.
    #[inline]
    pub fn u<const N: u32>(&mut self) -> Result<u32, NoWord>
        requires { N ≤ 32 }
        ensures word { IfOk result (λ v. Reads (Fixed N) self.old.body.bytes self.old.at (pos v) self.new.at) }
        ensures body { self.new.body ≡ self.old.body }
        ensures small { IfOk result (λ v. v < 2 ^ N) }
        ensures none { OnErr result (HasNoWord (Fixed N) self.old.body.bytes self.old.at) }
        ensures kept { OnErr result (self.new ≡ self.old) }
    {
        self.u_width(N)
    }

    /// Reads ue(v), as `ue`, where the word may be a long one.
    fn ue_of_any_length(&mut self) -> Result<u32, NoWord>
        ensures word { IfOk result (λ v. Reads Unsigned self.old.body.bytes self.old.at (pos v) self.new.at) }
        ensures body { self.new.body ≡ self.old.body }
        ensures small { IfOk result (λ v. v < 2 ^ 32 - 1) }
        ensures none { OnErr result (HasNoWord Unsigned self.old.body.bytes self.old.at) }
        ensures kept { OnErr result (self.new ≡ self.old) }
    {
        let Some((value, next)) = golomb(self.bytes, self.at) else {
            return Err(NoWord);
        };
        self.pass(next);
        Ok(value)
    }

    /// Reads ue(v), as `ue`, of which some bits may not be loaded.
    #[inline(never)]
    fn ue_after_load(&mut self) -> Result<u32, NoWord>
        ensures word { IfOk result (λ v. Reads Unsigned self.old.body.bytes self.old.at (pos v) self.new.at) }
        ensures body { self.new.body ≡ self.old.body }
        ensures small { IfOk result (λ v. v < 2 ^ 32 - 1) }
        ensures none { OnErr result (HasNoWord Unsigned self.old.body.bytes self.old.at) }
        ensures kept { OnErr result (self.new ≡ self.old) }
    {
        if let Some(front) = self.held(SHORT) {
            if let Some(word) = short_golomb(front) {
                self.pass_by(word.length);
                return Ok(word.value);
            }
        }
        self.ue_of_any_length()
    }

    /// Reads ue(v): an Exp-Golomb word of at most 31 zeros before its 1, as its codeNum (9.1). Most words are short and loaded; what else may be needed
    /// stands in a function of its own, so that these are read without a register saved.
    #[inline(never)]
    pub fn ue(&mut self) -> Result<u32, NoWord>
        ensures word { IfOk result (λ v. Reads Unsigned self.old.body.bytes self.old.at (pos v) self.new.at) }
        ensures body { self.new.body ≡ self.old.body }
        ensures small { IfOk result (λ v. v < 2 ^ 32 - 1) }
        ensures none { OnErr result (HasNoWord Unsigned self.old.body.bytes self.old.at) }
        ensures kept { OnErr result (self.new ≡ self.old) }
    {
        if let Some(front) = self.ready(SHORT) {
            if let Some(word) = short_golomb(front) {
                self.pass_by(word.length);
                return Ok(word.value);
            }
        }
        self.ue_after_load()
    }

    /// Reads se(v): an Exp-Golomb word as a signed number (9.1.1).
    #[inline]
    pub fn se(&mut self) -> Result<i32, NoWord>
        ensures word { IfOk result (λ v. Reads Signed self.old.body.bytes self.old.at v self.new.at) }
        ensures body { self.new.body ≡ self.old.body }
        ensures low { IfOk result (λ v. neg_ℤ (pos (2 ^ 31 - 1)) ≤ℤ v) }
        ensures high { IfOk result (λ v. v ≤ℤ pos (2 ^ 31 - 1)) }
        ensures none { OnErr result (HasNoWord Signed self.old.body.bytes self.old.at) }
        ensures kept { OnErr result (self.new ≡ self.old) }
    {
        let code = self.ue()?;
        if code % 2 == 0 {
            Ok(-((code / 2) as i32))
        } else {
            Ok((code / 2 + 1) as i32)
        }
    }

    /// Reads a word of a table, as ce(v) and me(v), as its value.
    #[inline(always)]
    pub fn word(&mut self, table: Table) -> Result<u8, NoWord>
        ensures word { IfOk result (λ v. Reads (Words (code_table table)) self.old.body.bytes self.old.at (pos v) self.new.at) }
        ensures body { self.new.body ≡ self.old.body }
        ensures small { IfOk result (λ v. v ≤ greatest_value table) }
        ensures none { OnErr result (HasNoWord (Words (code_table table)) self.old.body.bytes self.old.at) }
        ensures kept { OnErr result (self.new ≡ self.old) }
    {
        let front = self.next_16();
        self.entry(table, lookup(table, front))
    }

    /// The next 16 bits, with zeros past the end of the RBSP.
    #[inline(always)]
    pub fn next_16(&mut self) -> u16
        ensures value { result ≡ peek_at 16 self.old.body.bytes self.old.at }
        ensures kept { self.new ≡ self.old }
    {
        self.next_bits(16) as u16
    }

    /// Reads a word of a table, as `word`, which the next 16 bits were seen to begin with.
    #[inline(always)]
    pub fn entry(&mut self, table: Table, entry: Option<Entry>) -> Result<u8, NoWord>
        requires word { entry ≡ option_map entry_of (front_of 16 (rows_of table) (peek_at 16 self.old.body.bytes self.old.at)) }
        requires known { IfSome entry (λ e. e.value ≤ greatest_value table) }
        ensures word { IfOk result (λ v. Reads (Words (code_table table)) self.old.body.bytes self.old.at (pos v) self.new.at) }
        ensures body { self.new.body ≡ self.old.body }
        ensures small { IfOk result (λ v. v ≤ greatest_value table) }
        ensures none { OnErr result (HasNoWord (Words (code_table table)) self.old.body.bytes self.old.at) }
        ensures kept { OnErr result (self.new ≡ self.old) }
    {
        self.entry_if(true, table, entry)
    }

    /// Reads a word of a table, as `entry`, where one is coded. Where none is, its entry is one of no bits and of value 0, so that no choice stands here.
    /// NoWord: one is coded, and no word stands there, or the bits end before its end; then no bit is passed.
    #[inline(always)]
    pub fn entry_if(
        &mut self,
        coded: bool,
        table: Table,
        entry: Option<Entry>,
    ) -> Result<u8, NoWord>
        requires word { coded ≡ true → entry ≡ option_map entry_of (front_of 16 (rows_of table) (peek_at 16 self.old.body.bytes self.old.at)) }
        requires known { coded ≡ true → IfSome entry (λ e. e.value ≤ greatest_value table) }
        requires nothing { coded ≡ false → entry ≡ Some (record { length = 0; value = 0 }) }
        ensures word { coded ≡ true → IfOk result (λ v. Reads (Words (code_table table)) self.old.body.bytes self.old.at (pos v) self.new.at) }
        ensures body { self.new.body ≡ self.old.body }
        ensures small { coded ≡ true → IfOk result (λ v. v ≤ greatest_value table) }
        ensures none { coded ≡ true → OnErr result (HasNoWord (Words (code_table table)) self.old.body.bytes self.old.at) }
        ensures kept { OnErr result (self.new ≡ self.old) }
        ensures nothing { coded ≡ false → (result ≡ Ok 0) × (self.new ≡ self.old) }
    {
        let Some(entry) = entry else {
            return Err(NoWord);
        };
        match self.advance(entry.length as u32) {
            Ok(()) => Ok(entry.value),
            Err(NoWord) => Err(NoWord),
        }
    }

    /// Reads te(v) of an element that lies in 0 to `range` (9.1). A value above `range` is no error here.
    #[inline]
    pub fn te(&mut self, range: u32) -> Result<u32, NoWord>
        requires { 0 < range }
        ensures word { IfOk result (λ v. Reads (truncated range) self.old.body.bytes self.old.at (pos v) self.new.at) }
        ensures body { self.new.body ≡ self.old.body }
        ensures small { IfOk result (λ v. v < 2 ^ 32 - 1) }
        ensures none { OnErr result (HasNoWord (truncated range) self.old.body.bytes self.old.at) }
        ensures kept { OnErr result (self.new ≡ self.old) }
    {
        if range != 1 {
            return self.ue();
        }
        match self.word(Table::InvertedBit) {
            Ok(value) => Ok(value as u32),
            Err(NoWord) => Err(NoWord),
        }
    }

    /// Takes `n` bytes from the next bit on, which is the first of a byte (7.3.5).
    pub fn bytes(&mut self, n: usize) -> Result<&'a [u8], NoWord>
        requires { n ≤ 2 ^ 28 }
        ensures taken { IfOk result (λ s. s.now ≡ bytes_at n self.old.body.bytes self.old.at) }
        ensures count { IfOk result (λ s. length s.now ≡ n) }
        ensures fits { OnOk result (self.old.at + 8 * n ≤ 8 * length self.old.body.bytes) }
        ensures end { OnOk result (self.new ≡ record { body = self.old.body; at = self.old.at + 8 * n }) }
        ensures none { OnErr result (8 * length self.old.body.bytes < self.old.at + 8 * n) }
        ensures kept { OnErr result (self.new ≡ self.old) }
    {
        let next = self.at + 8 * n;
        if next > 8 * self.bytes.len() {
            return Err(NoWord);
        }
        let first = self.at / 8;
        let bytes = self.bytes;
        self.pass(next);
        Ok(&bytes[first..first + n])
    }

    /// The stream bit of the first bit up to the next byte that is not a 0.
    pub(crate) fn first_set(&self) -> Option<u64>
        ensures { result ≡ option_map (λ j. place self.now.body j) (no_zero_at (padding self.now.at) self.now.body.bytes self.now.at) }
    {
        let set = first_set(self.bytes, self.at)?;
        Some(self.rbsp.stream_bit(set))
    }

    /// Passes the bits up to the next byte.
    pub(crate) fn to_byte(&mut self)
        ensures { self.new ≡ record { body = self.old.body; at = self.old.at + padding self.old.at } }
    {
        self.pass(self.at + (8 - self.at % 8) % 8);
    }

    /// Reads the zero bits up to the next byte, of which there may be none (7.3.5).
    pub fn align(&mut self) -> Result<(), NoWord>
        ensures zeros { OnOk result (IsPadded self.old.body.bytes self.old.at) }
        ensures end { OnOk result (self.new ≡ record { body = self.old.body; at = self.old.at + padding self.old.at }) }
        ensures none { OnErr result (IsPadded self.old.body.bytes self.old.at → ⊥) }
        ensures kept { OnErr result (self.new ≡ self.old) }
    {
        if first_set(self.bytes, self.at).is_some() {
            return Err(NoWord);
        }
        self.to_byte();
        Ok(())
    }

    /// Reads the trailing bits: a 1, and 0s up to the end of its byte, which is the last (7.3.2.11).
    pub fn trailing(&mut self) -> Result<(), NoWord>
        ensures stand { OnOk result (IsClosed self.old.body.bytes self.old.at) }
        ensures end { OnOk result (self.new ≡ record { body = self.old.body; at = 8 * length self.old.body.bytes }) }
        ensures none { OnErr result (IsClosed self.old.body.bytes self.old.at → ⊥) }
        ensures kept { OnErr result (self.new ≡ self.old) }
    {
        let end = 8 * self.bytes.len();
        if self.more() || self.at + 8 < end {
            return Err(NoWord);
        }
        self.pass(end);
        Ok(())
    }
}
