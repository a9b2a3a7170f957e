//! Code words and trailing bits, written one after another.
#![tactic(auto)]

use crate::pack::pack;
use crate::rows::word_for;
use crate::spell::{code_num, spell};
use h264_tables::Table;
use std::alloc::{AllocError, Global};
use std::marker::Model;

/// Why a word of a table was not written.
#[derive(Clone, Copy, Debug, PartialEq, Eq)]
pub enum WriteError {
    /// The table has no word of this value.
    NoWord,
    /// Memory was refused.
    Memory,
}

/// The bits of an RBSP, from its first on. After an error of memory a part of the word may be there.
#[derive(Drop)]
pub struct Writer {
    bits: Vec<bool>,
}

impl Model for Writer {
    ghost use Rattle.h264_base.specs.Word.{Word};

    ghost Value = { Word };

    ghost view = { λ w. w.bits.items };
}

impl Writer {
    ghost use Rattle.std.specs.Prelude.{◌≡◌, ◌≢◌, ℕ, ◌+◌, ◌-◌, ◌*◌, ◌/◌, ◌<◌, ◌≤◌, ◌^◌, ◌≤ℤ◌, pos, neg_ℤ, false, [], length, vec_len, OnOk, IfOk, Err, Some};
    ghost use Rattle.h264_base.specs.Word.{Fixed, Unsigned, Signed, Words, StandsAt, bit_of};
    ghost use Rattle.h264_bits.specs.Truncated.{truncated};
    ghost use Rattle.h264_tables.specs.Table.{code_table};
    ghost use Rattle.h264_write.specs.Written.{Writes, Closes, HasNoValue};

    /// No bits.
    pub fn new(alloc: Global) -> Writer
        ensures { result ≡ [] }
    {
        Writer {
            bits: Vec::new(alloc),
        }
    }

    /// Writes u(n): `n` bits, the highest first (7.2).
    pub fn u(&mut self, n: u32, value: u32) -> Result<(), AllocError>
        requires few { n ≤ 32 }
        requires fits { value < 2 ^ n }
        ensures { OnOk result (Writes (Fixed n) (pos value) self.old self.new) }
    {
        spell(&mut self.bits, n, value)?;
        Ok(())
    }

    /// Writes ue(v) (9.1).
    pub fn ue(&mut self, value: u32) -> Result<(), AllocError>
        requires { value < 2 ^ 32 - 1 }
        ensures { OnOk result (Writes Unsigned (pos value) self.old self.new) }
    {
        let code = value + 1;
        let zeros = 31 - code.leading_zeros();
        spell(&mut self.bits, zeros, 0)?;
        spell(&mut self.bits, zeros + 1, code)?;
        Ok(())
    }

    /// Writes se(v) (9.1.1).
    pub fn se(&mut self, value: i32) -> Result<(), AllocError>
        requires { neg_ℤ (pos (2 ^ 31 - 1)) ≤ℤ value }
        ensures { OnOk result (Writes Signed value self.old self.new) }
    {
        self.ue(code_num(value))?;
        Ok(())
    }

    /// Writes te(v) of an element that lies in 0 to `range` (9.1).
    pub fn te(&mut self, range: u32, value: u32) -> Result<(), AllocError>
        requires within { value ≤ range }
        requires small { value < 2 ^ 32 - 1 }
        ensures { OnOk result (Writes (truncated range) (pos value) self.old self.new) }
    {
        if range == 1 {
            spell(&mut self.bits, 1, 1 - value)?;
            return Ok(());
        }
        self.ue(value)?;
        Ok(())
    }

    /// Writes the word of a table that has this value, as me(v) and ce(v). Where the table has none, nothing is written.
    pub fn word(&mut self, table: Table, value: u8) -> Result<(), WriteError>
        ensures ok { OnOk result (Writes (Words (code_table table)) (pos value) self.old self.new) }
        ensures none { result ≡ Err WriteError.NoWord → HasNoValue table value }
        ensures kept { result ≡ Err WriteError.NoWord → self.new ≡ self.old }
    {
        let Some(word) = word_for(table, value) else {
            return Err(WriteError::NoWord);
        };
        let Ok(()) = spell(&mut self.bits, u32::from(word.length), u32::from(word.bits)) else {
            return Err(WriteError::Memory);
        };
        Ok(())
    }

    /// Writes the trailing bits: a 1, and 0s up to the end of its byte (7.3.2.11).
    pub fn trailing(&mut self) -> Result<(), AllocError>
        ensures { OnOk result (Closes self.old self.new) }
    {
        let zeros = 7 - (self.bits.len() % 8) as u32;
        spell(&mut self.bits, 1, 1)?;
        spell(&mut self.bits, zeros, 0)?;
        Ok(())
    }

    /// The bytes of the RBSP, with zeros after its last bit up to the end of its byte.
    pub fn bytes(&self, alloc: Global) -> Result<Vec<u8>, AllocError>
        ensures stand { IfOk result (λ v. StandsAt v.items 0 self.now) }
        ensures count { IfOk result (λ v. vec_len v ≡ (length self.now + 7) / 8) }
        ensures zeros { IfOk result (λ v. (i : ℕ) → length self.now ≤ i → i < 8 * vec_len v → bit_of v.items i ≡ Some false) }
    {
        let bytes = pack(alloc, self.bits.as_slice())?;
        Ok(bytes)
    }
}
