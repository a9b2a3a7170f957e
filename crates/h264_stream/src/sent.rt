//! Units that are sent without start codes, and places in what was sent.
#![tactic(auto)]

ghost use Rattle.std.specs.Prelude.{◌≡◌, ◌+◌, ◌*◌, ◌<◌, ◌≤◌, ◌^◌, [], ◌∷◌, ◌++◌, IsTrue, IsFalse, OnOk, OnErr, vec_len, vec_capacity};
ghost use Rattle.h264_units.specs.Stream.{IsBody, input_limit};
ghost use Rattle.h264_stream.specs.Sent.{start_code, sent_bit, sent_answer};

use h264_base::{Stop, Summary};
use std::alloc::{AllocError, Global};

/// What is put in before a unit (B.1.1).
const START_CODE: [u8; 3] = [0, 0, 1];

/// Bits of a start code.
pub(crate) const CODE_BITS: u64 = 24;

/// Bits of a byte.
pub(crate) const BITS_A_BYTE: u64 = 8;

/// The 00 bytes of a start code.
const CODE_ZEROS: u8 = 2;

/// The byte after them. With 00 in its place they end a unit too.
const CODE_END: u8 = 1;

/// What is put in before a unit.
pub(crate) fn start_code() -> &'static [u8]
    ensures { result.now ≡ start_code }
{
    &START_CODE
}

/// Whether these are the bytes of a NAL unit: there is one, neither 00 00 00 nor 00 00 01 stands in them, and the last is not 00 (7.4.1).
pub(crate) fn is_unit(bytes: &[u8]) -> bool
    ensures yes { IsTrue result → IsBody bytes.now }
    ensures no { IsFalse result → IsBody bytes.now → ⊥ }
{
    let mut zeros = 0;
    for byte in bytes {
        if *byte > CODE_END {
            zeros = 0;
            continue;
        }
        if zeros == CODE_ZEROS {
            return false;
        }
        zeros = if *byte == 0 { zeros + 1 } else { 0 };
    }
    zeros == 0 && !bytes.is_empty()
}

/// Why a unit was not sent. The decoder is as it was before.
#[derive(Clone, Copy)]
pub enum NotSent {
    /// The bytes are those of no NAL unit: there are none, 00 00 00 or 00 00 01 stands in them, or the last is 00 (7.4.1).
    NoUnit,
    /// Memory was refused.
    Memory,
}

/// The start codes that were put into a byte stream.
#[derive(Drop)]
pub struct StartCodes {
    /// How many bytes the byte stream has so far.
    judged: u64,
    /// The bits at which they begin, in order.
    bits: Vec<u64>,
}

impl StartCodes {
    /// None, before the first byte.
    pub(crate) fn new(alloc: Global) -> StartCodes
        ensures judged { result.judged ≡ 0 }
        ensures bits { result.bits.items ≡ [] }
    {
        StartCodes {
            judged: 0,
            bits: Vec::new(alloc),
        }
    }

    /// Counts the next bytes of the byte stream.
    pub(crate) fn pass(&mut self, count: usize)
        ensures judged { self.old.judged + count < 2 ^ 64 → self.new.judged ≡ self.old.judged + count }
        ensures bits { self.new.bits.items ≡ self.old.bits.items }
    {
        self.judged = self.judged.saturating_add(count as u64);
    }

    /// Notes that a start code is put in next. Err: memory was refused.
    pub(crate) fn put(&mut self) -> Result<(), AllocError>
        ensures put { self.old.judged ≤ input_limit → OnOk result (self.new.bits.items ≡ self.old.bits.items ++ 8 * self.old.judged ∷ []) }
        ensures err { OnErr result (self.new.bits.items ≡ self.old.bits.items) }
        ensures full { OnErr result (vec_capacity self.old.bits ≤ vec_len self.old.bits) }
        ensures judged { self.new.judged ≡ self.old.judged }
    {
        self.bits.push(self.judged.saturating_mul(BITS_A_BYTE))?;
        Ok(())
    }

    /// The bit of what was sent that is this bit of the byte stream.
    fn sent_bit(&self, bit: u64) -> u64
        ensures { result ≡ sent_bit self.now.bits.items bit }
    {
        let mut sent = bit;
        for code in self.bits.as_slice() {
            sent = sent.saturating_sub(bit.saturating_sub(*code).min(CODE_BITS));
        }
        sent
    }

    /// The answer to the byte stream, with its place in what was sent.
    pub(crate) fn sent_answer(&self, answer: Result<Summary, Stop>) -> Result<Summary, Stop>
        ensures { result ≡ sent_answer self.now.bits.items answer }
    {
        match answer {
            Err(Stop::No { bit, rule }) => Err(Stop::No {
                bit: self.sent_bit(bit),
                rule,
            }),
            Err(Stop::Outside { bit, feature }) => Err(Stop::Outside {
                bit: self.sent_bit(bit),
                feature,
            }),
            Ok(_) | Err(Stop::Memory | Stop::Read | Stop::Write) => answer,
        }
    }
}
