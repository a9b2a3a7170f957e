//! A NAL unit (7.3.1).
#![tactic(auto)]

use std::marker::Model;

/// A NAL unit: its bytes as they stand in the input, the header first, and the place of the first of them.
/// It has 1 to 2^28 bytes.
#[derive(Drop)]
pub struct NalUnit {
    from: u64,
    body: Vec<u8>,
}

impl Model for NalUnit {
    ghost use Rattle.std.specs.Prelude.{◌+◌, ◌<◌, ◌≤◌, length};
    ghost use Rattle.h264_units.specs.Stream as stream;
    ghost use Rattle.h264_units.specs.Stream.{unit_limit, input_limit};

    ghost Value = { stream.NalUnit };

    ghost view = { λ u. record { from = u.from; body = u.body.items } };

    ghost invariant = { λ u. (0 < length u.body.items) × (length u.body.items ≤ unit_limit) × (u.from + length u.body.items ≤ input_limit) };
}

impl NalUnit {
    ghost use Rattle.std.specs.Prelude.{◌≡◌, ◌+◌, ◌<◌, ◌≤◌, length};
    ghost use Rattle.h264_units.specs.Stream.{unit_limit, input_limit, past};

    /// A unit with these bytes.
    pub(crate) fn new(from: u64, body: Vec<u8>) -> NalUnit
        requires some { 0 < length body.items }
        requires fits { length body.items ≤ unit_limit }
        requires judged { from + length body.items ≤ input_limit }
        ensures { result ≡ record { from = from; body = body.items } }
    {
        NalUnit { from, body }
    }

    /// The place of its first byte: the number of bytes of the input before it.
    pub fn from(&self) -> u64
        ensures value { result ≡ self.now.from }
        ensures judged { past self.now ≤ input_limit }
    {
        self.from
    }

    /// Its bytes, at least one: the header, and what follows it with emulation prevention bytes.
    pub fn body(&self) -> &[u8]
        ensures value { result.now ≡ self.now.body }
        ensures some { 0 < length result.now }
        ensures fits { length result.now ≤ unit_limit }
        ensures judged { self.now.from + length result.now ≤ input_limit }
    {
        self.body.as_slice()
    }
}
