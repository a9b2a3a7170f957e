//! Bits in bytes.
#![tactic(auto)]

ghost use Rattle.std.specs.Prelude.{◌≡◌, ◌+◌, ◌/◌, ◌≤◌, length, vec_len, IfOk};
ghost use Rattle.h264_write.specs.Packed as form;

use std::alloc::{AllocError, Global};

/// Bit `i` as a number, 0 after the last.
fn digit_at(bits: &[bool], i: usize) -> u8
    ensures digit { result ≡ form.digit_at bits.now i }
    ensures small { result ≤ 1 }
{
    if i < bits.len() && bits[i] { 1 } else { 0 }
}

/// The byte that the first eight bits make, with zeros after the last.
#[tactic(auto, unfolding(crate::specs::Packed::first_byte))]
fn first_byte(bits: &[bool]) -> u8
    ensures { result ≡ form.first_byte bits.now }
{
    128 * digit_at(bits, 0)
        + 64 * digit_at(bits, 1)
        + 32 * digit_at(bits, 2)
        + 16 * digit_at(bits, 3)
        + 8 * digit_at(bits, 4)
        + 4 * digit_at(bits, 5)
        + 2 * digit_at(bits, 6)
        + digit_at(bits, 7)
}

/// The bytes that these bits fill, with zeros after the last bit.
pub(crate) fn pack(alloc: Global, bits: &[bool]) -> Result<Vec<u8>, AllocError>
    ensures bytes { IfOk result (λ v. v.items ≡ form.packed ((length bits.now + 7) / 8) bits.now) }
    ensures count { IfOk result (λ v. vec_len v ≡ (length bits.now + 7) / 8) }
{
    let count = bits.len().div_ceil(8);
    let mut bytes = Vec::new(alloc);
    for i in 0..count {
        bytes.push(first_byte(&bits[8 * i..]))?;
    }
    Ok(bytes)
}
