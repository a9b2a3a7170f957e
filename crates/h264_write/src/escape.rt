//! NAL units of RBSPs (7.3.1, 7.4.1).
#![tactic(auto)]

ghost use Rattle.std.specs.Prelude.{◌≡◌, ◌≢◌, ℕ, ◌-◌, ◌<◌, ◌≤◌, List, ◌∷◌, ◌++◌, length, drop, slice_get, slice_index, Some, IfOk};
ghost use Rattle.h264_units.specs.Stream.{IsBody};
ghost use Rattle.h264_rbsp.specs.Rbsp.{rbsp_bytes};
ghost use Rattle.h264_write.specs.Escaped as form;

use std::alloc::{AllocError, Global};

/// Whether a byte 03 has to stand before this byte, after so many bytes 00.
fn needs_prevention(zeros: u32, byte: u8) -> bool
    ensures { result ≡ form.needs_prevention zeros byte }
{
    zeros >= 2 && byte <= 3
}

/// How many bytes 00 stand after this byte.
fn zeros_after(zeros: u32, byte: u8) -> u32
    requires { zeros ≤ 2 }
    ensures { result ≡ form.zeros_after zeros byte }
{
    if byte == 0 { zeros + 1 } else { 0 }
}

/// Appends a byte, with a byte 03 before it where it needs one, and gives how many bytes 00 stand there now.
fn append(body: &mut Vec<u8>, zeros: u32, byte: u8) -> Result<u32, AllocError>
    requires { zeros ≤ 2 }
    ensures step { IfOk result (λ z. (rest : List ℕ) → body.new.items ++ form.escaped z rest ≡ body.old.items ++ form.escaped zeros (byte ∷ rest)) }
    ensures few { IfOk result (λ z. z ≤ 2) }
{
    if needs_prevention(zeros, byte) {
        body.push(3)?;
        body.push(byte)?;
        return Ok(zeros_after(0, byte));
    }
    body.push(byte)?;
    Ok(zeros_after(zeros, byte))
}

/// The header, and the bytes after it.
fn escape(alloc: Global, header: u8, rbsp: &[u8]) -> Result<Vec<u8>, AllocError>
    ensures { IfOk result (λ v. v.items ≡ header ∷ form.escaped 0 rbsp.now) }
{
    let mut body = vec![in alloc; header]?;
    let mut zeros = 0;
    for byte in rbsp {
        zeros = append(&mut body, zeros, *byte)?;
    }
    Ok(body)
}

/// The bytes of a NAL unit with this header and this RBSP, whose last byte is not 00. Emulation prevention bytes stand where the
/// RBSP needs them.
pub fn unit(alloc: Global, header: u8, rbsp: &[u8]) -> Result<Vec<u8>, AllocError>
    requires header { 0 < header }
    requires some { 0 < length rbsp.now }
    requires last { slice_index rbsp.now (length rbsp.now - 1) ≢ 0 }
    ensures body { IfOk result (λ v. IsBody v.items) }
    ensures header { IfOk result (λ v. slice_get v.items 0 ≡ Some header) }
    ensures rbsp { IfOk result (λ v. rbsp_bytes (drop 1 v.items) ≡ rbsp.now) }
{
    let body = escape(alloc, header, rbsp)?;
    Ok(body)
}
