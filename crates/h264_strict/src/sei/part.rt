//! Parts of a payload: elements, and the ranges of their values.
//!
//! Each reader answers None where its part does not stand there, or a value is out of its range.
#![tactic(auto)]

ghost use Rattle.std.specs.Prelude.{◌≡◌, ◌≤◌, if◌then◌else◌, Some, None, IfSome};
ghost use Rattle.h264_strict.specs.SeiPart.{u, ue, u_to, ue_to, read_so};

use h264_bits::{Bits, NoWord};

/// Reads u(n).
pub(crate) fn u(bits: &mut Bits, n: u32) -> Option<u32>
    requires { n ≤ 32 }
    ensures read { read_so result bits.new.at ≡ u n bits.old.body.bytes bits.old.at }
    ensures body { bits.new.body ≡ bits.old.body }
{
    match bits.u_width(n) {
        Ok(value) => Some(value),
        Err(NoWord) => None,
    }
}

/// Reads ue(v).
pub(crate) fn ue(bits: &mut Bits) -> Option<u32>
    ensures read { read_so result bits.new.at ≡ ue bits.old.body.bytes bits.old.at }
    ensures body { bits.new.body ≡ bits.old.body }
{
    match bits.ue() {
        Ok(value) => Some(value),
        Err(NoWord) => None,
    }
}

/// Tests what has to hold.
pub(crate) fn must(holds: bool) -> Option<()>
    ensures { result ≡ (if holds then Some tt else None) }
{
    if holds { Some(()) } else { None }
}

/// Reads u(n) of at most `max`.
pub(crate) fn u_to(bits: &mut Bits, n: u32, max: u32) -> Option<u32>
    requires { n ≤ 32 }
    ensures read { read_so result bits.new.at ≡ u_to n max bits.old.body.bytes bits.old.at }
    ensures body { bits.new.body ≡ bits.old.body }
    ensures within { IfSome result (λ v. v ≤ max) }
{
    let value = u(bits, n)?;
    if value <= max { Some(value) } else { None }
}

/// Reads ue(v) of at most `max`.
pub(crate) fn ue_to(bits: &mut Bits, max: u32) -> Option<u32>
    ensures read { read_so result bits.new.at ≡ ue_to max bits.old.body.bytes bits.old.at }
    ensures body { bits.new.body ≡ bits.old.body }
    ensures within { IfSome result (λ v. v ≤ max) }
{
    let value = ue(bits)?;
    if value <= max { Some(value) } else { None }
}
