//! Range and offset, and the bits that come next, as one number.
#![tactic(auto)]

ghost use Rattle.std.specs.Prelude.{◌≡◌, ℕ, ◌+◌, ◌-◌, ◌*◌, ◌/◌, ◌^◌, ◌<◌, ◌≤◌, ◌↔◌, IsTrue, List, length, IfSome};
ghost use Rattle.std.specs.Option.{option_map};
ghost use Rattle.h264_cabac.specs.Engine.{EngineState, renormalized, without_range};
ghost use Rattle.h264_cabac.specs.Register.{IsRegister, IsReady, engine_of};

use crate::load::load;

/// How many bits a register has ahead at least, before a step. A step takes eight at most.
const ENOUGH: u32 = 16;

/// The bits of a codIRange that is renormalized are the lowest nine of 32.
const ABOVE_RANGE: u32 = 23;

/// codIRange and codIOffset, and the bits that come next.
#[derive(Clone, Copy)]
pub struct Register {
    /// The bit that is read next.
    pub at: usize,
    /// codIRange.
    pub range: u32,
    /// codIOffset, and in its lowest places the bits that come next.
    pub number: u64,
    /// How many bits that come next the number has.
    pub ahead: u32,
}

/// The register with enough bits ahead.
#[inline(always)]
pub fn refilled(bytes: &[u8], r: Register) -> Register
    requires { IsRegister bytes.now r }
    ensures same { engine_of bytes.now result ≡ engine_of bytes.now r }
    ensures stands { IsRegister bytes.now result }
    ensures loaded { 16 ≤ result.ahead }
{
    if r.ahead >= ENOUGH {
        return r;
    }
    let next = load(bytes, (r.at + r.ahead as usize) / 8);
    Register {
        at: r.at,
        range: r.range,
        number: (r.number << 32) + next as u64,
        ahead: r.ahead + 32,
    }
}

/// The register after `n` doublings, which take as many bits.
#[inline(always)]
pub fn passed(bytes: &[u8], r: Register, n: u32) -> Register
    requires stands { IsRegister bytes.now r }
    requires few { n ≤ 8 }
    requires ahead { n ≤ r.ahead }
    requires inside { r.at + n ≤ 8 * length bytes.now }
    requires high { r.range * 2 ^ n < 1024 }
    ensures { result ≡ record { at = r.at + n; range = r.range * 2 ^ n; number = r.number; ahead = r.ahead - n } }
{
    Register {
        at: r.at + n as usize,
        range: r.range << n,
        number: r.number,
        ahead: r.ahead - n,
    }
}

/// RenormD (9.3.3.2.2), of a codIRange that is not 0. None where the bits end before.
#[inline(always)]
pub fn renormalized(bytes: &[u8], r: Register) -> Option<Register>
    requires stands { IsRegister bytes.now r }
    requires some { 2 ≤ r.range }
    requires high { r.range < 512 }
    requires loaded { 16 ≤ r.ahead }
    ensures same { option_map (engine_of bytes.now) result ≡ renormalized (engine_of bytes.now r) }
    ensures ready { IfSome result (IsReady bytes.now) }
{
    let n = r.range.leading_zeros() - ABOVE_RANGE;
    if n as usize > 8 * bytes.len() - r.at {
        return None;
    }
    Some(refilled(bytes, passed(bytes, r, n)))
}

/// Whether codIOffset is below this number, which is no range above codIRange.
#[inline(always)]
pub fn is_below(r: Register, rest: u32) -> bool
    requires rest { rest < 512 }
    requires few { r.ahead ≤ 55 }
    ensures { IsTrue result ↔ (r.number / 2 ^ r.ahead < rest) }
{
    r.number < (rest as u64) << r.ahead
}

/// The register with a range above its offset.
#[inline(always)]
pub fn with_range(r: Register, range: u32) -> Register
    requires below { r.number / 2 ^ r.ahead < range }
    requires high { range < 512 }
    ensures same { (bytes : List ℕ) → engine_of bytes result ≡ record (engine_of bytes r) { range = range } }
    ensures stands { (bytes : List ℕ) → IsRegister bytes r → IsRegister bytes result }
    ensures range { result.range ≡ range }
    ensures ahead { result.ahead ≡ r.ahead }
{
    Register {
        at: r.at,
        range,
        number: r.number,
        ahead: r.ahead,
    }
}

/// The register with as much taken from its offset, and a range above what is left.
#[inline(always)]
pub fn without(r: Register, rest: u32, range: u32) -> Register
    requires few { r.ahead ≤ 55 }
    requires rest { rest < 512 }
    requires enough { rest ≤ r.number / 2 ^ r.ahead }
    requires below { r.number / 2 ^ r.ahead < rest + range }
    requires high { range < 512 }
    ensures same { (bytes : List ℕ) → engine_of bytes result ≡
        record (engine_of bytes r) { range = range; offset = r.number / 2 ^ r.ahead - rest } }
    ensures stands { (bytes : List ℕ) → IsRegister bytes r → IsRegister bytes result }
    ensures range { result.range ≡ range }
    ensures ahead { result.ahead ≡ r.ahead }
{
    Register {
        at: r.at,
        range,
        number: r.number - ((rest as u64) << r.ahead),
        ahead: r.ahead,
    }
}

/// Whether the range is taken from the offset, since it is no greater, and the register after that.
#[inline(always)]
pub fn reduced(r: Register, range: u32) -> (bool, Register)
    requires few { r.ahead ≤ 55 }
    requires high { range < 512 }
    requires below { r.number / 2 ^ r.ahead < range + range }
    ensures step { (bytes : List ℕ) → without_range (record (engine_of bytes r) { range = range }) ≡
        record { bin = result.0; engine = engine_of bytes result.1 } }
    ensures stands { (bytes : List ℕ) → IsRegister bytes r → IsRegister bytes result.1 }
    ensures range { result.1.range ≡ range }
{
    if is_below(r, range) {
        return (false, with_range(r, range));
    }
    (true, without(r, range, range))
}

/// The number that the next `n` bins by bypass spell, and the register after them: a division by the range of the offset that is longer by `n` bits.
#[inline(always)]
pub fn divided(r: Register, n: u32) -> (u32, Register)
    requires few { n ≤ 8 }
    requires place { r.at < 2 ^ 32 }
    requires ahead { n ≤ r.ahead }
    requires most { r.ahead ≤ 55 }
    requires low { 256 ≤ r.range }
    requires high { r.range < 512 }
    requires below { r.number < r.range * 2 ^ r.ahead }
    ensures number { result.0 ≡ r.number / 2 ^ (r.ahead - n) / r.range }
    ensures small { result.0 < 2 ^ n }
    ensures register { result.1 ≡ record {
      at = r.at + n;
      range = r.range;
      ahead = r.ahead - n;
      number = r.number - r.number / 2 ^ (r.ahead - n) / r.range * r.range * 2 ^ (r.ahead - n);
    } }
{
    let ahead = r.ahead - n;
    let quotient = (r.number >> ahead) / r.range as u64;
    let taken = (quotient * r.range as u64) << ahead;
    let next = Register {
        at: r.at + n as usize,
        range: r.range,
        number: r.number - taken,
        ahead,
    };
    (quotient as u32, next)
}
