//! Bits of an RBSP that stand together in the stream, so that most elements need no search for their place.
#![tactic(auto)]

ghost use Rattle.std.specs.Prelude.{◌≡◌, ℕ, ◌+◌, ◌*◌, ◌<◌, ◌≤◌, length, min, IfSome, IfNone};
ghost use Rattle.h264_bits.specs.Stretch.{IsStretch};

use h264_rbsp::Rbsp;

/// How far ahead the end of a stretch is looked for, in bits.
const FAR: usize = 2048;

/// How far ahead it is looked for where a byte was dropped before that, in bits.
const NEAR: usize = 512;

/// Bits of an RBSP that stand together in the stream.
#[derive(Clone, Copy)]
pub struct Stretch {
    /// How far each of them stands after its place in the RBSP, in bits.
    pub shift: u64,
    /// The last of them.
    pub last: usize,
}

/// Bits from bit `i` on that stand together: the next 2048, or all that are left, where these do; else the next 512, or those up to the end of the byte.
#[cold]
#[inline(never)]
pub fn stretch_from(rbsp: &Rbsp, i: usize) -> Stretch
    requires { i ≤ 8 * length rbsp.now.bytes }
    ensures stands { IsStretch rbsp.now i result }
    ensures found { (s : Stretch) → IsStretch rbsp.now i s → s.last ≡ min (i + 2048) (8 * length rbsp.now.bytes) → result ≡ s }
{
    let end = 8 * rbsp.bytes().len();
    let shift = rbsp.stream_bit(i) - i as u64;
    let far = (i + FAR).min(end);
    if rbsp.stream_bit(far) - far as u64 == shift {
        return Stretch { shift, last: far };
    }
    let near = (i + NEAR).min(end);
    if rbsp.stream_bit(near) - near as u64 == shift {
        return Stretch { shift, last: near };
    }
    Stretch {
        shift,
        last: (i / 8 * 8 + 7).min(end),
    }
}

/// The stretch after the `n` bits from bit `at` on; None where fewer are left.
#[cold]
#[inline(never)]
pub fn stretch_after(rbsp: &Rbsp, at: usize, n: u32) -> Option<Stretch>
    requires { at ≤ 8 * length rbsp.now.bytes }
    ensures from { IfSome result (λ s. IsStretch rbsp.now (at + n) s) }
    ensures none { IfNone result (8 * length rbsp.now.bytes < at + n) }
{
    let end = 8 * rbsp.bytes().len();
    let next = at + n as usize;
    if next > end {
        return None;
    }
    Some(stretch_from(rbsp, next))
}
