//! The codes, at a bit of some bytes.
#![tactic(auto)]

ghost use Rattle.std.specs.Prelude.{◌≡◌, ℕ, pos, ◌+◌, ◌-◌, ◌*◌, ◌%◌, ◌<◌, ◌≤◌, ◌^◌, List, length, IfSome, Some, None};
ghost use Rattle.h264_base.specs.Word.{Unsigned, value_at, no_zero_at, padding};
ghost use Rattle.h264_bits.specs.Peek.{FindsBy, IsLastOne, peek_at};

use crate::window::window;

/// An Exp-Golomb word: its codeNum, and how many bits it has.
#[derive(Clone, Copy)]
pub struct CodeNum {
    pub value: u32,
    pub length: u32,
}

/// How many zeros a short Exp-Golomb word begins with at most. Nearly all words are short.
const SHORT_ZEROS: u32 = 12;

/// As many bits as a short word has at most.
pub const SHORT: u32 = 2 * SHORT_ZEROS + 1;

/// The short Exp-Golomb word that `SHORT` bits begin with. None where they begin with none: the word there is longer, or there is none.
#[inline(always)]
pub fn short_golomb(bits: u64) -> Option<CodeNum>
    requires { bits < 2 ^ 25 }
    ensures word { (bytes : List ℕ) (i : ℕ) → bits ≡ peek_at 25 bytes i → IfSome result (λ w. w.length ≤ 8 * length bytes - i →
        value_at Unsigned bytes i ≡ Some (pos w.value, i + w.length)) }
    ensures outside { (bytes : List ℕ) (i : ℕ) → bits ≡ peek_at 25 bytes i → IfSome result (λ w. 8 * length bytes - i < w.length →
        value_at Unsigned bytes i ≡ None) }
    ensures few { IfSome result (λ w. w.length ≤ 25) }
    ensures small { IfSome result (λ w. w.value < 2 ^ 32 - 1) }
{
    let zeros = bits.leading_zeros() - (u64::BITS - SHORT);
    if zeros > SHORT_ZEROS {
        return None;
    }
    Some(CodeNum {
        value: ((bits >> (2 * (SHORT_ZEROS - zeros))) - 1) as u32,
        length: 2 * zeros + 1,
    })
}

/// An Exp-Golomb word of any length at bit `i`: its codeNum, and the bit after it.
#[cold]
pub fn golomb(bytes: &[u8], i: usize) -> Option<(u32, usize)>
    requires short { length bytes.now ≤ 2 ^ 28 }
    requires start { i ≤ 8 * length bytes.now }
    ensures value { FindsBy (λ v. pos v) Unsigned bytes.now i result }
    ensures forward { IfSome result (λ p. i ≤ p.1) }
    ensures small { IfSome result (λ p. p.0 < 2 ^ 32 - 1) }
    ensures inside { IfSome result (λ p. p.1 ≤ 8 * length bytes.now) }
{
    let zeros = window(bytes, i).leading_zeros() - 7;
    if zeros > 31 {
        return None;
    }
    let next = i + 2 * zeros as usize + 1;
    if next > 8 * bytes.len() {
        return None;
    }
    let rest = window(bytes, i + zeros as usize + 1) >> (57 - zeros);
    Some((((1u64 << zeros) - 1 + rest) as u32, next))
}

/// The first bit from bit `i` up to the next byte that is not a 0.
pub fn first_set(bytes: &[u8], i: usize) -> Option<usize>
    requires short { length bytes.now ≤ 2 ^ 28 }
    requires start { i ≤ 8 * length bytes.now }
    ensures set { result ≡ no_zero_at (padding i) bytes.now i }
    ensures inside { IfSome result (λ j. j < 8 * length bytes.now) }
{
    let count = (8 - i % 8) % 8;
    let zeros = (window(bytes, i).leading_zeros() - 7) as usize;
    if zeros < count { Some(i + zeros) } else { None }
}

/// The bit of the last 1, or a number past the end where there is none.
pub fn last_one(bytes: &[u8]) -> usize
    requires { length bytes.now ≤ 2 ^ 28 }
    ensures { IsLastOne bytes.now result }
{
    for k in (0..bytes.len()).rev() {
        if bytes[k] != 0 {
            return 8 * k + 7 - bytes[k].trailing_zeros() as usize;
        }
    }
    8 * bytes.len() + 1
}
