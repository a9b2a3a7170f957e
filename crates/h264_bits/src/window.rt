//! The bits of a place as one number.
#![tactic(auto)]

ghost use Rattle.std.specs.Prelude.{◌≡◌, ℕ, ◌+◌, ◌-◌, ◌*◌, ◌/◌, ◌%◌, ◌<◌, ◌≤◌, ◌^◌, List, min};
ghost use Rattle.h264_bits.specs.Peek.{peek_at};
ghost use Rattle.h264_bits.specs.Upcoming.{IsUpcoming};

/// The 64 bits from byte `k` on, near the end of the bytes.
#[cold]
fn load_last(bytes: &[u8], k: usize) -> u64
    requires { k < 2 ^ 32 }
    ensures { result ≡ peek_at 64 bytes.now (8 * k) }
{
    let mut word = 0u64;
    for j in 0..8usize {
        let byte = bytes.get(k + j).copied().unwrap_or(0);
        word = word * 256 + byte as u64;
    }
    word
}

/// The 64 bits from byte `k` on, with zeros past the end.
#[inline]
fn load(bytes: &[u8], k: usize) -> u64
    requires { k < 2 ^ 32 }
    ensures { result ≡ peek_at 64 bytes.now (8 * k) }
{
    if k + 8 <= bytes.len() {
        u64::from_be_bytes([
            bytes[k],
            bytes[k + 1],
            bytes[k + 2],
            bytes[k + 3],
            bytes[k + 4],
            bytes[k + 5],
            bytes[k + 6],
            bytes[k + 7],
        ])
    } else {
        load_last(bytes, k)
    }
}

/// The 57 bits from bit `i` on, with zeros past the end. So many fit in eight bytes from any bit of the first.
#[inline]
pub fn window(bytes: &[u8], i: usize) -> u64
    requires { i < 2 ^ 35 }
    ensures { result ≡ peek_at 57 bytes.now i }
{
    (load(bytes, i / 8) << (i % 8)) >> 7
}

/// The bits that come next, as far as they were loaded: so many, in the highest places of the number.
#[derive(Clone, Copy)]
pub struct Upcoming {
    pub number: u64,
    pub count: u32,
}

/// None of them.
#[inline(always)]
pub fn none_upcoming() -> Upcoming
    ensures bits { (bytes : List ℕ) (i : ℕ) → IsUpcoming bytes i result }
    ensures count { result.count ≡ 0 }
{
    Upcoming {
        number: 0,
        count: 0,
    }
}

/// The bits from bit `i` on, up to `last` at most. The number has 57 of them whatever the count, with zeros past the end.
#[inline(always)]
pub fn loaded(bytes: &[u8], i: usize, last: usize) -> Upcoming
    requires place { i < 2 ^ 35 }
    requires before { i ≤ last }
    ensures bits { IsUpcoming bytes.now i result }
    ensures count { result.count ≡ min (64 - i % 8) (last - i) }
    ensures front { (n : ℕ) → n ≤ 57 → result.number / 2 ^ (64 - n) ≡ peek_at n bytes.now i }
{
    Upcoming {
        number: load(bytes, i / 8) << (i % 8),
        count: (64 - i % 8).min(last - i) as u32,
    }
}

/// The first `n` of the bits as a number.
#[inline(always)]
pub fn first_of(k: Upcoming, n: u32) -> u64
    requires { n ≤ 57 }
    ensures { result ≡ k.number / 2 ^ (64 - n) }
{
    (k.number >> 1) >> (63 - n)
}

/// The bits after the first `n`.
#[inline(always)]
pub fn following(k: Upcoming, n: u32) -> Upcoming
    requires few { n < 64 }
    requires enough { n ≤ k.count }
    ensures bits { (bytes : List ℕ) (i : ℕ) → IsUpcoming bytes i k → IsUpcoming bytes (i + n) result }
    ensures count { result.count ≡ k.count - n }
{
    Upcoming {
        number: k.number << n,
        count: k.count - n,
    }
}
