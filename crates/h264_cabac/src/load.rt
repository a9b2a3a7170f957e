//! Four bytes as a number.
#![tactic(auto)]

ghost use Rattle.std.specs.Prelude.{◌≡◌, ◌*◌, ◌<◌, ◌^◌};
ghost use Rattle.h264_bits.specs.Peek.{peek_at};

/// The 32 bits from byte `k` on, near the end of the bytes.
#[cold]
#[inline(never)]
fn load_last(bytes: &[u8], k: usize) -> u32
    requires { k < 2 ^ 32 }
    ensures { result ≡ peek_at 32 bytes.now (8 * k) }
{
    let mut word = 0u32;
    for j in 0..4usize {
        let byte = bytes.get(k + j).copied().unwrap_or(0);
        word = word * 256 + byte as u32;
    }
    word
}

/// The 32 bits from byte `k` on, with zeros past the end.
#[inline(always)]
pub fn load(bytes: &[u8], k: usize) -> u32
    requires { k < 2 ^ 32 }
    ensures { result ≡ peek_at 32 bytes.now (8 * k) }
{
    if k + 4 <= bytes.len() {
        u32::from_be_bytes([bytes[k], bytes[k + 1], bytes[k + 2], bytes[k + 3]])
    } else {
        load_last(bytes, k)
    }
}
