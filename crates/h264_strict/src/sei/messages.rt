//! SEI as a list of messages (7.3.2.3).
#![tactic(auto)]

ghost use Rattle.std.specs.Prelude.{◌≡◌, ◌≤◌, ◌^◌, true, length, drop, IfSome};
ghost use Rattle.h264_strict.specs.Sei.{IsSei};
ghost use Rattle.h264_strict.specs.SeiMessages.{is_trailing, ff_bytes, message_length, is_sei};

/// The trailing bits in a byte of their own.
const TRAILING: u8 = 0x80;

/// A byte of filler data, and one of a payloadType or payloadSize that is not the last.
const FF: u8 = 0xff;

/// Whether these are trailing bits alone.
pub fn is_trailing(bytes: &[u8]) -> bool
    ensures { result ≡ is_trailing bytes.now }
{
    match bytes {
        [] => false,
        [byte, rest @ ..] => *byte == TRAILING && rest.is_empty(),
    }
}

/// How many bytes FF come first.
pub fn ff_bytes(bytes: &[u8]) -> usize
    ensures value { result ≡ ff_bytes bytes.now }
    ensures within { result ≤ length bytes.now }
{
    for (i, byte) in bytes.iter().enumerate() {
        if *byte != FF {
            return i;
        }
    }
    bytes.len()
}

/// What follows the first bytes.
pub fn after(bytes: &[u8], n: usize) -> &[u8]
    requires { n ≤ length bytes.now }
    ensures { result.now ≡ drop n bytes.now }
{
    &bytes[n..]
}

/// The bytes of the first message of SEI; None where it is not whole.
#[tactic(auto, unfolding(crate::specs::SeiMessages::message_length))]
pub(crate) fn message_length(bytes: &[u8]) -> Option<usize>
    requires { length bytes.now ≤ 2 ^ 28 }
    ensures value { result ≡ message_length bytes.now }
    ensures within { IfSome result (λ n. n ≤ length bytes.now) }
{
    let kind = ff_bytes(bytes);
    if bytes.len() <= kind {
        return None;
    }
    let sized = after(bytes, kind + 1);
    let size = ff_bytes(sized);
    if sized.len() <= size {
        return None;
    }
    let whole = kind + 1 + (size + 1) + (255 * size + sized[size] as usize);
    if bytes.len() < whole {
        return None;
    }
    Some(whole)
}

/// Whether these are messages of SEI and then trailing bits.
pub fn is_sei(bytes: &[u8]) -> bool
    requires { length bytes.now ≤ 2 ^ 28 }
    ensures value { result ≡ is_sei bytes.now }
    ensures yes { result ≡ true → IsSei bytes.now }
    ensures no { IsSei bytes.now → result ≡ true }
{
    let mut rest = bytes;
    for _n in 0..bytes.len() {
        let Some(whole) = message_length(rest) else {
            return false;
        };
        rest = after(rest, whole);
        if is_trailing(rest) {
            return true;
        }
    }
    false
}
