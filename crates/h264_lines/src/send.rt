//! Bytes and texts to a device, all of them or the first of them.
#![tactic(auto)]

ghost use Rattle.std.specs.Prelude.{◌≡◌, ◌≤◌, length, drop, true, false, OnOk, OnErr};
ghost use Rattle.h264_lines.specs.Sent.{Sends, SendsFront, Takes};

use crate::device::Device;
use h264_base::Failed;

/// The bytes after the first `n`.
fn bytes_after(bytes: &[u8], n: usize) -> &[u8]
    requires { n ≤ length bytes.now }
    ensures { result.now ≡ drop n bytes.now }
{
    &bytes[n..]
}

/// Writes these bytes.
///
/// Failed: the device failed, and it was sent a part of them, which is not the whole.
pub fn send<W: Device>(out: &mut W, bytes: &[u8]) -> Result<(), Failed>
    ensures ok { OnOk result (Sends (W.contents out.old) (W.contents out.new) bytes.now) }
    ensures front { OnErr result (SendsFront (W.contents out.old) (W.contents out.new) bytes.now) }
    ensures quiet { OnOk result (W.has_failed out.new ≡ W.has_failed out.old) }
    ensures failed { OnErr result (W.has_failed out.new ≡ true) }
{
    let mut rest = bytes;
    for _ in 0..bytes.len() {
        if rest.is_empty() {
            return Ok(());
        }
        match out.send_some(rest) {
            Ok(n) => rest = bytes_after(rest, n),
            Err(Failed) => return Err(Failed),
        }
    }
    Ok(())
}

/// Writes a text, and hands over all that was held back; whether that was possible.
pub fn put_text<W: Device>(out: &mut W, text: &str) -> bool
    ensures text { Takes result (W.contents out.old) (W.contents out.new) text.now }
    ensures handed_over { result ≡ true → W.holds_back out.new ≡ false }
    ensures quiet { result ≡ true → W.has_failed out.new ≡ W.has_failed out.old }
    ensures failed { result ≡ false → W.has_failed out.new ≡ true }
{
    if send(out, text.as_bytes()).is_err() {
        return false;
    }
    match out.send_rest() {
        Ok(()) => true,
        Err(Failed) => false,
    }
}
