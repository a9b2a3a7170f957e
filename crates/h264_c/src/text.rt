//! Texts that are written where C asks for them.
#![tactic(auto)]

ghost use Rattle.std.specs.Prelude.{◌≡◌, ◌<◌, ◌≤◌, ◌++◌, ◌∷◌, drop, length, suc};

/// Writes a text and a 0 after it, where both fit; else nothing.
pub(crate) fn put_text(text: &str, buffer: &mut [u8])
    ensures fits { length text.now < length buffer.old → buffer.new ≡ text.now ++ 0 ∷ drop (suc (length text.now)) buffer.old }
    ensures wide { length buffer.old ≤ length text.now → buffer.new ≡ buffer.old }
{
    let bytes = text.as_bytes();
    let count = bytes.len();
    if count < buffer.len() {
        let (front, back) = buffer.split_at_mut(count);
        front.copy_from_slice(bytes);
        back[0] = 0;
    }
}
