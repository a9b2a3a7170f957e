//! A fast search for what emulation prevention is about.
#![tactic(auto)]

ghost use Rattle.std.specs.Prelude.{ℕ, ◌+◌, ◌<◌, ◌≤◌, IsFalse, IsTrue, length, slice_index};
ghost use Rattle.h264_rbsp.specs.Found.{IsFound};

/// The first of the places `start`, `start + 3` and so on at which no byte above 03 stands.
fn after_high(bytes: &[u8], start: usize) -> usize
    requires start { (2 ≤ start) × (start ≤ length bytes.now + 2) }
    ensures from { (start ≤ result) × (result ≤ length bytes.now + 2) }
    ensures none { (least place : ℕ) → start ≤ place → place < result → IsFound bytes.now least place → ⊥ }
    ensures stops { result < length bytes.now → slice_index bytes.now result ≤ 3 }
{
    let mut place = start;
    while place < bytes.len() && bytes[place] > 3 {
        place += 3;
    }
    place
}

/// Whether a byte from `least` to 03 stands at this place, after two 00 bytes.
fn is_found(bytes: &[u8], place: usize, least: u8) -> bool
    requires { (2 ≤ place) × (place < length bytes.now) }
    ensures found { IsTrue result → IsFound bytes.now least place }
    ensures other { IsFalse result → IsFound bytes.now least place → ⊥ }
{
    let byte = bytes[place];
    byte <= 3 && least <= byte && bytes[place - 1] == 0 && bytes[place - 2] == 0
}

/// The first place at which a byte from `least` to 03 stands after two 00 bytes that stand at `start` or later, or the number
/// of bytes. `least` is not 0.
pub(crate) fn next_after_zeros(bytes: &[u8], start: usize, least: u8) -> usize
    requires start { start ≤ length bytes.now }
    requires least { 0 < least }
    ensures within { result ≤ length bytes.now }
    ensures found { result < length bytes.now → (start + 2 ≤ result) × IsFound bytes.now least result }
    ensures none { (place : ℕ) → start + 2 ≤ place → place < result → IsFound bytes.now least place → ⊥ }
{
    let mut place = after_high(bytes, start + 2);
    while place < bytes.len() {
        if is_found(bytes, place, least) {
            return place;
        }
        // None of the next three places has a byte that is not 00 at the third and two 00 bytes before.
        let step = if bytes[place] == 0 { 1 } else { 3 };
        place = after_high(bytes, place + step);
    }
    bytes.len()
}
