ghost use Rattle.std.specs.Prelude.{◌≡◌, ℕ, ◌+◌, ◌<◌, ◌≤◌, ◌^◌, true, false, length, IsTrue, is_some, IfSome};
ghost use Rattle.h264_dpb.specs.Numbered.{is_at as is_at_place, is_taken, place_in};

use crate::entry::{Entry, Placed};

/// Whether a frame stands at a place.
fn is_at(place: usize, entry: &Entry<Placed>) -> bool
    ensures { result ≡ is_at_place place entry.now }
{
    entry.of.place == place
}

/// Whether one of these frames does.
fn is_taken(entries: &[Entry<Placed>], place: usize) -> bool
    ensures { result ≡ is_taken entries.now place }
{
    entries.iter().any(|entry| is_at(place, entry))
}

/// The first of `count` places from `first` on at which none of these frames stands.
pub(crate) fn free_place(entries: &[Entry<Placed>], first: usize, count: usize) -> Option<usize>
    requires small { first + count < 2 ^ 32 }
    ensures free { IfSome result (λ place. (first ≤ place) × (place < first + count) × (is_taken entries.now place ≡ false)) }
    ensures lowest { IfSome result (λ place. (lower : ℕ) → first ≤ lower → lower < place → is_taken entries.now lower ≡ true) }
    ensures some { length entries.now < count → IsTrue (is_some result) }
    ensures first { is_taken entries.now first ≡ false → 0 < count → IsTrue (is_some result) }
{
    for place in first..first + count {
        if !is_taken(entries, place) {
            return Some(place);
        }
    }
    None
}

/// The place of the frame of the picture with this number, if it is one of these.
pub(crate) fn place_at(entries: &[Entry<Placed>], picture: u64) -> Option<usize>
    ensures { result ≡ place_in entries.now picture }
{
    for entry in entries {
        if entry.of.picture == picture {
            return Some(entry.of.place);
        }
    }
    None
}
