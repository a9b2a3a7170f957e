//! How a piece of the input reads on.
#![tactic(auto)]

ghost use Rattle.std.specs.Prelude.{◌≡◌, ◌≢◌, ℕ, ◌+◌, ◌<◌, ◌≤◌, drop, length, slice_index, take};
ghost use Rattle.h264_units.specs.Stream.{IsInner};
ghost use Rattle.h264_units.specs.Scanned.{Scans, IsOpen};

/// How far the input was read.
#[derive(Clone, Copy)]
pub(crate) enum Phase {
    /// Between units, where only 00 bytes stand.
    Between,
    /// In a unit, with so many 00 bytes at its end, two at most, that it may go on after them or end before them.
    Inside(u8),
    /// Following a unit that waits, and after the bytes that ended it: 00 00 01 if true, else 00 00 00.
    Waiting(bool),
    /// At the end of the input, with a unit that waits, and so many 00 bytes after it.
    Last(u8),
    /// At the end of the input, with no unit left.
    Over,
}

/// How many 00 bytes the piece begins with.
pub(crate) fn zero_run(piece: &[u8]) -> usize
    ensures within { result ≤ length piece.now }
    ensures zeros { (k : ℕ) → k < result → slice_index piece.now k ≡ 0 }
    ensures other { result < length piece.now → slice_index piece.now result ≢ 0 }
{
    for (i, byte) in piece.iter().enumerate() {
        if *byte != 0 {
            return i;
        }
    }
    piece.len()
}

/// How many bytes of the piece, from this place on, are passed over three at a time, since no unit ends in them: the third
/// byte of each three is above 01.
fn inner_run(piece: &[u8], start: usize) -> usize
    requires { start ≤ length piece.now }
    ensures within { start + result ≤ length piece.now }
    ensures inner { IsInner (take result (drop start piece.now)) }
    ensures stops { start + result + 2 < length piece.now → slice_index piece.now (start + result + 2) ≤ 1 }
{
    let mut end = start;
    while end + 2 < piece.len() && piece[end + 2] > 1 {
        end += 3;
    }
    end - start
}

/// Reads on in a unit, with some 00 bytes held back, to its end or that of the piece: how many bytes that are.
pub(crate) fn scan_unit(held: u8, piece: &[u8]) -> (usize, Phase)
    requires { held < 3 }
    ensures scans { Scans held piece.now result.0 result.1 }
    ensures all { IsOpen result.1 → result.0 ≡ length piece.now }
    ensures some { ¬ IsOpen result.1 → 0 < result.0 }
{
    let mut zeros = held;
    let mut i = 0;
    while i < piece.len() {
        let byte = piece[i];
        if byte < 2 && zeros == 2 {
            return (i + 1, Phase::Waiting(byte == 1));
        }
        i += 1;
        if byte == 0 {
            zeros += 1;
        } else {
            zeros = 0;
            i += inner_run(piece, i);
        }
    }
    (i, Phase::Inside(zeros))
}
