//! The value of an element as a count.
#![tactic(auto)]

ghost use Rattle.std.specs.Prelude.{◌≡◌};
ghost use Rattle.h264_bits.specs.Forms.{natural};

/// A value that is never negative, as a count; 0 for a negative one.
pub fn count_of(value: i64) -> u64
    ensures { result ≡ natural value }
{
    match u64::try_from(value) {
        Ok(count) => count,
        Err(_) => 0,
    }
}
