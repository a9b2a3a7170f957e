//! Numbers as bits.
#![tactic(auto)]

ghost use Rattle.std.specs.Prelude.{◌≡◌, ◌++◌, ◌-◌, ◌^◌, ◌<◌, ◌≤◌, ◌≤ℤ◌, pos, neg_ℤ, OnOk};
ghost use Rattle.h264_base.specs.Word.{signed};
ghost use Rattle.h264_write.specs.Written.{spelled};

use std::alloc::AllocError;

/// Appends the last `n` bits of a number, the highest first.
pub(crate) fn spell(bits: &mut Vec<bool>, n: u32, number: u32) -> Result<(), AllocError>
    requires { n ≤ 32 }
    ensures { OnOk result (bits.new.items ≡ bits.old.items ++ spelled n number) }
{
    for i in 0..n {
        let shift = n - 1 - i;
        bits.push((number >> shift) % 2 == 1)?;
    }
    Ok(())
}

/// codeNum of se(v) for this value (9.1.1).
pub(crate) fn code_num(value: i32) -> u32
    requires { neg_ℤ (pos (2 ^ 31 - 1)) ≤ℤ value }
    ensures code { signed result ≡ value }
    ensures small { result < 2 ^ 32 - 1 }
{
    if value > 0 {
        return 2 * value.unsigned_abs() - 1;
    }
    2 * value.unsigned_abs()
}
