//! Whether the terms of a sample aspect ratio are relatively prime (E.2.1).
#![tactic(auto)]

ghost use Rattle.std.specs.Prelude.{◌≡◌, ◌<◌};
ghost use Rattle.std.specs.Int.{IsGcd};
ghost use Rattle.h264_strict.specs.StrictRatio.{have_common_factor, is_reducible};

/// The greatest common divisor, by Euclid's algorithm.
fn gcd(a: u64, b: u64) -> u64
    ensures { IsGcd a b result }
{
    let mut divisor = a;
    let mut rest = b;
    while rest != 0 {
        let next = divisor % rest;
        divisor = rest;
        rest = next;
    }
    divisor
}

/// Whether two numbers, the first above 0, have a common factor above 1.
fn have_common_factor(n: u64, k: u64) -> bool
    requires { 0 < n }
    ensures { result ≡ have_common_factor n k }
{
    1 < gcd(n, k)
}

/// Whether sar_width and sar_height are above 0, and have a common factor above 1.
pub fn is_reducible(sar_width: u64, sar_height: u64) -> bool
    ensures { result ≡ is_reducible sar_width sar_height }
{
    0 < sar_width && 0 < sar_height && have_common_factor(sar_width, sar_height)
}
