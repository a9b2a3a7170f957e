//! The peak signal-to-noise ratio of samples of 8 bits.
#![tactic(auto)]

/// The square of the largest sample.
const PEAK: u128 = 255 * 255;

/// Bits after the point of a logarithm.
const PLACES: u32 = 32;

/// Bits after the point of a number between 1 and 2, of which a logarithm is taken.
const FRACTION: u32 = 40;

/// The most bits of a ratio.
const MOST_BITS: u32 = 128;

/// Ten thousandths of a decibel in a factor of 2: 10 log10 2.
const OF_DOUBLING: u128 = 30_103;

/// The logarithm to base 2 of a ratio, of at least 1 and less than 2^88, with `PLACES` bits after its point.
fn logarithm(over: u128, under: u128) -> u128 {
    let (mut whole, mut power) = (0u128, under);
    for _ in 0..MOST_BITS {
        if power.saturating_mul(2) > over {
            break;
        }
        power = power.saturating_mul(2);
        whole = whole.saturating_add(1);
    }
    let mut number = over.wrapping_shl(FRACTION).checked_div(power).unwrap_or(0);
    let mut result = whole;
    for _ in 0..PLACES {
        number = number.wrapping_mul(number).wrapping_shr(FRACTION);
        result = result.saturating_mul(2);
        if number.wrapping_shr(FRACTION) >= 2 {
            number /= 2;
            result = result.saturating_add(1);
        }
    }
    result
}

/// The ratio of so many samples, with this sum of the squares of their differences, in hundredths of a decibel. None where no sample differs.
pub fn hundredths(samples: u64, squares: u64) -> Option<u64> {
    if squares == 0 {
        return None;
    }
    let over = PEAK.saturating_mul(u128::from(samples));
    let logarithm = logarithm(over, u128::from(squares));
    let fine = logarithm.saturating_mul(OF_DOUBLING).wrapping_shr(PLACES);
    u64::try_from(fine.saturating_add(50) / 100).ok()
}
