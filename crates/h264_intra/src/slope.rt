ghost use Rattle.std.specs.Prelude.{◌≡◌, ◌+◌, ◌-◌, ◌*◌, ◌<◌, ◌≤◌, length, slice_index, ℤ, pos, ◌*ℤ◌, ◌-ℤ◌};
ghost use Rattle.h264_intra.specs.Slope.{gradient as gradient_of, slope as slope_of, plane_sample};
ghost use Rattle.h264_intra.specs.Sides.{with_corner, IsGentle};
ghost use Rattle.h264_plane.specs.Clip.{IsIn};

use h264_plane::clip1;

/// A weighted difference of two samples.
#[inline(always)]
fn weighted(weight: usize, more: u8, less: u8) -> i32
    requires { weight ≤ 8 }
    ensures value { result ≡ pos weight *ℤ (pos more -ℤ pos less) }
    ensures bound { IsIn 2040 result }
{
    weight as i32 * (i32::from(more) - i32::from(less))
}

/// H, or V, of plane prediction, of the samples of a side.
#[inline(always)]
fn gradient<const HALF: usize>(side: &[u8], corner: u8) -> i32
    requires size { length side.now ≡ 2 * HALF }
    requires small { (2 ≤ HALF) × (HALF ≤ 8) }
    ensures value { result ≡ gradient_of HALF (with_corner corner side.now) }
    ensures bound { IsIn 16320 result }
{
    let mut sum = 0;
    for k in 0..HALF - 1 {
        sum += weighted(k + 1, side[HALF + k], side[HALF - 2 - k]);
    }
    sum + weighted(HALF, side[2 * HALF - 1], corner)
}

/// b, or c, of plane prediction.
#[inline(always)]
fn slope<const HALF: usize, const WEIGHT: i32>(side: &[u8], corner: u8) -> i32
    requires size { length side.now ≡ 2 * HALF }
    requires small { (2 ≤ HALF) × (HALF ≤ 8) }
    requires weight { IsIn 34 WEIGHT }
    ensures value { result ≡ slope_of HALF WEIGHT (with_corner corner side.now) }
    ensures bound { IsIn 16320 result }
{
    (WEIGHT * gradient::<HALF>(side, corner) + 32) >> 6
}

/// How far a plane has risen from the middle of the block on.
#[inline(always)]
fn rise<const HALF: usize>(slope: i32, x: usize) -> i32
    requires slope { IsIn 16320 slope }
    requires small { (2 ≤ HALF) × (HALF ≤ 8) }
    requires place { x < 2 * HALF }
    ensures value { result ≡ slope *ℤ (pos x -ℤ pos (HALF - 1)) }
    ensures bound { IsIn 130560 result }
{
    slope * (x as i32 - (HALF as i32 - 1))
}

/// a, b and c of plane prediction (8.3.3.4, 8.3.4.4).
#[derive(Clone, Copy)]
pub struct Plane {
    pub a: i32,
    pub b: i32,
    pub c: i32,
}

impl Plane {
    /// That of the sides of a block of twice `HALF` rows and columns.
    #[inline(always)]
    pub fn new<const HALF: usize, const WEIGHT: i32>(left: &[u8], above: &[u8], corner: u8) -> Plane
        requires left { length left.now ≡ 2 * HALF }
        requires above { length above.now ≡ 2 * HALF }
        requires small { (2 ≤ HALF) × (HALF ≤ 8) }
        requires weight { IsIn 34 WEIGHT }
        ensures a { result.a ≡ pos (16 * (slice_index left.now (2 * HALF - 1) + slice_index above.now (2 * HALF - 1))) }
        ensures b { result.b ≡ slope_of HALF WEIGHT (with_corner corner above.now) }
        ensures c { result.c ≡ slope_of HALF WEIGHT (with_corner corner left.now) }
        ensures bounds { IsGentle result.a result.b result.c }
    {
        Plane {
            a: 16 * (i32::from(left[2 * HALF - 1]) + i32::from(above[2 * HALF - 1])),
            b: slope::<HALF, WEIGHT>(above, corner),
            c: slope::<HALF, WEIGHT>(left, corner),
        }
    }

    /// The sample at column `x` of row `y`.
    #[inline(always)]
    pub fn sample<const HALF: usize>(self, x: usize, y: usize) -> u8
        requires bounds { IsGentle self.a self.b self.c }
        requires small { (2 ≤ HALF) × (HALF ≤ 8) }
        requires place { (x < 2 * HALF) × (y < 2 * HALF) }
        ensures { result ≡ plane_sample HALF self.a self.b self.c x y }
    {
        clip1((self.a + rise::<HALF>(self.b, x) + rise::<HALF>(self.c, y) + 16) >> 5)
    }
}
