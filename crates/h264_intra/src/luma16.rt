ghost use Rattle.std.specs.Prelude.{◌≡◌, ◌<◌, ◌≤◌, IsTrue, slice_index};
ghost use Rattle.h264_intra.specs.Filters.{total, HasSamples};
ghost use Rattle.h264_intra.specs.Sides.{IsGentle};
ghost use Rattle.h264_intra.specs.Luma16.{is_possible16, number16, mode16_of, dc16, predicted16, sides16, around16, chosen16};

use crate::sides::Sides;
use crate::slope::Plane;

/// How the luma samples of a macroblock are predicted (table 8-4).
#[derive(Clone, Copy, Debug, PartialEq, Eq)]
pub enum Intra16x16PredMode {
    Vertical,
    Horizontal,
    Dc,
    Plane,
}

impl Intra16x16PredMode {
    /// The mode of a number of table 8-4, 0 to 3. A number above 3 counts as 3.
    #[inline(always)]
    pub fn of_number(number: u8) -> Intra16x16PredMode
        ensures { result ≡ mode16_of number }
    {
        match number {
            0 => Intra16x16PredMode::Vertical,
            1 => Intra16x16PredMode::Horizontal,
            2 => Intra16x16PredMode::Dc,
            _ => Intra16x16PredMode::Plane,
        }
    }

    /// Its number in table 8-4.
    #[inline(always)]
    pub fn number(self) -> u8
        ensures number { result ≡ number16 self }
        ensures back { mode16_of result ≡ self }
    {
        self as u8
    }

    /// Whether there are the sides that it needs (8.3.3).
    #[inline]
    pub fn is_possible(self, sides: Sides) -> bool
        ensures { result ≡ is_possible16 self sides }
    {
        match self {
            Intra16x16PredMode::Vertical => sides.above,
            Intra16x16PredMode::Horizontal => sides.left,
            Intra16x16PredMode::Dc => true,
            Intra16x16PredMode::Plane => sides.above && sides.left && sides.corner,
        }
    }
}

/// The luma samples beside a macroblock, before the deblocking filter; a side that is not available is `None`.
#[derive(Clone, Copy, Debug)]
pub struct Neighbours16 {
    /// p[-1, 0] to p[-1, 15], from the top down.
    pub left: Option<[u8; 16]>,
    /// p[0, -1] to p[15, -1].
    pub above: Option<[u8; 16]>,
    /// p[-1, -1].
    pub corner: Option<u8>,
}

#[inline(always)]
fn sum(side: &[u8; 16]) -> u32
    ensures sum { result ≡ total 16 (λ k. slice_index side.now k) }
    ensures bound { result ≤ 4080 }
{
    let mut sum = 0;
    for k in 0..16 {
        sum += u32::from(side[k]);
    }
    sum
}

/// The value of mode DC.
fn mean_of_sides(n: &Neighbours16) -> u8
    ensures { result ≡ dc16 (sides16 n.now) (around16 n.now) }
{
    match (n.left, n.above) {
        (Some(l), Some(a)) => ((sum(&l) + sum(&a) + 16) >> 5) as u8,
        (Some(l), None) => ((sum(&l) + 8) >> 4) as u8,
        (None, Some(a)) => ((sum(&a) + 8) >> 4) as u8,
        (None, None) => 128,
    }
}

/// One sample of a mode.
#[inline(always)]
fn sample<const MODE: u8>(
    left: &[u8; 16],
    above: &[u8; 16],
    flat: u8,
    plane: Plane,
    x: usize,
    y: usize,
) -> u8
    requires place { (x < 16) × (y < 16) }
    requires gentle { IsGentle plane.a plane.b plane.c }
    ensures { result ≡ chosen16 MODE left.now above.now flat plane x y }
{
    if MODE == 0 {
        above[x]
    } else if MODE == 1 {
        left[y]
    } else if MODE == 2 {
        flat
    } else {
        plane.sample::<8>(x, y)
    }
}

/// The samples of a mode.
#[inline(always)]
fn fill<const MODE: u8>(left: &[u8; 16], above: &[u8; 16], flat: u8, plane: Plane) -> [u8; 256]
    requires { IsGentle plane.a plane.b plane.c }
    ensures { HasSamples 16 result (chosen16 MODE left.now above.now flat plane) }
{
    let mut out = [0; 256];
    for y in 0..16 {
        for x in 0..16 {
            out[16 * y + x] = sample::<MODE>(left, above, flat, plane, x, y);
        }
    }
    out
}

/// The prediction of the luma samples of a macroblock, row by row (8.3.3), where there are the sides that the mode needs. Touches 33
/// samples beside the macroblock and 256 in it.
pub fn predict16(mode: Intra16x16PredMode, neighbours: &Neighbours16) -> [u8; 256]
    ensures { IsTrue (is_possible16 mode (sides16 neighbours.now)) →
        HasSamples 16 result (predicted16 mode (sides16 neighbours.now) (around16 neighbours.now)) }
{
    let left = neighbours.left.unwrap_or([0; 16]);
    let above = neighbours.above.unwrap_or([0; 16]);
    let corner = neighbours.corner.unwrap_or(0);
    let level = Plane { a: 0, b: 0, c: 0 };
    match mode {
        Intra16x16PredMode::Vertical => fill::<0>(&left, &above, 0, level),
        Intra16x16PredMode::Horizontal => fill::<1>(&left, &above, 0, level),
        Intra16x16PredMode::Dc => fill::<2>(&left, &above, mean_of_sides(neighbours), level),
        Intra16x16PredMode::Plane => fill::<3>(
            &left,
            &above,
            0,
            Plane::new::<8, 5>(&left, &above, corner),
        ),
    }
}
