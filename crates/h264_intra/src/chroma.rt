ghost use Rattle.std.specs.Prelude.{◌≡◌, ◌+◌, ◌*◌, ◌<◌, ◌≤◌, IsTrue, slice_index};
ghost use Rattle.h264_intra.specs.Filters.{total, HasSamples};
ghost use Rattle.h264_intra.specs.Sides.{IsGentle};
ghost use Rattle.h264_intra.specs.Chroma.{is_possible_chroma, number_chroma, mode_chroma_of, block_dc, predicted_chroma, sides_chroma, around_chroma};
ghost use Rattle.h264_intra.specs.Chroma.{chosen_chroma};

use crate::sides::Sides;
use crate::slope::Plane;

/// How the chroma samples of a macroblock are predicted (table 8-5).
#[derive(Clone, Copy, Debug, PartialEq, Eq)]
pub enum IntraChromaPredMode {
    Dc,
    Horizontal,
    Vertical,
    Plane,
}

impl IntraChromaPredMode {
    /// The mode of a number of table 8-5, 0 to 3. A number above 3 counts as 3.
    #[inline(always)]
    pub fn of_number(number: u8) -> IntraChromaPredMode
        ensures { result ≡ mode_chroma_of number }
    {
        match number {
            0 => IntraChromaPredMode::Dc,
            1 => IntraChromaPredMode::Horizontal,
            2 => IntraChromaPredMode::Vertical,
            _ => IntraChromaPredMode::Plane,
        }
    }

    /// Its number in table 8-5.
    #[inline(always)]
    pub fn number(self) -> u8
        ensures number { result ≡ number_chroma self }
        ensures back { mode_chroma_of result ≡ self }
    {
        self as u8
    }

    /// Whether there are the sides that it needs (8.3.4).
    #[inline]
    pub fn is_possible(self, sides: Sides) -> bool
        ensures { result ≡ is_possible_chroma self sides }
    {
        match self {
            IntraChromaPredMode::Dc => true,
            IntraChromaPredMode::Horizontal => sides.left,
            IntraChromaPredMode::Vertical => sides.above,
            IntraChromaPredMode::Plane => sides.above && sides.left && sides.corner,
        }
    }
}

/// The samples of a chroma plane beside a macroblock, before the deblocking filter; a side that is not available is `None`.
#[derive(Clone, Copy, Debug)]
pub struct NeighboursChroma {
    /// p[-1, 0] to p[-1, 7], from the top down.
    pub left: Option<[u8; 8]>,
    /// p[0, -1] to p[7, -1].
    pub above: Option<[u8; 8]>,
    /// p[-1, -1].
    pub corner: Option<u8>,
}

/// The sum of half a side.
#[tactic(auto, unfolding(crate::specs::Filters::total))]
#[inline(always)]
fn sum(side: &[u8; 8], half: usize) -> u32
    requires { half < 2 }
    ensures sum { result ≡ total 4 (λ k. slice_index side.now (4 * half + k)) }
    ensures bound { result ≤ 1020 }
{
    let at = 4 * half;
    u32::from(side[at])
        + u32::from(side[at + 1])
        + u32::from(side[at + 2])
        + u32::from(side[at + 3])
}

/// The value of mode DC for the 4x4 block at column `i` and row `j` of blocks.
#[inline(always)]
fn mean_of_block(n: &NeighboursChroma, i: usize, j: usize) -> u8
    requires { (i < 2) × (j < 2) }
    ensures { result ≡ block_dc (sides_chroma n.now) (around_chroma n.now) i j }
{
    match (n.left, n.above) {
        (Some(l), Some(a)) => {
            if i == j {
                ((sum(&l, j) + sum(&a, i) + 4) >> 3) as u8
            } else if j == 0 {
                ((sum(&a, i) + 2) >> 2) as u8
            } else {
                ((sum(&l, j) + 2) >> 2) as u8
            }
        }
        (Some(l), None) => ((sum(&l, j) + 2) >> 2) as u8,
        (None, Some(a)) => ((sum(&a, i) + 2) >> 2) as u8,
        (None, None) => 128,
    }
}

/// One sample of a mode.
#[inline(always)]
fn sample<const MODE: u8>(
    left: &[u8; 8],
    above: &[u8; 8],
    flats: &[u8; 4],
    plane: Plane,
    x: usize,
    y: usize,
) -> u8
    requires place { (x < 8) × (y < 8) }
    requires gentle { IsGentle plane.a plane.b plane.c }
    ensures { result ≡ chosen_chroma MODE left.now above.now flats.now plane x y }
{
    if MODE == 0 {
        flats[2 * (y / 4) + x / 4]
    } else if MODE == 1 {
        left[y]
    } else if MODE == 2 {
        above[x]
    } else {
        plane.sample::<4>(x, y)
    }
}

/// The samples of a mode.
#[inline(always)]
fn fill<const MODE: u8>(left: &[u8; 8], above: &[u8; 8], flats: &[u8; 4], plane: Plane) -> [u8; 64]
    requires { IsGentle plane.a plane.b plane.c }
    ensures { HasSamples 8 result (chosen_chroma MODE left.now above.now flats.now plane) }
{
    let mut out = [0; 64];
    for y in 0..8 {
        for x in 0..8 {
            out[8 * y + x] = sample::<MODE>(left, above, flats, plane, x, y);
        }
    }
    out
}

/// The prediction of the samples of a chroma plane of a macroblock, row by row (8.3.4), where there are the sides that the mode needs.
/// Touches 17 samples beside the macroblock and 64 in it.
pub fn predict_chroma(mode: IntraChromaPredMode, neighbours: &NeighboursChroma) -> [u8; 64]
    ensures { IsTrue (is_possible_chroma mode (sides_chroma neighbours.now)) →
        HasSamples 8 result (predicted_chroma mode (sides_chroma neighbours.now) (around_chroma neighbours.now)) }
{
    let left = neighbours.left.unwrap_or([0; 8]);
    let above = neighbours.above.unwrap_or([0; 8]);
    let corner = neighbours.corner.unwrap_or(0);
    let level = Plane { a: 0, b: 0, c: 0 };
    let none = [0; 4];
    match mode {
        IntraChromaPredMode::Dc => {
            let flats = [
                mean_of_block(neighbours, 0, 0),
                mean_of_block(neighbours, 1, 0),
                mean_of_block(neighbours, 0, 1),
                mean_of_block(neighbours, 1, 1),
            ];
            fill::<0>(&left, &above, &flats, level)
        }
        IntraChromaPredMode::Horizontal => fill::<1>(&left, &above, &none, level),
        IntraChromaPredMode::Vertical => fill::<2>(&left, &above, &none, level),
        IntraChromaPredMode::Plane => fill::<3>(
            &left,
            &above,
            &none,
            Plane::new::<4, 34>(&left, &above, corner),
        ),
    }
}
