ghost use Rattle.std.specs.Prelude.{◌≡◌, ◌<◌, ◌≤◌, IsTrue, slice_index};
ghost use Rattle.h264_intra.specs.Filters.{f3 as f3_of, f2 as f2_of, total, HasSamples};
ghost use Rattle.h264_intra.specs.Luma4.{from_border, diagonal_down_left as diagonal_down_left_of, diagonal_down_right as diagonal_down_right_of};
ghost use Rattle.h264_intra.specs.Luma4.{vertical_right as vertical_right_of, horizontal_down as horizontal_down_of};
ghost use Rattle.h264_intra.specs.Luma4.{vertical_left as vertical_left_of, horizontal_up as horizontal_up_of, directed, filled, dc, sides4, around4};
ghost use Rattle.h264_intra.specs.Luma4.{SameRound4, is_possible4, number4, mode4_of, predicted4};

use crate::sides::Sides4;

/// How a 4x4 luma block is predicted (table 8-2).
#[derive(Clone, Copy, Debug, PartialEq, Eq)]
pub enum Intra4x4PredMode {
    Vertical,
    Horizontal,
    Dc,
    DiagonalDownLeft,
    DiagonalDownRight,
    VerticalRight,
    HorizontalDown,
    VerticalLeft,
    HorizontalUp,
}

impl Intra4x4PredMode {
    /// The mode of a number of table 8-2, 0 to 8. A number above 8 counts as 8.
    #[inline(always)]
    pub fn of_number(number: u8) -> Intra4x4PredMode
        ensures { result ≡ mode4_of number }
    {
        match number {
            0 => Intra4x4PredMode::Vertical,
            1 => Intra4x4PredMode::Horizontal,
            2 => Intra4x4PredMode::Dc,
            3 => Intra4x4PredMode::DiagonalDownLeft,
            4 => Intra4x4PredMode::DiagonalDownRight,
            5 => Intra4x4PredMode::VerticalRight,
            6 => Intra4x4PredMode::HorizontalDown,
            7 => Intra4x4PredMode::VerticalLeft,
            _ => Intra4x4PredMode::HorizontalUp,
        }
    }

    /// Its number in table 8-2.
    #[inline(always)]
    pub fn number(self) -> u8
        ensures number { result ≡ number4 self }
        ensures back { mode4_of result ≡ self }
    {
        self as u8
    }

    /// Whether there are the sides that it needs (8.3.1.2).
    #[inline]
    pub fn is_possible(self, sides: Sides4) -> bool
        ensures { result ≡ is_possible4 self sides }
    {
        let corner = sides.above && sides.left && sides.corner;
        match self {
            Intra4x4PredMode::Vertical => sides.above,
            Intra4x4PredMode::Horizontal => sides.left,
            Intra4x4PredMode::Dc => true,
            Intra4x4PredMode::DiagonalDownLeft => sides.above,
            Intra4x4PredMode::DiagonalDownRight => corner,
            Intra4x4PredMode::VerticalRight => corner,
            Intra4x4PredMode::HorizontalDown => corner,
            Intra4x4PredMode::VerticalLeft => sides.above,
            Intra4x4PredMode::HorizontalUp => sides.left,
        }
    }
}

/// The samples beside a 4x4 block, before the deblocking filter; a side that is not available is `None`.
#[derive(Clone, Copy, Debug)]
pub struct Neighbours4 {
    /// p[-1, 0] to p[-1, 3], from the top down.
    pub left: Option<[u8; 4]>,
    /// p[0, -1] to p[3, -1].
    pub above: Option<[u8; 4]>,
    /// p[4, -1] to p[7, -1].
    pub above_right: Option<[u8; 4]>,
    /// p[-1, -1].
    pub corner: Option<u8>,
}

#[inline(always)]
fn f3(a: u8, b: u8, c: u8) -> u8
    ensures { result ≡ f3_of a b c }
{
    ((u32::from(a) + 2 * u32::from(b) + u32::from(c) + 2) >> 2) as u8
}

#[inline(always)]
fn f2(a: u8, b: u8) -> u8
    ensures { result ≡ f2_of a b }
{
    ((u32::from(a) + u32::from(b) + 1) >> 1) as u8
}

/// A sample above the block: 0 is the corner.
#[inline(always)]
fn row(b: &[u8; 13], k: usize) -> u8
    requires { k ≤ 8 }
    ensures { result ≡ from_border b.now k 0 }
{
    b[4 + k]
}

/// A sample to the left of the block: 0 is the corner.
#[inline(always)]
fn column(b: &[u8; 13], k: usize) -> u8
    requires { k ≤ 4 }
    ensures { result ≡ from_border b.now 0 k }
{
    b[4 - k]
}

#[inline(always)]
fn diagonal_down_left(b: &[u8; 13], x: usize, y: usize) -> u8
    requires { (x < 4) × (y < 4) }
    ensures { result ≡ diagonal_down_left_of (from_border b.now) x y }
{
    let k = x + y;
    if k == 6 {
        f3(row(b, 7), row(b, 8), row(b, 8))
    } else {
        f3(row(b, k + 1), row(b, k + 2), row(b, k + 3))
    }
}

#[inline(always)]
fn diagonal_down_right(b: &[u8; 13], x: usize, y: usize) -> u8
    requires { (x < 4) × (y < 4) }
    ensures { result ≡ diagonal_down_right_of (from_border b.now) x y }
{
    if x > y {
        f3(row(b, x - y - 1), row(b, x - y), row(b, x - y + 1))
    } else if x < y {
        f3(column(b, y - x - 1), column(b, y - x), column(b, y - x + 1))
    } else {
        f3(row(b, 1), row(b, 0), column(b, 1))
    }
}

#[inline(always)]
fn vertical_right(b: &[u8; 13], x: usize, y: usize) -> u8
    requires { (x < 4) × (y < 4) }
    ensures { result ≡ vertical_right_of (from_border b.now) x y }
{
    if 2 * x + 1 < y {
        f3(column(b, y), column(b, y - 1), column(b, y - 2))
    } else if 2 * x < y {
        f3(column(b, 1), row(b, 0), row(b, 1))
    } else {
        let k = x + 1 - y / 2;
        if (2 * x - y) % 2 == 0 {
            f2(row(b, k - 1), row(b, k))
        } else {
            f3(row(b, k - 2), row(b, k - 1), row(b, k))
        }
    }
}

#[inline(always)]
fn horizontal_down(b: &[u8; 13], x: usize, y: usize) -> u8
    requires { (x < 4) × (y < 4) }
    ensures { result ≡ horizontal_down_of (from_border b.now) x y }
{
    if 2 * y + 1 < x {
        f3(row(b, x), row(b, x - 1), row(b, x - 2))
    } else if 2 * y < x {
        f3(column(b, 1), row(b, 0), row(b, 1))
    } else {
        let k = y + 1 - x / 2;
        if (2 * y - x) % 2 == 0 {
            f2(column(b, k - 1), column(b, k))
        } else {
            f3(column(b, k - 2), column(b, k - 1), column(b, k))
        }
    }
}

#[inline(always)]
fn vertical_left(b: &[u8; 13], x: usize, y: usize) -> u8
    requires { (x < 4) × (y < 4) }
    ensures { result ≡ vertical_left_of (from_border b.now) x y }
{
    let k = x + 1 + y / 2;
    if y % 2 == 0 {
        f2(row(b, k), row(b, k + 1))
    } else {
        f3(row(b, k), row(b, k + 1), row(b, k + 2))
    }
}

#[inline(always)]
fn horizontal_up(b: &[u8; 13], x: usize, y: usize) -> u8
    requires { (x < 4) × (y < 4) }
    ensures { result ≡ horizontal_up_of (from_border b.now) x y }
{
    let z = x + 2 * y;
    if z > 5 {
        column(b, 4)
    } else if z == 5 {
        f3(column(b, 3), column(b, 4), column(b, 4))
    } else {
        let k = y + 1 + x / 2;
        if z % 2 == 0 {
            f2(column(b, k), column(b, k + 1))
        } else {
            f3(column(b, k), column(b, k + 1), column(b, k + 2))
        }
    }
}

/// The samples round the block in one row, filled: the left side from below up, the corner, and above from left to right.
#[inline(always)]
fn border(n: &Neighbours4) -> [u8; 13]
    ensures { SameRound4 (from_border result) (filled (sides4 n.now) (around4 n.now)) }
{
    let l = n.left.unwrap_or([0; 4]);
    let a = n.above.unwrap_or([0; 4]);
    let r = n.above_right.unwrap_or([a[3]; 4]);
    let corner = n.corner.unwrap_or(0);
    [
        l[3], l[2], l[1], l[0], corner, a[0], a[1], a[2], a[3], r[0], r[1], r[2], r[3],
    ]
}

#[tactic(auto, unfolding(crate::specs::Filters::total))]
#[inline(always)]
fn sum(side: [u8; 4]) -> u32
    ensures sum { result ≡ total 4 (λ k. slice_index side k) }
    ensures bound { result ≤ 1020 }
{
    u32::from(side[0]) + u32::from(side[1]) + u32::from(side[2]) + u32::from(side[3])
}

/// The value of mode DC.
fn mean_of_sides(n: &Neighbours4) -> u8
    ensures { result ≡ dc (sides4 n.now) (around4 n.now) }
{
    match (n.left, n.above) {
        (Some(l), Some(a)) => ((sum(l) + sum(a) + 4) >> 3) as u8,
        (Some(l), None) => ((sum(l) + 2) >> 2) as u8,
        (None, Some(a)) => ((sum(a) + 2) >> 2) as u8,
        (None, None) => 128,
    }
}

/// One sample of a mode.
#[inline(always)]
fn sample<const MODE: u8>(b: &[u8; 13], flat: u8, x: usize, y: usize) -> u8
    requires { (x < 4) × (y < 4) }
    ensures { result ≡ directed (mode4_of MODE) flat (from_border b.now) x y }
{
    if MODE == 0 {
        row(b, x + 1)
    } else if MODE == 1 {
        column(b, y + 1)
    } else if MODE == 2 {
        flat
    } else if MODE == 3 {
        diagonal_down_left(b, x, y)
    } else if MODE == 4 {
        diagonal_down_right(b, x, y)
    } else if MODE == 5 {
        vertical_right(b, x, y)
    } else if MODE == 6 {
        horizontal_down(b, x, y)
    } else if MODE == 7 {
        vertical_left(b, x, y)
    } else {
        horizontal_up(b, x, y)
    }
}

/// The block of a mode.
#[inline(always)]
fn fill<const MODE: u8>(b: &[u8; 13], flat: u8) -> [u8; 16]
    ensures { HasSamples 4 result (directed (mode4_of MODE) flat (from_border b.now)) }
{
    let mut out = [0; 16];
    for y in 0..4 {
        for x in 0..4 {
            out[4 * y + x] = sample::<MODE>(b, flat, x, y);
        }
    }
    out
}

/// The prediction of a 4x4 block, row by row (8.3.1.2), where there are the sides that the mode needs. Where those above and to the
/// right are missing, the last sample above stands for them. Touches 13 samples beside the block and 16 in it.
pub fn predict4(mode: Intra4x4PredMode, neighbours: &Neighbours4) -> [u8; 16]
    ensures { IsTrue (is_possible4 mode (sides4 neighbours.now)) → HasSamples 4 result (predicted4 mode (sides4 neighbours.now) (around4 neighbours.now)) }
{
    let b = border(neighbours);
    match mode {
        Intra4x4PredMode::Vertical => fill::<0>(&b, 0),
        Intra4x4PredMode::Horizontal => fill::<1>(&b, 0),
        Intra4x4PredMode::Dc => fill::<2>(&b, mean_of_sides(neighbours)),
        Intra4x4PredMode::DiagonalDownLeft => fill::<3>(&b, 0),
        Intra4x4PredMode::DiagonalDownRight => fill::<4>(&b, 0),
        Intra4x4PredMode::VerticalRight => fill::<5>(&b, 0),
        Intra4x4PredMode::HorizontalDown => fill::<6>(&b, 0),
        Intra4x4PredMode::VerticalLeft => fill::<7>(&b, 0),
        Intra4x4PredMode::HorizontalUp => fill::<8>(&b, 0),
    }
}
