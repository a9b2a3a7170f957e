ghost use Rattle.std.specs.Prelude.{◌≡◌, ℕ, ◌+◌, ◌*◌, ◌<◌, ◌≤◌, length, slice_index, IfOk};
ghost use Rattle.h264_plane.specs.Samples.{Samples, at, no_samples, IsSized, IsBlank, IsSet, IsPut, with_run, with_block};
ghost use Rattle.h264_plane.specs.Samples.{ShowsSamples, look, size_along, size_across, rows_of};

use std::alloc::{AllocError, Global};
use std::marker::Model;
use std::simd::prelude::*;

/// The most samples that a row or a column may have.
pub const MAX_SIDE: usize = 16384;

/// Samples of 8 bits by column and row. (0, 0) is the upper left one.
#[derive(Drop)]
pub struct Plane {
    width: usize,
    height: usize,
    samples: Vec<u8>,
}

impl Model for Plane {
    ghost use Rattle.std.specs.Prelude.{vec_len};
    ghost use Rattle.h264_plane.specs.Samples.{Samples, IsKept};

    ghost Value = { Samples };

    ghost view = { λ p. record { width = p.width; height = p.height; list = p.samples.items } };

    ghost invariant = { λ p. IsKept p.width p.height (vec_len p.samples) };
}

/// Writes a row of `W` samples over others. Four, eight and sixteen are stored as one vector, which the compiler does not make of each copy.
#[inline(always)]
pub fn put_row<const W: usize>(out: &mut [u8], row: &[u8])
    requires out { length out.old ≡ W }
    requires row { length row.now ≡ W }
    ensures { out.new ≡ row.now }
{
    if W == 16 {
        u8x16::from_slice(row).copy_to_slice(out);
    } else if W == 8 {
        u8x8::from_slice(row).copy_to_slice(out);
    } else if W == 4 {
        u8x4::from_slice(row).copy_to_slice(out);
    } else {
        out.copy_from_slice(row);
    }
}

/// Writes a block of `W` columns and `H` rows, row by row, into rows of `width` samples: its upper left sample goes to column `x` of row `y`. Goes from
/// row to row by an addition.
#[inline(always)]
pub fn put_rows<const W: usize, const H: usize>(
    samples: &mut [u8],
    width: usize,
    x: usize,
    y: usize,
    block: &[u8],
)
    requires whole { length block.now ≡ W * H }
    requires columns { x + W ≤ width }
    requires rows { (y + H) * width ≤ length samples.old }
    requires small { (width ≤ MAX_SIDE) × (y + H ≤ MAX_SIDE) }
    ensures { (height : ℕ) → length samples.old ≡ height * width → y + H ≤ height → ShowsSamples (rows_of width height samples.old)
        (rows_of width height samples.new) (with_block W H x y block.now (at (rows_of width height samples.old))) }
{
    let mut start = y * width + x;
    for n in 0..H {
        put_row::<W>(&mut samples[start..start + W], &block[W * n..W * n + W]);
        start += width;
    }
}

impl Plane {
    /// A plane of zeros. The only error is want of memory. Touches each sample once.
    pub fn new(alloc: Global, width: usize, height: usize) -> Result<Plane, AllocError>
        requires wide { width ≤ MAX_SIDE }
        requires tall { height ≤ MAX_SIDE }
        ensures size { IfOk result (λ p. IsSized p width height) }
        ensures blank { IfOk result IsBlank }
    {
        let samples = vec![in alloc; 0; height * width]?;
        Ok(Plane {
            width,
            height,
            samples,
        })
    }

    /// A plane of no samples, which takes no memory.
    pub fn none(alloc: Global) -> Plane
        ensures { result ≡ no_samples }
    {
        Plane {
            width: 0,
            height: 0,
            samples: Vec::new(alloc),
        }
    }

    /// Samples in a row.
    pub fn width(&self) -> usize
        ensures value { result ≡ self.now.width }
        ensures bound { result ≤ MAX_SIDE }
    {
        self.width
    }

    /// Samples in a column.
    pub fn height(&self) -> usize
        ensures value { result ≡ self.now.height }
        ensures bound { result ≤ MAX_SIDE }
    {
        self.height
    }

    /// All samples, row by row. Touches none.
    #[inline(always)]
    pub fn samples(&self) -> &[u8]
        ensures same { result.now ≡ self.now.list }
        ensures whole { length result.now ≡ self.now.height * self.now.width }
    {
        self.samples.as_slice()
    }

    /// The sample at column `x` of row `y`.
    #[inline(always)]
    pub fn get(&self, x: usize, y: usize) -> u8
        requires column { x < self.now.width }
        requires row { y < self.now.height }
        ensures { result ≡ at self.now x y }
    {
        self.samples[y * self.width + x]
    }

    /// Writes one sample, and no other.
    #[inline(always)]
    pub fn set(&mut self, x: usize, y: usize, sample: u8)
        requires column { x < self.old.width }
        requires row { y < self.old.height }
        ensures { IsSet self.old self.new x y sample }
    {
        let place = y * self.width + x;
        self.samples[place] = sample;
    }

    /// Row `y`, left to right. Touches no sample.
    #[inline(always)]
    pub fn row(&self, y: usize) -> &[u8]
        requires { y < self.now.height }
        ensures whole { length result.now ≡ self.now.width }
        ensures each { (x : ℕ) → x < self.now.width → slice_index result.now x ≡ at self.now x y }
    {
        let start = y * self.width;
        &self.samples.as_slice()[start..start + self.width]
    }

    /// The sample at these places along and across a vertical or a horizontal edge (8.7).
    #[inline(always)]
    pub fn look<const VERTICAL: bool>(&self, along: usize, across: usize) -> u8
        requires along { along < size_along VERTICAL self.now }
        requires across { across < size_across VERTICAL self.now }
        ensures { result ≡ look VERTICAL self.now along across }
    {
        if VERTICAL {
            self.get(across, along)
        } else {
            self.get(along, across)
        }
    }

    /// Writes the sample at these places along and across an edge, and no other.
    #[inline(always)]
    pub fn put<const VERTICAL: bool>(&mut self, along: usize, across: usize, sample: u8)
        requires along { along < size_along VERTICAL self.old }
        requires across { across < size_across VERTICAL self.old }
        ensures { IsPut VERTICAL self.old self.new along across sample }
    {
        if VERTICAL {
            self.set(across, along, sample);
        } else {
            self.set(along, across, sample);
        }
    }

    /// Writes samples side by side in row `y`, the first at column `x`, and no other. Touches each sample of the run once.
    #[inline(always)]
    pub fn put_run(&mut self, x: usize, y: usize, run: &[u8])
        requires columns { x + length run.now ≤ self.old.width }
        requires row { y < self.old.height }
        ensures { ShowsSamples self.old self.new (with_run x y run.now (at self.old)) }
    {
        let start = y * self.width + x;
        let n = run.len();
        let samples = self.samples.as_mut_slice();
        samples[start..start + n].copy_from_slice(run);
    }

    /// Writes a block of `W` columns and `H` rows, row by row, whose upper left sample goes to column `x` of row `y`,
    /// and no other sample. Touches each sample of the block once.
    #[inline(always)]
    pub fn put_block<const W: usize, const H: usize>(&mut self, x: usize, y: usize, block: &[u8])
        requires whole { length block.now ≡ W * H }
        requires columns { x + W ≤ self.old.width }
        requires rows { y + H ≤ self.old.height }
        ensures { ShowsSamples self.old self.new (with_block W H x y block.now (at self.old)) }
    {
        let width = self.width;
        put_rows::<W, H>(self.samples.as_mut_slice(), width, x, y, block);
    }
}
