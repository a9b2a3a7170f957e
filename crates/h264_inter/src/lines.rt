ghost use Rattle.std.specs.Prelude.{◌≡◌, ℕ, ◌*◌, ◌<◌, ◌≤◌, length, slice_index};
ghost use Rattle.h264_plane.specs.Samples.{Samples, at};

use h264_plane::{MAX_SIDE, Plane};
use std::marker::Model;

/// What a block is predicted from: the rows of a plane of the reference picture, or of a copy of a part of it, lent. It is handed on by value to what makes a
/// block, so that where its rows stand is known there, whatever is written.
#[derive(Drop)]
pub struct Lines<'a> {
    width: usize,
    height: usize,
    samples: &'a [u8],
}

impl<'a> Model for Lines<'a> {
    ghost use Rattle.std.specs.Prelude.{length};
    ghost use Rattle.h264_plane.specs.Samples.{Samples, IsKept};

    ghost Value = { Samples };

    ghost view = { λ l. record { width = l.width; height = l.height; list = l.samples.now } };

    ghost invariant = { λ l. IsKept l.width l.height (length l.samples.now) };
}

impl<'a> Lines<'a> {
    /// `height` rows of `width` samples.
    #[inline(always)]
    pub fn new(width: usize, height: usize, samples: &'a [u8]) -> Lines<'a>
        requires wide { width ≤ MAX_SIDE }
        requires tall { height ≤ MAX_SIDE }
        requires whole { length samples.now ≡ height * width }
        ensures width { result.width ≡ width }
        ensures height { result.height ≡ height }
        ensures same { result.list ≡ samples.now }
    {
        Lines {
            width,
            height,
            samples,
        }
    }

    /// The rows of a plane.
    #[inline(always)]
    pub fn of(plane: &'a Plane) -> Lines<'a>
        ensures { result ≡ plane.now }
    {
        Lines::new(plane.width(), plane.height(), plane.samples())
    }

    /// Row `y`, left to right.
    #[inline(always)]
    pub fn row(&self, y: usize) -> &[u8]
        requires { y < self.now.height }
        ensures whole { length result.now ≡ self.now.width }
        ensures each { (x : ℕ) → x < self.now.width → slice_index result.now x ≡ at self.now x y }
    {
        let start = y * self.width;
        &self.samples[start..start + self.width]
    }
}
