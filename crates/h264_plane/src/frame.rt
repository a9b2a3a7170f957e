ghost use Rattle.std.specs.Prelude.{◌≡◌, ℕ, ◌+◌, ◌*◌, ◌%◌, ◌<◌, ◌≤◌, length, slice_index, IfOk};
ghost use Rattle.std.specs.Borrow.{sem};
ghost use Rattle.h264_plane.specs.Samples.{at, with_block, IsBlank};
ghost use Rattle.h264_plane.specs.Frames.{plane_of, IsFrame, IsWritten, LendsPlane, no_frame};

use crate::plane::{MAX_SIDE, Plane};
use std::alloc::{AllocError, Global};

/// The three arrays of samples of a picture.
#[derive(Clone, Copy, Debug, PartialEq, Eq)]
pub enum Component {
    Y,
    Cb,
    Cr,
}

/// A picture in 4:2:0: `y` of width times height luma samples, `cb` and `cr` of half its width and half its height.
#[derive(Drop)]
pub struct Frame {
    pub y: Plane,
    pub cb: Plane,
    pub cr: Plane,
}

impl Frame {
    /// A frame of zeros. `width` and `height` are in luma samples. The only error is want of memory. Touches each sample once.
    pub fn new(alloc: Global, width: usize, height: usize) -> Result<Frame, AllocError>
        requires wide { width ≤ MAX_SIDE }
        requires tall { height ≤ MAX_SIDE }
        requires columns { width % 16 ≡ 0 }
        requires rows { height % 16 ≡ 0 }
        ensures size { IfOk result (λ f. IsFrame f width height) }
        ensures blank { IfOk result (λ f. (c : _) → IsBlank (plane_of c f)) }
    {
        Ok(Frame {
            y: Plane::new(alloc, width, height)?,
            cb: Plane::new(alloc, width / 2, height / 2)?,
            cr: Plane::new(alloc, width / 2, height / 2)?,
        })
    }

    /// A frame of no samples, which takes no memory.
    pub fn none(alloc: Global) -> Frame
        ensures { result ≡ no_frame }
    {
        Frame {
            y: Plane::none(alloc),
            cb: Plane::none(alloc),
            cr: Plane::none(alloc),
        }
    }

    /// Luma samples in a row.
    pub fn width(&self) -> usize
        ensures value { result ≡ self.now.y.width }
        ensures bound { result ≤ MAX_SIDE }
    {
        self.y.width()
    }

    /// Luma samples in a column.
    pub fn height(&self) -> usize
        ensures value { result ≡ self.now.y.height }
        ensures bound { result ≤ MAX_SIDE }
    {
        self.y.height()
    }

    /// The plane of a component.
    #[inline(always)]
    pub fn plane(&self, c: Component) -> &Plane
        ensures { result.now ≡ plane_of c self.now }
    {
        match c {
            Component::Y => &self.y,
            Component::Cb => &self.cb,
            Component::Cr => &self.cr,
        }
    }

    /// The plane of a component, to be written. The other two stay as they are.
    #[inline(always)]
    pub fn plane_mut(&mut self, c: Component) -> &mut Plane
        ensures* writes_back { sem 𝓛 (LendsPlane c self.entry result) }
        ensures value { result.now ≡ plane_of c self.old }
    {
        match c {
            Component::Y => &mut self.y,
            Component::Cb => &mut self.cb,
            Component::Cr => &mut self.cr,
        }
    }

    /// Row `y` of a component, left to right. Touches no sample.
    #[inline(always)]
    pub fn row(&self, c: Component, y: usize) -> &[u8]
        requires { y < (plane_of c self.now).height }
        ensures whole { length result.now ≡ (plane_of c self.now).width }
        ensures each { (x : ℕ) → x < (plane_of c self.now).width → slice_index result.now x ≡ at (plane_of c self.now) x y }
    {
        self.plane(c).row(y)
    }

    /// Writes a block of `W` columns and `H` rows of a component, row by row, whose upper left sample goes to column `x`
    /// of row `y`, and no other sample. Touches each sample of the block once.
    #[inline(always)]
    pub fn put_block<const W: usize, const H: usize>(
        &mut self,
        c: Component,
        x: usize,
        y: usize,
        block: &[u8],
    )
        requires whole { length block.now ≡ W * H }
        requires columns { x + W ≤ (plane_of c self.old).width }
        requires rows { y + H ≤ (plane_of c self.old).height }
        ensures { IsWritten c self.old self.new (with_block W H x y block.now (at (plane_of c self.old))) }
    {
        self.plane_mut(c).put_block::<W, H>(x, y, block);
    }
}
