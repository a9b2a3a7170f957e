//! A frame as it is shown, and where its samples stand.
#![tactic(auto)]

ghost use Rattle.std.specs.Prelude.{◌≡◌, ◌*◌, ◌+◌, ◌/◌, ◌<◌, ◌^◌, max, IsTrue};
ghost use Rattle.h264_dpb.specs.Shown.{fits, width_in, height_in, in_plane};
ghost use Rattle.h264_compare.specs.Places.{luma, chroma, plane_at, start_of, row_length, macroblock_size, macroblock_at, placed, place_at};

use h264_dpb::Rectangle;
use h264_lines::rows::{height, width};
use h264_plane::{Component, Frame};

/// Luma samples in a row of a macroblock.
const MACROBLOCK: usize = 16;

/// A frame that is compared: its number in the order of output, from 0, and what is shown of it.
#[derive(Clone, Copy, Debug, PartialEq, Eq)]
pub struct ShownFrame {
    pub number: u64,
    /// Luma samples in a row of what is shown.
    pub width: u16,
    /// Luma samples in a column of what is shown.
    pub height: u16,
    /// Chroma samples to the left of what is shown.
    pub left: u16,
    /// Chroma samples above what is shown.
    pub top: u16,
    /// Macroblocks in a row of the frame (PicWidthInMbs).
    pub columns: u16,
}

/// Where a sample stands in what is shown of its frame.
#[derive(Clone, Copy, Debug, PartialEq, Eq)]
pub struct Place {
    pub plane: Component,
    pub column: u64,
    pub row: u64,
    /// The address of its macroblock (6.4.1).
    pub macroblock: u64,
}

/// What is shown of a frame.
pub fn shown_frame(number: u64, frame: &Frame, rectangle: Rectangle) -> ShownFrame
    requires { IsTrue (fits rectangle frame.now) }
    ensures number { result.number ≡ number }
    ensures width { result.width ≡ width_in rectangle frame.now }
    ensures height { result.height ≡ height_in rectangle frame.now }
    ensures left { result.left ≡ rectangle.left }
    ensures top { result.top ≡ rectangle.top }
    ensures columns { result.columns ≡ frame.now.y.width / MACROBLOCK }
{
    let width = width(frame, rectangle);
    let height = height(frame, rectangle);
    ShownFrame {
        number,
        width: width as u16,
        height: height as u16,
        left: rectangle.left as u16,
        top: rectangle.top as u16,
        columns: (frame.width() / MACROBLOCK) as u16,
    }
}

/// Samples in a row of a macroblock.
fn macroblock_size(plane: Component) -> u64
    ensures { result ≡ macroblock_size plane }
{
    match plane {
        Component::Y => 16,
        Component::Cb | Component::Cr => 8,
    }
}

/// So many chroma samples, as samples of a plane.
fn in_plane(plane: Component, samples: u16) -> u64
    ensures { result ≡ in_plane plane samples }
{
    match plane {
        Component::Y => 2 * u64::from(samples),
        Component::Cb | Component::Cr => u64::from(samples),
    }
}

impl ShownFrame {
    /// How many luma samples are shown.
    pub fn luma(self) -> u64
        ensures value { result ≡ luma self }
        ensures small { result < 2 ^ 32 }
    {
        u64::from(self.width) * u64::from(self.height)
    }

    /// How many samples are shown of each chroma plane.
    fn chroma(self) -> u64
        ensures value { result ≡ chroma self }
        ensures small { result < 2 ^ 32 }
    {
        u64::from(self.width / 2) * u64::from(self.height / 2)
    }

    /// The plane of a byte of its samples.
    pub fn plane_at(self, byte: u64) -> Component
        ensures { result ≡ plane_at self byte }
    {
        let luma = self.luma();
        if byte < luma {
            return Component::Y;
        }
        if byte < luma + self.chroma() {
            return Component::Cb;
        }
        Component::Cr
    }

    /// The first byte of a plane.
    fn start_of(self, plane: Component) -> u64
        ensures { result ≡ start_of self plane }
    {
        match plane {
            Component::Y => 0,
            Component::Cb => self.luma(),
            Component::Cr => self.luma() + self.chroma(),
        }
    }

    /// Samples in a row of a plane, at least 1.
    fn row_length(self, plane: Component) -> u64
        ensures value { result ≡ row_length self plane }
        ensures some { 0 < result }
    {
        match plane {
            Component::Y => u64::from(self.width).max(1),
            Component::Cb | Component::Cr => u64::from(self.width / 2).max(1),
        }
    }

    /// The address of the macroblock of a sample.
    fn macroblock_at(self, plane: Component, column: u64, row: u64) -> u64
        requires column { column < 2 ^ 40 }
        requires row { row < 2 ^ 40 }
        ensures { result ≡ macroblock_at self plane column row }
    {
        let size = macroblock_size(plane);
        let across = (in_plane(plane, self.left) + column) / size;
        let down = (in_plane(plane, self.top) + row) / size;
        down * u64::from(self.columns) + across
    }

    /// The place of a byte of its samples.
    pub fn place_at(self, byte: u64) -> Place
        requires { byte < 2 ^ 40 }
        ensures { result ≡ place_at self byte }
    {
        let plane = self.plane_at(byte);
        let within = byte - self.start_of(plane);
        let length = self.row_length(plane);
        let (column, row) = (within % length, within / length);
        Place {
            plane,
            column,
            row,
            macroblock: self.macroblock_at(plane, column, row),
        }
    }
}
