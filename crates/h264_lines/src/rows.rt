//! What is shown of a frame in parts: its three planes where all their columns are shown, else its rows, those of Y, then of Cb, then of Cr.
#![tactic(auto)]

ghost use Rattle.std.specs.Prelude.{◌≡◌, ◌+◌, ◌-◌, ◌*◌, ◌/◌, ◌<◌, ◌≤◌, IsTrue, length, take, drop};
ghost use Rattle.h264_plane.specs.Frames.{plane_of, is_chroma};
ghost use Rattle.h264_plane.specs.Samples.{at};
ghost use Rattle.h264_plane.specs.Rows.{row_of, rows_of, samples_of};
ghost use Rattle.h264_dpb.specs.Shown.{fits, width_in, height_in, cropped};
ghost use Rattle.h264_lines.specs.Rows.{row_count, row_at, shows_all_columns, plane_at, part_count, part_at};

use h264_dpb::Rectangle;
use h264_plane::{Component, Frame, MAX_SIDE, Plane};

/// How many planes a frame has.
const PLANES: usize = 3;

/// Luma samples in a row of what is shown.
pub fn width(frame: &Frame, rectangle: Rectangle) -> usize
    requires { IsTrue (fits rectangle frame.now) }
    ensures value { result ≡ width_in rectangle frame.now }
    ensures inside { 2 * rectangle.left + result ≤ frame.now.y.width }
    ensures small { frame.now.y.width ≤ MAX_SIDE }
{
    frame.width() - 2 * (rectangle.left + rectangle.right)
}

/// Luma samples in a column of what is shown.
pub fn height(frame: &Frame, rectangle: Rectangle) -> usize
    requires { IsTrue (fits rectangle frame.now) }
    ensures value { result ≡ height_in rectangle frame.now }
    ensures inside { 2 * rectangle.top + result ≤ frame.now.y.height }
    ensures small { frame.now.y.height ≤ MAX_SIDE }
{
    frame.height() - 2 * (rectangle.top + rectangle.bottom)
}

/// How many rows the three planes have of what is shown.
fn row_count(frame: &Frame, rectangle: Rectangle) -> usize
    requires { IsTrue (fits rectangle frame.now) }
    ensures { result ≡ row_count (height_in rectangle frame.now) }
{
    let height = height(frame, rectangle);
    height + height / 2 + height / 2
}

/// So many samples of a row of a plane, from column `left` on.
fn part_of_row(frame: &Frame, c: Component, left: usize, width: usize, y: usize) -> &[u8]
    requires row { y < (plane_of c frame.now).height }
    requires columns { left + width ≤ (plane_of c frame.now).width }
    ensures { result.now ≡ row_of width (λ x. samples_of frame.now c (left + x) y) }
{
    &frame.row(c, y)[left..left + width]
}

/// A row of a chroma plane of what is shown.
fn chroma_row(frame: &Frame, rectangle: Rectangle, c: Component, y: usize) -> &[u8]
    requires fits { IsTrue (fits rectangle frame.now) }
    requires chroma { IsTrue (is_chroma c) }
    requires row { y < height_in rectangle frame.now / 2 }
    ensures { result.now ≡ row_of (width_in rectangle frame.now / 2) (λ x. cropped rectangle frame.now c x y) }
{
    let width = width(frame, rectangle) / 2;
    let _height = height(frame, rectangle);
    part_of_row(frame, c, rectangle.left, width, rectangle.top + y)
}

/// Row `k` of what is shown, counted over the planes.
fn row_at(frame: &Frame, rectangle: Rectangle, k: usize) -> &[u8]
    requires fits { IsTrue (fits rectangle frame.now) }
    requires row { k < row_count (height_in rectangle frame.now) }
    ensures { result.now ≡ row_at (width_in rectangle frame.now) (height_in rectangle frame.now) (cropped rectangle frame.now) k }
{
    let height = height(frame, rectangle);
    if k < height {
        let width = width(frame, rectangle);
        return part_of_row(
            frame,
            Component::Y,
            2 * rectangle.left,
            width,
            2 * rectangle.top + k,
        );
    }
    if k < height + height / 2 {
        return chroma_row(frame, rectangle, Component::Cb, k - height);
    }
    chroma_row(frame, rectangle, Component::Cr, k - height - height / 2)
}

/// Whether all columns of each plane are shown.
fn shows_all_columns(rectangle: Rectangle) -> bool
    ensures { result ≡ shows_all_columns rectangle }
{
    rectangle.left == 0 && rectangle.right == 0
}

/// So many samples, from a place on.
fn run_of(samples: &[u8], start: usize, n: usize) -> &[u8]
    requires { start + n ≤ length samples.now }
    ensures { result.now ≡ take n (drop start samples.now) }
{
    &samples[start..start + n]
}

/// So many rows of a plane, from row `top` on. Touches no sample.
fn rows_of_plane(plane: &Plane, top: usize, n: usize) -> &[u8]
    requires { top + n ≤ plane.now.height }
    ensures { result.now ≡ rows_of plane.now.width n (λ x y. at plane.now x (top + y)) }
{
    let width = plane.width();
    let _height = plane.height();
    run_of(plane.samples(), top * width, n * width)
}

/// What is shown of a plane, where all its columns are.
fn plane_at(frame: &Frame, rectangle: Rectangle, k: usize) -> &[u8]
    requires fits { IsTrue (fits rectangle frame.now) }
    requires all { IsTrue (shows_all_columns rectangle) }
    requires plane { k < PLANES }
    ensures { result.now ≡ plane_at (width_in rectangle frame.now) (height_in rectangle frame.now) (cropped rectangle frame.now) k }
{
    let height = height(frame, rectangle);
    match k {
        0 => rows_of_plane(&frame.y, 2 * rectangle.top, height),
        1 => rows_of_plane(&frame.cb, rectangle.top, height / 2),
        _ => rows_of_plane(&frame.cr, rectangle.top, height / 2),
    }
}

/// In how many parts the bytes of what is shown come: its planes, or its rows.
pub fn part_count(frame: &Frame, rectangle: Rectangle) -> usize
    requires { IsTrue (fits rectangle frame.now) }
    ensures { result ≡ part_count (shows_all_columns rectangle) (height_in rectangle frame.now) }
{
    if shows_all_columns(rectangle) {
        PLANES
    } else {
        row_count(frame, rectangle)
    }
}

/// Part `k` of what is shown.
pub fn part_at(frame: &Frame, rectangle: Rectangle, k: usize) -> &[u8]
    requires fits { IsTrue (fits rectangle frame.now) }
    requires part { k < part_count (shows_all_columns rectangle) (height_in rectangle frame.now) }
    ensures { result.now ≡ part_at (shows_all_columns rectangle) (width_in rectangle frame.now) (height_in rectangle frame.now)
        (cropped rectangle frame.now) k }
{
    if shows_all_columns(rectangle) {
        plane_at(frame, rectangle, k)
    } else {
        row_at(frame, rectangle, k)
    }
}
