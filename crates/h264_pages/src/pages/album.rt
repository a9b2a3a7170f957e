//! Small pictures of frames, as files of BMP.
#![tactic(auto)]

use h264_dpb::Rectangle;
use h264_plane::{Component, Frame};
use std::alloc::Global;

/// The widest picture that is kept.
const WIDEST: usize = 240;

/// How many of the first frames are kept, and how many of the last.
const KEPT: usize = 4;

/// A small picture of a frame, as a file of BMP.
#[derive(Drop)]
pub struct Thumbnail {
    /// The number of the frame in the order of output, from 0.
    pub index: u64,
    /// Columns.
    pub width: usize,
    /// Rows.
    pub height: usize,
    pub bytes: Vec<u8>,
}

/// Pictures of the first frames and of the last.
#[derive(Drop)]
pub struct Album {
    alloc: Global,
    first: Vec<Thumbnail>,
    last: Vec<Thumbnail>,
    frames: u64,
    is_short: bool,
}

/// A sample of a component, by column and row of the plane; 0 outside.
fn sample_at(frame: &Frame, c: Component, x: usize, y: usize) -> u8 {
    let plane = frame.plane(c);
    if y >= plane.height() {
        return 0;
    }
    plane.row(y).get(x).copied().unwrap_or(0)
}

/// A number within a byte.
fn byte_of(value: i32) -> u8 {
    match u8::try_from(value.clamp(0, 255)) {
        Ok(byte) => byte,
        Err(_) => 0,
    }
}

/// Blue, green and red of a sample in the colours of BT.601, with 16 as black and 235 as white.
fn colour_of(y: u8, cb: u8, cr: u8) -> [u8; 3] {
    let luma = (i32::from(y) - 16) * 298;
    let blue = i32::from(cb) - 128;
    let red = i32::from(cr) - 128;
    [
        byte_of((luma + 516 * blue) / 256),
        byte_of(luma.saturating_sub(100 * blue).saturating_sub(208 * red) / 256),
        byte_of((luma + 409 * red) / 256),
    ]
}

/// The colour of a frame at a luma place.
fn colour_at(frame: &Frame, x: usize, y: usize) -> [u8; 3] {
    colour_of(
        sample_at(frame, Component::Y, x, y),
        sample_at(frame, Component::Cb, x / 2, y / 2),
        sample_at(frame, Component::Cr, x / 2, y / 2),
    )
}

/// Adds a number of four bytes, the lowest first; 0 for a greater one. Whether there was memory for it.
fn put_u32(bytes: &mut Vec<u8>, value: usize) -> bool {
    let low = match u32::try_from(value) {
        Ok(low) => low,
        Err(_) => 0,
    };
    let mut done = true;
    for byte in low.to_le_bytes() {
        done = bytes.push(byte).is_ok() && done;
    }
    done
}

/// The bytes of the head of a BMP.
const HEAD: usize = 54;

/// The bytes of its second part, BITMAPINFOHEADER.
const INFO: usize = 40;

/// Adds the head of a BMP of 24 bits a place, whose samples take `size` bytes. Whether there was memory for it.
fn put_head(bytes: &mut Vec<u8>, width: usize, height: usize, size: usize) -> bool {
    let mut done = bytes.extend_from_slice(b"BM").is_ok();
    done = put_u32(bytes, size.saturating_add(HEAD)) && done;
    done = put_u32(bytes, 0) && done;
    done = put_u32(bytes, HEAD) && done;
    done = put_u32(bytes, INFO) && done;
    done = put_u32(bytes, width) && done;
    done = put_u32(bytes, height) && done;
    done = bytes.extend_from_slice(&[1, 0, 24, 0]).is_ok() && done;
    for _ in 0..6 {
        done = put_u32(bytes, 0) && done;
    }
    done
}

/// How a frame is made smaller: one sample of so many in each direction, from a place on.
#[derive(Clone, Copy)]
struct Grid {
    step: usize,
    left: usize,
    top: usize,
    width: usize,
    height: usize,
}

/// The grid of what is shown of a frame.
fn grid_of(frame: &Frame, rectangle: Rectangle) -> Grid {
    let left = rectangle.left.saturating_mul(2);
    let top = rectangle.top.saturating_mul(2);
    let right = rectangle.right.saturating_mul(2);
    let bottom = rectangle.bottom.saturating_mul(2);
    let width = frame.width().saturating_sub(left).saturating_sub(right);
    let height = frame.height().saturating_sub(top).saturating_sub(bottom);
    let step = (width / WIDEST).saturating_add(1);
    Grid {
        step,
        left,
        top,
        width: width / step,
        height: height / step,
    }
}

/// Adds a row of a BMP, which is filled to four bytes. Whether there was memory for it.
fn put_row(bytes: &mut Vec<u8>, frame: &Frame, grid: Grid, row: usize) -> bool {
    let mut done = true;
    let y = grid.top.saturating_add(row.saturating_mul(grid.step));
    for column in 0..grid.width {
        let x = grid.left.saturating_add(column.saturating_mul(grid.step));
        done = bytes.extend_from_slice(&colour_at(frame, x, y)).is_ok() && done;
    }
    for _ in 0..grid.width % 4 {
        done = bytes.push(0).is_ok() && done;
    }
    done
}

/// The BMP of a frame; none where memory is wanting.
fn bitmap_of(alloc: Global, frame: &Frame, grid: Grid) -> Option<Vec<u8>> {
    let mut bytes = Vec::new(alloc);
    let row = grid.width.saturating_mul(3).saturating_add(grid.width % 4);
    let mut done = put_head(
        &mut bytes,
        grid.width,
        grid.height,
        row.saturating_mul(grid.height),
    );
    for k in 0..grid.height {
        done = put_row(&mut bytes, frame, grid, grid.height - 1 - k) && done;
    }
    if done { Some(bytes) } else { None }
}

impl Album {
    /// An album of no pictures.
    pub fn new(alloc: Global) -> Album {
        Album {
            alloc,
            first: Vec::new(alloc),
            last: Vec::new(alloc),
            frames: 0,
            is_short: false,
        }
    }

    /// Whether memory was wanting for a picture.
    pub fn is_short(&self) -> bool {
        self.is_short
    }

    /// The pictures of the first frames.
    pub fn first(&self) -> &[Thumbnail] {
        self.first.as_slice()
    }

    /// The pictures of the last frames that are not among the first.
    pub fn last(&self) -> &[Thumbnail] {
        self.last.as_slice()
    }

    /// Notes a frame that is output.
    pub fn take(&mut self, frame: &Frame, rectangle: Rectangle) {
        let index = self.frames;
        self.frames = self.frames.saturating_add(1);
        if self.is_short {
            return;
        }
        let grid = grid_of(frame, rectangle);
        let Some(bytes) = bitmap_of(self.alloc, frame, grid) else {
            self.is_short = true;
            return;
        };
        let thumbnail = Thumbnail {
            index,
            width: grid.width,
            height: grid.height,
            bytes,
        };
        self.keep(thumbnail);
    }

    /// Keeps a picture among the first ones, or in the place of the oldest of the last ones.
    fn keep(&mut self, thumbnail: Thumbnail) {
        if self.first.len() < KEPT {
            self.is_short = self.first.push(thumbnail).is_err();
            return;
        }
        if self.last.len() >= KEPT {
            let _ = self.last.remove(0);
        }
        self.is_short = self.last.push(thumbnail).is_err();
    }
}
