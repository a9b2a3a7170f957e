//! The lines of a comparison, and its object of JSON, without a line end.
#![tactic(auto)]

use crate::given::Lack;
use crate::numbers::{Difference, Numbers};
use crate::opening::Unopened;
use crate::psnr::hundredths;
use h264_plane::Component;
use std::alloc::{AllocError, Global};

/// The name of a plane.
fn plane_name(plane: Component) -> &'static str {
    match plane {
        Component::Y => "Y",
        Component::Cb => "Cb",
        Component::Cr => "Cr",
    }
}

/// The line of the first sample that differs. AllocError: there is no memory for it.
pub fn difference_line(alloc: Global, difference: Difference) -> Result<String, AllocError> {
    let frame = difference.frame;
    let plane = plane_name(difference.place.plane);
    let column = difference.place.column;
    let row = difference.place.row;
    let macroblock = difference.place.macroblock;
    let made = difference.made;
    let given = difference.given;
    format!(in alloc;
        "difference frame {frame} plane {plane} column {column} row {row} mb {macroblock} decoded {made} given {given}"
    )
}

/// The line of how many frames there are and how many differ. AllocError: there is no memory for it.
pub fn count_line(alloc: Global, numbers: &Numbers) -> Result<String, AllocError> {
    let frames = numbers.frames;
    let differing = numbers.differing;
    format!(in alloc; "compared frames {frames} differing {differing}")
}

/// A ratio with two places: inf where no sample differs. AllocError: there is no memory for it.
fn ratio(alloc: Global, samples: u64, squares: u64) -> Result<String, AllocError> {
    let Some(all) = hundredths(samples, squares) else {
        return String::from_str(alloc, "inf");
    };
    let (whole, tens, ones) = (all / 100, all / 10 % 10, all % 10);
    format!(in alloc; "{whole}.{tens}{ones}")
}

/// The ratios of the three planes, and of all samples.
#[derive(Drop)]
struct Ratios {
    y: String,
    cb: String,
    cr: String,
    all: String,
}

/// The ratios of these numbers. AllocError: there is no memory for them.
fn ratios_of(alloc: Global, numbers: &Numbers) -> Result<Ratios, AllocError> {
    let (luma, chroma) = (numbers.luma, numbers.luma / 4);
    let sums = numbers.squares;
    let samples = luma.saturating_add(chroma).saturating_add(chroma);
    let squares = sums.y.saturating_add(sums.cb).saturating_add(sums.cr);
    Ok(Ratios {
        y: ratio(alloc, luma, sums.y)?,
        cb: ratio(alloc, chroma, sums.cb)?,
        cr: ratio(alloc, chroma, sums.cr)?,
        all: ratio(alloc, samples, squares)?,
    })
}

/// The line of the peak signal-to-noise ratios, in decibel. AllocError: there is no memory for it.
pub fn psnr_line(alloc: Global, numbers: &Numbers) -> Result<String, AllocError> {
    let ratios = ratios_of(alloc, numbers)?;
    let (y, cb) = (ratios.y.as_str(), ratios.cb.as_str());
    let (cr, all) = (ratios.cr.as_str(), ratios.all.as_str());
    format!(in alloc; "psnr Y {y} Cb {cb} Cr {cr} all {all}")
}

impl Lack {
    /// What is said of it, after the name of the reconstruction.
    pub fn text(&self) -> &'static str {
        match self {
            Lack::TooShort => "ends before the frames of the stream do",
            Lack::Unread(_) => "can't be read",
            Lack::NoFrameLine => "has no line FRAME where one is wanted",
            Lack::OtherSize => "has another size than the stream",
        }
    }
}

impl Unopened {
    /// What is said of it, after the name of the reconstruction.
    pub fn text(&self) -> &'static str {
        match self {
            Unopened::Unread(_) => "can't be read",
            Unopened::BadHeader => "has a header of YUV4MPEG2 without a width or a height",
            Unopened::OtherChroma => "has other samples than 4:2:0 in 8 bits",
        }
    }
}
