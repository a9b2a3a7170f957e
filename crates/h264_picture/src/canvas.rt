//! The memory of the samples of a sequence's pictures.
#![tactic(auto)]

ghost use Rattle.std.specs.Prelude.{◌<◌, ◌≤◌, IfOk};
ghost use Rattle.h264_picture.specs.Sound.{IsCanvas};

use crate::frames::Frames;
use h264_recon::Lines;
use std::alloc::{AllocError, Global};

/// The frames of a sequence, and the lines of unfiltered samples from which the next macroblock is constructed.
#[derive(Drop)]
pub struct Canvas {
    pub(crate) frames: Frames,
    pub(crate) lines: Lines,
}

impl Canvas {
    /// Takes all memory of the samples of pictures that have so many macroblocks in a row and in a column.
    pub(crate) fn new(
        alloc: Global,
        places: usize,
        across: usize,
        down: usize,
    ) -> Result<Canvas, AllocError>
        requires places { (1 < places) × (places ≤ 17) }
        requires wide { (0 < across) × (across ≤ 543) }
        requires tall { (0 < down) × (down ≤ 543) }
        ensures { IfOk result (IsCanvas across down places) }
    {
        let lines = Lines::new(alloc, across)?;
        let frames = Frames::new(alloc, places, 16 * across, 16 * down)?;
        Ok(Canvas { frames, lines })
    }
}
