ghost use Rattle.std.specs.Prelude.{◌≡◌, ℕ, ◌+◌, ◌*◌, ◌<◌, ◌≤◌, length, slice_index, vec_len, IfOk};
ghost use Rattle.h264_recon.specs.Lines.{IsSaved, right_column as right_column_of, store_of};
ghost use Rattle.h264_plane.specs.declared.frame.Component.TheVariants.{Y, Cb, Cr};

use crate::run::put_run;
use std::alloc::{AllocError, Global};

/// What is kept of a plane's macroblocks before this one, as they were constructed.
#[derive(Drop)]
pub struct Store {
    /// Bottom rows: those of this row of macroblocks up to the one before, and from there on those of the row above.
    above: Vec<u8>,
    /// The right column of the macroblock before, of chroma in the first 8 places, if intra prediction has asked for it.
    pub left: [u8; 16],
    /// The sample above that column.
    pub corner: u8,
}

/// The right column of a macroblock of `N` columns and rows.
fn right_column<const N: usize>(own: &[u8]) -> [u8; 16]
    requires size { N ≤ 16 }
    requires whole { length own.now ≡ N * N }
    ensures { result ≡ right_column_of N own.now }
{
    let mut column = [0; 16];
    for k in 0..N {
        column[k] = own[N * k + (N - 1)];
    }
    column
}

impl Store {
    /// A store of this many columns.
    pub fn new(alloc: Global, columns: usize) -> Result<Store, AllocError>
        ensures { IfOk result (λ s. vec_len s.above ≡ columns) }
    {
        Ok(Store {
            above: vec![in alloc; 0; columns]?,
            left: [0; 16],
            corner: 0,
        })
    }

    /// The bottom rows, column by column.
    #[inline(always)]
    pub fn bottom_rows(&self) -> &[u8]
        ensures value { result.now ≡ self.now.above.items }
        ensures len { length result.now ≡ vec_len self.now.above }
    {
        self.above.as_slice()
    }

    /// Keeps the border of the luma macroblock at this column.
    pub fn save_luma(&mut self, column: usize, own: &[u8; 256])
        requires columns { 16 * column + 16 ≤ vec_len self.old.above }
        requires small { column < 1024 }
        ensures { IsSaved 16 column self.old self.new own.now }
    {
        let start = 16 * column;
        self.corner = self.above[start + 15];
        put_run::<16>(self.above.as_mut_slice(), start, &own[240..256]);
    }

    /// Keeps the border of the chroma macroblock at this column.
    pub fn save_chroma(&mut self, column: usize, own: &[u8; 64])
        requires columns { 8 * column + 8 ≤ vec_len self.old.above }
        requires small { column < 1024 }
        ensures { IsSaved 8 column self.old self.new own.now }
    {
        let start = 8 * column;
        self.corner = self.above[start + 7];
        put_run::<8>(self.above.as_mut_slice(), start, &own[56..64]);
    }
}

/// The samples of a macroblock as they were constructed, those of each plane row by row.
#[derive(Clone, Copy)]
pub struct Samples {
    pub y: [u8; 256],
    pub cb: [u8; 64],
    pub cr: [u8; 64],
}

/// What is kept of all planes.
#[derive(Drop)]
pub struct Lines {
    pub y: Store,
    pub cb: Store,
    pub cr: Store,
    /// The samples of the macroblock before this one. The next one is constructed in their place, so that none clears its own.
    pub last: Samples,
}

impl Lines {
    /// Lines for pictures of this many macroblocks to a row. The only error is want of memory.
    pub fn new(alloc: Global, width: usize) -> Result<Lines, AllocError>
        requires small { width ≤ 1024 }
        ensures y { IfOk result (λ l. vec_len l.y.above ≡ 16 * width) }
        ensures cb { IfOk result (λ l. vec_len l.cb.above ≡ 8 * width) }
        ensures cr { IfOk result (λ l. vec_len l.cr.above ≡ 8 * width) }
    {
        Ok(Lines {
            y: Store::new(alloc, 16 * width)?,
            cb: Store::new(alloc, 8 * width)?,
            cr: Store::new(alloc, 8 * width)?,
            last: Samples {
                y: [0; 256],
                cb: [0; 64],
                cr: [0; 64],
            },
        })
    }

    /// Brings up the right columns of the macroblock before, which intra prediction takes.
    pub fn bring_left(&mut self)
        ensures y { self.new.y ≡ store_of Y self.old }
        ensures cb { self.new.cb ≡ store_of Cb self.old }
        ensures cr { self.new.cr ≡ store_of Cr self.old }
        ensures last { self.new.last ≡ self.old.last }
    {
        self.y.left = right_column::<16>(&self.last.y);
        self.cb.left = right_column::<8>(&self.last.cb);
        self.cr.left = right_column::<8>(&self.last.cr);
    }
}
