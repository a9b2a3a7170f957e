//! The contexts of the macroblocks above and to the left (6.4.9, 6.4.12).
#![tactic(auto)]

ghost use Rattle.std.specs.Prelude.{◌≡◌, ℕ, suc, ◌+◌, ◌/◌, ◌%◌, ◌<◌, ◌≤◌, List, [], ◌∷◌, ◌++◌, take, length, vec_len, IfOk, is_some, None};
ghost use Rattle.h264_plane.specs.Blocks.{column_of, row_of};
ghost use Rattle.h264_near.specs.Coded.{CodedMacroblock, total_part, chroma_part, mode_part, motion_part};
ghost use Rattle.h264_near.specs.Intra.{with_totals, with_modes, luma_nc, chroma_nc as chroma_nc_of, predicted_mode, block_samples, macroblock_samples};
ghost use Rattle.h264_near.specs.Place.{around};
ghost use Rattle.h264_near.specs.Motions.{neighbour};
ghost use Rattle.h264_near.specs.Raster.{last_in, last_left};
ghost use Rattle.h264_near.specs.Beside.{IsEdgeOf};

use crate::block::{above_of, column, left_of, number, row};
use crate::context::{Contexts, Edge};
use crate::kept_edges::{put_lower, put_right, put_skipped};
use crate::lookup::{
    chroma_along, derived, lesser_mode, mean, mode_along, motion_along, total_along,
};
use crate::motion::Motion;
use crate::skipped::Skipped;
use h264_intra::{Intra4x4PredMode, Sides};
use std::alloc::{AllocError, Global};

/// The row of contexts above the next macroblock, the column to its left and the corner.
#[derive(Drop)]
pub struct Near {
    above: Vec<Option<Edge>>,
    left: Option<Edge>,
    corner: Option<Edge>,
    column: usize,
    /// The macroblock to the left, where it is skipped.
    skipped: Option<Skipped>,

    ghost within: { column < vec_len above },
    ghost beside: { IsEdgeOf skipped left },
}

impl Near {
    ghost use Rattle.std.specs.Prelude.{Some, replicate, Option};
    ghost use Rattle.h264_near.specs.declared.motion.Motion.{Motion as MotionView};
    ghost use Rattle.h264_near.specs.declared.skipped.Skipped.{Skipped as SkippedView};
    ghost use Rattle.h264_near.specs.Keeps.{Keeps, AreContexts, IsEdge, Lower, Right, skipped_before, width_of};
    ghost use Rattle.h264_near.specs.Skips.{IsSkipped};

    /// The contexts of a picture so many macroblocks wide, of which none is decoded.
    pub fn new(alloc: Global, width: usize) -> Result<Near, AllocError>
        requires some { 0 < width }
        requires small { width ≤ 65536 }
        ensures { IfOk result (λ near. Keeps width [] near) }
    {
        let above = vec![in alloc; None; width]?;
        Ok(Near {
            above,
            left: None,
            corner: None,
            column: 0,
            skipped: None,
        })
    }

    /// How many macroblocks wide the picture is.
    #[inline]
    pub fn width(&self) -> usize
        ensures { result ≡ width_of self.now }
    {
        self.above.len()
    }

    /// The next macroblock is the first of a row: there is none to its left.
    #[inline(always)]
    fn begin_row(&mut self)
        ensures above { self.new.above ≡ self.old.above }
        ensures left { self.new.left ≡ None }
        ensures corner { self.new.corner ≡ None }
        ensures column { self.new.column ≡ 0 }
    {
        self.skipped = None;
        self.left = None;
        self.corner = None;
        self.column = 0;
    }

    /// Forgets the macroblocks so far: the next one is the first of a picture.
    pub fn clear(&mut self)
        ensures { Keeps (width_of self.old) [] self.new }
    {
        self.above.fill(None);
        self.begin_row();
    }

    #[inline(always)]
    fn left_total(&self, slice: u32, totals: &[u8; 16], b: usize) -> Option<u8>
        requires { b < 16 }
        ensures { (width : ℕ) (picture : List CodedMacroblock) → Keeps width picture self.now →
            result ≡ around 4 (total_part slice) width picture (with_totals slice (take b totals.now) []) (column_of b) (suc (row_of b)) }
    {
        match left_of(b) {
            Some(n) => Some(totals[n]),
            None => total_along(&self.left, slice, row(b)),
        }
    }

    #[inline(always)]
    fn upper_total(&self, slice: u32, totals: &[u8; 16], b: usize) -> Option<u8>
        requires { b < 16 }
        ensures { (width : ℕ) (picture : List CodedMacroblock) → Keeps width picture self.now →
            result ≡ around 4 (total_part slice) width picture (with_totals slice (take b totals.now) []) (suc (column_of b)) (row_of b) }
    {
        match above_of(b) {
            Some(n) => Some(totals[n]),
            None => total_along(&self.above[self.column], slice, column(b)),
        }
    }

    /// nC of a luma block, from the totals of the blocks before it in its macroblock and from what stands around (9.2.1).
    #[inline]
    pub fn nc(&self, slice: u32, totals: &[u8; 16], b: usize) -> u8
        requires { b < 16 }
        ensures { (width : ℕ) (picture : List CodedMacroblock) → Keeps width picture self.now → result ≡ luma_nc width picture slice (take b totals.now) }
    {
        let left = self.left_total(slice, totals, b);
        let above = self.upper_total(slice, totals, b);
        mean(left, above)
    }

    #[inline(always)]
    fn left_chroma(&self, slice: u32, totals: &[u8; 8], b: usize) -> Option<u8>
        requires { b < 8 }
        ensures { (width : ℕ) (picture : List CodedMacroblock) → Keeps width picture self.now →
            result ≡ around 2 (chroma_part slice (b / 4)) width picture (with_totals slice [] (take b totals.now)) (b % 2) (suc (b / 2 % 2)) }
    {
        if b % 2 > 0 {
            return Some(totals[b - 1]);
        }
        chroma_along(&self.left, slice, b / 4, b / 2 % 2)
    }

    #[inline(always)]
    fn upper_chroma(&self, slice: u32, totals: &[u8; 8], b: usize) -> Option<u8>
        requires { b < 8 }
        ensures { (width : ℕ) (picture : List CodedMacroblock) → Keeps width picture self.now →
            result ≡ around 2 (chroma_part slice (b / 4)) width picture (with_totals slice [] (take b totals.now)) (suc (b % 2)) (b / 2 % 2) }
    {
        if b / 2 % 2 > 0 {
            return Some(totals[b - 2]);
        }
        chroma_along(&self.above[self.column], slice, b / 4, b % 2)
    }

    /// nC of a chroma AC block, four of Cb and then of Cr, likewise.
    #[inline]
    pub fn chroma_nc(&self, slice: u32, totals: &[u8; 8], b: usize) -> u8
        requires { b < 8 }
        ensures { (width : ℕ) (picture : List CodedMacroblock) → Keeps width picture self.now →
            result ≡ chroma_nc_of width picture slice (take b totals.now) }
    {
        let left = self.left_chroma(slice, totals, b);
        let above = self.upper_chroma(slice, totals, b);
        mean(left, above)
    }

    #[inline(always)]
    fn left_mode(
        &self,
        slice: u32,
        constrained: bool,
        modes: &[Intra4x4PredMode; 16],
        b: usize,
    ) -> Option<Intra4x4PredMode>
        requires { b < 16 }
        ensures { (width : ℕ) (picture : List CodedMacroblock) → Keeps width picture self.now →
            result ≡ around 4 (mode_part slice constrained) width picture (with_modes slice (take b modes.now)) (column_of b) (suc (row_of b)) }
    {
        match left_of(b) {
            Some(n) => Some(modes[n]),
            None => mode_along(&self.left, slice, constrained, row(b)),
        }
    }

    #[inline(always)]
    fn upper_mode(
        &self,
        slice: u32,
        constrained: bool,
        modes: &[Intra4x4PredMode; 16],
        b: usize,
    ) -> Option<Intra4x4PredMode>
        requires { b < 16 }
        ensures { (width : ℕ) (picture : List CodedMacroblock) → Keeps width picture self.now →
            result ≡ around 4 (mode_part slice constrained) width picture (with_modes slice (take b modes.now)) (suc (column_of b)) (row_of b) }
    {
        match above_of(b) {
            Some(n) => Some(modes[n]),
            None => mode_along(&self.above[self.column], slice, constrained, column(b)),
        }
    }

    #[inline(always)]
    fn corner_mode(
        &self,
        slice: u32,
        constrained: bool,
        modes: &[Intra4x4PredMode; 16],
        b: usize,
    ) -> Option<Intra4x4PredMode>
        requires { b < 16 }
        ensures { (width : ℕ) (picture : List CodedMacroblock) → Keeps width picture self.now →
            result ≡ around 4 (mode_part slice constrained) width picture (with_modes slice (take b modes.now)) (column_of b) (row_of b) }
    {
        let x = column(b);
        let y = row(b);
        if x > 0 {
            if y > 0 {
                return Some(modes[number(x - 1, y - 1)]);
            }
            return mode_along(&self.above[self.column], slice, constrained, x - 1);
        }
        if y > 0 {
            return mode_along(&self.left, slice, constrained, y - 1);
        }
        mode_along(&self.corner, slice, constrained, 3)
    }

    /// The predicted mode of a 4x4 block, from the modes of the blocks before it in its macroblock (8.3.1.1).
    /// `constrained` is constrained_intra_pred_flag.
    #[inline]
    pub fn mode(
        &self,
        slice: u32,
        constrained: bool,
        modes: &[Intra4x4PredMode; 16],
        b: usize,
    ) -> Intra4x4PredMode
        requires { b < 16 }
        ensures { (width : ℕ) (picture : List CodedMacroblock) → Keeps width picture self.now →
            result ≡ predicted_mode width picture slice constrained (take b modes.now) }
    {
        let left = self.left_mode(slice, constrained, modes, b);
        let above = self.upper_mode(slice, constrained, modes, b);
        lesser_mode(left, above)
    }

    /// Which samples around a 4x4 block there are to predict from (8.3.1.2).
    #[inline]
    pub fn samples(
        &self,
        slice: u32,
        constrained: bool,
        modes: &[Intra4x4PredMode; 16],
        b: usize,
    ) -> Sides
        requires { b < 16 }
        ensures { (width : ℕ) (picture : List CodedMacroblock) → Keeps width picture self.now →
            result ≡ block_samples width picture slice constrained (take b modes.now) }
    {
        let above = self.upper_mode(slice, constrained, modes, b);
        let left = self.left_mode(slice, constrained, modes, b);
        let corner = self.corner_mode(slice, constrained, modes, b);
        Sides {
            left: left.is_some(),
            above: above.is_some(),
            corner: corner.is_some(),
        }
    }

    /// Which samples around the macroblock there are to predict from (8.3.3, 8.3.4).
    #[inline]
    pub fn macroblock_samples(&self, slice: u32, constrained: bool) -> Sides
        ensures { (width : ℕ) (picture : List CodedMacroblock) → Keeps width picture self.now → result ≡ macroblock_samples width picture slice constrained }
    {
        self.samples(slice, constrained, &[Intra4x4PredMode::Dc; 16], 0)
    }

    /// What stands in the row above: column 0 is the corner, 1 to 4 stand above, 5 to the right of these.
    #[inline(always)]
    fn upper_motion(&self, slice: u32, x: usize) -> Option<Option<Motion>>
        requires { x < 6 }
        ensures { (width : ℕ) (picture : List CodedMacroblock) (current : CodedMacroblock) → Keeps width picture self.now →
            result ≡ around 4 (motion_part slice) width picture current x 0 }
    {
        if x == 0 {
            return motion_along(&self.corner, slice, 3);
        }
        if x < 5 {
            return motion_along(&self.above[self.column], slice, x - 1);
        }
        if self.column + 1 < self.above.len() {
            return motion_along(&self.above[self.column + 1], slice, 0);
        }
        None
    }

    /// What the block at a column and a row of the macroblock that is being decoded is predicted from: 1 to 4 are its own, of
    /// which `motions` has those that are derived; 0 and 5 lie around it. None where there is no such block; Some(None) where it is intra.
    #[inline(always)]
    pub fn neighbour(
        &self,
        slice: u32,
        motions: &[Option<Motion>; 16],
        x: usize,
        y: usize,
    ) -> Option<Option<Motion>>
        requires column { x < 6 }
        requires row { y < 5 }
        ensures { (width : ℕ) (picture : List CodedMacroblock) → Keeps width picture self.now → result ≡ neighbour width picture slice motions.now x y }
    {
        if y == 0 {
            return self.upper_motion(slice, x);
        }
        if x == 0 {
            return motion_along(&self.left, slice, y - 1);
        }
        if x < 5 {
            return derived(motions[number(x - 1, y - 1)]);
        }
        None
    }

    /// Whether the macroblock above and to the right can be used for intra prediction of this one (8.3.1.2).
    #[inline]
    pub fn above_right(&self, slice: u32, constrained: bool) -> bool
        ensures { (width : ℕ) (picture : List CodedMacroblock) → Keeps width picture self.now →
            result ≡ is_some (around 4 (mode_part slice constrained) width picture (with_modes slice []) 5 0) }
    {
        if self.column + 1 < self.above.len() {
            return mode_along(&self.above[self.column + 1], slice, constrained, 0).is_some();
        }
        false
    }

    /// The edge of the macroblock to the left, whatever its slice.
    #[inline]
    pub fn left_edge(&self) -> &Option<Edge>
        ensures { (width : ℕ) (picture : List CodedMacroblock) → Keeps width picture self.now → IsEdge Right result.now (last_left width picture) }
    {
        &self.left
    }

    /// The edge of the macroblock above, whatever its slice.
    #[inline]
    pub fn above_edge(&self) -> &Option<Edge>
        ensures { (width : ℕ) (picture : List CodedMacroblock) → Keeps width picture self.now →
            IsEdge Lower result.now (last_in width picture (length picture % width)) }
    {
        &self.above[self.column]
    }

    /// Goes on after a macroblock.
    pub fn push(&mut self, m: &Contexts)
        ensures { (width : ℕ) (picture : List CodedMacroblock) (coded : CodedMacroblock) → Keeps width picture self.old → AreContexts m.now coded →
            Keeps width (picture ++ coded ∷ []) self.new }
    {
        if self.column + 1 < self.above.len() {
            self.corner = self.above[self.column];
            put_lower(&mut self.above[self.column], m);
            self.skipped = None;
            put_right(&mut self.left, m);
            self.column += 1;
        } else {
            put_lower(&mut self.above[self.column], m);
            self.begin_row();
        }
    }

    /// Goes on after a skipped macroblock.
    #[inline]
    pub fn push_skipped(&mut self, m: &Skipped)
        ensures { (width : ℕ) (picture : List CodedMacroblock) (coded : CodedMacroblock) → Keeps width picture self.old → IsSkipped m.now coded →
            Keeps width (picture ++ coded ∷ []) self.new }
    {
        if self.column + 1 < self.above.len() {
            self.corner = self.above[self.column];
            put_skipped(&mut self.above[self.column], m);
            put_skipped(&mut self.left, m);
            self.skipped = Some(*m);
            self.column += 1;
        } else {
            put_skipped(&mut self.above[self.column], m);
            self.begin_row();
        }
    }

    /// What the macroblock to the left is, where it is skipped.
    #[inline(always)]
    pub fn skipped_before(&self) -> &Option<Skipped>
        ensures { result.now ≡ skipped_before self.now }
    {
        &self.skipped
    }

    /// Goes on after a macroblock that is skipped as the one to the left is, where it is not the last of its row.
    #[inline(always)]
    fn repeat(&mut self)
        ensures keeps { (width : ℕ) (picture : List CodedMacroblock) (s : SkippedView) (coded : CodedMacroblock) → Keeps width picture self.old →
            self.old.skipped ≡ Some s → IsSkipped s coded → length picture % width + 1 < width → Keeps width (picture ++ coded ∷ []) self.new }
        ensures same { self.new.skipped ≡ self.old.skipped }
    {
        if self.column + 1 >= self.above.len() {
            return;
        }
        self.corner = self.above[self.column];
        self.above[self.column] = self.left;
        self.column += 1;
    }

    /// Goes on after so many macroblocks that are skipped as the one to the left is, all in its row and none the last of it.
    #[inline]
    pub fn push_repeated(&mut self, count: u32)
        ensures keeps { (width : ℕ) (picture : List CodedMacroblock) (s : SkippedView) (coded : CodedMacroblock) → Keeps width picture self.old →
            skipped_before self.old ≡ Some s → IsSkipped s coded → length picture % width + count < width →
            Keeps width (picture ++ replicate count coded) self.new }
        // What stands to the left of each of them.
        ensures left { (width : ℕ) (picture : List CodedMacroblock) (s : SkippedView) (coded : CodedMacroblock) → Keeps width picture self.old →
            skipped_before self.old ≡ Some s → IsSkipped s coded → length picture % width + count < width → (k : ℕ) → k < count →
            (motions : List (Option MotionView)) → neighbour width (picture ++ replicate k coded) s.slice motions 0 1 ≡ Some (Some s.motion) }
    {
        for _turn in 0..count {
            self.repeat();
        }
    }
}
