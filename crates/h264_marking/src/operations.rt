//! Memory management control operations (8.2.5.4).
#![tactic(auto)]

ghost use Rattle.std.specs.Prelude.{◌≡◌, ◌&&◌, map};
ghost use Rattle.std.specs.List.{filter, list_any};
ghost use Rattle.std.specs.Result.{result_map_both};
ghost use Rattle.h264_marking.specs.Frames.{has_pic_num, is_existing, long_term_num};
ghost use Rattle.h264_marking.specs.Operations.{pic_num_x, is_below, made_long, all_operated};

use crate::frame::{Numbering, ReferenceFrame, Term};
use crate::numbers::{Places, remove_index, remove_pic_num, some_has_index, some_has_pic_num};
use h264_header::{MarkingOperation, Operation};
use std::marker::Model;

/// What stands between two operations of a picture.
#[derive(Drop)]
pub(crate) struct Marks {
    /// The frames that are held.
    pub(crate) places: Places,
    pub(crate) max_long_term_frame_idx_plus1: u32,
    /// How the picture's own frame is marked so far.
    pub(crate) current: Term,
    /// Operation 5 has come.
    pub(crate) resets: bool,
}

impl Model for Marks {
    ghost use Rattle.h264_marking.specs.Operations.{Marks};

    ghost Value = { Marks };

    ghost view = { λ m. record {
      held = record { frames = m.places.items; max_long_term_frame_idx_plus1 = m.max_long_term_frame_idx_plus1 };
      current =
          m.current;
      resets = m.resets;
    } };
}

/// picNumX.
fn pic_num_x(current: &Numbering, difference_of_pic_nums_minus1: u32) -> i64
    ensures { result ≡ pic_num_x current.now difference_of_pic_nums_minus1 }
{
    current.frame_num as i64 - (difference_of_pic_nums_minus1 as i64 + 1)
}

/// Whether the index of a frame that is marked so, if it has one, lies below the limit.
fn is_below(limit: u32, term: Term) -> bool
    ensures { result ≡ is_below limit (long_term_num term) }
{
    match term {
        Term::Short => true,
        Term::Long {
            long_term_frame_idx,
        } => long_term_frame_idx < limit,
    }
}

/// Removes the long-term frames whose index does not lie below the limit.
fn remove_above(limit: u32, places: &mut Places)
    ensures { places.new.items ≡ filter (λ f. is_below limit (long_term_num f.term)) places.old.items }
{
    places.retain(|f| is_below(limit, f.term));
}

/// Whether some short-term frame with the PicNum exists.
fn some_existing_has_pic_num(current: &Numbering, number: i64, frames: &[ReferenceFrame]) -> bool
    ensures { result ≡ list_any (λ f. has_pic_num current.now number f && is_existing f) frames.now }
{
    frames
        .iter()
        .any(|f| f.has_pic_num(current, number) && f.picture.is_some())
}

/// The frame, with the index if it is a short-term frame with the PicNum.
fn made_long(current: &Numbering, number: i64, index: u32, frame: ReferenceFrame) -> ReferenceFrame
    ensures { result ≡ made_long current.now number index frame }
{
    if !frame.has_pic_num(current, number) {
        return frame;
    }
    ReferenceFrame {
        term: Term::Long {
            long_term_frame_idx: index,
        },
        ..frame
    }
}

/// Gives the index to the short-term frames with the PicNum.
fn give_index(current: &Numbering, number: i64, index: u32, frames: &mut [ReferenceFrame])
    ensures { frames.new ≡ map (made_long current.now number index) frames.old }
{
    for frame in frames.iter_mut() {
        *frame = made_long(current, number, index, *frame);
    }
}

impl Marks {
    ghost use Rattle.std.specs.Prelude.{◌≡◌};
    ghost use Rattle.std.specs.Bool.{then_some};
    ghost use Rattle.h264_marking.specs.Operations.{unmark_short, unmark_long, may_make_long, make_long, limit_long, unmark_all, make_current_long, operated};

    /// 1: a held short-term frame becomes unused.
    fn unmark_short(&mut self, current: &Numbering, number: i64) -> bool
        ensures { then_some result self.new ≡ unmark_short current.now number self.old }
    {
        if !some_has_pic_num(current, number, self.places.as_slice()) {
            return false;
        }
        remove_pic_num(current, number, &mut self.places);
        true
    }

    /// 2: a held long-term frame becomes unused.
    fn unmark_long(&mut self, number: u32) -> bool
        ensures { then_some result self.new ≡ unmark_long number self.old }
    {
        if !some_has_index(number, self.places.as_slice()) {
            return false;
        }
        remove_index(number, &mut self.places);
        true
    }

    fn may_make_long(&self, current: &Numbering, number: i64, index: u32) -> bool
        ensures { result ≡ may_make_long current.now number index self.now }
    {
        some_existing_has_pic_num(current, number, self.places.as_slice())
            && index < self.max_long_term_frame_idx_plus1
            && !self.current.has_index(index)
    }

    /// 3: a held short-term frame gets the index.
    fn make_long(&mut self, current: &Numbering, number: i64, index: u32) -> bool
        ensures { then_some result self.new ≡ make_long current.now number index self.old }
    {
        if !self.may_make_long(current, number, index) {
            return false;
        }
        remove_index(index, &mut self.places);
        give_index(current, number, index, self.places.as_mut_slice());
        true
    }

    /// 4: the indices lie below the limit.
    fn limit_long(&mut self, current: &Numbering, limit: u32) -> bool
        ensures { then_some result self.new ≡ limit_long current.now limit self.old }
    {
        if limit > current.max_num_ref_frames || !is_below(limit, self.current) {
            return false;
        }
        remove_above(limit, &mut self.places);
        self.max_long_term_frame_idx_plus1 = limit;
        true
    }

    /// 5: all frames become unused.
    fn unmark_all(&mut self) -> bool
        ensures { then_some result self.new ≡ unmark_all self.old }
    {
        match self.current {
            Term::Short => {
                self.places.clear();
                self.max_long_term_frame_idx_plus1 = 0;
                self.resets = true;
                true
            }
            Term::Long { .. } => false,
        }
    }

    /// 6: the picture's own frame gets the index.
    fn make_current_long(&mut self, index: u32) -> bool
        ensures { then_some result self.new ≡ make_current_long index self.old }
    {
        if index >= self.max_long_term_frame_idx_plus1 {
            return false;
        }
        remove_index(index, &mut self.places);
        self.current = Term::Long {
            long_term_frame_idx: index,
        };
        true
    }

    /// One operation, and whether it could be met.
    fn operate(&mut self, current: &Numbering, operation: Operation) -> bool
        ensures { then_some result self.new ≡ operated current.now operation self.old }
    {
        match operation {
            Operation::UnmarkShortTerm {
                difference_of_pic_nums_minus1,
            } => self.unmark_short(current, pic_num_x(current, difference_of_pic_nums_minus1)),
            Operation::UnmarkLongTerm { long_term_pic_num } => self.unmark_long(long_term_pic_num),
            Operation::MakeLongTerm {
                difference_of_pic_nums_minus1,
                long_term_frame_idx,
            } => {
                let number = pic_num_x(current, difference_of_pic_nums_minus1);
                self.make_long(current, number, long_term_frame_idx)
            }
            Operation::LimitLongTerm {
                max_long_term_frame_idx_plus1,
            } => self.limit_long(current, max_long_term_frame_idx_plus1),
            Operation::UnmarkAll => self.unmark_all(),
            Operation::MakeCurrentLongTerm {
                long_term_frame_idx,
            } => self.make_current_long(long_term_frame_idx),
        }
    }
}

/// The operations in turn, or the bit of the first that cannot be met.
pub(crate) fn operate_all(
    marks: &mut Marks,
    current: &Numbering,
    operations: &[MarkingOperation],
) -> Result<(), u64>
    ensures { result_map_both (λ _. marks.new) (λ bit. bit) result ≡ all_operated current.now operations.now marks.old }
{
    for o in operations {
        if !marks.operate(current, o.operation) {
            return Err(o.bit);
        }
    }
    Ok(())
}
