//! The frames that are held, and how they change.
#![tactic(auto)]

ghost use Rattle.std.specs.Prelude.{◌≡◌};
ghost use Rattle.h264_base.specs.declared.rule.Rule.TheVariants as rule;
ghost use Rattle.h264_base.specs.declared.stop.Stop.TheVariants.{No};
ghost use Rattle.h264_marking.specs.Held.{own_frame, idr_term};

use crate::frame::{Numbering, ReferenceFrame, Term};
use crate::numbers::{Places, copied, frame_places, has_place, remove_pic_num};
use crate::operations::{Marks, operate_all};
use crate::steady::{is_steady, move_all};
use crate::window::{count_others, fill, least_pic_num};
use arrayvec::ArrayVec;
use h264_base::{Rule, Stop};
use h264_bits::Found;
use h264_header::{Marking, MarkingOperation};
use std::marker::Model;

/// The frames that are marked as used for reference, in the order of their marking, and how many long-term frame indices
/// there are.
#[derive(Drop)]
pub struct Held {
    frames: Places,
    max_long_term_frame_idx_plus1: u32,
}

impl Model for Held {
    ghost use Rattle.h264_marking.specs.Frames.{References};

    ghost Value = { References };

    ghost view = { λ h. record { frames = h.frames.items; max_long_term_frame_idx_plus1 = h.max_long_term_frame_idx_plus1 } };
}

impl Held {
    ghost use Rattle.std.specs.Prelude.{◌≡◌, ◌+◌, ◌%◌, ◌<◌, ◌≤◌, true, length, OnOk, unwrap_or, if◌then◌else◌, Some, Ok, Err};
    ghost use Rattle.std.specs.Option.{is_some};
    ghost use Rattle.std.specs.Result.{result_unwrap_or};
    ghost use Rattle.h264_base.specs.declared.rule.Rule.TheVariants as rule;
    ghost use Rattle.h264_base.specs.declared.stop.Stop.TheVariants.{No};
    ghost use Rattle.h264_marking.specs.Frames.{frame_places};
    ghost use Rattle.h264_marking.specs.Window.{filled};
    ghost use Rattle.h264_marking.specs.Gaps.{numbers_from, all_filled};
    ghost use Rattle.h264_marking.specs.Steady.{IsSteady};
    ghost use Rattle.h264_marking.specs.Held.{no_references, marked, mark_answer, idr_references, slid_and_joined, joined};
    ghost use Rattle.h264_marking.specs.Operations.{marks_of, all_operated};

    /// No frame yet.
    pub fn new() -> Self
        ensures { result ≡ no_references }
    {
        Held {
            frames: ArrayVec::new(),
            max_long_term_frame_idx_plus1: 0,
        }
    }

    /// The frames in the order of their marking, at most 16.
    pub fn frames(&self) -> &[ReferenceFrame]
        ensures value { result.now ≡ self.now.frames }
        ensures places { length self.now.frames ≤ 16 }
    {
        self.frames.as_slice()
    }

    /// Fills a gap in frame_num with the frame of a missing one, for which the window slides first (8.2.5.2).
    ///
    /// No: all places are held by long-term frames, or a short-term frame that is still held has the number; the rule is
    /// FrameNum, at `bit`, and nothing has changed.
    pub fn fill_gap(&mut self, missing: &Numbering, bit: u64) -> Result<(), Stop>
        ensures answer { result ≡ (if is_some (filled missing.now self.old) then Ok tt else Err (No bit rule.FrameNum)) }
        ensures held { self.new ≡ unwrap_or (filled missing.now self.old) self.old }
        ensures bounded { length self.old.frames ≤ frame_places missing.now.max_num_ref_frames →
            length self.new.frames ≤ frame_places missing.now.max_num_ref_frames }
    {
        if !fill(missing, &mut self.frames) {
            return Err(Stop::No {
                bit,
                rule: Rule::FrameNum,
            });
        }
        Ok(())
    }

    /// Whether the frames of missing numbers up to `last` take all places but those of long-term frames.
    pub fn is_steady(&self, numbering: &Numbering, last: u32) -> bool
        requires { 0 < numbering.now.max_frame_num }
        ensures { result ≡ true → IsSteady numbering.now last self.now.frames }
    {
        is_steady(numbering, last, self.frames.as_slice())
    }

    /// Fills so many missing numbers after `last` at once, where those up to `last` take all places but those of long-term frames: as if one after another.
    pub fn skip(&mut self, numbering: &Numbering, last: u32, count: u32)
        requires numbers { 0 < numbering.now.max_frame_num }
        requires steady { IsSteady numbering.now last self.old.frames }
        ensures { all_filled numbering.now (numbers_from count ((last + 1) % numbering.now.max_frame_num) numbering.now.max_frame_num) self.old
            ≡ Some self.new }
    {
        move_all(numbering.max_frame_num, count, &mut self.frames);
    }

    /// Marks at the end of a reference picture of this number, as its first slice says (8.2.5.1). `marking` has the bit of its
    /// first element.
    ///
    /// No: an operation cannot be met, at its bit; or no short-term frame can leave the sliding window, or more frames would be
    /// held than the sequence allows, at the bit of `marking`. The rule is MarkCommand, and nothing has changed.
    pub fn mark(
        &mut self,
        current: &Numbering,
        picture: u64,
        marking: &Found<Marking>,
    ) -> Result<(), Stop>
        ensures answer { result ≡ mark_answer (marked current.now picture marking.now.bit marking.now.value self.old) }
        ensures held { self.new ≡ result_unwrap_or (marked current.now picture marking.now.bit marking.now.value self.old) self.old }
        ensures bounded { OnOk result (length self.new.frames ≤ frame_places current.now.max_num_ref_frames) }
    {
        match &marking.value {
            Marking::Idr {
                long_term_reference_flag,
                ..
            } => {
                self.restart(current, picture, *long_term_reference_flag);
                Ok(())
            }
            Marking::SlidingWindow => {
                if !self.slide_and_join(current, picture) {
                    return Err(unmet(marking.bit));
                }
                Ok(())
            }
            Marking::Adaptive(operations) => {
                self.operate(current, picture, marking.bit, operations.as_slice())
            }
        }
    }

    /// After an IDR picture its frame alone is held.
    fn restart(&mut self, current: &Numbering, picture: u64, long_term: bool)
        ensures { self.new ≡ idr_references current.now picture long_term }
    {
        self.frames.clear();
        self.frames.push(ReferenceFrame {
            picture: Some(picture),
            frame_num: current.frame_num,
            term: idr_term(long_term),
        });
        self.max_long_term_frame_idx_plus1 = u32::from(long_term);
    }

    /// The window slides, and the picture's own frame joins. False where the window cannot, or does not make room; then nothing
    /// has changed.
    fn slide_and_join(&mut self, current: &Numbering, picture: u64) -> bool
        ensures met { result ≡ is_some (slid_and_joined current.now picture self.old) }
        ensures held { self.new ≡ unwrap_or (slid_and_joined current.now picture self.old) self.old }
    {
        let own = ReferenceFrame {
            picture: Some(picture),
            frame_num: current.frame_num,
            term: Term::Short,
        };
        if has_place(current, &self.frames) {
            self.frames.push(own);
            return true;
        }
        let Some(least) = least_pic_num(current, self.frames()) else {
            return false;
        };
        let others = count_others(current, least, self.frames());
        if others >= frame_places(current.max_num_ref_frames) as usize {
            return false;
        }
        remove_pic_num(current, least, &mut self.frames);
        self.frames.push(own);
        true
    }

    /// The operations in turn, and then the picture's own frame joins.
    ///
    /// No: an operation cannot be met, at its bit; or there is no place for the frame, at `bit`. Nothing has changed then.
    fn operate(
        &mut self,
        current: &Numbering,
        picture: u64,
        bit: u64,
        operations: &[MarkingOperation],
    ) -> Result<(), Stop>
        ensures answer { result ≡ mark_answer (joined current.now picture bit (all_operated current.now operations.now (marks_of self.old))) }
        ensures held { self.new ≡ result_unwrap_or (joined current.now picture bit (all_operated current.now operations.now (marks_of self.old))) self.old }
    {
        let mut marks = self.marks();
        if let Err(at) = operate_all(&mut marks, current, operations) {
            return Err(unmet(at));
        }
        if !has_place(current, &marks.places) {
            return Err(unmet(bit));
        }
        let own = own_frame(current, picture, &marks);
        self.frames = marks.places;
        self.frames.push(own);
        self.max_long_term_frame_idx_plus1 = marks.max_long_term_frame_idx_plus1;
        Ok(())
    }

    /// Before the first operation.
    fn marks(&self) -> Marks
        ensures { result ≡ marks_of self.now }
    {
        Marks {
            places: copied(&self.frames),
            max_long_term_frame_idx_plus1: self.max_long_term_frame_idx_plus1,
            current: Term::Short,
            resets: false,
        }
    }
}

/// What refuses a marking at this bit.
fn unmet(bit: u64) -> Stop
    ensures { result ≡ No bit rule.MarkCommand }
{
    Stop::No {
        bit,
        rule: Rule::MarkCommand,
    }
}

/// The picture's own frame.
fn own_frame(current: &Numbering, picture: u64, marks: &Marks) -> ReferenceFrame
    ensures { result ≡ own_frame current.now picture marks.now }
{
    ReferenceFrame {
        picture: Some(picture),
        frame_num: if marks.resets { 0 } else { current.frame_num },
        term: marks.current,
    }
}

/// How an IDR picture's frame is marked.
fn idr_term(long_term: bool) -> Term
    ensures { result ≡ idr_term long_term }
{
    if long_term {
        Term::Long {
            long_term_frame_idx: 0,
        }
    } else {
        Term::Short
    }
}
