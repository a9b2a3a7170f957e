//! Reference frames, and their numbers (8.2.4.1).
#![tactic(auto)]

ghost use Rattle.std.specs.Prelude.{◌≡◌};
ghost use Rattle.h264_marking.specs.Frames.{frame_num_wrap, pic_num, is_index, long_term_num, has_pic_num, has_index, has_frame_num};

/// How a frame is marked as used for reference (8.2.5.1).
#[derive(Clone, Copy, Debug, Default, PartialEq, Eq)]
pub enum Term {
    #[default]
    Short,
    Long { long_term_frame_idx: u32 },
}

/// A frame that is held for reference.
#[derive(Clone, Copy, Debug, Default, PartialEq, Eq)]
pub struct ReferenceFrame {
    /// The number of the picture in it, by which its owner names it; none in the frame of a gap in frame_num, which does not
    /// exist (8.2.5.2).
    pub picture: Option<u64>,
    /// FrameNum.
    pub frame_num: u32,
    pub term: Term,
}

/// What the numbers of frames go by.
#[derive(Clone, Copy, Debug, PartialEq, Eq)]
pub struct Numbering {
    /// frame_num of the current picture, or the missing one.
    pub frame_num: u32,
    /// MaxFrameNum: 16 to 65536.
    pub max_frame_num: u32,
    /// max_num_ref_frames: 0 to 16.
    pub max_num_ref_frames: u32,
}

impl Term {
    /// Whether a frame that is marked so has this LongTermFrameIdx.
    pub(crate) fn has_index(self, index: u32) -> bool
        ensures { result ≡ is_index index (long_term_num self) }
    {
        match self {
            Term::Short => false,
            Term::Long {
                long_term_frame_idx,
            } => long_term_frame_idx == index,
        }
    }
}

impl Numbering {
    /// FrameNumWrap of a FrameNum (8.2.4.1).
    pub fn frame_num_wrap(&self, frame_num: u32) -> i64
        ensures { result ≡ frame_num_wrap self.now frame_num }
    {
        if self.frame_num < frame_num {
            frame_num as i64 - self.max_frame_num as i64
        } else {
            frame_num as i64
        }
    }
}

impl ReferenceFrame {
    /// Whether it is a short-term frame with this FrameNum.
    pub fn has_frame_num(&self, frame_num: u32) -> bool
        ensures { result ≡ has_frame_num frame_num self.now }
    {
        match self.term {
            Term::Short => self.frame_num == frame_num,
            Term::Long { .. } => false,
        }
    }

    /// PicNum, which a short-term frame has: its FrameNumWrap (8.2.4.1).
    pub fn pic_num(&self, current: &Numbering) -> Option<i64>
        ensures { result ≡ pic_num current.now self.now }
    {
        match self.term {
            Term::Short => Some(current.frame_num_wrap(self.frame_num)),
            Term::Long { .. } => None,
        }
    }

    /// Whether it is a short-term frame with this PicNum (8.2.4.1).
    pub fn has_pic_num(&self, current: &Numbering, number: i64) -> bool
        ensures { result ≡ has_pic_num current.now number self.now }
    {
        match self.pic_num(current) {
            Some(own) => own == number,
            None => false,
        }
    }

    /// Whether it is a long-term frame with this LongTermFrameIdx, which is its LongTermPicNum (8.2.4.1).
    pub fn has_index(&self, index: u32) -> bool
        ensures { result ≡ has_index index self.now }
    {
        self.term.has_index(index)
    }
}
