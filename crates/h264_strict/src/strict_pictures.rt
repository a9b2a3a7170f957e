//! Numbers and picture order counts of the pictures of a stream (7.4.3, 8.2.1).
#![tactic(auto)]

ghost use Rattle.std.specs.Prelude.{◌≡◌};
ghost use Rattle.h264_strict.specs.StrictPictures.{no_pictures, is_previous, repeats_number, number_after, count_after, pictures_after, by_greatest, by_count};

use crate::strict_rule::{StrictRule, broken_if};

/// A picture that begins.
#[derive(Clone, Copy)]
pub struct NewPicture {
    pub is_idr: bool,
    /// It is a reference picture.
    pub is_reference: bool,
    /// Its marking has operation 5.
    pub resets: bool,
    pub frame_num: u32,
    /// Its picture order count.
    pub count: i32,
}

/// What the pictures so far leave.
#[derive(Clone, Copy)]
pub struct Pictures {
    /// PrevRefFrameNum of the next picture, where it is known.
    pub prev_ref_frame_num: Option<u32>,
    /// The greatest picture order count of the sequence; none before the first picture.
    pub greatest_count: Option<i32>,
}

/// Whether this is PrevRefFrameNum.
fn is_previous(previous: Option<u32>, frame_num: u32) -> bool
    ensures { result ≡ is_previous previous frame_num }
{
    match previous {
        None => false,
        Some(previous) => previous == frame_num,
    }
}

/// PrevRefFrameNum after a picture.
fn number_after(previous: Option<u32>, picture: NewPicture) -> Option<u32>
    ensures { result ≡ number_after previous picture }
{
    if picture.is_reference {
        return Some(if picture.resets { 0 } else { picture.frame_num });
    }
    if is_previous(previous, picture.frame_num) {
        return previous;
    }
    if picture.frame_num == 0 {
        None
    } else {
        Some(picture.frame_num - 1)
    }
}

/// The greatest count of the sequence after a picture.
fn count_after(greatest: Option<i32>, picture: NewPicture) -> Option<i32>
    ensures { result ≡ count_after greatest picture }
{
    if picture.resets {
        return Some(0);
    }
    if picture.is_idr {
        return Some(picture.count);
    }
    match greatest {
        None => Some(picture.count),
        Some(greatest) => Some(if greatest < picture.count {
            picture.count
        } else {
            greatest
        }),
    }
}

/// The rule that the count of a picture breaks, where the sequence's greatest count so far is this one.
fn by_greatest(greatest: i32, is_in_order: bool, count: i32) -> Option<StrictRule>
    ensures { result ≡ by_greatest greatest is_in_order count }
{
    if count < greatest {
        return broken_if(is_in_order, StrictRule::Reorder);
    }
    broken_if(count <= greatest, StrictRule::CountRepeated)
}

impl Pictures {
    /// Before the first picture.
    pub fn new() -> Pictures
        ensures { result ≡ no_pictures }
    {
        Pictures {
            prev_ref_frame_num: None,
            greatest_count: None,
        }
    }

    /// Whether a picture has PrevRefFrameNum again, and is no IDR picture.
    pub fn repeats_number(self, picture: NewPicture) -> bool
        ensures { result ≡ repeats_number self picture }
    {
        !picture.is_idr && is_previous(self.prev_ref_frame_num, picture.frame_num)
    }

    /// The rule that the count of a picture breaks; pictures are output as they are decoded, where that is promised.
    pub fn by_count(self, is_in_order: bool, picture: NewPicture) -> Option<StrictRule>
        ensures { result ≡ by_count self is_in_order picture }
    {
        if picture.is_idr || picture.resets {
            return None;
        }
        match self.greatest_count {
            None => None,
            Some(greatest) => by_greatest(greatest, is_in_order, picture.count),
        }
    }

    /// Notes a picture.
    pub fn note(&mut self, picture: NewPicture)
        ensures { self.new ≡ pictures_after self.old picture }
    {
        self.prev_ref_frame_num = number_after(self.prev_ref_frame_num, picture);
        self.greatest_count = count_after(self.greatest_count, picture);
    }
}
