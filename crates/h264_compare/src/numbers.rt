//! What differs, and by how much.
#![tactic(auto)]

ghost use Rattle.std.specs.Prelude.{◌≡◌, ◌+◌, ◌-◌, ◌∷◌, [], ◌<◌, ◌^◌, length, if◌then◌else◌};
ghost use Rattle.h264_compare.specs.Places.{luma};
ghost use Rattle.h264_compare.specs.Differences.{differ, only, square};
ghost use Rattle.h264_compare.specs.Numbers.{AreNoted, capped, sum_of};
ghost use Rattle.h264_plane.specs.declared.frame.Component.{Component};

use crate::shown::{Place, ShownFrame};
use h264_plane::Component;

/// A sample that differs.
#[derive(Clone, Copy, Debug, PartialEq, Eq)]
pub struct Difference {
    /// The number of its frame in the order of output, from 0.
    pub frame: u64,
    pub place: Place,
    /// The sample that the stream's decoding has there.
    pub made: u8,
    /// The sample that the reconstruction has there.
    pub given: u8,
}

/// A sum for each plane. It stops at `u64::MAX`.
#[derive(Clone, Copy, Debug, Default, PartialEq, Eq)]
pub struct Sums {
    pub y: u64,
    pub cb: u64,
    pub cr: u64,
}

/// The numbers of a comparison.
#[derive(Clone, Copy, Debug, Default, PartialEq, Eq)]
pub struct Numbers {
    /// How many frames were compared, the one among them at which the comparison ended.
    pub frames: u64,
    /// How many of them have a sample that differs.
    pub differing: u64,
    /// The first sample that differs.
    pub first: Option<Difference>,
    /// Luma samples of the frames. The count stops at `u64::MAX`.
    pub luma: u64,
    /// Sums of the squares of the differences.
    pub squares: Sums,
}

/// The square of a difference.
fn square(made: u8, given: u8) -> u64
    ensures { result ≡ square made given }
{
    let distance = u64::from(made.abs_diff(given));
    distance * distance
}

impl Sums {
    /// Each sum fits 64 bits. Nothing here runs.
    pub(crate) fn know_range(&self)
        ensures { (c : Component) → sum_of c self.now < 2 ^ 64 }
    {
        let Sums {
            y: _y,
            cb: _cb,
            cr: _cr,
        } = *self;
    }

    /// Adds to the sum of a plane.
    fn add(&mut self, plane: Component, more: u64)
        ensures { (c : Component) → sum_of c self.new ≡ capped (sum_of c self.old + only c plane more) }
    {
        let Sums { y, cb, cr } = *self;
        *self = match plane {
            Component::Y => Sums {
                y: y.saturating_add(more),
                cb,
                cr,
            },
            Component::Cb => Sums {
                y,
                cb: cb.saturating_add(more),
                cr,
            },
            Component::Cr => Sums {
                y,
                cb,
                cr: cr.saturating_add(more),
            },
        };
    }
}

impl Numbers {
    /// Counts a frame, before its samples are noted.
    pub fn begin(&mut self, frame: ShownFrame)
        requires { self.old.frames < 2 ^ 64 - 1 }
        ensures { self.new ≡ record self.old { frames = self.old.frames + 1; luma = capped (self.old.luma + luma frame) } }
    {
        self.frames += 1;
        self.luma = self.luma.saturating_add(frame.luma());
    }

    /// Counts a frame that differs, if this one does.
    pub fn end(&mut self, differs: bool)
        ensures { self.new ≡ record self.old { differing = capped (self.old.differing + (if differs then 1 else 0)) } }
    {
        let more = if differs { 1 } else { 0 };
        self.differing = self.differing.saturating_add(more);
    }

    /// Notes a sample that was made and the one that was given, which stand at this byte of a frame.
    fn note(&mut self, frame: ShownFrame, byte: u64, made: u8, given: u8)
        requires { byte < 2 ^ 40 }
        ensures { AreNoted frame byte self.old self.new (made ∷ []) (given ∷ []) }
    {
        self.squares.add(frame.plane_at(byte), square(made, given));
        if made != given && self.first.is_none() {
            self.first = Some(Difference {
                frame: frame.number,
                place: frame.place_at(byte),
                made,
                given,
            });
        }
    }

    /// Notes samples that were made and as many that were given, the first of which stand at this byte of a frame. Whether some differ.
    pub fn note_run(&mut self, frame: ShownFrame, byte: u64, made: &[u8], given: &[u8]) -> bool
        requires same_length { length made.now ≡ length given.now }
        requires small { byte + length made.now < 2 ^ 40 }
        ensures noted { AreNoted frame byte self.old self.new made.now given.now }
        ensures differ { result ≡ differ made.now given.now }
    {
        self.squares.know_range();
        if made == given {
            return false;
        }
        let mut differs = false;
        for i in 0..made.len() {
            differs |= made[i] != given[i];
            self.note(frame, byte + i as u64, made[i], given[i]);
        }
        differs
    }
}
