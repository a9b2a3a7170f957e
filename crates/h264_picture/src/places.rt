//! The places of reference pictures among the frames of a sequence.
#![tactic(auto)]

ghost use Rattle.std.specs.Prelude.{◌≡◌, ◌≢◌, ℕ, ◌-◌, ◌<◌, ◌≤◌, get_or, length};
ghost use Rattle.h264_picture.specs.Sound.{IsPlace, ArePlaces, ArePlacesIn};
ghost use Rattle.h264_picture.specs.declared.canvas.Canvas.{Canvas as CanvasModel};

use crate::canvas::Canvas;
use crate::frames::Frames;

/// A place that is not this one.
fn another_than(place: usize) -> u8
    ensures other { result ≢ place }
    ensures low { result < 2 }
{
    if place == 0 {
        return 1;
    }
    0
}

/// The place of a frame that can be read, by its number from `base` on; of one that can't, any that can.
fn place_within(frames: &Frames, place: u8, base: usize) -> u8
    requires { 1 < length frames.now.pool }
    ensures stands { IsPlace frames.now result }
    ensures value { base ≤ place → IsPlace frames.now (place - base) → result ≡ place - base }
{
    let place = place as usize;
    if base <= place && place - base < frames.pool.len() && place - base != frames.place {
        return (place - base) as u8;
    }
    another_than(frames.place)
}

/// The places of sixteen frames.
fn places_within(frames: &Frames, places: &[u8; 16], base: usize) -> [u8; 16]
    requires { 1 < length frames.now.pool }
    ensures stand { ArePlaces frames.now result }
    ensures values { (n : ℕ) → n < 16 → base ≤ get_or places.now n 0 → IsPlace frames.now (get_or places.now n 0 - base) →
        get_or result n 0 ≡ get_or places.now n 0 - base }
{
    let mut own = [0; 16];
    for n in 0..16 {
        own[n] = place_within(frames, places[n], base);
    }
    own
}

/// Likewise where there are frames; where there are none, no place is asked for.
pub(crate) fn places_in(canvas: &Option<Canvas>, places: &[u8; 16], base: usize) -> [u8; 16]
    requires { (c : CanvasModel) → canvas.now ≡ Some c → 1 < length c.frames.pool }
    ensures stand { ArePlacesIn canvas.now result }
    ensures values { (c : CanvasModel) → canvas.now ≡ Some c → (n : ℕ) → n < 16 → base ≤ get_or places.now n 0 →
        IsPlace c.frames (get_or places.now n 0 - base) → get_or result n 0 ≡ get_or places.now n 0 - base }
{
    match canvas {
        None => *places,
        Some(canvas) => places_within(&canvas.frames, places, base),
    }
}
