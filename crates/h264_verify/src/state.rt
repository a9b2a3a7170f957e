//! What is kept from unit to unit, and what is known of a whole stream.
#![tactic(auto)]

ghost use Rattle.std.specs.Prelude.{◌≡◌, ℕ, false, []};
ghost use Rattle.h264_verify.specs.Modes.{depth_of, purpose_for};
ghost use Rattle.h264_verify.specs.Telling.{Family, IsFamilyFor};
ghost use Rattle.h264_plane.specs.declared.frame.Frame.{Frame};
ghost use Rattle.h264_verify.specs.Keeping.{KeepsFrames, WhereMade};

use crate::decoder::Decoder;
use crate::slices::{PicturesSoFar, Slice, no_slices};
use h264_base::{Mode, Stop, Target};
use h264_picture::Purpose;
use h264_sets::Sets;
use std::alloc::Global;

/// How far a stream is judged.
#[derive(Clone, Copy, Debug, PartialEq, Eq)]
pub enum Depth {
    /// The byte stream, its units, and the parameter sets. Slices are passed over.
    Units,
    /// These, and slice headers with the order of frames that they give.
    Headers,
    /// These, and slice data.
    Full,
}

/// How far a stream is judged in a mode.
pub(crate) fn depth_of(mode: Mode) -> Depth
    ensures { result ≡ depth_of mode }
{
    match mode {
        Mode::Units => Depth::Units,
        Mode::Headers => Depth::Headers,
        Mode::Verdict => Depth::Full,
        Mode::Full => Depth::Full,
    }
}

/// What the pictures of a stream are decoded for in a mode.
pub(crate) fn purpose_for(mode: Mode) -> Purpose
    ensures { result ≡ purpose_for mode }
{
    match mode {
        Mode::Units => Purpose::Frames,
        Mode::Headers => Purpose::Frames,
        Mode::Verdict => Purpose::Verdict,
        Mode::Full => Purpose::Frames,
    }
}

/// How far a stream is judged, and for which decoder.
#[derive(Clone, Copy)]
pub struct Extent {
    pub depth: Depth,
    /// The decoder that it has to suit.
    pub target: Target,
}

/// What a stream is judged by.
#[derive(Clone, Copy)]
pub struct Terms {
    /// How far it is judged.
    pub depth: Depth,
    /// What its pictures are decoded for.
    pub purpose: Purpose,
    /// The decoder that it has to suit.
    pub target: Target,
}

impl Terms {
    ghost use Rattle.h264_verify.specs.Units.{terms_of};

    /// What a stream is judged by in a mode, for this target.
    pub(crate) fn of(mode: Mode, target: Target) -> Terms
        ensures { result ≡ terms_of mode target }
    {
        Terms {
            depth: depth_of(mode),
            purpose: purpose_for(mode),
            target,
        }
    }
}

/// What the units so far left.
#[derive(Drop)]
pub struct State {
    /// How many units there were.
    pub units: u64,
    /// The parameter sets that they gave.
    pub sets: Sets,
    /// The slices that were read.
    pub slices: PicturesSoFar,
    /// The newest of them.
    pub slice: Slice,
    /// The picture whose slice data are read, and those before it that wait; None where no slice data are read.
    pub decoder: Option<Decoder>,
}

/// What pictures are decoded with, where a stream is judged so far that slice data are read.
fn decoder_for(depth: Depth, purpose: Purpose) -> Option<Decoder>
    ensures { (frames : Family) → IsFamilyFor purpose frames → WhereMade depth (KeepsFrames frames false false []) result }
{
    match depth {
        Depth::Units => None,
        Depth::Headers => None,
        Depth::Full => Some(Decoder::new(purpose)),
    }
}

impl State {
    ghost use Rattle.std.specs.Prelude.{IfOk, IfErr};
    ghost use Rattle.h264_verify.specs.declared.state.Depth.TheVariants as depths;
    ghost use Rattle.h264_verify.specs.History.{History};
    ghost use Rattle.h264_verify.specs.Buffering.{taken_after};
    ghost use Rattle.h264_verify.specs.KeepingUnits.{Keeps};

    /// Before the first unit of a stream that is judged by these terms. It takes the places of the parameter sets: Memory where they are refused.
    pub fn new(alloc: Global, terms: Terms) -> Result<State, Stop>
        ensures keeps { IfOk result (λ s. (frames : Family) → IsFamilyFor terms.purpose frames → Keeps terms.depth frames [] s) }
        ensures err { IfErr result (λ e. e ≡ Stop.Memory) }
    {
        let Ok(sets) = Sets::new(alloc) else {
            return Err(Stop::Memory);
        };
        Ok(State {
            units: 0,
            sets,
            slices: no_slices(),
            slice: Slice::unread(),
            decoder: decoder_for(terms.depth, terms.purpose),
        })
    }

    /// How many places of the picture buffer are taken (C.4.2); 0 where no slice data are read.
    pub fn places_taken(&self) -> usize
        ensures { (frames : Family) (before : History) → Keeps depths.Full frames before self.now → result ≡ taken_after before }
    {
        match &self.decoder {
            None => 0,
            Some(decoder) => decoder.output.places_taken(),
        }
    }
}
