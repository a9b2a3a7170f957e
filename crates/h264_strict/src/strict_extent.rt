//! How far the units of bytes are looked at.
#![tactic(auto)]

ghost use Rattle.std.specs.Prelude.{◌≡◌};
ghost use Rattle.h264_strict.specs.StrictExtent.{is_whole, cut_off, extent_after, extent_of};

use h264_base::Stop;

/// How far the units of bytes were looked at.
#[derive(Clone, Copy)]
pub enum Extent {
    /// Each unit was.
    Whole,
    /// Each unit was, up to where the bytes are no byte stream, or are more than is judged.
    NoByteStream,
    /// Each unit was whose end the bytes show, and no source has said that they end.
    NotToTheEnd,
    /// Some units were, and then memory was wanting.
    Memory,
}

impl Extent {
    /// Whether each unit so far was looked at.
    pub fn is_whole(self) -> bool
        ensures { result ≡ is_whole self }
    {
        match self {
            Extent::Whole => true,
            _ => false,
        }
    }

    /// How far it was, where the bytes may go on.
    pub(crate) fn cut_off(self) -> Extent
        ensures { result ≡ cut_off self }
    {
        match self {
            Extent::Whole => Extent::NotToTheEnd,
            other => other,
        }
    }
}

/// How far it was, where bytes were not cut into units for this reason.
pub(crate) fn extent_after(stop: Stop) -> Extent
    ensures { result ≡ extent_after stop }
{
    match stop {
        Stop::Memory => Extent::Memory,
        _ => Extent::NoByteStream,
    }
}

/// How far it was, once a unit was looked at, or memory was wanting for it.
pub(crate) fn extent_of(looked: Result<(), Stop>) -> Extent
    ensures { result ≡ extent_of looked }
{
    match looked {
        Ok(()) => Extent::Whole,
        Err(_) => Extent::Memory,
    }
}
