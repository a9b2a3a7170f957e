//! A decoder as the pointer that C holds.
ghost use Rattle.std.specs.Prelude.{◌≡◌, None};
ghost use Rattle.h264_c.specs.declared.stream.Stream.{Stream};
ghost use Rattle.std.specs.declared.alloc.Global.{Global};

use crate::frame::{CFrame, frame_of};
use h264_stream::{Decoder, ShownFrame};
use std::alloc::Global;
use std::marker::Model;

/// A decoder, and the frame that is lent to C.
#[derive(Drop)]
pub struct Stream {
    pub decoder: Decoder,
    pub lent: Option<ShownFrame>,
}

impl Stream {
    ghost use Rattle.std.specs.Prelude.{List, ◌∷◌, IfSome, Some};
    ghost use Rattle.h264_stream.specs.declared.queue.ShownFrame.{ShownFrame};
    ghost use Rattle.h264_c.specs.Frames.{IsFrame};

    /// A stream of which no frame is lent.
    pub fn new(decoder: Decoder) -> Stream
        ensures decoder { result.decoder ≡ decoder }
        ensures lent { result.lent ≡ None }
    {
        Stream {
            decoder,
            lent: None,
        }
    }

    /// Takes back the frame that is lent.
    fn take_back(&mut self)
        ensures { self.new.decoder.queue.waiting.items ≡ self.old.decoder.queue.waiting.items }
    {
        if let Some(before) = self.lent.take() {
            self.decoder.give_back(before);
        }
    }

    /// Lends the next frame, and takes back the one lent before. None: no frame waits.
    #[tactic(auto)]
    pub fn lend(&mut self) -> Option<CFrame>
        ensures { IfSome result (λ frame. (shown : ShownFrame) × (later : List ShownFrame)
            × (self.old.decoder.queue.waiting.items ≡ shown ∷ later) × IsFrame shown frame × (self.new.lent ≡ Some shown)) }
    {
        self.take_back();
        self.lent = self.decoder.take_frame();
        match &self.lent {
            Some(lent) => return Some(frame_of(lent)),
            None => return None,
        }
    }
}

/// What a handle points to, as C sees it.
#[repr(C)]
pub struct Hidden {
    hidden: u8,
}

/// The right to a stream. C passes it as the pointer that `h264v_open` wrote.
#[repr(C)]
#[derive(Drop)]
pub struct Handle {
    at: *mut Hidden,
    pub ghost value: { Stream },
    pub ghost alloc: { Global },
}

impl Model for Handle {
    ghost use Rattle.std.specs.Box.Ownership.{box_owns};
    ghost use Rattle.std.specs.contracts.impls.GlobalAllocator.TheImpl.{ghosts};
    ghost use Rattle.h264_c.specs.contracts.stream.Stream.{the_row};

    ghost also_owns = { λ h. box_owns (ghosts.dealloc_token h.alloc) the_row h.at h.value };
}

impl Handle {
    /// The stream, in the box in which it was made.
    pub fn into_box(self, alloc: Global) -> Box<Stream>
        ensures { result.value ≡ self.value }
    {
        let Handle { at } = self;
        unsafe { Box::from_raw(alloc, at as *mut Stream) }
    }
}
