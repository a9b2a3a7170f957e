//! What takes the units of a stream, beside its elements and its frames.
#![tactic(auto)]

ghost use Rattle.std.specs.Prelude.{ℕ, ◌≡◌, ◌+◌, ◌-◌, ◌<◌, ◌^◌, [], ◌∷◌, OnOk, OnErr};
ghost use Rattle.h264_base.specs.Call.{OfUnit, OfSlice, Tells, HasRoom, IsQuiet};
ghost use Rattle.h264_units.specs.UnitTypes.{type_number};

use crate::sink::FrameOut;
use h264_base::{Failed, SliceType};
use h264_units::NalUnitType;

/// Takes what a stream consists of, in order.
pub trait FrameSink: FrameOut {
    /// A unit whose rules are met: the byte of the input where it begins, its nal_unit_type and nal_ref_idc, and its length in
    /// bytes, the header and emulation prevention bytes among them.
    fn unit(
        &mut self,
        byte: u64,
        nal_unit_type: NalUnitType,
        nal_ref_idc: u8,
        length: u64,
    ) -> Result<(), Failed>
        requires { HasRoom Self.failures self.old }
        ensures ok { OnOk result (Tells Self.took self.old self.new (OfUnit byte (type_number nal_unit_type) nal_ref_idc length ∷ [])) }
        ensures kept { OnOk result (IsQuiet Self.failures self.old self.new) }
        ensures refused { OnErr result (Tells Self.took self.old self.new []) }
        ensures failed { OnErr result (Self.failures self.new ≡ Self.failures self.old + 1) };

    /// A slice whose rules are met: the byte of the input where its unit begins, first_mb_in_slice, its type, frame_num, and the
    /// picture order count of its frame.
    fn slice(
        &mut self,
        byte: u64,
        first_mb_in_slice: u32,
        slice_type: SliceType,
        frame_num: u32,
        count: i32,
    ) -> Result<(), Failed>
        requires { HasRoom Self.failures self.old }
        ensures ok { OnOk result (Tells Self.took self.old self.new (OfSlice byte first_mb_in_slice slice_type frame_num count ∷ [])) }
        ensures kept { OnOk result (IsQuiet Self.failures self.old self.new) }
        ensures refused { OnErr result (Tells Self.took self.old self.new []) }
        ensures failed { OnErr result (Self.failures self.new ≡ Self.failures self.old + 1) };

    /// How many places of the picture buffer are taken (C.4.2), after each unit that is judged: by frames that wait or are held for reference, or by
    /// missing numbers. It is no part of what a stream consists of.
    fn note_places_taken(&mut self, _places: usize)
        ensures same { Tells Self.took self.old self.new [] }
        ensures quiet { IsQuiet Self.failures self.old self.new }
    {}
}
