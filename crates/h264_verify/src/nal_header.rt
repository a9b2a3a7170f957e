//! The first byte of a NAL unit, in its parts (7.3.1).
#![tactic(auto)]

ghost use Rattle.std.specs.Prelude.{◌≡◌};
ghost use Rattle.h264_units.specs.UnitHeader.{header_of, forbidden_zero_bit, nal_ref_idc, nal_unit_type};
ghost use Rattle.h264_units.specs.UnitTypes.{type_number};

use h264_units::{NalUnit, NalUnitType};

/// The first byte of a NAL unit.
#[derive(Clone, Copy)]
pub(crate) struct NalHeader {
    byte: u8,
}

impl NalHeader {
    /// That of this unit.
    pub(crate) fn of(unit: &NalUnit) -> NalHeader
        ensures { result.byte ≡ header_of unit.now }
    {
        NalHeader {
            byte: unit.body()[0],
        }
    }

    /// forbidden_zero_bit, 0 or 1.
    pub(crate) fn forbidden_zero_bit(self) -> u8
        ensures { result ≡ forbidden_zero_bit self.byte }
    {
        self.byte / 128
    }

    /// nal_ref_idc, from 0 to 3.
    pub(crate) fn nal_ref_idc(self) -> u8
        ensures { result ≡ nal_ref_idc self.byte }
    {
        self.byte / 32 % 4
    }

    /// nal_unit_type.
    pub(crate) fn nal_unit_type(self) -> NalUnitType
        ensures { type_number result ≡ nal_unit_type self.byte }
    {
        NalUnitType::of(self.byte)
    }
}
