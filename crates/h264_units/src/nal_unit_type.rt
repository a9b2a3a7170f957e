//! The type of a unit, and what the rules ask of it (7.4.1, Table 7-1).
#![tactic(auto)]

ghost use Rattle.std.specs.Prelude.{◌≡◌};
ghost use Rattle.h264_units.specs.UnitTypes.{type_number};
ghost use Rattle.h264_units.specs.UnitHeader.{nal_unit_type, is_slice, is_partition, is_always_reference, is_never_reference, fits_kind, ends_picture};

/// nal_unit_type (Table 7-1).
#[derive(Clone, Copy)]
pub enum NalUnitType {
    /// 0: not specified.
    Unspecified0,
    /// 1: a slice of a picture that is no IDR picture.
    Slice,
    /// 2: slice data partition A.
    PartitionA,
    /// 3: slice data partition B.
    PartitionB,
    /// 4: slice data partition C.
    PartitionC,
    /// 5: a slice of an IDR picture.
    IdrSlice,
    /// 6: supplemental enhancement information.
    Sei,
    /// 7: a sequence parameter set.
    SequenceSet,
    /// 8: a picture parameter set.
    PictureSet,
    /// 9: an access unit delimiter.
    Delimiter,
    /// 10: the end of a sequence.
    EndOfSequence,
    /// 11: the end of the stream.
    EndOfStream,
    /// 12: filler data.
    Filler,
    /// 13: the extension of a sequence parameter set.
    SequenceSetExtension,
    /// 14: a prefix NAL unit.
    Prefix,
    /// 15: a subset of a sequence parameter set.
    SubsetSequenceSet,
    /// 16: a depth parameter set.
    DepthSet,
    /// 17: reserved.
    Reserved17,
    /// 18: reserved.
    Reserved18,
    /// 19: a slice of an auxiliary picture.
    AuxiliarySlice,
    /// 20: a slice of another layer or view (Annexes G and H).
    SliceExtension,
    /// 21: a slice of a depth view or a texture view (Annexes I and J).
    DepthSliceExtension,
    /// 22: reserved.
    Reserved22,
    /// 23: reserved.
    Reserved23,
    /// 24: not specified.
    Unspecified24,
    /// 25: not specified.
    Unspecified25,
    /// 26: not specified.
    Unspecified26,
    /// 27: not specified.
    Unspecified27,
    /// 28: not specified.
    Unspecified28,
    /// 29: not specified.
    Unspecified29,
    /// 30: not specified.
    Unspecified30,
    /// 31: not specified.
    Unspecified31,
}

impl NalUnitType {
    /// What the first byte of a unit says of its type (7.3.1).
    pub fn of(header: u8) -> NalUnitType
        ensures { type_number result ≡ nal_unit_type header }
    {
        match header % 32 {
            0 => NalUnitType::Unspecified0,
            1 => NalUnitType::Slice,
            2 => NalUnitType::PartitionA,
            3 => NalUnitType::PartitionB,
            4 => NalUnitType::PartitionC,
            5 => NalUnitType::IdrSlice,
            6 => NalUnitType::Sei,
            7 => NalUnitType::SequenceSet,
            8 => NalUnitType::PictureSet,
            9 => NalUnitType::Delimiter,
            10 => NalUnitType::EndOfSequence,
            11 => NalUnitType::EndOfStream,
            12 => NalUnitType::Filler,
            13 => NalUnitType::SequenceSetExtension,
            14 => NalUnitType::Prefix,
            15 => NalUnitType::SubsetSequenceSet,
            16 => NalUnitType::DepthSet,
            17 => NalUnitType::Reserved17,
            18 => NalUnitType::Reserved18,
            19 => NalUnitType::AuxiliarySlice,
            20 => NalUnitType::SliceExtension,
            21 => NalUnitType::DepthSliceExtension,
            22 => NalUnitType::Reserved22,
            23 => NalUnitType::Reserved23,
            24 => NalUnitType::Unspecified24,
            25 => NalUnitType::Unspecified25,
            26 => NalUnitType::Unspecified26,
            27 => NalUnitType::Unspecified27,
            28 => NalUnitType::Unspecified28,
            29 => NalUnitType::Unspecified29,
            30 => NalUnitType::Unspecified30,
            _ => NalUnitType::Unspecified31,
        }
    }

    /// The number that stands in the stream, from 0 to 31.
    pub fn number(self) -> u8
        ensures { result ≡ type_number self }
    {
        match self {
            NalUnitType::Unspecified0 => 0,
            NalUnitType::Slice => 1,
            NalUnitType::PartitionA => 2,
            NalUnitType::PartitionB => 3,
            NalUnitType::PartitionC => 4,
            NalUnitType::IdrSlice => 5,
            NalUnitType::Sei => 6,
            NalUnitType::SequenceSet => 7,
            NalUnitType::PictureSet => 8,
            NalUnitType::Delimiter => 9,
            NalUnitType::EndOfSequence => 10,
            NalUnitType::EndOfStream => 11,
            NalUnitType::Filler => 12,
            NalUnitType::SequenceSetExtension => 13,
            NalUnitType::Prefix => 14,
            NalUnitType::SubsetSequenceSet => 15,
            NalUnitType::DepthSet => 16,
            NalUnitType::Reserved17 => 17,
            NalUnitType::Reserved18 => 18,
            NalUnitType::AuxiliarySlice => 19,
            NalUnitType::SliceExtension => 20,
            NalUnitType::DepthSliceExtension => 21,
            NalUnitType::Reserved22 => 22,
            NalUnitType::Reserved23 => 23,
            NalUnitType::Unspecified24 => 24,
            NalUnitType::Unspecified25 => 25,
            NalUnitType::Unspecified26 => 26,
            NalUnitType::Unspecified27 => 27,
            NalUnitType::Unspecified28 => 28,
            NalUnitType::Unspecified29 => 29,
            NalUnitType::Unspecified30 => 30,
            NalUnitType::Unspecified31 => 31,
        }
    }

    /// Whether the unit is a slice that is not partitioned.
    pub fn is_slice(self) -> bool
        ensures { result ≡ is_slice (type_number self) }
    {
        matches!(self, NalUnitType::Slice | NalUnitType::IdrSlice)
    }

    /// Whether the unit is a slice data partition.
    pub fn is_partition(self) -> bool
        ensures { result ≡ is_partition (type_number self) }
    {
        matches!(
            self,
            NalUnitType::PartitionA | NalUnitType::PartitionB | NalUnitType::PartitionC
        )
    }

    /// Whether nal_ref_idc of the unit is never 0 (7.4.1).
    fn is_always_reference(self) -> bool
        ensures { result ≡ is_always_reference (type_number self) }
    {
        matches!(
            self,
            NalUnitType::IdrSlice | NalUnitType::SequenceSet | NalUnitType::PictureSet
        )
    }

    /// Whether nal_ref_idc of the unit is always 0 (7.4.1).
    fn is_never_reference(self) -> bool
        ensures { result ≡ is_never_reference (type_number self) }
    {
        matches!(
            self,
            NalUnitType::Sei
                | NalUnitType::Delimiter
                | NalUnitType::EndOfSequence
                | NalUnitType::EndOfStream
                | NalUnitType::Filler
        )
    }

    /// Whether the unit may have this nal_ref_idc (7.4.1).
    pub fn fits(self, nal_ref_idc: u8) -> bool
        ensures { result ≡ fits_kind (type_number self) nal_ref_idc }
    {
        if self.is_always_reference() {
            nal_ref_idc != 0
        } else if self.is_never_reference() {
            nal_ref_idc == 0
        } else {
            true
        }
    }

    /// Whether the unit ends the picture before it (7.4.1.2.3), but for a slice.
    pub fn ends_picture(self) -> bool
        ensures { result ≡ ends_picture (type_number self) }
    {
        matches!(
            self,
            NalUnitType::Sei
                | NalUnitType::SequenceSet
                | NalUnitType::PictureSet
                | NalUnitType::Delimiter
                | NalUnitType::EndOfSequence
                | NalUnitType::EndOfStream
        )
    }
}
