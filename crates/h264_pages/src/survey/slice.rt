//! The unit and the slice that are read.
#![tactic(auto)]

ghost use Rattle.std.specs.Prelude.{◌≡◌};
ghost use Rattle.h264_pages.specs.SurveyedPictures.{slice_begun, slice_type_of, slice_after};

use h264_base::{ElementName, SliceType};
use h264_bits::count_of;
use h264_units::NalUnitType;

/// A unit that was told.
#[derive(Clone, Copy)]
pub struct Unit {
    /// The byte of the input where it begins.
    pub byte: u64,
    pub nal_unit_type: NalUnitType,
    pub nal_ref_idc: u8,
    /// Its length in bytes.
    pub length: u64,
    /// Its number in the stream, from 0.
    pub number: u64,
}

/// The slice that is read.
#[derive(Clone, Copy)]
pub struct Slice {
    pub first_mb_in_slice: u64,
    /// Its type, once it was read.
    pub slice_type: Option<SliceType>,
    pub pic_parameter_set_id: Option<u64>,
    pub frame_num: Option<u64>,
}

/// The type that a value of slice_type names (table 7-6), where it is P or I.
pub(crate) fn slice_type_of(value: u64) -> Option<SliceType>
    ensures { result ≡ slice_type_of value }
{
    match value {
        0 | 5 => Some(SliceType::P),
        2 | 7 => Some(SliceType::I),
        _ => None,
    }
}

impl Slice {
    /// A slice of which first_mb_in_slice was read.
    fn begun(first_mb_in_slice: u64) -> Slice
        ensures { result ≡ slice_begun first_mb_in_slice }
    {
        Slice {
            first_mb_in_slice,
            slice_type: None,
            pic_parameter_set_id: None,
            frame_num: None,
        }
    }

    /// Notes an element in the slice that is read, where there is one; first_mb_in_slice begins one.
    #[tactic(auto, unfolding(crate::specs::SurveyedPictures::slice_after))]
    pub fn note_element(slice: &mut Option<Slice>, name: ElementName, value: i64)
        ensures { slice.new ≡ slice_after name value slice.old }
    {
        match name {
            ElementName::FirstMbInSlice => *slice = Some(Slice::begun(count_of(value))),
            ElementName::SliceType => {
                if let Some(known) = *slice {
                    *slice = Some(Slice {
                        slice_type: slice_type_of(count_of(value)),
                        ..known
                    });
                }
            }
            ElementName::PicParameterSetId => {
                if let Some(known) = *slice {
                    *slice = Some(Slice {
                        pic_parameter_set_id: Some(count_of(value)),
                        ..known
                    });
                }
            }
            ElementName::FrameNum => {
                if let Some(known) = *slice {
                    *slice = Some(Slice {
                        frame_num: Some(count_of(value)),
                        ..known
                    });
                }
            }
            _ => {}
        }
    }
}
