//! The pictures that were told.
#![tactic(auto)]

ghost use Rattle.std.specs.Prelude.{◌≡◌, ◌-◌, ◌==◌, false, true, None, [], ◌++◌, ◌∷◌, set, option_map, length, nat_lt, if◌then◌else◌};
ghost use Rattle.h264_pages.specs.SurveyedPictures.{unit_told, kind_begun, picture_begun, last_picture, change_last, with_slice, with_frame_num};
ghost use Rattle.h264_pages.specs.SurveyedPictures.{pictures_begun, pictures_after, previous_after, reference_after, places_after, begins_picture};
ghost use Rattle.h264_pages.specs.declared.survey.picture.Picture.{Picture};
ghost use Rattle.h264_pages.specs.declared.survey.picture.PictureKind.TheVariants as kinds;
ghost use Rattle.h264_units.specs.UnitTypes.{type_number};

use crate::survey::picture::{Picture, PictureKind};
use crate::survey::slice::{Slice, Unit, slice_type_of};
use h264_base::{ElementName, SliceType};
use h264_bits::count_of;
use h264_units::NalUnitType;
use std::alloc::Global;

/// memory_management_control_operation that unmarks all (7.4.3.3).
const RESET: u64 = 5;

/// The pictures that were told, in decoding order.
#[derive(Drop)]
pub struct Pictures {
    pub list: Vec<Picture>,
    /// How many places of the picture buffer were taken when each had its first unit (C.4.2).
    pub places_taken: Vec<u64>,
    /// PrevRefFrameNum before the picture that is read (7.4.3); none before the second picture.
    pub previous_reference: Option<u64>,
    /// Whether memory was wanting for one, so that these are the first ones alone.
    pub is_short: bool,
}

/// What a picture is predicted from, by the type of its first unit, until a slice of type P is read.
fn kind_begun(nal_unit_type: NalUnitType) -> PictureKind
    ensures { result ≡ kind_begun (type_number nal_unit_type) }
{
    match nal_unit_type {
        NalUnitType::IdrSlice => PictureKind::Idr,
        _ => PictureKind::I,
    }
}

impl Pictures {
    /// No pictures.
    pub fn new(alloc: Global) -> Pictures
        ensures list { result.list.items ≡ [] }
        ensures places_taken { result.places_taken.items ≡ [] }
        ensures previous { result.previous_reference ≡ None }
        ensures short { result.is_short ≡ false }
    {
        Pictures {
            list: Vec::new(alloc),
            places_taken: Vec::new(alloc),
            previous_reference: None,
            is_short: false,
        }
    }

    /// Begins a picture with the slice of this unit.
    fn begin(&mut self, unit: Unit)
        ensures list { self.new.is_short ≡ false → self.new.list.items ≡ self.old.list.items ++ picture_begun (unit_told unit) ∷ [] }
        ensures places_taken { self.new.places_taken.items ≡ self.old.places_taken.items }
        ensures previous { self.new.previous_reference ≡ reference_after (last_picture self.old.list.items) self.old.previous_reference }
        ensures short { self.new.is_short ≡ false → self.old.is_short ≡ false }
    {
        if let Some(before) = self.list.last() {
            if before.is_reference {
                self.previous_reference = Some(if before.resets { 0 } else { before.frame_num });
            }
        }
        let picture = Picture {
            kind: kind_begun(unit.nal_unit_type),
            is_reference: unit.nal_ref_idc != 0,
            frame_num: 0,
            byte: unit.byte,
            bytes: 0,
            slices: 0,
            resets: false,
        };
        if self.is_short || self.list.push(picture).is_err() {
            self.is_short = true;
        }
    }

    /// Puts a picture in the place of the last, where there is one.
    fn set_last(&mut self, picture: Picture)
        ensures list { self.new.list.items ≡ set self.old.list.items (length self.old.list.items - 1) picture }
        ensures places_taken { self.new.places_taken.items ≡ self.old.places_taken.items }
        ensures previous { self.new.previous_reference ≡ self.old.previous_reference }
        ensures short { self.new.is_short ≡ self.old.is_short }
    {
        if let Some(last) = self.list.last_mut() {
            *last = picture;
        }
    }

    /// The last picture.
    fn last(&self) -> Option<Picture>
        ensures { result ≡ last_picture self.now.list.items }
    {
        self.list.last().copied()
    }

    /// Begins a slice whose first macroblock has this address, with this unit. The one of macroblock 0 begins a picture.
    fn begin_slice(&mut self, first: u64, unit: Unit)
        ensures list { self.new.is_short ≡ false → self.new.list.items ≡
            change_last (with_slice unit.length) (pictures_begun first (unit_told unit) self.old.list.items) }
        ensures places_taken { self.new.places_taken.items ≡ self.old.places_taken.items }
        ensures previous { self.new.previous_reference ≡
            (if first == 0 then reference_after (last_picture self.old.list.items) self.old.previous_reference else self.old.previous_reference) }
        ensures short { self.new.is_short ≡ false → self.old.is_short ≡ false }
        ensures stays { (first == 0) ≡ false → self.new.is_short ≡ self.old.is_short }
    {
        if first == 0 {
            self.begin(unit);
        }
        if let Some(picture) = self.last() {
            self.set_last(Picture {
                slices: picture.slices.saturating_add(1),
                bytes: picture.bytes.saturating_add(unit.length),
                ..picture
            });
        }
    }

    /// Notes frame_num of a slice whose first macroblock has this address.
    fn note_frame_num(&mut self, first: u64, frame_num: u64)
        ensures list { self.new.list.items ≡ with_frame_num first frame_num self.old.list.items }
        ensures places_taken { self.new.places_taken.items ≡ self.old.places_taken.items }
        ensures previous { self.new.previous_reference ≡ self.old.previous_reference }
        ensures short { self.new.is_short ≡ self.old.is_short }
    {
        if first == 0 {
            if let Some(picture) = self.last() {
                self.set_last(Picture {
                    frame_num,
                    ..picture
                });
            }
        }
    }

    /// Notes that a slice is of type P.
    fn note_predicted(&mut self)
        ensures list { self.new.list.items ≡ change_last (λ (p : Picture). record p { kind = kinds.P }) self.old.list.items }
        ensures places_taken { self.new.places_taken.items ≡ self.old.places_taken.items }
        ensures previous { self.new.previous_reference ≡ self.old.previous_reference }
        ensures short { self.new.is_short ≡ self.old.is_short }
    {
        if let Some(picture) = self.last() {
            self.set_last(Picture {
                kind: PictureKind::P,
                ..picture
            });
        }
    }

    /// Notes that all frames are unmarked.
    fn note_reset(&mut self)
        ensures list { self.new.list.items ≡ change_last (λ (p : Picture). record p { resets = true }) self.old.list.items }
        ensures places_taken { self.new.places_taken.items ≡ self.old.places_taken.items }
        ensures previous { self.new.previous_reference ≡ self.old.previous_reference }
        ensures short { self.new.is_short ≡ self.old.is_short }
    {
        if let Some(picture) = self.last() {
            self.set_last(Picture {
                resets: true,
                ..picture
            });
        }
    }

    /// Notes an element in the unit and the slice that are read.
    #[tactic(auto, unfolding(crate::specs::SurveyedPictures::pictures_after, crate::specs::SurveyedPictures::previous_after))]
    pub fn note_element(
        &mut self,
        name: ElementName,
        value: i64,
        unit: &Option<Unit>,
        slice: &Option<Slice>,
    )
        ensures list { self.new.is_short ≡ false →
            self.new.list.items ≡ pictures_after name value (option_map unit_told unit.now) slice.now self.old.list.items }
        ensures places_taken { self.new.places_taken.items ≡ self.old.places_taken.items }
        ensures previous { self.new.previous_reference ≡
            previous_after name value (option_map unit_told unit.now) self.old.list.items self.old.previous_reference }
        ensures short { self.new.is_short ≡ false → self.old.is_short ≡ false }
        ensures stays { begins_picture name value ≡ false → self.new.is_short ≡ self.old.is_short }
    {
        match name {
            ElementName::FirstMbInSlice => {
                if let Some(unit) = unit {
                    self.begin_slice(count_of(value), *unit);
                }
            }
            ElementName::SliceType => {
                if slice_type_of(count_of(value)) == Some(SliceType::P) {
                    self.note_predicted();
                }
            }
            ElementName::FrameNum => {
                if let Some(slice) = slice {
                    self.note_frame_num(slice.first_mb_in_slice, count_of(value));
                }
            }
            ElementName::MemoryManagementControlOperation => {
                if count_of(value) == RESET {
                    self.note_reset();
                }
            }
            _ => {}
        }
    }

    /// Notes how many places of the picture buffer are taken. The first note after a picture has begun is that picture's.
    pub fn note_places_taken(&mut self, places: u64)
        ensures places_taken { self.new.is_short ≡ false → self.new.places_taken.items ≡
            places_after places self.old.list.items self.old.places_taken.items }
        ensures list { self.new.list.items ≡ self.old.list.items }
        ensures previous { self.new.previous_reference ≡ self.old.previous_reference }
        ensures short { self.new.is_short ≡ false → self.old.is_short ≡ false }
        ensures stays { nat_lt (length self.old.places_taken.items) (length self.old.list.items) ≡ false → self.new.is_short ≡ self.old.is_short }
    {
        if self.places_taken.len() < self.list.len() && self.places_taken.push(places).is_err() {
            self.is_short = true;
        }
    }
}
