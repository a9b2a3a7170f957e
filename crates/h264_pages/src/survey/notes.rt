//! The survey of a stream.
#![tactic(auto)]

ghost use Rattle.std.specs.Prelude.{◌≡◌, ◌||◌, false, None, [], find, reverse, length, nat_lt, IfOk};
ghost use Rattle.circular_buffer.specs.Buffer.{last_item};
ghost use Rattle.h264_units.specs.UnitTypes.{type_number};
ghost use Rattle.h264_pages.specs.SurveyedPictures.{begins_picture, places_after};
ghost use Rattle.h264_pages.specs.Surveyed.{IsTold, Follows, nothing_told, and_unit, and_frame, and_element, coded_after, begins_at, macroblock_read};
ghost use Rattle.h264_pages.specs.Surveyed.{picture_set_named, sequence_read};

use crate::survey::counts::MacroblockCounts;
use crate::survey::pictures::Pictures;
use crate::survey::sequence::{PictureSet, Sequence};
use crate::survey::sets::{ParameterSet, Sets};
use crate::survey::slice::{Slice, Unit};
use circular_buffer::HeapCircularBuffer;
use h264_base::ElementName;
use h264_lines::reading::Reading;
use h264_lines::trail::Element;
use h264_units::NalUnitType;
use std::alloc::{AllocError, Global};

/// How many elements are kept: more than a slice's header or a macroblock has.
const KEPT: usize = 4096;

/// What the calls of a stream tell.
#[derive(Drop)]
pub struct Survey {
    /// How many units were told, up to 2^64 - 1.
    pub units: u64,
    /// How many frames were output, up to 2^64 - 1.
    pub frames: u64,
    /// The last elements that were told.
    pub elements: HeapCircularBuffer<Element>,
    /// The unit that was told last.
    pub unit: Option<Unit>,
    /// The slice that is read, where the unit is one and its first element was read.
    pub slice: Option<Slice>,
    /// How far the stream was read.
    pub reading: Reading,
    /// The address after the last macroblock that was read.
    pub coded: u64,
    pub sets: Sets,
    pub pictures: Pictures,
    /// The macroblocks that were read, by type.
    pub macroblocks: MacroblockCounts,
}

impl Survey {
    /// A survey of nothing. AllocError: there is no memory for the last elements.
    pub fn new(alloc: Global) -> Result<Survey, AllocError>
        ensures told { IfOk result (λ survey. IsTold survey nothing_told) }
        ensures places_taken { IfOk result (λ survey. survey.pictures.places_taken.items ≡ []) }
        ensures pictures { IfOk result (λ survey. survey.pictures.is_short ≡ false) }
        ensures sets { IfOk result (λ survey. survey.sets.is_short ≡ false) }
    {
        let elements = HeapCircularBuffer::with_capacity(alloc, KEPT)?;
        Ok(Survey {
            units: 0,
            frames: 0,
            elements,
            unit: None,
            slice: None,
            reading: Reading::new(),
            coded: 0,
            sets: Sets::new(alloc),
            pictures: Pictures::new(alloc),
            macroblocks: MacroblockCounts::default(),
        })
    }

    /// Notes a unit.
    pub fn note_unit(&mut self, byte: u64, nal_unit_type: NalUnitType, nal_ref_idc: u8, length: u64)
        ensures told { Follows (and_unit byte (type_number nal_unit_type) nal_ref_idc length) self.old self.new }
        ensures places_taken { self.new.pictures.places_taken.items ≡ self.old.pictures.places_taken.items }
        ensures pictures { self.new.pictures.is_short ≡ self.old.pictures.is_short }
        ensures sets { self.old.sets.read ≡ None → self.new.sets.is_short ≡ self.old.sets.is_short }
    {
        self.unit = Some(Unit {
            byte,
            nal_unit_type,
            nal_ref_idc,
            length,
            number: self.units,
        });
        self.units = self.units.saturating_add(1);
        self.slice = None;
        self.reading.note_unit();
        self.sets.note_unit(nal_unit_type);
    }

    /// Notes a frame that is output.
    pub fn note_frame(&mut self)
        ensures told { Follows and_frame self.old self.new }
        ensures places_taken { self.new.pictures.places_taken.items ≡ self.old.pictures.places_taken.items }
        ensures pictures { self.new.pictures.is_short ≡ self.old.pictures.is_short }
        ensures sets { self.new.sets.is_short ≡ self.old.sets.is_short }
    {
        self.frames = self.frames.saturating_add(1);
    }

    /// Notes an element.
    pub fn note_element(&mut self, name: ElementName, bit: u64, value: i64)
        ensures told { Follows (and_element name bit value) self.old self.new }
        ensures places_taken { self.new.pictures.places_taken.items ≡ self.old.pictures.places_taken.items }
        ensures pictures { begins_picture name value ≡ false → self.new.pictures.is_short ≡ self.old.pictures.is_short }
        ensures sets { self.new.sets.is_short ≡ self.old.sets.is_short }
    {
        let _ = self.elements.push_back(Element { name, bit, value });
        self.sets.note_element(name, value);
        self.pictures
            .note_element(name, value, &self.unit, &self.slice);
        self.macroblocks.note_element(name, value, &self.slice);
        Slice::note_element(&mut self.slice, name, value);
        self.reading.note_element(name, value);
        self.coded = self.coded_after(self.coded);
    }

    /// The address after the last macroblock that was read, where it was this one before the last element.
    fn coded_after(&self, coded: u64) -> u64
        ensures { result ≡ coded_after self.now.reading coded }
    {
        match self.reading.reach {
            Some(reach) if reach.macroblock.is_some() => reach.next,
            _ => coded,
        }
    }
}

fn begins_at(bit: u64, element: &Element) -> bool
    ensures { result ≡ begins_at bit element.now }
{
    element.bit == bit
}

/// The last of these elements that begins at this bit.
fn newest_at(elements: &[Element], bit: u64) -> Option<Element>
    ensures { result ≡ find (begins_at bit) (reverse elements.now) }
{
    elements
        .iter()
        .rev()
        .copied()
        .find(|element| begins_at(bit, element))
}

impl Survey {
    /// Notes how many places of the picture buffer are taken. The first note after a picture has begun is that picture's.
    pub fn note_places_taken(&mut self, places: u64)
        ensures told { Follows (λ t. t) self.old self.new }
        ensures places_taken { self.new.pictures.is_short ≡ false → self.new.pictures.places_taken.items ≡
            places_after places self.old.pictures.list.items self.old.pictures.places_taken.items }
        ensures pictures { nat_lt (length self.old.pictures.places_taken.items) (length self.old.pictures.list.items) ≡ false →
            self.new.pictures.is_short ≡ self.old.pictures.is_short }
        ensures sets { self.new.sets.is_short ≡ self.old.sets.is_short }
    {
        self.pictures.note_places_taken(places);
    }

    /// Whether memory was wanting for a picture or a set, so that the survey is of the first ones alone.
    pub fn is_short(&self) -> bool
        ensures { result ≡ self.now.sets.is_short || self.now.pictures.is_short }
    {
        self.sets.is_short || self.pictures.is_short
    }

    /// The address of the macroblock that was begun last in the slice that is read, the first one of a run that is skipped.
    pub fn macroblock(&self) -> Option<u64>
        ensures { result ≡ macroblock_read self.now.reading }
    {
        self.reading.reach?.macroblock
    }

    /// How many pictures were begun.
    pub fn picture_count(&self) -> u64
        ensures { result ≡ length self.now.pictures.list.items }
    {
        self.pictures.list.len() as u64
    }

    /// The element that begins at this bit, the newest where several do.
    pub fn element_at(&self, bit: u64) -> Option<Element>
        ensures { result ≡ find (begins_at bit) (reverse self.now.elements.items) }
    {
        let (older, newer) = self.elements.as_slices();
        newest_at(newer, bit).or(newest_at(older, bit))
    }

    /// The element that was read last.
    pub fn last_element(&self) -> Option<Element>
        ensures { result ≡ last_item self.now.elements.items }
    {
        self.elements.back().copied()
    }

    /// The picture parameter set that the slice names, where it was taken up.
    fn picture_set_named(&self) -> Option<PictureSet>
        ensures { result ≡ picture_set_named self.now.slice self.now.sets.picture_sets.items }
    {
        self.sets.picture_set(self.slice?.pic_parameter_set_id?)
    }

    /// The sequence parameter set that is read, or that the slice uses; else the one that came first.
    pub fn sequence(&self) -> Option<Sequence>
        ensures { result ≡ sequence_read self.now.sets.read self.now.slice self.now.sets.picture_sets.items self.now.sets.sequences.items }
    {
        if let Some(ParameterSet::Sequence(set)) = self.sets.read {
            return Some(set);
        }
        match self.picture_set_named() {
            Some(set) => self.sets.sequence(set.seq_parameter_set_id),
            None => self.sets.sequences.first().copied(),
        }
    }
}
