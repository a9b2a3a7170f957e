//! The parameter sets that were told.
#![tactic(auto)]

ghost use Rattle.std.specs.Prelude.{◌≡◌, false, None, [], position, option_map};
ghost use Rattle.h264_units.specs.UnitTypes.{type_number};
ghost use Rattle.h264_pages.specs.SurveyedSets.{has_sequence_id, has_picture_id, put_sequence, put_picture_set, begun, with_set_element, kept_sequences};
ghost use Rattle.h264_pages.specs.SurveyedSets.{kept_picture_sets, find_sequence, find_picture_set, find_sequence_of};

use crate::survey::sequence::{PictureSet, Sequence};
use h264_base::ElementName;
use h264_units::NalUnitType;
use std::alloc::Global;

/// A parameter set.
#[derive(Clone, Copy)]
pub enum ParameterSet {
    /// A sequence parameter set (7.3.2.1).
    Sequence(Sequence),
    /// A picture parameter set (7.3.2.2).
    Picture(PictureSet),
}

impl ParameterSet {
    /// A set of which no element was read, where a unit of this type holds one.
    fn of(nal_unit_type: NalUnitType) -> Option<ParameterSet>
        ensures { result ≡ begun (type_number nal_unit_type) }
    {
        match nal_unit_type {
            NalUnitType::SequenceSet => Some(ParameterSet::Sequence(Sequence::default())),
            NalUnitType::PictureSet => Some(ParameterSet::Picture(PictureSet::default())),
            _ => None,
        }
    }

    /// The set after an element of it.
    fn after(self, name: ElementName, value: i64) -> ParameterSet
        ensures { result ≡ with_set_element name value self }
    {
        match self {
            ParameterSet::Sequence(sequence) => {
                let mut sequence = sequence;
                sequence.note(name, value);
                ParameterSet::Sequence(sequence)
            }
            ParameterSet::Picture(set) => {
                let mut set = set;
                set.note(name, value);
                ParameterSet::Picture(set)
            }
        }
    }
}

/// The parameter sets that were told.
#[derive(Drop)]
pub struct Sets {
    /// The set that is read, where the unit holds one.
    pub read: Option<ParameterSet>,
    /// The sequence parameter sets by the order of their first units.
    pub sequences: Vec<Sequence>,
    /// The picture parameter sets by the order of their first units.
    pub picture_sets: Vec<PictureSet>,
    /// Whether memory was wanting for one, so that these are not all.
    pub is_short: bool,
}

fn has_sequence_id(id: u64, set: &Sequence) -> bool
    ensures { result ≡ has_sequence_id id set.now }
{
    set.seq_parameter_set_id == id
}

fn has_picture_id(id: u64, set: &PictureSet) -> bool
    ensures { result ≡ has_picture_id id set.now }
{
    set.pic_parameter_set_id == id
}

/// The place of the sequence parameter set of an id.
fn place_of_sequence(sets: &[Sequence], id: u64) -> Option<usize>
    ensures { result ≡ position (has_sequence_id id) sets.now }
{
    sets.iter().position(|set| has_sequence_id(id, set))
}

/// The place of the picture parameter set of an id.
fn place_of_picture_set(sets: &[PictureSet], id: u64) -> Option<usize>
    ensures { result ≡ position (has_picture_id id) sets.now }
{
    sets.iter().position(|set| has_picture_id(id, set))
}

impl Sets {
    /// No sets.
    pub fn new(alloc: Global) -> Sets
        ensures read { result.read ≡ None }
        ensures sequences { result.sequences.items ≡ [] }
        ensures picture_sets { result.picture_sets.items ≡ [] }
        ensures short { result.is_short ≡ false }
    {
        Sets {
            read: None,
            sequences: Vec::new(alloc),
            picture_sets: Vec::new(alloc),
            is_short: false,
        }
    }

    /// Puts a sequence parameter set in the place of the one with its id, or after the others.
    fn put_sequence(&mut self, set: Sequence)
        ensures read { self.new.read ≡ self.old.read }
        ensures sequences { self.new.is_short ≡ false → self.new.sequences.items ≡ put_sequence set self.old.sequences.items }
        ensures picture_sets { self.new.picture_sets.items ≡ self.old.picture_sets.items }
        ensures short { self.new.is_short ≡ false → self.old.is_short ≡ false }
    {
        match place_of_sequence(&self.sequences, set.seq_parameter_set_id) {
            Some(place) => self.sequences[place] = set,
            None => {
                if self.sequences.push(set).is_err() {
                    self.is_short = true;
                }
            }
        }
    }

    /// Puts a picture parameter set in the place of the one with its id, or after the others.
    fn put_picture_set(&mut self, set: PictureSet)
        ensures read { self.new.read ≡ self.old.read }
        ensures sequences { self.new.sequences.items ≡ self.old.sequences.items }
        ensures picture_sets { self.new.is_short ≡ false → self.new.picture_sets.items ≡ put_picture_set set self.old.picture_sets.items }
        ensures short { self.new.is_short ≡ false → self.old.is_short ≡ false }
    {
        match place_of_picture_set(&self.picture_sets, set.pic_parameter_set_id) {
            Some(place) => self.picture_sets[place] = set,
            None => {
                if self.picture_sets.push(set).is_err() {
                    self.is_short = true;
                }
            }
        }
    }

    /// Notes a unit of this type. The set that was read before has met its rules, and is taken up.
    pub fn note_unit(&mut self, nal_unit_type: NalUnitType)
        ensures read { self.new.read ≡ begun (type_number nal_unit_type) }
        ensures sequences { self.new.is_short ≡ false → self.new.sequences.items ≡ kept_sequences self.old.read self.old.sequences.items }
        ensures picture_sets { self.new.is_short ≡ false → self.new.picture_sets.items ≡ kept_picture_sets self.old.read self.old.picture_sets.items }
        ensures short { self.new.is_short ≡ false → self.old.is_short ≡ false }
        ensures stays { self.old.read ≡ None → self.new.is_short ≡ self.old.is_short }
    {
        match self.read {
            Some(ParameterSet::Sequence(set)) => self.put_sequence(set),
            Some(ParameterSet::Picture(set)) => self.put_picture_set(set),
            None => {}
        }
        self.read = ParameterSet::of(nal_unit_type);
    }

    /// Notes an element of the set that is read; passes over one where none is.
    pub fn note_element(&mut self, name: ElementName, value: i64)
        ensures read { self.new.read ≡ option_map (with_set_element name value) self.old.read }
        ensures sequences { self.new.sequences.items ≡ self.old.sequences.items }
        ensures picture_sets { self.new.picture_sets.items ≡ self.old.picture_sets.items }
        ensures short { self.new.is_short ≡ self.old.is_short }
    {
        if let Some(set) = self.read {
            self.read = Some(set.after(name, value));
        }
    }

    /// The sequence parameter set of an id that was taken up.
    pub fn sequence(&self, id: u64) -> Option<Sequence>
        ensures { result ≡ find_sequence id self.now.sequences.items }
    {
        self.sequences
            .iter()
            .copied()
            .find(|set| has_sequence_id(id, set))
    }

    /// The sequence parameter set that the picture parameter set of an id names, where both were taken up.
    pub fn sequence_of(&self, pic_parameter_set_id: u64) -> Option<Sequence>
        ensures { result ≡ find_sequence_of pic_parameter_set_id self.now.picture_sets.items self.now.sequences.items }
    {
        let set = self.picture_set(pic_parameter_set_id)?;
        self.sequence(set.seq_parameter_set_id)
    }

    /// The picture parameter set of an id that was taken up.
    pub fn picture_set(&self, id: u64) -> Option<PictureSet>
        ensures { result ≡ find_picture_set id self.now.picture_sets.items }
    {
        self.picture_sets
            .iter()
            .copied()
            .find(|set| has_picture_id(id, set))
    }
}
