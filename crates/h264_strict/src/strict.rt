//! Rules of H.264 that no verdict rests on, judged over what a sink is told.
#![tactic(auto)]

ghost use Rattle.std.specs.Prelude.{◌≡◌, ◌++◌, get_or, None, Some, []};
ghost use Rattle.h264_base.specs.Call.{OfUnit, OfSlice, OfElement};
ghost use Rattle.h264_base.specs.declared.mode.SliceType.{SliceType};
ghost use Rattle.h264_strict.specs.declared.strict_rule.StrictRule.{StrictRule};
ghost use Rattle.h264_strict.specs.StrictRules.{listed, place_of};
ghost use Rattle.h264_strict.specs.Strict.{by_marking, marking_after, by_macroblock, by_element, by_order, has_other_length, picture_in, has_idr_count};
ghost use Rattle.h264_strict.specs.Strict.{comes_too_soon, by_numbers, by_time, after_element, after_unit, start, with_place, first_bit};
ghost use Rattle.h264_strict.specs.Strict.{after_beginning, by_beginning, bytes_before, bytes_with, by_bytes};
ghost use Rattle.h264_strict.specs.Strict.{TookStrict, Advances, found_of, with_places, bits_for, begins_access_unit};
ghost use Rattle.h264_units.specs.UnitTypes.{type_number};

use crate::strict_pictures::{NewPicture, Pictures};
use crate::strict_rule::{STRICT_RULES, StrictRule, broken_if};
use crate::strict_sets::SetFacts;
use crate::strict_vectors::Vectors;
use h264_base::ElementName;
use h264_bits::count_of;
use h264_units::NalUnitType;

/// Where a rule is broken: the first bit, and at how many places, as far as 64 bits count.
#[derive(Clone, Copy)]
pub struct Places {
    pub first: u64,
    pub count: u64,
}

/// What the header of the slice that is read says of its picture.
#[derive(Clone, Copy)]
pub struct Marking {
    /// It is an IDR picture.
    pub idr: bool,
    /// Its marking has one of the operations 1 to 3.
    pub unmarks: bool,
    /// Its marking has operation 5.
    pub resets: bool,
}

impl Marking {
    /// Whether an operation excludes one that came before it.
    fn is_excluded(self, operation: u64) -> bool
        ensures { result ≡ by_marking self operation }
    {
        operation == 5 && self.unmarks || 1 <= operation && operation <= 3 && self.resets
    }

    /// Notes an element.
    #[tactic(auto, unfolding(crate::specs::Strict::marking_after))]
    fn note(&mut self, name: ElementName, value: u64)
        ensures { self.new ≡ marking_after self.old name value }
    {
        match name {
            ElementName::FirstMbInSlice => {
                self.idr = false;
                self.unmarks = false;
                self.resets = false;
            }
            ElementName::IdrPicId => self.idr = true,
            ElementName::MemoryManagementControlOperation => {
                self.unmarks = self.unmarks || 1 <= value && value <= 3;
                self.resets = self.resets || value == 5;
            }
            _ => {}
        }
    }
}

/// What the rules have to know of the calls so far.
#[derive(Clone, Copy)]
pub struct Standing {
    pub marking: Marking,
    /// A unit of an access unit came that has no slice yet.
    pub begun: bool,
    /// The end of the stream came.
    pub ended: bool,
    /// nal_ref_idc of the unit that is read is not 0.
    pub is_reference: bool,
    /// NumBytesInNALunit of the unit that is read.
    pub unit_length: u64,
    pub set: SetFacts,
    pub pictures: Pictures,
    /// NumBytesInNALunit of the slices of the last picture so far, in sum.
    pub picture_bytes: u64,
    pub vectors: Vectors,
}

/// Whether a unit is of a kind that begins an access unit before its first slice.
pub(crate) fn begins_access_unit(kind: NalUnitType) -> bool
    ensures { result ≡ begins_access_unit (type_number kind) }
{
    matches!(
        kind,
        NalUnitType::Sei
            | NalUnitType::SequenceSet
            | NalUnitType::PictureSet
            | NalUnitType::Delimiter
            | NalUnitType::Prefix
            | NalUnitType::SubsetSequenceSet
            | NalUnitType::DepthSet
            | NalUnitType::Reserved17
            | NalUnitType::Reserved18
    )
}

/// Whether a unit is longer or shorter than its syntax allows.
fn has_other_length(kind: NalUnitType, length: u64) -> bool
    ensures { result ≡ has_other_length (type_number kind) length }
{
    match kind {
        NalUnitType::Delimiter => length != 2,
        NalUnitType::EndOfSequence | NalUnitType::EndOfStream => length != 1,
        _ => false,
    }
}

/// Whether the count of an IDR picture is not 0.
fn has_idr_count(picture: NewPicture) -> bool
    ensures { result ≡ has_idr_count picture }
{
    picture.is_idr && picture.count != 0
}

impl Standing {
    /// Before the first call.
    fn new() -> Standing
        ensures { result ≡ start }
    {
        Standing {
            marking: Marking {
                idr: false,
                unmarks: false,
                resets: false,
            },
            begun: false,
            ended: false,
            is_reference: false,
            unit_length: 0,
            set: SetFacts::new(),
            pictures: Pictures::new(),
            picture_bytes: 0,
            vectors: Vectors::new(),
        }
    }

    /// The rule that an element of a macroblock breaks, which tells how many vectors it has.
    fn by_macroblock(&self, name: ElementName, value: u64) -> Option<StrictRule>
        ensures { result ≡ by_macroblock self.now name value }
    {
        let passes = self.vectors.passes(self.set.max_vectors(), name, value);
        broken_if(passes, StrictRule::VectorCount)
    }

    /// The rule that an element breaks.
    #[tactic(auto, unfolding(crate::specs::Strict::by_element))]
    fn by_element(&self, name: ElementName, value: u64) -> Option<StrictRule>
        ensures { result ≡ by_element self.now name value }
    {
        match name {
            ElementName::MemoryManagementControlOperation => {
                broken_if(
                    self.marking.is_excluded(value),
                    StrictRule::OperationsExclude,
                )
            }
            ElementName::LongTermReferenceFlag => broken_if(
                value != 0 && self.set.holds_no_frame(),
                StrictRule::LongTermReference,
            ),
            ElementName::LumaLog2WeightDenom => {
                broken_if(self.set.is_baseline(), StrictRule::Weights)
            }
            ElementName::MbSkipRun => self.by_macroblock(ElementName::MbSkipRun, value),
            ElementName::MbType => self.by_macroblock(ElementName::MbType, value),
            ElementName::SubMbType => self.by_macroblock(ElementName::SubMbType, value),
            _ => self.set.by_set(name, value),
        }
    }

    /// The rule that a unit breaks by its place among the others, or by its nal_ref_idc.
    #[tactic(auto, unfolding(crate::specs::Strict::by_order))]
    fn by_order(&self, kind: NalUnitType, nal_ref_idc: u8) -> Option<StrictRule>
        ensures { result ≡ by_order self.now (type_number kind) nal_ref_idc }
    {
        match kind {
            NalUnitType::Delimiter => broken_if(self.begun, StrictRule::DelimiterFirst),
            NalUnitType::EndOfSequence | NalUnitType::EndOfStream => {
                broken_if(self.begun, StrictRule::EndFirst)
            }
            NalUnitType::Filler => broken_if(self.begun, StrictRule::FillerFirst),
            NalUnitType::SequenceSetExtension | NalUnitType::SubsetSequenceSet => {
                broken_if(nal_ref_idc == 0, StrictRule::SetRefIdc)
            }
            _ => None,
        }
    }

    /// The picture that a slice with first_mb_in_slice 0 begins.
    fn picture_in(&self, frame_num: u32, count: i32) -> NewPicture
        ensures { result ≡ picture_in self.now frame_num count }
    {
        NewPicture {
            is_idr: self.marking.idr,
            is_reference: self.is_reference,
            resets: self.marking.resets,
            frame_num,
            count,
        }
    }

    /// Whether a picture follows another one of its sequence too soon.
    fn comes_too_soon(&self, picture: NewPicture) -> bool
        ensures { result ≡ comes_too_soon self.now picture }
    {
        !picture.is_idr && self.set.is_too_fast()
    }

    /// Notes an element.
    fn note_element(&mut self, name: ElementName, value: u64)
        ensures { self.new ≡ after_element self.old name value }
    {
        self.marking.note(name, value);
        self.set.note(name, value);
        self.vectors.note(name, value);
    }

    /// The bytes of the picture before the slice that is read.
    fn bytes_before(&self, first_mb_in_slice: u32) -> u64
        ensures { result ≡ bytes_before self.now first_mb_in_slice }
    {
        if first_mb_in_slice == 0 {
            0
        } else {
            self.picture_bytes
        }
    }

    /// The bytes of the picture with the slice that is read.
    fn bytes_with(&self, first_mb_in_slice: u32) -> u64
        ensures { result ≡ bytes_with self.now first_mb_in_slice }
    {
        self.bytes_before(first_mb_in_slice)
            .saturating_add(self.unit_length)
    }

    /// Whether the slice that is read is the one with which its picture has too many bytes.
    fn by_bytes(&self, first_mb_in_slice: u32) -> bool
        ensures { result ≡ by_bytes self.now first_mb_in_slice }
    {
        let before = self.bytes_before(first_mb_in_slice);
        let with = self.bytes_with(first_mb_in_slice);
        !self.set.are_too_many_bytes(before) && self.set.are_too_many_bytes(with)
    }

    /// Notes a unit.
    fn note_unit(&mut self, kind: NalUnitType, nal_ref_idc: u8, length: u64)
        ensures { self.new ≡ after_unit self.old (type_number kind) nal_ref_idc length }
    {
        self.begun = begins_access_unit(kind) || self.begun && !kind.is_slice();
        self.ended = self.ended || matches!(kind, NalUnitType::EndOfStream);
        self.is_reference = nal_ref_idc != 0;
        self.unit_length = length;
    }
}

/// What was found of each rule, over the calls so far.
#[derive(Clone, Copy)]
pub struct Strict {
    pub standing: Standing,
    /// By the places of the rules.
    pub found: [Option<Places>; STRICT_RULES],
}

/// The first bit of a byte, as far as 64 bits go.
fn first_bit(byte: u64) -> u64
    ensures { result ≡ first_bit byte }
{
    byte.saturating_mul(8)
}

/// One place more.
fn with_place(places: Option<Places>, bit: u64) -> Places
    ensures { result ≡ with_place places bit }
{
    match places {
        None => Places {
            first: bit,
            count: 1,
        },
        Some(places) => Places {
            first: places.first,
            count: places.count.saturating_add(1),
        },
    }
}

/// Notes that a rule is broken at this bit, if there is one.
pub(crate) fn note_in(
    found: &mut [Option<Places>; STRICT_RULES],
    rule: Option<StrictRule>,
    bit: u64,
)
    ensures { (r : StrictRule) → get_or found.new (place_of r) None ≡ with_places (get_or found.old (place_of r) None) (bits_for r bit (listed rule)) }
{
    let Some(rule) = rule else {
        return;
    };
    let place = rule.place();
    found[place] = Some(with_place(found[place], bit));
}

impl Strict {
    /// Before the first call.
    pub fn new() -> Strict
        ensures { TookStrict result [] }
    {
        Strict {
            standing: Standing::new(),
            found: [None; STRICT_RULES],
        }
    }

    /// Where a rule is broken, if it is.
    pub fn places(&self, rule: StrictRule) -> Option<Places>
        ensures { result ≡ found_of self.now rule }
    {
        self.found[rule.place()]
    }

    /// Whether the active sequence parameter set is known: all sets so far have one id.
    pub fn knows_set(&self) -> bool
        ensures { result ≡ self.now.standing.set.is_alone }
    {
        self.standing.set.is_alone
    }

    /// Notes that a rule is broken here, if there is one.
    fn note(&mut self, rule: Option<StrictRule>, bit: u64)
        ensures standing { self.new.standing ≡ self.old.standing }
        ensures found { (r : StrictRule) → found_of self.new r ≡ with_places (found_of self.old r) (bits_for r bit (listed rule)) }
    {
        note_in(&mut self.found, rule, bit);
    }

    /// Notes which of two rules are broken here.
    fn note_two(&mut self, first: Option<StrictRule>, second: Option<StrictRule>, bit: u64)
        ensures standing { self.new.standing ≡ self.old.standing }
        ensures found { (r : StrictRule) → found_of self.new r ≡ with_places (found_of self.old r) (bits_for r bit (listed first ++ listed second)) }
    {
        self.note(first, bit);
        self.note(second, bit);
    }

    /// Notes a unit.
    pub fn note_unit(&mut self, byte: u64, kind: NalUnitType, nal_ref_idc: u8, length: u64)
        ensures { Advances (OfUnit byte (type_number kind) nal_ref_idc length) self.old self.new }
    {
        let bit = first_bit(byte);
        let order = self.standing.by_order(kind, nal_ref_idc);
        let is_other = has_other_length(kind, length);
        let ended = self.standing.ended;
        self.note_two(order, broken_if(is_other, StrictRule::UnitLength), bit);
        self.note(broken_if(ended, StrictRule::AfterEndOfStream), bit);
        self.standing.note_unit(kind, nal_ref_idc, length);
    }

    /// Notes an element.
    pub fn note_element(&mut self, name: ElementName, bit: u64, value: i64)
        ensures { Advances (OfElement name bit value) self.old self.new }
    {
        let count = count_of(value);
        let rule = self.standing.by_element(name, count);
        let limit = self.standing.set.by_limits(name, count);
        self.note_two(rule, limit, bit);
        self.standing.note_element(name, count);
    }

    /// Notes what a picture breaks by its numbers.
    fn note_numbers(&mut self, picture: NewPicture, bit: u64)
        ensures standing { self.new.standing ≡ self.old.standing }
        ensures found { (r : StrictRule) → found_of self.new r ≡ with_places (found_of self.old r) (bits_for r bit (by_numbers self.old.standing picture)) }
    {
        let repeats = self.standing.pictures.repeats_number(picture);
        self.note_two(
            broken_if(has_idr_count(picture), StrictRule::IdrCount),
            broken_if(repeats, StrictRule::FrameNumRepeated),
            bit,
        );
    }

    /// Notes what a picture breaks by its place in the order of output, and by its time.
    fn note_time(&mut self, picture: NewPicture, bit: u64)
        ensures standing { self.new.standing ≡ self.old.standing }
        ensures found { (r : StrictRule) → found_of self.new r ≡ with_places (found_of self.old r) (bits_for r bit (by_time self.old.standing picture)) }
    {
        let is_in_order = self.standing.set.is_in_order();
        let order = self.standing.pictures.by_count(is_in_order, picture);
        let is_too_soon = self.standing.comes_too_soon(picture);
        self.note_two(order, broken_if(is_too_soon, StrictRule::FrameRate), bit);
    }

    /// Notes the picture that a slice begins; that of macroblock 0 does.
    fn note_beginning(&mut self, first_mb_in_slice: u32, frame_num: u32, count: i32, bit: u64)
        ensures standing { self.new.standing ≡ after_beginning self.old.standing first_mb_in_slice frame_num count }
        ensures found { (r : StrictRule) → found_of self.new r ≡
            with_places (found_of self.old r) (bits_for r bit (by_beginning self.old.standing first_mb_in_slice frame_num count)) }
    {
        if first_mb_in_slice != 0 {
            return;
        }
        let picture = self.standing.picture_in(frame_num, count);
        self.note_numbers(picture, bit);
        self.note_time(picture, bit);
        self.standing.pictures.note(picture);
    }

    /// Notes a slice.
    pub fn note_slice(&mut self, byte: u64, first_mb_in_slice: u32, frame_num: u32, count: i32)
        ensures { (kind : SliceType) → Advances (OfSlice byte first_mb_in_slice kind frame_num count) self.old self.new }
    {
        let bit = first_bit(byte);
        let passes = self.standing.by_bytes(first_mb_in_slice);
        let bytes = self.standing.bytes_with(first_mb_in_slice);
        self.note_beginning(first_mb_in_slice, frame_num, count, bit);
        self.note(broken_if(passes, StrictRule::PictureBytes), bit);
        self.standing.picture_bytes = bytes;
    }
}
