//! The rules on start codes, and on what a delimiter says of its picture (B.1.2, 7.4.2.4).
#![tactic(auto)]

ghost use Rattle.std.specs.Prelude.{◌≡◌};
ghost use Rattle.h264_strict.specs.StrictContent.{set_after, times_told};
ghost use Rattle.h264_strict.specs.StrictStarts.{no_units, first_byte, begins_picture, is_first, needs_zero_byte, has_zero_byte, lacks_zero_byte};
ghost use Rattle.h264_strict.specs.StrictStarts.{told_pic_type, pic_type_after, is_left_out, breaks_pic_type};
ghost use Rattle.h264_strict.specs.StrictStarts.{came_after, ended_last, after_unit, by_zero_byte, by_pic_type};
ghost use Rattle.h264_units.specs.UnitTypes.{type_number};

use crate::buffer_units::{Buffer, Came, Ended};
use crate::sei::{KnownSet, TimesTold};
use crate::strict::{Places, begins_access_unit};
use crate::strict_bytes::kind_of;
use crate::strict_rule::{STRICT_RULES, StrictRule, broken_if};
use h264_units::{NalUnit, NalUnitType};

/// A primary_pic_type that leaves no slice out.
const EVERY_SLICE: u8 = 7;

/// What these rules have to know of the units so far.
#[derive(Clone, Copy)]
pub struct UnitsBefore {
    /// The place after the last of them.
    pub past: u64,
    /// A unit of an access unit came that has no slice yet.
    pub begun: bool,
    /// The primary_pic_type of the access unit.
    pub pic_type: u8,
    /// The sequence parameter set that messages need.
    pub set: KnownSet,
    /// The coded picture buffer.
    pub buffer: Buffer,
}

/// What a reader of units noted so far.
#[derive(Clone, Copy)]
pub struct UnitsNoted {
    /// What was found of each rule, by its place.
    pub found: [Option<Places>; STRICT_RULES],
    pub before: UnitsBefore,
}

/// The first byte of a unit's RBSP, or 0 where there is none.
fn first_byte(body: &[u8]) -> u8
    ensures { result ≡ first_byte body.now }
{
    match body {
        [] => 0,
        [_header] => 0,
        [_header, byte, ..] => *byte,
    }
}

/// The primary_pic_type that a delimiter tells. One without a byte leaves no slice out.
fn told_pic_type(body: &[u8]) -> u8
    ensures { result ≡ told_pic_type body.now }
{
    match body {
        [] => EVERY_SLICE,
        [_header] => EVERY_SLICE,
        [_header, byte, ..] => *byte / 32,
    }
}

/// Whether a unit is the slice of macroblock 0.
fn begins_picture(kind: NalUnitType, body: &[u8]) -> bool
    ensures { result ≡ begins_picture (type_number kind) body.now }
{
    kind.is_slice() && 128 <= first_byte(body)
}

/// Whether a primary_pic_type leaves out the slice of macroblock 0 whose RBSP begins with this byte.
fn is_left_out(pic_type: u8, byte: u8) -> bool
    ensures { result ≡ is_left_out pic_type byte }
{
    let is_p = 192 <= byte || byte / 4 == 38;
    let is_i = byte / 16 == 11 || byte == 136;
    let leaves_i_out = pic_type == 3 || pic_type == 4;
    let leaves_p_out = pic_type == 0 || pic_type == 3 || pic_type == 4 || pic_type == 5;
    is_p && leaves_p_out || is_i && leaves_i_out
}

impl UnitsBefore {
    /// Before the first unit.
    pub(crate) fn new() -> UnitsBefore
        ensures { result ≡ no_units }
    {
        UnitsBefore {
            past: 0,
            begun: false,
            pic_type: EVERY_SLICE,
            set: KnownSet::NotYet,
            buffer: Buffer::new(),
        }
    }

    /// Whether a unit is the first of its access unit.
    fn is_first(self, kind: NalUnitType, body: &[u8]) -> bool
        ensures { result ≡ is_first self (type_number kind) body.now }
    {
        !self.begun && (begins_access_unit(kind) || begins_picture(kind, body))
    }

    /// Whether a unit has to have a zero_byte.
    fn needs_zero_byte(self, kind: NalUnitType, body: &[u8]) -> bool
        ensures { result ≡ needs_zero_byte self (type_number kind) body.now }
    {
        matches!(kind, NalUnitType::SequenceSet | NalUnitType::PictureSet)
            || kind.number() < NalUnitType::Prefix.number() && self.is_first(kind, body)
    }

    /// Whether a unit at this place has a zero_byte.
    fn has_zero_byte(self, from: u64) -> bool
        ensures { result ≡ has_zero_byte self from }
    {
        self.past < from.saturating_sub(3)
    }

    /// The primary_pic_type of the access unit of a unit.
    fn pic_type_after(self, kind: NalUnitType, body: &[u8]) -> u8
        ensures { result ≡ pic_type_after self (type_number kind) body.now }
    {
        if matches!(kind, NalUnitType::Delimiter) {
            return told_pic_type(body);
        }
        if self.is_first(kind, body) {
            EVERY_SLICE
        } else {
            self.pic_type
        }
    }

    /// The rule that a unit breaks by its start code.
    pub(crate) fn by_zero_byte(self, unit: &NalUnit) -> Option<StrictRule>
        ensures { result ≡ by_zero_byte self unit.now }
    {
        let needs = self.needs_zero_byte(kind_of(unit), unit.body());
        let has = self.has_zero_byte(unit.from());
        broken_if(needs && !has, StrictRule::ZeroByte)
    }

    /// The rule that a slice breaks by the delimiter of its picture.
    pub(crate) fn by_pic_type(self, unit: &NalUnit) -> Option<StrictRule>
        ensures { result ≡ by_pic_type self unit.now }
    {
        let kind = kind_of(unit);
        let body = unit.body();
        let left_out = is_left_out(self.pic_type_after(kind, body), first_byte(body));
        broken_if(
            begins_picture(kind, body) && left_out,
            StrictRule::DelimiterType,
        )
    }

    /// What a unit is to the coded picture buffer, which says this of times.
    pub(crate) fn came(self, unit: &NalUnit, times: TimesTold) -> Came
        requires { times ≡ times_told self.set unit.now }
        ensures { result ≡ came_after self unit.now }
    {
        let is_first = self.is_first(kind_of(unit), unit.body());
        self.buffer
            .came(&self.set, self.past, is_first, unit, times)
    }

    /// The access unit that the end of the input ends.
    pub(crate) fn ended(self) -> Option<Ended>
        ensures { result ≡ ended_last self }
    {
        self.buffer.ended(&self.set, self.past)
    }

    /// With one more unit, the set that is known after it, and the coded picture buffer.
    pub(crate) fn after(self, unit: &NalUnit, set: KnownSet, buffer: Buffer) -> UnitsBefore
        requires set { set ≡ set_after self.set unit.now }
        requires buffer { buffer ≡ (came_after self unit.now).buffer }
        ensures { result ≡ after_unit self unit.now }
    {
        let kind = kind_of(unit);
        let body = unit.body();
        UnitsBefore {
            past: unit.from() + body.len() as u64,
            begun: begins_access_unit(kind) || self.begun && !kind.is_slice(),
            pic_type: self.pic_type_after(kind, body),
            set,
            buffer,
        }
    }
}
