//! Access units as the coded picture buffer sees them (C.1, 7.4.1.2.3), and what each breaks.
#![tactic(auto)]

ghost use Rattle.std.specs.Prelude.{◌≡◌, ◌*◌, Some, None, get_or};
ghost use Rattle.h264_strict.specs.BufferUnits as say;
ghost use Rattle.h264_strict.specs.Strict.{with_places};
ghost use Rattle.h264_strict.specs.StrictRules.{place_of};
ghost use Rattle.h264_strict.specs.declared.strict_rule.StrictRule.{StrictRule as Rule};
ghost use Rattle.h264_units.specs.UnitTypes.{type_number};

use crate::buffer::{Coded, Lack, Pace, Rates, Step, Watch};
use crate::sei::{
    FirstDelays, InitialDelay, KnownSet, TimesTold, bit_rate, cpb_size, nal_of, vcl_of,
};
use crate::strict::{Places, note_in};
use crate::strict_bytes::kind_of;
use crate::strict_levels::{max_mbps, min_cr};
use crate::strict_rule::{STRICT_RULES, StrictRule, broken_if};
use h264_sps::hrd::Hrd;
use h264_sps::sps::Sps;
use h264_units::{NalUnit, NalUnitType};

/// An access unit that has not ended.
#[derive(Clone, Copy)]
pub struct AccessUnit {
    /// The first byte of the byte stream that is its own.
    pub from: u64,
    /// The first bit of its first unit.
    pub bit: u64,
    /// The bytes of its slices so far.
    pub slice_bytes: u64,
    /// The bytes of its slices and of its filler data so far.
    pub vcl_bytes: u64,
    /// What its SEI said so far.
    pub times: TimesTold,
}

/// The schedules that are followed: those with SchedSelIdx 0.
#[derive(Clone, Copy)]
pub struct Watches {
    /// The one of the NAL HRD parameters.
    pub nal: Watch,
    /// The one of the VCL HRD parameters.
    pub vcl: Watch,
}

/// What is known of the coded picture buffer after units.
#[derive(Clone, Copy)]
pub struct Buffer {
    /// The access unit that has not ended.
    pub current: Option<AccessUnit>,
    pub watches: Watches,
}

/// An access unit has ended.
#[derive(Clone, Copy)]
pub struct Ended {
    /// The schedules after it.
    pub watches: Watches,
    /// The first bit of its first unit.
    pub bit: u64,
    /// It is removed before it has arrived.
    pub underflow: bool,
    /// initial_cpb_removal_delay is not the time that the buffer was filled before.
    pub initial_delay: bool,
    /// The buffer holds more than CpbSize bits while it arrives.
    pub overflow: bool,
    /// It is removed too soon after the one before.
    pub removal_rate: bool,
    /// Its slices have more bytes than MinCR allows.
    pub compression: bool,
}

/// A unit came.
#[derive(Clone, Copy)]
pub struct Came {
    pub buffer: Buffer,
    /// The access unit that it ends, if it ends one.
    pub ended: Option<Ended>,
}

/// What HRD parameters of a set say of the schedule with SchedSelIdx 0, where its VUI has times.
fn rates_of(set: &Sps, hrd: Option<Hrd>) -> Option<Rates>
    ensures { result ≡ say.rates_of set.now.vui hrd }
{
    let vui = set.vui?;
    let hrd = hrd?;
    let timing = vui.timing?;
    if timing.num_units_in_tick == 0 || timing.time_scale == 0 {
        return None;
    }
    let cpb = hrd.cpbs.entries[0];
    Some(Rates {
        bit_rate: bit_rate(&hrd, &cpb),
        cpb_size: cpb_size(&hrd, &cpb),
        cbr_flag: cpb.cbr_flag,
        low_delay_hrd_flag: vui.low_delay_hrd_flag.unwrap_or(false),
        num_units_in_tick: timing.num_units_in_tick,
        time_scale: timing.time_scale,
    })
}

/// What the NAL HRD parameters of the only set say.
fn nal_rates(known: &KnownSet) -> Option<Rates>
    ensures { result ≡ say.nal_rates known.now }
{
    match known {
        KnownSet::One(set) => rates_of(set, nal_of(set)),
        _ => None,
    }
}

/// What the VCL HRD parameters of the only set say.
fn vcl_rates(known: &KnownSet) -> Option<Rates>
    ensures { result ≡ say.vcl_rates known.now }
{
    match known {
        KnownSet::One(set) => rates_of(set, vcl_of(set)),
        _ => None,
    }
}

/// What the level of the only set asks of the time after a picture.
fn pace_of(known: &KnownSet) -> Option<Pace>
    ensures { result ≡ say.pace_of known.now }
{
    match known {
        KnownSet::One(set) => {
            let set3 = set.constraint_set_flags.set3;
            let max_mbps = max_mbps(u64::from(set.level_idc), set3)?;
            Some(Pace {
                pic_size_in_mbs: u64::from(set.frame_size.width) * u64::from(set.frame_size.height),
                max_mbps,
                min_cr: min_cr(u64::from(set.level_idc)),
            })
        }
        _ => None,
    }
}

/// What a buffering_period() says by NAL HRD parameters.
fn nal_delay(period: Option<FirstDelays>) -> Option<InitialDelay>
    ensures { result ≡ say.nal_delay period }
{
    match period {
        Some(delays) => delays.nal,
        None => None,
    }
}

/// What a buffering_period() says by VCL HRD parameters.
fn vcl_delay(period: Option<FirstDelays>) -> Option<InitialDelay>
    ensures { result ≡ say.vcl_delay period }
{
    match period {
        Some(delays) => delays.vcl,
        None => None,
    }
}

/// Whether a unit is known to arrive, and to hide no end of an access unit.
fn is_plain(kind: NalUnitType) -> bool
    ensures { result ≡ say.is_plain (type_number kind) }
{
    is_vcl(kind)
        || matches!(
            kind,
            NalUnitType::Sei
                | NalUnitType::SequenceSet
                | NalUnitType::PictureSet
                | NalUnitType::Delimiter
                | NalUnitType::EndOfSequence
                | NalUnitType::EndOfStream
        )
}

/// Whether a unit is a VCL NAL unit: a slice, or a part of one.
fn is_slice_part(kind: NalUnitType) -> bool
    ensures { result ≡ say.is_slice_part (type_number kind) }
{
    kind.is_slice() || kind.is_partition()
}

/// Whether a unit is a VCL NAL unit, or filler data.
fn is_vcl(kind: NalUnitType) -> bool
    ensures { result ≡ say.is_vcl (type_number kind) }
{
    is_slice_part(kind) || matches!(kind, NalUnitType::Filler)
}

/// So many bytes with those of a unit, if that counts.
fn with_bytes(bytes: u64, counts: bool, length: u64) -> u64
    ensures { result ≡ say.with_bytes bytes counts length }
{
    if counts {
        bytes.saturating_add(length)
    } else {
        bytes
    }
}

/// The first byte of an access unit whose first unit begins at `from`, after a unit that ends at `past`.
fn first_place(past: u64, from: u64) -> u64
    ensures { result ≡ say.first_place past from }
{
    if past == 0 {
        return 0;
    }
    if past < from.saturating_sub(3) {
        from.saturating_sub(4)
    } else {
        from.saturating_sub(3)
    }
}

impl AccessUnit {
    /// Before its first unit, which begins with this bit; its first byte is at this place.
    fn new(from: u64, bit: u64) -> AccessUnit
        ensures { result ≡ say.unit_at from bit }
    {
        AccessUnit {
            from,
            bit,
            slice_bytes: 0,
            vcl_bytes: 0,
            times: TimesTold::new(),
        }
    }

    /// With a unit, and what that says of times.
    fn with(self, unit: &NalUnit, times: TimesTold) -> AccessUnit
        ensures { result ≡ say.unit_with self unit.now times }
    {
        let kind = kind_of(unit);
        let length = unit.body().len() as u64;
        AccessUnit {
            from: self.from,
            bit: self.bit,
            slice_bytes: with_bytes(self.slice_bytes, is_slice_part(kind), length),
            vcl_bytes: with_bytes(self.vcl_bytes, is_vcl(kind), length),
            times: self.times.more(times),
        }
    }

    /// What arrives in the buffer of NAL HRD parameters, where it ends at this place.
    fn to_nal(self, known: &KnownSet, end: u64) -> Coded
        ensures { result ≡ say.to_nal known.now self end }
    {
        Coded {
            rates: nal_rates(known),
            bytes: end.saturating_sub(self.from),
            slice_bytes: self.slice_bytes,
            initial: nal_delay(self.times.period),
            removal: self.times.removal,
            pace: pace_of(known),
        }
    }

    /// What arrives in the buffer of VCL HRD parameters.
    fn to_vcl(self, known: &KnownSet) -> Coded
        ensures { result ≡ say.to_vcl known.now self }
    {
        Coded {
            rates: vcl_rates(known),
            bytes: self.vcl_bytes,
            slice_bytes: self.slice_bytes,
            initial: vcl_delay(self.times.period),
            removal: self.times.removal,
            pace: pace_of(known),
        }
    }
}

impl Ended {
    /// An access unit whose first unit begins with this bit, by both kinds of parameters.
    fn new(bit: u64, nal: Step, vcl: Step) -> Ended
        ensures { result ≡ say.ended_with bit nal vcl }
    {
        Ended {
            watches: Watches {
                nal: nal.watch,
                vcl: vcl.watch,
            },
            bit,
            underflow: nal.findings.underflow || vcl.findings.underflow,
            initial_delay: nal.findings.initial_delay || vcl.findings.initial_delay,
            overflow: nal.findings.overflow || vcl.findings.overflow,
            removal_rate: nal.findings.removal_rate || vcl.findings.removal_rate,
            compression: nal.findings.compression || vcl.findings.compression,
        }
    }
}

impl Watches {
    /// Why not all is judged, if it is not: parameters that are not there ask for nothing where the others are.
    pub(crate) fn lack(&self) -> Option<Lack>
        ensures { result ≡ say.lack_in self.now }
    {
        match (self.nal.lack(), self.vcl.lack()) {
            (Some(Lack::NoParameters), vcl) => vcl,
            (None, Some(Lack::NoParameters)) => None,
            (None, vcl) => vcl,
            (nal, _) => nal,
        }
    }

    /// An access unit has ended before this place.
    fn ended(self, known: &KnownSet, end: u64, unit: AccessUnit) -> Ended
        ensures { result ≡ say.ended known.now self end unit }
    {
        let nal = self.nal.step(unit.to_nal(known, end));
        let vcl = self.vcl.step(unit.to_vcl(known));
        Ended::new(unit.bit, nal, vcl)
    }

    /// After a unit of this type.
    fn after(self, kind: NalUnitType) -> Watches
        ensures { result ≡ say.watched self (type_number kind) }
    {
        if is_plain(kind) {
            self
        } else {
            Watches {
                nal: Watch::Off(Lack::OtherUnit),
                vcl: Watch::Off(Lack::OtherUnit),
            }
        }
    }
}

impl Came {
    /// A unit of an access unit, if one is open.
    fn new(
        watches: Watches,
        ended: Option<Ended>,
        current: Option<AccessUnit>,
        unit: &NalUnit,
        times: TimesTold,
    ) -> Came
        ensures { result ≡ say.came_with watches ended current unit.now times }
    {
        let watches = watches.after(kind_of(unit));
        let current = match current {
            Some(current) => Some(current.with(unit, times)),
            None => None,
        };
        Came {
            buffer: Buffer { current, watches },
            ended,
        }
    }
}

impl Buffer {
    /// Before the first unit.
    pub(crate) fn new() -> Buffer
        ensures { result ≡ say.no_buffer }
    {
        Buffer {
            current: None,
            watches: Watches {
                nal: Watch::Before,
                vcl: Watch::Before,
            },
        }
    }

    /// The schedules after an access unit, or after the units so far.
    pub(crate) fn watches_after(self, ended: Option<Ended>) -> Watches
        ensures { result ≡ say.watches_after self ended }
    {
        match ended {
            Some(ended) => ended.watches,
            None => self.watches,
        }
    }

    /// The access unit that ends where the input ends, at this place.
    pub(crate) fn ended(self, known: &KnownSet, end: u64) -> Option<Ended>
        ensures { result ≡ say.ended_at known.now self.watches end self.current }
    {
        match self.current {
            Some(open) => Some(self.watches.ended(known, end, open)),
            None => None,
        }
    }

    /// The first unit of an access unit came.
    fn came_first(self, known: &KnownSet, past: u64, unit: &NalUnit, times: TimesTold) -> Came
        ensures { result ≡ say.came_first known.now self past unit.now times self.current }
    {
        let place = first_place(past, unit.from());
        let new = AccessUnit::new(place, 8 * unit.from());
        match self.current {
            None => Came::new(self.watches, None, Some(new), unit, times),
            Some(open) => {
                let ended = self.watches.ended(known, place, open);
                Came::new(ended.watches, Some(ended), Some(new), unit, times)
            }
        }
    }

    /// A unit came, which is the first of its access unit or not; the set was known before it, and the unit before ends at `past`.
    pub(crate) fn came(
        self,
        known: &KnownSet,
        past: u64,
        is_first: bool,
        unit: &NalUnit,
        times: TimesTold,
    ) -> Came
        ensures { result ≡ say.came known.now self past is_first unit.now times }
    {
        if is_first {
            self.came_first(known, past, unit, times)
        } else {
            Came::new(self.watches, None, self.current, unit, times)
        }
    }
}

/// Notes what an access unit that has ended breaks.
pub(crate) fn note_ended(found: &mut [Option<Places>; STRICT_RULES], ended: Option<Ended>)
    ensures { (r : Rule) → get_or found.new (place_of r) None ≡ with_places (get_or found.old (place_of r) None) (say.ended_bits r ended) }
{
    let Some(ended) = ended else {
        return;
    };
    note_in(
        found,
        broken_if(ended.underflow, StrictRule::BufferUnderflow),
        ended.bit,
    );
    note_in(
        found,
        broken_if(ended.initial_delay, StrictRule::InitialDelay),
        ended.bit,
    );
    note_in(
        found,
        broken_if(ended.overflow, StrictRule::BufferOverflow),
        ended.bit,
    );
    note_in(
        found,
        broken_if(ended.removal_rate, StrictRule::RemovalRate),
        ended.bit,
    );
    note_in(
        found,
        broken_if(ended.compression, StrictRule::MinCompression),
        ended.bit,
    );
}
