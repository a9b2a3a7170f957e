//! Messages that need a sequence parameter set: buffering_period() and pic_timing() (D.1, D.2), and the set that they need.
#![tactic(auto)]

ghost use Rattle.std.specs.Prelude.{◌≡◌, ◌-◌, ◌≤◌, ◌^◌, min};
ghost use Rattle.h264_strict.specs.SeiPart.{read_so, times};
ghost use Rattle.h264_strict.specs.SeiTiming as say;

use crate::sei::content::any;
use crate::sei::part::{must, u, u_to, ue};
use h264_base::{ElementName, Elements, Failed, Target};
use h264_bits::Bits;
use h264_rbsp::Rbsp;
use h264_sps::hrd::{Cpb, Hrd};
use h264_sps::read::read_sps;
use h264_sps::sps::Sps;

/// The greatest bit_rate_scale and cpb_size_scale, which have 4 bits (E.1.2).
const MOST_SCALE: u32 = 15;

/// The greatest number of schedules (E.2.2).
const MOST_SCHEDULES: u32 = 32;

/// Ticks of the clock of delays in a second.
const CLOCK: u128 = 90_000;

/// The sequence parameter set that messages need.
#[derive(Clone, Copy)]
pub enum KnownSet {
    /// None came yet.
    NotYet,
    /// All so far have one seq_parameter_set_id; this is the last.
    One(Sps),
    /// Some have another, or could not be read.
    Unknown,
}

/// initial_cpb_removal_delay and initial_cpb_removal_delay_offset of a schedule, in ticks of 90 kHz.
#[derive(Clone, Copy)]
pub struct InitialDelay {
    pub delay: u32,
    pub offset: u32,
}

/// What a buffering_period() says of the schedules with SchedSelIdx 0, as far as there are HRD parameters.
#[derive(Clone, Copy)]
pub struct FirstDelays {
    pub nal: Option<InitialDelay>,
    pub vcl: Option<InitialDelay>,
}

/// Passes over all that it is told.
#[derive(Drop)]
struct NoElements;

impl Elements for NoElements {
    ghost took = { λ _ _. Unit {0} };

    ghost failures = { λ _. 0 };

    fn element(&mut self, _name: ElementName, _bit: u64, _value: i64) -> Result<(), Failed> {
        Ok(())
    }
}

impl KnownSet {
    /// The set after a unit of type 7 with this RBSP.
    pub fn after(&self, rbsp: &Rbsp) -> KnownSet
        ensures { result ≡ say.known_after self.now rbsp.now }
    {
        let mut bits = Bits::new(rbsp);
        match read_sps(Target::MainIP, &mut bits, &mut NoElements) {
            Ok(set) => self.with(set),
            Err(_) => KnownSet::Unknown,
        }
    }

    /// With one more set.
    fn with(&self, set: Sps) -> KnownSet
        ensures { result ≡ say.with_one self.now set }
    {
        match self {
            KnownSet::NotYet => KnownSet::One(set),
            KnownSet::One(other) if other.seq_parameter_set_id == set.seq_parameter_set_id => {
                KnownSet::One(set)
            }
            _ => KnownSet::Unknown,
        }
    }
}

/// A number that is told in 5 bits.
fn five_bits(n: u32) -> u32
    ensures value { result ≡ say.five_bits n }
    ensures few { result ≤ 31 }
{
    n.min(31)
}

/// The NAL HRD parameters of a set.
pub(crate) fn nal_of(set: &Sps) -> Option<Hrd>
    ensures { result ≡ say.nal_of set.now.vui }
{
    match set.vui {
        Some(vui) => vui.nal_hrd,
        None => None,
    }
}

/// The VCL HRD parameters of a set.
pub(crate) fn vcl_of(set: &Sps) -> Option<Hrd>
    ensures { result ≡ say.vcl_of set.now.vui }
{
    match set.vui {
        Some(vui) => vui.vcl_hrd,
        None => None,
    }
}

/// The HRD parameters whose lengths hold: those of NAL, or else of VCL.
fn hrd_of(set: &Sps) -> Option<Hrd>
    ensures { result ≡ say.hrd_of set.now.vui }
{
    match nal_of(set) {
        Some(hrd) => Some(hrd),
        None => vcl_of(set),
    }
}

/// Whether a set has pic_struct_present_flag.
fn has_pic_struct(set: &Sps) -> bool
    ensures { result ≡ say.has_pic_struct set.now.vui }
{
    match set.vui {
        Some(vui) => vui.pic_struct_present_flag,
        None => false,
    }
}

/// Whether a set has fixed_frame_rate_flag 1; 0 is inferred (E.2.1).
fn has_fixed_rate(set: &Sps) -> bool
    ensures { result ≡ say.has_fixed_rate set.now.vui }
{
    match set.vui {
        Some(vui) => match vui.timing {
            Some(timing) => timing.fixed_frame_rate_flag,
            None => false,
        },
        None => false,
    }
}

/// time_offset_length; 24 is inferred.
fn offset_length(hrd: Option<Hrd>) -> u32
    ensures value { result ≡ say.offset_length hrd }
    ensures few { result ≤ 32 }
{
    match hrd {
        Some(hrd) => five_bits(hrd.time_offset_length),
        None => 24,
    }
}

/// NumClockTS (table D-1).
fn num_clock_ts(pic_struct: u32) -> u32
    ensures { result ≡ say.num_clock_ts pic_struct }
{
    if pic_struct <= 2 {
        return 1;
    }
    if pic_struct <= 4 || pic_struct == 7 {
        2
    } else {
        3
    }
}

/// BitRate or CpbSize, by its value and its scale (E.2.2).
fn scaled(exponent: u32, scale: u32, value_minus1: u32) -> u64
    requires { exponent ≤ 6 }
    ensures value { result ≡ say.scaled exponent scale value_minus1 }
    ensures bound { result ≤ 2 ^ 53 }
{
    let unit = 1u64 << (exponent + scale.min(MOST_SCALE));
    (value_minus1 as u64 + 1) * unit
}

/// BitRate of a schedule, in bits a second.
pub(crate) fn bit_rate(hrd: &Hrd, cpb: &Cpb) -> u64
    ensures value { result ≡ say.bit_rate hrd.now cpb.now }
    ensures bound { result ≤ 2 ^ 53 }
{
    scaled(6, hrd.bit_rate_scale, cpb.bit_rate_value_minus1)
}

/// CpbSize of a schedule, in bits.
pub(crate) fn cpb_size(hrd: &Hrd, cpb: &Cpb) -> u64
    ensures value { result ≡ say.cpb_size hrd.now cpb.now }
    ensures bound { result ≤ 2 ^ 53 }
{
    scaled(4, hrd.cpb_size_scale, cpb.cpb_size_value_minus1)
}

/// Whether a delay is not 0, and at most the time in which the buffer of the schedule fills.
fn is_delay(hrd: &Hrd, cpb: &Cpb, delay: u32) -> bool
    ensures { result ≡ say.is_delay hrd.now cpb.now delay }
{
    let rate = bit_rate(hrd, cpb);
    let size = cpb_size(hrd, cpb);
    delay != 0 && delay as u128 * rate as u128 <= CLOCK * size as u128
}

/// initial_cpb_removal_delay and initial_cpb_removal_delay_offset of a schedule.
fn initial_delay(bits: &mut Bits, hrd: &Hrd, cpb: &Cpb) -> Option<InitialDelay>
    ensures read { read_so result bits.new.at ≡ say.initial_delay hrd.now cpb.now bits.old.body.bytes bits.old.at }
    ensures body { bits.new.body ≡ bits.old.body }
{
    let length = five_bits(hrd.initial_cpb_removal_delay_length_minus1) + 1;
    let delay = u(bits, length)?;
    must(is_delay(hrd, cpb, delay))?;
    let offset = u(bits, length)?;
    Some(InitialDelay { delay, offset })
}

/// The initial delays of each schedule after the first.
fn later_delays(bits: &mut Bits, hrd: &Hrd) -> Option<()>
    ensures read { read_so result bits.new.at ≡ say.delays_from hrd.now (min hrd.now.cpbs.count 32 - 1) 1 bits.old.body.bytes bits.old.at }
    ensures body { bits.new.body ≡ bits.old.body }
{
    for i in 1..hrd.cpbs.count.min(MOST_SCHEDULES) as usize {
        initial_delay(bits, hrd, &hrd.cpbs.entries[i])?;
    }
    Some(())
}

/// The initial delays of each schedule: those of the first one.
fn delays_of(bits: &mut Bits, hrd: &Hrd) -> Option<InitialDelay>
    ensures read { read_so result bits.new.at ≡ say.delays_of hrd.now bits.old.body.bytes bits.old.at }
    ensures body { bits.new.body ≡ bits.old.body }
{
    let first = initial_delay(bits, hrd, &hrd.cpbs.entries[0])?;
    later_delays(bits, hrd)?;
    Some(first)
}

/// hours_flag, and hours_value where it is 1.
fn hours(bits: &mut Bits) -> Option<()>
    ensures read { read_so result bits.new.at ≡ say.hours bits.old.body.bytes bits.old.at }
    ensures body { bits.new.body ≡ bits.old.body }
{
    let hours_flag = u(bits, 1)?;
    if hours_flag == 1 {
        u_to(bits, 5, 23)?;
    }
    Some(())
}

/// minutes_flag, and what follows where it is 1.
fn minutes(bits: &mut Bits) -> Option<()>
    ensures read { read_so result bits.new.at ≡ say.minutes bits.old.body.bytes bits.old.at }
    ensures body { bits.new.body ≡ bits.old.body }
{
    let minutes_flag = u(bits, 1)?;
    if minutes_flag == 1 {
        u_to(bits, 6, 59)?;
        return hours(bits);
    }
    Some(())
}

/// seconds_flag, and what follows where it is 1.
fn seconds(bits: &mut Bits) -> Option<()>
    ensures read { read_so result bits.new.at ≡ say.seconds bits.old.body.bytes bits.old.at }
    ensures body { bits.new.body ≡ bits.old.body }
{
    let seconds_flag = u(bits, 1)?;
    if seconds_flag == 1 {
        u_to(bits, 6, 59)?;
        return minutes(bits);
    }
    Some(())
}

/// seconds_value, minutes_value and hours_value.
fn full_time(bits: &mut Bits) -> Option<()>
    ensures read { read_so result bits.new.at ≡ say.full_time bits.old.body.bytes bits.old.at }
    ensures body { bits.new.body ≡ bits.old.body }
{
    u_to(bits, 6, 59)?;
    u_to(bits, 6, 59)?;
    u_to(bits, 5, 23)?;
    Some(())
}

/// The time of a timestamp.
fn time(bits: &mut Bits, full_timestamp_flag: u32) -> Option<()>
    ensures read { read_so result bits.new.at ≡ say.time full_timestamp_flag bits.old.body.bytes bits.old.at }
    ensures body { bits.new.body ≡ bits.old.body }
{
    if full_timestamp_flag == 1 {
        return full_time(bits);
    }
    seconds(bits)
}

/// What follows a clock_timestamp_flag of 1, with a time_offset of so many bits.
fn timestamp(bits: &mut Bits, offset: u32) -> Option<()>
    requires { offset ≤ 32 }
    ensures read { read_so result bits.new.at ≡ say.timestamp offset bits.old.body.bytes bits.old.at }
    ensures body { bits.new.body ≡ bits.old.body }
{
    u_to(bits, 2, 2)?;
    u(bits, 1)?;
    u_to(bits, 5, 6)?;
    let full_timestamp_flag = u(bits, 1)?;
    u(bits, 10)?;
    time(bits, full_timestamp_flag)?;
    any(bits, offset)
}

/// clock_timestamp_flag, and what follows where it is 1.
fn clock_timestamp(bits: &mut Bits, offset: u32) -> Option<()>
    requires { offset ≤ 32 }
    ensures read { read_so result bits.new.at ≡ say.clock_timestamp offset bits.old.body.bytes bits.old.at }
    ensures body { bits.new.body ≡ bits.old.body }
{
    let clock_timestamp_flag = u(bits, 1)?;
    if clock_timestamp_flag == 1 {
        return timestamp(bits, offset);
    }
    Some(())
}

/// The initial delays of each schedule of HRD parameters, where they are there: those of the first one.
fn initial_delays(bits: &mut Bits, hrd: Option<Hrd>) -> Option<Option<InitialDelay>>
    ensures read { read_so result bits.new.at ≡ say.initial_delays hrd bits.old.body.bytes bits.old.at }
    ensures body { bits.new.body ≡ bits.old.body }
{
    match hrd {
        Some(hrd) => {
            let first = delays_of(bits, &hrd)?;
            Some(Some(first))
        }
        None => Some(None),
    }
}

/// buffering_period().
pub(crate) fn buffering_period(bits: &mut Bits, set: &Sps) -> Option<FirstDelays>
    ensures read { read_so result bits.new.at ≡ say.buffering_period set.now bits.old.body.bytes bits.old.at }
    ensures body { bits.new.body ≡ bits.old.body }
{
    let seq_parameter_set_id = ue(bits)?;
    must(seq_parameter_set_id == set.seq_parameter_set_id)?;
    let nal = initial_delays(bits, nal_of(set))?;
    let vcl = initial_delays(bits, vcl_of(set))?;
    Some(FirstDelays { nal, vcl })
}

/// cpb_removal_delay, and dpb_output_delay, where there are HRD parameters.
fn delays(bits: &mut Bits, hrd: Option<Hrd>) -> Option<Option<u32>>
    ensures read { read_so result bits.new.at ≡ say.delays hrd bits.old.body.bytes bits.old.at }
    ensures body { bits.new.body ≡ bits.old.body }
{
    match hrd {
        Some(hrd) => {
            let removal = u(bits, five_bits(hrd.cpb_removal_delay_length_minus1) + 1)?;
            any(bits, five_bits(hrd.dpb_output_delay_length_minus1) + 1)?;
            Some(Some(removal))
        }
        None => Some(None),
    }
}

/// So many timestamps.
fn so_many_timestamps(bits: &mut Bits, offset: u32, count: u32) -> Option<()>
    requires { offset ≤ 32 }
    ensures read { read_so result bits.new.at ≡ times count (say.clock_timestamp offset) bits.old.body.bytes bits.old.at }
    ensures body { bits.new.body ≡ bits.old.body }
{
    for _n in 0..count {
        clock_timestamp(bits, offset)?;
    }
    Some(())
}

/// Whether a frame may be shown so (table D-1).
fn fits_frame(has_fixed_rate: bool, pic_struct: u32) -> bool
    ensures { result ≡ say.fits_frame has_fixed_rate pic_struct }
{
    pic_struct == 0 || 3 <= pic_struct && (pic_struct <= 6 || has_fixed_rate)
}

/// pic_struct, and its timestamps.
fn structure(bits: &mut Bits, has_fixed_rate: bool, offset: u32) -> Option<()>
    requires { offset ≤ 32 }
    ensures read { read_so result bits.new.at ≡ say.structure has_fixed_rate offset bits.old.body.bytes bits.old.at }
    ensures body { bits.new.body ≡ bits.old.body }
{
    let pic_struct = u_to(bits, 4, 8)?;
    must(fits_frame(has_fixed_rate, pic_struct))?;
    so_many_timestamps(bits, offset, num_clock_ts(pic_struct))
}

/// pic_timing(): its cpb_removal_delay.
pub(crate) fn pic_timing(bits: &mut Bits, set: &Sps) -> Option<Option<u32>>
    ensures read { read_so result bits.new.at ≡ say.pic_timing set.now bits.old.body.bytes bits.old.at }
    ensures body { bits.new.body ≡ bits.old.body }
{
    let hrd = hrd_of(set);
    let removal = delays(bits, hrd)?;
    if has_pic_struct(set) {
        structure(bits, has_fixed_rate(set), offset_length(hrd))?;
    }
    Some(removal)
}
