//! The schedules of HRD parameters (E.1.2, E.2.2), and what a level allows of them (A.3.1).
#![tactic(auto)]

ghost use Rattle.std.specs.Prelude.{◌≡◌, ◌≤◌};
ghost use Rattle.h264_strict.specs.StrictLevels.{bit_limits};
ghost use Rattle.h264_strict.specs.StrictSchedules.{no_schedules, rises_not, rises, scaled, bit_rate_of, cpb_size_of, bits_of_unit, keeps, none_keeps};
ghost use Rattle.h264_strict.specs.StrictSchedules.{schedules_after};

use crate::strict_levels::{BitLimits, bit_limits};
use h264_base::ElementName;

/// The greatest bit_rate_scale and cpb_size_scale, which have 4 bits (E.1.2).
const MOST_SCALE: u64 = 15;

/// The exponents of 2 that a scale is added to (E.2.2).
const BIT_RATE_EXPONENT: u64 = 6;

const CPB_SIZE_EXPONENT: u64 = 4;

/// How many bits a unit of MaxBR and MaxCPB has in NAL and in VCL HRD parameters (A.3.1).
const NAL_UNIT_OF_BITS: u64 = 1200;

const VCL_UNIT_OF_BITS: u64 = 1000;

/// What the HRD parameters that are read say of their schedules.
#[derive(Clone, Copy)]
pub struct Schedules {
    /// They are NAL HRD parameters, and else VCL HRD parameters.
    pub is_nal: bool,
    pub cpb_cnt_minus1: u64,
    pub bit_rate_scale: u64,
    pub cpb_size_scale: u64,
    /// SchedSelIdx of the schedule that is read.
    pub sched_sel_idx: u64,
    /// bit_rate_value_minus1 and cpb_size_value_minus1 that came last in these parameters.
    pub last_rate: Option<u64>,
    pub last_size: Option<u64>,
    /// BitRate that came last, in bits a second.
    pub bit_rate: u64,
    /// A schedule that was read whole keeps to what the level allows.
    pub is_kept: bool,
}

/// Whether a value is not above that of the schedule before.
pub(crate) fn rises_not(last: Option<u64>, value: u64) -> bool
    ensures { result ≡ rises_not last value }
{
    match last {
        None => false,
        Some(last) => value <= last,
    }
}

/// Whether a value is above that of the schedule before.
pub(crate) fn rises(last: Option<u64>, value: u64) -> bool
    ensures { result ≡ rises last value }
{
    match last {
        None => false,
        Some(last) => last < value,
    }
}

/// A rate or a size of a value and its scale, as far as 64 bits count.
fn scaled(exponent: u64, scale: u64, value_minus1: u64) -> u64
    requires { exponent ≤ 6 }
    ensures { result ≡ scaled exponent scale value_minus1 }
{
    let unit = 1u64 << (exponent + scale.min(MOST_SCALE));
    value_minus1.saturating_add(1).saturating_mul(unit)
}

impl Schedules {
    /// Before the first parameters.
    pub fn new() -> Schedules
        ensures { result ≡ no_schedules }
    {
        Schedules {
            is_nal: false,
            cpb_cnt_minus1: 0,
            bit_rate_scale: 0,
            cpb_size_scale: 0,
            sched_sel_idx: 0,
            last_rate: None,
            last_size: None,
            bit_rate: 0,
            is_kept: false,
        }
    }

    /// BitRate of bit_rate_value_minus1, in bits a second.
    fn bit_rate_of(self, value_minus1: u64) -> u64
        ensures { result ≡ bit_rate_of self value_minus1 }
    {
        scaled(BIT_RATE_EXPONENT, self.bit_rate_scale, value_minus1)
    }

    /// CpbSize of cpb_size_value_minus1, in bits.
    fn cpb_size_of(self, value_minus1: u64) -> u64
        ensures { result ≡ cpb_size_of self value_minus1 }
    {
        scaled(CPB_SIZE_EXPONENT, self.cpb_size_scale, value_minus1)
    }

    /// How many bits a unit of MaxBR and MaxCPB has.
    fn bits_of_unit(self) -> u64
        ensures { result ≡ bits_of_unit self.is_nal }
    {
        if self.is_nal {
            NAL_UNIT_OF_BITS
        } else {
            VCL_UNIT_OF_BITS
        }
    }

    /// Whether the schedule with this cpb_size_value_minus1 keeps to both limits.
    fn keeps(self, limits: Option<BitLimits>, value_minus1: u64) -> bool
        ensures { result ≡ keeps limits self value_minus1 }
    {
        let unit = self.bits_of_unit();
        match limits {
            None => true,
            Some(limits) => {
                self.bit_rate <= unit * u64::from(limits.max_br)
                    && self.cpb_size_of(value_minus1) <= unit * u64::from(limits.max_cpb)
            }
        }
    }

    /// Whether this cpb_size_value_minus1 is that of the last schedule, and no schedule keeps to the limits.
    pub fn none_keeps(self, limits: Option<BitLimits>, value_minus1: u64) -> bool
        ensures { result ≡ none_keeps limits self value_minus1 }
    {
        self.sched_sel_idx == self.cpb_cnt_minus1
            && !(self.is_kept || self.keeps(limits, value_minus1))
    }

    /// Notes an element of a set of this level.
    #[tactic(auto, unfolding(crate::specs::StrictSchedules::schedules_after))]
    pub fn note(
        &mut self,
        level_idc: u64,
        constraint_set3_flag: bool,
        name: ElementName,
        value: u64,
    )
        ensures { self.new ≡ schedules_after level_idc constraint_set3_flag self.old name value }
    {
        match name {
            ElementName::NalHrdParametersPresentFlag => self.is_nal = true,
            ElementName::VclHrdParametersPresentFlag => self.is_nal = false,
            ElementName::CpbCntMinus1 => {
                self.cpb_cnt_minus1 = value;
                self.sched_sel_idx = 0;
                self.last_rate = None;
                self.last_size = None;
                self.is_kept = false;
            }
            ElementName::BitRateScale => self.bit_rate_scale = value,
            ElementName::CpbSizeScale => self.cpb_size_scale = value,
            ElementName::BitRateValueMinus1 => {
                self.last_rate = Some(value);
                self.bit_rate = self.bit_rate_of(value);
            }
            ElementName::CpbSizeValueMinus1 => {
                let limits = bit_limits(level_idc, constraint_set3_flag);
                let is_kept = self.is_kept || self.keeps(limits, value);
                self.last_size = Some(value);
                self.sched_sel_idx = self.sched_sel_idx.saturating_add(1);
                self.is_kept = is_kept;
            }
            _ => {}
        }
    }
}
