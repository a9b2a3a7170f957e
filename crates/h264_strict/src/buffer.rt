//! The coded picture buffer of one schedule: when access units arrive and are removed (C.1.1, C.1.2), and what must hold of that (C.3).
//!
//! Times count from the arrival of the first bit on, in units of 1 / (90000 * time_scale * BitRate) seconds: so each time of C.1 is a whole number.
#![tactic(auto)]

ghost use Rattle.std.specs.Prelude.{◌≡◌, ◌+◌, ◌-◌, ◌*◌, ◌||◌, length};
ghost use Rattle.h264_strict.specs.Buffer as say;

use crate::sei::InitialDelay;

/// Ticks of the clock of delays in a second.
const CLOCK: u64 = 90_000;

/// Ticks of the clock of delays in a second, for each bit of a byte.
const CLOCK_FOR_BYTES: u64 = 720_000;

/// The parts of a second that a frame stays at least (A.3.1).
const MOST_FRAMES: u128 = 172;

/// The bytes of a macroblock that is not compressed (A.3.1).
const MACROBLOCK_BYTES: u128 = 384;

/// How many access units are kept in mind.
const MOST_WAITING: usize = 256;

/// No access unit.
const NO_UNIT: Waiting = Waiting {
    removal: 0,
    bytes: 0,
};

/// What HRD parameters say of the schedule with SchedSelIdx 0, and the VUI of its times.
#[derive(Clone, Copy)]
pub struct Rates {
    /// BitRate, in bits a second.
    pub bit_rate: u64,
    /// CpbSize, in bits.
    pub cpb_size: u64,
    pub cbr_flag: bool,
    pub low_delay_hrd_flag: bool,
    pub num_units_in_tick: u32,
    pub time_scale: u32,
}

/// What a level asks of the time after a picture (A.3.1).
#[derive(Clone, Copy)]
pub struct Pace {
    /// PicSizeInMbs.
    pub pic_size_in_mbs: u64,
    /// MaxMBPS, in macroblocks a second.
    pub max_mbps: u64,
    /// MinCR.
    pub min_cr: u64,
}

/// What an access unit is to a schedule.
#[derive(Clone, Copy)]
pub struct Coded {
    /// What the active sequence parameter set says, if that is known and says it.
    pub rates: Option<Rates>,
    /// The bytes that arrive.
    pub bytes: u64,
    /// NumBytesInNALunit of its slices, in sum.
    pub slice_bytes: u64,
    /// What its buffering_period() says, if it has one.
    pub initial: Option<InitialDelay>,
    /// cpb_removal_delay of its pic_timing(), if it has one.
    pub removal: Option<u32>,
    /// What its level asks, if that is known.
    pub pace: Option<Pace>,
}

/// An access unit that has arrived.
#[derive(Clone, Copy)]
pub struct Waiting {
    /// t_r.
    pub removal: u128,
    pub bytes: u64,
}

/// A schedule after an access unit.
#[derive(Clone, Copy)]
pub struct Schedule {
    pub rates: Rates,
    /// t_r,n of the first access unit of the buffering period.
    pub period_removal: u128,
    /// cpb_removal_delay of the last access unit, and 0 where it began the buffering period.
    pub last_delay: u32,
    /// t_af of the last access unit.
    pub arrived: u128,
    /// What the buffering_period() said.
    pub initial: InitialDelay,
    /// What the level of the last access unit asks.
    pub pace: Option<Pace>,
    /// The last access units, the newest first.
    pub waiting: [Waiting; MOST_WAITING],
    /// More access units waited at once than are kept in mind.
    pub is_crowded: bool,
}

/// The times of an access unit.
#[derive(Clone, Copy)]
pub struct Arrival {
    /// t_r,n(n).
    pub removal: u128,
    /// t_ai(n).
    pub begins: u128,
    /// t_af(n).
    pub ends: u128,
}

/// What an access unit breaks.
#[derive(Clone, Copy)]
pub struct Findings {
    /// It is removed before it has arrived.
    pub underflow: bool,
    /// initial_cpb_removal_delay is not the time that the buffer was filled before.
    pub initial_delay: bool,
    /// The buffer holds more than CpbSize bits while it arrives.
    pub overflow: bool,
    /// It is removed too soon after the one before.
    pub removal_rate: bool,
    /// Its slices have more bytes than MinCR allows.
    pub compression: bool,
}

/// Why a schedule is not followed.
#[derive(Clone, Copy)]
pub enum Lack {
    /// There are no HRD parameters, or no times beside them, or the set is not known.
    NoParameters,
    /// The first access unit has no buffering_period().
    NoPeriod,
    /// An access unit has no pic_timing().
    NoTiming,
    /// The HRD parameters became others, or the set is no longer known.
    OtherParameters,
    /// A cpb_removal_delay is not above the one before.
    NoRise,
    /// A unit came that hides where access units end, or that is not known to arrive.
    OtherUnit,
    /// Times are more than 128 bits count.
    OutOfRange,
    /// With low_delay_hrd_flag 1 an access unit is removed late.
    Late,
    /// More access units waited at once than are kept in mind: whether the buffer holds too much is not judged.
    Crowded,
}

/// Whether a schedule is followed.
#[derive(Clone, Copy)]
pub enum Watch {
    /// No access unit came yet.
    Before,
    /// It is followed.
    Runs(Schedule),
    /// It is not, from some access unit on.
    Off(Lack),
}

/// A schedule with one more access unit, and what that breaks.
#[derive(Clone, Copy)]
pub struct Step {
    pub watch: Watch,
    pub findings: Findings,
}

/// A product.
fn product(a: u64, b: u64) -> u128
    ensures { result ≡ a * b }
{
    u128::from(a) * u128::from(b)
}

/// A time so many times this long after another, where 128 bits count it.
fn later(time: u128, each: u128, count: u128) -> Option<u128>
    ensures { result ≡ say.counted (time + each * count) }
{
    time.checked_add(each.checked_mul(count)?)
}

/// A time so many times this long before another, or 0.
fn earlier(time: u128, each: u128, count: u64) -> u128
    ensures { result ≡ time - each * count }
{
    time.saturating_sub(each.saturating_mul(u128::from(count)))
}

/// Whether a time is less than a limit, in parts of its unit.
fn is_less(time: u128, parts: u128, limit: Option<u128>) -> bool
    ensures { result ≡ say.is_less time parts limit }
{
    match limit {
        None => false,
        Some(limit) => match later(0, time, parts) {
            Some(time) => time < limit,
            None => false,
        },
    }
}

/// Whether the slices of the first picture have more bytes than its level allows.
fn is_bulky_first(coded: Coded) -> bool
    ensures { result ≡ say.is_bulky_first coded.pace coded.slice_bytes }
{
    match coded.pace {
        None => false,
        Some(pace) => {
            let bytes = product(coded.slice_bytes, pace.min_cr);
            let of_size = MACROBLOCK_BYTES * u128::from(pace.pic_size_in_mbs);
            let of_rate = MACROBLOCK_BYTES * u128::from(pace.max_mbps);
            of_size < bytes && is_less(of_rate, 1, later(0, MOST_FRAMES, bytes))
        }
    }
}

/// The bytes of the access units that are not removed before this time.
fn held_bytes(waiting: &[Waiting], time: u128) -> u128
    requires { length waiting.now ≡ say.most_waiting }
    ensures { result ≡ say.held_bytes waiting.now time }
{
    waiting
        .iter()
        .filter(|unit| time <= unit.removal)
        .map(|unit| u128::from(unit.bytes))
        .sum()
}

/// The last access units with one more.
fn waiting_after(waiting: [Waiting; MOST_WAITING], unit: Waiting) -> [Waiting; MOST_WAITING]
    ensures { result ≡ say.waiting_after waiting unit }
{
    let mut later = waiting;
    later.rotate_right(1);
    later[0] = unit;
    later
}

impl Rates {
    /// t_c.
    fn clock_tick(self) -> u128
        ensures { result ≡ say.clock_tick self }
    {
        product(CLOCK * u64::from(self.num_units_in_tick), self.bit_rate)
    }

    /// 1 / 90000 second.
    fn delay_tick(self) -> u128
        ensures { result ≡ say.delay_tick self }
    {
        product(u64::from(self.time_scale), self.bit_rate)
    }

    /// 8 / BitRate seconds.
    fn byte_time(self) -> u128
        ensures { result ≡ say.byte_time self }
    {
        u128::from(CLOCK_FOR_BYTES * u64::from(self.time_scale))
    }

    /// t_af of so many bytes that begin to arrive at this time.
    fn final_arrival(self, begins: u128, bytes: u64) -> Option<u128>
        ensures { result ≡ say.counted (say.final_arrival self begins bytes) }
    {
        let byte_time = self.byte_time();
        later(begins, byte_time, u128::from(bytes))
    }

    /// Whether an access unit is removed before it has arrived.
    fn underflows(self, arrival: Arrival) -> bool
        ensures { result ≡ say.underflows self arrival }
    {
        !self.low_delay_hrd_flag && arrival.removal < arrival.ends
    }

    /// Whether the buffer holds more than CpbSize bits at this time, before what is removed then.
    fn overfills(self, waiting: &[Waiting], begins: u128, time: u128) -> bool
        requires { length waiting.now ≡ say.most_waiting }
        ensures { result ≡ say.overfills self waiting.now begins time }
    {
        let size = product(CLOCK * u64::from(self.time_scale), self.cpb_size);
        let come = time.saturating_sub(begins);
        match later(come, self.byte_time(), held_bytes(waiting, time)) {
            Some(held) => size < held,
            None => true,
        }
    }

    /// Whether the buffer holds more than CpbSize bits where this one is removed while an access unit arrives.
    fn overfills_before(self, waiting: &[Waiting], arrival: Arrival, unit: Waiting) -> bool
        requires { length waiting.now ≡ say.most_waiting }
        ensures { result ≡ say.overfills_before self waiting.now arrival unit }
    {
        arrival.begins < unit.removal
            && unit.removal < arrival.ends
            && self.overfills(waiting, arrival.begins, unit.removal)
    }

    /// Whether the buffer holds more than CpbSize bits while an access unit arrives.
    fn overflows(self, waiting: &[Waiting], arrival: Arrival) -> bool
        requires { length waiting.now ≡ say.most_waiting }
        ensures { result ≡ say.overflows self waiting.now arrival }
    {
        if self.overfills(waiting, arrival.begins, arrival.ends) {
            return true;
        }
        for unit in waiting {
            if self.overfills_before(waiting, arrival, *unit) {
                return true;
            }
        }
        false
    }

    /// A second.
    fn second(self) -> u128
        ensures { result ≡ say.second self }
    {
        product(CLOCK * u64::from(self.time_scale), self.bit_rate)
    }

    /// Whether a picture is removed too soon, this time after the one before, of whose level this is asked.
    fn hurries(self, pace: Option<Pace>, time: u128) -> bool
        ensures { result ≡ say.hurries self pace time }
    {
        match pace {
            None => false,
            Some(pace) => {
                let least = later(0, self.second(), u128::from(pace.pic_size_in_mbs));
                is_less(time, u128::from(pace.max_mbps), least)
                    || is_less(time, MOST_FRAMES, later(0, self.second(), 1))
            }
        }
    }

    /// Whether slices have more bytes than their level allows in this time.
    fn is_bulky(self, coded: Coded, time: u128) -> bool
        ensures { result ≡ say.is_bulky self coded.pace coded.slice_bytes time }
    {
        match coded.pace {
            None => false,
            Some(pace) => {
                let bytes = product(coded.slice_bytes, pace.min_cr);
                let parts = MACROBLOCK_BYTES * u128::from(pace.max_mbps);
                is_less(time, parts, later(0, self.second(), bytes))
            }
        }
    }

    /// Whether an access unit is removed late.
    fn is_late(self, arrival: Arrival) -> bool
        ensures { result ≡ say.is_late self arrival }
    {
        self.low_delay_hrd_flag && arrival.removal < arrival.ends
    }

    /// The times of the first access unit. None where they leave their range.
    fn first_arrival(self, own: InitialDelay, bytes: u64) -> Option<Arrival>
        ensures { result ≡ say.first_arrival self own bytes }
    {
        let removal = later(0, self.delay_tick(), u128::from(own.delay))?;
        let ends = self.final_arrival(0, bytes)?;
        Some(Arrival {
            removal,
            begins: 0,
            ends,
        })
    }

    /// What the first access unit breaks.
    fn found_first(self, coded: Coded, arrival: Arrival) -> Findings
        ensures { result ≡ say.found_first self coded arrival }
    {
        Findings {
            underflow: self.underflows(arrival),
            initial_delay: false,
            overflow: self.overflows(&[NO_UNIT; MOST_WAITING], arrival),
            removal_rate: false,
            compression: !self.is_late(arrival) && is_bulky_first(coded),
        }
    }

    /// Whether other rates are the same.
    fn is_same(self, other: Rates) -> bool
        ensures { result ≡ say.same_rates self other }
    {
        self.bit_rate == other.bit_rate
            && self.num_units_in_tick == other.num_units_in_tick
            && self.time_scale == other.time_scale
            && self.cpb_size == other.cpb_size
            && self.cbr_flag == other.cbr_flag
            && self.low_delay_hrd_flag == other.low_delay_hrd_flag
    }
}

impl Schedule {
    /// After the first access unit.
    fn first(rates: Rates, own: InitialDelay, arrival: Arrival, coded: Coded) -> Schedule
        ensures { result ≡ say.first_schedule rates own arrival coded }
    {
        Schedule {
            rates,
            period_removal: arrival.removal,
            last_delay: 0,
            arrived: arrival.ends,
            initial: own,
            pace: coded.pace,
            waiting: waiting_after([NO_UNIT; MOST_WAITING], arrival.waits(coded.bytes)),
            is_crowded: false,
        }
    }

    /// How long an access unit may stay at most, in 1 / 90000 seconds.
    fn longest_stay(self, own: Option<InitialDelay>) -> u64
        ensures { result ≡ say.longest_stay self own }
    {
        match own {
            Some(own) => u64::from(own.delay),
            None => u64::from(self.initial.delay) + u64::from(self.initial.offset),
        }
    }

    /// t_ai of an access unit that is removed at this time.
    fn initial_arrival(self, own: Option<InitialDelay>, removal: u128) -> u128
        ensures { result ≡ say.initial_arrival self own removal }
    {
        if self.rates.cbr_flag {
            return self.arrived;
        }
        let earliest = earlier(removal, self.rates.delay_tick(), self.longest_stay(own));
        self.arrived.max(earliest)
    }

    /// The times of an access unit with this cpb_removal_delay. None where they leave their range.
    fn arrival_of(self, coded: Coded, delay: u32) -> Option<Arrival>
        ensures { result ≡ say.arrival_of self coded delay }
    {
        let tick = self.rates.clock_tick();
        let removal = later(self.period_removal, tick, u128::from(delay))?;
        let begins = self.initial_arrival(coded.initial, removal);
        let ends = self.rates.final_arrival(begins, coded.bytes)?;
        Some(Arrival {
            removal,
            begins,
            ends,
        })
    }

    /// Whether a delay is above the time from the last arrival to a removal.
    fn is_too_long(self, delay: u32, removal: u128) -> bool
        ensures { result ≡ say.is_too_long self delay removal }
    {
        let before = u64::from(delay).saturating_sub(1);
        earlier(removal, self.rates.delay_tick(), before) <= self.arrived
    }

    /// Whether a delay is below the time from the last arrival to a removal.
    fn is_too_short(self, delay: u32, removal: u128) -> bool
        ensures { result ≡ say.is_too_short self delay removal }
    {
        match later(self.arrived, self.rates.delay_tick(), u128::from(delay) + 1) {
            Some(time) => time <= removal,
            None => false,
        }
    }

    /// Whether the delay of a buffering period is not the time from the last arrival to a removal.
    fn misses_delay(self, own: Option<InitialDelay>, removal: u128) -> bool
        ensures { result ≡ say.misses_delay self own removal }
    {
        match own {
            None => false,
            Some(own) => {
                self.is_too_long(own.delay, removal)
                    || self.rates.cbr_flag && self.is_too_short(own.delay, removal)
            }
        }
    }

    /// The time of a removal from the one before on.
    fn since_last(&self, removal: u128) -> u128
        ensures { result ≡ say.since_last self.now removal }
    {
        removal.saturating_sub(self.waiting[0].removal)
    }

    /// Whether more access units wait at this time than are kept in mind, or did so before.
    fn is_crowded_at(&self, time: u128) -> bool
        ensures { result ≡ (say.is_crowded self.now.waiting time || self.now.is_crowded) }
    {
        time < self.waiting[MOST_WAITING - 1].removal || self.is_crowded
    }

    /// What an access unit with these times breaks.
    fn found_at(&self, coded: Coded, arrival: Arrival) -> Findings
        ensures { result ≡ say.found_at self.now coded arrival }
    {
        let time = self.since_last(arrival.removal);
        let overflow = !self.is_crowded_at(arrival.begins)
            && self.rates.overflows(&self.waiting, arrival);
        let compression = !self.rates.is_late(arrival) && self.rates.is_bulky(coded, time);
        Findings {
            underflow: self.rates.underflows(arrival),
            initial_delay: self.misses_delay(coded.initial, arrival.removal),
            overflow,
            removal_rate: self.rates.hurries(self.pace, time),
            compression,
        }
    }

    /// With an access unit in the buffer.
    fn filled(self, coded: Coded, arrival: Arrival) -> Schedule
        ensures { result ≡ say.filled self coded arrival }
    {
        Schedule {
            rates: self.rates,
            period_removal: self.period_removal,
            last_delay: self.last_delay,
            arrived: arrival.ends,
            initial: self.initial,
            pace: coded.pace,
            waiting: waiting_after(self.waiting, arrival.waits(coded.bytes)),
            is_crowded: self.is_crowded_at(arrival.begins),
        }
    }

    /// After an access unit with this cpb_removal_delay, which begins a buffering period or not.
    fn after(self, delay: u32, own: Option<InitialDelay>, arrival: Arrival) -> Schedule
        ensures { result ≡ say.schedule_after self delay own arrival }
    {
        let mut after = self;
        match own {
            None => after.last_delay = delay,
            Some(own) => {
                after.last_delay = 0;
                after.period_removal = arrival.removal;
                after.initial = own;
            }
        }
        after
    }

    /// With an access unit of this cpb_removal_delay.
    fn delayed(self, coded: Coded, removal: Option<u32>) -> Step
        ensures { result ≡ say.delayed self coded removal }
    {
        let Some(delay) = removal else {
            return Step::to(Watch::Off(Lack::NoTiming));
        };
        if delay <= self.last_delay {
            return Step::to(Watch::Off(Lack::NoRise));
        }
        match self.arrival_of(coded, delay) {
            None => Step::to(Watch::Off(Lack::OutOfRange)),
            Some(arrival) => Step {
                watch: self
                    .filled(coded, arrival)
                    .after(delay, coded.initial, arrival)
                    .runs_on(arrival),
                findings: self.found_at(coded, arrival),
            },
        }
    }

    /// Whether it is followed after an access unit with these times.
    fn runs_on(self, arrival: Arrival) -> Watch
        ensures { result ≡ say.runs_on arrival self }
    {
        if self.rates.is_late(arrival) {
            Watch::Off(Lack::Late)
        } else {
            Watch::Runs(self)
        }
    }

    /// With one more access unit.
    fn step(self, coded: Coded) -> Step
        ensures { result ≡ say.later_step self coded coded.rates }
    {
        match coded.rates {
            Some(rates) if self.rates.is_same(rates) => self.delayed(coded, coded.removal),
            _ => Step::to(Watch::Off(Lack::OtherParameters)),
        }
    }
}

impl Findings {
    /// Nothing.
    pub(crate) fn none() -> Findings
        ensures { result ≡ say.none_found }
    {
        Findings {
            underflow: false,
            initial_delay: false,
            overflow: false,
            removal_rate: false,
            compression: false,
        }
    }
}

impl Arrival {
    /// An access unit of so many bytes in the buffer.
    fn waits(self, bytes: u64) -> Waiting
        ensures { result ≡ say.waits self bytes }
    {
        Waiting {
            removal: self.removal,
            bytes,
        }
    }
}

impl Step {
    /// To this, with nothing found.
    fn to(watch: Watch) -> Step
        ensures { result ≡ say.step_to watch }
    {
        Step {
            watch,
            findings: Findings::none(),
        }
    }

    /// With the first access unit, where its times are in their range.
    fn first(rates: Rates, own: InitialDelay, coded: Coded) -> Step
        ensures { result ≡ say.first_step_to rates own coded (say.first_arrival rates own coded.bytes) }
    {
        match rates.first_arrival(own, coded.bytes) {
            None => Step::to(Watch::Off(Lack::OutOfRange)),
            Some(arrival) => Step {
                watch: Schedule::first(rates, own, arrival, coded).runs_on(arrival),
                findings: rates.found_first(coded, arrival),
            },
        }
    }
}

/// With the first access unit.
fn first_step(coded: Coded) -> Step
    ensures { result ≡ say.first_step coded coded.rates coded.initial }
{
    let Some(rates) = coded.rates else {
        return Step::to(Watch::Off(Lack::NoParameters));
    };
    match coded.initial {
        None => Step::to(Watch::Off(Lack::NoPeriod)),
        Some(own) => Step::first(rates, own, coded),
    }
}

impl Lack {
    /// Why it is still not followed, after an access unit with these parameters.
    fn after(self, rates: Option<Rates>) -> Lack
        ensures { result ≡ say.lack_after self rates }
    {
        match (self, rates) {
            (Lack::NoParameters, Some(_)) => Lack::OtherParameters,
            (lack, _) => lack,
        }
    }
}

impl Watch {
    /// Why not all is judged, if it is not.
    pub(crate) fn lack(&self) -> Option<Lack>
        ensures { result ≡ say.lack_of self.now }
    {
        match self {
            Watch::Before => None,
            Watch::Runs(schedule) => {
                if schedule.is_crowded {
                    Some(Lack::Crowded)
                } else {
                    None
                }
            }
            Watch::Off(lack) => Some(*lack),
        }
    }

    /// With one more access unit.
    pub(crate) fn step(self, coded: Coded) -> Step
        ensures { result ≡ say.step self coded }
    {
        match self {
            Watch::Before => first_step(coded),
            Watch::Runs(schedule) => schedule.step(coded),
            Watch::Off(lack) => Step::to(Watch::Off(lack.after(coded.rates))),
        }
    }
}
