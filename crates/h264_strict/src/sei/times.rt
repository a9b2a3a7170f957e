//! What the messages of a unit say of times: buffering_period() and pic_timing() (D.2.1, D.2.2).
#![tactic(auto)]

ghost use Rattle.std.specs.Prelude.{◌≡◌, ℕ, ◌*◌, ◌≤◌, length};
ghost use Rattle.h264_units.specs.UnitTypes.{type_number};
ghost use Rattle.h264_strict.specs.SeiTimes.{no_times, times_more, with_period, with_removal, times_by, times_with, times_from, times_of};
ghost use Rattle.h264_strict.specs.SeiPart.{read_so};

use crate::sei::messages::is_sei;
use crate::sei::payload::{BUFFERING_PERIOD, Message, PIC_TIMING, message_at};
use crate::sei::timing::{FirstDelays, KnownSet, buffering_period, pic_timing};
use h264_bits::Bits;
use h264_rbsp::Rbsp;
use h264_units::NalUnitType;

/// What SEI says of an access unit's times.
#[derive(Clone, Copy)]
pub struct TimesTold {
    /// What its buffering_period() says, if it has one.
    pub period: Option<FirstDelays>,
    /// cpb_removal_delay of its pic_timing(), if it has one.
    pub removal: Option<u32>,
}

impl TimesTold {
    /// Nothing is told.
    pub(crate) fn new() -> TimesTold
        ensures { result ≡ no_times }
    {
        TimesTold {
            period: None,
            removal: None,
        }
    }

    /// With what a later unit says, which counts where both say something.
    pub(crate) fn more(self, later: TimesTold) -> TimesTold
        ensures { result ≡ times_more self later }
    {
        TimesTold {
            period: later.period.or(self.period),
            removal: later.removal.or(self.removal),
        }
    }

    /// With what was read as a buffering_period().
    fn with_period(self, read: Option<FirstDelays>) -> TimesTold
        ensures { (j : ℕ) → result ≡ with_period self (read_so read j) }
    {
        match read {
            Some(period) => TimesTold {
                period: Some(period),
                removal: self.removal,
            },
            None => self,
        }
    }

    /// With what was read as a pic_timing().
    fn with_removal(self, read: Option<Option<u32>>) -> TimesTold
        ensures { (j : ℕ) → result ≡ with_removal self (read_so read j) }
    {
        match read {
            Some(removal) => TimesTold {
                period: self.period,
                removal,
            },
            None => self,
        }
    }

    /// With a message of this payloadType, whose payload begins with this byte of the RBSP.
    fn with(self, known: &KnownSet, payload_type: usize, rbsp: &Rbsp, from: usize) -> TimesTold
        requires { from ≤ length rbsp.now.bytes }
        ensures { result ≡ times_by known.now payload_type rbsp.now.bytes (8 * from) self }
    {
        let KnownSet::One(set) = known else {
            return self;
        };
        let mut bits = Bits::new(rbsp);
        let Ok(_before) = bits.bytes(from) else {
            return self;
        };
        if payload_type == BUFFERING_PERIOD {
            return self.with_period(buffering_period(&mut bits, set));
        }
        if payload_type == PIC_TIMING {
            return self.with_removal(pic_timing(&mut bits, set));
        }
        self
    }

    /// With a message of this RBSP.
    fn with_message(self, known: &KnownSet, rbsp: &Rbsp, message: Message) -> TimesTold
        requires { message.from ≤ length rbsp.now.bytes }
        ensures { result ≡ times_with known.now rbsp.now.bytes message self }
    {
        if message.holds {
            self.with(known, message.payload_type, rbsp, message.from)
        } else {
            self
        }
    }
}

/// What the messages of an RBSP say of times.
fn times_in(known: &KnownSet, rbsp: &Rbsp) -> TimesTold
    ensures { result ≡ times_from known.now (length rbsp.now.bytes) rbsp.now.bytes 0 no_times }
{
    let mut times = TimesTold::new();
    let mut at = 0;
    for _n in 0..rbsp.bytes().len() {
        let Some(message) = message_at(known, rbsp, at) else {
            return times;
        };
        times = times.with_message(known, rbsp, message);
        at = message.end;
    }
    times
}

/// What a unit of this type says of times.
pub(crate) fn times_of(known: &KnownSet, kind: NalUnitType, rbsp: &Rbsp) -> TimesTold
    ensures { result ≡ times_of known.now (type_number kind) rbsp.now.bytes }
{
    if matches!(kind, NalUnitType::Sei) && is_sei(rbsp.bytes()) {
        times_in(known, rbsp)
    } else {
        TimesTold::new()
    }
}
