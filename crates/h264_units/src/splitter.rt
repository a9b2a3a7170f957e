//! The units of an input that comes in pieces (B.1.2).
#![tactic(auto)]

use crate::plan::{extend, is_open, length, plan_piece, waits};
use crate::scan::Phase;
use crate::unit::NalUnit;
use h264_base::{Rule, Stop};
use std::alloc::Global;
use std::marker::Model;
use std::mem;

/// Cuts an input into its NAL units. It is pushed the input in pieces of any size, gives the units in order, and keeps the
/// bytes of the current unit alone, with at most three bytes that are not decided yet.
#[derive(Drop)]
pub struct Splitter {
    alloc: Global,
    at: u64,
    lead: u64,
    body: Vec<u8>,
    phase: Phase,
    stop: Option<Stop>,
}

impl Model for Splitter {
    ghost use Rattle.h264_units.specs.Splitting.{Splitting};
    ghost use Rattle.h264_units.specs.Scanned.{rest_of, waits, has_ended, IsKept, IsLive};

    ghost Value = { Splitting };

    ghost view = { λ s. record {
      at = s.at;
      rest = rest_of s.phase s.lead s.body.items;
      waiting = waits s.phase;
      ended = has_ended s.phase;
      stop =
          s.stop;
    } };

    ghost invariant = { λ s. IsKept s.phase s.at s.lead s.body.items × IsLive s.stop s.phase };
}

impl Splitter {
    ghost use Rattle.std.specs.Prelude.{◌≡◌, ◌+◌, ◌<◌, ◌↔◌, length, OnOk, IfOk, IfErr, IfSome, IfNone, IsSome, IsTrue, IsFalse, Ok, Err, None};
    ghost use Rattle.h264_units.specs.Splitting.{at_start, IsWithin, Pushed, TakesNone, PushStops, Taken, Finished, FinishStops};

    /// A splitter before the first byte. It takes no memory.
    pub fn new(alloc: Global) -> Splitter
        ensures { result ≡ at_start }
    {
        Splitter {
            alloc,
            at: 0,
            lead: 0,
            body: Vec::new(alloc),
            phase: Phase::Between,
            stop: None,
        }
    }

    /// Whether a whole unit waits to be taken.
    pub fn waiting(&self) -> bool
        ensures { result ≡ self.now.waiting }
    {
        waits(self.phase)
    }

    /// How many bytes of the input were taken so far.
    pub fn length(&self) -> u64
        ensures value { result ≡ self.now.at + length self.now.rest }
        ensures within { IsWithin self.now }
    {
        length(self.at, self.lead, self.body.as_slice(), self.phase)
    }

    /// Takes bytes from the front of a piece, up to the end of the next whole unit, and says how many: none while a unit
    /// waits or after `finish`. What is left of the piece is to be pushed again, once the unit was taken.
    ///
    /// After `Memory`, which comes only where there are bytes of a unit to keep, nothing has changed. Any other stop stands however the input goes on,
    /// and is repeated by each later call.
    pub fn push(&mut self, piece: &[u8]) -> Result<usize, Stop>
        ensures ok { IfOk result (Pushed self.old self.new piece.now) }
        ensures some { IfOk result (λ n. IsFalse self.old.waiting → IsFalse self.old.ended → 0 < length piece.now → 0 < n) }
        ensures none { self.old.stop ≡ None → TakesNone self.old piece.now → (result ≡ Ok 0) × (self.new ≡ self.old) }
        ensures err { self.old.stop ≡ None → IfErr result (PushStops self.old self.new piece.now) }
        ensures again { IfSome self.old.stop (λ stop. (result ≡ Err stop) × (self.new ≡ self.old)) }
        ensures within { IsWithin self.new }
    {
        if let Some(stop) = self.stop {
            return Err(stop);
        }
        if piece.is_empty() || !is_open(self.phase) {
            return Ok(0);
        }
        let plan = match plan_piece(self.at, self.lead, self.body.as_slice(), self.phase, piece) {
            Ok(plan) => plan,
            Err(stop) => {
                self.stop = Some(stop);
                return Err(stop);
            }
        };
        if extend(&mut self.body, plan, piece).is_err() {
            return Err(Stop::Memory);
        }
        self.lead = plan.lead;
        self.phase = plan.phase;
        Ok(plan.taken)
    }

    /// Takes the unit that waits, if one does.
    pub fn take_unit(&mut self) -> Option<NalUnit>
        ensures some { IfSome result (Taken self.old self.new) }
        ensures none { IfNone result (self.new ≡ self.old) }
        ensures when { IsSome result ↔ IsTrue self.old.waiting }
        ensures within { IsWithin self.new }
    {
        match self.phase {
            Phase::Waiting(code) => {
                let body = mem::replace(&mut self.body, Vec::new(self.alloc));
                let from = self.at + self.lead + 3;
                self.at = from + body.len() as u64;
                if code {
                    self.lead = 0;
                    self.phase = Phase::Inside(0);
                } else {
                    self.lead = 3;
                    self.phase = Phase::Between;
                }
                Some(NalUnit::new(from, body))
            }
            Phase::Last(zeros) => {
                let body = mem::replace(&mut self.body, Vec::new(self.alloc));
                let from = self.at + self.lead + 3;
                self.at = from + body.len() as u64;
                self.lead = u64::from(zeros);
                self.phase = Phase::Over;
                Some(NalUnit::new(from, body))
            }
            _ => None,
        }
    }

    /// Says that no more input comes: a unit that is still open waits then, and later pushes take nothing.
    /// A stop is repeated by each later call.
    pub fn finish(&mut self) -> Result<(), Stop>
        requires { IsFalse self.old.waiting }
        ensures ok { OnOk result (Finished self.old self.new) }
        ensures err { self.old.stop ≡ None → IfErr result (FinishStops self.old self.new) }
        ensures again { IfSome self.old.stop (λ stop. (result ≡ Err stop) × (self.new ≡ self.old)) }
        ensures within { IsWithin self.new }
    {
        if let Some(stop) = self.stop {
            return Err(stop);
        }
        match self.phase {
            Phase::Between => {
                self.phase = Phase::Over;
                Ok(())
            }
            Phase::Inside(zeros) => {
                if self.body.is_empty() {
                    let stop = Stop::No {
                        bit: 8 * (self.at + self.lead + 3),
                        rule: Rule::EmptyUnit,
                    };
                    self.stop = Some(stop);
                    return Err(stop);
                }
                self.phase = Phase::Last(zeros);
                Ok(())
            }
            _ => Ok(()),
        }
    }
}
