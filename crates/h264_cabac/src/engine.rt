//! The arithmetic decoding engine (9.3.1.2, 9.3.3.2).
#![tactic(auto)]

ghost use Rattle.std.specs.Prelude.{◌≡◌, ◌+◌, ◌-◌, ◌*◌, ◌/◌, ◌^◌, ◌<◌, ◌≤◌, length, IfOk, OnErr, Some, None};
ghost use Rattle.h264_cabac.specs.Engine.{initialised, decision, bypass, bypass_number, terminate};
ghost use Rattle.h264_cabac.specs.Given.{state_of, GivesBin, GivesDecision, GivesNumber};

use crate::context::Context;
use crate::load::load;
use crate::register::{
    Register, divided, is_below, passed, reduced, refilled, renormalized, with_range, without,
};
use h264_bits::NoWord;
use std::marker::Model;

/// codIRange at the beginning; codIOffset is below it (9.3.1.2).
const FIRST_RANGE: u32 = 510;

/// Of the first 32 bits those after codIOffset are ahead.
const FIRST_AHEAD: u32 = 23;

/// What a bin before a termination takes from codIRange (9.3.3.2.4).
const TERMINATING: u32 = 2;

/// The decoding engine over the bytes of an RBSP.
#[derive(Drop)]
pub struct Engine<'a> {
    bytes: &'a [u8],
    register: Register,
}

impl<'a> Model for Engine<'a> {
    ghost use Rattle.h264_cabac.specs.Engine.{EngineState};
    ghost use Rattle.h264_cabac.specs.Register.{IsReady, engine_of};

    ghost Value = { EngineState };

    ghost view = { λ e. engine_of e.bytes.now e.register };

    ghost invariant = { λ e. IsReady e.bytes.now e.register };
}

impl<'a> Engine<'a> {
    /// The engine as it begins at byte `first` of an RBSP (9.3.1.2). NoWord: fewer than nine bits are left there, or codIOffset is 510 or 511.
    pub fn begin(bytes: &'a [u8], first: usize) -> Result<Engine<'a>, NoWord>
        requires short { length bytes.now ≤ 2 ^ 28 }
        requires inside { first ≤ length bytes.now }
        ensures ok { IfOk result (λ engine. initialised bytes.now (8 * first) ≡ Some engine) }
        ensures none { OnErr result (initialised bytes.now (8 * first) ≡ None) }
    {
        let number = load(bytes, first) as u64;
        if bytes.len() < first + 2 || (number >> FIRST_AHEAD) as u32 >= FIRST_RANGE {
            return Err(NoWord);
        }
        Ok(Engine {
            bytes,
            register: Register {
                at: 8 * first + 9,
                range: FIRST_RANGE,
                number,
                ahead: FIRST_AHEAD,
            },
        })
    }

    /// The bit of the RBSP that is read next.
    #[inline(always)]
    pub fn at(&self) -> usize
        ensures value { result ≡ self.now.at }
        ensures inside { result ≤ 8 * length self.now.bytes }
    {
        self.register.at
    }

    /// Decodes a bin that has a context, and changes the context (9.3.3.2.1). NoWord: the bits end before; then nothing has changed.
    #[inline(always)]
    pub fn decision(&mut self, context: &mut Context) -> Result<bool, NoWord>
        ensures step { GivesDecision (decision (state_of context.old) self.old) (state_of context.new) self.new result }
        ensures kept { OnErr result (self.new ≡ self.old) }
        ensures same { OnErr result (state_of context.new ≡ state_of context.old) }
    {
        let r = self.register;
        let lps = context.range_lps(r.range);
        let rest = r.range - lps;
        if is_below(r, rest) {
            let Some(next) = renormalized(self.bytes, with_range(r, rest)) else {
                return Err(NoWord);
            };
            self.register = next;
            let bin = context.val_mps;
            *context = context.after_most_probable();
            Ok(bin)
        } else {
            let Some(next) = renormalized(self.bytes, without(r, rest, lps)) else {
                return Err(NoWord);
            };
            self.register = next;
            let bin = !context.val_mps;
            *context = context.after_least_probable();
            Ok(bin)
        }
    }

    /// Decodes a bin that has no context (9.3.3.2.3). NoWord: the bits end before; then nothing has changed.
    #[inline(always)]
    pub fn bypass(&mut self) -> Result<bool, NoWord>
        ensures step { GivesBin (bypass self.old) self.new result }
        ensures kept { OnErr result (self.new ≡ self.old) }
    {
        let r = self.register;
        if r.at >= 8 * self.bytes.len() {
            return Err(NoWord);
        }
        let (bin, next) = reduced(passed(self.bytes, r, 1), r.range);
        self.register = refilled(self.bytes, next);
        Ok(bin)
    }

    /// Decodes `n` bins by bypass at once, as the digits of a number, the first the highest (9.3.3.2.3). NoWord: the bits end before; then nothing has
    /// changed.
    pub fn bypass_number(&mut self, n: u32) -> Result<u32, NoWord>
        requires { n ≤ 8 }
        ensures step { GivesNumber (bypass_number n 0 self.old) self.new result }
        ensures small { IfOk result (λ v. v < 2 ^ n) }
        ensures kept { OnErr result (self.new ≡ self.old) }
    {
        let r = self.register;
        if n as usize > 8 * self.bytes.len() - r.at {
            return Err(NoWord);
        }
        let (number, next) = divided(r, n);
        self.register = refilled(self.bytes, next);
        Ok(number)
    }

    /// Decodes a bin before a termination (9.3.3.2.4). After a 1 no bin follows. NoWord: the bits end before; then nothing has changed.
    #[inline(always)]
    pub fn terminate(&mut self) -> Result<bool, NoWord>
        ensures step { GivesBin (terminate self.old) self.new result }
        ensures kept { OnErr result (self.new ≡ self.old) }
    {
        let r = self.register;
        let rest = r.range - TERMINATING;
        if !is_below(r, rest) {
            return Ok(true);
        }
        let Some(next) = renormalized(self.bytes, with_range(r, rest)) else {
            return Err(NoWord);
        };
        self.register = next;
        Ok(false)
    }
}
