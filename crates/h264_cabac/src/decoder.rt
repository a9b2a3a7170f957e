//! The decoding engine with the contexts of a slice.
#![tactic(auto)]

ghost use Rattle.std.specs.Prelude.{◌≡◌, ◌*◌, ◌<◌, ◌≤◌, ◌^◌, length, IfOk, OnErr, Some, None};
ghost use Rattle.h264_cabac.specs.Bins.{regular_step, bypass_step, terminate_step};
ghost use Rattle.h264_cabac.specs.Contexts.{IsInitial};
ghost use Rattle.h264_cabac.specs.Engine.{initialised};
ghost use Rattle.h264_cabac.specs.Elements.{number_from};
ghost use Rattle.h264_cabac.specs.Given.{Gives, GivesStep, state_of};

use crate::context::Context;
use crate::engine::Engine;
use crate::initial::{CONTEXTS, InitTable, initial_contexts};
use h264_bits::NoWord;
use std::marker::Model;

/// The engine and the contexts, by ctxIdx.
#[derive(Drop)]
pub struct Decoder<'a> {
    engine: Engine<'a>,
    contexts: [Context; CONTEXTS],
}

impl<'a> Model for Decoder<'a> {
    ghost use Rattle.std.specs.Prelude.{◌≡◌, length, map};
    ghost use Rattle.h264_cabac.specs.Bins.{DecoderState};
    ghost use Rattle.h264_cabac.specs.Given.{state_of};

    ghost Value = { DecoderState };

    ghost view = { λ d. record { engine = d.engine; contexts = map state_of d.contexts } };

    ghost invariant = { λ d. length d.contexts ≡ 436 };
}

impl<'a> Decoder<'a> {
    /// The decoder of a slice whose data begin at byte `first` of its RBSP (9.3.1). NoWord: as `Engine::begin`.
    pub fn begin(
        bytes: &'a [u8],
        first: usize,
        table: InitTable,
        slice_qp: u8,
    ) -> Result<Decoder<'a>, NoWord>
        requires short { length bytes.now ≤ 2 ^ 28 }
        requires inside { first ≤ length bytes.now }
        ensures engine { IfOk result (λ d. initialised bytes.now (8 * first) ≡ Some d.engine) }
        ensures contexts { IfOk result (λ d. IsInitial table slice_qp d.contexts) }
        ensures none { OnErr result (initialised bytes.now (8 * first) ≡ None) }
    {
        match Engine::begin(bytes, first) {
            Ok(engine) => Ok(Decoder {
                engine,
                contexts: initial_contexts(table, slice_qp),
            }),
            Err(NoWord) => Err(NoWord),
        }
    }

    /// The engine begins anew at byte `first`, as after the samples of I_PCM (9.3.1.2). The contexts stay. NoWord: as `Engine::begin`.
    pub fn begin_again(&mut self, bytes: &'a [u8], first: usize) -> Result<(), NoWord>
        requires short { length bytes.now ≤ 2 ^ 28 }
        requires inside { first ≤ length bytes.now }
        ensures engine { IfOk result (λ _. initialised bytes.now (8 * first) ≡ Some self.new.engine) }
        ensures contexts { self.new.contexts ≡ self.old.contexts }
        ensures none { OnErr result (initialised bytes.now (8 * first) ≡ None) }
    {
        match Engine::begin(bytes, first) {
            Ok(engine) => {
                self.engine = engine;
                Ok(())
            }
            Err(NoWord) => Err(NoWord),
        }
    }

    /// The bit of the RBSP that is read next.
    #[inline(always)]
    pub fn at(&self) -> usize
        ensures value { result ≡ self.now.engine.at }
        ensures inside { result ≤ 8 * length self.now.engine.bytes }
    {
        self.engine.at()
    }

    /// Decodes a bin with the context of this ctxIdx (9.3.3.2.1). NoWord: the bits end before; then nothing has changed.
    #[inline(always)]
    pub fn regular(&mut self, index: usize) -> Result<bool, NoWord>
        requires { index < 436 }
        ensures step { GivesStep (regular_step index self.old) self.new result }
        ensures kept { OnErr result (self.new ≡ self.old) }
    {
        let mut context = self.contexts[index];
        match self.engine.decision(&mut context) {
            Ok(bin) => {
                self.contexts[index] = context;
                Ok(bin)
            }
            Err(NoWord) => Err(NoWord),
        }
    }

    /// Decodes a bin by bypass (9.3.3.2.3). NoWord: the bits end before; then nothing has changed.
    #[inline(always)]
    pub fn bypass(&mut self) -> Result<bool, NoWord>
        ensures step { GivesStep (bypass_step self.old) self.new result }
        ensures kept { OnErr result (self.new ≡ self.old) }
    {
        self.engine.bypass()
    }

    /// Decodes `n` bins by bypass at once, as the digits of a number, the first the highest. NoWord: the bits end before; then nothing has changed.
    pub fn bypass_number(&mut self, n: u32) -> Result<u32, NoWord>
        requires { n ≤ 8 }
        ensures value { Gives (number_from n 0) self.old self.new result }
        ensures small { IfOk result (λ v. v < 2 ^ n) }
        ensures kept { OnErr result (self.new ≡ self.old) }
    {
        self.engine.bypass_number(n)
    }

    /// Decodes a bin before a termination, as end_of_slice_flag (9.3.3.2.4). NoWord: the bits end before; then nothing has changed.
    #[inline(always)]
    pub fn terminate(&mut self) -> Result<bool, NoWord>
        ensures step { GivesStep (terminate_step self.old) self.new result }
        ensures kept { OnErr result (self.new ≡ self.old) }
    {
        self.engine.terminate()
    }
}
