//! A session over a stream.
#![tactic(auto)]

ghost use Rattle.std.specs.Prelude.{◌≡◌, ◌≢◌, ℕ, ◌+◌, ◌-◌, ◌*◌, ◌<◌, ◌≤◌, ◌^◌, ◌⊎◌, List, [], ◌++◌, length, OnOk, IfOk, IfErr, Ok, Err, None};
ghost use Rattle.h264_base.specs.Call.{HasRoom, IsQuiet, span};
ghost use Rattle.std.specs.Prelude.{take, drop, false, IfSome, Some, IsErrOf};
ghost use Rattle.h264_verify.specs.Memory.{bytes_of, ChangesFormat};
ghost use Rattle.h264_verify.specs.Turning.{Turns, Pauses};
ghost use Rattle.h264_verify.specs.UnitOutcome.{unit_to_data};
ghost use Rattle.h264_verify.specs.Keeping.{ended_in};
ghost use Rattle.h264_verify.specs.Progress.{going, IsFresh, LastIsRead};
ghost use Rattle.h264_verify.specs.Telling.{Told, IsFamilyFor, frame_span, Family};
ghost use Rattle.h264_verify.specs.History.{History};
ghost use Rattle.h264_verify.specs.KeepingUnits.{Keeps, KeepsSome};
ghost use Rattle.h264_verify.specs.Modes.{purpose_for};
ghost use Rattle.h264_verify.specs.Units.{terms_of, extent_by};
ghost use Rattle.h264_verify.specs.Feeding.{WasFed, IsFed, IsReady, GoesOn, ComesTo};
ghost use Rattle.h264_verify.specs.Verdict.{Judged};
ghost use Rattle.h264_verify.specs.declared.state.Depth.TheVariants as depths;
ghost use Rattle.h264_verify.specs.Buffering.{taken_after};

use crate::bytes::read_bytes;
use crate::unit::{judge_end, judge_unit};
use crate::{Extent, State, Terms};
use h264_base::{Mode, Stop, Summary, Target};
use h264_dpb::FrameSink;
use h264_rbsp::Rbsp;
use h264_units::{NalUnit, Splitter};
use std::alloc::Global;
use std::marker::Model;

/// Judges a unit, and lets the sink note how many places of the picture buffer are then taken.
fn judge_next<S: FrameSink>(
    alloc: Global,
    terms: Terms,
    state: &mut State,
    unit: &NalUnit,
    rbsp: &Option<Rbsp>,
    sink: &mut S,
) -> Result<(), Stop>
    requires count { HasRoom S.failures sink.old }
    requires units { state.old.units ≤ 2 ^ 40 }
    requires pictures { state.old.slices.pictures ≤ state.old.units }
    requires bytes { rbsp.now ≡ bytes_of terms.depth unit.now }
    requires kept { KeepsSome terms.depth false state.old }
    ensures turns { (frames : Family) (before : History) → Keeps terms.depth frames before state.old →
        Turns (extent_by terms) (frame_span S.took S.failures frames sink.old sink.new) before unit.now state.new result }
    ensures counts { OnOk result (state.new.units ≡ state.old.units + 1) }
    ensures pictures { OnOk result (state.new.slices.pictures ≤ state.new.units) }
    ensures no_memory { (frames : Family) (before : History) → Keeps terms.depth frames before state.old → IsErrOf result Stop.Memory →
        ChangesFormat terms.depth before unit.now }
    ensures pauses { (frames : Family) (before : History) → Keeps terms.depth frames before state.old → IsErrOf result Stop.Memory →
        Pauses (frame_span S.took S.failures frames sink.old sink.new) (ended_in before) (unit_to_data (extent_by terms) before unit.now) }
    ensures kept { OnOk result (IsQuiet S.failures sink.old sink.new) }
{
    let Terms { depth, target, .. } = terms;
    match judge_unit(alloc, Extent { depth, target }, state, unit, rbsp, sink) {
        Ok(()) => {
            sink.note_places_taken(state.places_taken());
            Ok(())
        }
        Err(stop) => Err(stop),
    }
}

/// Bytes up to the end of a unit, and the unit.
fn feed_some<S: FrameSink>(
    alloc: Global,
    terms: Terms,
    splitter: &mut Splitter,
    state: &mut State,
    piece: &[u8],
    sink: &mut S,
) -> Result<usize, Stop>
    requires count { HasRoom S.failures sink.old }
    requires some { 0 < length piece.now }
    requires ready { IsReady terms splitter.old state.old }
    ensures within { IfOk result (λ n. (0 < n) × (n ≤ length piece.now)) }
    ensures goes { (bytes : List ℕ) (frames : Family) (told : List Told) → (f : WasFed terms (going terms splitter.old state.old) bytes frames told) →
        IfOk result (λ n. GoesOn f (span S.took S.failures sink.old sink.new) (going terms splitter.new state.new) (take n piece.now)) }
    ensures ready { OnOk result (IsReady terms splitter.new state.new) }
    ensures kept { OnOk result (IsQuiet S.failures sink.old sink.new) }
    ensures stops { (bytes : List ℕ) (frames : Family) (told : List Told) → (f : WasFed terms (going terms splitter.old state.old) bytes frames told) →
        IfErr result (λ stop. (later : List ℕ) →
        ComesTo f (span S.took S.failures sink.old sink.new) ((bytes ++ piece.now) ++ later) (Err stop)) }
    ensures no_read { IfErr result (λ stop. stop ≢ Stop.Read) }
{
    let n = splitter.push(piece)?;
    match splitter.take_unit() {
        None => Ok(n),
        Some(unit) => {
            let bytes = read_bytes(alloc, terms.depth, &unit)?;
            judge_next(alloc, terms, state, &unit, &bytes, sink)?;
            Ok(n)
        }
    }
}

/// What is left of a piece after some bytes.
fn after(piece: &[u8], n: usize) -> &[u8]
    requires { n ≤ length piece.now }
    ensures { result.now ≡ drop n piece.now }
{
    &piece[n..]
}

/// All of a piece.
fn feed_all<S: FrameSink>(
    alloc: Global,
    terms: Terms,
    splitter: &mut Splitter,
    state: &mut State,
    piece: &[u8],
    sink: &mut S,
) -> Result<(), Stop>
    requires count { HasRoom S.failures sink.old }
    requires ready { IsReady terms splitter.old state.old }
    ensures goes { (bytes : List ℕ) (frames : Family) (told : List Told) → (f : WasFed terms (going terms splitter.old state.old) bytes frames told) →
        OnOk result (GoesOn f (span S.took S.failures sink.old sink.new) (going terms splitter.new state.new) piece.now) }
    ensures ready { OnOk result (IsReady terms splitter.new state.new) }
    ensures kept { OnOk result (IsQuiet S.failures sink.old sink.new) }
    ensures stops { (bytes : List ℕ) (frames : Family) (told : List Told) → (f : WasFed terms (going terms splitter.old state.old) bytes frames told) →
        IfErr result (λ stop. (later : List ℕ) →
        ComesTo f (span S.took S.failures sink.old sink.new) ((bytes ++ piece.now) ++ later) (Err stop)) }
    ensures no_read { IfErr result (λ stop. stop ≢ Stop.Read) }
    ensures no_bytes { piece.now ≡ [] → (result ≡ Ok tt) × (splitter.new ≡ splitter.old) × (state.new ≡ state.old) × (sink.new ≡ sink.old) }
{
    let mut rest = piece;
    while !rest.is_empty() {
        let n = feed_some(alloc, terms, splitter, state, rest, sink)?;
        rest = after(rest, n);
    }
    Ok(())
}

/// What is left at the end of the input.
fn finish_all<S: FrameSink>(
    alloc: Global,
    terms: Terms,
    splitter: &mut Splitter,
    state: &mut State,
    sink: &mut S,
) -> Result<Summary, Stop>
    requires count { HasRoom S.failures sink.old }
    requires ready { IsReady terms splitter.old state.old }
    ensures comes { (bytes : List ℕ) (frames : Family) (told : List Told) → (f : WasFed terms (going terms splitter.old state.old) bytes frames told) →
        ComesTo f (span S.took S.failures sink.old sink.new) bytes result }
    ensures no_read { IsErrOf result Stop.Read → ⊥ }
    ensures memory { IsErrOf result Stop.Memory → LastIsRead terms.depth splitter.old }
{
    splitter.finish()?;
    match splitter.take_unit() {
        None => judge_end(terms.depth, state, 8 * splitter.length(), sink),
        Some(unit) => {
            let bytes = read_bytes(alloc, terms.depth, &unit)?;
            judge_next(alloc, terms, state, &unit, &bytes, sink)?;
            judge_end(terms.depth, state, 8 * splitter.length(), sink)
        }
    }
}

/// Lets go of what a session holds, in one place for all ways out.
fn let_go(_splitter: Splitter, _state: State) {}

/// A stream that is judged as it comes.
#[derive(Drop)]
pub struct Session {
    alloc: Global,
    terms: Terms,
    splitter: Splitter,
    state: State,
    stop: Option<Stop>,
}

impl Model for Session {
    ghost use Rattle.h264_verify.specs.Progress.{Progress};
    ghost use Rattle.h264_verify.specs.Feeding.{IsSession};

    ghost Value = { Progress };

    ghost view = { λ s. record { terms = s.terms; split = s.splitter; state = s.state; stop = s.stop } };

    ghost invariant = { λ s. IsSession s.terms s.stop s.splitter s.state };
}

impl Session {
    /// A session before the first byte, of a stream that is judged in this mode and for this target. It takes the places of the parameter sets and a first
    /// place of contexts: Memory where they are refused.
    pub fn new(alloc: Global, mode: Mode, target: Target) -> Result<Session, Stop>
        ensures fresh { IfOk result (IsFresh (terms_of mode target)) }
        ensures fed { IfOk result (λ s. (frames : Family) → IsFamilyFor (purpose_for mode) frames → WasFed (terms_of mode target) s [] frames []) }
        ensures err { IfErr result (λ e. e ≡ Stop.Memory) }
    {
        let terms = Terms::of(mode, target);
        let state = State::new(alloc, terms)?;
        Ok(Session {
            alloc,
            terms,
            splitter: Splitter::new(alloc),
            state,
            stop: None,
        })
    }

    /// Judges the next piece of the input, where this has not stopped.
    pub(crate) fn advance<S: FrameSink>(&mut self, piece: &[u8], sink: &mut S) -> Result<(), Stop>
        requires count { HasRoom S.failures sink.old }
        requires runs { self.old.stop ≡ None }
        // It goes on by the piece.
        ensures goes { (terms : Terms) (bytes : List ℕ) (frames : Family) (told : List Told) → (f : WasFed terms self.old bytes frames told) →
            OnOk result (GoesOn f (span S.took S.failures sink.old sink.new) self.new piece.now) }
        // The stop is the stream's, however that goes on, or the sink failed, or memory was refused.
        ensures stops { (terms : Terms) (bytes : List ℕ) (frames : Family) (told : List Told) → (f : WasFed terms self.old bytes frames told) →
            IfErr result (λ stop. (later : List ℕ) →
            ComesTo f (span S.took S.failures sink.old sink.new) ((bytes ++ piece.now) ++ later) (Err stop)) }
        ensures going { OnOk result (self.new.stop ≡ None) }
        ensures kept { OnOk result (IsQuiet S.failures sink.old sink.new) }
        ensures stopped { IfErr result (λ stop. self.new.stop ≡ Some stop) }
        ensures terms { self.new.terms ≡ self.old.terms }
        ensures write { IsErrOf result Stop.Write → S.failures sink.new ≡ S.failures sink.old + 1 }
        ensures write_told { (IsQuiet S.failures sink.old sink.new) ⊎ IsErrOf result Stop.Write }
        ensures no_read { IsErrOf result Stop.Read → ⊥ }
        ensures no_bytes { piece.now ≡ [] → (result ≡ Ok tt) × (self.new ≡ self.old) × (sink.new ≡ sink.old) }
    {
        match feed_all(
            self.alloc,
            self.terms,
            &mut self.splitter,
            &mut self.state,
            piece,
            sink,
        ) {
            Ok(()) => Ok(()),
            Err(stop) => {
                self.stop = Some(stop);
                Err(stop)
            }
        }
    }

    /// Judges the end of the input, where this has not stopped.
    pub(crate) fn conclude<S: FrameSink>(self, sink: &mut S) -> Result<Summary, Stop>
        requires count { HasRoom S.failures sink.old }
        requires runs { self.stop ≡ None }
        ensures comes { (terms : Terms) (bytes : List ℕ) (frames : Family) (told : List Told) → (f : WasFed terms self bytes frames told) →
            ComesTo f (span S.took S.failures sink.old sink.new) bytes result }
        ensures write { IsErrOf result Stop.Write → S.failures sink.new ≡ S.failures sink.old + 1 }
        ensures write_told { (IsQuiet S.failures sink.old sink.new) ⊎ IsErrOf result Stop.Write }
        ensures no_read { IsErrOf result Stop.Read → ⊥ }
        ensures memory { IsErrOf result Stop.Memory → LastIsRead self.terms.depth self.split }
    {
        let mut splitter = self.splitter;
        let mut state = self.state;
        let judged = finish_all(self.alloc, self.terms, &mut splitter, &mut state, sink);
        let_go(splitter, state);
        judged
    }

    /// Lets go of what it holds.
    pub(crate) fn close(self) {
        let_go(self.splitter, self.state)
    }

    /// How many places of the picture buffer are taken: by frames that wait for output or are used for reference, and by the frames of missing
    /// numbers (C.4.2). Slice data are read in `Mode::Verdict` and `Mode::Full` alone.
    pub fn places_taken(&self) -> usize
        ensures { (bytes : List ℕ) (frames : Family) (told : List Told) → (fed : WasFed self.now.terms self.now bytes frames told) →
            self.now.terms.depth ≡ depths.Full → result ≡ taken_after fed.before }
    {
        self.state.places_taken()
    }

    /// Judges the next piece of the input. Err: the stop of the stream; Memory where a growth was refused, for bytes or for a picture
    /// of another format than the one before it; Write where the sink failed. From then on each call answers it again.
    pub fn feed<S: FrameSink>(&mut self, piece: &[u8], sink: &mut S) -> Result<(), Stop>
        requires { self.old.stop ≡ None → HasRoom S.failures sink.old }
        // It was then fed the piece too.
        ensures fed { (terms : Terms) (bytes : List ℕ) (frames : Family) (told : List Told) → WasFed terms self.old bytes frames told →
            OnOk result (IsFed terms (span S.took S.failures sink.old sink.new) self.new (bytes ++ piece.now) frames told) }
        // However the input goes on, this is its verdict.
        ensures stops { (terms : Terms) (bytes : List ℕ) (frames : Family) (told : List Told) → WasFed terms self.old bytes frames told →
            IfErr result (λ stop. (later : List ℕ) → Judged terms (span S.took S.failures sink.old sink.new) ((bytes ++ piece.now) ++ later) frames told
            (Err stop)) }
        ensures stopped { IfErr result (λ stop. self.new.stop ≡ Some stop) }
        // No bytes change nothing.
        ensures no_bytes { piece.now ≡ [] → self.old.stop ≡ None → (result ≡ Ok tt) × (self.new ≡ self.old) × (sink.new ≡ sink.old) }
        // Write comes where the sink failed, and only there.
        ensures write { self.old.stop ≡ None → IsErrOf result Stop.Write → S.failures sink.new ≡ S.failures sink.old + 1 }
        ensures write_told { (IsQuiet S.failures sink.old sink.new) ⊎ IsErrOf result Stop.Write }
        ensures no_read { self.old.stop ≡ None → IsErrOf result Stop.Read → ⊥ }
        ensures terms { self.new.terms ≡ self.old.terms }
        // A stopped session repeats its stop, and touches no sink.
        ensures again { IfSome self.old.stop (λ stop. (result ≡ Err stop) × (self.new ≡ self.old) × (sink.new ≡ sink.old)) }
    {
        match self.stop {
            Some(stop) => Err(stop),
            None => self.advance(piece, sink),
        }
    }

    /// Judges the end of the input. Err as for `feed`.
    pub fn finish<S: FrameSink>(self, sink: &mut S) -> Result<Summary, Stop>
        requires { self.stop ≡ None → HasRoom S.failures sink.old }
        // The verdict on all that it was fed.
        ensures verdict { (terms : Terms) (bytes : List ℕ) (frames : Family) (told : List Told) → WasFed terms self bytes frames told →
            Judged terms (span S.took S.failures sink.old sink.new) bytes frames told result }
        // Write comes where the sink failed, and only there.
        ensures write { self.stop ≡ None → IsErrOf result Stop.Write → S.failures sink.new ≡ S.failures sink.old + 1 }
        ensures write_told { (IsQuiet S.failures sink.old sink.new) ⊎ IsErrOf result Stop.Write }
        ensures no_read { self.stop ≡ None → IsErrOf result Stop.Read → ⊥ }
        // Memory comes only where a unit was left open, and is read.
        ensures memory { self.stop ≡ None → IsErrOf result Stop.Memory → LastIsRead self.terms.depth self.split }
        ensures again { IfSome self.stop (λ stop. (result ≡ Err stop) × (sink.new ≡ sink.old)) }
    {
        match self.stop {
            Some(stop) => {
                self.close();
                Err(stop)
            }
            None => self.conclude(sink),
        }
    }
}
