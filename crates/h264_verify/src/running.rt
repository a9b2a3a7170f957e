//! A source judged to its end.
#![tactic(auto)]

ghost use Rattle.std.specs.Prelude.{◌≡◌, ℕ, ◌+◌, ◌-◌, ◌<◌, ◌≤◌, ◌^◌, ◌⊎◌, List, [], ◌++◌, length, take, OnOk, IfOk, IfErr, Ok, Err};
ghost use Rattle.h264_verify.specs.Telling.{Told, Family, IsFamilyFor};
ghost use Rattle.h264_base.specs.Call.{HasRoom, IsQuiet, span};
ghost use Rattle.std.specs.Prelude.{Bool, true, false, None, Some, IsErrOf, IsTrue, IsFalse};
ghost use Rattle.std.specs.List.{flat_map};
ghost use Rattle.h264_verify.specs.Modes.{purpose_for};
ghost use Rattle.h264_verify.specs.Units.{terms_of};
ghost use Rattle.h264_verify.specs.declared.state.Terms.{Terms};
ghost use Rattle.h264_verify.specs.Feeding.{WasFed, GoesOn, ComesTo};
ghost use Rattle.h264_verify.specs.Giving.{Gives, source_span};
ghost use Rattle.h264_verify.specs.Verdict.{Judged};

use crate::session::Session;
use crate::source::Source;
use h264_base::{Mode, Stop, Summary, Target};
use h264_dpb::FrameSink;
use std::alloc::Global;

/// How many bytes are asked of a source at a time.
const PIECE: usize = 4096;

fn front(piece: &[u8], n: usize) -> &[u8]
    requires { n ≤ length piece.now }
    ensures { result.now ≡ take n piece.now }
{
    &piece[..n]
}

/// One read, and what it gave; whether there may be more.
fn turn<R: Source, S: FrameSink>(
    source: &mut R,
    session: &mut Session,
    piece: &mut [u8],
    sink: &mut S,
) -> Result<bool, Stop>
    requires sink { HasRoom S.failures sink.old }
    requires source { HasRoom R.failures source.old }
    requires room { 0 < length piece.old }
    requires runs { session.old.stop ≡ None }
    // The session goes on by what the source gave,
    ensures more { IfOk result (λ more. IsTrue more → (given : List ℕ) × Gives (source_span R.left R.gave R.failures source.old source.new) given false
        × ((terms : Terms) (bytes : List ℕ) (frames : Family) (told : List Told) → (f : WasFed terms session.old bytes frames told) →
        GoesOn f (span S.took S.failures sink.old sink.new) session.new given)) }
    // and nothing changes at its end.
    ensures end { IfOk result (λ more. IsFalse more → (session.new ≡ session.old) × (sink.new ≡ sink.old)
        × Gives (source_span R.left R.gave R.failures source.old source.new) [] true) }
    // It stops at what the source gave, however that goes on.
    ensures stops { IfErr result (λ stop. (given : List ℕ) × Gives (source_span R.left R.gave R.failures source.old source.new) given false
        × ((terms : Terms) (bytes : List ℕ) (frames : Family) (told : List Told) → (f : WasFed terms session.old bytes frames told) →
        (later : List ℕ) → ComesTo f (span S.took S.failures sink.old sink.new) ((bytes ++ given) ++ later) (Err stop))) }
    ensures kept { OnOk result ((session.new.stop ≡ None) × (IsQuiet S.failures sink.old sink.new) × (IsQuiet R.failures source.old source.new)) }
    ensures again { (n : ℕ) → R.was_read source.old n → R.was_read source.new (n + 1) }
    ensures read { IsErrOf result Stop.Read → R.failures source.new ≡ R.failures source.old + 1 }
    ensures read_told { (IsQuiet R.failures source.old source.new) ⊎ IsErrOf result Stop.Read }
    ensures write { IsErrOf result Stop.Write → S.failures sink.new ≡ S.failures sink.old + 1 }
    ensures write_told { (IsQuiet S.failures sink.old sink.new) ⊎ IsErrOf result Stop.Write }
    ensures piece { length piece.new ≡ length piece.old }
{
    match source.read(piece) {
        Err(_) => Err(Stop::Read),
        Ok(None) => Ok(true),
        Ok(Some(n)) => {
            if n == 0 {
                return Ok(false);
            }
            session.advance(front(piece, n), sink)?;
            Ok(true)
        }
    }
}

/// Reads a source to its end, and judges what it gives.
fn read_all<R: Source, S: FrameSink>(
    source: &mut R,
    session: &mut Session,
    sink: &mut S,
) -> Result<(), Stop>
    requires sink { HasRoom S.failures sink.old }
    requires source { HasRoom R.failures source.old }
    requires runs { session.old.stop ≡ None }
    // The session goes on by all that the source gave.
    ensures fed { OnOk result ((given : List ℕ) × Gives (source_span R.left R.gave R.failures source.old source.new) given true
        × ((terms : Terms) (bytes : List ℕ) (frames : Family) (told : List Told) → (f : WasFed terms session.old bytes frames told) →
        GoesOn f (span S.took S.failures sink.old sink.new) session.new given)) }
    // It stops at what the source gave, however that goes on.
    ensures stops { IfErr result (λ stop. (given : List ℕ) × Gives (source_span R.left R.gave R.failures source.old source.new) given false
        × ((terms : Terms) (bytes : List ℕ) (frames : Family) (told : List Told) → (f : WasFed terms session.old bytes frames told) →
        (later : List ℕ) → ComesTo f (span S.took S.failures sink.old sink.new) ((bytes ++ given) ++ later) (Err stop))) }
    ensures kept { OnOk result ((session.new.stop ≡ None) × (IsQuiet S.failures sink.old sink.new)) }
    ensures read { IsErrOf result Stop.Read → (R.failures source.new ≡ R.failures source.old + 1)
        ⊎ ((n : ℕ) → R.was_read source.old n → R.was_read source.new (n + 2 ^ 41)) }
    ensures read_told { (IsQuiet R.failures source.old source.new) ⊎ IsErrOf result Stop.Read }
    ensures write { IsErrOf result Stop.Write → S.failures sink.new ≡ S.failures sink.old + 1 }
    ensures write_told { (IsQuiet S.failures sink.old sink.new) ⊎ IsErrOf result Stop.Write }
{
    let mut piece = [0u8; PIECE];
    for _ in 0..2_199_023_255_552u64 {
        if !turn(source, session, &mut piece, sink)? {
            return Ok(());
        }
    }
    Err(Stop::Read)
}

/// The verdict on the stream that a source gives, for this target. It is read in pieces of 4,096 bytes. An interrupted read is tried again.
///
/// Ok: the stream is legal. No: the first rule that it breaks, and where. Outside: the first feature that is not judged.
/// Memory: a growth was refused, for the places of parameter sets before the first byte, for bytes of the stream, or for a picture of
/// another format than the one before it. Read: the source failed, or was read 2^41 times. Write: the sink failed.
pub fn run<R: Source, S: FrameSink>(
    alloc: Global,
    source: &mut R,
    sink: &mut S,
    mode: Mode,
    target: Target,
) -> Result<Summary, Stop>
    requires sink { HasRoom S.failures sink.old }
    requires source { HasRoom R.failures source.old }
    // Yes, no and outside are those of the stream, with the calls up to there; memory, read and write come with the first calls.
    ensures verdict { (bytes : List ℕ) → R.left source.old ≡ Some bytes → (frames : Family) → IsFamilyFor (purpose_for mode) frames →
        Judged (terms_of mode target) (span S.took S.failures sink.old sink.new) bytes frames [] result }
    // Of any source it is the verdict on the bytes that it gave, and a yes comes after its end.
    ensures some { (bytes : List ℕ) × (ended : Bool) × Gives (source_span R.left R.gave R.failures source.old source.new) bytes ended
        × OnOk result (ended ≡ true)
        × ((frames : Family) → IsFamilyFor (purpose_for mode) frames →
        Judged (terms_of mode target) (span S.took S.failures sink.old sink.new) bytes frames [] result) }
    ensures read { IsErrOf result Stop.Read → (R.failures source.new ≡ R.failures source.old + 1)
        ⊎ ((n : ℕ) → R.was_read source.old n → R.was_read source.new (n + 2 ^ 41)) }
    // A read that failed is told as Read, and a write that failed as Write.
    ensures read_told { (IsQuiet R.failures source.old source.new) ⊎ IsErrOf result Stop.Read }
    ensures write { IsErrOf result Stop.Write → S.failures sink.new ≡ S.failures sink.old + 1 }
    ensures write_told { (IsQuiet S.failures sink.old sink.new) ⊎ IsErrOf result Stop.Write }
    // Memory comes only where neither failed.
    ensures memory { IsErrOf result Stop.Memory → (IsQuiet R.failures source.old source.new) × (IsQuiet S.failures sink.old sink.new) }
{
    let mut session = match Session::new(alloc, mode, target) {
        Ok(session) => session,
        Err(stop) => return Err(stop),
    };
    match read_all(source, &mut session, sink) {
        Ok(()) => session.conclude(sink),
        Err(stop) => {
            session.close();
            Err(stop)
        }
    }
}

/// The verdict on a stream that comes in these pieces, for this target: that of their bytes, however they were cut.
pub fn run_pieces<S: FrameSink>(
    alloc: Global,
    pieces: &[Vec<u8>],
    sink: &mut S,
    mode: Mode,
    target: Target,
) -> Result<Summary, Stop>
    requires { HasRoom S.failures sink.old }
    ensures verdict { (frames : Family) → IsFamilyFor (purpose_for mode) frames → Judged (terms_of mode target) (span S.took S.failures sink.old sink.new)
        (flat_map (λ piece. piece.items) pieces.now) frames [] result }
    // Nothing is read, so that no read fails; a write that failed is told as Write, and nothing else is.
    ensures no_read { IsErrOf result Stop.Read → ⊥ }
    ensures write { IsErrOf result Stop.Write → S.failures sink.new ≡ S.failures sink.old + 1 }
    ensures write_told { (IsQuiet S.failures sink.old sink.new) ⊎ IsErrOf result Stop.Write }
{
    let mut session = match Session::new(alloc, mode, target) {
        Ok(session) => session,
        Err(stop) => return Err(stop),
    };
    for piece in pieces {
        match session.advance(piece.as_slice(), sink) {
            Ok(()) => {}
            Err(stop) => {
                session.close();
                return Err(stop);
            }
        }
    }
    session.conclude(sink)
}
