//! The verifier and decoder for C, as include/h264v.h has it: a stream is sent in pieces, and its frames are received as they come.
//!
//! What a decoder does stands in `Decoder` of h264_stream with its contract. The exports hand calls on: a `Handle` is the pointer that C holds, a
//! `Stream` what it points to, and `CVerdict` and `CFrame` what C reads. A caller in C has to do what the header asks of it.
#![tactic(auto)]

ghost use Rattle.std.specs.Prelude.{◌≡◌, ◌≢◌, ℕ, ◌*◌, ◌<◌, ◌≤◌, ◌++◌, ◌⊎◌, List, [], ◌∷◌, take, length, Result, Some, None, pos, vec_len, vec_capacity};
ghost use Rattle.h264_base.specs.declared.mode.Mode.{Mode};
ghost use Rattle.h264_base.specs.declared.mode.Target.{Target};
ghost use Rattle.h264_base.specs.declared.stop.Stop.{Stop};
ghost use Rattle.h264_verify.specs.Units.{terms_of};
ghost use Rattle.h264_base.specs.declared.summary.Summary.{Summary};
ghost use Rattle.h264_verify.specs.declared.state.Terms.{Terms};
ghost use Rattle.h264_stream.specs.Given.{IsGiven, HasTold};
ghost use Rattle.h264_stream.specs.Sent.{start_code, sent_answer};
ghost use Rattle.h264_units.specs.Stream.{IsBody, input_limit};
ghost use Rattle.h264_verify.specs.Account.{Account};
ghost use Rattle.h264_stream.specs.declared.decoder.Decoder.{Decoder};
ghost use Rattle.h264_stream.specs.declared.queue.ShownFrame.{ShownFrame};
ghost use Rattle.h264_c.specs.Frames.{IsFrame};
ghost use Rattle.h264_c.specs.Infos.{IsCInfo};
ghost use Rattle.h264_c.specs.Numbers.{mode_by, target_by, version_number};
ghost use Rattle.h264_pages.specs.declared.survey.sequence.Sequence.{Sequence};
ghost use Rattle.h264_stream.specs.Noted.{verdict_object, IsInfo};
ghost use Rattle.h264_stream.specs.declared.decoder.Standing.TheVariants.{Fallen};
ghost use Rattle.h264_stream.specs.declared.info.StreamInfo.{StreamInfo};
ghost use Rattle.h264_stream.specs.Whole.{without_frames};
ghost use Rattle.h264_c.specs.Verdicts.{IsVerdict};

mod frame;
mod info;
mod numbers;
mod stream;
mod text;
mod verdict;
mod version;

use frame::CFrame;
use h264_base::Stop;
use h264_stream::{Decoder, NotSent, judge_bytes};
use info::{CInfo, info_of};
use numbers::{mode_of, target_of};
use std::alloc::Global;
use stream::{Handle, Hidden, Stream};
use text::put_text;
use verdict::{CVerdict, misuse, verdict_of};
use version::version;

/// What `h264v_open` answers where there is a decoder.
const OPENED: i32 = 0;

/// What `h264v_open` and `h264v_send_unit` answer where memory was refused.
const MEMORY: i32 = 3;

/// What `h264v_open` answers where the mode or the target is not known.
const MISUSE: i32 = 5;

/// What `h264v_send` answers where the stream goes on.
const GOES_ON: i32 = 0;

/// What `h264v_send` answers where the verdict stands.
const FELL: i32 = 1;

/// What `h264v_send_unit` answers where the bytes are those of no NAL unit.
const NO_UNIT: i32 = 2;

/// What `h264v_receive` answers where no frame waits.
const NO_FRAME: i32 = 0;

/// What `h264v_receive` answers where it lends a frame.
const FRAME: i32 = 1;

/// What `h264v_stream` answers where no slice was read.
const NOT_TOLD: i32 = 0;

/// What `h264v_stream` answers where it wrote what a set says.
const TOLD: i32 = 1;

/// The version of the library.
#[unsafe(no_mangle)]
pub extern "C" fn h264v_version() -> u32
    ensures { result ≡ version_number 0 1 0 }
{
    version()
}

/// Makes a decoder, which takes calls until it is closed.
#[unsafe(no_mangle)]
pub extern "C" fn h264v_open(
    alloc: Global,
    mode: u32,
    target: u32,
    decoder: &mut *mut Hidden,
) -> i32
    ensures answers { (result ≡ pos 0) ⊎ (result ≡ pos 3) ⊎ (result ≡ pos 5) }
    ensures misuse { (mode_by mode ≡ None) ⊎ (target_by target ≡ None) → result ≡ pos 5 }
    ensures known { result ≡ pos 5 → (mode_by mode ≡ None) ⊎ (target_by target ≡ None) }
    ensures untouched { result ≢ pos 0 → decoder.new ≡ decoder.old }
{
    let (Some(mode), Some(target)) = (mode_of(mode), target_of(target)) else {
        return MISUSE;
    };
    let Ok(made) = Decoder::new(alloc, mode, target) else {
        return MEMORY;
    };
    match Box::new(alloc, Stream::new(made)) {
        Ok(stream) => {
            *decoder = Box::into_raw(stream) as *mut Hidden;
            OPENED
        }
        Err(_) => MEMORY,
    }
}

/// Makes a decoder whose verdict is explained with its place, which takes calls until it is closed.
#[unsafe(no_mangle)]
pub extern "C" fn h264v_open_explaining(
    alloc: Global,
    mode: u32,
    target: u32,
    decoder: &mut *mut Hidden,
) -> i32
    ensures answers { (result ≡ pos 0) ⊎ (result ≡ pos 3) ⊎ (result ≡ pos 5) }
    ensures misuse { (mode_by mode ≡ None) ⊎ (target_by target ≡ None) → result ≡ pos 5 }
    ensures known { result ≡ pos 5 → (mode_by mode ≡ None) ⊎ (target_by target ≡ None) }
    ensures untouched { result ≢ pos 0 → decoder.new ≡ decoder.old }
{
    let (Some(mode), Some(target)) = (mode_of(mode), target_of(target)) else {
        return MISUSE;
    };
    let Ok(made) = Decoder::explaining(alloc, mode, target) else {
        return MEMORY;
    };
    match Box::new(alloc, Stream::new(made)) {
        Ok(stream) => {
            *decoder = Box::into_raw(stream) as *mut Hidden;
            OPENED
        }
        Err(_) => MEMORY,
    }
}

/// Decodes the next bytes. FELL: the verdict stands in `verdict`.
#[unsafe(no_mangle)]
pub extern "C" fn h264v_send(
    alloc: Global,
    decoder: Handle,
    bytes: &[u8],
    verdict: &mut CVerdict,
) -> i32
    ensures answers { (result ≡ pos 0) ⊎ (result ≡ pos 1) }
    ensures untouched { result ≡ pos 0 → verdict.new ≡ verdict.old }
    // The verdict is that of what was sent, however it goes on.
    ensures verdict { (terms : Terms) (before : List ℕ) → IsGiven terms decoder.value.decoder before → result ≡ pos 1 →
        (told : Result Summary Stop) × (after : Decoder) × IsVerdict told verdict.new
        × ((later : List ℕ) → HasTold terms after ((before ++ bytes.now) ++ later) told)
        × (after.codes.bits.items ≡ decoder.value.decoder.codes.bits.items) }
{
    let mut stream = decoder.into_box(alloc);
    let answer = stream.decoder.send(bytes);
    let _at = Box::into_raw(stream);
    match answer {
        None => GOES_ON,
        Some(answer) => {
            *verdict = verdict_of(answer);
            FELL
        }
    }
}

/// Decodes the next NAL unit, which has no start code. FELL: the verdict stands in `verdict`. NO_UNIT and MEMORY: nothing was sent.
#[unsafe(no_mangle)]
pub extern "C" fn h264v_send_unit(
    alloc: Global,
    decoder: Handle,
    bytes: &[u8],
    verdict: &mut CVerdict,
) -> i32
    ensures answers { (result ≡ pos 0) ⊎ (result ≡ pos 1) ⊎ (result ≡ pos 2) ⊎ (result ≡ pos 3) }
    ensures untouched { result ≢ pos 1 → verdict.new ≡ verdict.old }
    // What is sent is a unit, and what is none is told as such.
    ensures unit { (terms : Terms) (before : List ℕ) → IsGiven terms decoder.value.decoder before → (result ≡ pos 0) ⊎ (result ≡ pos 1) → IsBody bytes.now }
    ensures no_unit { result ≡ pos 2 → IsBody bytes.now → ⊥ }
    ensures memory { result ≡ pos 3 → vec_capacity decoder.value.decoder.codes.bits ≤ vec_len decoder.value.decoder.codes.bits }
    // The verdict is that of what was sent and of the unit after a start code, however it goes on. The bits of the start code are not counted in its place.
    ensures verdict { (terms : Terms) (before : List ℕ) → IsGiven terms decoder.value.decoder before → result ≡ pos 1 →
        (told : Result Summary Stop) × (after : Decoder) × IsVerdict told verdict.new
        × ((later : List ℕ) → HasTold terms after ((before ++ (start_code ++ bytes.now)) ++ later) told)
        × (length before ≤ input_limit → after.codes.bits.items ≡ decoder.value.decoder.codes.bits.items ++ 8 * length before ∷ []) }
{
    let mut stream = decoder.into_box(alloc);
    let sent = stream.decoder.send_unit(bytes);
    let _at = Box::into_raw(stream);
    match sent {
        Ok(None) => GOES_ON,
        Ok(Some(answer)) => {
            *verdict = verdict_of(answer);
            FELL
        }
        Err(NotSent::NoUnit) => NO_UNIT,
        Err(NotSent::Memory) => MEMORY,
    }
}

/// Lends the next frame, and takes back the one lent before.
#[unsafe(no_mangle)]
pub extern "C" fn h264v_receive(alloc: Global, decoder: Handle, frame: &mut CFrame) -> i32
    ensures answers { (result ≡ pos 0) ⊎ (result ≡ pos 1) }
    ensures untouched { result ≡ pos 0 → frame.new ≡ frame.old }
    // It is the first of the frames that waited.
    ensures first { result ≡ pos 1 → (shown : ShownFrame) × (later : List ShownFrame)
        × (decoder.value.decoder.queue.waiting.items ≡ shown ∷ later) × IsFrame shown frame.new }
{
    let mut stream = decoder.into_box(alloc);
    let lent = stream.lend();
    let _at = Box::into_raw(stream);
    match lent {
        Some(lent) => {
            *frame = lent;
            FRAME
        }
        None => NO_FRAME,
    }
}

/// Decodes the end of the stream.
#[unsafe(no_mangle)]
pub extern "C" fn h264v_finish(alloc: Global, decoder: Handle, verdict: &mut CVerdict)
    // The verdict is that of all that was sent.
    ensures { (terms : Terms) (before : List ℕ) → IsGiven terms decoder.value.decoder before →
        (told : Result Summary Stop) × (after : Decoder) × IsVerdict told verdict.new × HasTold terms after before told
        × (after.codes.bits.items ≡ decoder.value.decoder.codes.bits.items) }
{
    let mut stream = decoder.into_box(alloc);
    let answer = stream.decoder.finish();
    let _at = Box::into_raw(stream);
    *verdict = verdict_of(answer);
}

/// Writes the verdict as an object of JSON, where it fits; its length in any case.
#[unsafe(no_mangle)]
pub extern "C" fn h264v_explain(alloc: Global, decoder: Handle, buffer: &mut [u8]) -> usize
    // The object is that of the verdict, and a 0 stands after it.
    ensures object { (answer : Result Summary Stop) → decoder.value.decoder.standing ≡ Fallen answer → 0 < result → result < length buffer.old →
        (more : List ℕ) × (take result buffer.new ≡ verdict_object (sent_answer decoder.value.decoder.codes.bits.items answer) more) }
    ensures wide { length buffer.old ≤ result → buffer.new ≡ buffer.old }
    ensures running { (terms : Terms) (before : List ℕ) → IsGiven terms decoder.value.decoder before → result ≡ 0 }
{
    let stream = decoder.into_box(alloc);
    let object = stream.decoder.object(alloc);
    let _at = Box::into_raw(stream);
    match object {
        Some(object) => {
            put_text(object.as_str(), buffer);
            object.as_str().len()
        }
        None => 0,
    }
}

/// Writes what the parameter sets say of the stream.
#[unsafe(no_mangle)]
pub extern "C" fn h264v_stream(alloc: Global, decoder: Handle, info: &mut CInfo) -> i32
    ensures answers { (result ≡ pos 0) ⊎ (result ≡ pos 1) }
    ensures untouched { result ≡ pos 0 → info.new ≡ info.old }
    // It is what the set says that is in use.
    ensures told { result ≡ pos 1 → (set : Sequence) × (said : StreamInfo) × (decoder.value.decoder.notes.active ≡ Some set)
        × IsInfo set said × IsCInfo said info.new }
{
    let stream = decoder.into_box(alloc);
    let said = stream.decoder.info();
    let _at = Box::into_raw(stream);
    match said {
        Some(said) => {
            *info = info_of(&said);
            TOLD
        }
        None => NOT_TOLD,
    }
}

/// Lets go of all that a decoder holds.
#[unsafe(no_mangle)]
pub extern "C" fn h264v_close(alloc: Global, decoder: Handle) {
    let _gone = decoder.into_box(alloc);
}

/// Judges a whole stream. No frames are made.
#[unsafe(no_mangle)]
pub extern "C" fn h264v_check(
    alloc: Global,
    bytes: &[u8],
    mode: u32,
    target: u32,
    verdict: &mut CVerdict,
)
    ensures verdict { (so_far : Mode) (suits : Target) → mode_by mode ≡ Some so_far → target_by target ≡ Some suits →
        (answer : Result Summary Stop) × Account (terms_of (without_frames so_far) suits) bytes.now answer × IsVerdict answer verdict.new }
    ensures misuse { (mode_by mode ≡ None) ⊎ (target_by target ≡ None) → verdict.new.kind ≡ 5 }
{
    let (Some(mode), Some(target)) = (mode_of(mode), target_of(target)) else {
        *verdict = misuse();
        return;
    };
    *verdict = verdict_of(judge_bytes(alloc, bytes, mode, target));
}
