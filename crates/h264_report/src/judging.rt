//! A stream judged, and what is found written: lines, the last elements or the frames, and the last line.
#![tactic(auto)]

ghost use Rattle.std.specs.Prelude.{◌≡◌, ◌≢◌, ℕ, ◌+◌, ◌-◌, ◌<◌, ◌⊎◌, ◌^◌, true, false, List, ◌++◌, Some, Ok, Err, IsErrOf};
ghost use Rattle.h264_base.specs.Call.{HasRoom, IsQuiet};
ghost use Rattle.h264_base.specs.declared.mode.Mode.TheVariants as modes;
ghost use Rattle.h264_verify.specs.Account.{Account};
ghost use Rattle.h264_verify.specs.Units.{terms_of};
ghost use Rattle.h264_lines.specs.Objects.{bare};
ghost use Rattle.h264_lines.specs.Sent.{Takes, wrote};
ghost use Rattle.h264_lines.specs.Told.{ended, lines_of, bytes_of};
ghost use Rattle.h264_report.specs.Written.{OfBytes, Writes, Lists, Checks, Decodes, is_no, last_line, trail_text, status_of};
ghost use Rattle.h264_lines.specs.Answer.{told_of, answer_status};

use crate::no_sink::NoSink;
use h264_base::{Failed, Mode, Stop, Target};
use h264_lines::answer::{answer_status, told_answer};
use h264_lines::device::Device;
use h264_lines::form::Form;
use h264_lines::line_sink::LineSink;
use h264_lines::lines::verdict_line;
use h264_lines::listing::Listing;
use h264_lines::send::send;
use h264_lines::sheet::{Pen, Sheet};
use h264_lines::trail::Trail;
use h264_lines::trail_sink::TrailSink;
use h264_lines::yuv_sink::YuvSink;
use h264_verify::{Source, Summary, run};
use std::alloc::Global;
use std::marker::Brand;

/// How a judgement ended.
#[derive(Clone, Copy)]
pub struct Ending {
    /// What the last line says.
    pub answer: Result<Summary, Stop>,
    /// Whether the last line was written, with the text that comes with it, and handed over.
    pub written: bool,
}

impl Ending {
    /// The exit status: 0 yes, 1 no, 2 outside, 3 memory, 4 a device failed.
    pub fn status(self) -> u8
        ensures { result ≡ status_of self.written self.answer }
    {
        if self.written {
            return answer_status(self.answer);
        }
        4
    }
}

/// Writes a text, and after it a line with its end, and hands over all that was held back; whether that was possible.
pub fn put_line<W: Device>(text: &str, line: &str, out: &mut W) -> bool
    ensures text { Takes result (W.contents out.old) (W.contents out.new) (text.now ++ ended line.now) }
    ensures handed_over { result ≡ true → W.holds_back out.new ≡ false }
    ensures quiet { result ≡ true → W.has_failed out.new ≡ W.has_failed out.old }
    ensures failed { result ≡ false → W.has_failed out.new ≡ true }
{
    if send(out, text.as_bytes()).is_err() {
        return false;
    }
    if send(out, line.as_bytes()).is_err() {
        return false;
    }
    if send(out, b"\n").is_err() {
        return false;
    }
    match out.send_rest() {
        Ok(()) => true,
        Err(Failed) => false,
    }
}

/// Writes the last line of want of memory.
pub fn put_memory<W: Device>(out: &mut W) -> Ending
    ensures answer { result.answer ≡ Err Stop.Memory }
    ensures text { Takes result.written (W.contents out.old) (W.contents out.new) (last_line modes.Full (Err Stop.Memory)) }
    ensures handed_over { result.written ≡ true → W.holds_back out.new ≡ false }
    ensures quiet { result.written ≡ true → W.has_failed out.new ≡ W.has_failed out.old }
    ensures failed { result.written ≡ false → W.has_failed out.new ≡ true }
{
    Ending {
        answer: Err(Stop::Memory),
        written: put_line("", "memory", out),
    }
}

/// Writes the last line of a verdict; where there is no memory for it, that is said in its place.
fn put_verdict<W: Device>(
    alloc: Global,
    mode: Mode,
    answer: Result<Summary, Stop>,
    out: &mut W,
) -> Ending
    ensures answer { (result.answer ≡ answer) ⊎ (result.answer ≡ Err Stop.Memory) }
    ensures text { Takes result.written (W.contents out.old) (W.contents out.new) (last_line mode result.answer) }
    ensures handed_over { result.written ≡ true → W.holds_back out.new ≡ false }
    ensures quiet { result.written ≡ true → W.has_failed out.new ≡ W.has_failed out.old }
    ensures failed { result.written ≡ false → W.has_failed out.new ≡ true }
{
    match verdict_line(alloc, mode, answer) {
        Ok(line) => Ending {
            answer,
            written: put_line("", line.as_str(), out),
        },
        Err(_) => put_memory(out),
    }
}

/// Writes the last line of an answer. Where there is no memory for the line of a verdict, that is said in its place; the other lines take none.
pub fn put_answer<W: Device>(
    alloc: Global,
    mode: Mode,
    answer: Result<Summary, Stop>,
    out: &mut W,
) -> Ending
    ensures answer { (result.answer ≡ answer) ⊎ (result.answer ≡ Err Stop.Memory) }
    ensures read { answer ≡ Err Stop.Read → result.answer ≡ Err Stop.Read }
    ensures write { answer ≡ Err Stop.Write → result.answer ≡ Err Stop.Write }
    ensures text { Takes result.written (W.contents out.old) (W.contents out.new) (last_line mode result.answer) }
    ensures handed_over { result.written ≡ true → W.holds_back out.new ≡ false }
    ensures quiet { result.written ≡ true → W.has_failed out.new ≡ W.has_failed out.old }
    ensures failed { result.written ≡ false → W.has_failed out.new ≡ true }
{
    match answer {
        Ok(_) => put_verdict(alloc, mode, answer, out),
        Err(Stop::No { .. }) => put_verdict(alloc, mode, answer, out),
        Err(Stop::Outside { .. }) => put_verdict(alloc, mode, answer, out),
        Err(Stop::Read) => Ending {
            answer,
            written: put_line("", "read failed", out),
        },
        Err(Stop::Write) => Ending {
            answer,
            written: put_line("", "write failed", out),
        },
        Err(Stop::Memory) => put_memory(out),
    }
}

/// Judges a stream, and writes the lines of its calls through a pen.
fn run_lines<'a, K: Sheet, R: Source, W: Device>(
    alloc: Global,
    mode: Mode,
    target: Target,
    listing: Listing,
    source: &mut R,
    pen: Pen<'a, W>,
) -> (Pen<'a, W>, Result<Summary, Stop>)
    requires count { HasRoom R.failures source.old }
    requires name { pen.out.ghost_name ≡ K.name }
    requires start { W.contents pen.out.now ≡ K.start }
    requires was_failed { W.has_failed pen.out.now ≡ K.was_failed }
    requires lines { K.opening ≡ bare }
    requires listing { listing ≡ K.listing }
    ensures same_reference { result.0.out.ghost_name ≡ K.name }
    ensures lines { (bytes : List ℕ) → R.left source.old ≡ Some bytes →
        Writes (lines_of K.opening K.listing 0) (terms_of mode target) bytes result.1 K.start (W.contents result.0.out.now) }
    ensures some { (bytes : List ℕ) × Writes (lines_of K.opening K.listing 0) (terms_of mode target) bytes result.1 K.start (W.contents result.0.out.now) }
    ensures read { IsErrOf result.1 Stop.Read → (R.failures source.new ≡ R.failures source.old + 1)
        ⊎ ((n : ℕ) → R.was_read source.old n → R.was_read source.new (n + 2 ^ 41)) }
    ensures read_told { (IsQuiet R.failures source.old source.new) ⊎ (IsErrOf result.1 Stop.Read ⊎ IsErrOf result.1 Stop.Write) }
    ensures write { IsErrOf result.1 Stop.Write → W.has_failed result.0.out.now ≡ true }
    ensures quiet { result.1 ≢ Err Stop.Write → W.has_failed result.0.out.now ≡ K.was_failed }
{
    let mut sink: LineSink<'_, '_, W, K> = LineSink::new(alloc, listing, Form::Lines(""), pen);
    let answer = run(alloc, source, &mut sink, mode, target);
    let broke_off = sink.broke_off();
    (sink.into_pen(), told_answer(answer, broke_off))
}

/// Judges a stream, and writes the lines of its calls; the answer that is to be told.
fn write_lines<R: Source, W: Device>(
    alloc: Global,
    mode: Mode,
    target: Target,
    listing: Listing,
    source: &mut R,
    out: &mut W,
) -> Result<Summary, Stop>
    requires { HasRoom R.failures source.old }
    ensures lines { (bytes : List ℕ) → R.left source.old ≡ Some bytes →
        Writes (lines_of bare listing 0) (terms_of mode target) bytes result (W.contents out.old) (W.contents out.new) }
    ensures some { (bytes : List ℕ) × Writes (lines_of bare listing 0) (terms_of mode target) bytes result (W.contents out.old) (W.contents out.new) }
    ensures read { IsErrOf result Stop.Read → (R.failures source.new ≡ R.failures source.old + 1)
        ⊎ ((n : ℕ) → R.was_read source.old n → R.was_read source.new (n + 2 ^ 41)) }
    ensures read_told { (IsQuiet R.failures source.old source.new) ⊎ (IsErrOf result Stop.Read ⊎ IsErrOf result Stop.Write) }
    ensures write { IsErrOf result Stop.Write → W.has_failed out.new ≡ true }
    ensures quiet { result ≢ Err Stop.Write → W.has_failed out.new ≡ W.has_failed out.old }
{
    let pen = Pen { out };
    let (_, answer) = run_lines::<Brand, R, W>(alloc, mode, target, listing, source, pen);
    answer
}

/// Judges a stream so far, for this target, with a line for each call of the listing, and then the last line.
///
/// The answer is Read where a read failed, or where the source was read 2^41 times; Write where the device failed within a line; Memory where memory
/// was wanting.
pub fn list<R: Source, W: Device>(
    alloc: Global,
    mode: Mode,
    target: Target,
    listing: Listing,
    source: &mut R,
    out: &mut W,
) -> Ending
    requires { HasRoom R.failures source.old }
    ensures lists { OfBytes (R.left source.old) (λ bytes. Lists mode target listing bytes result (wrote (W.contents out.old) (W.contents out.new))) }
    ensures read { IsErrOf result.answer Stop.Read → (R.failures source.new ≡ R.failures source.old + 1)
        ⊎ ((n : ℕ) → R.was_read source.old n → R.was_read source.new (n + 2 ^ 41)) }
    // A read that failed is told as Read; or as Write, where a write failed too.
    ensures read_told { (IsQuiet R.failures source.old source.new) ⊎ (IsErrOf result.answer Stop.Read ⊎ IsErrOf result.answer Stop.Write) }
    ensures write { IsErrOf result.answer Stop.Write → W.has_failed out.new ≡ true }
    ensures quiet { result.answer ≢ Err Stop.Write → result.written ≡ true → W.has_failed out.new ≡ W.has_failed out.old }
    ensures handed_over { result.written ≡ true → W.holds_back out.new ≡ false }
    ensures failed { result.written ≡ false → W.has_failed out.new ≡ true }
{
    let answer = write_lines(alloc, mode, target, listing, source, out);
    put_answer(alloc, mode, answer, out)
}

/// Whether a rule is broken.
fn is_no(answer: Result<Summary, Stop>) -> bool
    ensures { result ≡ is_no answer }
{
    match answer {
        Ok(_) => false,
        Err(Stop::No { .. }) => true,
        Err(Stop::Outside { .. }) => false,
        Err(Stop::Memory) => false,
        Err(Stop::Read) => false,
        Err(Stop::Write) => false,
    }
}

/// Writes after a no the last elements, and then the last line; where there is no memory for both, that is said in their place. Else it writes the
/// last line alone.
fn put_trail<W: Device>(
    alloc: Global,
    trail: &Trail,
    answer: Result<Summary, Stop>,
    out: &mut W,
) -> Ending
    ensures answer { (result.answer ≡ answer) ⊎ (result.answer ≡ Err Stop.Memory) }
    ensures read { answer ≡ Err Stop.Read → result.answer ≡ Err Stop.Read }
    ensures text { Takes result.written (W.contents out.old) (W.contents out.new)
        (trail_text trail.now result.answer ++ last_line modes.Full result.answer) }
    ensures handed_over { result.written ≡ true → W.holds_back out.new ≡ false }
    ensures quiet { result.written ≡ true → W.has_failed out.new ≡ W.has_failed out.old }
    ensures failed { result.written ≡ false → W.has_failed out.new ≡ true }
{
    if !is_no(answer) {
        return put_answer(alloc, Mode::Full, answer, out);
    }
    let Ok(text) = trail.lines(alloc) else {
        return put_memory(out);
    };
    let Ok(line) = verdict_line(alloc, Mode::Full, answer) else {
        return put_memory(out);
    };
    Ending {
        answer,
        written: put_line(text.as_str(), line.as_str(), out),
    }
}

/// Judges a stream whole, for this target, and makes no frames. After a no its last elements are written, the oldest first, and then the last line; else
/// that alone.
///
/// The answer is Read where a read failed, or where the source was read 2^41 times; Memory where memory was wanting; never Write.
pub fn check<R: Source, W: Device>(
    alloc: Global,
    target: Target,
    source: &mut R,
    out: &mut W,
) -> Ending
    requires { HasRoom R.failures source.old }
    ensures checks { OfBytes (R.left source.old) (λ bytes. Checks target bytes result (wrote (W.contents out.old) (W.contents out.new))) }
    ensures read { IsErrOf result.answer Stop.Read → (R.failures source.new ≡ R.failures source.old + 1)
        ⊎ ((n : ℕ) → R.was_read source.old n → R.was_read source.new (n + 2 ^ 41)) }
    // A read that failed is told as Read.
    ensures read_told { (IsQuiet R.failures source.old source.new) ⊎ IsErrOf result.answer Stop.Read }
    ensures write { IsErrOf result.answer Stop.Write → ⊥ }
    ensures quiet { result.written ≡ true → W.has_failed out.new ≡ W.has_failed out.old }
    ensures handed_over { result.written ≡ true → W.holds_back out.new ≡ false }
    ensures failed { result.written ≡ false → W.has_failed out.new ≡ true }
{
    let Ok(mut sink) = TrailSink::new(alloc) else {
        return put_memory(out);
    };
    let answer = run(alloc, source, &mut sink, Mode::Verdict, target);
    put_trail(alloc, sink.trail(), answer, out)
}

/// Judges a stream whole, for this target, and makes no frames: the answer. Its elements are not noted, so that this takes less time than `check`.
///
/// The answer is Read where a read failed, or where the source was read 2^41 times; Memory where memory was wanting; never Write.
pub fn judge_unnoted<R: Source>(
    alloc: Global,
    target: Target,
    source: &mut R,
) -> Result<Summary, Stop>
    requires { HasRoom R.failures source.old }
    ensures account { OfBytes (R.left source.old) (λ bytes. Account (terms_of modes.Verdict target) bytes result) }
    ensures read { IsErrOf result Stop.Read → (R.failures source.new ≡ R.failures source.old + 1)
        ⊎ ((n : ℕ) → R.was_read source.old n → R.was_read source.new (n + 2 ^ 41)) }
    // A read that failed is told as Read.
    ensures read_told { (IsQuiet R.failures source.old source.new) ⊎ IsErrOf result Stop.Read }
    ensures write { IsErrOf result Stop.Write → ⊥ }
{
    run(alloc, source, &mut NoSink, Mode::Verdict, target)
}

/// Judges a stream whole, and writes its frames through a pen.
fn run_frames<'a, K: Sheet, R: Source, W: Device>(
    alloc: Global,
    target: Target,
    source: &mut R,
    pen: Pen<'a, W>,
) -> (Pen<'a, W>, Result<Summary, Stop>)
    requires count { HasRoom R.failures source.old }
    requires name { pen.out.ghost_name ≡ K.name }
    requires start { W.contents pen.out.now ≡ K.start }
    requires was_failed { W.has_failed pen.out.now ≡ K.was_failed }
    ensures same_reference { result.0.out.ghost_name ≡ K.name }
    ensures frames { (bytes : List ℕ) → R.left source.old ≡ Some bytes →
        Writes bytes_of (terms_of modes.Full target) bytes result.1 K.start (W.contents result.0.out.now) }
    ensures some { (bytes : List ℕ) × Writes bytes_of (terms_of modes.Full target) bytes result.1 K.start (W.contents result.0.out.now) }
    ensures read { IsErrOf result.1 Stop.Read → (R.failures source.new ≡ R.failures source.old + 1)
        ⊎ ((n : ℕ) → R.was_read source.old n → R.was_read source.new (n + 2 ^ 41)) }
    ensures read_told { (IsQuiet R.failures source.old source.new) ⊎ (IsErrOf result.1 Stop.Read ⊎ IsErrOf result.1 Stop.Write) }
    ensures write { IsErrOf result.1 Stop.Write → W.has_failed result.0.out.now ≡ true }
    ensures quiet { result.1 ≢ Err Stop.Write → W.has_failed result.0.out.now ≡ K.was_failed }
{
    let mut sink: YuvSink<'_, W, K> = YuvSink::new(pen);
    let answer = run(alloc, source, &mut sink, Mode::Full, target);
    let broke_off = sink.broke_off();
    (sink.into_pen(), told_answer(answer, broke_off))
}

/// Judges a stream whole, and writes its frames; the answer that is to be told.
fn write_frames<R: Source, W: Device>(
    alloc: Global,
    target: Target,
    source: &mut R,
    out: &mut W,
) -> Result<Summary, Stop>
    requires { HasRoom R.failures source.old }
    ensures frames { (bytes : List ℕ) → R.left source.old ≡ Some bytes →
        Writes bytes_of (terms_of modes.Full target) bytes result (W.contents out.old) (W.contents out.new) }
    ensures some { (bytes : List ℕ) × Writes bytes_of (terms_of modes.Full target) bytes result (W.contents out.old) (W.contents out.new) }
    ensures read { IsErrOf result Stop.Read → (R.failures source.new ≡ R.failures source.old + 1)
        ⊎ ((n : ℕ) → R.was_read source.old n → R.was_read source.new (n + 2 ^ 41)) }
    ensures read_told { (IsQuiet R.failures source.old source.new) ⊎ (IsErrOf result Stop.Read ⊎ IsErrOf result Stop.Write) }
    ensures write { IsErrOf result Stop.Write → W.has_failed out.new ≡ true }
    ensures quiet { result ≢ Err Stop.Write → W.has_failed out.new ≡ W.has_failed out.old }
{
    let pen = Pen { out };
    let (_, answer) = run_frames::<Brand, R, W>(alloc, target, source, pen);
    answer
}

/// Judges a stream whole, for this target, and writes its frames to `out`; the last line goes to `err`.
///
/// The answer is Read where a read failed, or where the source was read 2^41 times; Write where `out` failed; Memory where memory was wanting.
pub fn decode<R: Source, W: Device, E: Device>(
    alloc: Global,
    target: Target,
    source: &mut R,
    out: &mut W,
    err: &mut E,
) -> Ending
    requires { HasRoom R.failures source.old }
    ensures decodes { OfBytes (R.left source.old) (λ bytes. Decodes target bytes result (wrote (W.contents out.old) (W.contents out.new))
        (wrote (E.contents err.old) (E.contents err.new))) }
    ensures read { IsErrOf result.answer Stop.Read → (R.failures source.new ≡ R.failures source.old + 1)
        ⊎ ((n : ℕ) → R.was_read source.old n → R.was_read source.new (n + 2 ^ 41)) }
    // A read that failed is told as Read; or as Write, where a write failed too.
    ensures read_told { (IsQuiet R.failures source.old source.new) ⊎ (IsErrOf result.answer Stop.Read ⊎ IsErrOf result.answer Stop.Write) }
    ensures write { IsErrOf result.answer Stop.Write → W.has_failed out.new ≡ true }
    ensures quiet { result.answer ≢ Err Stop.Write → W.has_failed out.new ≡ W.has_failed out.old }
    ensures handed_over { result.answer ≢ Err Stop.Write → W.holds_back out.new ≡ false }
    ensures quiet_err { result.written ≡ true → E.has_failed err.new ≡ E.has_failed err.old }
    ensures handed_over_err { result.written ≡ true → E.holds_back err.new ≡ false }
    ensures failed { result.written ≡ false → E.has_failed err.new ≡ true }
{
    let answer = write_frames(alloc, target, source, out);
    if let Err(Failed) = out.send_rest() {
        return put_answer(alloc, Mode::Full, Err(Stop::Write), err);
    }
    put_answer(alloc, Mode::Full, answer, err)
}
