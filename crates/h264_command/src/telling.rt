//! How the answer on a file is told: lines, or an object of JSON.
#![tactic(auto)]

ghost use Rattle.std.specs.Prelude.{◌≡◌, ◌≢◌, ◌⊎◌, ◌++◌, ℕ, List, true, false, Err, IfOk, IfSome, string_bytes};
ghost use Rattle.h264_base.specs.declared.mode.Mode.{Mode};
ghost use Rattle.h264_base.specs.declared.stop.Stop.TheVariants.{Memory, Read, Write};
ghost use Rattle.h264_lines.specs.Lines.{verdict_text};
ghost use Rattle.h264_pages.specs.Pages.{text_on, is_cut, Adds};
ghost use Rattle.h264_lines.specs.Sent.{Takes};
ghost use Rattle.h264_report.specs.Written.{last_line};
ghost use Rattle.h264_command.specs.Endings.{AddsSome, AreEarlierLines, IsAnswerText, IsEarlier, IsEndText, IsExplanation, IsIf, IsOfFurther, IsOfInfo};
ghost use Rattle.h264_command.specs.Endings.{IsVerdictObject};
ghost use Rattle.h264_command.specs.Further.{BreakOne, IsNoVerdict};
ghost use Rattle.h264_command.specs.Texts.{change_fields, change_line, change_object, change_of, head_of, opening_in, size_text, verdict_object};
ghost use Rattle.h264_command.specs.Texts.{EndsWith, EndsWithAnswer, EndsWithChange, TellsAnswer};
ghost use Rattle.h264_words.specs.Words as words;

use crate::job::{Done, Found, Job, mode_of};
use crate::strictly::{FurtherRules, StrictForm, put_strict};
use h264_base::Stop;
use h264_lines::head::Head;
use h264_lines::{Device, put_text, shown, verdict_line};
use h264_pages::pages::{
    Answer, Page, guide_on, put_answer_fields, put_explanation, put_verdict_fields,
};
use h264_report::{Ending, put_line};
use h264_words::command_line::Task;
use std::alloc::{AllocError, Global};

/// Adds what explains the answer, where that is asked.
fn put_explained(job: &Job<'_>, page: &mut Page, found: &Found)
    ensures { AddsSome page.old page.new (IsIf job.now.options.explain (IsExplanation job.now.file.now found.now)) }
{
    if job.options.explain {
        put_explanation(
            job.alloc,
            page,
            found.answer,
            &found.survey,
            found.finding(),
            guide_on(found.answer, job.file),
        );
    }
}

/// Adds what the further rules found, where they are asked for.
fn put_further(page: &mut Page, form: StrictForm<'_>, strict: &Option<FurtherRules>)
    ensures { AddsSome page.old page.new (IsOfFurther form.entry strict.now) }
{
    if let Some(strict) = strict {
        put_strict(page, form, strict);
    }
}

/// Adds the lines before the last: what explains the answer, where that is asked, and what the further rules found.
fn put_earlier_lines(job: &Job<'_>, page: &mut Page, found: &Found)
    ensures { AddsSome page.old page.new (AreEarlierLines job.now found.now) }
{
    put_explained(job, page, found);
    put_further(page, StrictForm::Lines, &found.strict);
}

/// Adds the last line: the answer.
fn put_last_line(job: &Job<'_>, page: &mut Page, found: &Found)
    ensures { Adds page.old page.new (job.now.prefix.now ++ last_line (words.mode_of job.now.task) found.now.answer) }
{
    match verdict_line(job.alloc, mode_of(job.task), found.answer) {
        Ok(line) => {
            page.put(job.prefix);
            page.put(line.as_str());
            page.put("\n");
        }
        Err(_) => page.give_up(),
    }
}

/// Adds the object of the answer.
fn put_verdict_object(job: &Job<'_>, page: &mut Page, found: &Found)
    ensures whole { AddsSome page.old page.new (IsVerdictObject job.now.file.now found.now) }
    ensures answer { is_cut page.new ≡ false → (is_cut page.old ≡ false) × ((more : List ℕ)
        × (text_on page.new ≡ text_on page.old ++ verdict_object (head_of job.now.file.now) found.now.answer more)) }
{
    let guide = guide_on(found.answer, job.file);
    page.open_object(job.file, "verdict");
    put_verdict_fields(
        job.alloc,
        page,
        found.answer,
        &found.survey,
        found.finding(),
        guide,
    );
    page.close_object();
}

/// The last line of an answer of memory or of a device.
fn unjudged_line(stop: Stop) -> &'static str
    ensures { (mode : Mode) → IsNoVerdict (Err stop) → result.now ≡ verdict_text mode (Err stop) }
{
    match stop {
        Stop::Read => "read failed",
        Stop::Write => "write failed",
        _ => "memory",
    }
}

/// What is said of an answer for which there was no memory: that a device failed, where the answer is that; else that memory was wanting.
fn short_of(answer: Answer) -> Stop
    ensures stop { (Err result ≡ answer) ⊎ (result ≡ Memory) }
    ensures no_verdict { IsNoVerdict (Err result) }
    ensures read { answer ≡ Err Read → result ≡ Read }
    ensures write { answer ≡ Err Write → result ≡ Write }
{
    match answer {
        Err(Stop::Read) => Stop::Read,
        Err(Stop::Write) => Stop::Write,
        _ => Stop::Memory,
    }
}

/// A size: its width and its height. AllocError: there is no memory for it.
fn size_text(alloc: Global, head: Head) -> Result<String, AllocError>
    ensures { IfOk result (λ s. string_bytes s ≡ size_text head) }
{
    let Head { width, height, .. } = head;
    format!(in alloc; "{width}x{height}")
}

/// The line that tells of a frame of another size than those before it. AllocError: there is no memory for it.
fn change_line(
    alloc: Global,
    file: &str,
    frame: u64,
    first: Head,
    other: Head,
) -> Result<String, AllocError>
    ensures { IfOk result (λ s. string_bytes s ≡ change_line (record { name = file.now; frame = frame; first = first; other = other })) }
{
    let name = shown(alloc, file)?;
    let name = name.as_str();
    let first = size_text(alloc, first)?;
    let first = first.as_str();
    let other = size_text(alloc, other)?;
    let other = other.as_str();
    format!(in alloc;
        "h264v: {name}: frame {frame} is {other}, and those before it are {first}: YUV4MPEG2 has one size\n"
    )
}

/// Adds the line that tells of a frame of another size than those before it.
fn put_change(job: &Job<'_>, page: &mut Page, frame: u64, first: Head, other: Head)
    ensures { Adds page.old page.new (change_line (record { name = job.now.file.now; frame = frame; first = first; other = other })) }
{
    match change_line(job.alloc, job.file, frame, first, other) {
        Ok(line) => page.put(line.as_str()),
        Err(_) => page.give_up(),
    }
}

/// Adds the exit status, the frame and the sizes to the object that tells of a change of size.
fn put_sizes(page: &mut Page, frame: u64, first: Head, other: Head)
    ensures { Adds page.old page.new (change_fields frame first other) }
{
    page.number_field("status", 4);
    page.number_field("frame", frame);
    page.number_field("width", other.width as u64);
    page.number_field("height", other.height as u64);
    page.number_field("width_before", first.width as u64);
    page.number_field("height_before", first.height as u64);
}

/// Adds the object that tells of a frame of another size than those before it.
fn put_change_object(job: &Job<'_>, page: &mut Page, frame: u64, first: Head, other: Head)
    ensures { Adds page.old page.new (change_object (head_of job.now.file.now)
        (record { name = job.now.file.now; frame = frame; first = first; other = other })) }
{
    page.open_object(job.file, "verdict");
    page.text_field("verdict", "size changes");
    put_sizes(page, frame, first, other);
    page.close_object();
}

/// Adds the object of `info`.
fn put_info_before(job: &Job<'_>, page: &mut Page, found: &Found)
    ensures { AddsSome page.old page.new (IsOfInfo job.now found.now) }
{
    if job.task == Task::Info {
        page.put(found.before.as_str());
    }
}

/// Adds what is written before the answer: the last elements, what explains the answer, and what the further rules found.
fn put_earlier(job: &Job<'_>, page: &mut Page, found: &Found)
    ensures { AddsSome page.old page.new (IsEarlier job.now found.now) }
{
    if job.options.json {
        put_info_before(job, page, found);
        put_further(page, StrictForm::Objects(job.file), &found.strict);
    } else {
        page.put(found.before.as_str());
        put_earlier_lines(job, page, found);
    }
}

/// Adds the answer, as a line or as an object.
fn put_answer_told(job: &Job<'_>, page: &mut Page, found: &Found)
    ensures whole { AddsSome page.old page.new (IsAnswerText job.now found.now) }
    ensures answer { is_cut page.new ≡ false → EndsWith job.now.task (opening_in job.now.options.json job.now.file.now job.now.prefix.now) found.now.answer
        (text_on page.new) }
{
    if job.options.json {
        put_verdict_object(job, page, found);
    } else {
        put_last_line(job, page, found);
    }
}

/// Adds that the size changes, as a line or as an object.
fn put_change_told(job: &Job<'_>, page: &mut Page, frame: u64, first: Head, other: Head)
    ensures { is_cut page.new ≡ false → EndsWithChange (opening_in job.now.options.json job.now.file.now job.now.prefix.now)
        (record { name = job.now.file.now; frame = frame; first = first; other = other }) (text_on page.new) }
{
    if job.options.json {
        put_change_object(job, page, frame, first, other);
    } else {
        put_change(job, page, frame, first, other);
    }
}

/// The headers of the first frame and of one of another size, with which YUV4MPEG2 ended.
fn change_in(job: &Job<'_>, found: &Found) -> Option<(Head, Head)>
    ensures framed { IfSome result (λ _. job.now.options.y4m ≡ true) }
    ensures unwritten { IfSome result (λ _. found.now.answer ≡ Err Write) }
    ensures known { job.now.options.y4m ≡ true → found.now.answer ≡ Err Write → result ≡ found.now.change }
{
    match found.answer {
        Err(Stop::Write) if job.options.y4m => found.change,
        _ => None,
    }
}

/// Adds what is written at the end of a judgement: last of all the answer, as a line or as an object.
fn put_end(job: &Job<'_>, page: &mut Page, found: &Found)
    ensures answer { is_cut page.new ≡ false → EndsWithAnswer job.now.task job.now.options
        (opening_in job.now.options.json job.now.file.now job.now.prefix.now) found.now.answer (text_on page.new) }
    ensures change { is_cut page.new ≡ false → job.now.options.y4m ≡ true → found.now.answer ≡ Err Write →
        IfSome (change_of job.now.file.now found.now.survey.frames found.now.change) (λ change.
        EndsWithChange (opening_in job.now.options.json job.now.file.now job.now.prefix.now) change (text_on page.new)) }
    ensures whole { found.now.answer ≢ Err Write → AddsSome page.old page.new (IsEndText job.now found.now) }
{
    let mut earlier = Page::new(job.alloc);
    put_earlier(job, &mut earlier, found);
    if earlier.is_short() {
        page.give_up();
        return;
    }
    page.put_lines(job.prefix, earlier.as_str());
    match change_in(job, found) {
        Some((first, other)) => put_change_told(job, page, found.survey.frames, first, other),
        None => put_answer_told(job, page, found),
    }
}

/// Writes the end of a judgement: lines, or an object of JSON; nothing where quiet is asked.
pub fn put_found<W: Device>(job: &Job<'_>, out: &mut W, found: &Found) -> Done
    ensures answer { (result.ending.answer ≡ found.now.answer) ⊎ (result.ending.answer ≡ Err Memory) }
    ensures read { found.now.answer ≡ Err Read → result.ending.answer ≡ Err Read }
    ensures write { found.now.answer ≡ Err Write → result.ending.answer ≡ Err Write }
    ensures text { (end : List ℕ) × Takes result.ending.written (W.contents out.old) (W.contents out.new) end
        × TellsAnswer job.now.task job.now.options (opening_in job.now.options.json job.now.file.now job.now.prefix.now) result.ending.answer end }
    ensures whole { (IsNoVerdict result.ending.answer → ⊥) → job.now.options.quiet ≡ false → (end : List ℕ)
        × Takes result.ending.written (W.contents out.old) (W.contents out.new) end × IsEndText job.now found.now end }
    ensures handed_over { result.ending.written ≡ true → W.holds_back out.new ≡ false }
    ensures quiet { result.ending.written ≡ true → W.has_failed out.new ≡ W.has_failed out.old }
    ensures failed { result.ending.written ≡ false → W.has_failed out.new ≡ true }
    ensures broken { result.is_broken ≡ true → BreakOne found.now.strict }
    ensures unbroken { result.is_broken ≡ false → BreakOne found.now.strict → ⊥ }
{
    let is_broken = found.is_broken();
    let mut lines = Page::new(job.alloc);
    if !job.options.quiet {
        put_end(job, &mut lines, found);
    }
    if lines.is_short() {
        let stop = short_of(found.answer);
        let ending = Ending {
            answer: Err(stop),
            written: put_line(job.prefix, unjudged_line(stop), out),
        };
        return Done { ending, is_broken };
    }
    let ending = Ending {
        answer: found.answer,
        written: put_text(out, lines.as_str()),
    };
    Done { ending, is_broken }
}

/// Writes that there is no verdict, by an answer of memory or of a device: an object or a line, or nothing where quiet is asked. Whether that was possible.
fn put_stop<W: Device>(job: &Job<'_>, out: &mut W, stop: Stop) -> bool
    ensures text { (end : List ℕ) × Takes result (W.contents out.old) (W.contents out.new) end × (IsNoVerdict (Err stop) →
        TellsAnswer job.now.task job.now.options (opening_in job.now.options.json job.now.file.now job.now.prefix.now) (Err stop) end) }
    ensures handed_over { result ≡ true → W.holds_back out.new ≡ false }
    ensures quiet { result ≡ true → W.has_failed out.new ≡ W.has_failed out.old }
    ensures failed { result ≡ false → W.has_failed out.new ≡ true }
{
    if job.options.quiet {
        return put_text(out, "");
    }
    if job.options.json {
        let mut page = Page::new(job.alloc);
        page.open_object(job.file, "verdict");
        put_answer_fields(&mut page, Err(stop));
        page.close_object();
        if !page.is_short() {
            return put_text(out, page.as_str());
        }
    }
    put_line(job.prefix, unjudged_line(stop), out)
}

/// Writes that a file was not judged, by an answer of memory or of a device.
pub fn put_unjudged<W: Device>(job: &Job<'_>, out: &mut W, stop: Stop) -> Done
    ensures answer { result.ending.answer ≡ Err stop }
    ensures text { (end : List ℕ) × Takes result.ending.written (W.contents out.old) (W.contents out.new) end × (IsNoVerdict (Err stop) →
        TellsAnswer job.now.task job.now.options (opening_in job.now.options.json job.now.file.now job.now.prefix.now) (Err stop) end) }
    ensures handed_over { result.ending.written ≡ true → W.holds_back out.new ≡ false }
    ensures quiet { result.ending.written ≡ true → W.has_failed out.new ≡ W.has_failed out.old }
    ensures failed { result.ending.written ≡ false → W.has_failed out.new ≡ true }
    ensures broken { result.is_broken ≡ false }
{
    let ending = Ending {
        answer: Err(stop),
        written: put_stop(job, out, stop),
    };
    Done {
        ending,
        is_broken: false,
    }
}
