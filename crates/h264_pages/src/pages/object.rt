//! The fields of JSON of a verdict.
#![tactic(auto)]

ghost use Rattle.std.specs.Prelude.{◌≡◌, ℕ, List, ◌++◌, [], Option, None, Some, false, codes, if◌then◌else◌};
ghost use Rattle.std.specs.Option.{option_copied};
ghost use Rattle.h264_pages.specs.Pages.{text_on, is_cut, word_text, found_fields, answer_fields, Adds, AddsFirst};
ghost use Rattle.h264_pages.specs.Pages as pages;
ghost use Rattle.h264_pages.specs.Places.{bit_in, bit_fields, named_bit_fields, unit_fields, picture_fields, element_fields};
ghost use Rattle.h264_pages.specs.Places.{finding_fields, bare_fields, allowed_as, remedied_place_fields, whole_finding_fields, said_fields, whole_fields};
ghost use Rattle.h264_pages.specs.Findings.{rule_in};
ghost use Rattle.h264_pages.specs.Reasons.{size_fields, cabac_field, declared_fields, input_fields, reason_fields, remedy_field, cause_text};

use crate::pages::allowed::put_allowed;
use crate::pages::finding::{
    Answer, BITS_A_BYTE, Finding, Guide, bit_of, file_in, reason_in, rule_of,
};
use crate::pages::glance::{Declared, Size};
use crate::pages::page::Page;
use crate::pages::reason::{Reason, put_cause_text, put_remedy};
use crate::survey::{Survey, Unit};
use h264_base::{Stop, Summary};
use h264_lines::answer::answer_status;
use h264_lines::trail::Element;
use std::alloc::Global;

/// The word of an answer in the field `verdict`.
fn word_of(answer: Answer) -> &'static str
    ensures { result.now ≡ word_text answer }
{
    match answer {
        Ok(_) => "yes",
        Err(Stop::No { .. }) => "no",
        Err(Stop::Outside { .. }) => "outside",
        Err(Stop::Memory) => "memory",
        Err(Stop::Read) => "read failed",
        Err(Stop::Write) => "write failed",
    }
}

/// Adds the counts of a yes.
fn put_summary(page: &mut Page, summary: Summary)
    ensures { Adds page.old page.new (pages.number_field (codes "units") summary.units ++ (pages.number_field (codes "pictures") summary.pictures
        ++ pages.number_field (codes "frames") summary.frames)) }
{
    page.number_field("units", summary.units);
    page.number_field("pictures", summary.pictures);
    page.number_field("frames", summary.frames);
}

/// Adds of a yes the counts, of a no the rule with its clause, of an outside the feature.
fn put_found(page: &mut Page, answer: Answer)
    ensures { Adds page.old page.new (found_fields answer) }
{
    match answer {
        Ok(summary) => put_summary(page, summary),
        Err(Stop::No { rule, .. }) => {
            page.text_field("rule", rule.label());
            page.text_field("clause", rule.clause());
        }
        Err(Stop::Outside { feature, .. }) => page.text_field("feature", feature.text()),
        Err(_) => {}
    }
}

/// Adds the fields of an answer: its word and exit status; of a yes the counts, of a no the rule, of an outside the feature.
pub fn put_answer_fields(page: &mut Page, answer: Answer)
    ensures { Adds page.old page.new (answer_fields answer) }
{
    page.text_field("verdict", word_of(answer));
    page.number_field("status", u64::from(answer_status(answer)));
    put_found(page, answer);
}

/// Adds the fields of an element.
fn put_element(page: &mut Page, element: Element)
    ensures { Adds page.old page.new (element_fields (Some element) None) }
{
    page.text_field("element", element.name.text());
    page.signed_field("value", element.value);
}

/// Adds the fields of a size, where it is known.
pub(crate) fn put_size(page: &mut Page, size: Option<Size>)
    ensures { Adds page.old page.new (size_fields size) }
{
    if let Some(size) = size {
        page.number_field("width", size.width);
        page.number_field("height", size.height);
    }
}

/// Adds the fields of what a stream says of itself.
fn put_declared(page: &mut Page, declared: Declared)
    ensures { Adds page.old page.new (declared_fields declared) }
{
    page.text_field("profile", declared.profile());
    page.number_field("profile_idc", declared.profile_idc);
    page.maybe_field("level_idc", declared.level_idc);
    put_size(page, declared.size);
    put_cabac(page, declared.cabac);
}

/// Adds the field of the entropy coding, where it is known.
fn put_cabac(page: &mut Page, cabac: Option<bool>)
    ensures { Adds page.old page.new (cabac_field cabac) }
{
    if let Some(is_cabac) = cabac {
        page.bool_field("cabac", is_cabac);
    }
}

/// Adds a field of a text that was made apart, where it is to be there. Where memory was wanting for the text, it is wanting for the page.
fn put_part(page: &mut Page, name: &str, is_there: bool, text: &Page)
    ensures text { Adds page.old page.new (if is_there then pages.text_field name.now (text_on text.now) else []) }
    ensures whole { is_cut page.new ≡ false → is_cut text.now ≡ false }
{
    if text.is_short() {
        page.give_up();
        return;
    }
    if is_there {
        page.text_field(name, text.as_str());
    }
}

/// Adds the fields of what the input is, by its reason.
fn put_input(page: &mut Page, reason: Reason)
    ensures { Adds page.old page.new (input_fields reason) }
{
    match reason {
        Reason::Container(container) => page.text_field("container", container.name()),
        Reason::OtherProfile(declared) => put_declared(page, declared),
        Reason::Hevc | Reason::Cabac => {}
    }
}

/// Adds the fields of the reason, and of what to do about it.
fn put_reason(alloc: Global, page: &mut Page, reason: Reason, file: Option<&str>)
    ensures { Adds page.old page.new (reason_fields reason ++ remedy_field reason (option_copied file.entry)) }
{
    page.text_field("reason", reason.name());
    put_input(page, reason);
    let mut remedy = Page::new(alloc);
    let has_remedy = put_remedy(&mut remedy, reason, file);
    put_part(page, "remedy", has_remedy, &remedy);
}

/// Adds the fields of a bit and of the unit that it is in.
fn put_bit(page: &mut Page, survey: &Survey, finding: &Finding)
    ensures { Adds page.old page.new (bit_fields finding.now.bit ++ unit_fields survey.now.unit) }
{
    page.number_field("bit", finding.bit);
    page.number_field("byte", finding.byte());
    put_unit(page, survey.unit);
}

/// Adds the fields of the unit that was told last.
fn put_unit(page: &mut Page, unit: Option<Unit>)
    ensures { Adds page.old page.new (unit_fields unit) }
{
    if let Some(unit) = unit {
        page.number_field("unit", unit.byte);
        page.number_field("nal_unit_type", u64::from(unit.nal_unit_type.number()));
    }
}

/// Adds the fields of a picture, a slice and a macroblock.
fn put_picture(page: &mut Page, finding: &Finding)
    ensures { Adds page.old page.new (picture_fields finding.now) }
{
    page.maybe_field("picture", finding.picture);
    page.maybe_field("frame_num", finding.frame_num);
    page.maybe_field("slice", finding.slice);
    if let Some(macroblock) = finding.macroblock {
        page.number_field("macroblock", macroblock.address);
        page.number_field("column", macroblock.column);
        page.number_field("row", macroblock.row);
    }
}

/// Adds the fields of the element that breaks a rule, or of the last one before.
fn put_element_found(page: &mut Page, finding: &Finding)
    ensures { Adds page.old page.new (element_fields finding.now.element finding.now.last) }
{
    if let Some(element) = finding.element {
        put_element(page, element);
    } else if let Some(element) = finding.last {
        page.text_field("after", element.name.text());
    }
}

/// Adds the fields of the place and of what was found there.
fn put_finding(
    alloc: Global,
    page: &mut Page,
    survey: &Survey,
    finding: &Finding,
    file: Option<&str>,
)
    ensures { Adds page.old page.new (remedied_place_fields (option_copied file.entry) survey.now.unit finding.now) }
{
    put_bit(page, survey, finding);
    put_picture(page, finding);
    put_element_found(page, finding);
    page.bool_field("ends_in_unit", finding.ends_in_unit);
    if let Some(reason) = finding.reason {
        put_reason(alloc, page, reason, file);
    }
}

/// Adds the field of what is allowed, where there is something to say.
fn put_allowed_field(
    alloc: Global,
    page: &mut Page,
    answer: Answer,
    survey: &Survey,
    finding: &Finding,
)
    ensures { (words : Option (List ℕ)) × Adds page.old page.new (allowed_as (pages.text_field (codes "allowed")) (rule_in answer) words) }
{
    if let Some(rule) = rule_of(answer) {
        let mut allowed = Page::new(alloc);
        put_allowed(&mut allowed, rule, survey, finding);
        let is_said = allowed.as_str() != "";
        put_part(page, "allowed", is_said, &allowed);
    }
}

/// Adds the fields of where a verdict stands, what was found there, and what is allowed.
fn put_place(
    alloc: Global,
    page: &mut Page,
    answer: Answer,
    survey: &Survey,
    finding: Option<Finding>,
    file: Option<&str>,
)
    ensures { (words : Option (List ℕ)) × Adds page.old page.new (whole_finding_fields (option_copied file.entry) survey.now.unit
        (rule_in answer) finding words) }
{
    if let Some(finding) = finding {
        put_finding(alloc, page, survey, &finding, file);
        put_allowed_field(alloc, page, answer, survey, &finding);
    }
}

/// Adds the field of the cause: what the input is, where it is no stream for this program; else what usually causes it.
fn put_cause(alloc: Global, page: &mut Page, reason: Option<Reason>, guide: Guide<'_>)
    ensures { Adds page.old page.new (pages.text_field (codes "cause") (cause_text reason guide.entry.cause.now)) }
{
    let mut cause = Page::new(alloc);
    put_cause_text(&mut cause, reason, guide.cause);
    put_part(page, "cause", true, &cause);
}

/// Adds the fields of what is said of the rule or feature.
fn put_guide(alloc: Global, page: &mut Page, finding: Option<Finding>, guide: Guide<'_>)
    ensures { Adds page.old page.new (said_fields finding (Some guide.entry)) }
{
    page.text_field("breaks", guide.breaks);
    put_cause(alloc, page, reason_in(finding), guide);
}

/// Adds the fields of the bit that an answer names, where it names one.
fn put_bare_bit(page: &mut Page, answer: Answer)
    ensures { Adds page.old page.new (named_bit_fields (bit_in answer)) }
{
    if let Some(bit) = bit_of(answer) {
        page.number_field("bit", bit);
        page.number_field("byte", bit / BITS_A_BYTE);
    }
}

/// Adds the fields of a verdict on a stream that was not surveyed: the answer, its bit, and what is said of it to a reader.
pub fn put_bare_verdict_fields(
    alloc: Global,
    page: &mut Page,
    answer: Answer,
    guide: Option<Guide<'_>>,
)
    ensures answer { AddsFirst page.old page.new (answer_fields answer) }
    ensures whole { Adds page.old page.new (bare_fields answer guide.entry) }
{
    put_answer_fields(page, answer);
    put_bare_bit(page, answer);
    if let Some(guide) = guide {
        put_guide(alloc, page, None, guide);
    }
}

/// Adds the fields of a verdict: the answer, where it stands and what was found there, and what is said of it to a reader.
pub fn put_verdict_fields(
    alloc: Global,
    page: &mut Page,
    answer: Answer,
    survey: &Survey,
    finding: Option<Finding>,
    guide: Option<Guide<'_>>,
)
    ensures answer { AddsFirst page.old page.new (answer_fields answer) }
    ensures place { AddsFirst page.old page.new (answer_fields answer ++ finding_fields survey.now.unit finding) }
    ensures whole { (words : Option (List ℕ)) × Adds page.old page.new (whole_fields answer survey.now.unit finding guide.entry words) }
{
    put_answer_fields(page, answer);
    put_place(alloc, page, answer, survey, finding, file_in(guide));
    if let Some(guide) = guide {
        put_guide(alloc, page, finding, guide);
    }
}
