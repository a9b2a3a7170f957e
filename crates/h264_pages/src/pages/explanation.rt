//! The lines that explain a no or an outside.
#![tactic(auto)]

ghost use Rattle.std.specs.Prelude.{◌≡◌, ℕ, List, [], Option, Some, false, codes, if◌then◌else◌};
ghost use Rattle.std.specs.Option.{option_copied};
ghost use Rattle.h264_pages.specs.Pages.{Adds, text_on, is_cut};
ghost use Rattle.h264_pages.specs.Findings.{rule_in};
ghost use Rattle.h264_pages.specs.Places.{allowed_as};
ghost use Rattle.h264_pages.specs.Explanations.{unit_text, bit_line, picture_line, macroblock_line, place_lines, element_line};
ghost use Rattle.h264_pages.specs.Explanations.{found_line, line_of, guide_lines, reason_line, remedy_line, given_remedy_line, end_line};
ghost use Rattle.h264_pages.specs.Explanations.{finding_lines, explanation};

use crate::pages::allowed::put_allowed;
use crate::pages::finding::{Answer, Finding, Guide, Macroblock, file_in, rule_of};
use crate::pages::page::Page;
use crate::pages::reason::{Reason, put_cause_text, put_remedy};
use crate::survey::{Survey, Unit};
use h264_lines::trail::Element;
use std::alloc::Global;

/// Adds the unit that was told last.
fn put_unit(page: &mut Page, unit: Option<Unit>)
    ensures { Adds page.old page.new (unit_text unit) }
{
    if let Some(unit) = unit {
        page.numbered(" unit ", unit.byte);
        page.numbered(" type ", u64::from(unit.nal_unit_type.number()));
    }
}

/// Adds the line of the bit and its byte, and of the unit that it is in.
fn put_bit(page: &mut Page, survey: &Survey, finding: &Finding)
    ensures { Adds page.old page.new (bit_line finding.now.bit survey.now.unit) }
{
    page.numbered("explain bit ", finding.bit);
    page.numbered(" byte ", finding.byte());
    put_unit(page, survey.unit);
    page.put("\n");
}

/// Adds the line of the picture and the slice, where the picture is known.
fn put_picture(page: &mut Page, finding: &Finding)
    ensures { Adds page.old page.new (picture_line finding.now.picture finding.now.frame_num finding.now.slice) }
{
    if let Some(picture) = finding.picture {
        page.numbered("explain picture ", picture);
        page.number_after(" frame ", finding.frame_num);
        page.number_after(" slice ", finding.slice);
        page.put("\n");
    }
}

/// Adds the line of a macroblock, where it is known.
fn put_macroblock(page: &mut Page, macroblock: Option<Macroblock>)
    ensures { Adds page.old page.new (macroblock_line macroblock) }
{
    if let Some(macroblock) = macroblock {
        page.numbered("explain macroblock ", macroblock.address);
        page.numbered(" column ", macroblock.column);
        page.numbered(" row ", macroblock.row);
        page.put("\n");
    }
}

/// Adds the lines of the place: bit and byte, picture and slice, macroblock.
fn put_place(page: &mut Page, survey: &Survey, finding: &Finding)
    ensures { Adds page.old page.new (place_lines survey.now.unit finding.now) }
{
    put_bit(page, survey, finding);
    put_picture(page, finding);
    put_macroblock(page, finding.macroblock);
}

/// Adds a line with an element, its bit and its value.
fn put_element(page: &mut Page, word: &str, element: Element)
    ensures { Adds page.old page.new (element_line word.now element) }
{
    page.put(word);
    page.put(element.name.text());
    page.numbered(" bit ", element.bit);
    page.put(" value ");
    page.signed(element.value);
    page.put("\n");
}

/// Adds the line of what was found: the element at the bit; else the one that was read last.
fn put_found(page: &mut Page, finding: &Finding)
    ensures { Adds page.old page.new (found_line finding.now.element finding.now.last) }
{
    if let Some(element) = finding.element {
        put_element(page, "explain found ", element);
    } else if let Some(element) = finding.last {
        put_element(page, "explain after ", element);
    }
}

/// Adds the line of what is allowed, where there is something to say.
fn put_allowed_line(
    alloc: Global,
    page: &mut Page,
    answer: Answer,
    survey: &Survey,
    finding: &Finding,
)
    ensures { (words : Option (List ℕ)) × Adds page.old page.new (allowed_as (line_of (codes "explain allowed ")) (rule_in answer) words) }
{
    if let Some(rule) = rule_of(answer) {
        let mut allowed = Page::new(alloc);
        put_allowed(&mut allowed, rule, survey, finding);
        put_line(page, "explain allowed ", allowed.as_str() != "", &allowed);
    }
}

/// Adds a line of a text that was made apart after a word, where it is to be there. Where memory was wanting for the text, it is wanting for the page.
fn put_line(page: &mut Page, word: &str, is_there: bool, text: &Page)
    ensures text { Adds page.old page.new (if is_there then line_of word.now (text_on text.now) else []) }
    ensures whole { is_cut page.new ≡ false → is_cut text.now ≡ false }
{
    if text.is_short() {
        page.give_up();
        return;
    }
    if is_there {
        page.put(word);
        page.put(text.as_str());
        page.put("\n");
    }
}

/// Adds the line of the reason, where there is one.
fn put_reason(page: &mut Page, reason: Option<Reason>)
    ensures { Adds page.old page.new (reason_line reason) }
{
    match reason {
        Some(Reason::Container(container)) => {
            page.put("explain reason container ");
            page.put(container.name());
            page.put("\n");
        }
        Some(Reason::Hevc) => page.put("explain reason hevc\n"),
        Some(Reason::OtherProfile(declared)) => {
            page.put("explain reason other-profile ");
            page.put(declared.profile());
            page.put("\n");
        }
        Some(Reason::Cabac) => page.put("explain reason cabac\n"),
        None => {}
    }
}

/// Adds the line of what to do about the reason, where there is something.
fn put_remedy_line(alloc: Global, page: &mut Page, reason: Reason, file: Option<&str>)
    ensures { Adds page.old page.new (remedy_line (option_copied file.entry) reason) }
{
    let mut remedy = Page::new(alloc);
    let has_remedy = put_remedy(&mut remedy, reason, file);
    put_line(page, "explain remedy ", has_remedy, &remedy);
}

/// Adds the lines of the rule and of what causes that it is broken: what the input is, where it is no stream for this program.
fn put_guide_lines(page: &mut Page, reason: Option<Reason>, guide: Guide<'_>)
    ensures { Adds page.old page.new (guide_lines reason (Some guide.entry)) }
{
    page.put("explain rule ");
    page.put(guide.breaks);
    page.put("\nexplain cause ");
    put_cause_text(page, reason, guide.cause);
    page.put("\n");
}

/// Adds the lines of what is said to a reader of the rule or feature, where something is.
fn put_said(page: &mut Page, reason: Option<Reason>, guide: Option<Guide<'_>>)
    ensures { Adds page.old page.new (guide_lines reason guide.entry) }
{
    if let Some(guide) = guide {
        put_guide_lines(page, reason, guide);
    }
}

/// Adds the line of what to do about the reason, where there is one.
fn put_given_remedy(alloc: Global, page: &mut Page, reason: Option<Reason>, file: Option<&str>)
    ensures { Adds page.old page.new (given_remedy_line (option_copied file.entry) reason) }
{
    if let Some(reason) = reason {
        put_remedy_line(alloc, page, reason, file);
    }
}

/// Adds the line of an input that ends in the unit.
fn put_end(page: &mut Page, ends_in_unit: bool)
    ensures { Adds page.old page.new (end_line ends_in_unit) }
{
    if ends_in_unit {
        page.put("explain end the input ends in this unit\n");
    }
}

/// Adds the lines of a finding.
fn put_lines(
    alloc: Global,
    page: &mut Page,
    answer: Answer,
    survey: &Survey,
    finding: &Finding,
    guide: Option<Guide<'_>>,
)
    ensures { (words : Option (List ℕ)) × Adds page.old page.new (finding_lines (rule_in answer) survey.now.unit finding.now guide.entry words) }
{
    put_place(page, survey, finding);
    put_found(page, finding);
    put_allowed_line(alloc, page, answer, survey, finding);
    put_said(page, finding.reason, guide);
    put_reason(page, finding.reason);
    put_given_remedy(alloc, page, finding.reason, file_in(guide));
    put_end(page, finding.ends_in_unit);
}

/// Adds the lines that explain an answer: none for a yes, and for an answer of memory or a device.
pub fn put_explanation(
    alloc: Global,
    page: &mut Page,
    answer: Answer,
    survey: &Survey,
    finding: Option<Finding>,
    guide: Option<Guide<'_>>,
)
    ensures { (words : Option (List ℕ)) × Adds page.old page.new (explanation answer survey.now.unit finding guide.entry words) }
{
    if let Some(finding) = finding {
        put_lines(alloc, page, answer, survey, &finding, guide);
    }
}
