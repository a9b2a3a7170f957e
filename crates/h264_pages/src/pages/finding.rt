//! Where a verdict stands, and what was found there.
#![tactic(auto)]

ghost use Rattle.std.specs.Prelude.{◌≡◌, ◌/◌, ◌&&◌, Option, None, Some, IfSome, is_some, option_map, option_and_then, find, reverse, length};
ghost use Rattle.circular_buffer.specs.Buffer.{last_item};
ghost use Rattle.h264_pages.specs.declared.pages.finding.Finding.{Finding};
ghost use Rattle.h264_pages.specs.declared.pages.finding.Guide.{Guide};
ghost use Rattle.h264_lines.specs.declared.trail.Element.{Element};
ghost use Rattle.h264_pages.specs.Findings.{rule_in, macroblock_at, macroblock_in, frame_num_in, number_before, picture_of_slice, picture_in, slice_in};
ghost use Rattle.h264_pages.specs.Places.{bit_in};
ghost use Rattle.h264_pages.specs.Starts.{IsOfSetRead, reason_of};
ghost use Rattle.h264_pages.specs.declared.pages.glance.Declared.{Declared};
ghost use Rattle.h264_pages.specs.Surveyed.{begins_at};

use crate::pages::container::Start;
use crate::pages::reason::Reason;
use crate::rules::{entry_of, entry_of_feature};
use crate::survey::{Slice, Survey};
use h264_base::{ElementName, Rule, Stop, Summary};
use h264_lines::trail::Element;

/// What a judgement answered.
pub type Answer = Result<Summary, Stop>;

/// What is said to a reader of the rule or feature that stopped a judgement.
#[derive(Clone, Copy)]
pub struct Guide<'a> {
    /// What breaks the rule, or what is not judged.
    pub breaks: &'a str,
    /// What usually causes it, or what to do.
    pub cause: &'a str,
    /// The file's name, where it is known.
    pub file: Option<&'a str>,
}

/// A macroblock by its address, and its place in macroblocks from the upper left.
#[derive(Clone, Copy)]
pub struct Macroblock {
    pub address: u64,
    pub column: u64,
    pub row: u64,
}

/// Where a no or an outside stands.
#[derive(Clone, Copy)]
pub struct Finding {
    /// The bit of the input that the verdict names.
    pub bit: u64,
    /// The number of the picture in decoding order, from 0.
    pub picture: Option<u64>,
    pub frame_num: Option<u64>,
    /// The number of the slice in its picture, from 0.
    pub slice: Option<u64>,
    pub macroblock: Option<Macroblock>,
    /// The element that begins at the bit.
    pub element: Option<Element>,
    /// The element that was read last.
    pub last: Option<Element>,
    /// Whether the input ends in the unit.
    pub ends_in_unit: bool,
    pub reason: Option<Reason>,
}

/// The bits of a byte.
pub(crate) const BITS_A_BYTE: u64 = 8;

/// What is said to a reader of an answer: of its rule or feature.
pub fn guide_of(answer: Answer) -> Option<Guide<'static>>
    ensures said { is_some result ≡ is_some (bit_in answer) }
    ensures file { IfSome result (λ guide. guide.file ≡ None) }
{
    match answer {
        Err(Stop::No { rule, .. }) => {
            let entry = entry_of(rule);
            Some(Guide {
                breaks: entry.breaks,
                cause: entry.cause,
                file: None,
            })
        }
        Err(Stop::Outside { feature, .. }) => {
            let entry = entry_of_feature(feature);
            Some(Guide {
                breaks: entry.stands,
                cause: entry.advice,
                file: None,
            })
        }
        _ => None,
    }
}

/// What is said to a reader of an answer on a file of this name.
pub fn guide_on(answer: Answer, file: &str) -> Option<Guide<'_>>
    ensures said { is_some result ≡ is_some (bit_in answer) }
    ensures file { IfSome result (λ guide. guide.file ≡ Some file.entry) }
{
    let Guide { breaks, cause, .. } = guide_of(answer)?;
    Some(Guide {
        breaks,
        cause,
        file: Some(file),
    })
}

/// The file's name, where a guide has it.
pub(crate) fn file_in(guide: Option<Guide<'_>>) -> Option<&'_ str>
    ensures { result ≡ option_and_then (λ (g : Guide). g.file) guide.entry }
{
    guide?.file
}

/// Why the input is no stream for this program, where a finding says so.
pub(crate) fn reason_in(finding: Option<Finding>) -> Option<Reason>
    ensures { result ≡ option_and_then (λ (f : Finding). f.reason) finding }
{
    finding?.reason
}

/// The rule that an answer names.
pub(crate) fn rule_of(answer: Answer) -> Option<Rule>
    ensures { result ≡ rule_in answer }
{
    match answer {
        Err(Stop::No { rule, .. }) => Some(rule),
        _ => None,
    }
}

/// The bit that an answer names.
pub(crate) fn bit_of(answer: Answer) -> Option<u64>
    ensures { result ≡ bit_in answer }
{
    match answer {
        Err(Stop::No { bit, .. }) => Some(bit),
        Err(Stop::Outside { bit, .. }) => Some(bit),
        _ => None,
    }
}

/// The macroblock of an address in a frame of this width in macroblocks.
fn macroblock_of(address: u64, width: u64) -> Macroblock
    ensures { result ≡ macroblock_at address width }
{
    if width == 0 {
        return Macroblock {
            address,
            column: 0,
            row: 0,
        };
    }
    Macroblock {
        address,
        column: address % width,
        row: address / width,
    }
}

/// The macroblock that was begun last in the slice that is read.
fn macroblock_read(survey: &Survey) -> Option<Macroblock>
    ensures { result ≡ macroblock_in survey.now }
{
    let address = survey.macroblock()?;
    let set = survey.sequence()?;
    Some(macroblock_of(address, set.width))
}

/// The number so many before one, where there is one.
fn number_before(less: u64, number: u64) -> Option<u64>
    ensures { result ≡ number_before less number }
{
    if less <= number {
        Some(number - less)
    } else {
        None
    }
}

/// The number of the picture that is read, of which so many were begun. A first_mb_in_slice of 0 that is refused begins none.
fn picture_of_slice(rule: Option<Rule>, begun: u64, slice: Slice) -> Option<u64>
    ensures { result ≡ picture_of_slice rule begun slice }
{
    match rule {
        Some(Rule::FirstMb) if slice.first_mb_in_slice == 0 => number_before(2, begun),
        _ => number_before(1, begun),
    }
}

/// The number of the picture in which this rule was broken, where a slice is read or the picture is incomplete.
#[tactic(auto, unfolding(crate::specs::Findings::picture_in))]
fn picture_read(survey: &Survey, rule: Option<Rule>) -> Option<u64>
    ensures { result ≡ picture_in rule (length survey.now.pictures.list.items) survey.now.slice }
{
    match rule {
        Some(Rule::Incomplete) => number_before(1, survey.picture_count()),
        _ => picture_of_slice(rule, survey.picture_count(), survey.slice?),
    }
}

/// The frame_num of the slice that is read.
fn frame_num_read(survey: &Survey) -> Option<u64>
    ensures { result ≡ frame_num_in survey.now.slice }
{
    let slice = survey.slice?;
    slice.frame_num
}

/// The number of the slice that is read.
fn slice_read(survey: &Survey) -> Option<u64>
    ensures { result ≡ slice_in survey.now.slice survey.now.pictures.list.items }
{
    if survey.slice.is_none() {
        return None;
    }
    match survey.pictures.list.last() {
        Some(picture) => Some(picture.slices.saturating_sub(1)),
        None => Some(0),
    }
}

impl Finding {
    /// Where an answer stands, if it is a no or an outside. `ended` says whether the source had ended when the unit was judged.
    pub fn of(answer: Answer, survey: &Survey, start: &Start, ended: bool) -> Option<Finding>
        ensures bit { option_map (λ (f : Finding). f.bit) result ≡ bit_in answer }
        ensures element { IfSome result (λ f. f.element ≡ find (begins_at f.bit) (reverse survey.now.elements.items)) }
        ensures last { IfSome result (λ f. f.last ≡ last_item survey.now.elements.items) }
        ensures picture { IfSome result (λ f. f.picture ≡ picture_in (rule_in answer) (length survey.now.pictures.list.items) survey.now.slice) }
        ensures slice { IfSome result (λ f. f.slice ≡ slice_in survey.now.slice survey.now.pictures.list.items) }
        ensures frame_num { IfSome result (λ f. f.frame_num ≡ frame_num_in survey.now.slice) }
        ensures macroblock { IfSome result (λ f. f.macroblock ≡ macroblock_in survey.now) }
        ensures ends_in_unit { IfSome result (λ f. f.ends_in_unit ≡ (ended && is_some survey.now.unit)) }
        ensures reason { rule_in answer ≡ None → IfSome result (λ f. f.reason ≡ None) }
        ensures why { IfSome result (λ f. (declared : Option Declared) × IsOfSetRead declared survey.now × (f.reason ≡
            reason_of start.now.bytes (rule_in answer) declared (last_item survey.now.elements.items))) }
    {
        let bit = bit_of(answer)?;
        let rule = rule_of(answer);
        let reason = Reason::of(answer, survey, start);
        Some(Finding {
            bit,
            picture: picture_read(survey, rule),
            frame_num: frame_num_read(survey),
            slice: slice_read(survey),
            macroblock: macroblock_read(survey),
            element: survey.element_at(bit),
            last: survey.last_element(),
            ends_in_unit: ended && survey.unit.is_some(),
            reason,
        })
    }

    /// The byte of the input with that bit.
    pub fn byte(&self) -> u64
        ensures { result ≡ self.now.bit / 8 }
    {
        self.bit / BITS_A_BYTE
    }

    /// The name of the element at the bit.
    pub fn element_name(&self) -> Option<ElementName>
        ensures { result ≡ option_map (λ (e : Element). e.name) self.now.element }
    {
        match self.element {
            Some(element) => Some(element.name),
            None => None,
        }
    }
}
