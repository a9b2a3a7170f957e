//! The entries of rules and features, as `explain` prints them.
#![tactic(auto)]

ghost use Rattle.std.specs.Prelude.{◌≡◌, ◌++◌, IfOk, IfSome, IfNone, OnOk, string_bytes};
ghost use Rattle.h264_words.specs.Labels.{IsLikeNone, folded};
ghost use Rattle.h264_command.specs.Explained.{label_in, IsNoLabel, rule_lines, rule_object, feature_lines, feature_object, entry_text};
ghost use Rattle.h264_command.specs.Explained.{strict_lines, strict_front, strict_object};

use h264_pages::{FeatureEntry, RuleEntry, entry_by_label, escaped, feature_by_name};
use h264_strict::{StrictEntry, strict_by_label};
use h264_words::labels::same_but_for_case;
use std::alloc::{AllocError, Global};

/// What is said of a rule, of a feature that is not judged, or of a further rule.
#[derive(Clone, Copy)]
pub enum Entry {
    Rule(RuleEntry),
    Feature(FeatureEntry),
    Further(StrictEntry),
}

/// The lines of a rule. AllocError: there is no memory for them.
fn rule_lines(alloc: Global, entry: RuleEntry) -> Result<String, AllocError>
    ensures { IfOk result (λ s. string_bytes s ≡ rule_lines entry) }
{
    let label = entry.rule.label();
    let clause = entry.rule.clause();
    let RuleEntry {
        breaks,
        bit,
        cause,
        ..
    } = entry;
    format!(in alloc; "{label} (clause {clause})\nbreaks: {breaks}\nbit: {bit}\ncause: {cause}\n")
}

/// The object of a rule. AllocError: there is no memory for it.
fn rule_object(alloc: Global, entry: RuleEntry) -> Result<String, AllocError>
    ensures { IfOk result (λ s. string_bytes s ≡ rule_object entry) }
{
    let label = entry.rule.label();
    let clause = entry.rule.clause();
    let breaks = escaped(alloc, entry.breaks)?;
    let bit = escaped(alloc, entry.bit)?;
    let cause = escaped(alloc, entry.cause)?;
    let breaks = breaks.as_str();
    let bit = bit.as_str();
    let cause = cause.as_str();
    format!(in alloc;
        "{{\"kind\":\"rule\",\"label\":\"{label}\",\"clause\":\"{clause}\",\"breaks\":\"{breaks}\",\"bit\":\"{bit}\",\"cause\":\"{cause}\"}}\n"
    )
}

/// The lines of a feature. AllocError: there is no memory for them.
fn feature_lines(alloc: Global, entry: FeatureEntry) -> Result<String, AllocError>
    ensures { IfOk result (λ s. string_bytes s ≡ feature_lines entry) }
{
    let label = entry.feature.text();
    let FeatureEntry {
        stands,
        bit,
        advice,
        ..
    } = entry;
    format!(in alloc; "{label} (outside)\nstands: {stands}\nbit: {bit}\nadvice: {advice}\n")
}

/// The object of a feature. AllocError: there is no memory for it.
fn feature_object(alloc: Global, entry: FeatureEntry) -> Result<String, AllocError>
    ensures { IfOk result (λ s. string_bytes s ≡ feature_object entry) }
{
    let label = entry.feature.text();
    let stands = escaped(alloc, entry.stands)?;
    let bit = escaped(alloc, entry.bit)?;
    let advice = escaped(alloc, entry.advice)?;
    let stands = stands.as_str();
    let bit = bit.as_str();
    let advice = advice.as_str();
    format!(in alloc;
        "{{\"kind\":\"feature\",\"label\":\"{label}\",\"stands\":\"{stands}\",\"bit\":\"{bit}\",\"advice\":\"{advice}\"}}\n"
    )
}

/// The lines of a further rule. AllocError: there is no memory for them.
fn strict_lines(alloc: Global, entry: StrictEntry) -> Result<String, AllocError>
    ensures { IfOk result (λ s. string_bytes s ≡ strict_lines entry) }
{
    let label = entry.rule.label();
    let clause = entry.rule.clause();
    let StrictEntry {
        breaks,
        bit,
        cause,
        example,
        ..
    } = entry;
    format!(in alloc;
        "{label} (--strict, clause {clause})\nbreaks: {breaks}\nbit: {bit}\ncause: {cause}\nexample: {example}\n"
    )
}

/// The object of a further rule, up to what breaks it and the bit. AllocError: there is no memory for it.
fn strict_front(alloc: Global, entry: StrictEntry) -> Result<String, AllocError>
    ensures { IfOk result (λ s. string_bytes s ≡ strict_front entry) }
{
    let label = entry.rule.label();
    let clause = entry.rule.clause();
    let breaks = escaped(alloc, entry.breaks)?;
    let bit = escaped(alloc, entry.bit)?;
    let breaks = breaks.as_str();
    let bit = bit.as_str();
    format!(in alloc;
        "{{\"kind\":\"strict rule\",\"label\":\"{label}\",\"clause\":\"{clause}\",\"breaks\":\"{breaks}\",\"bit\":\"{bit}\""
    )
}

/// The object of a further rule. AllocError: there is no memory for it.
fn strict_object(alloc: Global, entry: StrictEntry) -> Result<String, AllocError>
    ensures { IfOk result (λ s. string_bytes s ≡ strict_object entry) }
{
    let front = strict_front(alloc, entry)?;
    let cause = escaped(alloc, entry.cause)?;
    let example = escaped(alloc, entry.example)?;
    let front = front.as_str();
    let cause = cause.as_str();
    let example = example.as_str();
    format!(in alloc; "{front},\"cause\":\"{cause}\",\"example\":\"{example}\"}}\n")
}

/// The lines of an entry, or its object. AllocError: there is no memory for them.
fn entry_text(alloc: Global, entry: Entry, json: bool) -> Result<String, AllocError>
    ensures { IfOk result (λ s. string_bytes s ≡ entry_text json entry) }
{
    match (entry, json) {
        (Entry::Rule(entry), true) => rule_object(alloc, entry),
        (Entry::Rule(entry), false) => rule_lines(alloc, entry),
        (Entry::Feature(entry), true) => feature_object(alloc, entry),
        (Entry::Feature(entry), false) => feature_lines(alloc, entry),
        (Entry::Further(entry), true) => strict_object(alloc, entry),
        (Entry::Further(entry), false) => strict_lines(alloc, entry),
    }
}

/// Adds the lines of an entry, or its object. AllocError: there is no memory for them.
pub fn put_entry(
    alloc: Global,
    text: &mut String,
    entry: Entry,
    json: bool,
) -> Result<(), AllocError>
    ensures { OnOk result (string_bytes text.new ≡ string_bytes text.old ++ entry_text json entry) }
{
    let more = entry_text(alloc, entry, json)?;
    text.push_str(more.as_str())
}

/// The entry of the rule, the feature or the further rule with exactly this label.
fn entry_of_label(label: &str) -> Option<Entry>
    ensures is { IfSome result (λ entry. label_in entry ≡ label.now) }
    ensures none { IfNone result (IsNoLabel label.now) }
{
    match entry_by_label(label) {
        Some(entry) => Some(Entry::Rule(entry)),
        None => match feature_by_name(label) {
            Some(entry) => Some(Entry::Feature(entry)),
            None => match strict_by_label(label) {
                Some(entry) => Some(Entry::Further(entry)),
                None => None,
            },
        },
    }
}

/// The entry of the rule, the feature or the further rule with this label, whatever the case of its letters.
pub fn entry_labelled(label: &str) -> Option<Entry>
    ensures is { IfSome result (λ entry. folded (label_in entry) ≡ folded label.now) }
    ensures none { IfNone result (IsLikeNone label.now) }
{
    match entry_of_label(label) {
        Some(entry) => Some(entry),
        None => entry_of_label(same_but_for_case(label)?),
    }
}
