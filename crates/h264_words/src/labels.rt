//! The labels of rules, features and further rules, and which of them a word may mean.
#![tactic(auto)]

ghost use Rattle.std.specs.Prelude.{◌≡◌, IfNone, IfSome};
ghost use Rattle.h264_base.specs.Feature.{text_of};
ghost use Rattle.h264_base.specs.Rule.{label_of};
ghost use Rattle.h264_base.specs.declared.rule.Rule.{Rule as RuleView};
ghost use Rattle.h264_base.specs.declared.stop.Feature.{Feature as FeatureView};
ghost use Rattle.h264_strict.specs.StrictRules.{label_of as further_label_of};
ghost use Rattle.h264_strict.specs.declared.strict_rule.StrictRule.{StrictRule as StrictRuleView};
ghost use Rattle.h264_words.specs.Labels.{IsLabel, IsLikeNone, folded};

use h264_base::{Feature, Rule};
use h264_strict::{EVERY_STRICT_RULE, StrictRule};
use std::alloc::{AllocError, Global};
use strsim::jaro_winkler;

/// The rules of the verdict, in the order of docs/RULES.md.
const RULES: [Rule; 36] = [
    Rule::ByteStream,
    Rule::EmptyUnit,
    Rule::Emulation,
    Rule::ForbiddenBit,
    Rule::RefIdc,
    Rule::Partition,
    Rule::CodeWord,
    Rule::ResidualWord,
    Rule::Range,
    Rule::Tool,
    Rule::Profile,
    Rule::FrameSize,
    Rule::Crop,
    Rule::Vui,
    Rule::Trailing,
    Rule::NoSet,
    Rule::FirstPicture,
    Rule::SetChanged,
    Rule::FirstMb,
    Rule::SliceType,
    Rule::FrameNum,
    Rule::IdrPicId,
    Rule::Qp,
    Rule::Count,
    Rule::ListCommand,
    Rule::MarkCommand,
    Rule::MarkDiffers,
    Rule::SliceEmpty,
    Rule::MbPast,
    Rule::NoReference,
    Rule::IntraMode,
    Rule::BlockSize,
    Rule::VectorRange,
    Rule::TransformRange,
    Rule::Incomplete,
    Rule::NoPicture,
];

/// The features that are not judged.
const FEATURES: [Feature; 3] = [Feature::Level6, Feature::UnitTooLong, Feature::InputTooLong];

/// The rule with this label, whatever the case of its letters.
fn rule_like(label: &str) -> Option<Rule>
    ensures some { IfSome result (λ rule. folded (label_of rule) ≡ folded label.now) }
    ensures none { IfNone result ((rule : RuleView) → folded (label_of rule) ≡ folded label.now → ⊥) }
{
    for rule in RULES {
        if rule.label().eq_ignore_ascii_case(label) {
            return Some(rule);
        }
    }
    None
}

/// The feature with this name, whatever the case of its letters.
fn feature_like(label: &str) -> Option<Feature>
    ensures some { IfSome result (λ feature. folded (text_of feature) ≡ folded label.now) }
    ensures none { IfNone result ((feature : FeatureView) → folded (text_of feature) ≡ folded label.now → ⊥) }
{
    for feature in FEATURES {
        if feature.text().eq_ignore_ascii_case(label) {
            return Some(feature);
        }
    }
    None
}

/// The further rule with this label, whatever the case of its letters.
fn further_like(label: &str) -> Option<StrictRule>
    ensures some { IfSome result (λ rule. folded (further_label_of rule) ≡ folded label.now) }
    ensures none { IfNone result ((rule : StrictRuleView) → folded (further_label_of rule) ≡ folded label.now → ⊥) }
{
    for rule in EVERY_STRICT_RULE {
        if rule.label().eq_ignore_ascii_case(label) {
            return Some(rule);
        }
    }
    None
}

/// The label that this one is but for the case of its letters, if there is one.
pub fn same_but_for_case(label: &str) -> Option<&'static str>
    ensures label { IfSome result (λ known. IsLabel known.now) }
    ensures same { IfSome result (λ known. folded known.now ≡ folded label.now) }
    ensures none { IfNone result (IsLikeNone label.now) }
{
    if let Some(rule) = rule_like(label) {
        return Some(rule.label());
    }
    if let Some(feature) = feature_like(label) {
        return Some(feature.text());
    }
    match further_like(label) {
        Some(rule) => Some(rule.label()),
        None => None,
    }
}

/// All labels: of rules, of features, and of further rules. AllocError: there is no memory for them.
pub fn all_labels(alloc: Global) -> Result<Vec<&'static str>, AllocError> {
    let mut labels: Vec<&'static str> = Vec::new(alloc);
    for rule in RULES {
        labels.push(rule.label())?;
    }
    for feature in FEATURES {
        labels.push(feature.text())?;
    }
    for rule in EVERY_STRICT_RULE {
        labels.push(rule.label())?;
    }
    Ok(labels)
}

/// The label that is nearest to a word. None where there is none. AllocError: there is no memory for it.
pub fn nearest_label(alloc: Global, word: &str) -> Result<Option<&'static str>, AllocError> {
    let mut nearest = None;
    let mut best = 0.0f64;
    for label in all_labels(alloc)?.iter() {
        let score = jaro_winkler(alloc, word, label)?;
        if score > best {
            best = score;
            nearest = Some(*label);
        }
    }
    Ok(nearest)
}
