//! What is said of a stream to a reader: explanations, what is known of a stream, and pages of HTML with plots and pictures.
//!
//! A `Survey` notes the calls of a sink: `Surveyed`, `PageSink` and `Narrowed` stand around another sink. The first two hand each call on, and `Narrowed`
//! what is chosen. `pages` writes what a survey has, as text, as objects of JSON, or as a page. `rules` has what is said of each rule and each feature.
//!
//! Promised: what a survey has of the calls that were taken (`specs/Surveyed.antt`); that a sink round which another stands took each call, or what
//! `Rattle.h264_lines.specs.Chosen` leaves of them; that each rule and each feature has its entry; a text within a string of JSON, and one within HTML; the
//! fields of a verdict (`specs/Pages.antt`, `specs/Places.antt`), the lines that explain it (`specs/Explanations.antt`), and the lines and the object of
//! `info` (`specs/Info.antt`), but for the words on what a rule allows; and why an input is no stream for this program, by its first bytes, the rule and the
//! profile of the set that is read (`specs/Starts.antt`), with the command that extracts one (`specs/Reasons.antt`). Nothing else is promised of the texts,
//! plots and pictures of a page.
#![tactic(auto)]

mod json;
pub mod page_sink;
pub mod pages;
pub mod rules;
pub mod survey;

pub use json::escaped;
pub use page_sink::PageSink;
pub use rules::{
    FeatureEntry, RuleEntry, entry_by_label, entry_of, entry_of_feature, feature_by_name,
};
