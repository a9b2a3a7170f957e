//! Texts on a stream that was surveyed: the explanation of a no, objects of JSON, a summary, and an HTML page.
//!
//! `Finding::of` says where a verdict stands and what was found there. `put_explanation` and `put_verdict_fields` write it as lines and as fields of
//! JSON, `put_info` and `put_info_object` what a stream has, and `put_page` an HTML page. All write into a `Page`, which notes a want of memory and
//! never fails a call. The fields of a verdict, the lines of an explanation and of `put_info`, names, numbers and reasons are stated (`specs/`). What a rule
//! allows, and the page, are tested.
#![tactic(auto)]

pub mod album;
pub mod allowed;
pub mod container;
pub mod explanation;
pub mod finding;
pub mod first_sets;
mod glance;
pub mod html;
pub mod info;
pub mod object;
pub mod page;
pub mod plot;
pub mod profile;
pub mod ranges;
pub mod reason;

pub use album::Album;
pub use container::{Container, Start};
pub use explanation::put_explanation;
pub use finding::{Answer, Finding, Guide, guide_of, guide_on};
pub use html::{Sheets, put_page};
pub use info::{put_info, put_info_object};
pub use object::{put_answer_fields, put_bare_verdict_fields, put_verdict_fields};
pub use page::Page;
