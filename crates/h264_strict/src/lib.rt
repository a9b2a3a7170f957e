//! Rules of H.264 that no verdict rests on, judged beside it.
//!
//! `Strict` says which of them the calls of a sink break, and where; `StrictSink` stands around another sink, hands each call on, and notes it in a `Strict`.
//! `UnitReader` reads the units of a stream, for the rules on start codes, on delimiters, on SEI, on the coded picture buffer, and on bytes that the verdict
//! passes over; `UnitsRead` says what it found. `strict_by_label` has what is said of a rule.
//!
//! Promised: that `Strict` has each rule's first place and their number (`specs/Strict.antt`); that a sink round which a `StrictSink` stands took each call;
//! what a `UnitReader` tells of the bytes that it took (`specs/StrictUnits.antt`); that each further rule has its entry.
#![tactic(auto)]

mod buffer;
mod buffer_units;
mod sei;
pub mod strict;
mod strict_bytes;
mod strict_content;
pub mod strict_entries;
pub mod strict_extent;
mod strict_levels;
pub mod strict_pictures;
mod strict_ratio;
pub mod strict_rule;
pub mod strict_schedules;
pub mod strict_sets;
pub mod strict_sink;
pub mod strict_starts;
pub mod strict_units;
pub mod strict_vectors;

pub use buffer::Lack;
pub use strict::{Places, Strict};
pub use strict_entries::{StrictEntry, strict_by_label};
pub use strict_extent::Extent;
pub use strict_rule::{EVERY_STRICT_RULE, STRICT_RULES, StrictRule};
pub use strict_sink::StrictSink;
pub use strict_starts::{UnitsBefore, UnitsNoted};
pub use strict_units::{UnitReader, UnitsRead};
