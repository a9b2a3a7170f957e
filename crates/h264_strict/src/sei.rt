//! SEI: its messages, and what they say (7.3.2.3, Annex D).
//!
//! `is_sei` says whether an RBSP is messages of the sizes that they tell, and trailing bits. `message_at` reads one message, and says whether it is as its
//! syntax says: its elements with values in their ranges, and then the bits that close it, in exactly payloadSize bytes.
//!
//! Judged are messages that need no parameter set, and those that need a sequence parameter set where it is known (`KnownSet`); a message of another type
//! holds. What a message says of pictures is not decided here. `times_of` gives the times that a unit tells.
#![tactic(auto)]

mod content;
pub mod messages;
mod part;
pub mod payload;
pub mod times;
pub mod timing;

pub use messages::{after, ff_bytes, is_sei, is_trailing};
pub use payload::{Message, message_at};
pub use times::TimesTold;
pub(crate) use times::times_of;
pub use timing::{FirstDelays, InitialDelay, KnownSet};
pub(crate) use timing::{bit_rate, cpb_size, nal_of, vcl_of};
