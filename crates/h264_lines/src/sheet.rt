//! Where a sink writes.
#![tactic(auto)]

use crate::device::Device;
use std::marker::Brand;

/// For proofs alone: what a sink was made for. Whoever runs a sink picks it, so that the sink is known to stay that for which it was made.
pub trait Sheet {
    ghost use Rattle.std.specs.Prelude.{ℕ, Bool, List, Option};
    ghost use Rattle.h264_lines.specs.Objects.{Opening};
    ghost use Rattle.h264_lines.specs.declared.listing.Listing.{Listing};
    ghost use Rattle.h264_lines.specs.declared.choice.Choice.{Choice};

    /// The reference to the writer.
    ghost name: { ℕ };

    /// What the writer held before, where it tells.
    ghost start: { Option (List ℕ) };

    /// Whether the writer had failed before.
    ghost was_failed: { Bool };

    /// What each line or object begins with.
    ghost opening: { Opening };

    /// The calls that have lines.
    ghost listing: { Listing };

    /// What is chosen of the stream.
    ghost choice: { Choice };
}

impl Sheet for Brand {
    ghost use Rattle.std.specs.Prelude.{None, false};
    ghost use Rattle.h264_lines.specs.Chosen.{no_choice};
    ghost use Rattle.h264_lines.specs.Objects.{bare};
    ghost use Rattle.h264_lines.specs.declared.listing.Listing.TheVariants as listings;

    ghost name = { 0 };

    ghost start = { None };

    ghost was_failed = { false };

    ghost opening = { bare };

    ghost listing = { listings.Nothing };

    ghost choice = { no_choice };
}

/// A writer that is lent.
#[derive(Drop)]
pub struct Pen<'a, W: Device> {
    pub out: &'a mut W,
}
