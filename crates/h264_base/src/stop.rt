//! Why a verdict is not yes.
#![tactic(auto)]

use crate::rule::Rule;
use thiserror::Error;

/// Something in a stream that is not judged, so that the answer is neither yes nor no.
#[derive(Clone, Copy, Debug, PartialEq, Eq)]
pub enum Feature {
    /// Levels 6, 6.1 and 6.2: level_idc 60, 61 and 62.
    Level6,
    /// A unit of more than 2^28 bytes.
    UnitTooLong,
    /// An input of more than 2^40 bytes.
    InputTooLong,
}

impl Feature {
    ghost use Rattle.std.specs.Prelude.{◌≡◌};
    ghost use Rattle.h264_base.specs.Feature.{text_of};

    /// The feature's name, as the program prints it.
    #[tactic(auto, unfolding(crate::specs::Feature::text_of))]
    pub fn text(self) -> &'static str
        ensures { result.now ≡ text_of self }
    {
        match self {
            Feature::Level6 => "Level6",
            Feature::UnitTooLong => "UnitTooLong",
            Feature::InputTooLong => "InputTooLong",
        }
    }
}

/// Why work stopped. Positions count the bits of the input from 0, the highest bit of a byte first.
#[derive(Clone, Copy, Debug, PartialEq, Eq, Drop, Error)]
pub enum Stop {
    /// The first rule that is broken, and where.
    #[error("bit {bit}: the rule {rule:?} is broken")]
    No { bit: u64, rule: Rule },
    /// The first feature that is not judged, and where it stands.
    #[error("bit {bit}: {feature:?} is not judged")]
    Outside { bit: u64, feature: Feature },
    /// Memory was refused.
    #[error("not enough memory")]
    Memory,
    /// The source failed.
    #[error("the source failed")]
    Read,
    /// The sink failed.
    #[error("the sink failed")]
    Write,
}
