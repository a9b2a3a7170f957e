//! Modes and targets by their numbers in h264v.h.
#![tactic(auto)]

ghost use Rattle.std.specs.Prelude.{◌≡◌};
ghost use Rattle.h264_c.specs.Numbers.{mode_by, target_by};

use h264_base::{Mode, Target};

/// The mode of this number. None: there is none.
pub(crate) fn mode_of(number: u32) -> Option<Mode>
    ensures { result ≡ mode_by number }
{
    match number {
        0 => Some(Mode::Units),
        1 => Some(Mode::Headers),
        2 => Some(Mode::Full),
        3 => Some(Mode::Verdict),
        _ => None,
    }
}

/// The target of this number. None: there is none.
pub(crate) fn target_of(number: u32) -> Option<Target>
    ensures { result ≡ target_by number }
{
    match number {
        0 => Some(Target::Baseline),
        1 => Some(Target::MainIP),
        _ => None,
    }
}
